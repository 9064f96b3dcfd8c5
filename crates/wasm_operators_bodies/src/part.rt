//! What is left to a reader, and a front of it.

ghost use Rattle.std.specs.Prelude.{◌≡◌, ◌≤◌, length, take};
ghost use Rattle.wasm_types.specs.decoding.Decoder.{Takes};
ghost use Rattle.wasm_types.specs.reader.Parts.{part_at};

use wasm_types::BinaryReader;

/// A reader over the next `n` bytes, which begins where they do.
pub(crate) fn front<'a>(reader: &BinaryReader<'a>, n: usize) -> BinaryReader<'a>
    requires { n ≤ length reader.now.rest }
    ensures { result ≡ part_at reader.now (take n reader.now.rest) }
{
    let place = reader.remaining_range().start;
    let end = reader.remaining_range().end;
    let mut behind = reader.clone();
    let Ok(text) = behind.read_bytes(n) else {
        unreachable!()
    };
    prove!(place <= end);
    BinaryReader::new_limited(text, place, reader.features(), reader.limits())
}

/// The bytes that are left.
pub(crate) fn left<'a>(reader: &BinaryReader<'a>) -> &'a [u8]
    ensures { result.now ≡ reader.now.rest }
{
    let mut behind = reader.clone();
    let Ok(bytes) = behind.read_bytes(reader.bytes_remaining()) else {
        unreachable!()
    };
    bytes
}

/// Takes the next `n` bytes, as a reader of their own.
pub(crate) fn take_front<'a>(reader: &mut BinaryReader<'a>, n: usize) -> BinaryReader<'a>
    requires { n ≤ length reader.old.rest }
    ensures part { result ≡ part_at reader.old (take n reader.old.rest) }
    ensures taken { Takes reader.old (take n reader.old.rest) reader.new }
{
    let part = front(reader, n);
    let Ok(_text) = reader.read_bytes(n) else {
        unreachable!()
    };
    part
}
