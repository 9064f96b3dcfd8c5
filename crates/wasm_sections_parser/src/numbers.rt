//! Numbers that have to end before an offset, and errors of what is all there.

ghost use Rattle.std.specs.Prelude.{◌≡◌};
ghost use Rattle.wasm_types.specs.decoding.Decoder.{Reaches};
ghost use Rattle.wasm_types.specs.decoding.declared.error.ErrorKind.TheVariants.{Other};
ghost use Rattle.wasm_types.specs.reader.Reading.{Gives, NeedsNoMemory};
ghost use Rattle.wasm_sections_parser.specs.Steps.{number_before};
ghost use Rattle.wasm_sections_parser.specs.Settled.{settled};

use wasm_types::{BinaryReader, Error, Result, Words};

#[cold]
fn late_error(offset: u64) -> Error
    ensures kind { result.kind ≡ Other }
    ensures offset { result.offset ≡ offset }
{
    Error::new(Words::UnexpectedEndOfFile, offset)
}

/// A number of 32 bits that ends before this offset. One that is malformed before it is refused as any number is, and one that passes it
/// where it begins.
#[tactic(auto, using(wasm_types::specs::Laws::reaches_self, wasm_types::specs::Laws::reaches_then), unfolding(crate::specs::Steps::number_before))]
pub(crate) fn read_number_before(end: u64, reader: &mut BinaryReader<'_>) -> Result<u32>
    ensures answer { Gives (λ n. n) result reader.new (number_before end reader.old) }
    ensures no_memory { NeedsNoMemory result }
    ensures forward { Reaches reader.old reader.new }
{
    let start = reader.original_position();
    match reader.read_var_u32() {
        Ok(number) => {
            if reader.original_position() > end {
                return Err(late_error(start));
            }
            Ok(number)
        }
        Err(error) => {
            if error.offset() < end {
                return Err(error);
            }
            Err(late_error(start))
        }
    }
}

/// The same error, where no more bytes can come: an end of data is a fault.
#[cold]
pub(crate) fn settled(error: Error) -> Error
    ensures kind { result.kind ≡ settled error.kind }
    ensures offset { result.offset ≡ error.offset }
{
    if error.needed_hint().is_some() {
        return Error::new(Words::UnexpectedEndOfFile, error.offset());
    }
    error
}
