//! Data segments.

ghost use Rattle.std.specs.Prelude.{◌≡◌, IfOk};
ghost use Rattle.wasm_types.specs.decoding.Decoder.{Reaches};
ghost use Rattle.wasm_types.specs.reader.Reading.{Gives, MemoryOnlyIf, NeedsNoMemory};
ghost use Rattle.wasm_sections_items.specs.frames.Decode.{counted_bytes};
ghost use Rattle.wasm_sections_items.specs.segments.Decode.{content, placed_in, data_segment};
ghost use Rattle.wasm_sections_items.specs.segments.Segments.{mode_of};

use std::alloc::Global;
use std::ops::Range;
use wasm_types::{BinaryReader, Error, FromReader, Result, Words};

/// How a data segment is used, where its offset is a constant expression of this type.
#[derive(Drop)]
pub enum DataKindOf<E: Drop> {
    /// An instruction copies it.
    Passive,
    /// It is copied at first.
    Active {
        /// The index of the memory that it is copied into.
        memory_index: u32,
        /// The address there, in bytes.
        offset_expr: E,
    },
}

/// A data segment (WebAssembly 3.0, binary format, data section).
#[derive(Drop)]
pub struct DataOf<'a, E: Drop> {
    /// How it is used.
    pub kind: DataKindOf<E>,
    /// Its bytes.
    pub bytes: &'a [u8],
    /// The offsets of all of it.
    pub range: Range<u64>,
}

// A count, and as many bytes.
#[tactic(auto, using(wasm_types::specs::Laws::reaches_self, wasm_types::specs::Laws::reaches_then), unfolding(crate::specs::frames::Decode::counted_bytes))]
fn read_counted_bytes<'a>(reader: &mut BinaryReader<'a>) -> Result<&'a [u8]>
    ensures answer { Gives (λ s. s.now) result reader.new (counted_bytes reader.old) }
    ensures no_memory { NeedsNoMemory result }
    ensures forward { Reaches reader.old reader.new }
{
    let count = reader.read_var_u32()?;
    reader.read_bytes(count as usize)
}

// The bytes of a segment that is used so, and begins at `start`.
#[tactic(auto, using(wasm_types::specs::Laws::reaches_self, wasm_types::specs::Laws::reaches_then))]
fn read_content<'a, E: FromReader<'a>>(
    kind: DataKindOf<E>,
    start: u64,
    reader: &mut BinaryReader<'a>,
) -> Result<DataOf<'a, E>>
    ensures answer { Gives (λ x. record { mode = mode_of E.view x.kind; content = x.bytes.now }) result reader.new
        (content (mode_of E.view kind) reader.old) }
    ensures range { IfOk result (λ x. x.range ≡ record { start = start; end = reader.new.place }) }
    ensures no_memory { NeedsNoMemory result }
    ensures forward { Reaches reader.old reader.new }
{
    let bytes = read_counted_bytes(reader)?;
    let range = Range {
        start,
        end: reader.original_position(),
    };
    Ok(DataOf { kind, bytes, range })
}

// The offset in a memory, and the bytes of a segment that begins at `start`.
#[tactic(auto, using(wasm_types::specs::Laws::reaches_self, wasm_types::specs::Laws::reaches_then))]
fn read_placed<'a, E: FromReader<'a>>(
    memory_index: u32,
    start: u64,
    alloc: Global,
    reader: &mut BinaryReader<'a>,
) -> Result<DataOf<'a, E>>
    ensures answer { Gives (λ x. record { mode = mode_of E.view x.kind; content = x.bytes.now }) result reader.new
        (placed_in (E.decoder reader.old.settings) memory_index reader.old) }
    ensures range { IfOk result (λ x. x.range ≡ record { start = start; end = reader.new.place }) }
    ensures memory { MemoryOnlyIf E.takes_memory result }
    ensures forward { Reaches reader.old reader.new }
{
    let offset_expr = E::from_reader(alloc, reader)?;
    let kind = DataKindOf::Active {
        memory_index,
        offset_expr,
    };
    read_content(kind, start, reader)
}

/// A flag; then for 0 an offset in memory 0, for 2 a memory and an offset; then counted bytes. Another flag than 0, 1 and 2
/// is refused at its offset.
impl<'a, E: FromReader<'a>> FromReader<'a> for DataOf<'a, E> {
    ghost use Rattle.wasm_sections_items.specs.segments.Spells.{DataTree, SpelledData};
    ghost use Rattle.wasm_sections_items.specs.segments.DecodeLaws.{lawful-data_segment, decides-data_segment};

    ghost Value = { DataTree E.Value };

    ghost view = { λ x. record { mode = mode_of E.view x.kind; content = x.bytes.now } };

    ghost decoder = { λ z. data_segment (E.decoder z) };

    ghost grammar = { λ z. SpelledData (E.grammar z) };

    ghost takes_memory = { E.takes_memory };

    ghost lawful = { λ z. lawful-data_segment (E.decoder z) (E.lawful z) };

    ghost exact = { λ z. decides-data_segment (E.decoder z) (E.grammar z) (E.exact z) };

    #[tactic(auto, using(wasm_types::specs::Laws::reaches_self, wasm_types::specs::Laws::reaches_then), unfolding(crate::specs::segments::Decode::data_segment))]
    fn from_reader(alloc: Global, reader: &mut BinaryReader<'a>) -> Result<DataOf<'a, E>>
        ensures answer { Gives (λ x. record { mode = mode_of E.view x.kind; content = x.bytes.now }) result reader.new
            (data_segment (E.decoder reader.old.settings) reader.old) }
        ensures memory { MemoryOnlyIf E.takes_memory result }
        ensures forward { Reaches reader.old reader.new }
        ensures range { IfOk result (λ x. x.range ≡ record { start = reader.old.place; end = reader.new.place }) }
    {
        let start = reader.original_position();
        let flag = reader.read_var_u32()?;
        if flag == 1 {
            return read_content(DataKindOf::Passive, start, reader);
        }
        if flag == 0 {
            return read_placed(0, start, alloc, reader);
        }
        if flag == 2 {
            let memory_index = reader.read_var_u32()?;
            return read_placed(memory_index, start, alloc, reader);
        }
        Err(Error::new(Words::InvalidFlagsByteInDataSegment, start))
    }
}
