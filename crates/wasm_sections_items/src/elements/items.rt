//! The elements of a segment, which are passed once to find their end.

ghost use Rattle.std.specs.Prelude.{◌≡◌, IfOk};
ghost use Rattle.wasm_types.specs.decoding.Decoder.{Reaches};
ghost use Rattle.wasm_types.specs.decoding.Leb.{listed};
ghost use Rattle.wasm_types.specs.reader.Reading.{Gives, MemoryOnlyIf};
ghost use Rattle.wasm_sections_items.specs.elements.Passing.{passed, passed_list, items_at, Holds};

use crate::limited::SectionLimited;
use std::alloc::Global;
use wasm_types::{BinaryReader, FromReader, Result};

// As many values as are asked for, one after the other, which are not kept.
#[tactic(auto, using(wasm_types::specs::Laws::reaches_self, wasm_types::specs::Laws::reaches_then))]
fn pass_values<'a, T: FromReader<'a>>(
    alloc: Global,
    count: u32,
    reader: &mut BinaryReader<'a>,
) -> Result<()>
    ensures answer { Gives (λ u. u) result reader.new (passed count (T.decoder reader.old.settings) reader.old) }
    ensures memory { MemoryOnlyIf T.takes_memory result }
    ensures forward { Reaches reader.old reader.new }
{
    for _ in 0..count {
        let _ = reader.read::<T>(alloc)?;
    }
    Ok(())
}

// A count, and as many values, which are not kept.
#[tactic(auto, using(wasm_types::specs::Laws::reaches_self, wasm_types::specs::Laws::reaches_then), unfolding(crate::specs::elements::Passing::passed_list))]
fn pass_list<'a, T: FromReader<'a>>(alloc: Global, reader: &mut BinaryReader<'a>) -> Result<()>
    ensures answer { Gives (λ u. u) result reader.new (passed_list (T.decoder reader.old.settings) reader.old) }
    ensures memory { MemoryOnlyIf T.takes_memory result }
    ensures forward { Reaches reader.old reader.new }
{
    let count = reader.read_var_u32()?;
    pass_values::<T>(alloc, count, reader)
}

// A count and as many values: they are read, and given as a section over their bytes.
pub(crate) fn read_section<'a, T: FromReader<'a>>(
    alloc: Global,
    reader: &mut BinaryReader<'a>,
) -> Result<SectionLimited<'a, T>>
    ensures answer { Gives (λ s. items_at (T.decoder s.reader.settings) s.count s.reader) result reader.new
        (listed (T.decoder reader.old.settings) reader.old) }
    ensures holds { IfOk result (λ s. Holds (T.decoder reader.old.settings) reader.old reader.new s.count s.reader) }
    ensures memory { MemoryOnlyIf T.takes_memory result }
    ensures forward { Reaches reader.old reader.new }
{
    let mut ahead = reader.clone();
    pass_list::<T>(alloc, &mut ahead)?;
    let place = reader.original_position();
    let passed = reader.bytes_remaining() - ahead.bytes_remaining();
    let text = reader.read_bytes(passed)?;
    let part = BinaryReader::new_limited(text, place, reader.features(), reader.limits());
    SectionLimited::new(alloc, part)
}
