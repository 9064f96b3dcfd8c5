//! Limits, of tables and memories (WebAssembly 3.0, binary format, types).

ghost use Rattle.std.specs.Prelude.{◌≡◌};
ghost use Rattle.wasm_types_values.specs.decoding.Decoder.{Reaches};
ghost use Rattle.wasm_types_values.specs.reader.Reading.{Gives, NeedsNoMemory};
ghost use Rattle.wasm_types_externs.specs.Decode.{limits_flags, size, written};

use wasm_types_values::{BinaryReader, Error, Result, Words};

// What the flags of limits say.
#[derive(Clone, Copy)]
pub(crate) struct LimitsFlags {
    // Whether a maximum follows.
    pub(crate) has_maximum: bool,
    // Whether it is shared between threads.
    pub(crate) shared: bool,
    // Whether its numbers are of 64 bits.
    pub(crate) wide: bool,
    // Whether the logarithm of a page's size follows.
    pub(crate) has_page_size: bool,
}

// A byte of flags, which is below `bound`. Another is refused at its offset, with this message.
#[tactic(auto, using(wasm_types_values::specs::Laws::reaches_self, wasm_types_values::specs::Laws::reaches_then), unfolding(crate::specs::Decode::limits_flags))]
pub(crate) fn read_flags<'a>(
    bound: u8,
    message: Words,
    reader: &mut BinaryReader<'a>,
) -> Result<LimitsFlags>
    ensures answer { Gives (λ f. f) result reader.new (limits_flags bound reader.old) }
    ensures no_memory { NeedsNoMemory result }
    ensures forward { Reaches reader.old reader.new }
{
    let offset = reader.original_position();
    let byte = reader.read_u8()?;
    if byte >= bound {
        return Err(Error::new(message, offset));
    }
    Ok(LimitsFlags {
        has_maximum: byte % 2 == 1,
        shared: byte / 2 % 2 == 1,
        wide: byte / 4 % 2 == 1,
        has_page_size: byte / 8 % 2 == 1,
    })
}

// A number of elements or of pages.
#[tactic(auto, using(wasm_types_values::specs::Laws::reaches_self, wasm_types_values::specs::Laws::reaches_then), unfolding(crate::specs::Decode::size))]
pub(crate) fn read_size<'a>(wide: bool, reader: &mut BinaryReader<'a>) -> Result<u64>
    ensures answer { Gives (λ n. n) result reader.new (size wide reader.old) }
    ensures no_memory { NeedsNoMemory result }
    ensures forward { Reaches reader.old reader.new }
{
    if wide {
        return reader.read_var_u64();
    }
    let size = reader.read_var_u32()?;
    Ok(size as u64)
}

// A maximum, where one is written.
#[tactic(auto, using(wasm_types_values::specs::Laws::reaches_self, wasm_types_values::specs::Laws::reaches_then), unfolding(crate::specs::Decode::written))]
pub(crate) fn read_maximum<'a>(
    has_maximum: bool,
    wide: bool,
    reader: &mut BinaryReader<'a>,
) -> Result<Option<u64>>
    ensures answer { Gives (λ o. o) result reader.new (written has_maximum (size wide) reader.old) }
    ensures no_memory { NeedsNoMemory result }
    ensures forward { Reaches reader.old reader.new }
{
    if !has_maximum {
        return Ok(None);
    }
    let maximum = read_size(wide, reader)?;
    Ok(Some(maximum))
}
