//! The types of tables, memories, globals and tags from their bytes (WebAssembly 3.0, binary format, types).

ghost use Rattle.wasm_types_values.specs.decoding.Decoder.{Reaches};
ghost use Rattle.wasm_types_values.specs.decoding.Leb.{u32 as u32_decoder};
ghost use Rattle.wasm_types_values.specs.reader.Reading.{Gives, NeedsNoMemory};
ghost use Rattle.wasm_types_externs.specs.Decode.{written, table_after};

use crate::limits::{LimitsFlags, read_flags, read_maximum, read_size};
use crate::{GlobalType, MemoryType, TableType, TagKind, TagType};
use std::alloc::Global;
use wasm_types_values::{BinaryReader, Error, FromReader, RefType, Result, ValType, Words};

// The logarithm of a page's size, where one is written.
#[tactic(auto, using(wasm_types_values::specs::Laws::reaches_self, wasm_types_values::specs::Laws::reaches_then), unfolding(crate::specs::Decode::written))]
fn read_page_size<'a>(has_page_size: bool, reader: &mut BinaryReader<'a>) -> Result<Option<u32>>
    ensures answer { Gives (λ o. o) result reader.new (written has_page_size u32_decoder reader.old) }
    ensures no_memory { NeedsNoMemory result }
    ensures forward { Reaches reader.old reader.new }
{
    if !has_page_size {
        return Ok(None);
    }
    let page_size = reader.read_var_u32()?;
    Ok(Some(page_size))
}

/// Flags in a byte below 16, another is refused at its offset; then the minimum, the maximum if bit 0 is set, and the
/// logarithm of a page's size if bit 3 is.
impl<'a> FromReader<'a> for MemoryType {
    ghost use Rattle.std.specs.Prelude.{false};
    ghost use Rattle.wasm_types_externs.specs.declared.memory.MemoryType.{MemoryType as TheType};
    ghost use Rattle.wasm_types_externs.specs.Decode.{memory_type};
    ghost use Rattle.wasm_types_externs.specs.Spells.{SpelledMemory};
    ghost use Rattle.wasm_types_externs.specs.DecodeLaws.{lawful-memory_type, decides-memory_type};

    ghost Value = { TheType };

    ghost view = { λ x. x };

    ghost decoder = { λ z. memory_type };

    ghost grammar = { λ z. SpelledMemory };

    ghost takes_memory = { false };

    ghost lawful = { λ z. lawful-memory_type };

    ghost exact = { λ z. decides-memory_type };

    #[tactic(auto, using(wasm_types_values::specs::Laws::reaches_self, wasm_types_values::specs::Laws::reaches_then), unfolding(crate::specs::Decode::memory_type, crate::specs::Decode::memory_after))]
    fn from_reader(_alloc: Global, reader: &mut BinaryReader<'a>) -> Result<MemoryType>
        ensures answer { Gives (λ x. x) result reader.new (memory_type reader.old) }
        ensures forward { Reaches reader.old reader.new }
        ensures no_memory { NeedsNoMemory result }
    {
        let flags = read_flags(16, Words::InvalidMemoryLimitsFlags, reader)?;
        let initial = read_size(flags.wide, reader)?;
        let maximum = read_maximum(flags.has_maximum, flags.wide, reader)?;
        let page_size_log2 = read_page_size(flags.has_page_size, reader)?;
        Ok(MemoryType {
            memory64: flags.wide,
            shared: flags.shared,
            initial,
            maximum,
            page_size_log2,
        })
    }
}

// What follows the type of a table's elements and its flags.
#[tactic(auto, using(wasm_types_values::specs::Laws::reaches_self, wasm_types_values::specs::Laws::reaches_then), unfolding(crate::specs::Decode::table_after))]
fn table_after_flags<'a>(
    element_type: RefType,
    flags: LimitsFlags,
    reader: &mut BinaryReader<'a>,
) -> Result<TableType>
    ensures answer { Gives (λ x. x) result reader.new (table_after element_type flags reader.old) }
    ensures no_memory { NeedsNoMemory result }
    ensures forward { Reaches reader.old reader.new }
{
    let initial = read_size(flags.wide, reader)?;
    let maximum = read_maximum(flags.has_maximum, flags.wide, reader)?;
    Ok(TableType {
        element_type,
        table64: flags.wide,
        initial,
        maximum,
        shared: flags.shared,
    })
}

/// The type of the elements; flags in a byte below 8, another is refused at its offset; then the minimum, and the maximum
/// if bit 0 is set.
impl<'a> FromReader<'a> for TableType {
    ghost use Rattle.std.specs.Prelude.{false};
    ghost use Rattle.wasm_types_externs.specs.declared.table.TableType.{TableType as TheType};
    ghost use Rattle.wasm_types_externs.specs.Decode.{table_type};
    ghost use Rattle.wasm_types_externs.specs.Spells.{SpelledTable};
    ghost use Rattle.wasm_types_externs.specs.DecodeLaws.{lawful-table_type, decides-table_type};

    ghost Value = { TheType };

    ghost view = { λ x. x };

    ghost decoder = { λ z. table_type };

    ghost grammar = { λ z. SpelledTable };

    ghost takes_memory = { false };

    ghost lawful = { λ z. lawful-table_type };

    ghost exact = { λ z. decides-table_type };

    #[tactic(auto, using(wasm_types_values::specs::Laws::reaches_self, wasm_types_values::specs::Laws::reaches_then), unfolding(crate::specs::Decode::table_type))]
    fn from_reader(alloc: Global, reader: &mut BinaryReader<'a>) -> Result<TableType>
        ensures answer { Gives (λ x. x) result reader.new (table_type reader.old) }
        ensures forward { Reaches reader.old reader.new }
        ensures no_memory { NeedsNoMemory result }
    {
        let element_type = RefType::from_reader(alloc, reader)?;
        let flags = read_flags(8, Words::InvalidTableResizableLimitsFlags, reader)?;
        table_after_flags(element_type, flags, reader)
    }
}

/// The type of the value; then a byte below 4, bit 0 of which says that it may be written and bit 1 that it is shared.
/// Another byte is refused at its offset.
impl<'a> FromReader<'a> for GlobalType {
    ghost use Rattle.std.specs.Prelude.{false};
    ghost use Rattle.wasm_types_externs.specs.declared.global.GlobalType.{GlobalType as TheType};
    ghost use Rattle.wasm_types_externs.specs.Decode.{global_type};
    ghost use Rattle.wasm_types_externs.specs.Spells.{SpelledGlobal};
    ghost use Rattle.wasm_types_externs.specs.DecodeLaws.{lawful-global_type, decides-global_type};

    ghost Value = { TheType };

    ghost view = { λ x. x };

    ghost decoder = { λ z. global_type };

    ghost grammar = { λ z. SpelledGlobal };

    ghost takes_memory = { false };

    ghost lawful = { λ z. lawful-global_type };

    ghost exact = { λ z. decides-global_type };

    #[tactic(auto, using(wasm_types_values::specs::Laws::reaches_self, wasm_types_values::specs::Laws::reaches_then), unfolding(crate::specs::Decode::global_type))]
    fn from_reader(alloc: Global, reader: &mut BinaryReader<'a>) -> Result<GlobalType>
        ensures answer { Gives (λ x. x) result reader.new (global_type reader.old) }
        ensures forward { Reaches reader.old reader.new }
        ensures no_memory { NeedsNoMemory result }
    {
        let content_type = ValType::from_reader(alloc, reader)?;
        let offset = reader.original_position();
        let flags = reader.read_u8()?;
        if flags >= 4 {
            return Err(Error::new(Words::MalformedGlobalFlags, offset));
        }
        Ok(GlobalType {
            content_type,
            mutable: flags % 2 == 1,
            shared: flags / 2 % 2 == 1,
        })
    }
}

/// A byte that is zero, another is refused at its offset; then the index of a type.
impl<'a> FromReader<'a> for TagType {
    ghost use Rattle.std.specs.Prelude.{false};
    ghost use Rattle.wasm_types_externs.specs.declared.tag.TagType.{TagType as TheType};
    ghost use Rattle.wasm_types_externs.specs.Decode.{tag_type};
    ghost use Rattle.wasm_types_externs.specs.Spells.{SpelledTag};
    ghost use Rattle.wasm_types_externs.specs.DecodeLaws.{lawful-tag_type, decides-tag_type};

    ghost Value = { TheType };

    ghost view = { λ x. x };

    ghost decoder = { λ z. tag_type };

    ghost grammar = { λ z. SpelledTag };

    ghost takes_memory = { false };

    ghost lawful = { λ z. lawful-tag_type };

    ghost exact = { λ z. decides-tag_type };

    #[tactic(auto, using(wasm_types_values::specs::Laws::reaches_self, wasm_types_values::specs::Laws::reaches_then), unfolding(crate::specs::Decode::tag_type))]
    fn from_reader(_alloc: Global, reader: &mut BinaryReader<'a>) -> Result<TagType>
        ensures answer { Gives (λ x. x) result reader.new (tag_type reader.old) }
        ensures forward { Reaches reader.old reader.new }
        ensures no_memory { NeedsNoMemory result }
    {
        let offset = reader.original_position();
        let attribute = reader.read_u8()?;
        if attribute != 0 {
            return Err(Error::new(Words::InvalidTagAttributes, offset));
        }
        let func_type_idx = reader.read_var_u32()?;
        Ok(TagType {
            kind: TagKind::Exception,
            func_type_idx,
        })
    }
}
