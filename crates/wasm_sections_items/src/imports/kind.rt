//! What may be imported and exported.

ghost use Rattle.std.specs.Prelude.{◌≡◌};
ghost use Rattle.wasm_types.specs.decoding.Decoder.{Reaches};
ghost use Rattle.wasm_types.specs.decoding.declared.error.ErrorKind.TheVariants.{Other};
ghost use Rattle.wasm_types.specs.reader.Reading.{Gives, NeedsNoMemory};
ghost use Rattle.wasm_sections_items.specs.imports.Decode.{external_kind};

use std::alloc::Global;
use wasm_types::{BinaryReader, Error, FromReader, Result, Text, Words};

/// What is imported or exported, without its type (WebAssembly 3.0, binary format, export section).
#[derive(Clone, Copy, Debug, PartialEq, Eq, Hash)]
pub enum ExternalKind {
    /// A function.
    Func,
    /// A table.
    Table,
    /// A memory.
    Memory,
    /// A global.
    Global,
    /// A tag.
    Tag,
    /// A function of exactly its type.
    FuncExact,
}

// The error of a byte that stands for no kind.
#[cold]
fn kind_error(byte: u8, offset: u64) -> Error
    ensures kind { result.kind ≡ Other }
    ensures offset { result.offset ≡ offset }
{
    Error::with(
        Text::Hex(
            Words::InvalidLeadingByte0x,
            byte as u32,
            Words::ForExternalKind,
        ),
        offset,
    )
}

/// A byte for each kind; another is refused at its offset.
impl<'a> FromReader<'a> for ExternalKind {
    ghost use Rattle.std.specs.Prelude.{false};
    ghost use Rattle.wasm_sections_items.specs.declared.imports.kind.ExternalKind.{ExternalKind as TheType};
    ghost use Rattle.wasm_sections_items.specs.imports.Spells.{SpelledKind};
    ghost use Rattle.wasm_sections_items.specs.imports.DecodeLaws.{lawful-external_kind, decides-external_kind};

    ghost Value = { TheType };

    ghost view = { λ k. k };

    ghost decoder = { λ z. external_kind };

    ghost grammar = { λ z. SpelledKind };

    ghost takes_memory = { false };

    ghost lawful = { λ z. lawful-external_kind };

    ghost exact = { λ z. decides-external_kind };

    #[tactic(auto, using(wasm_types::specs::Laws::reaches_self, wasm_types::specs::Laws::reaches_then), unfolding(crate::specs::imports::Decode::external_kind))]
    fn from_reader(_alloc: Global, reader: &mut BinaryReader<'a>) -> Result<ExternalKind>
        ensures answer { Gives (λ k. k) result reader.new (external_kind reader.old) }
        ensures forward { Reaches reader.old reader.new }
        ensures no_memory { NeedsNoMemory result }
    {
        let offset = reader.original_position();
        let byte = reader.read_u8()?;
        match byte {
            0x00 => Ok(ExternalKind::Func),
            0x01 => Ok(ExternalKind::Table),
            0x02 => Ok(ExternalKind::Memory),
            0x03 => Ok(ExternalKind::Global),
            0x04 => Ok(ExternalKind::Tag),
            0x20 => Ok(ExternalKind::FuncExact),
            _ => Err(kind_error(byte, offset)),
        }
    }
}
