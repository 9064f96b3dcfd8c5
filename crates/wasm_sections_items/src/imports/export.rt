//! Exports.

ghost use Rattle.std.specs.Prelude.{◌≡◌};
ghost use Rattle.wasm_types.specs.decoding.Decoder.{Reaches};
ghost use Rattle.wasm_types.specs.decoding.declared.error.ErrorKind.TheVariants.{Other};
ghost use Rattle.wasm_types.specs.reader.Reading.{Gives, NeedsNoMemory};
ghost use Rattle.wasm_sections_items.specs.imports.Decode.{export, export_kind};

use crate::imports::ExternalKind;
use std::alloc::Global;
use wasm_types::{BinaryReader, Error, FromReader, Result, Words};

/// An export (WebAssembly 3.0, binary format, export section).
#[derive(Clone, Copy, Debug, PartialEq, Eq, Hash)]
pub struct Export<'a> {
    /// Its name.
    pub name: &'a str,
    /// What it is.
    pub kind: ExternalKind,
    /// Its index among those of its kind.
    pub index: u32,
}

// The error of a kind that imports alone have.
#[cold]
fn exact_error(offset: u64) -> Error
    ensures kind { result.kind ≡ Other }
    ensures offset { result.offset ≡ offset }
{
    Error::new(Words::ExactTypeIsNotAllowedInTheExports, offset)
}

// The kind of an export. That of a function of exactly its type is of imports alone, and is refused after its byte.
#[tactic(auto, using(wasm_types::specs::Laws::reaches_self, wasm_types::specs::Laws::reaches_then), unfolding(crate::specs::imports::Decode::export_kind))]
fn read_kind<'a>(alloc: Global, reader: &mut BinaryReader<'a>) -> Result<ExternalKind>
    ensures answer { Gives (λ k. k) result reader.new (export_kind reader.old) }
    ensures forward { Reaches reader.old reader.new }
    ensures no_memory { NeedsNoMemory result }
{
    match ExternalKind::from_reader(alloc, reader)? {
        ExternalKind::Func => Ok(ExternalKind::Func),
        ExternalKind::Table => Ok(ExternalKind::Table),
        ExternalKind::Memory => Ok(ExternalKind::Memory),
        ExternalKind::Global => Ok(ExternalKind::Global),
        ExternalKind::Tag => Ok(ExternalKind::Tag),
        ExternalKind::FuncExact => Err(exact_error(reader.original_position())),
    }
}

/// A name of at most as many bytes as the limits allow, a kind and an index.
impl<'a> FromReader<'a> for Export<'a> {
    ghost use Rattle.std.specs.Prelude.{false};
    ghost use Rattle.wasm_sections_items.specs.imports.Spells.{ExportTree, SpelledExport};
    ghost use Rattle.wasm_sections_items.specs.imports.DecodeLaws.{lawful-export, decides-export};

    ghost Value = { ExportTree };

    ghost view = { λ e. record { name = e.name.now; kind = e.kind; index = e.index } };

    ghost decoder = { export };

    ghost grammar = { SpelledExport };

    ghost takes_memory = { false };

    ghost lawful = { lawful-export };

    ghost exact = { decides-export };

    #[tactic(auto, using(wasm_types::specs::Laws::reaches_self, wasm_types::specs::Laws::reaches_then), unfolding(crate::specs::imports::Decode::export))]
    fn from_reader(alloc: Global, reader: &mut BinaryReader<'a>) -> Result<Export<'a>>
        ensures answer { Gives (λ e. record { name = e.name.now; kind = e.kind; index = e.index }) result reader.new
            (export reader.old.settings reader.old) }
        ensures forward { Reaches reader.old reader.new }
        ensures no_memory { NeedsNoMemory result }
    {
        let name = reader.read_string()?;
        let kind = read_kind(alloc, reader)?;
        let index = reader.read_var_u32()?;
        Ok(Export { name, kind, index })
    }
}
