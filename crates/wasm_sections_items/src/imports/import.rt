//! Imports.

ghost use Rattle.std.specs.Prelude.{◌≡◌};
ghost use Rattle.wasm_types.specs.decoding.Decoder.{Reaches};
ghost use Rattle.wasm_types.specs.reader.Reading.{Gives, NeedsNoMemory};
ghost use Rattle.wasm_sections_items.specs.imports.Decode.{import};

use crate::imports::TypeRef;
use std::alloc::Global;
use wasm_types::{BinaryReader, FromReader, Result};

/// An import (WebAssembly 3.0, binary format, import section).
#[derive(Clone, Copy, Debug, PartialEq, Eq, Hash)]
pub struct Import<'a> {
    /// The name of the module that it is from.
    pub module: &'a str,
    /// Its name there.
    pub name: &'a str,
    /// Its type.
    pub ty: TypeRef,
}

/// Two names, each of at most as many bytes as the limits allow, and a type.
impl<'a> FromReader<'a> for Import<'a> {
    ghost use Rattle.std.specs.Prelude.{false};
    ghost use Rattle.wasm_sections_items.specs.imports.Spells.{ImportTree, SpelledImport};
    ghost use Rattle.wasm_sections_items.specs.imports.DecodeLaws.{lawful-import, decides-import};

    ghost Value = { ImportTree };

    ghost view = { λ i. record { module_name = i.«module».now; field_name = i.name.now; ty = i.ty } };

    ghost decoder = { import };

    ghost grammar = { SpelledImport };

    ghost takes_memory = { false };

    ghost lawful = { lawful-import };

    ghost exact = { decides-import };

    #[tactic(auto, using(wasm_types::specs::Laws::reaches_self, wasm_types::specs::Laws::reaches_then), unfolding(crate::specs::imports::Decode::import))]
    fn from_reader(alloc: Global, reader: &mut BinaryReader<'a>) -> Result<Import<'a>>
        ensures answer { Gives (λ i. record { module_name = i.«module».now; field_name = i.name.now; ty = i.ty }) result
            reader.new (import reader.old.settings reader.old) }
        ensures forward { Reaches reader.old reader.new }
        ensures no_memory { NeedsNoMemory result }
    {
        let module = reader.read_string()?;
        let name = reader.read_string()?;
        let ty = TypeRef::from_reader(alloc, reader)?;
        Ok(Import { module, name, ty })
    }
}
