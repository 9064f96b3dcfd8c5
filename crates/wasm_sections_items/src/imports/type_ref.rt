//! The types of imports.

ghost use Rattle.std.specs.Prelude.{◌≡◌};
ghost use Rattle.wasm_types.specs.decoding.Decoder.{Reaches};
ghost use Rattle.wasm_types.specs.reader.Reading.{Gives, NeedsNoMemory};
ghost use Rattle.wasm_sections_items.specs.imports.Decode.{type_ref};

use crate::imports::ExternalKind;
use std::alloc::Global;
use wasm_types::{BinaryReader, FromReader, GlobalType, MemoryType, Result, TableType, TagType};

/// The type of what is imported (WebAssembly 3.0, binary format, external types).
#[derive(Clone, Copy, Debug, PartialEq, Eq, Hash)]
pub enum TypeRef {
    /// A function, by the index of its type.
    Func(u32),
    /// A table.
    Table(TableType),
    /// A memory.
    Memory(MemoryType),
    /// A global.
    Global(GlobalType),
    /// A tag.
    Tag(TagType),
    /// A function of exactly the type of this index.
    FuncExact(u32),
}

/// A kind, and what it asks for.
impl<'a> FromReader<'a> for TypeRef {
    ghost use Rattle.std.specs.Prelude.{false};
    ghost use Rattle.wasm_sections_items.specs.declared.imports.type_ref.TypeRef.{TypeRef as TheType};
    ghost use Rattle.wasm_sections_items.specs.imports.Spells.{SpelledTypeRef};
    ghost use Rattle.wasm_sections_items.specs.imports.DecodeLaws.{lawful-type_ref, decides-type_ref};

    ghost Value = { TheType };

    ghost view = { λ t. t };

    ghost decoder = { λ z. type_ref };

    ghost grammar = { λ z. SpelledTypeRef };

    ghost takes_memory = { false };

    ghost lawful = { λ z. lawful-type_ref };

    ghost exact = { λ z. decides-type_ref };

    #[tactic(auto, using(wasm_types::specs::Laws::reaches_self, wasm_types::specs::Laws::reaches_then), unfolding(crate::specs::imports::Decode::type_ref))]
    fn from_reader(alloc: Global, reader: &mut BinaryReader<'a>) -> Result<TypeRef>
        ensures answer { Gives (λ t. t) result reader.new (type_ref reader.old) }
        ensures forward { Reaches reader.old reader.new }
        ensures no_memory { NeedsNoMemory result }
    {
        let kind = ExternalKind::from_reader(alloc, reader)?;
        match kind {
            ExternalKind::Func => {
                let index = reader.read_var_u32()?;
                Ok(TypeRef::Func(index))
            }
            ExternalKind::Table => {
                let ty = TableType::from_reader(alloc, reader)?;
                Ok(TypeRef::Table(ty))
            }
            ExternalKind::Memory => {
                let ty = MemoryType::from_reader(alloc, reader)?;
                Ok(TypeRef::Memory(ty))
            }
            ExternalKind::Global => {
                let ty = GlobalType::from_reader(alloc, reader)?;
                Ok(TypeRef::Global(ty))
            }
            ExternalKind::Tag => {
                let ty = TagType::from_reader(alloc, reader)?;
                Ok(TypeRef::Tag(ty))
            }
            ExternalKind::FuncExact => {
                let index = reader.read_var_u32()?;
                Ok(TypeRef::FuncExact(index))
            }
        }
    }
}
