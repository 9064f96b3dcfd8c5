//! Globals.

ghost use Rattle.std.specs.Prelude.{◌≡◌};
ghost use Rattle.wasm_types.specs.decoding.Decoder.{Reaches};
ghost use Rattle.wasm_types.specs.reader.Reading.{Gives, MemoryOnlyIf};
ghost use Rattle.wasm_sections_items.specs.segments.Decode.{global};

use std::alloc::Global;
use wasm_types::{BinaryReader, FromReader, GlobalType, Result};

/// A global with its initial value, which is a constant expression of this type (WebAssembly 3.0, binary format, global
/// section).
#[derive(Drop)]
pub struct GlobalOf<E: Drop> {
    /// Its type.
    pub ty: GlobalType,
    /// Its initial value.
    pub init_expr: E,
}

/// A type and a constant expression.
impl<'a, E: FromReader<'a>> FromReader<'a> for GlobalOf<E> {
    ghost use Rattle.wasm_sections_items.specs.segments.Spells.{GlobalTree, SpelledGlobalItem};
    ghost use Rattle.wasm_sections_items.specs.segments.DecodeLaws.{lawful-global, decides-global};

    ghost Value = { GlobalTree E.Value };

    ghost view = { λ x. record { ty = x.ty; init = E.view x.init_expr } };

    ghost decoder = { λ z. global (E.decoder z) };

    ghost grammar = { λ z. SpelledGlobalItem (E.grammar z) };

    ghost takes_memory = { E.takes_memory };

    ghost lawful = { λ z. lawful-global (E.decoder z) (E.lawful z) };

    ghost exact = { λ z. decides-global (E.decoder z) (E.grammar z) (E.exact z) };

    #[tactic(auto, using(wasm_types::specs::Laws::reaches_self, wasm_types::specs::Laws::reaches_then), unfolding(crate::specs::segments::Decode::global))]
    fn from_reader(alloc: Global, reader: &mut BinaryReader<'a>) -> Result<GlobalOf<E>> {
        let ty = GlobalType::from_reader(alloc, reader)?;
        let init_expr = E::from_reader(alloc, reader)?;
        Ok(GlobalOf { ty, init_expr })
    }
}
