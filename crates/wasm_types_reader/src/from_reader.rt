//! The trait of all that is read from bytes.

ghost use Rattle.std.specs.Prelude.{ℕ, Bool, false};
ghost use Rattle.wasm_types_decoding.specs.Decoder.{Decoder, Grammar, IsLawful, Decides, Reaches};
ghost use Rattle.wasm_types_decoding.specs.Leb.{u32 as u32_decoder, IsUnsigned};
ghost use Rattle.wasm_types_decoding.specs.LebLaws.{lawful-unsigned, decides-u32};
ghost use Rattle.wasm_types_decoding.specs.settings.Settings.{Settings};
ghost use Rattle.wasm_types_reader.specs.Reading.{Gives, MemoryOnlyIf};

use crate::{BinaryReader, Result};
use std::alloc::Global;

/// A type whose values are read from bytes.
pub trait FromReader<'a>: Drop {
    /// What is read of a value, without where it lies in memory.
    ghost Value: { Type 0 };

    /// That of a value.
    ghost view: { Self → Value };

    /// What bytes are read as, where these features are allowed and these limits hold.
    ghost decoder: { Settings → Decoder Value };

    /// What the bytes of a value are, there.
    ghost grammar: { Settings → Grammar Value };

    /// Whether reading a value may take memory. Where it takes none, it is never refused for memory.
    ghost takes_memory: { Bool };

    /// Reads a value. Where it is refused the reader may have gone on: [`BinaryReader::read`] puts it back.
    fn from_reader(alloc: Global, reader: &mut BinaryReader<'a>) -> Result<Self>
        ensures answer { Gives view result reader.new (decoder reader.old.settings reader.old) }
        ensures memory { MemoryOnlyIf takes_memory result }
        ensures forward { Reaches reader.old reader.new };

    /// It takes bytes from the front; a value and a fault stay whatever bytes follow; the hint of an end of data is exact.
    ghost lawful: { (z : Settings) → IsLawful (decoder z) };

    /// It reads a value exactly where a front of the bytes spells it.
    ghost exact: { (z : Settings) → Decides (decoder z) (grammar z) };
}

/// A number in LEB128.
impl<'a> FromReader<'a> for u32 {
    ghost Value = { ℕ };

    ghost view = { λ n. n };

    ghost decoder = { λ z. u32_decoder };

    ghost grammar = { λ z. IsUnsigned 32 };

    ghost takes_memory = { false };

    ghost lawful = { λ z. lawful-unsigned 4 4 };

    ghost exact = { λ z. decides-u32 };

    #[inline]
    fn from_reader(_alloc: Global, reader: &mut BinaryReader<'a>) -> Result<u32> {
        reader.read_var_u32()
    }
}
