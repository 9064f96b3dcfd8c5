//! The labels of `br_table` from their bytes.

ghost use Rattle.std.specs.Prelude.{◌≡◌};
ghost use Rattle.wasm_types.specs.decoding.Decoder.{Reaches};
ghost use Rattle.wasm_types.specs.reader.Reading.{Gives, NeedsNoMemory};
ghost use Rattle.wasm_operators_immediates.specs.Numbers.{Passes};
ghost use Rattle.wasm_operators_immediates.specs.Labels.{labels};

use crate::BrTable;
use std::alloc::Global;
use wasm_types::{BinaryReader, FromReader, Result, Words};

/// Goes past `count` numbers of 32 bits.
#[tactic(auto, using(wasm_types::specs::Laws::reaches_self, wasm_types::specs::Laws::reaches_then))]
fn pass_numbers<'a>(count: u32, reader: &mut BinaryReader<'a>) -> Result<()>
    ensures answer { Passes count result reader.old reader.new }
    ensures no_memory { NeedsNoMemory result }
    ensures forward { Reaches reader.old reader.new }
{
    for _ in 0..count {
        reader.read_var_u32()?;
    }
    Ok(())
}

impl<'a> FromReader<'a> for BrTable<'a> {
    ghost use Rattle.std.specs.Prelude.{false};
    ghost use Rattle.wasm_operators_immediates.specs.Tables.{Labels as TheLabels};
    ghost use Rattle.wasm_operators_immediates.specs.Labels.{SpelledLabels};
    ghost use Rattle.wasm_operators_immediates.specs.LabelLaws.{lawful-labels, decides-labels};

    ghost Value = { TheLabels };

    ghost view = { λ t. t };

    ghost decoder = { labels };

    ghost grammar = { SpelledLabels };

    ghost takes_memory = { false };

    ghost lawful = { lawful-labels };

    ghost exact = { decides-labels };

    #[tactic(auto, using(wasm_types::specs::Laws::reaches_self, wasm_types::specs::Laws::reaches_then, crate::proofs::Passing::size_is_small), unfolding(crate::specs::Labels::labels, wasm_types::specs::Laws::listed_within))]
    fn from_reader(_alloc: Global, reader: &mut BinaryReader<'a>) -> Result<BrTable<'a>>
        ensures answer { Gives (λ t. t) result reader.new (labels reader.old.settings reader.old) }
        ensures forward { Reaches reader.old reader.new }
        ensures no_memory { NeedsNoMemory result }
    {
        let limit = reader.limits().body_bytes;
        let count = reader.read_size(limit as usize, Words::BrTable)? as u32;
        let mut start = reader.clone();
        pass_numbers(count, reader)?;
        let length = start.bytes_remaining() - reader.bytes_remaining();
        let Ok(targets) = start.read_bytes(length) else {
            unreachable!()
        };
        let default = reader.read_var_u32()?;
        Ok(BrTable::of_bytes(targets, count, default))
    }
}
