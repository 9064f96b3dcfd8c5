//! Lists that are counted within a limit.

ghost use Rattle.wasm_types_decoding.specs.Words.{words_text};
ghost use Rattle.std.specs.Prelude.{◌≡◌, ◌++◌, codes, map, IfErr};
ghost use Rattle.wasm_types_decoding.specs.Decoder.{repeated, Reaches};
ghost use Rattle.wasm_types_decoding.specs.Lists.{listed_within, size_within};
ghost use Rattle.wasm_types_decoding.specs.Leb.{u32 as u32_decoder};
ghost use Rattle.wasm_types_decoding.specs.ErrorText.{IsWrittenMessage};
ghost use Rattle.wasm_types_reader.specs.Messages.{is_above, SaysIf};
ghost use Rattle.wasm_types_reader.specs.Reading.{Gives, MemoryOnlyIf, takes_room, counted_room};

use crate::{BinaryReader, FromReader, Result, Words};
use std::alloc::Global;

/// The values that follow, as many as are counted before them, which are at most `limit`; a larger count is refused at
/// its own offset, as `desc`. The list grows as it is read.
#[tactic(auto, using(wasm_types_decoding::specs::NumbersLaws::reaches_self))]
pub fn read_list<'a, T: FromReader<'a>>(
    alloc: Global,
    limit: usize,
    desc: Words,
    reader: &mut BinaryReader<'a>,
) -> Result<Vec<T>>
    ensures answer { Gives (λ v. map T.view v.items) result reader.new
        (listed_within limit (T.decoder reader.old.settings) reader.old) }
    ensures memory { MemoryOnlyIf (counted_room T.takes_memory (T.decoder reader.old.settings)
        (size_within limit reader.old)) result }
    ensures stays { IfErr result (λ e. reader.new ≡ reader.old) }
    ensures message { SaysIf (is_above limit (u32_decoder reader.old))
        (IsWrittenMessage (words_text desc ++ codes " size is out of bounds")) result }
    ensures forward { Reaches reader.old reader.new }
{
    let start = reader.clone();
    let items = match counted_items(alloc, limit, desc, reader) {
        Ok(items) => items,
        Err(error) => {
            reader.return_to(start);
            return Err(error);
        }
    };
    Ok(items)
}

/// As many values as are asked for, one after the other. The list grows as it is read.
#[tactic(auto, using(wasm_types_decoding::specs::NumbersLaws::reaches_self))]
pub fn read_many<'a, T: FromReader<'a>>(
    alloc: Global,
    count: usize,
    reader: &mut BinaryReader<'a>,
) -> Result<Vec<T>>
    ensures answer { Gives (λ v. map T.view v.items) result reader.new
        (repeated count (T.decoder reader.old.settings) reader.old) }
    ensures memory { MemoryOnlyIf (takes_room T.takes_memory (T.decoder reader.old.settings) count reader.old) result }
    ensures stays { IfErr result (λ e. reader.new ≡ reader.old) }
    ensures forward { Reaches reader.old reader.new }
{
    let start = reader.clone();
    let items = match some_items(alloc, count, reader) {
        Ok(items) => items,
        Err(error) => {
            reader.return_to(start);
            return Err(error);
        }
    };
    Ok(items)
}

/// A count and as many values. Where it is refused the reader may have gone on.
#[tactic(auto, using(wasm_types_decoding::specs::NumbersLaws::reaches_self, wasm_types_decoding::specs::NumbersLaws::reaches_then), unfolding(wasm_types_decoding::specs::NumbersLaws::listed_within))]
fn counted_items<'a, T: FromReader<'a>>(
    alloc: Global,
    limit: usize,
    desc: Words,
    reader: &mut BinaryReader<'a>,
) -> Result<Vec<T>>
    ensures answer { Gives (λ v. map T.view v.items) result reader.new
        (listed_within limit (T.decoder reader.old.settings) reader.old) }
    ensures memory { MemoryOnlyIf (counted_room T.takes_memory (T.decoder reader.old.settings)
        (size_within limit reader.old)) result }
    ensures message { SaysIf (is_above limit (u32_decoder reader.old))
        (IsWrittenMessage (words_text desc ++ codes " size is out of bounds")) result }
    ensures forward { Reaches reader.old reader.new }
{
    let count = reader.read_size(limit, desc)?;
    some_items(alloc, count, reader)
}

/// As many values as are asked for. Where it is refused the reader may have gone on.
#[tactic(auto, using(wasm_types_decoding::specs::NumbersLaws::reaches_self, wasm_types_decoding::specs::NumbersLaws::reaches_then))]
fn some_items<'a, T: FromReader<'a>>(
    alloc: Global,
    count: usize,
    reader: &mut BinaryReader<'a>,
) -> Result<Vec<T>>
    ensures answer { Gives (λ v. map T.view v.items) result reader.new
        (repeated count (T.decoder reader.old.settings) reader.old) }
    ensures memory { MemoryOnlyIf (takes_room T.takes_memory (T.decoder reader.old.settings) count reader.old) result }
    ensures forward { Reaches reader.old reader.new }
{
    let mut items = Vec::new(alloc);
    for _ in 0..count {
        let item = reader.read::<T>(alloc)?;
        items.push(item)?;
    }
    Ok(items)
}
