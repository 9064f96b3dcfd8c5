//! Values that follow one another, one by one.

ghost use Rattle.wasm_types_decoding.specs.Words.{words_text};
ghost use Rattle.std.specs.Prelude.{◌≡◌, ◌++◌, codes, IfOk, IfErr, IfSome, MatchResult};
ghost use Rattle.std.specs.Iterator.{at_most};
ghost use Rattle.wasm_types_decoding.specs.Lists.{size_within};
ghost use Rattle.wasm_types_decoding.specs.Decoder.{Done};
ghost use Rattle.wasm_types_decoding.specs.Leb.{u32 as u32_decoder};
ghost use Rattle.wasm_types_decoding.specs.ErrorText.{IsWrittenMessage};
ghost use Rattle.wasm_types_reader.specs.Messages.{is_above, SaysIf};
ghost use Rattle.wasm_types_reader.specs.Reading.{NextItem, Fails, IsNotMemory, MemoryOnlyIf};
ghost use Rattle.wasm_types_reader.specs.Draining.{Drains};

use crate::{BinaryReader, FromReader, Result, Words};
use std::alloc::Global;
use std::marker::PhantomData;

/// Reads as many values as were counted, and none after an error. Dropped early, it reads the rest up to a first error.
pub struct BinaryReaderIter<'a, 'me, T: FromReader<'a>> {
    reader: &'me mut BinaryReader<'a>,
    remaining: usize,
    alloc: Global,
    of: PhantomData<T>,
}

impl<'a, 'me, T: FromReader<'a>> BinaryReaderIter<'a, 'me, T> {
    /// Reads `remaining` values from `reader`.
    pub fn new(
        alloc: Global,
        remaining: usize,
        reader: &'me mut BinaryReader<'a>,
    ) -> BinaryReaderIter<'a, 'me, T>
        ensures remaining { result.remaining ≡ remaining }
        ensures reader { result.reader.now ≡ reader.old }
        ensures same_reference { result.reader.ghost_name ≡ reader.entry.ghost_name }
    {
        BinaryReaderIter {
            reader,
            remaining,
            alloc,
            of: PhantomData,
        }
    }
}

impl<'a> BinaryReader<'a> {
    /// A count in LEB128 of at most `limit`, and an iterator over as many values, which are read as it goes. A larger count
    /// is refused at its own offset, as `desc`.
    pub fn read_iter<T: FromReader<'a>>(
        &mut self,
        alloc: Global,
        limit: usize,
        desc: Words,
    ) -> Result<BinaryReaderIter<'a, '_, T>>
        ensures answer { MatchResult result (λ values. size_within limit self.old
            ≡ Done values.remaining values.reader.now) (λ e. Fails e (size_within limit self.old)) }
        ensures no_memory { IfErr result (λ e. IsNotMemory e.kind) }
        ensures message { SaysIf (is_above limit (u32_decoder self.old))
            (IsWrittenMessage (words_text desc ++ codes " size is out of bounds")) result }
        ensures same_reference { IfOk result (λ values. values.reader.ghost_name ≡ self.entry.ghost_name) }
    {
        let count = self.read_size(limit, desc)?;
        Ok(BinaryReaderIter::new(alloc, count, self))
    }
}

impl<'a, 'me, T: FromReader<'a>> Iterator for BinaryReaderIter<'a, 'me, T> {
    type Item = Result<T>;

    ghost next_gives = { λ s r t. NextItem T.view (T.decoder s.reader.now.settings) s.remaining s.reader.now r
        t.remaining t.reader.now × (t.reader.ghost_name ≡ s.reader.ghost_name)
        × IfSome r (λ item. MemoryOnlyIf T.takes_memory item) };

    ghost remaining = { λ s. at_most s.remaining };

    fn next(&mut self) -> Option<Result<T>> {
        if self.remaining == 0 {
            return None;
        }
        let item = self.reader.read::<T>(self.alloc);
        if item.is_err() {
            self.remaining = 0;
        } else {
            self.remaining -= 1;
        }
        Some(item)
    }
}

impl<'a, 'me, T: FromReader<'a>> Drop for BinaryReaderIter<'a, 'me, T> {
    fn drop(self)
        ensures { Drains (T.decoder self.entry.reader.now.settings) T.takes_memory self.entry.remaining
            self.entry.reader.now self.exit.0.now }
    {
        let BinaryReaderIter {
            reader,
            remaining,
            alloc,
            of: _,
        } = self;
        read_rest::<T>(alloc, remaining, reader);
    }
}

/// Reads `count` values, or as many as come before a first error.
fn read_rest<'a, T: FromReader<'a>>(alloc: Global, count: usize, reader: &mut BinaryReader<'a>)
    ensures { Drains (T.decoder reader.old.settings) T.takes_memory count reader.old reader.new }
{
    for _ in 0..count {
        let Ok(_) = reader.read::<T>(alloc) else {
            return;
        };
    }
}
