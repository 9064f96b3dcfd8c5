//! The items of a section, one by one.

ghost use Rattle.std.specs.Prelude.{◌≡◌, ◌≤◌, false, length, IfSome};
ghost use Rattle.std.specs.Iterator.{at_most};
ghost use Rattle.wasm_types.specs.decoding.Decoder.{Done};
ghost use Rattle.wasm_types.specs.decoding.declared.error.ErrorKind.TheVariants.{Other};
ghost use Rattle.wasm_types.specs.reader.Reading.{Fails, MemoryOnlyIf};
ghost use Rattle.wasm_sections_items.specs.limited.Walking.{items_left, Passes};
ghost use Rattle.wasm_sections_items.specs.limited.Runs.{place_in, place_with_offsets, told, plain, with_offset, Steps};

use crate::limited::SectionLimited;
use wasm_types::{Error, FromReader, Result, Words};

/// The items of a section, as many as were counted. A byte behind the last one is refused, and nothing comes behind an
/// error.
#[derive(Drop)]
pub struct SectionLimitedIntoIter<'a, T: FromReader<'a>> {
    section: SectionLimited<'a, T>,
    remaining: u32,
    end: bool,
}

// The error of a byte behind the last item.
#[cold]
fn trailing_error(offset: u64) -> Error
    ensures kind { result.kind ≡ Other }
    ensures offset { result.offset ≡ offset }
{
    Error::new(
        Words::SectionSizeMismatchUnexpectedDataAtTheEndOfTheSection,
        offset,
    )
}

impl<'a, T: FromReader<'a>> Iterator for SectionLimitedIntoIter<'a, T> {
    type Item = Result<T>;

    ghost next_gives = { Steps T.decoder place_in (told T.takes_memory) (plain T.view T.decoder) };

    ghost remaining = { λ s. at_most (items_left s.end s.remaining) };

    fn next(&mut self) -> Option<Result<T>> {
        if self.end {
            return None;
        }
        if self.remaining == 0 {
            self.end = true;
            if self.section.reader.eof() {
                return None;
            }
            return Some(Err(trailing_error(self.section.reader.original_position())));
        }
        let alloc = self.section.alloc;
        let item = match self.section.reader.read::<T>(alloc) {
            Ok(item) => item,
            Err(error) => {
                self.end = true;
                return Some(Err(error));
            }
        };
        self.remaining -= 1;
        Some(Ok(item))
    }
}

/// The same items, each with its offset in the input.
#[derive(Drop)]
pub struct SectionLimitedIntoIterWithOffsets<'a, T: FromReader<'a>> {
    section: SectionLimited<'a, T>,
    remaining: u32,
    pub(crate) end: bool,
}

impl<'a, T: FromReader<'a>> Iterator for SectionLimitedIntoIterWithOffsets<'a, T> {
    type Item = Result<(u64, T)>;

    ghost next_gives = { Steps T.decoder place_with_offsets (told T.takes_memory) (with_offset T.view T.decoder) };

    ghost remaining = { λ s. at_most (items_left s.end s.remaining) };

    fn next(&mut self) -> Option<Result<(u64, T)>> {
        if self.end {
            return None;
        }
        let offset = self.section.reader.original_position();
        if self.remaining == 0 {
            self.end = true;
            if self.section.reader.eof() {
                return None;
            }
            return Some(Err(trailing_error(offset)));
        }
        let alloc = self.section.alloc;
        let item = match self.section.reader.read::<T>(alloc) {
            Ok(item) => item,
            Err(error) => {
                self.end = true;
                return Some(Err(error));
            }
        };
        self.remaining -= 1;
        Some(Ok((offset, item)))
    }
}

impl<'a, T: FromReader<'a>> IntoIterator for SectionLimited<'a, T> {
    type Item = Result<T>;

    type IntoIter = SectionLimitedIntoIter<'a, T>;

    ghost into_iter_gives = { λ s it. (it.section ≡ s) × (it.remaining ≡ s.count) × (it.end ≡ false) };

    fn into_iter(self) -> SectionLimitedIntoIter<'a, T> {
        let remaining = self.count();
        SectionLimitedIntoIter {
            section: self,
            remaining,
            end: false,
        }
    }
}

impl<'a, T: FromReader<'a>> SectionLimited<'a, T> {
    /// The items with their offsets, one after the other.
    pub fn into_iter_with_offsets(self) -> SectionLimitedIntoIterWithOffsets<'a, T>
        ensures section { result.section ≡ self.entry }
        ensures remaining { result.remaining ≡ self.entry.count }
        ensures fresh { result.end ≡ false }
    {
        let count = self.count();
        SectionLimitedIntoIterWithOffsets {
            section: self,
            remaining: count,
            end: false,
        }
    }
}

impl<'a, T: FromReader<'a>> SectionLimitedIntoIterWithOffsets<'a, T> {
    /// How many items were counted and were not passed yet.
    pub fn left(&self) -> u32
        ensures { result ≡ self.now.remaining }
    {
        self.remaining
    }

    /// The bytes that are left.
    pub fn bytes(&self) -> &'a [u8]
        ensures { result.now ≡ self.now.section.reader.rest }
    {
        let mut behind = self.section.get_binary_reader();
        let Ok(bytes) = behind.read_bytes(behind.bytes_remaining()) else {
            unreachable!()
        };
        bytes
    }

    /// Goes past so many bytes, with so many items left behind them.
    pub fn pass(&mut self, count: usize, left: u32)
        requires { count ≤ length self.old.section.reader.rest }
        ensures passed { Passes count left (place_with_offsets self.old) (place_with_offsets self.new) }
    {
        let Ok(_bytes) = self.section.reader.read_bytes(count) else {
            unreachable!()
        };
        self.remaining = left;
    }
}
