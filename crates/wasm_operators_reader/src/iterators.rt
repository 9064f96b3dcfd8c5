//! Operators one after the other, as iterators.

ghost use Rattle.std.specs.Prelude.{◌≡◌, false};
ghost use Rattle.std.specs.Iterator.{at_most};
ghost use Rattle.wasm_operators_enums.specs.Op.{op_of};
ghost use Rattle.wasm_operators_reader.specs.Standing.{Reads};
ghost use Rattle.wasm_operators_reader.specs.Iterating.{NextOf, items_left};

use crate::{OperatorsReader, OperatorsReaderAllocations};
use wasm_operators_encoding::expressions::Operator;
use wasm_types::Result;

/// The operators that a reader reads, up to the end of its bytes or the first error. Nothing comes behind an error.
#[derive(Drop)]
pub struct OperatorsIterator<'a> {
    pub(crate) reader: OperatorsReader<'a>,
    pub(crate) failed: bool,
}

impl<'a> OperatorsIterator<'a> {
    /// The memory of its reader's frames, for a reader to come.
    pub fn into_allocations(self) -> OperatorsReaderAllocations
        ensures { result.0.frames ≡ self.entry.reader.frames }
    {
        let OperatorsIterator { reader, failed: _ } = self;
        reader.into_allocations()
    }
}

impl<'a> Iterator for OperatorsIterator<'a> {
    type Item = Result<Operator<'a>>;

    ghost next_gives = { λ s item t. NextOf (λ from op to. Reads from
        (op_of op) to) s.reader s.failed item t.reader t.failed };

    ghost remaining = { λ s. at_most (items_left s.failed s.reader) };

    fn next(&mut self) -> Option<Result<Operator<'a>>> {
        if self.failed {
            return None;
        }
        if self.reader.eof() {
            return None;
        }
        let op = match self.reader.read() {
            Ok(op) => op,
            Err(error) => {
                self.failed = true;
                return Some(Err(error));
            }
        };
        Some(Ok(op))
    }
}

/// The same operators, each with its offset in the input.
#[derive(Drop)]
pub struct OperatorsIteratorWithOffsets<'a> {
    pub(crate) reader: OperatorsReader<'a>,
    pub(crate) failed: bool,
}

impl<'a> OperatorsIteratorWithOffsets<'a> {
    /// The memory of its reader's frames, for a reader to come.
    pub fn into_allocations(self) -> OperatorsReaderAllocations
        ensures { result.0.frames ≡ self.entry.reader.frames }
    {
        let OperatorsIteratorWithOffsets { reader, failed: _ } = self;
        reader.into_allocations()
    }
}

impl<'a> Iterator for OperatorsIteratorWithOffsets<'a> {
    type Item = Result<(Operator<'a>, u64)>;

    ghost next_gives = { λ s item t. NextOf (λ from found to. Reads from (op_of found.0) to
        × (found.1 ≡ from.bytes.place)) s.reader s.failed item t.reader t.failed };

    ghost remaining = { λ s. at_most (items_left s.failed s.reader) };

    fn next(&mut self) -> Option<Result<(Operator<'a>, u64)>> {
        if self.failed {
            return None;
        }
        if self.reader.eof() {
            return None;
        }
        let found = match self.reader.read_with_offset() {
            Ok(found) => found,
            Err(refusal) => {
                self.failed = true;
                return Some(Err(refusal));
            }
        };
        Some(Ok(found))
    }
}

impl<'a> IntoIterator for OperatorsReader<'a> {
    type Item = Result<Operator<'a>>;

    type IntoIter = OperatorsIterator<'a>;

    ghost into_iter_gives = { λ s it. (it.reader ≡ s) × (it.failed ≡ false) };

    fn into_iter(self) -> OperatorsIterator<'a> {
        OperatorsIterator {
            reader: self,
            failed: false,
        }
    }
}

impl<'a> OperatorsReader<'a> {
    /// The operators with their offsets, one after the other.
    pub fn into_iter_with_offsets(self) -> OperatorsIteratorWithOffsets<'a>
        ensures reader { result.reader ≡ self.entry }
        ensures fresh { result.failed ≡ false }
    {
        OperatorsIteratorWithOffsets {
            reader: self,
            failed: false,
        }
    }
}
