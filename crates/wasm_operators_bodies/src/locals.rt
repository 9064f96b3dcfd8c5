//! Groups of locals from their bytes.

ghost use Rattle.std.specs.Prelude.{◌≡◌, ◌<◌, List, false, IfOk, IfErr};
ghost use Rattle.std.specs.Iterator.{at_most};
ghost use Rattle.wasm_types.specs.decoding.Decoder.{Reaches};
ghost use Rattle.wasm_types.specs.decoding.declared.error.ErrorKind.TheVariants.{Other};
ghost use Rattle.wasm_types.specs.reader.Reading.{Answers, Collects, Fails, Gives, NeedsNoMemory};
ghost use Rattle.wasm_operators_reader.specs.Standing.{at_start};
ghost use Rattle.wasm_operators_encoding.specs.Locals.{LocalGroup, group_of, group_within};
ghost use Rattle.wasm_operators_bodies.specs.Groups.{counted_groups, ReadsGroup, ReadsGroups, RefusesGroup, NextGroup, groups_left};

use std::alloc::Global;
use std::marker::Model;
use wasm_operators_reader::OperatorsReader;
use wasm_types::{BinaryReader, Error, Result, ValType, Words};

/// Reads the groups of locals at the front of a body, one after the other.
#[derive(Drop)]
pub struct LocalsReader<'a> {
    reader: BinaryReader<'a>,
    count: u32,
    // how many groups are left, and how many locals they may have together
    groups: u32,
    room: u32,
    alloc: Global,
}

impl<'a> Model for LocalsReader<'a> {
    ghost use Rattle.wasm_operators_bodies.specs.Groups.{LocalsLeft};

    ghost Value = { LocalsLeft };

    ghost view = { λ r. record { bytes = r.reader; count = r.count; groups = r.groups; room = r.room } };
}

impl<'a> LocalsReader<'a> {
    /// A reader of the groups that are counted at the front of `reader`.
    ///
    /// # Errors
    ///
    /// The bytes spell no count.
    #[tactic(auto, unfolding(crate::specs::Groups::counted_groups))]
    pub(crate) fn new(alloc: Global, reader: BinaryReader<'a>) -> Result<LocalsReader<'a>>
        ensures answer { Collects (λ l. l) result (counted_groups reader.entry.settings reader.entry) }
        ensures no_memory { NeedsNoMemory result }
    {
        let mut reader = reader;
        let room = reader.limits().locals;
        let count = reader.read_var_u32()?;
        Ok(LocalsReader {
            reader,
            count,
            groups: count,
            room,
            alloc,
        })
    }

    /// How many groups the body declares, those that were read too.
    #[inline]
    pub fn get_count(&self) -> u32
        ensures { result ≡ self.now.count }
    {
        self.count
    }

    /// Where the next byte stands in the input.
    #[inline]
    pub fn original_position(&self) -> u64
        ensures { result ≡ self.now.bytes.place }
    {
        self.reader.original_position()
    }

    /// The next group: how many locals, and their type. It takes no memory.
    ///
    /// # Errors
    ///
    /// No group is left; the bytes spell none; or there are more locals with it than 50,000, which is refused at the offset of the
    /// group. The reader stays as it was.
    pub fn read(&mut self) -> Result<(u32, ValType)>
        ensures read { IfOk result (λ g. ReadsGroup self.old (group_of g.0 g.1) self.new) }
        ensures refused { IfErr result (λ e. RefusesGroup self.old e × (self.new ≡ self.old)) }
        ensures no_memory { NeedsNoMemory result }
    {
        if self.groups == 0 {
            return Err(Error::new(Words::NoGroupOfLocalsIsLeft, self.original_position()));
        }
        let group = read_group(self.alloc, self.room, &mut self.reader)?;
        self.groups -= 1;
        self.room -= group.0;
        Ok(group)
    }

    /// Goes past the groups that are left. Where one is refused, the groups before it were read.
    ///
    /// # Errors
    ///
    /// As `read`.
    pub(crate) fn pass(&mut self) -> Result<()>
        ensures read { IfOk result (λ _. ((gs : List LocalGroup) × ReadsGroups self.old gs self.new)
            × (self.new.groups ≡ 0)) }
        ensures refused { IfErr result (λ e. ((gs : List LocalGroup) × ReadsGroups self.old gs self.new)
            × (0 < self.new.groups) × Fails e (group_within self.new.room self.new.bytes)) }
        ensures no_memory { NeedsNoMemory result }
    {
        while self.groups != 0 {
            self.read()?;
        }
        Ok(())
    }

    /// A reader of bytes that stands behind the groups that were read.
    pub fn get_binary_reader(self) -> BinaryReader<'a>
        ensures { result ≡ self.entry.bytes }
    {
        let LocalsReader {
            reader,
            count: _,
            groups: _,
            room: _,
            alloc: _,
        } = self;
        reader
    }
}

/// A group of at most so many locals. Where it is refused the reader may have gone on.
#[tactic(auto, using(wasm_types::specs::Laws::reaches_self, wasm_types::specs::Laws::reaches_then), unfolding(wasm_operators_encoding::specs::Locals::group_within, wasm_operators_encoding::specs::Locals::group))]
fn group_ahead(alloc: Global, room: u32, reader: &mut BinaryReader<'_>) -> Result<(u32, ValType)>
    ensures answer { Gives (λ g. group_of g.0 g.1) result reader.new (group_within room reader.old) }
    ensures no_memory { NeedsNoMemory result }
    ensures forward { Reaches reader.old reader.new }
{
    let offset = reader.original_position();
    let count = reader.read_var_u32()?;
    let ty = reader.read::<ValType>(alloc)?;
    if count > room {
        return Err(too_many_locals(offset));
    }
    Ok((count, ty))
}

/// A group of at most so many locals. Where it is refused the reader stays.
fn read_group(alloc: Global, room: u32, reader: &mut BinaryReader<'_>) -> Result<(u32, ValType)>
    ensures answer { Answers (λ g. group_of g.0 g.1) result reader.old reader.new (group_within room reader.old) }
    ensures no_memory { NeedsNoMemory result }
    ensures forward { Reaches reader.old reader.new }
{
    let start = reader.clone();
    let group = match group_ahead(alloc, room, reader) {
        Ok(group) => group,
        Err(error) => {
            *reader = start;
            return Err(error);
        }
    };
    Ok(group)
}

/// That there are more locals than the limit.
#[cold]
fn too_many_locals(offset: u64) -> Error
    ensures kind { result.kind ≡ Other }
    ensures offset { result.offset ≡ offset }
{
    Error::new(Words::TooManyLocalsLocalsExceedMaximum, offset)
}

/// The groups of locals that a reader reads, up to the last or the first error. Nothing comes behind an error.
#[derive(Drop)]
pub struct LocalsIterator<'a> {
    reader: LocalsReader<'a>,
    failed: bool,
}

impl<'a> LocalsIterator<'a> {
    /// A reader of bytes that stands behind the groups that were given. Behind the last group, that is where the operators
    /// begin.
    pub fn into_binary_reader_for_operators(self) -> BinaryReader<'a>
        ensures { result ≡ self.entry.reader.bytes }
    {
        let LocalsIterator { reader, failed: _ } = self;
        reader.get_binary_reader()
    }

    /// A reader of operators that stands there, in memory of the same allocator.
    pub fn into_operators_reader(self) -> OperatorsReader<'a>
        ensures { result ≡ at_start self.entry.reader.bytes }
    {
        let alloc = self.reader.alloc;
        OperatorsReader::new(alloc, self.into_binary_reader_for_operators())
    }
}

impl<'a> Iterator for LocalsIterator<'a> {
    type Item = Result<(u32, ValType)>;

    ghost next_gives = { λ s item t. NextGroup (λ g. group_of g.0 g.1) s.reader s.failed item t.reader t.failed };

    ghost remaining = { λ s. at_most (groups_left s.failed s.reader) };

    fn next(&mut self) -> Option<Result<(u32, ValType)>> {
        if self.failed {
            return None;
        }
        if self.reader.groups == 0 {
            return None;
        }
        let group = match self.reader.read() {
            Ok(group) => group,
            Err(error) => {
                self.failed = true;
                return Some(Err(error));
            }
        };
        Some(Ok(group))
    }
}

impl<'a> IntoIterator for LocalsReader<'a> {
    type Item = Result<(u32, ValType)>;

    type IntoIter = LocalsIterator<'a>;

    ghost into_iter_gives = { λ s it. (it.reader ≡ s) × (it.failed ≡ false) };

    fn into_iter(self) -> LocalsIterator<'a> {
        LocalsIterator {
            reader: self,
            failed: false,
        }
    }
}
