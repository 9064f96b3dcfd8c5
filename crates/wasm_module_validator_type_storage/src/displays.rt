//! The supertype that each type declares, and its ancestors by depth (Cohen's displays): a look or two tell whether a type is
//! declared below another, however many types stand between them.
//!
//! Sixteen depths are a block. A type's display has the ancestors of its own block, and those that end the blocks above it. So it
//! takes at most 16 entries, and types below one another share what they can. A type with more than 255 types above it has no
//! display. Each other type has one: its entries take their room with the type's own.
//!
//! Contracts see the supertypes as a list with its room, as that of a [`SnapshotList`]. An invariant says that the displays are
//! right, and that none is missing (`AreKept` of `specs/displays/Entries.antt`).

ghost use Rattle.std.specs.Prelude.{◌≡◌, ◌↔◌, ◌++◌, ◌+◌, ◌*◌, ◌≤◌, ◌<◌, [], length, slice_get, is_ok, if◌then◌else◌, IsTrue, IsOk, IsSome, OnOk, OnErr, IfOk, IfSome, Some};
ghost use Rattle.std.specs.Option.{option_copied};
ghost use Rattle.wasm_module_validator_type_storage.specs.displays.Chains.{IsUnder, HasDepth};
ghost use Rattle.wasm_module_validator_type_storage.specs.displays.Entries.{AreEarlier, IsShallow};

mod filling;
mod finding;
pub mod laws;

use crate::snapshots::SnapshotList;
use filling::{MOST_ENTRIES, fill};
use finding::{display_of, is_below};
use std::alloc::{AllocError, Global};
use std::marker::Model;
use std::ops::Index;
use wasm_types::CoreTypeId;

// The most types that displays are kept of, so that the place of an entry is a number of 32 bits.
const MOST_TYPES: usize = 1 << 28;

// Whether so many types, and so many further ones, are no more than that.
fn are_few(count: usize, additional: usize) -> bool
    ensures { IsTrue result → count + additional ≤ 0x1000_0000 }
{
    count <= MOST_TYPES && additional <= MOST_TYPES - count
}

// The ancestors of one type, by places among the entries: those of its own block from `near` on, and those that end the blocks
// above it from `far` on. Its depth is `16 * blocks + place`.
#[derive(Clone, Copy)]
struct Display {
    near: u32,
    far: u32,
    blocks: u8,
    place: u8,
}

/// The supertype that each type declares, by its id, with the ancestors of each.
#[derive(Drop)]
pub struct Displays {
    supertypes: SnapshotList<Option<CoreTypeId>>,
    displays: SnapshotList<Option<Display>>,
    entries: SnapshotList<CoreTypeId>,
    // how many further types all three have room for
    room: usize,
}

impl Model for Displays {
    ghost use Rattle.std.specs.Prelude.{Option};
    ghost use Rattle.wasm_types.specs.trees.declared.index.CoreTypeId.{CoreTypeId};
    ghost use Rattle.wasm_module_validator_type_storage.specs.snapshots.Pieces.{Listed};
    ghost use Rattle.wasm_module_validator_type_storage.specs.displays.Entries.{AreKept};

    ghost Value = { Listed (Option CoreTypeId) };

    ghost view = { λ l. record { items = l.supertypes.items; room = l.room } };

    ghost invariant = { λ l. AreKept l.supertypes l.displays l.entries l.room };
}

impl Displays {
    /// No types. It takes no memory.
    pub fn new(alloc: Global) -> Displays
        ensures { result.items ≡ [] }
    {
        Displays {
            supertypes: SnapshotList::new(alloc),
            displays: SnapshotList::new(alloc),
            entries: SnapshotList::new(alloc),
            room: 0,
        }
    }

    /// How many types there are.
    pub fn len(&self) -> usize
        ensures { result ≡ length self.now.items }
    {
        self.supertypes.len()
    }

    /// The supertype that the type of an id declares, where there is such a type.
    pub fn get(&self, index: usize) -> Option<&Option<CoreTypeId>>
        ensures { option_copied result ≡ slice_get self.now.items index }
    {
        self.supertypes.get(index)
    }

    /// Makes room for further types and their displays. They stay, whether there is memory or not. More than 2^28 types get none.
    pub fn reserve(&mut self, additional: usize) -> Result<(), AllocError>
        ensures items { self.new.items ≡ self.old.items }
        ensures ok { OnOk result (additional ≤ self.new.room) }
        ensures room { self.old.room ≤ self.new.room }
        ensures succeeds { additional ≤ self.old.room → IsOk result }
    {
        if additional <= self.room {
            return Ok(());
        }
        if !are_few(self.supertypes.len(), additional) {
            return Err(AllocError);
        }
        self.supertypes.reserve(additional)?;
        self.displays.reserve(additional)?;
        self.entries.reserve(additional * MOST_ENTRIES)?;
        self.room = additional;
        Ok(())
    }

    /// Adds types that declare these supertypes. Where there is no memory for them and their displays, or they would be more than
    /// 2^28, nothing changes.
    pub fn append(&mut self, items: &mut Vec<Option<CoreTypeId>>) -> Result<(), AllocError>
        ensures items { self.new.items ≡ (if is_ok result then self.old.items ++ items.old.items else self.old.items) }
        ensures taken { items.new.items ≡ (if is_ok result then [] else items.old.items) }
        ensures succeeds { length items.old.items ≤ self.old.room → IsOk result }
    {
        self.reserve(items.as_slice().len())?;
        self.append_in_room(items);
        Ok(())
    }

    // Adds types and their displays, in room that is there.
    fn append_in_room(&mut self, items: &mut Vec<Option<CoreTypeId>>)
        requires { length items.old.items ≤ self.old.room }
        ensures items { self.new.items ≡ self.old.items ++ items.old.items }
        ensures taken { items.new.items ≡ [] }
    {
        let further = items.as_slice().len();
        let _ = self.supertypes.append(items);
        fill(&self.supertypes, &mut self.displays, &mut self.entries);
        self.room -= further;
    }

    /// The same types, which are shared from now on. These keep them too, whether there is memory for the other or not.
    pub fn commit(&mut self) -> Result<Displays, AllocError>
        ensures stays { self.new.items ≡ self.old.items }
        ensures same { IfOk result (λ list. list.items ≡ self.old.items) }
    {
        self.room = 0;
        let supertypes = self.supertypes.commit()?;
        let displays = self.displays.commit()?;
        let entries = self.entries.commit()?;
        Ok(Displays {
            supertypes,
            displays,
            entries,
            room: 0,
        })
    }

    /// Whether an id is another or is declared below it, in any number of steps, where both have a display. They have where each
    /// type is declared below earlier ones alone, and at most 255 types are above each of the two.
    pub fn is_below(&self, a: CoreTypeId, b: CoreTypeId) -> Option<bool>
        ensures below { IfSome result (λ is_below. IsTrue is_below ↔ IsUnder self.now.items a b) }
        ensures told { AreEarlier self.now.items → IsShallow self.now.items a → IsShallow self.now.items b → IsSome result }
    {
        is_below(&self.supertypes, &self.displays, &self.entries, a, b)
    }

    /// How many types are declared above the type of an id, where it has a display.
    pub fn depth(&self, id: CoreTypeId) -> Option<u32>
        ensures depth { IfSome result (HasDepth self.now.items id) }
        ensures told { AreEarlier self.now.items → IsShallow self.now.items id → IsSome result }
    {
        match display_of(&self.displays, id) {
            Some(display) => Some(u32::from(display.blocks) * 16 + u32::from(display.place)),
            None => None,
        }
    }
}

impl Index<usize> for Displays {
    type Output = Option<CoreTypeId>;

    ghost can_index = { λ list index. index < length list.items };

    ghost index_gives = { λ list index item. slice_get list.items index ≡ Some item };

    fn index(&self, index: usize) -> &Option<CoreTypeId> {
        &self.supertypes[index]
    }
}
