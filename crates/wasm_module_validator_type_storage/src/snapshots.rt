//! A list that can be shared as it stands: a commit shares all items that were pushed so far, and costs as many steps as
//! there were commits, however many items there are.
//!
//! Contracts see a list as its items and its room (`specs/Pieces.antt`), and not how they lie in pieces.

ghost use Rattle.std.specs.Prelude.{◌≡◌, ◌∷◌, ◌++◌, ◌+◌, ◌^◌, ◌≤◌, ◌<◌, [], map, length, slice_get, slice_index, is_ok, if◌then◌else◌, IsOk, OnOk, OnErr, IfOk, IfErr, Some, vec_len, vec_capacity};
ghost use Rattle.std.specs.Option.{option_copied};
ghost use Rattle.wasm_module_validator_type_storage.specs.snapshots.Pieces.{joined, IsLaidOut};

pub mod laws;

use std::alloc::{AllocError, AllocFailed, Global};
use std::marker::Model;
use std::mem;
use std::ops::Index;
use std::sync::Arc;

// Items that were committed together, and how many stand before them.
#[derive(Drop)]
struct Snapshot<T> {
    prior: usize,
    items: Vec<T>,
}

/// A list whose items are shared once they are committed.
#[derive(Drop)]
pub struct SnapshotList<T> {
    snapshots: Vec<Arc<Snapshot<T>>>,
    total: usize,
    current: Vec<T>,
}

impl<T> Model for SnapshotList<T> {
    ghost use Rattle.std.specs.Prelude.{◌++◌, ◌-◌, map, vec_len, vec_capacity};
    ghost use Rattle.wasm_module_validator_type_storage.specs.snapshots.Pieces.{Listed, joined, IsLaidOut};

    ghost Value = { Listed T };

    ghost view = { λ l. record {
      items = joined (map (λ s. s.value.items.items) l.snapshots.items) ++ l.current.items;
      room = vec_capacity l.current - vec_len l.current;
    } };

    ghost invariant = { λ l. IsLaidOut (map (λ s. s.value.items.items) l.snapshots.items)
        (map (λ s. s.value.prior) l.snapshots.items) l.total l.current.items };
}

impl<T> SnapshotList<T> {
    /// A list with no items. It takes no memory.
    pub fn new(alloc: Global) -> SnapshotList<T>
        ensures { result.items ≡ [] }
    {
        SnapshotList {
            snapshots: Vec::new(alloc),
            total: 0,
            current: Vec::new(alloc),
        }
    }

    /// How many items there are.
    pub fn len(&self) -> usize
        ensures { result ≡ length self.now.items }
    {
        self.total + self.current.len()
    }

    /// The item at an index, where there is one.
    pub fn get(&self, index: usize) -> Option<&T>
        ensures { option_copied result ≡ slice_get self.now.items index }
    {
        if index >= self.total {
            return item_at(self.current.as_slice(), index - self.total);
        }
        let at = snapshot_of(self.snapshots.as_slice(), index);
        let snapshot: &Snapshot<T> = &self.snapshots[at];
        item_at(snapshot.items.as_slice(), index - snapshot.prior)
    }
}

// The item at an index of one piece, where there is one.
fn item_at<T>(items: &[T], index: usize) -> Option<&T>
    ensures { option_copied result ≡ slice_get items.now index }
{
    items.get(index)
}

// Which snapshot an index falls into: the last that begins at it or before it.
fn snapshot_of<T>(snapshots: &[Arc<Snapshot<T>>], index: usize) -> usize
    requires some { 0 < length snapshots.now }
    requires first { slice_index (map (λ s. s.value.prior) snapshots.now) 0 ≤ index }
    ensures within { result < length snapshots.now }
    ensures starts { slice_index (map (λ s. s.value.prior) snapshots.now) result ≤ index }
    ensures ends { result + 1 < length snapshots.now → index < slice_index
        (map (λ s. s.value.prior) snapshots.now) (result + 1) }
{
    let mut low = 0;
    let mut high = snapshots.len();
    'search: while high - low > 1 {
        let middle = low + (high - low) / 2;
        let snapshot: &Snapshot<T> = &snapshots[middle];
        if snapshot.prior <= index {
            low = middle;
        } else {
            high = middle;
        }
    }
    low
}

// Appends an item, in room that is there.
fn push_in_room<X: Drop>(items: &mut Vec<X>, item: X)
    requires { vec_len items.old < vec_capacity items.old }
    ensures { items.new.items ≡ items.old.items ++ item ∷ [] }
{
    let _ = items.push(item);
}

// Appends all of these items. If there were none before, the others are taken as they lie in memory, unless their room is less.
fn append_all<X: Drop>(items: &mut Vec<X>, others: &mut Vec<X>) -> Result<(), AllocError>
    ensures items { items.new.items ≡ (if is_ok result then items.old.items ++ others.old.items else items.old.items) }
    ensures taken { others.new.items ≡ (if is_ok result then [] else others.old.items) }
    ensures room { vec_capacity items.old ≤ vec_capacity items.new }
    ensures succeeds { vec_len items.old + vec_len others.old ≤ vec_capacity items.old → IsOk result }
{
    if items.is_empty() && items.capacity() <= others.capacity() {
        mem::swap(items, others);
        return Ok(());
    }
    items.append(others)
}

// Puts what was pushed since the last commit among the snapshots, which then have this many items. Where there is no memory
// for it, both stay.
fn seal<T: Drop>(
    snapshots: &mut Vec<Arc<Snapshot<T>>>,
    total: usize,
    current: &mut Vec<T>,
) -> Result<usize, AllocError>
    requires { IsLaidOut (map (λ s. s.value.items.items) snapshots.old.items)
        (map (λ s. s.value.prior) snapshots.old.items) total current.old.items }
    ensures laid { IfOk result (λ sum. IsLaidOut (map (λ s. s.value.items.items) snapshots.new.items)
        (map (λ s. s.value.prior) snapshots.new.items) sum []) }
    ensures items { OnOk result (joined (map (λ s. s.value.items.items) snapshots.new.items) ≡ joined
        (map (λ s. s.value.items.items) snapshots.old.items) ++ current.old.items) }
    ensures none { OnOk result (current.new.items ≡ []) }
    ensures snapshots_stay { OnErr result (snapshots.new.items ≡ snapshots.old.items) }
    ensures current_stays { OnErr result (current.new.items ≡ current.old.items) }
{
    let count = current.len();
    if count == 0 {
        return Ok(total);
    }
    snapshots.reserve(1)?;
    let alloc = *current.allocator();
    current.shrink_to_fit();
    let items = mem::replace(current, Vec::new(alloc));
    let snapshot = Snapshot {
        prior: total,
        items,
    };
    match Arc::new(alloc, snapshot) {
        Ok(shared) => {
            push_in_room(snapshots, shared);
            Ok(total + count)
        }
        Err(failed) => {
            let Snapshot { prior: _, items } = failed.value;
            *current = items;
            Err(AllocError)
        }
    }
}

impl<T: Drop> SnapshotList<T> {
    /// Makes room for further items. They stay, whether there is memory or not.
    pub fn reserve(&mut self, additional: usize) -> Result<(), AllocError>
        ensures items { self.new.items ≡ self.old.items }
        ensures ok { OnOk result (additional ≤ self.new.room) }
        ensures room { self.old.room ≤ self.new.room }
        ensures succeeds { additional ≤ self.old.room → IsOk result }
    {
        self.current.reserve(additional)
    }

    /// Appends an item. Where there is no memory for it, or there are 2^64 - 1 items, nothing changes and it comes back.
    pub fn push(&mut self, item: T) -> Result<(), AllocFailed<T>>
        ensures items { self.new.items ≡ (if is_ok result then self.old.items ++ item ∷ [] else self.old.items) }
        ensures room { self.old.room ≤ self.new.room + 1 }
        ensures succeeds { 0 < self.old.room → length self.old.items + 1 < 2 ^ 64 → IsOk result }
        ensures value_returned { IfErr result (λ e. e.value ≡ item) }
    {
        if self.len() == usize::MAX {
            return Err(AllocFailed { value: item });
        }
        self.current.push(item)
    }

    /// Appends all of these items, in order. Where there is no memory for them, or they would be 2^64 items or more, nothing
    /// changes.
    pub fn append(&mut self, items: &mut Vec<T>) -> Result<(), AllocError>
        ensures items { self.new.items ≡ (if is_ok result then self.old.items ++ items.old.items else self.old.items) }
        ensures taken { items.new.items ≡ (if is_ok result then [] else items.old.items) }
        ensures room { self.old.room ≤ self.new.room + length items.old.items }
        ensures succeeds { length items.old.items ≤ self.old.room
            → length self.old.items + length items.old.items < 2 ^ 64 → IsOk result }
    {
        if self.len().checked_add(items.len()).is_none() {
            return Err(AllocError);
        }
        append_all(&mut self.current, items)
    }

    /// A list of the same items, which are shared from now on. This list keeps them too, whether there is memory for the
    /// other or not.
    pub fn commit(&mut self) -> Result<SnapshotList<T>, AllocError>
        ensures stays { self.new.items ≡ self.old.items }
        ensures same { IfOk result (λ list. list.items ≡ self.old.items) }
    {
        self.total = seal(&mut self.snapshots, self.total, &mut self.current)?;
        let snapshots = self.snapshots.clone()?;
        let alloc = *self.current.allocator();
        Ok(SnapshotList {
            snapshots,
            total: self.total,
            current: Vec::new(alloc),
        })
    }
}

impl<T> Index<usize> for SnapshotList<T> {
    type Output = T;

    ghost can_index = { λ list index. index < length list.items };

    ghost index_gives = { λ list index item. slice_get list.items index ≡ Some item };

    fn index(&self, index: usize) -> &T {
        match self.get(index) {
            Some(item) => item,
            None => unreachable!(),
        }
    }
}
