//! A stack that can take back what was done to it since a moment, without memory.
//!
//! A validator of operators has three of them: operands, open frames, and locals that were set. `specs/Kept.antt` says what
//! an attempt keeps.

ghost use Rattle.std.specs.Prelude.{◌≡◌, true, false, [], ◌∷◌, ◌++◌, ◌+◌, ◌<◌, ◌≤◌, List, length, Option, Some, None, OnOk, IfOk, IfErr, IfSome, IfNone, MatchOption, MatchResult, reverse, take, drop, slice_get};
ghost use Rattle.wasm_operator_validator_locals.specs.tape.Kept.{saved, IsKept, HasRoom, ReplacesLast};

use std::alloc::{AllocError, Global};
use std::marker::Model;
use std::mem::replace;

/// A stack. In an attempt it keeps the items that stood where the attempt began and were taken off since; those below
/// `kept` still lie in place. So it keeps no more items than stood there (`saved` of `specs/tape/Kept.antt`), and has room for them
/// (`IsKept`). A contract sees the items, the top last, and what stood where the attempt began. Above the
/// items lie places of items that were taken off: they are written again, so that an item is put on without a call.
#[derive(Drop)]
pub struct Tape<T: Copy + Drop> {
    places: Vec<T>,
    count: usize,
    attempt: bool,
    kept: usize,
    lost: Vec<T>,
    alloc: Global,
}

impl<T: Copy + Drop> Model for Tape<T> {
    ghost Value = { List T × Option (List T) };

    ghost view = { λ t. (take t.count t.places.items, saved t.attempt t.kept t.places.items t.lost.items) };

    ghost invariant = { λ t. (t.count ≤ length t.places.items)
        × IsKept t.attempt t.kept t.count (length t.lost.items) (length t.places.items) };
}

impl<T: Copy + Drop> Tape<T> {
    /// An empty stack, outside an attempt. It takes no memory.
    pub fn new(alloc: Global) -> Tape<T>
        ensures { result ≡ ([], None) }
    {
        Tape {
            places: Vec::new(alloc),
            count: 0,
            attempt: false,
            kept: 0,
            lost: Vec::new(alloc),
            alloc,
        }
    }

    /// The allocator that its memory is of.
    pub fn allocator(&self) -> Global {
        self.alloc
    }

    /// The items, the top last.
    #[inline(always)]
    pub fn as_slice(&self) -> &[T]
        ensures { result.now ≡ self.now.0 }
    {
        &self.places.as_slice()[..self.count]
    }

    /// Whether an attempt has begun.
    pub fn is_in_attempt(&self) -> bool
        ensures { MatchOption self.now.1 (result ≡ false) (λ was. result ≡ true) }
    {
        self.attempt
    }

    /// Puts an item on.
    #[inline(always)]
    pub fn push(&mut self, item: T) -> Result<(), AllocError>
        ensures saved { self.new.1 ≡ self.old.1 }
        ensures pushed { OnOk result (self.new.0 ≡ self.old.0 ++ item ∷ []) }
        ensures refused { IfErr result (λ _. self.new.0 ≡ self.old.0) }
    {
        if self.count == self.places.as_slice().len() {
            grow(&mut self.places, item)?;
            self.count += 1;
            return Ok(());
        }
        self.places[self.count] = item;
        self.count += 1;
        Ok(())
    }

    /// Takes an item off.
    #[inline(always)]
    pub fn pop(&mut self) -> Result<Option<T>, AllocError>
        ensures saved { self.new.1 ≡ self.old.1 }
        ensures popped { IfOk result (λ r. MatchOption r ((self.old.0 ≡ []) × (self.new.0 ≡ []))
            (λ x. self.old.0 ≡ self.new.0 ++ x ∷ [])) }
        ensures refused { IfErr result (λ _. self.new.0 ≡ self.old.0) }
    {
        if self.attempt {
            return self.pop_in_attempt();
        }
        if self.count == 0 {
            return Ok(None);
        }
        self.count -= 1;
        Ok(Some(self.places[self.count]))
    }

    /// Takes an item off, outside an attempt. In one there is none to take, and nothing changes.
    #[inline(always)]
    pub fn pop_outside(&mut self) -> Option<T>
        ensures saved { self.new.1 ≡ self.old.1 }
        ensures popped { IfSome result (λ x. self.old.0 ≡ self.new.0 ++ x ∷ []) }
        ensures stays { IfNone result (self.new.0 ≡ self.old.0) }
    {
        if self.attempt || self.count == 0 {
            return None;
        }
        self.count -= 1;
        Some(self.places[self.count])
    }

    // The same as `pop` in an attempt, which keeps what stood where it began.
    #[inline(never)]
    fn pop_in_attempt(&mut self) -> Result<Option<T>, AllocError>
        ensures saved { self.new.1 ≡ self.old.1 }
        ensures popped { IfOk result (λ r. MatchOption r ((self.old.0 ≡ []) × (self.new.0 ≡ []))
            (λ x. self.old.0 ≡ self.new.0 ++ x ∷ [])) }
        ensures refused { IfErr result (λ _. self.new.0 ≡ self.old.0) }
    {
        if self.count == 0 {
            return Ok(None);
        }
        let item = self.places[self.count - 1];
        if self.attempt && self.count == self.kept {
            self.lost.push(item)?;
            self.kept -= 1;
        }
        self.count -= 1;
        Ok(Some(item))
    }

    /// Puts this item in the place of the top.
    #[inline]
    pub fn replace_last(&mut self, item: T) -> Result<(), AllocError>
        requires { 0 < length self.old.0 }
        ensures saved { self.new.1 ≡ self.old.1 }
        ensures replaced { OnOk result (ReplacesLast item self.old.0 self.new.0) }
        ensures refused { IfErr result (λ _. self.new.0 ≡ self.old.0) }
    {
        let last = self.count - 1;
        if self.attempt && self.count == self.kept {
            self.lost.push(self.places[last])?;
            self.kept = last;
            self.places[last] = item;
            return Ok(());
        }
        self.places[last] = item;
        Ok(())
    }

    /// Takes items off until there are no more than so many. Where memory is refused, some may have been taken off.
    pub fn truncate(&mut self, keep: usize) -> Result<(), AllocError>
        ensures saved { self.new.1 ≡ self.old.1 }
        ensures kept { take keep self.new.0 ≡ take keep self.old.0 }
        ensures done { OnOk result (self.new.0 ≡ take keep self.old.0) }
    {
        while self.as_slice().len() > keep {
            let _item = self.pop()?;
        }
        Ok(())
    }

    /// An empty stack from now on, outside an attempt.
    pub fn clear(&mut self)
        ensures { self.new ≡ ([], None) }
    {
        self.count = 0;
        self.attempt = false;
    }

    /// Begins an attempt.
    pub fn begin(&mut self)
        ensures { self.new ≡ (self.old.0, Some self.old.0) }
    {
        self.attempt = true;
        self.kept = self.count;
        self.lost.clear();
    }

    /// Ends an attempt, if one has begun: what was done stays.
    pub fn commit(&mut self)
        ensures { self.new ≡ (self.old.0, None) }
    {
        self.attempt = false;
    }

    /// Ends an attempt, if one has begun: what stood where it began stands again. It takes no memory.
    pub fn rollback(&mut self)
        ensures { MatchOption self.old.1 (self.new ≡ self.old) (λ was. self.new ≡ (was, None)) }
    {
        if !self.attempt {
            return;
        }
        self.attempt = false;
        self.count = put_back(&mut self.places, self.kept, &mut self.lost);
    }
}

// Puts the items back that were taken off, the last first, in places that are there; and how many there are then.
fn put_back<T: Copy + Drop>(places: &mut Vec<T>, kept: usize, lost: &mut Vec<T>) -> usize
    requires { HasRoom kept (length lost.old.items) (length places.old.items) }
    ensures items { take result places.new.items ≡ take kept places.old.items ++ reverse lost.old.items }
    ensures within { result ≤ length places.new.items }
{
    let mut count = kept;
    while let Some(item) = lost.pop() {
        places[count] = item;
        count += 1;
    }
    count
}

// One place more, with this item.
#[inline(never)]
fn grow<T: Copy + Drop>(places: &mut Vec<T>, item: T) -> Result<(), AllocError>
    ensures grown { OnOk result (places.new.items ≡ places.old.items ++ item ∷ []) }
    ensures refused { IfErr result (λ _. places.new.items ≡ places.old.items) }
{
    places.push(item)?;
    Ok(())
}
