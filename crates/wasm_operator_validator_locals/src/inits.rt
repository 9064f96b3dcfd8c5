//! Which locals of a function are initialised: known in constant time, and taken back where a frame ends or an attempt.

ghost use Rattle.std.specs.Prelude.{◌≡◌, ◌++◌, ◌+◌, ◌<◌, ◌^◌, [], ℕ, true, false, Some, None, map, not, length, replicate, take, get_or, set, nat_eq, OnOk, IfErr, MatchOption, if◌then◌else◌};
ghost use Rattle.wasm_types.specs.values.ValueKinds.{is_defaultable_type};
ghost use Rattle.wasm_operator_validator_locals.specs.inits.Inits.{is_among, has_value, with_set, IsWithoutLast, AreBelow, AreSavedBelow};
ghost use Rattle.wasm_operator_validator_locals.specs.inits.Marks.{is_first, is_set, AreUnset};
ghost use Rattle.wasm_operator_validator_locals.specs.declared.inits.Mark.TheVariants.{Unset};

use crate::tape::Tape;
use std::alloc::{AllocError, Global};
use std::marker::Model;
use wasm_types::ValType;

/// What is known of a local.
#[derive(Clone, Copy)]
pub enum Mark {
    /// It has no value yet.
    Unset,
    /// It was set.
    Set,
    /// It has a value from the start.
    First,
}

/// Which locals are initialised (WebAssembly 3.0, validation, conventions, local types): one byte for each of the locals, of which a
/// function has at most 50,000, and the list of those that were set.
#[derive(Drop)]
pub struct LocalInits {
    marks: Vec<Mark>,
    inits: Tape<u32>,
}

impl Model for LocalInits {
    ghost use Rattle.std.specs.Prelude.{map};
    ghost use Rattle.wasm_operator_validator_locals.specs.inits.Inits.{Inits};
    ghost use Rattle.wasm_operator_validator_locals.specs.inits.Marks.{is_first, AreUnset, AreSavedUnset, AreMarked};

    ghost Value = { Inits };

    ghost view = { λ l. record { first = map is_first l.marks.items; set = l.inits.0; saved = l.inits.1 } };

    ghost invariant = { λ l. AreMarked l.marks.items l.inits.0 × AreUnset (map is_first l.marks.items) l.inits.0
        × AreSavedUnset (map is_first l.marks.items) l.inits.1 };
}

impl LocalInits {
    /// No locals, outside an attempt. It takes no memory.
    pub fn new(alloc: Global) -> LocalInits
        ensures { result ≡ record { first = []; set = []; saved = None } }
    {
        LocalInits {
            marks: Vec::new(alloc),
            inits: Tape::new(alloc),
        }
    }

    /// How many locals there are.
    pub fn len_locals(&self) -> usize
        ensures { result ≡ length self.now.first }
    {
        self.marks.as_slice().len()
    }

    /// Puts locals at the end that have a value from the start, as parameters have. Where memory is refused nothing changes.
    pub fn define_params(&mut self, count: usize) -> Result<(), AllocError>
        requires { length self.old.first + count < 2 ^ 32 }
        ensures defined { OnOk result (self.new ≡ record self.old { first = self.old.first ++ replicate count true }) }
        ensures refused { IfErr result (λ _. self.new ≡ self.old) }
    {
        self.define(count, Mark::First)
    }

    /// Puts locals of a type at the end, which have a value from the start where the type has a default value. Where memory is
    /// refused nothing changes.
    pub fn define_locals(&mut self, count: u32, ty: &ValType) -> Result<(), AllocError>
        requires { length self.old.first + count < 2 ^ 32 }
        ensures defined { OnOk result (self.new ≡ record self.old {
          first = self.old.first ++ replicate count (is_defaultable_type ty.now);
        }) }
        ensures before { AreBelow (length self.old.first) self.new.set
            × AreSavedBelow (length self.old.first) self.new.saved }
        ensures refused { IfErr result (λ _. self.new ≡ self.old) }
    {
        if ty.is_defaultable() {
            return self.define(count as usize, Mark::First);
        }
        self.define(count as usize, Mark::Unset)
    }

    fn define(&mut self, count: usize, mark: Mark) -> Result<(), AllocError>
        requires within { length self.old.first + count < 2 ^ 32 }
        requires fresh { is_set mark ≡ false }
        ensures defined { OnOk result (self.new ≡ record self.old {
          first = self.old.first ++ replicate count (is_first mark);
        }) }
        ensures before { AreBelow (length self.old.first) self.new.set
            × AreSavedBelow (length self.old.first) self.new.saved }
        ensures refused { IfErr result (λ _. self.new ≡ self.old) }
    {
        let held = self.marks.as_slice().len();
        self.marks.resize(held + count, mark)?;
        Ok(())
    }

    /// Only the first so many locals stay, where none of the others was set. It takes no memory.
    pub fn truncate(&mut self, len: usize)
        requires unset { AreBelow len self.old.set × AreSavedBelow len self.old.saved }
        ensures { self.new ≡ record self.old { first = take len self.old.first } }
    {
        self.marks.truncate(len);
    }

    /// Whether a local has no value yet.
    #[inline]
    pub fn is_uninit(&self, local_index: u32) -> bool
        requires { local_index < length self.now.first }
        ensures { result ≡ not (has_value self.now local_index) }
    {
        match self.marks.as_slice()[local_index as usize] {
            Mark::Unset => true,
            Mark::Set => false,
            Mark::First => false,
        }
    }

    /// Gives a local a value, which is noted where it has none yet. Where memory is refused nothing changes.
    #[inline(always)]
    pub fn set_init(&mut self, local_index: u32) -> Result<(), AllocError>
        requires { local_index < length self.old.first }
        ensures set { OnOk result (self.new ≡ record self.old { set = with_set self.old local_index }) }
        ensures refused { IfErr result (λ _. self.new ≡ self.old) }
    {
        if !self.is_uninit(local_index) {
            return Ok(());
        }
        self.set_unset(local_index)
    }

    // The same, out of line: most locals have a value from the start.
    #[inline(never)]
    fn set_unset(&mut self, local_index: u32) -> Result<(), AllocError>
        requires { local_index < length self.old.first }
        ensures set { OnOk result (self.new ≡ record self.old { set = with_set self.old local_index }) }
        ensures refused { IfErr result (λ _. self.new ≡ self.old) }
    {
        if !self.is_uninit(local_index) {
            return Ok(());
        }
        self.inits.push(local_index)?;
        mark_one(&mut self.marks, local_index, Mark::Set);
        Ok(())
    }

    /// How many locals were set.
    #[inline]
    pub fn height(&self) -> usize
        ensures { result ≡ length self.now.set }
    {
        self.inits.as_slice().len()
    }

    /// Whether no local was set.
    pub fn is_empty(&self) -> bool
        ensures { result ≡ nat_eq (length self.now.set) 0 }
    {
        self.inits.as_slice().is_empty()
    }

    /// Takes the values back of locals that were set since this many were. Where memory is refused, some may have been taken back.
    pub fn pop_ctrl(&mut self, height: usize) -> Result<(), AllocError>
        ensures first { self.new.first ≡ self.old.first }
        ensures saved { self.new.saved ≡ self.old.saved }
        ensures kept { take height self.new.set ≡ take height self.old.set }
        ensures done { OnOk result (self.new.set ≡ take height self.old.set) }
    {
        while self.height() > height {
            self.pop()?;
        }
        Ok(())
    }

    // Takes the value back of the last local that was set.
    fn pop(&mut self) -> Result<(), AllocError>
        requires { 0 < length self.old.set }
        ensures first { self.new.first ≡ self.old.first }
        ensures saved { self.new.saved ≡ self.old.saved }
        ensures popped { OnOk result (IsWithoutLast self.old.set self.new.set) }
        ensures refused { IfErr result (λ _. self.new ≡ self.old) }
    {
        let Some(local_index) = self.inits.pop()? else {
            unreachable!()
        };
        mark_one(&mut self.marks, local_index, Mark::Unset);
        Ok(())
    }

    /// No locals from now on, and no attempt.
    pub fn clear(&mut self)
        ensures { self.new ≡ record { first = []; set = []; saved = None } }
    {
        self.marks.clear();
        self.inits.clear();
    }

    /// Begins an attempt.
    pub fn begin(&mut self)
        ensures { self.new ≡ record self.old { saved = Some self.old.set } }
    {
        self.inits.begin();
    }

    /// Ends an attempt, if one has begun: what was set stays.
    pub fn commit(&mut self)
        ensures { self.new ≡ record self.old { saved = None } }
    {
        self.inits.commit();
    }

    /// Ends an attempt, if one has begun: the locals that were set where it began are set again, and no others. It takes no memory.
    pub fn rollback(&mut self)
        ensures { MatchOption self.old.saved (self.new ≡ self.old)
            (λ was. self.new ≡ record self.old { set = was; saved = None }) }
    {
        if !self.inits.is_in_attempt() {
            return;
        }
        mark_each(&mut self.marks, self.inits.as_slice(), Mark::Unset);
        self.inits.rollback();
        mark_each(&mut self.marks, self.inits.as_slice(), Mark::Set);
    }
}

// Marks a local.
#[inline]
fn mark_one(marks: &mut Vec<Mark>, local_index: u32, mark: Mark)
    requires { local_index < length marks.old.items }
    ensures { marks.new.items ≡ set marks.old.items local_index mark }
{
    marks[local_index as usize] = mark;
}

// Marks locals that have no value from the start.
fn mark_each(marks: &mut Vec<Mark>, locals: &[u32], mark: Mark)
    requires unset { AreUnset (map is_first marks.old.items) locals.now }
    requires no_first { is_first mark ≡ false }
    ensures first { map is_first marks.new.items ≡ map is_first marks.old.items }
    ensures marked { (k : ℕ) → is_set (get_or marks.new.items k Unset) ≡
        (if is_among locals.now k then is_set mark else is_set (get_or marks.old.items k Unset)) }
{
    for local_index in locals {
        mark_one(marks, *local_index, mark);
    }
}
