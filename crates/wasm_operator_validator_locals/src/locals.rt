//! The locals of a function.

ghost use Rattle.std.specs.Prelude.{◌≡◌, ◌↔◌, IsTrue, true, false, ◌+◌, ◌≤◌, ◌<◌, List, [], ◌++◌, length, replicate, slice_get, IfErr, IfSome, Some};
ghost use Rattle.wasm_types.specs.decoding.declared.error.ErrorKind.TheVariants.{Other, OutOfMemory};
ghost use Rattle.wasm_types.specs.values.declared.value.ValType.{ValType as TheValType};
ghost use Rattle.wasm_operator_validator_locals.specs.Locals.{IsFront};

use std::alloc::Global;
use std::cmp::min;
use std::marker::Model;
use wasm_types::{Error, Result, ValType, Words};

/// How many of the first locals are found by their index alone.
const FIRST: usize = 64;

/// Locals of one type, up to an index.
#[derive(Clone, Copy)]
pub struct Run {
    pub end: u32,
    pub ty: ValType,
}

/// The locals of a function. The parameters are kept one by one, since a function type has them so, and many bodies may begin with them.
/// The locals after them are runs of one type, so that they take no more room than the bytes that declare them. The first of all are
/// kept once more, one by one.
#[derive(Drop)]
pub struct Locals {
    first: Vec<ValType>,
    params: Vec<ValType>,
    runs: Vec<Run>,
}

impl Model for Locals {
    ghost use Rattle.std.specs.Prelude.{List, ◌≤◌, ◌++◌, length};
    ghost use Rattle.wasm_types.specs.values.declared.value.ValType.{ValType as TheValType};
    ghost use Rattle.wasm_operator_validator_locals.specs.Locals.{locals_from, AreRunsFrom, IsFront};

    ghost Value = { List TheValType };

    ghost view = { λ l. l.params.items ++ locals_from (length l.params.items) l.runs.items };

    ghost invariant = { λ l. AreRunsFrom (length l.params.items) l.runs.items
        × IsFront l.first.items (l.params.items ++ locals_from (length l.params.items) l.runs.items)
        × (length l.first.items ≤ 64) };
}

impl Locals {
    ghost use Rattle.wasm_operator_validator_locals.specs.Locals.{Does, RefusedAt};

    /// No locals. It takes no memory.
    pub fn new(alloc: Global) -> Locals
        ensures { result ≡ [] }
    {
        Locals {
            first: Vec::new(alloc),
            params: Vec::new(alloc),
            runs: Vec::new(alloc),
        }
    }

    /// No locals from now on.
    pub fn clear(&mut self)
        ensures { self.new ≡ [] }
    {
        self.first.clear();
        self.params.clear();
        self.runs.clear();
    }

    /// These parameters, in the order of their indices, are all locals from now on, where a function has at most `most`. It says whether it
    /// was done. Else there are no locals: there would be too many, or there is no memory for one parameter or more.
    pub fn put_params(&mut self, most: u32, params: &[ValType]) -> bool
        ensures put { result ≡ true → (self.new ≡ params.now) × (length params.now ≤ most) }
        ensures none { result ≡ false → self.new ≡ [] }
        ensures some { result ≡ false → length params.now ≤ most → 0 < length params.now }
    {
        self.first.clear();
        self.params.clear();
        self.runs.clear();
        if params.len() > most as usize {
            return false;
        }
        let Ok(()) = self.params.extend_from_slice(params) else {
            return false;
        };
        let few = min(params.len(), FIRST);
        let Ok(()) = self.first.extend_from_slice(&params[..few]) else {
            self.params.clear();
            return false;
        };
        true
    }

    /// How many there are.
    pub fn len_locals(&self) -> u32
        ensures { result ≡ length self.now }
    {
        match self.runs.last() {
            None => self.params.as_slice().len() as u32,
            Some(run) => run.end,
        }
    }

    /// Puts `count` locals of a type at the end, where a function has at most `most`.
    ///
    /// # Errors
    ///
    /// There would be more than that in all: that is refused at this offset. Or there is no memory for a count above 0 within
    /// that limit. Nothing changes then.
    pub fn define(&mut self, most: u32, offset: u64, count: u32, ty: &ValType) -> Result<()>
        ensures does { Does result ((self.new ≡ self.old ++ replicate count ty.now) × (length self.new ≤ most))
            (length self.old + count ≤ most) }
        ensures at { RefusedAt offset result }
        ensures stays { IfErr result (λ _. self.new ≡ self.old) }
        ensures memory { IfErr result (λ e. e.kind ≡ OutOfMemory → (0 < count) × (length self.old + count ≤ most)) }
    {
        if !self.may_define(most, count) {
            return Err(too_many_locals(offset));
        }
        if self.put(most, count, ty) {
            return Ok(());
        }
        Err(Error::out_of_memory(offset))
    }

    /// Puts `count` locals of a type at the end, as `define` does, and says whether it did. Else nothing changes: there would be too many,
    /// or there is no memory.
    pub fn put(&mut self, most: u32, count: u32, ty: &ValType) -> bool
        ensures put { result ≡ true → (self.new ≡ self.old ++ replicate count ty.now)
            × (length self.old + count ≤ most) }
        ensures stays { result ≡ false → self.new ≡ self.old }
        ensures some { result ≡ false → length self.old + count ≤ most → 0 < count }
    {
        if !self.may_define(most, count) {
            return false;
        }
        if count == 0 {
            return true;
        }
        let defined = self.len_locals();
        let end = defined + count;
        let held = self.runs.as_slice().len();
        let Ok(()) = self.runs.push(Run { end, ty: *ty }) else {
            return false;
        };
        if !grow_first(&mut self.first, defined, count, ty) {
            self.runs.truncate(held);
            return false;
        }
        true
    }

    /// Whether so many more may be put at the end, where a function has at most `most`.
    pub fn may_define(&self, most: u32, count: u32) -> bool
        ensures { IsTrue result ↔ (length self.now + count ≤ most) }
    {
        u64::from(self.len_locals()) + u64::from(count) <= u64::from(most)
    }

    /// The type of a local, by its index, if it is one of the first.
    #[inline(always)]
    pub fn get_first(&self, index: u32) -> Option<ValType>
        ensures { IfSome result (λ ty. Some ty ≡ slice_get self.now index) }
    {
        let first = self.first.as_slice();
        if (index as usize) < first.len() {
            return Some(first[index as usize]);
        }
        None
    }

    /// The type of a local, by its index.
    #[inline(never)]
    pub fn get(&self, index: u32) -> Option<ValType>
        ensures { result ≡ slice_get self.now index }
    {
        let params = self.params.as_slice();
        if (index as usize) < params.len() {
            return Some(params[index as usize]);
        }
        let at = self.runs.partition_point(|run| run.end <= index);
        if at == self.runs.len() {
            return None;
        }
        Some(self.runs[at].ty)
    }
}

/// Puts as many of `count` further locals of a type at the end of the first as have room there, where those are all of
/// the `defined` ones.
fn grow_first(first: &mut Vec<ValType>, defined: u32, count: u32, ty: &ValType) -> bool
    requires { length first.old.items ≤ 64 }
    ensures front { (all : List TheValType) → length all ≡ defined → IsFront first.old.items all
        → IsFront first.new.items (all ++ replicate count ty.now) }
    ensures within { length first.new.items ≤ 64 }
    ensures refused { result ≡ false → first.new.items ≡ first.old.items }
{
    let held = first.as_slice().len();
    if held != defined as usize || held >= FIRST {
        return true;
    }
    let more = min(count as usize, FIRST - held);
    let Ok(()) = first.resize(held + more, *ty) else {
        return false;
    };
    true
}

/// The refusal of more locals than the limit allows.
#[cold]
pub fn too_many_locals(offset: u64) -> Error
    ensures kind { result.kind ≡ Other }
    ensures offset { result.offset ≡ offset }
{
    Error::new(Words::TooManyLocalsLocalsExceedMaximum, offset)
}
