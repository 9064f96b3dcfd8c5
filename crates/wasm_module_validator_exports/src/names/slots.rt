//! Names found by numbers that are computed from their bytes.
//!
//! Each slot has the index of a name; it is free if no name stands at this index. A name has two slots, side by side: that of its number,
//! and the other of the same pair, which mostly is in the processor's cache then. If other names have both already, the name goes into a
//! set, which finds it by its order: so names whose numbers meet are found no slower than by their order, whoever chooses them. Of each
//! name in the set neither slot is free.

ghost use Rattle.std.specs.Prelude.{◌≡◌, ◌<◌, ℕ, List, length, IfSome};
ghost use Rattle.wasm_module_validator_exports.specs.names.Exports.{AreNamed, HasMet, HasMetAt, HasNoted, HasSettled, Holds, IsPut, beside, exports_of, first_slot, names_of, number_of, slot_of};

use crate::names::exports::KeptExport;
use crate::names::kept::{bytes_of, name_of};
use std::alloc::Global;
use std::collections::BTreeSet;
use std::hash::{FoldHasher, Hasher};

/// What an attempt to add a name did.
pub enum Tried {
    /// It was added.
    Added,
    /// It is there already.
    Taken,
    /// There is no memory.
    NoMemory,
}

// What is in a name's slots: in one nothing, so an index may go there; in one the name itself; or others in both.
#[derive(Clone, Copy)]
pub(crate) enum Met {
    Free(usize, u32),
    Same,
    Other,
}

// The number of a name.
fn number(name: &str) -> u64
    ensures { result ≡ number_of name.now }
{
    let mut hasher = FoldHasher::default();
    hasher.write(name.as_bytes());
    hasher.finish()
}

// The slot of a number among so many, a power of two.
pub(crate) fn slot(number: u64, slots: usize) -> usize
    ensures { result ≡ slot_of number slots }
{
    number as usize & slots.saturating_sub(1)
}

// What is in a slot, for a name.
fn meet_at(slots: &[u32], names: &[u8], exports: &[KeptExport], name: &str, at: usize) -> Met
    requires { AreNamed names.now exports.now }
    ensures { HasMetAt slots.now (names_of (exports_of names.now exports.now)) name.now at result }
{
    let Some(index) = slots.get(at) else {
        return Met::Other;
    };
    let Some(export) = exports.get(*index as usize) else {
        let last = exports.len();
        if last < 0x1_0000_0000 {
            return Met::Free(at, last as u32);
        }
        return Met::Other;
    };
    if name.as_bytes() == bytes_of(names, export.name) {
        return Met::Same;
    }
    Met::Other
}

// What is in both slots of a name.
fn both(first: Met, second: Met) -> Met
    ensures { (slots : List ℕ) (names : List (List ℕ)) (n : List ℕ)
        → HasMetAt slots names n (first_slot slots n) first
        → HasMetAt slots names n (beside (first_slot slots n)) second → HasMet slots names n result }
{
    match first {
        Met::Free(at, index) => match second {
            Met::Free(_, _) => Met::Free(at, index),
            Met::Same => Met::Same,
            Met::Other => Met::Free(at, index),
        },
        Met::Same => Met::Same,
        Met::Other => second,
    }
}

// What is in a name's slots.
fn meet(slots: &[u32], names: &[u8], exports: &[KeptExport], name: &str) -> Met
    requires { AreNamed names.now exports.now }
    ensures { HasMet slots.now (names_of (exports_of names.now exports.now)) name.now result }
{
    let at = slot(number(name), slots.len());
    let first = meet_at(slots, names, exports, name, at);
    let second = meet_at(slots, names, exports, name, at ^ 1);
    both(first, second)
}

// An index in a slot.
pub(crate) fn put(slots: &mut Vec<u32>, at: usize, index: u32)
    requires { at < length slots.old.items }
    ensures { IsPut at index slots.old.items slots.new.items }
{
    slots[at] = index;
}

// A name in the set of those whose slots others have, if it is new there.
#[cold]
#[inline(never)]
fn note(alloc: Global, others: &mut BTreeSet<String>, name: &str) -> Tried
    ensures { HasNoted name.now others.old others.new result }
{
    let Ok(text) = String::from_str(alloc, name) else {
        return Tried::NoMemory;
    };
    let Ok(is_new) = others.insert(text) else {
        return Tried::NoMemory;
    };
    if is_new {
        return Tried::Added;
    }
    Tried::Taken
}

// A name behind those of these exports, where it is none of them.
pub(crate) fn settle(
    alloc: Global,
    slots: &mut Vec<u32>,
    others: &mut BTreeSet<String>,
    names: &[u8],
    exports: &[KeptExport],
    name: &str,
) -> Tried
    requires named { AreNamed names.now exports.now }
    requires held { Holds slots.old.items others.old (names_of (exports_of names.now exports.now)) }
    ensures { HasSettled name.now (names_of (exports_of names.now exports.now)) slots.new.items others.new result }
{
    match meet(slots.as_slice(), names, exports, name) {
        Met::Free(at, index) => {
            put(slots, at, index);
            return Tried::Added;
        }
        Met::Same => return Tried::Taken,
        Met::Other => (),
    }
    note(alloc, others, name)
}

// How many slots come after so many, a power of two too.
pub(crate) fn after(slots: usize) -> usize {
    if slots < 16 {
        return 16;
    }
    slots.saturating_mul(8)
}

// So many slots with the names of these exports, and the names that have none.
#[cold]
#[inline(never)]
pub(crate) fn rebuilt(
    alloc: Global,
    slots: usize,
    names: &[u8],
    exports: &[KeptExport],
) -> Option<(Vec<u32>, BTreeSet<String>)>
    requires { AreNamed names.now exports.now }
    ensures { IfSome result (λ it. Holds it.0.items it.1 (names_of (exports_of names.now exports.now))) }
{
    let Ok(mut slots) = Vec::from_elem(alloc, u32::MAX, slots) else {
        return None;
    };
    let mut others = BTreeSet::new(alloc);
    for i in 0..exports.len() {
        let (before, _) = exports.split_at(i);
        let export = &exports[i];
        let name = name_of(names, export.name);
        match settle(alloc, &mut slots, &mut others, names, before, name) {
            Tried::Added => (),
            Tried::Taken => return None,
            Tried::NoMemory => return None,
        }
    }
    Some((slots, others))
}
