//! Pairs of names found by numbers that are computed from their bytes.
//!
//! Each slot has the index of a pair of names; it is free if none stands at this index. A pair has two slots, as a name in the module
//! `slots` has. If others have both already, the pair goes into a map, which finds it by its order: so pairs whose numbers meet are found
//! no slower than by their order, whoever chooses the names. Of each pair in the map neither slot is free.

ghost use Rattle.std.specs.Prelude.{◌≡◌, ℕ, List, IfSome, length};
ghost use Rattle.wasm_module_validator_exports.specs.names.Exports.{beside};
ghost use Rattle.wasm_module_validator_exports.specs.names.Imports.{AreKept, HasMet, HasMetAt, HasSettled, HasSought, Holds, Pair, all_named, is_pair, module_at, number_of, pairs_of, slot_for};
ghost use Rattle.wasm_module_validator_exports.specs.names.Kept.{IsNamed, name_at};

use crate::names::imports::{KeptNames, module_of};
use crate::names::kept::{bytes_of, name_of};
use crate::names::slots::{put, slot};
use std::alloc::Global;
use std::collections::BTreeMap;
use std::hash::{FoldHasher, Hasher};

// The pairs whose slots others have, and where they stand.
pub(crate) type Others = BTreeMap<(String, String), usize>;

// What is in a pair's slots: in one nothing, so an index may go there; in one the pair itself, which stands at an index; or others in both.
#[derive(Clone, Copy)]
pub(crate) enum Met {
    Free(usize, u32),
    Same(usize),
    Other,
}

// What became of a pair that was sought: it was new and came behind the others, it stands at an index, or there is no memory.
pub(crate) enum Sought {
    New,
    At(usize),
    NoMemory,
}

// The number of a pair of names.
fn number(module: &str, name: &str) -> u64
    ensures { result ≡ number_of «module».now name.now }
{
    let mut hasher = FoldHasher::default();
    hasher.write(module.as_bytes());
    hasher.write(name.as_bytes());
    hasher.finish()
}

// Whether these are the names that are kept. They are compared as bytes: a long name is not read again for each short one that meets it.
fn has_names(modules: &[String], names: &[u8], kept: &KeptNames, module: &str, name: &str) -> bool
    requires { IsNamed names.now kept.now.name }
    ensures { result ≡ is_pair «module».now name.now
        (module_at modules.now kept.now.«module», name_at names.now kept.now.name) }
{
    module == module_of(modules, kept) && name.as_bytes() == bytes_of(names, kept.name)
}

// What is in a slot, for a pair.
fn meet_at(
    slots: &[u32],
    modules: &[String],
    names: &[u8],
    pairs: &[KeptNames],
    module: &str,
    name: &str,
    at: usize,
) -> Met
    requires { AreKept modules.now names.now pairs.now }
    ensures { HasMetAt slots.now (pairs_of (all_named modules.now names.now pairs.now)) «module».now name.now at
        result }
{
    let Some(index) = slots.get(at) else {
        return Met::Other;
    };
    let Some(kept) = pairs.get(*index as usize) else {
        let last = pairs.len();
        if last < 0x1_0000_0000 {
            return Met::Free(at, last as u32);
        }
        return Met::Other;
    };
    if has_names(modules, names, kept, module, name) {
        return Met::Same(*index as usize);
    }
    Met::Other
}

// What is in both slots of a pair.
fn both(first: Met, second: Met) -> Met
    ensures { (slots : List ℕ) (ps : List Pair) (m f : List ℕ)
        → HasMetAt slots ps m f (slot_for m f (length slots)) first
        → HasMetAt slots ps m f (beside (slot_for m f (length slots))) second → HasMet slots ps m f result }
{
    match first {
        Met::Free(at, index) => match second {
            Met::Free(_, _) => Met::Free(at, index),
            Met::Same(at) => Met::Same(at),
            Met::Other => Met::Free(at, index),
        },
        Met::Same(at) => Met::Same(at),
        Met::Other => second,
    }
}

// What is in a pair's slots.
fn meet(
    slots: &[u32],
    modules: &[String],
    names: &[u8],
    pairs: &[KeptNames],
    module: &str,
    name: &str,
) -> Met
    requires { AreKept modules.now names.now pairs.now }
    ensures { HasMet slots.now (pairs_of (all_named modules.now names.now pairs.now)) «module».now name.now
        result }
{
    let at = slot(number(module, name), slots.len());
    let first = meet_at(slots, modules, names, pairs, module, name, at);
    let second = meet_at(slots, modules, names, pairs, module, name, at ^ 1);
    both(first, second)
}

// Where a pair of those stands whose slots others have; where it is new it comes to them, at this index.
#[cold]
#[inline(never)]
fn seek(alloc: Global, others: &mut Others, module: &str, name: &str, index: usize) -> Sought
    ensures { HasSought «module».now name.now index others.old others.new result }
{
    let Ok(module) = String::from_str(alloc, module) else {
        return Sought::NoMemory;
    };
    let Ok(name) = String::from_str(alloc, name) else {
        return Sought::NoMemory;
    };
    let key = (module, name);
    if let Some(at) = others.get(&key) {
        return Sought::At(*at);
    }
    match others.insert(key, index) {
        Ok(_old) => Sought::New,
        Err(_refused) => Sought::NoMemory,
    }
}

// A pair behind these, where it is none of them.
pub(crate) fn settle(
    alloc: Global,
    slots: &mut Vec<u32>,
    others: &mut Others,
    modules: &[String],
    names: &[u8],
    pairs: &[KeptNames],
    module: &str,
    name: &str,
) -> Sought
    requires kept { AreKept modules.now names.now pairs.now }
    requires holds { Holds slots.old.items others.old (pairs_of (all_named modules.now names.now pairs.now)) }
    ensures { HasSettled «module».now name.now (pairs_of (all_named modules.now names.now pairs.now))
        slots.new.items others.new result }
{
    match meet(slots.as_slice(), modules, names, pairs, module, name) {
        Met::Free(at, index) => {
            put(slots, at, index);
            return Sought::New;
        }
        Met::Same(at) => return Sought::At(at),
        Met::Other => (),
    }
    seek(alloc, others, module, name, pairs.len())
}

// So many slots with these pairs, and the pairs that have none.
#[cold]
#[inline(never)]
pub(crate) fn rebuilt(
    alloc: Global,
    slots: usize,
    modules: &[String],
    names: &[u8],
    pairs: &[KeptNames],
) -> Option<(Vec<u32>, Others)>
    requires { AreKept modules.now names.now pairs.now }
    ensures { IfSome result (λ it. Holds it.0.items it.1 (pairs_of (all_named modules.now names.now pairs.now))) }
{
    let Ok(mut slots) = Vec::from_elem(alloc, u32::MAX, slots) else {
        return None;
    };
    let mut others = BTreeMap::new(alloc);
    for i in 0..pairs.len() {
        let (before, _) = pairs.split_at(i);
        let kept = &pairs[i];
        let (module, name) = (module_of(modules, kept), name_of(names, kept.name));
        match settle(
            alloc,
            &mut slots,
            &mut others,
            modules,
            names,
            before,
            module,
            name,
        ) {
            Sought::New => (),
            Sought::At(_) => return None,
            Sought::NoMemory => return None,
        }
    }
    Some((slots, others))
}
