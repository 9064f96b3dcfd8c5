//! Imports, by their names.

ghost use Rattle.std.specs.Prelude.{◌≡◌, ◌++◌, ◌∷◌, ◌-◌, ◌<◌, ◌^◌, [], length, vec_len, vec_capacity, IfSome, option_map, slice_get, IfErr, OnErr, OnOk};
ghost use Rattle.wasm_types.specs.decoding.declared.error.ErrorKind.TheVariants.{OutOfMemory};
ghost use Rattle.wasm_module_validator_exports.specs.names.Imports.{AreKept, HasAdded, HasKept, HasKeptNames, HasPushed, Holds, all_named, module_at, named_of, pairs_of, with_import};

use crate::names::kept::{KeptName, name_of, push_name_in_room};
use crate::names::pairs::{Others, Sought, rebuilt, settle};
use crate::names::slots::after;
use std::alloc::Global;
use std::collections::BTreeMap;
use std::marker::Model;
use wasm_sections_items::imports::ExternalKind;
use wasm_types::{Error, Result};

/// What stands at this index of the space of this kind.
#[derive(Clone, Copy, Debug, PartialEq, Eq)]
pub struct Place {
    /// The kind.
    pub kind: ExternalKind,
    /// The index.
    pub index: u32,
}

// A pair of names, where it came first, and what is imported by it.
#[derive(Drop)]
pub(crate) struct KeptNames {
    // Where the name of the module stands, among those that are kept.
    pub(crate) module: usize,
    // The name of what is imported from it.
    pub(crate) name: KeptName,
    // What is imported first. Nearly every pair is of one import: that takes no memory of its own.
    pub(crate) first: Place,
    pub(crate) others: Vec<Place>,
}

/// What a module imports by one name from one module, in the order of the imports.
#[derive(Drop)]
pub struct NamedImports<'a> {
    /// The name of the module.
    pub module: &'a str,
    /// The name of what is imported from it.
    pub name: &'a str,
    /// Where the first stands that is imported by these names.
    pub first: Place,
    /// Where the others do.
    pub others: &'a [Place],
}

/// The imports of a module by their names: each pair of names once, in the order in which they came first. A contract sees them so.
///
/// Which pair an import belongs to is found when it comes, by a number that is computed from its names, so that no one needs memory who asks
/// for them ([`Imports::get`]). The name of a module is looked for among the last few alone, so it is mostly kept once. The names of what is
/// imported stand one after the other, so that none takes memory by itself.
#[derive(Drop)]
pub struct Imports {
    alloc: Global,
    modules: Vec<String>,
    names: Vec<u8>,
    pairs: Vec<KeptNames>,
    // The index of a pair, in one of the two slots of the number of its names; a slot without one has an index where no pair stands.
    slots: Vec<u32>,
    // The pairs whose slots others have.
    others: Others,
}

impl Model for Imports {
    ghost use Rattle.std.specs.Prelude.{List};
    ghost use Rattle.wasm_module_validator_exports.specs.names.Imports.{AreKept, Holds, ImportedName, all_named, pairs_of};

    ghost Value = { List ImportedName };

    ghost view = { λ i. all_named i.modules.items i.names.items i.pairs.items };

    ghost invariant = { λ i. AreKept i.modules.items i.names.items i.pairs.items
        × Holds i.slots.items i.others (pairs_of (all_named i.modules.items i.names.items i.pairs.items)) };
}

// The name of a module.
pub(crate) fn module_of<'a>(modules: &'a [String], kept: &KeptNames) -> &'a str
    ensures { result.now ≡ module_at modules.now kept.now.«module» }
{
    match modules.get(kept.module) {
        Some(module) => module.as_str(),
        None => "",
    }
}

// Where the name of a module stands among the last few that are kept.
fn find_module(modules: &[String], module: &str) -> Option<usize>
    ensures { IfSome result (λ at. at < length modules.now × module_at modules.now at ≡ «module».now) }
{
    let count = modules.len();
    for at in count.saturating_sub(8)..count {
        if module == modules[at].as_str() {
            return Some(at);
        }
    }
    None
}

// Where the name of a module stands, which is kept where it was not found.
fn keep_module(alloc: Global, modules: &mut Vec<String>, module: &str) -> Option<usize>
    ensures { HasKept «module».now modules.old.items modules.new.items result }
{
    if let Some(at) = find_module(modules.as_slice(), module) {
        return Some(at);
    }
    let at = modules.as_slice().len();
    let Ok(text) = String::from_str(alloc, module) else {
        return None;
    };
    let Ok(()) = modules.push(text) else {
        return None;
    };
    Some(at)
}

// A pair of names behind the others, in room that is there.
fn push_in_room(pairs: &mut Vec<KeptNames>, kept: KeptNames)
    requires { vec_len pairs.old < vec_capacity pairs.old }
    ensures { pairs.new.items ≡ pairs.old.items ++ kept ∷ [] }
{
    let _ = pairs.push(kept);
}

// The names of a pair of one import, kept behind the others.
fn keep_names(
    alloc: Global,
    modules: &mut Vec<String>,
    names: &mut Vec<u8>,
    module: &str,
    name: &str,
    place: Place,
) -> Option<KeptNames>
    ensures { HasKeptNames «module».now name.now place modules.old.items modules.new.items names.old.items
        names.new.items result }
{
    let Some(module) = keep_module(alloc, modules, module) else {
        return None;
    };
    let Ok(()) = names.reserve(name.len()) else {
        return None;
    };
    let name = push_name_in_room(names, name);
    Some(KeptNames {
        module,
        name,
        first: place,
        others: Vec::new(alloc),
    })
}

// One import more by names that are there: whether there is memory.
fn push_at(pairs: &mut Vec<KeptNames>, at: usize, place: Place) -> bool
    requires { at < length pairs.old.items }
    ensures { HasPushed at place pairs.old.items pairs.new.items result }
{
    let kept = &mut pairs[at];
    match kept.others.push(place) {
        Ok(()) => true,
        Err(_refused) => false,
    }
}

// Slots for one pair more: whether there is memory.
fn make_room(
    alloc: Global,
    slots: &mut Vec<u32>,
    others: &mut Others,
    modules: &[String],
    names: &[u8],
    pairs: &[KeptNames],
) -> bool
    requires kept { AreKept modules.now names.now pairs.now }
    requires holds { Holds slots.old.items others.old (pairs_of (all_named modules.now names.now pairs.now)) }
    ensures { Holds slots.new.items others.new (pairs_of (all_named modules.now names.now pairs.now)) }
{
    let count = slots.as_slice().len();
    if count / 4 > pairs.len() {
        return true;
    }
    let Some((more, found)) = rebuilt(alloc, after(count), modules, names, pairs) else {
        return false;
    };
    *slots = more;
    *others = found;
    true
}

impl<'a> NamedImports<'a> {
    /// Where an import by these names stands, counted from 0.
    pub fn place(&self, at: usize) -> Option<Place>
        ensures told { result ≡ slice_get (named_of self.now).places at }
        ensures within { IfSome result (λ _. at < 2 ^ 64 - 1) }
    {
        if at == 0 {
            return Some(self.first);
        }
        self.others.get(at - 1).copied()
    }
}

impl Imports {
    /// No imports, which takes no memory.
    pub fn new(alloc: Global) -> Imports
        ensures { result ≡ [] }
    {
        Imports {
            alloc,
            modules: Vec::new(alloc),
            names: Vec::new(alloc),
            pairs: Vec::new(alloc),
            slots: Vec::new(alloc),
            others: BTreeMap::new(alloc),
        }
    }

    /// How many pairs of names there are.
    pub fn len(&self) -> usize
        ensures { result ≡ length self.now }
    {
        self.pairs.as_slice().len()
    }

    /// A pair of names, in the order in which they came first, with what is imported by it. It takes no memory.
    pub fn get(&self, at: usize) -> Option<NamedImports<'_>>
        ensures told { option_map named_of result ≡ slice_get self.now at }
        ensures within { IfSome result (λ _. at < 2 ^ 64 - 1) }
    {
        let kept = self.pairs.as_slice().get(at)?;
        Some(NamedImports {
            module: module_of(self.modules.as_slice(), kept),
            name: name_of(self.names.as_slice(), kept.name),
            first: kept.first,
            others: kept.others.as_slice(),
        })
    }

    /// One import more, where there is memory: whether it was. Else they stay.
    pub fn add(&mut self, module: &str, name: &str, place: Place) -> bool
        ensures { HasAdded «module».now name.now place self.old self.new result }
    {
        let Ok(()) = self.pairs.reserve(1) else {
            return false;
        };
        if !make_room(
            self.alloc,
            &mut self.slots,
            &mut self.others,
            self.modules.as_slice(),
            self.names.as_slice(),
            self.pairs.as_slice(),
        ) {
            return false;
        }
        let Some(kept) = keep_names(
            self.alloc,
            &mut self.modules,
            &mut self.names,
            module,
            name,
            place,
        ) else {
            return false;
        };
        match settle(
            self.alloc,
            &mut self.slots,
            &mut self.others,
            self.modules.as_slice(),
            self.names.as_slice(),
            self.pairs.as_slice(),
            module,
            name,
        ) {
            Sought::New => {
                push_in_room(&mut self.pairs, kept);
                true
            }
            Sought::At(at) => push_at(&mut self.pairs, at, place),
            Sought::NoMemory => false,
        }
    }

    /// One import more: behind those of its names, or with names of its own behind all. Where memory is refused they stay.
    ///
    /// # Errors
    ///
    /// Memory is refused.
    pub fn insert(&mut self, module: &str, name: &str, place: Place) -> Result<()>
        ensures added { OnOk result (self.new ≡ with_import «module».now name.now place self.old) }
        ensures kept { OnErr result (self.new ≡ self.old) }
        ensures refused { IfErr result (λ e. e.kind ≡ OutOfMemory) }
    {
        if self.add(module, name, place) {
            return Ok(());
        }
        Err(Error::out_of_memory(0))
    }
}
