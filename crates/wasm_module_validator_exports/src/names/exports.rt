//! Exports, by their names.

ghost use Rattle.std.specs.Prelude.{◌≡◌, ◌++◌, ◌∷◌, ◌<◌, ◌≤◌, [], length, vec_len, vec_capacity, IfErr, OnOk, OnErr};
ghost use Rattle.wasm_types.specs.decoding.Denials.{Tells, UnlessMemory};
ghost use Rattle.wasm_types.specs.decoding.declared.error.ErrorKind.TheVariants.{Other};
ghost use Rattle.wasm_module_validator_exports.specs.names.Exports.{HasTried, IsNew, names_of};

use crate::names::kept::{KeptName, name_of, push_name_in_room};
use crate::names::slots::{Tried, after, rebuilt, settle};
use std::alloc::Global;
use std::collections::BTreeSet;
use std::marker::Model;
use std::mem::replace;
use wasm_sections_items::imports::ExternalKind;
use wasm_types::{Error, Result, Text, Words};

/// What a module exports by a name: what stands at this index of the space of this kind.
#[derive(Clone, Copy)]
pub struct NamedExport<'a> {
    /// The name.
    pub name: &'a str,
    /// The kind of what is exported.
    pub kind: ExternalKind,
    /// Its index.
    pub index: u32,
}

// An export as the module writes it.
#[derive(Clone, Copy)]
pub(crate) struct KeptExport {
    pub(crate) name: KeptName,
    pub(crate) kind: ExternalKind,
    pub(crate) index: u32,
}

/// The exports of a module in their order, no two by one name. A contract sees them as the module writes them.
///
/// Their names stand one after the other, so that none takes memory by itself.
///
/// A name is found by a number that is computed from its bytes. Strangers choose the names, and may choose many whose numbers meet: all but
/// the first two of these are found by their order.
#[derive(Drop)]
pub struct Exports {
    alloc: Global,
    names: Vec<u8>,
    exports: Vec<KeptExport>,
    // The index of an export, in one of the two slots of the number of its name; a slot without one has an index where no export stands.
    slots: Vec<u32>,
    // The names whose slots others have.
    others: BTreeSet<String>,
    // Room for a name that is there twice: an error that names it takes no memory.
    twice: String,
}

impl Model for Exports {
    ghost use Rattle.std.specs.Prelude.{List};
    ghost use Rattle.wasm_sections_items.specs.imports.Spells.{ExportTree};
    ghost use Rattle.wasm_module_validator_exports.specs.names.Exports.{AreNamed, Holds, exports_of, names_of};

    ghost Value = { List ExportTree };

    ghost view = { λ e. exports_of e.names.items e.exports.items };

    ghost invariant = { λ e. AreNamed e.names.items e.exports.items
        × Holds e.slots.items e.others (names_of (exports_of e.names.items e.exports.items)) };
}

/// The exports of a module that are left, in their order. A contract sees them as a list.
#[derive(Drop)]
pub struct NamedExports<'a> {
    names: &'a [u8],
    exports: &'a [KeptExport],
}

impl<'a> Model for NamedExports<'a> {
    ghost use Rattle.std.specs.Prelude.{List};
    ghost use Rattle.wasm_sections_items.specs.imports.Spells.{ExportTree};
    ghost use Rattle.wasm_module_validator_exports.specs.names.Exports.{AreNamed, exports_of};

    ghost Value = { List ExportTree };

    ghost view = { λ e. exports_of e.names.now e.exports.now };

    ghost invariant = { λ e. AreNamed e.names.now e.exports.now };
}

impl<'a> Iterator for NamedExports<'a> {
    type Item = NamedExport<'a>;

    ghost use Rattle.std.specs.Iterator.{YieldsFirstBy, item_count};
    ghost use Rattle.wasm_module_validator_exports.specs.names.Exports.{export_of};

    ghost next_gives = { YieldsFirstBy export_of (λ rest. rest) };

    ghost remaining = { item_count (λ rest. rest) };

    fn next(&mut self) -> Option<NamedExport<'a>> {
        let Some((export, rest)) = self.exports.split_first() else {
            return None;
        };
        self.exports = rest;
        Some(NamedExport {
            name: name_of(self.names, export.name),
            kind: export.kind,
            index: export.index,
        })
    }
}

// How much room a name has in the message of one that is there twice.
const TWICE: usize = 256;

// The front of a name, of so many bytes at most: up to the end of a character.
fn front(name: &str, most: usize) -> &str
    ensures { length result.now ≤ most }
{
    if name.len() <= most {
        return name;
    }
    &name[..name.floor_char_boundary(most)]
}

// The refusal of a name that is taken: it is written into this room, as far as it goes there.
fn duplicate(mut room: String, name: &str, offset: u64) -> Error
    ensures kind { result.kind ≡ Other }
    ensures at { result.offset ≡ offset }
{
    let most = room.capacity();
    if room.len() > 0 || room.push_str(front(name, most)).is_err() {
        return Error::new(Words::DuplicateExportName, offset);
    }
    Error::with(Text::DuplicateExport(room), offset)
}

// An export behind the others, in room that is there.
fn push_in_room(exports: &mut Vec<KeptExport>, export: KeptExport)
    requires { vec_len exports.old < vec_capacity exports.old }
    ensures { exports.new.items ≡ exports.old.items ++ export ∷ [] }
{
    let _ = exports.push(export);
}

impl Exports {
    /// No exports, which takes no memory.
    pub fn new(alloc: Global) -> Exports
        ensures { result ≡ [] }
    {
        Exports {
            alloc,
            names: Vec::new(alloc),
            exports: Vec::new(alloc),
            slots: Vec::new(alloc),
            others: BTreeSet::new(alloc),
            twice: String::new(alloc),
        }
    }

    /// How many there are.
    pub fn len(&self) -> usize
        ensures { result ≡ length self.now }
    {
        self.exports.as_slice().len()
    }

    /// The exports, in their order.
    pub fn iter(&self) -> NamedExports<'_>
        ensures { result ≡ self.now }
    {
        NamedExports {
            names: self.names.as_slice(),
            exports: self.exports.as_slice(),
        }
    }

    // Takes the room for a name that is there twice, which is all that a message has room for.
    fn take_room(&mut self) -> bool
        ensures { self.new ≡ self.old }
    {
        if self.twice.capacity() < TWICE {
            return self.twice.reserve(TWICE).is_ok();
        }
        true
    }

    // The refusal of a name that is taken. It takes no memory: its room goes with it.
    #[cold]
    #[inline(never)]
    fn refuse(&mut self, name: &str, offset: u64) -> Error
        ensures kind { result.kind ≡ Other }
        ensures at { result.offset ≡ offset }
        ensures kept { self.new ≡ self.old }
    {
        let room = replace(&mut self.twice, String::new(self.alloc));
        duplicate(room, name, offset)
    }

    /// An export more, if its name is new and there is memory, also for the message of a name that is there twice. Else they stay.
    pub fn add(&mut self, name: &str, kind: ExternalKind, index: u32) -> Tried
        ensures { HasTried (record { name = name.now; kind = kind; index = index }) self.old self.new result }
    {
        if !self.take_room() {
            return Tried::NoMemory;
        }
        self.add_named(name, kind, index)
    }

    // The same, if there is room for a name that is there twice.
    fn add_named(&mut self, name: &str, kind: ExternalKind, index: u32) -> Tried
        ensures { HasTried (record { name = name.now; kind = kind; index = index }) self.old self.new result }
    {
        let Ok(()) = self.names.reserve(name.len()) else {
            return Tried::NoMemory;
        };
        let Ok(()) = self.exports.reserve(1) else {
            return Tried::NoMemory;
        };
        let names = self.names.as_slice();
        let exports = self.exports.as_slice();
        let count = self.slots.as_slice().len();
        if count / 4 <= exports.len() {
            let Some((slots, others)) = rebuilt(self.alloc, after(count), names, exports) else {
                return Tried::NoMemory;
            };
            self.slots = slots;
            self.others = others;
        }
        match settle(
            self.alloc,
            &mut self.slots,
            &mut self.others,
            names,
            exports,
            name,
        ) {
            Tried::Added => (),
            Tried::Taken => return Tried::Taken,
            Tried::NoMemory => return Tried::NoMemory,
        }
        let name = push_name_in_room(&mut self.names, name);
        push_in_room(&mut self.exports, KeptExport { name, kind, index });
        Tried::Added
    }

    /// One export more, behind those that are there. Where it is refused they stay.
    ///
    /// # Errors
    ///
    /// The name is taken: an error of kind `Other`, at `offset`; or memory is refused.
    pub fn insert(&mut self, name: &str, kind: ExternalKind, index: u32, offset: u64) -> Result<()>
        ensures answer { Tells result (IsNew name.now (names_of self.old)) }
        ensures added { OnOk result (self.new ≡ self.old ++ record
            { name = name.now; kind = kind; index = index } ∷ []) }
        ensures kept { OnErr result (self.new ≡ self.old) }
        ensures refused { IfErr result (λ e. UnlessMemory e.kind ((e.kind ≡ Other) × (e.offset ≡ offset))) }
    {
        match self.add(name, kind, index) {
            Tried::Added => Ok(()),
            Tried::Taken => Err(self.refuse(name, offset)),
            Tried::NoMemory => Err(Error::out_of_memory(0)),
        }
    }
}
