//! Labels of a table that were met. A table of labels may name one label many times over, and what a label takes may be long: who keeps
//! the labels that were asked asks each of them once. The first eight lie in the value itself, so that few tables take memory. A set has the
//! others; where there is no memory for it, they are asked again.

ghost use Rattle.std.specs.Prelude.{◌≡◌, [], true};
ghost use Rattle.wasm_operator_validator_locals.specs.labels.Among.{is_among, IsAmong, KeepsOne};

use arrayvec::ArrayVec;
use std::alloc::Global;
use std::collections::BTreeSet;
use std::marker::Model;

/// Labels. A contract sees them as a list, in no order that means anything.
#[derive(Drop)]
pub struct Met {
    few: ArrayVec<u32, 8>,
    many: BTreeSet<u32>,
}

impl Model for Met {
    ghost use Rattle.std.specs.Prelude.{◌++◌};
    ghost use Rattle.wasm_operator_validator_locals.specs.labels.Among.{Labels};

    ghost Value = { Labels };

    ghost view = { λ r. record { items = r.few.items ++ r.many.keys } };
}

// So many types are compared in less time than a label is looked for among those that were met.
const FEW: usize = 8;

/// Whether it pays to look a label up before it is asked, where it takes so many types.
#[inline(always)]
pub fn is_worth(types: usize) -> bool {
    types > FEW
}

impl Met {
    /// None yet. They take no memory.
    pub fn new(alloc: Global) -> Met
        ensures { result.items ≡ [] }
    {
        Met {
            few: ArrayVec::new(),
            many: BTreeSet::new(alloc),
        }
    }
}

/// Whether this label was met.
pub fn is_met(met: &Met, label: u32) -> bool
    ensures { result ≡ is_among label met.now.items }
{
    met.few.as_slice().contains(&label) || met.many.contains(&label)
}

/// Whether it is known that this label was met. Where labels take few types they are not looked for.
#[inline(always)]
pub fn is_known(met: &Met, label: u32, types: usize) -> bool
    ensures { result ≡ true → IsAmong label met.now.items }
{
    is_worth(types) && is_met(met, label)
}

/// Keeps a label that was asked, if it takes so many types that it will be looked for, and if there is memory for it.
#[inline(always)]
pub fn keep(met: &mut Met, label: u32, types: usize)
    ensures { KeepsOne met.old.items label met.new.items }
{
    if is_worth(types) {
        put(met, label);
    }
}

// Puts a label to the others, if there is memory for it.
fn put(met: &mut Met, label: u32)
    ensures { KeepsOne met.old.items label met.new.items }
{
    if !met.few.is_full() {
        met.few.push(label);
        return;
    }
    let _kept = met.many.insert(label).is_ok();
}
