//! The labels of a branch by a table.

ghost use Rattle.std.specs.Prelude.{◌≡◌, ◌≤◌, ℕ, List, [], true, length, IfSome};
ghost use Rattle.wasm_operator_validator_locals.specs.labels.Among.{IsAmong, KeepsOne};
ghost use Rattle.wasm_operator_validator_fast_steps.specs.Labels.{AreLabels, Takes};
ghost use Rattle.wasm_operator_validator_fast_tables.specs.Loop.{all};

use std::alloc::Global;
use wasm_operator_validator_fast_tables::{Opens, frame_at, is_bare, label};
use wasm_operator_validator_locals::labels::{Met, is_known, keep};
use wasm_types_decoding::short_u32_at;

/// The types that all of so many labels and one more take, and the offset behind these. A label that was met is not asked again.
#[inline(never)]
pub(crate) fn labels_at<'a>(
    alloc: Global,
    flat: &'a [u32],
    bytes: &[u8],
    at: usize,
    count: u32,
    opens: &Opens,
) -> Option<(&'a [u32], usize)>
    requires { at ≤ length bytes.now }
    ensures { IfSome result (λ r. AreLabels flat.now bytes.now (all opens.now) at count r.0.now r.1) }
{
    let Some((depth, next)) = short_u32_at(bytes, at) else {
        return None;
    };
    let Some(types) = taken(flat, opens, depth) else {
        return None;
    };
    let mut end = next;
    let mut met = Met::new(alloc);
    for _ in 0..count {
        let Some((depth, next)) = short_u32_at(bytes, end) else {
            return None;
        };
        if !is_taken_once(flat, opens, depth, types, &mut met) {
            return None;
        }
        end = next;
    }
    Some((types, end))
}

// The types that a branch to the frame behind so many takes.
#[inline(always)]
fn taken<'a>(flat: &'a [u32], opens: &Opens, depth: u32) -> Option<&'a [u32]>
    ensures { IfSome result (λ s. Takes flat.now (all opens.now) s.now depth) }
{
    let Some(frame) = frame_at(opens, depth) else {
        return None;
    };
    label(flat, frame.kind, frame.sig)
}

// Whether the frame behind so many takes and gives nothing.
#[inline(always)]
fn is_bare_at(opens: &Opens, depth: u32) -> bool
    ensures { result ≡ true → (flat : List ℕ) → Takes flat (all opens.now) [] depth }
{
    match frame_at(opens, depth) {
        Some(frame) => is_bare(frame.sig),
        None => false,
    }
}

// Whether a branch to the frame behind so many takes these, as those that were met do.
#[inline(always)]
fn is_taken_once(flat: &[u32], opens: &Opens, depth: u32, types: &[u32], met: &mut Met) -> bool
    ensures taken { result ≡ true → ((k : ℕ) → IsAmong k met.old.items → Takes flat.now (all opens.now) types.now k)
        → Takes flat.now (all opens.now) types.now depth }
    ensures kept { KeepsOne met.old.items depth met.new.items }
{
    if types.len() == 0 && is_bare_at(opens, depth) {
        return true;
    }
    if is_known(met, depth, types.len()) {
        return true;
    }
    if !is_taken(flat, opens, depth, types) {
        return false;
    }
    keep(met, depth, types.len());
    true
}

// Whether a branch to the frame behind so many takes these.
#[inline(always)]
fn is_taken(flat: &[u32], opens: &Opens, depth: u32, types: &[u32]) -> bool
    ensures { result ≡ true → Takes flat.now (all opens.now) types.now depth }
{
    match taken(flat, opens, depth) {
        Some(other) => same(types, other),
        None => false,
    }
}

// Whether these are the same codes.
#[inline(always)]
pub(crate) fn same(one: &[u32], other: &[u32]) -> bool
    ensures { result ≡ true → other.now ≡ one.now }
{
    if one.len() != other.len() {
        return false;
    }
    for i in 0..one.len() {
        if one[i] != other[i] {
            return false;
        }
    }
    true
}
