//! Exceptions.

ghost use Rattle.std.specs.Prelude.{◌≡◌, ◌<◌, ◌≤◌, if◌then◌else◌, true, length, IfSome};
ghost use Rattle.wasm_operators_frequent.specs.Short.{Begins};
ghost use Rattle.wasm_operator_validator_fast_tables.specs.Loop.{Leads, all};
ghost use Rattle.wasm_operator_validator_fast_tables.specs.Values.{AreBelow};
ghost use Rattle.wasm_operator_validator_fast_objects.specs.Exceptions.{AreCatches, IsCatchAt, IsTagOf, caught};

use crate::references::{label_at, last_of};
use wasm_operator_validator_fast_steps::blocks::{block_at, enter};
use wasm_operator_validator_fast_steps::indices::index_at;
use wasm_operator_validator_fast_steps::unreached::unreached;
use wasm_operator_validator_fast_tables::{EXN, Opens, Order, Stack, Tables, part};
use wasm_operator_validator_state::FrameKind;
use wasm_types_decoding::short_u32_at;

/// An exception is thrown. Behind it nothing is reached.
pub fn throw(
    tables: &Tables,
    bytes: &[u8],
    at: usize,
    stack: &mut Stack,
    opens: &Opens,
) -> Option<usize>
    requires { Begins bytes.now at 0x08 }
    ensures leads { IfSome result (λ end. Leads bytes.now tables.now at (all opens.now) stack.old
        end (all opens.now) stack.new) }
    ensures forward { IfSome result (λ end. at < end) }
    ensures inside { IfSome result (λ end. end ≤ length bytes.now) }
{
    let Some((index, end)) = index_at(bytes, at + 1) else {
        return None;
    };
    let index = index as usize;
    let tags = tables.known.tags.as_slice();
    if !tables.references || index >= tags.len() {
        return None;
    }
    let sig = tags[index];
    let flat = tables.known.flat.as_slice();
    let Some(params) = part(flat, sig.params, sig.param_count) else {
        return None;
    };
    if !stack.take_all(&tables.known.order, params) {
        return None;
    }
    let Some(next) = unreached(tables, bytes, end, stack, opens) else {
        return None;
    };
    Some(next)
}

/// The exception that a reference leads to is thrown again.
pub fn throw_ref(
    tables: &Tables,
    bytes: &[u8],
    at: usize,
    stack: &mut Stack,
    opens: &Opens,
) -> Option<usize>
    requires { Begins bytes.now at 0x0a }
    ensures leads { IfSome result (λ end. Leads bytes.now tables.now at (all opens.now) stack.old
        end (all opens.now) stack.new) }
    ensures forward { IfSome result (λ end. at < end) }
    ensures inside { IfSome result (λ end. end ≤ length bytes.now) }
{
    if !tables.references || !stack.take_below(&tables.known.order, EXN) {
        return None;
    }
    let Some(next) = unreached(tables, bytes, at + 1, stack, opens) else {
        return None;
    };
    Some(next)
}

// The values that exceptions of a tag carry.
fn tag_at(tables: &Tables, index: u32) -> Option<&[u32]>
    ensures { IfSome result (λ params. IsTagOf tables.now index params.now) }
{
    let index = index as usize;
    let tags = tables.known.tags.as_slice();
    if index >= tags.len() {
        return None;
    }
    let sig = tags[index];
    let Some(params) = part(tables.known.flat.as_slice(), sig.params, sig.param_count) else {
        return None;
    };
    Some(params)
}

// Whether operands of the first types may be taken for those of the others, which are as many.
fn are_below(order: &Order, given: &[u32], wanted: &[u32]) -> bool
    ensures { result ≡ true → AreBelow order.now given.now wanted.now }
{
    if given.len() != wanted.len() {
        return false;
    }
    let mut left = given.len();
    while left > 0 {
        left -= 1;
        if !order.may_be_taken(given[left], wanted[left]) {
            return false;
        }
    }
    true
}

// Whether a label takes what a clause gives it.
fn fits_label(order: &Order, reference: bool, given: &[u32], types: &[u32]) -> bool
    ensures { result ≡ true → AreBelow order.now (caught reference given.now) types.now }
{
    if !reference {
        return are_below(order, given, types);
    }
    let Some((under, last)) = last_of(types) else {
        return false;
    };
    if !order.may_be_taken(EXN + 1, last) {
        return false;
    }
    are_below(order, given, under)
}

// A clause for the exceptions of a tag.
fn one_at(reference: bool, tables: &Tables, bytes: &[u8], at: usize, opens: &Opens) -> Option<usize>
    requires { Begins bytes.now at (if reference then 0x01 else 0x00) }
    ensures { IfSome result (λ end. IsCatchAt bytes.now tables.now (all opens.now) at end) }
{
    let Some((tag, middle)) = index_at(bytes, at + 1) else {
        return None;
    };
    let Some((depth, end)) = index_at(bytes, middle) else {
        return None;
    };
    let Some(params) = tag_at(tables, tag) else {
        return None;
    };
    let Some(types) = label_at(tables, opens, depth) else {
        return None;
    };
    if !fits_label(&tables.known.order, reference, params, types) {
        return None;
    }
    Some(end)
}

// A clause for all exceptions.
fn all_at(reference: bool, tables: &Tables, bytes: &[u8], at: usize, opens: &Opens) -> Option<usize>
    requires { Begins bytes.now at (if reference then 0x03 else 0x02) }
    ensures { IfSome result (λ end. IsCatchAt bytes.now tables.now (all opens.now) at end) }
{
    let Some((depth, end)) = index_at(bytes, at + 1) else {
        return None;
    };
    let Some(types) = label_at(tables, opens, depth) else {
        return None;
    };
    if !fits_label(&tables.known.order, reference, &[], types) {
        return None;
    }
    Some(end)
}

// A clause.
fn catch_at(tables: &Tables, bytes: &[u8], at: usize, opens: &Opens) -> Option<usize>
    ensures { IfSome result (λ end. IsCatchAt bytes.now tables.now (all opens.now) at end) }
{
    if at >= bytes.len() {
        return None;
    }
    let code = bytes[at];
    match code {
        0x00 => one_at(false, tables, bytes, at, opens),
        0x01 => one_at(true, tables, bytes, at, opens),
        0x02 => all_at(false, tables, bytes, at, opens),
        0x03 => all_at(true, tables, bytes, at, opens),
        _ => None,
    }
}

// So many clauses.
fn catches_at(tables: &Tables, bytes: &[u8], at: usize, count: u32, opens: &Opens) -> Option<usize>
    requires { at ≤ length bytes.now }
    ensures { IfSome result (λ end. AreCatches bytes.now tables.now (all opens.now) at count end) }
{
    let mut end = at;
    for _ in 0..count {
        let Some(next) = catch_at(tables, bytes, end, opens) else {
            return None;
        };
        end = next;
    }
    Some(end)
}

// More clauses are left to the validator of operators: these are within the limits by which there are references.
const MOST_CLAUSES: u32 = 100;

/// A block begins, which catches exceptions.
pub fn try_table(
    tables: &Tables,
    bytes: &[u8],
    at: usize,
    stack: &mut Stack,
    opens: &mut Opens,
) -> Option<usize>
    requires { Begins bytes.now at 0x1f }
    ensures leads { IfSome result (λ end. Leads bytes.now tables.now at (all opens.old) stack.old
        end (all opens.new) stack.new) }
    ensures forward { IfSome result (λ end. at < end) }
    ensures inside { IfSome result (λ end. end ≤ length bytes.now) }
{
    if !tables.references {
        return None;
    }
    let Some((sig, middle)) = block_at(tables, bytes, at + 1) else {
        return None;
    };
    let Some((count, first)) = short_u32_at(bytes, middle) else {
        return None;
    };
    if count > MOST_CLAUSES {
        return None;
    }
    let Some(end) = catches_at(tables, bytes, first, count, opens) else {
        return None;
    };
    if !enter(tables, FrameKind::TryTable, sig, stack, opens) {
        return None;
    }
    Some(end)
}
