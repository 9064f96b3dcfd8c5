//! Branches to labels, and the return.

ghost use Rattle.std.specs.Prelude.{◌≡◌, ◌<◌, ◌≤◌, ◌+◌, length, IfSome};
ghost use Rattle.wasm_operators_frequent.specs.Short.{Begins};
ghost use Rattle.wasm_operator_validator_fast_tables.specs.Loop.{Leads, all};

use crate::indices::near_index_at;
use crate::labels::labels_at;
use crate::unreached::unreached;
use wasm_operator_validator_fast_tables::{Opens, Stack, Tables, frame_at, is_bare, label, part};

/// A branch. Behind it nothing is reached.
#[inline(always)]
pub fn br(
    tables: &Tables,
    bytes: &[u8],
    at: usize,
    stack: &mut Stack,
    opens: &Opens,
) -> Option<usize>
    requires begins { Begins bytes.now at 0x0c }
    requires more { at + 1 < length bytes.now }
    ensures leads { IfSome result (λ end. Leads bytes.now tables.now at (all opens.now) stack.old
        end (all opens.now) stack.new) }
    ensures forward { IfSome result (λ end. at < end) }
    ensures inside { IfSome result (λ end. end ≤ length bytes.now) }
{
    let Some((depth, end)) = near_index_at(bytes, at + 1) else {
        return None;
    };
    let Some(frame) = frame_at(opens, depth) else {
        return None;
    };
    if is_bare(frame.sig) && opens.inner().sig.result_count == 0 {
        stack.cut();
        return Some(end);
    }
    let Some(types) = label(tables.known.flat.as_slice(), frame.kind, frame.sig) else {
        return None;
    };
    if !stack.take_all(&tables.known.order, types) {
        return None;
    }
    let Some(next) = unreached(tables, bytes, end, stack, opens) else {
        return None;
    };
    Some(next)
}

/// A branch on a condition.
#[inline(always)]
pub fn br_if(
    tables: &Tables,
    bytes: &[u8],
    at: usize,
    stack: &mut Stack,
    opens: &Opens,
) -> Option<usize>
    requires begins { Begins bytes.now at 0x0d }
    requires more { at + 1 < length bytes.now }
    ensures leads { IfSome result (λ end. Leads bytes.now tables.now at (all opens.now) stack.old
        end (all opens.now) stack.new) }
    ensures forward { IfSome result (λ end. at < end) }
    ensures inside { IfSome result (λ end. end ≤ length bytes.now) }
{
    let Some((depth, end)) = near_index_at(bytes, at + 1) else {
        return None;
    };
    let Some(frame) = frame_at(opens, depth) else {
        return None;
    };
    if is_bare(frame.sig) {
        if !stack.take(0) {
            return None;
        }
        return Some(end);
    }
    let Some(types) = label(tables.known.flat.as_slice(), frame.kind, frame.sig) else {
        return None;
    };
    if !stack.take(0) {
        return None;
    }
    if !stack.take_all(&tables.known.order, types) || !stack.put_all(types) {
        return None;
    }
    Some(end)
}

/// A branch to one of several labels, which all take the same types.
#[inline(always)]
pub fn br_table(
    tables: &Tables,
    bytes: &[u8],
    at: usize,
    stack: &mut Stack,
    opens: &Opens,
) -> Option<usize>
    requires begins { Begins bytes.now at 0x0e }
    requires more { at + 1 < length bytes.now }
    ensures leads { IfSome result (λ end. Leads bytes.now tables.now at (all opens.now) stack.old
        end (all opens.now) stack.new) }
    ensures forward { IfSome result (λ end. at < end) }
    ensures inside { IfSome result (λ end. end ≤ length bytes.now) }
{
    let Some((count, first)) = near_index_at(bytes, at + 1) else {
        return None;
    };
    if count as usize > bytes.len() {
        return None;
    }
    let Some((types, end)) = labels_at(
        *tables.known.flat.allocator(),
        tables.known.flat.as_slice(),
        bytes,
        first,
        count,
        opens,
    ) else {
        return None;
    };
    if !stack.take(0) || !stack.take_all(&tables.known.order, types) {
        return None;
    }
    let Some(next) = unreached(tables, bytes, end, stack, opens) else {
        return None;
    };
    Some(next)
}

/// The function returns.
#[inline(always)]
pub fn return_all(
    tables: &Tables,
    bytes: &[u8],
    at: usize,
    stack: &mut Stack,
    opens: &Opens,
) -> Option<usize>
    requires { Begins bytes.now at 0x0f }
    ensures leads { IfSome result (λ end. Leads bytes.now tables.now at (all opens.now) stack.old
        end (all opens.now) stack.new) }
    ensures forward { IfSome result (λ end. at < end) }
    ensures inside { IfSome result (λ end. end ≤ length bytes.now) }
{
    let Some(types) = part(
        tables.known.flat.as_slice(),
        tables.results.results,
        tables.results.result_count,
    ) else {
        return None;
    };
    if !stack.take_all(&tables.known.order, types) {
        return None;
    }
    let Some(next) = unreached(tables, bytes, at + 1, stack, opens) else {
        return None;
    };
    Some(next)
}
