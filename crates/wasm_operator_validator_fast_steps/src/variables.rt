//! Locals and globals.

ghost use Rattle.std.specs.Prelude.{◌≡◌, ◌<◌, ◌≤◌, ◌+◌, length, take, IfSome};
ghost use Rattle.wasm_operators_frequent.specs.Short.{Begins};
ghost use Rattle.wasm_operator_validator_fast_tables.specs.Loop.{Leads, all};
ghost use Rattle.wasm_operator_validator_fast_steps.specs.Late.{IsLocalAt};

use crate::indices::{index_at, near_index_at};
use wasm_operator_validator_fast_tables::{NO_CODE, Opens, Stack, Tables};

/// The index at an offset, of a local that has a value wherever it is read: the code of its type, and the offset behind it. Other locals are
/// taken by the steps of [`late`](crate::late).
#[inline(always)]
pub fn local_at(tables: &Tables, locals: &[u32], bytes: &[u8], at: usize) -> Option<(u32, usize)>
    requires more { at < length bytes.now }
    requires locals { locals.now ≡ take tables.now.certain tables.now.locals.items }
    ensures { IfSome result (λ r. IsLocalAt bytes.now tables.now at r.0 r.1) }
{
    let Some((index, end)) = near_index_at(bytes, at) else {
        return None;
    };
    let index = index as usize;
    if index >= locals.len() {
        return None;
    }
    Some((locals[index], end))
}

/// The value of such a local.
#[inline(always)]
pub fn local_get(
    tables: &Tables,
    local: (u32, usize),
    bytes: &[u8],
    at: usize,
    stack: &mut Stack,
    opens: &Opens,
) -> Option<usize>
    requires begins { Begins bytes.now at 0x20 }
    requires local { IsLocalAt bytes.now tables.now (at + 1) local.0 local.1 }
    ensures leads { IfSome result (λ end. Leads bytes.now tables.now at (all opens.now) stack.old
        end (all opens.now) stack.new) }
    ensures forward { IfSome result (λ end. at < end) }
    ensures inside { IfSome result (λ end. end ≤ length bytes.now) }
{
    if !stack.put(local.0) {
        return None;
    }
    Some(local.1)
}

/// Such a local takes a value.
#[inline(always)]
pub fn local_set(
    tables: &Tables,
    local: (u32, usize),
    bytes: &[u8],
    at: usize,
    stack: &mut Stack,
    opens: &Opens,
) -> Option<usize>
    requires begins { Begins bytes.now at 0x21 }
    requires local { IsLocalAt bytes.now tables.now (at + 1) local.0 local.1 }
    ensures leads { IfSome result (λ end. Leads bytes.now tables.now at (all opens.now) stack.old
        end (all opens.now) stack.new) }
    ensures forward { IfSome result (λ end. at < end) }
    ensures inside { IfSome result (λ end. end ≤ length bytes.now) }
{
    if !stack.take_below(&tables.known.order, local.0) {
        return None;
    }
    Some(local.1)
}

/// Such a local takes a value, which stays.
#[inline(always)]
pub fn local_tee(
    tables: &Tables,
    local: (u32, usize),
    bytes: &[u8],
    at: usize,
    stack: &mut Stack,
    opens: &Opens,
) -> Option<usize>
    requires begins { Begins bytes.now at 0x22 }
    requires local { IsLocalAt bytes.now tables.now (at + 1) local.0 local.1 }
    ensures leads { IfSome result (λ end. Leads bytes.now tables.now at (all opens.now) stack.old
        end (all opens.now) stack.new) }
    ensures forward { IfSome result (λ end. at < end) }
    ensures inside { IfSome result (λ end. end ≤ length bytes.now) }
{
    if !stack.change_below(&tables.known.order, local.0) {
        return None;
    }
    Some(local.1)
}

/// The value of a global.
#[inline(always)]
pub fn global_get(
    tables: &Tables,
    bytes: &[u8],
    at: usize,
    stack: &mut Stack,
    opens: &Opens,
) -> Option<usize>
    requires { Begins bytes.now at 0x23 }
    ensures leads { IfSome result (λ end. Leads bytes.now tables.now at (all opens.now) stack.old
        end (all opens.now) stack.new) }
    ensures forward { IfSome result (λ end. at < end) }
    ensures inside { IfSome result (λ end. end ≤ length bytes.now) }
{
    let Some((index, end)) = index_at(bytes, at + 1) else {
        return None;
    };
    let index = index as usize;
    let globals = tables.known.globals.as_slice();
    if index >= globals.len() {
        return None;
    }
    let held = globals[index];
    if held.ty >= NO_CODE || !stack.put(held.ty) {
        return None;
    }
    Some(end)
}

/// A global takes a value.
#[inline(always)]
pub fn global_set(
    tables: &Tables,
    bytes: &[u8],
    at: usize,
    stack: &mut Stack,
    opens: &Opens,
) -> Option<usize>
    requires { Begins bytes.now at 0x24 }
    ensures leads { IfSome result (λ end. Leads bytes.now tables.now at (all opens.now) stack.old
        end (all opens.now) stack.new) }
    ensures forward { IfSome result (λ end. at < end) }
    ensures inside { IfSome result (λ end. end ≤ length bytes.now) }
{
    let Some((index, end)) = index_at(bytes, at + 1) else {
        return None;
    };
    let index = index as usize;
    let globals = tables.known.globals.as_slice();
    if index >= globals.len() {
        return None;
    }
    let held = globals[index];
    if held.ty >= NO_CODE || !held.mutable || !stack.take_below(&tables.known.order, held.ty) {
        return None;
    }
    Some(end)
}
