//! Calls, also through tables and references, and in the place of a return.

ghost use Rattle.std.specs.Prelude.{◌≡◌, ◌<◌, ◌≤◌, true, length, IfSome};
ghost use Rattle.wasm_types.specs.decoding.Numbers.{GivesAt};
ghost use Rattle.wasm_operators_immediates.specs.Kinds.{Tables as TableSpace};
ghost use Rattle.wasm_operators_encoding.specs.immediates.Bytes.{index_or_zero};
ghost use Rattle.wasm_operators_encoding.specs.immediates.Immediates.{may_index};
ghost use Rattle.wasm_operators_frequent.specs.Short.{Begins};
ghost use Rattle.wasm_operator_validator_fast_tables.specs.Stacks.{Values, with_all};
ghost use Rattle.wasm_operator_validator_fast_tables.specs.Values.{IsLowered};
ghost use Rattle.wasm_operator_validator_fast_tables.specs.Tables.{CallsThrough, ReturnsBy, no_code, params_in, results_in};
ghost use Rattle.wasm_operator_validator_fast_tables.specs.Loop.{Leads, all};

use crate::indices::index_at;
use crate::labels::same;
use crate::unreached::unreached;
use wasm_operator_validator_fast_tables::{FUNC, NO_CODE, Opens, Sig, Stack, Tables, part};
use wasm_operators_frequent::zero_at;
use wasm_types::WasmFeatures;

/// A call of a function.
#[inline(always)]
pub fn call(
    tables: &Tables,
    bytes: &[u8],
    at: usize,
    stack: &mut Stack,
    opens: &Opens,
) -> Option<usize>
    requires { Begins bytes.now at 0x10 }
    ensures leads { IfSome result (λ end. Leads bytes.now tables.now at (all opens.now) stack.old
        end (all opens.now) stack.new) }
    ensures forward { IfSome result (λ end. at < end) }
    ensures inside { IfSome result (λ end. end ≤ length bytes.now) }
{
    let Some((index, end)) = index_at(bytes, at + 1) else {
        return None;
    };
    let index = index as usize;
    let callees = tables.known.callees.as_slice();
    if index >= callees.len() || !pass(tables, callees[index], stack) {
        return None;
    }
    Some(end)
}

// The operands that a signature takes are taken off, and those that it gives are put on.
#[inline(always)]
fn pass(tables: &Tables, sig: Sig, stack: &mut Stack) -> bool
    ensures usable { result ≡ true → sig.param_count ≤ length tables.now.known.flat.items }
    ensures passed { result ≡ true → (m : Values)
        × IsLowered tables.now.known.order stack.old (with_all (params_in tables.now.known.flat.items sig) m)
        × (stack.new ≡ with_all (results_in tables.now.known.flat.items sig) m) }
{
    if !take_params(tables, sig, stack) {
        return false;
    }
    put_results(tables, sig, stack)
}

// The operands that a signature takes are taken off. Many take none, and nothing is looked up then.
#[inline(always)]
fn take_params(tables: &Tables, sig: Sig, stack: &mut Stack) -> bool
    ensures usable { result ≡ true → sig.param_count ≤ length tables.now.known.flat.items }
    ensures taken { result ≡ true → IsLowered tables.now.known.order stack.old
        (with_all (params_in tables.now.known.flat.items sig) stack.new) }
{
    if sig.param_count == 0 {
        return true;
    }
    let Some(params) = part(tables.known.flat.as_slice(), sig.params, sig.param_count) else {
        return false;
    };
    stack.take_all(&tables.known.order, params)
}

// Those that it gives are put on.
#[inline(always)]
fn put_results(tables: &Tables, sig: Sig, stack: &mut Stack) -> bool
    ensures { result ≡ true → stack.new ≡ with_all (results_in tables.now.known.flat.items sig) stack.old }
{
    if sig.result_count == 0 {
        return true;
    }
    if sig.result_count == 1 {
        let flat = tables.known.flat.as_slice();
        let place = sig.results as usize;
        if place >= flat.len() {
            return false;
        }
        return stack.put(flat[place]);
    }
    let Some(results) = part(tables.known.flat.as_slice(), sig.results, sig.result_count) else {
        return false;
    };
    stack.put_all(results)
}

// The index of a table, and the offset behind it. Linkers write 0 in five bytes, which the features may allow, and other indices.
#[inline(always)]
fn table_index_at(bytes: &[u8], at: usize, features: WasmFeatures) -> Option<(u32, usize)>
    requires { at ≤ length bytes.now }
    ensures { IfSome result (λ r. GivesAt (index_or_zero (may_index features.0 TableSpace)) bytes.now at r.0 r.1) }
{
    if let Some((table, end)) = zero_at(bytes, at) {
        return Some((table, end));
    }
    if !features.call_indirect_overlong() {
        return None;
    }
    let Some((table, end)) = index_at(bytes, at) else {
        return None;
    };
    Some((table, end))
}

// The code of the indices of the table at an index, if functions may be called through it. Out of line, since code mostly calls through table 0.
#[inline(never)]
fn calls_through_another(tables: &Tables, table: u32) -> u32
    ensures { result < no_code → CallsThrough tables.now table result }
{
    let index = table as usize;
    let held = tables.known.tables.as_slice();
    if index >= held.len() {
        return NO_CODE;
    }
    let it = held[index];
    if it.ty >= NO_CODE || !tables.known.order.may_be_taken(it.ty, FUNC) {
        return NO_CODE;
    }
    it.index
}

// The same of any table.
#[inline(always)]
fn calls_through(tables: &Tables, table: u32) -> u32
    ensures { result < no_code → CallsThrough tables.now table result }
{
    if table == 0 {
        return tables.known.table;
    }
    calls_through_another(tables, table)
}

/// A call through a table.
#[inline(always)]
pub fn call_indirect(
    tables: &Tables,
    bytes: &[u8],
    at: usize,
    stack: &mut Stack,
    opens: &Opens,
) -> Option<usize>
    requires { Begins bytes.now at 0x11 }
    ensures leads { IfSome result (λ end. Leads bytes.now tables.now at (all opens.now) stack.old
        end (all opens.now) stack.new) }
    ensures forward { IfSome result (λ end. at < end) }
    ensures inside { IfSome result (λ end. end ≤ length bytes.now) }
{
    let Some((index, middle)) = index_at(bytes, at + 1) else {
        return None;
    };
    let Some((table, end)) = table_index_at(bytes, middle, tables.features) else {
        return None;
    };
    let index = index as usize;
    let types = tables.known.types.as_slice();
    let code = calls_through(tables, table);
    if code >= NO_CODE || index >= types.len() {
        return None;
    }
    if !stack.take(code) || !pass(tables, types[index], stack) {
        return None;
    }
    Some(end)
}

/// What a function of the type at an index takes, if it gives what the function that is judged gives. Out of line, so that the loop has
/// no more to look up than for a call.
#[inline(never)]
pub fn returned(tables: &Tables, ty: u32) -> Option<&[u32]>
    ensures { IfSome result (λ params. ReturnsBy tables.now ty params.now) }
{
    let index = ty as usize;
    let types = tables.known.types.as_slice();
    if index >= types.len() {
        return None;
    }
    let sig = types[index];
    let flat = tables.known.flat.as_slice();
    let Some(params) = part(flat, sig.params, sig.param_count) else {
        return None;
    };
    let Some(results) = part(flat, sig.results, sig.result_count) else {
        return None;
    };
    let Some(wanted) = part(flat, tables.results.results, tables.results.result_count) else {
        return None;
    };
    if !same(results, wanted) {
        return None;
    }
    Some(params)
}

/// A call of a function, in the place of a return.
#[inline(always)]
pub fn return_call(
    tables: &Tables,
    bytes: &[u8],
    at: usize,
    stack: &mut Stack,
    opens: &Opens,
) -> Option<usize>
    requires { Begins bytes.now at 0x12 }
    ensures leads { IfSome result (λ end. Leads bytes.now tables.now at (all opens.now) stack.old
        end (all opens.now) stack.new) }
    ensures forward { IfSome result (λ end. at < end) }
    ensures inside { IfSome result (λ end. end ≤ length bytes.now) }
{
    if !tables.features.tail_call() {
        return None;
    }
    let Some((index, end)) = index_at(bytes, at + 1) else {
        return None;
    };
    let index = index as usize;
    let functions = tables.known.functions.as_slice();
    if index >= functions.len() {
        return None;
    }
    let Some(params) = returned(tables, functions[index]) else {
        return None;
    };
    if !stack.take_all(&tables.known.order, params) {
        return None;
    }
    let Some(next) = unreached(tables, bytes, end, stack, opens) else {
        return None;
    };
    Some(next)
}

/// A call through a table, in the place of a return.
#[inline(always)]
pub fn return_call_indirect(
    tables: &Tables,
    bytes: &[u8],
    at: usize,
    stack: &mut Stack,
    opens: &Opens,
) -> Option<usize>
    requires { Begins bytes.now at 0x13 }
    ensures leads { IfSome result (λ end. Leads bytes.now tables.now at (all opens.now) stack.old
        end (all opens.now) stack.new) }
    ensures forward { IfSome result (λ end. at < end) }
    ensures inside { IfSome result (λ end. end ≤ length bytes.now) }
{
    if !tables.features.tail_call() {
        return None;
    }
    let Some((ty, middle)) = index_at(bytes, at + 1) else {
        return None;
    };
    let Some((table, end)) = index_at(bytes, middle) else {
        return None;
    };
    let code = calls_through(tables, table);
    if code >= NO_CODE {
        return None;
    }
    let Some(params) = returned(tables, ty) else {
        return None;
    };
    if !stack.take(code) || !stack.take_all(&tables.known.order, params) {
        return None;
    }
    let Some(next) = unreached(tables, bytes, end, stack, opens) else {
        return None;
    };
    Some(next)
}

/// A call of the function that a reference leads to.
pub fn call_ref(
    tables: &Tables,
    bytes: &[u8],
    at: usize,
    stack: &mut Stack,
    opens: &Opens,
) -> Option<usize>
    requires { Begins bytes.now at 0x14 }
    ensures leads { IfSome result (λ end. Leads bytes.now tables.now at (all opens.now) stack.old
        end (all opens.now) stack.new) }
    ensures forward { IfSome result (λ end. at < end) }
    ensures inside { IfSome result (λ end. end ≤ length bytes.now) }
{
    let Some((index, end)) = index_at(bytes, at + 1) else {
        return None;
    };
    let index = index as usize;
    let named = tables.known.named.as_slice();
    let types = tables.known.types.as_slice();
    if !tables.references || index >= named.len() || index >= types.len() {
        return None;
    }
    let code = named[index].code;
    let sig = types[index];
    let flat = tables.known.flat.as_slice();
    let Some(params) = part(flat, sig.params, sig.param_count) else {
        return None;
    };
    let Some(results) = part(flat, sig.results, sig.result_count) else {
        return None;
    };
    let order = &tables.known.order;
    if code >= NO_CODE
        || !stack.take_below(order, code)
        || !stack.take_all(order, params)
        || !stack.put_all(results)
    {
        return None;
    }
    Some(end)
}

/// A call of the function that a reference leads to, in the place of a return.
pub fn return_call_ref(
    tables: &Tables,
    bytes: &[u8],
    at: usize,
    stack: &mut Stack,
    opens: &Opens,
) -> Option<usize>
    requires { Begins bytes.now at 0x15 }
    ensures leads { IfSome result (λ end. Leads bytes.now tables.now at (all opens.now) stack.old
        end (all opens.now) stack.new) }
    ensures forward { IfSome result (λ end. at < end) }
    ensures inside { IfSome result (λ end. end ≤ length bytes.now) }
{
    if !tables.features.tail_call() {
        return None;
    }
    let Some((ty, end)) = index_at(bytes, at + 1) else {
        return None;
    };
    let index = ty as usize;
    let named = tables.known.named.as_slice();
    if index >= named.len() {
        return None;
    }
    let code = named[index].code;
    let Some(params) = returned(tables, ty) else {
        return None;
    };
    let order = &tables.known.order;
    if code >= NO_CODE || !stack.take_below(order, code) || !stack.take_all(order, params) {
        return None;
    }
    let Some(next) = unreached(tables, bytes, end, stack, opens) else {
        return None;
    };
    Some(next)
}
