//! Tables and element segments.

ghost use Rattle.std.specs.Prelude.{◌≡◌, ◌<◌, ◌≤◌, length, IfSome};
ghost use Rattle.wasm_operators_frequent.specs.Short.{Begins, BeginsPrefixed};
ghost use Rattle.wasm_operator_validator_fast_tables.specs.Loop.{Leads, all};
ghost use Rattle.wasm_operator_validator_fast_objects.specs.Tables.{IsTableAt, IsElementAt, NamesTable, NamesElement};

use wasm_operator_validator_fast_steps::indices::{index_at, shorter};
use wasm_operator_validator_fast_tables::{Indexed, NO_CODE, Opens, Stack, Tables};

// The table at an index, if a code stands for its references.
fn table_at(tables: &Tables, index: u32) -> Option<Indexed>
    ensures { IfSome result (λ s. IsTableAt tables.now index s) }
{
    let index = index as usize;
    let held = tables.known.tables.as_slice();
    if !tables.references || index >= held.len() {
        return None;
    }
    let table = held[index];
    if table.ty >= NO_CODE {
        return None;
    }
    Some(table)
}

// The table that the bytes name, and the offset behind it. Out of line, as for structures.
#[inline(never)]
fn table_named(tables: &Tables, bytes: &[u8], at: usize) -> Option<(Indexed, usize)>
    requires { at ≤ length bytes.now }
    ensures { IfSome result (λ r. NamesTable bytes.now tables.now at r.0 r.1) }
{
    let Some((index, end)) = index_at(bytes, at) else {
        return None;
    };
    let Some(table) = table_at(tables, index) else {
        return None;
    };
    Some((table, end))
}

// The element segment at an index: the code of its references.
fn element_at(tables: &Tables, index: u32) -> Option<u32>
    ensures { IfSome result (λ code. IsElementAt tables.now index code) }
{
    let index = index as usize;
    let codes = tables.known.elements.as_slice();
    if !tables.references || index >= codes.len() {
        return None;
    }
    let code = codes[index];
    if code >= NO_CODE {
        return None;
    }
    Some(code)
}

// The element segment that the bytes name, and the offset behind it.
#[inline(never)]
fn element_named(tables: &Tables, bytes: &[u8], at: usize) -> Option<(u32, usize)>
    requires { at ≤ length bytes.now }
    ensures { IfSome result (λ r. NamesElement bytes.now tables.now at r.0 r.1) }
{
    let Some((index, end)) = index_at(bytes, at) else {
        return None;
    };
    let Some(code) = element_at(tables, index) else {
        return None;
    };
    Some((code, end))
}

/// A reference is read.
#[inline(always)]
pub fn table_get(
    tables: &Tables,
    bytes: &[u8],
    at: usize,
    stack: &mut Stack,
    opens: &Opens,
) -> Option<usize>
    requires { Begins bytes.now at 0x25 }
    ensures leads { IfSome result (λ end. Leads bytes.now tables.now at (all opens.now) stack.old
        end (all opens.now) stack.new) }
    ensures forward { IfSome result (λ end. at < end) }
    ensures inside { IfSome result (λ end. end ≤ length bytes.now) }
{
    let Some((table, end)) = table_named(tables, bytes, at + 1) else {
        return None;
    };
    if !stack.change(table.index, table.ty) {
        return None;
    }
    Some(end)
}

/// A reference is written.
#[inline(always)]
pub fn table_set(
    tables: &Tables,
    bytes: &[u8],
    at: usize,
    stack: &mut Stack,
    opens: &Opens,
) -> Option<usize>
    requires { Begins bytes.now at 0x26 }
    ensures leads { IfSome result (λ end. Leads bytes.now tables.now at (all opens.now) stack.old
        end (all opens.now) stack.new) }
    ensures forward { IfSome result (λ end. at < end) }
    ensures inside { IfSome result (λ end. end ≤ length bytes.now) }
{
    let Some((table, end)) = table_named(tables, bytes, at + 1) else {
        return None;
    };
    if !stack.take_below(&tables.known.order, table.ty) || !stack.take(table.index) {
        return None;
    }
    Some(end)
}

/// A part of a table is written from an element segment.
#[inline(always)]
pub fn table_init(
    middle: usize,
    tables: &Tables,
    bytes: &[u8],
    at: usize,
    stack: &mut Stack,
    opens: &Opens,
) -> Option<usize>
    requires { BeginsPrefixed bytes.now at 0xfc 0x0c middle }
    ensures leads { IfSome result (λ end. Leads bytes.now tables.now at (all opens.now) stack.old
        end (all opens.now) stack.new) }
    ensures forward { IfSome result (λ end. at < end) }
    ensures inside { IfSome result (λ end. end ≤ length bytes.now) }
{
    let Some((element, next)) = element_named(tables, bytes, middle) else {
        return None;
    };
    let Some((table, end)) = table_named(tables, bytes, next) else {
        return None;
    };
    if !tables.features.bulk_memory() || !tables.known.order.may_be_taken(element, table.ty) {
        return None;
    }
    if !stack.take(0) || !stack.take(0) || !stack.take(table.index) {
        return None;
    }
    Some(end)
}

/// An element segment is dropped.
#[inline(always)]
pub fn elem_drop(
    middle: usize,
    tables: &Tables,
    bytes: &[u8],
    at: usize,
    stack: &mut Stack,
    opens: &Opens,
) -> Option<usize>
    requires { BeginsPrefixed bytes.now at 0xfc 0x0d middle }
    ensures leads { IfSome result (λ end. Leads bytes.now tables.now at (all opens.now) stack.old
        end (all opens.now) stack.new) }
    ensures forward { IfSome result (λ end. at < end) }
    ensures inside { IfSome result (λ end. end ≤ length bytes.now) }
{
    let Some((_code, end)) = element_named(tables, bytes, middle) else {
        return None;
    };
    if !tables.features.bulk_memory() {
        return None;
    }
    Some(end)
}

/// A part of a table is copied to one whose references may be those.
#[inline(always)]
pub fn table_copy(
    middle: usize,
    tables: &Tables,
    bytes: &[u8],
    at: usize,
    stack: &mut Stack,
    opens: &Opens,
) -> Option<usize>
    requires { BeginsPrefixed bytes.now at 0xfc 0x0e middle }
    ensures leads { IfSome result (λ end. Leads bytes.now tables.now at (all opens.now) stack.old
        end (all opens.now) stack.new) }
    ensures forward { IfSome result (λ end. at < end) }
    ensures inside { IfSome result (λ end. end ≤ length bytes.now) }
{
    let Some((to, next)) = table_named(tables, bytes, middle) else {
        return None;
    };
    let Some((from, end)) = table_named(tables, bytes, next) else {
        return None;
    };
    if !tables.features.bulk_memory() || !tables.known.order.may_be_taken(from.ty, to.ty) {
        return None;
    }
    let least = shorter(to.index, from.index);
    if !stack.take(least) || !stack.take(from.index) || !stack.take(to.index) {
        return None;
    }
    Some(end)
}

/// A table grows by so many places, which hold a reference.
#[inline(always)]
pub fn table_grow(
    middle: usize,
    tables: &Tables,
    bytes: &[u8],
    at: usize,
    stack: &mut Stack,
    opens: &Opens,
) -> Option<usize>
    requires { BeginsPrefixed bytes.now at 0xfc 0x0f middle }
    ensures leads { IfSome result (λ end. Leads bytes.now tables.now at (all opens.now) stack.old
        end (all opens.now) stack.new) }
    ensures forward { IfSome result (λ end. at < end) }
    ensures inside { IfSome result (λ end. end ≤ length bytes.now) }
{
    let Some((table, end)) = table_named(tables, bytes, middle) else {
        return None;
    };
    if !stack.take(table.index)
        || !stack.take_below(&tables.known.order, table.ty)
        || !stack.put(table.index)
    {
        return None;
    }
    Some(end)
}

/// How large a table is.
#[inline(always)]
pub fn table_size(
    middle: usize,
    tables: &Tables,
    bytes: &[u8],
    at: usize,
    stack: &mut Stack,
    opens: &Opens,
) -> Option<usize>
    requires { BeginsPrefixed bytes.now at 0xfc 0x10 middle }
    ensures leads { IfSome result (λ end. Leads bytes.now tables.now at (all opens.now) stack.old
        end (all opens.now) stack.new) }
    ensures forward { IfSome result (λ end. at < end) }
    ensures inside { IfSome result (λ end. end ≤ length bytes.now) }
{
    let Some((table, end)) = table_named(tables, bytes, middle) else {
        return None;
    };
    if !stack.put(table.index) {
        return None;
    }
    Some(end)
}

/// A part of a table is filled.
#[inline(always)]
pub fn table_fill(
    middle: usize,
    tables: &Tables,
    bytes: &[u8],
    at: usize,
    stack: &mut Stack,
    opens: &Opens,
) -> Option<usize>
    requires { BeginsPrefixed bytes.now at 0xfc 0x11 middle }
    ensures leads { IfSome result (λ end. Leads bytes.now tables.now at (all opens.now) stack.old
        end (all opens.now) stack.new) }
    ensures forward { IfSome result (λ end. at < end) }
    ensures inside { IfSome result (λ end. end ≤ length bytes.now) }
{
    let Some((table, end)) = table_named(tables, bytes, middle) else {
        return None;
    };
    if !stack.take(table.index)
        || !stack.take_below(&tables.known.order, table.ty)
        || !stack.take(table.index)
    {
        return None;
    }
    Some(end)
}
