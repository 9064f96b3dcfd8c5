//! Arrays.

ghost use Rattle.std.specs.Prelude.{◌≡◌, ◌<◌, ◌≤◌, true, replicate, length, IfSome};
ghost use Rattle.wasm_operators_frequent.specs.Short.{BeginsPrefixed};
ghost use Rattle.wasm_operator_validator_fast_tables.specs.Stacks.{with_all};
ghost use Rattle.wasm_operator_validator_fast_tables.specs.Values.{IsLowered};
ghost use Rattle.wasm_operator_validator_fast_tables.specs.Loop.{Leads, all};
ghost use Rattle.wasm_operator_validator_fast_objects.specs.Objects.{IsArrayAt, NamesArray};

use wasm_operator_validator_fast_steps::indices::index_at;
use wasm_operator_validator_fast_tables::{
    ARRAY, Defined, Field, NO_CODE, Opens, Order, Stack, Tables, has_default,
};

// The type at an index, if it is an array: the code of references to it that may be null, and its element.
fn array_at(tables: &Tables, index: u32) -> Option<(u32, Field)>
    ensures { IfSome result (λ r. IsArrayAt tables.now index r.0 r.1) }
{
    let index = index as usize;
    let named = tables.known.named.as_slice();
    if !tables.references || index >= named.len() {
        return None;
    }
    let found = named[index];
    if found.code >= NO_CODE {
        return None;
    }
    match found.defined {
        Defined::Array(element) => Some((found.code, element)),
        _ => None,
    }
}

// The array that the bytes name, and the offset behind it. Out of line, as for structures.
#[inline(never)]
fn array_named(tables: &Tables, bytes: &[u8], at: usize) -> Option<(u32, Field, usize)>
    requires { at ≤ length bytes.now }
    ensures { IfSome result (λ r. NamesArray bytes.now tables.now at r.0 r.1 r.2) }
{
    let Some((index, end)) = index_at(bytes, at) else {
        return None;
    };
    let Some((code, element)) = array_at(tables, index) else {
        return None;
    };
    Some((code, element, end))
}

/// An element is read that is not packed.
#[inline(always)]
pub fn array_get(
    middle: usize,
    tables: &Tables,
    bytes: &[u8],
    at: usize,
    stack: &mut Stack,
    opens: &Opens,
) -> Option<usize>
    requires { BeginsPrefixed bytes.now at 0xfb 0x0b middle }
    ensures leads { IfSome result (λ end. Leads bytes.now tables.now at (all opens.now) stack.old
        end (all opens.now) stack.new) }
    ensures forward { IfSome result (λ end. at < end) }
    ensures inside { IfSome result (λ end. end ≤ length bytes.now) }
{
    let Some((code, element, end)) = array_named(tables, bytes, middle) else {
        return None;
    };
    if element.packed
        || !stack.take(0)
        || !stack.take_below(&tables.known.order, code)
        || !stack.put(element.code)
    {
        return None;
    }
    Some(end)
}

/// A packed element is read, with its sign.
#[inline(always)]
pub fn array_get_s(
    middle: usize,
    tables: &Tables,
    bytes: &[u8],
    at: usize,
    stack: &mut Stack,
    opens: &Opens,
) -> Option<usize>
    requires { BeginsPrefixed bytes.now at 0xfb 0x0c middle }
    ensures leads { IfSome result (λ end. Leads bytes.now tables.now at (all opens.now) stack.old
        end (all opens.now) stack.new) }
    ensures forward { IfSome result (λ end. at < end) }
    ensures inside { IfSome result (λ end. end ≤ length bytes.now) }
{
    let Some((code, element, end)) = array_named(tables, bytes, middle) else {
        return None;
    };
    if !element.packed
        || !stack.take(0)
        || !stack.take_below(&tables.known.order, code)
        || !stack.put(element.code)
    {
        return None;
    }
    Some(end)
}

/// A packed element is read, without a sign.
#[inline(always)]
pub fn array_get_u(
    middle: usize,
    tables: &Tables,
    bytes: &[u8],
    at: usize,
    stack: &mut Stack,
    opens: &Opens,
) -> Option<usize>
    requires { BeginsPrefixed bytes.now at 0xfb 0x0d middle }
    ensures leads { IfSome result (λ end. Leads bytes.now tables.now at (all opens.now) stack.old
        end (all opens.now) stack.new) }
    ensures forward { IfSome result (λ end. at < end) }
    ensures inside { IfSome result (λ end. end ≤ length bytes.now) }
{
    let Some((code, element, end)) = array_named(tables, bytes, middle) else {
        return None;
    };
    if !element.packed
        || !stack.take(0)
        || !stack.take_below(&tables.known.order, code)
        || !stack.put(element.code)
    {
        return None;
    }
    Some(end)
}

/// An element is written.
#[inline(always)]
pub fn array_set(
    middle: usize,
    tables: &Tables,
    bytes: &[u8],
    at: usize,
    stack: &mut Stack,
    opens: &Opens,
) -> Option<usize>
    requires { BeginsPrefixed bytes.now at 0xfb 0x0e middle }
    ensures leads { IfSome result (λ end. Leads bytes.now tables.now at (all opens.now) stack.old
        end (all opens.now) stack.new) }
    ensures forward { IfSome result (λ end. at < end) }
    ensures inside { IfSome result (λ end. end ≤ length bytes.now) }
{
    let Some((code, element, end)) = array_named(tables, bytes, middle) else {
        return None;
    };
    if !element.mutable
        || !stack.take_below(&tables.known.order, element.code)
        || !stack.take(0)
        || !stack.take_below(&tables.known.order, code)
    {
        return None;
    }
    Some(end)
}

/// How long an array is.
#[inline(always)]
pub fn array_len(
    middle: usize,
    tables: &Tables,
    bytes: &[u8],
    at: usize,
    stack: &mut Stack,
    opens: &Opens,
) -> Option<usize>
    requires { BeginsPrefixed bytes.now at 0xfb 0x0f middle }
    ensures leads { IfSome result (λ end. Leads bytes.now tables.now at (all opens.now) stack.old
        end (all opens.now) stack.new) }
    ensures forward { IfSome result (λ end. at < end) }
    ensures inside { IfSome result (λ end. end ≤ length bytes.now) }
{
    if !tables.references {
        return None;
    }
    if !stack.take_below(&tables.known.order, ARRAY) || !stack.put(0) {
        return None;
    }
    Some(middle)
}

/// An array is made of defaults.
#[inline(always)]
pub fn array_new_default(
    middle: usize,
    tables: &Tables,
    bytes: &[u8],
    at: usize,
    stack: &mut Stack,
    opens: &Opens,
) -> Option<usize>
    requires { BeginsPrefixed bytes.now at 0xfb 0x07 middle }
    ensures leads { IfSome result (λ end. Leads bytes.now tables.now at (all opens.now) stack.old
        end (all opens.now) stack.new) }
    ensures forward { IfSome result (λ end. at < end) }
    ensures inside { IfSome result (λ end. end ≤ length bytes.now) }
{
    let Some((code, element, end)) = array_named(tables, bytes, middle) else {
        return None;
    };
    if !has_default(element.code) || !stack.take(0) || !stack.put(code + 1) {
        return None;
    }
    Some(end)
}

/// An array is made of one value.
#[inline(always)]
pub fn array_new(
    middle: usize,
    tables: &Tables,
    bytes: &[u8],
    at: usize,
    stack: &mut Stack,
    opens: &Opens,
) -> Option<usize>
    requires { BeginsPrefixed bytes.now at 0xfb 0x06 middle }
    ensures leads { IfSome result (λ end. Leads bytes.now tables.now at (all opens.now) stack.old
        end (all opens.now) stack.new) }
    ensures forward { IfSome result (λ end. at < end) }
    ensures inside { IfSome result (λ end. end ≤ length bytes.now) }
{
    let Some((code, element, end)) = array_named(tables, bytes, middle) else {
        return None;
    };
    if !stack.take(0)
        || !stack.take_below(&tables.known.order, element.code)
        || !stack.put(code + 1)
    {
        return None;
    }
    Some(end)
}

/// An array is made of a data segment.
#[inline(always)]
pub fn array_new_data(
    middle: usize,
    tables: &Tables,
    bytes: &[u8],
    at: usize,
    stack: &mut Stack,
    opens: &Opens,
) -> Option<usize>
    requires { BeginsPrefixed bytes.now at 0xfb 0x09 middle }
    ensures leads { IfSome result (λ end. Leads bytes.now tables.now at (all opens.now) stack.old
        end (all opens.now) stack.new) }
    ensures forward { IfSome result (λ end. at < end) }
    ensures inside { IfSome result (λ end. end ≤ length bytes.now) }
{
    let Some((code, element, next)) = array_named(tables, bytes, middle) else {
        return None;
    };
    let Some((segment, end)) = index_at(bytes, next) else {
        return None;
    };
    if element.code >= 8
        || segment >= tables.known.data
        || !stack.take(0)
        || !stack.take(0)
        || !stack.put(code + 1)
    {
        return None;
    }
    Some(end)
}

// Arrays of more elements, each an operand, are left to the validator of operators.
const MOST: u32 = 10_000;

// Takes so many operands off that may be taken for one of a code.
fn take_alike(order: &Order, code: u32, count: u32, stack: &mut Stack) -> bool
    ensures { result ≡ true → IsLowered order.now stack.old (with_all (replicate count code) stack.new) }
{
    for _ in 0..count {
        if !stack.take_below(order, code) {
            return false;
        }
    }
    true
}

/// An array is made of so many values.
#[inline(always)]
pub fn array_new_fixed(
    middle: usize,
    tables: &Tables,
    bytes: &[u8],
    at: usize,
    stack: &mut Stack,
    opens: &Opens,
) -> Option<usize>
    requires { BeginsPrefixed bytes.now at 0xfb 0x08 middle }
    ensures leads { IfSome result (λ end. Leads bytes.now tables.now at (all opens.now) stack.old
        end (all opens.now) stack.new) }
    ensures forward { IfSome result (λ end. at < end) }
    ensures inside { IfSome result (λ end. end ≤ length bytes.now) }
{
    let Some((code, element, next)) = array_named(tables, bytes, middle) else {
        return None;
    };
    let Some((count, end)) = index_at(bytes, next) else {
        return None;
    };
    if count > MOST
        || !take_alike(&tables.known.order, element.code, count, stack)
        || !stack.put(code + 1)
    {
        return None;
    }
    Some(end)
}

/// A part of an array is filled.
#[inline(always)]
pub fn array_fill(
    middle: usize,
    tables: &Tables,
    bytes: &[u8],
    at: usize,
    stack: &mut Stack,
    opens: &Opens,
) -> Option<usize>
    requires { BeginsPrefixed bytes.now at 0xfb 0x10 middle }
    ensures leads { IfSome result (λ end. Leads bytes.now tables.now at (all opens.now) stack.old
        end (all opens.now) stack.new) }
    ensures forward { IfSome result (λ end. at < end) }
    ensures inside { IfSome result (λ end. end ≤ length bytes.now) }
{
    let Some((code, element, end)) = array_named(tables, bytes, middle) else {
        return None;
    };
    if !element.mutable
        || !stack.take(0)
        || !stack.take_below(&tables.known.order, element.code)
        || !stack.take(0)
        || !stack.take_below(&tables.known.order, code)
    {
        return None;
    }
    Some(end)
}

/// A part of an array is copied to one of the same type.
#[inline(always)]
pub fn array_copy(
    middle: usize,
    tables: &Tables,
    bytes: &[u8],
    at: usize,
    stack: &mut Stack,
    opens: &Opens,
) -> Option<usize>
    requires { BeginsPrefixed bytes.now at 0xfb 0x11 middle }
    ensures leads { IfSome result (λ end. Leads bytes.now tables.now at (all opens.now) stack.old
        end (all opens.now) stack.new) }
    ensures forward { IfSome result (λ end. at < end) }
    ensures inside { IfSome result (λ end. end ≤ length bytes.now) }
{
    let Some((code, element, next)) = array_named(tables, bytes, middle) else {
        return None;
    };
    let Some((from, _element, end)) = array_named(tables, bytes, next) else {
        return None;
    };
    if from != code
        || !element.mutable
        || !stack.take(0)
        || !stack.take(0)
        || !stack.take_below(&tables.known.order, code)
        || !stack.take(0)
        || !stack.take_below(&tables.known.order, code)
    {
        return None;
    }
    Some(end)
}
