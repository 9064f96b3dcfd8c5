//! Structures.

ghost use Rattle.std.specs.Prelude.{◌≡◌, ◌<◌, ◌≤◌, true, take, drop, length, IfSome};
ghost use Rattle.wasm_operators_frequent.specs.Short.{BeginsPrefixed};
ghost use Rattle.wasm_operator_validator_fast_tables.specs.Stacks.{with_all};
ghost use Rattle.wasm_operator_validator_fast_tables.specs.Values.{IsLowered};
ghost use Rattle.wasm_operator_validator_fast_tables.specs.Loop.{Leads, all};
ghost use Rattle.wasm_operator_validator_fast_objects.specs.Objects.{
  IsStructAt,
  NamesStruct,
  NamesField,
  codes_of,
  HaveDefaults,
};

use wasm_operator_validator_fast_steps::indices::{index_at, near_index_at};
use wasm_operator_validator_fast_tables::{
    Defined, Field, NO_CODE, Opens, Order, Stack, Tables, has_default,
};

// So many fields from one on.
fn part(all: &[Field], from: u32, count: u32) -> Option<&[Field]>
    ensures { IfSome result (λ s. s.now ≡ take count (drop from all.now)) }
{
    let from = from as usize;
    let count = count as usize;
    if count > all.len() || from > all.len() - count {
        return None;
    }
    let end = from + count;
    Some(&all[from..end])
}

// The type at an index, if it is a structure: the code of references to it that may be null, and its fields.
fn struct_at(tables: &Tables, index: u32) -> Option<(u32, &[Field])>
    ensures { IfSome result (λ r. IsStructAt tables.now index r.0 r.1.now) }
{
    let index = index as usize;
    let named = tables.known.named.as_slice();
    if !tables.references || index >= named.len() {
        return None;
    }
    let found = named[index];
    if found.code >= NO_CODE {
        return None;
    }
    match found.defined {
        Defined::Struct(from, count) => {
            let Some(fields) = part(tables.known.fields.as_slice(), from, count) else {
                return None;
            };
            Some((found.code, fields))
        }
        _ => None,
    }
}

// The structure that the bytes name, and the offset behind it. Out of line, as is all here that asks no operand, so that the loop stays
// small.
#[inline(never)]
fn struct_named<'a>(
    tables: &'a Tables,
    bytes: &[u8],
    at: usize,
) -> Option<(u32, &'a [Field], usize)>
    requires { at ≤ length bytes.now }
    ensures { IfSome result (λ r. NamesStruct bytes.now tables.now at r.0 r.1.now r.2) }
{
    let Some((index, end)) = index_at(bytes, at) else {
        return None;
    };
    let Some((code, fields)) = struct_at(tables, index) else {
        return None;
    };
    Some((code, fields, end))
}

// The field that the bytes name by its structure and its place.
#[inline(never)]
fn field_named(tables: &Tables, bytes: &[u8], at: usize) -> Option<(u32, Field, usize)>
    requires { at ≤ length bytes.now }
    ensures { IfSome result (λ r. NamesField bytes.now tables.now at r.0 r.1 r.2) }
{
    let Some((code, fields, middle)) = struct_named(tables, bytes, at) else {
        return None;
    };
    let Some((place, end)) = index_at(bytes, middle) else {
        return None;
    };
    let place = place as usize;
    if place >= fields.len() {
        return None;
    }
    Some((code, fields[place], end))
}

// The same in the loop, since structures are mostly read.
#[inline(always)]
fn near_field_named(tables: &Tables, bytes: &[u8], at: usize) -> Option<(u32, Field, usize)>
    requires { at < length bytes.now }
    ensures { IfSome result (λ r. NamesField bytes.now tables.now at r.0 r.1 r.2) }
{
    let Some((index, middle)) = near_index_at(bytes, at) else {
        return None;
    };
    let Some((code, fields)) = struct_at(tables, index) else {
        return None;
    };
    if middle >= bytes.len() {
        return None;
    }
    let Some((place, end)) = near_index_at(bytes, middle) else {
        return None;
    };
    let place = place as usize;
    if place >= fields.len() {
        return None;
    }
    Some((code, fields[place], end))
}

/// A field is read that is not packed, in the loop.
#[inline(always)]
pub fn near_struct_get(
    middle: usize,
    tables: &Tables,
    bytes: &[u8],
    at: usize,
    stack: &mut Stack,
    opens: &Opens,
) -> Option<usize>
    requires begins { BeginsPrefixed bytes.now at 0xfb 0x02 middle }
    requires more { middle < length bytes.now }
    ensures leads { IfSome result (λ end. Leads bytes.now tables.now at (all opens.now) stack.old
        end (all opens.now) stack.new) }
    ensures forward { IfSome result (λ end. at < end) }
    ensures inside { IfSome result (λ end. end ≤ length bytes.now) }
{
    let Some((code, field, end)) = near_field_named(tables, bytes, middle) else {
        return None;
    };
    if field.packed
        || !stack.change_below(&tables.known.order, code)
        || !stack.change(code, field.code)
    {
        return None;
    }
    Some(end)
}

/// A field is read that is not packed.
#[inline(always)]
pub fn struct_get(
    middle: usize,
    tables: &Tables,
    bytes: &[u8],
    at: usize,
    stack: &mut Stack,
    opens: &Opens,
) -> Option<usize>
    requires { BeginsPrefixed bytes.now at 0xfb 0x02 middle }
    ensures leads { IfSome result (λ end. Leads bytes.now tables.now at (all opens.now) stack.old
        end (all opens.now) stack.new) }
    ensures forward { IfSome result (λ end. at < end) }
    ensures inside { IfSome result (λ end. end ≤ length bytes.now) }
{
    let Some((code, field, end)) = field_named(tables, bytes, middle) else {
        return None;
    };
    if field.packed || !stack.take_below(&tables.known.order, code) || !stack.put(field.code) {
        return None;
    }
    Some(end)
}

/// A packed field is read, with its sign.
#[inline(always)]
pub fn struct_get_s(
    middle: usize,
    tables: &Tables,
    bytes: &[u8],
    at: usize,
    stack: &mut Stack,
    opens: &Opens,
) -> Option<usize>
    requires { BeginsPrefixed bytes.now at 0xfb 0x03 middle }
    ensures leads { IfSome result (λ end. Leads bytes.now tables.now at (all opens.now) stack.old
        end (all opens.now) stack.new) }
    ensures forward { IfSome result (λ end. at < end) }
    ensures inside { IfSome result (λ end. end ≤ length bytes.now) }
{
    let Some((code, field, end)) = field_named(tables, bytes, middle) else {
        return None;
    };
    if !field.packed || !stack.take_below(&tables.known.order, code) || !stack.put(field.code) {
        return None;
    }
    Some(end)
}

/// A packed field is read, without a sign.
#[inline(always)]
pub fn struct_get_u(
    middle: usize,
    tables: &Tables,
    bytes: &[u8],
    at: usize,
    stack: &mut Stack,
    opens: &Opens,
) -> Option<usize>
    requires { BeginsPrefixed bytes.now at 0xfb 0x04 middle }
    ensures leads { IfSome result (λ end. Leads bytes.now tables.now at (all opens.now) stack.old
        end (all opens.now) stack.new) }
    ensures forward { IfSome result (λ end. at < end) }
    ensures inside { IfSome result (λ end. end ≤ length bytes.now) }
{
    let Some((code, field, end)) = field_named(tables, bytes, middle) else {
        return None;
    };
    if !field.packed || !stack.take_below(&tables.known.order, code) || !stack.put(field.code) {
        return None;
    }
    Some(end)
}

/// A field is written.
#[inline(always)]
pub fn struct_set(
    middle: usize,
    tables: &Tables,
    bytes: &[u8],
    at: usize,
    stack: &mut Stack,
    opens: &Opens,
) -> Option<usize>
    requires { BeginsPrefixed bytes.now at 0xfb 0x05 middle }
    ensures leads { IfSome result (λ end. Leads bytes.now tables.now at (all opens.now) stack.old
        end (all opens.now) stack.new) }
    ensures forward { IfSome result (λ end. at < end) }
    ensures inside { IfSome result (λ end. end ≤ length bytes.now) }
{
    let Some((code, field, end)) = field_named(tables, bytes, middle) else {
        return None;
    };
    if !field.mutable
        || !stack.take_below(&tables.known.order, field.code)
        || !stack.take_below(&tables.known.order, code)
    {
        return None;
    }
    Some(end)
}

// Takes operands off that may be taken for what these fields are made of, the last on top.
fn take_fields(order: &Order, fields: &[Field], stack: &mut Stack) -> bool
    ensures { result ≡ true → IsLowered order.now stack.old (with_all (codes_of fields.now) stack.new) }
{
    let mut left = fields.len();
    while left > 0 {
        left -= 1;
        if !stack.take_below(order, fields[left].code) {
            return false;
        }
    }
    true
}

/// A structure is made of its fields.
#[inline(always)]
pub fn struct_new(
    middle: usize,
    tables: &Tables,
    bytes: &[u8],
    at: usize,
    stack: &mut Stack,
    opens: &Opens,
) -> Option<usize>
    requires { BeginsPrefixed bytes.now at 0xfb 0x00 middle }
    ensures leads { IfSome result (λ end. Leads bytes.now tables.now at (all opens.now) stack.old
        end (all opens.now) stack.new) }
    ensures forward { IfSome result (λ end. at < end) }
    ensures inside { IfSome result (λ end. end ≤ length bytes.now) }
{
    let Some((code, fields, end)) = struct_named(tables, bytes, middle) else {
        return None;
    };
    if !take_fields(&tables.known.order, fields, stack) || !stack.put(code + 1) {
        return None;
    }
    Some(end)
}

// Whether all fields have defaults.
fn have_defaults(fields: &[Field]) -> bool
    ensures { result ≡ true → HaveDefaults fields.now }
{
    let mut left = fields.len();
    while left > 0 {
        left -= 1;
        if !has_default(fields[left].code) {
            return false;
        }
    }
    true
}

/// A structure is made of defaults.
#[inline(always)]
pub fn struct_new_default(
    middle: usize,
    tables: &Tables,
    bytes: &[u8],
    at: usize,
    stack: &mut Stack,
    opens: &Opens,
) -> Option<usize>
    requires { BeginsPrefixed bytes.now at 0xfb 0x01 middle }
    ensures leads { IfSome result (λ end. Leads bytes.now tables.now at (all opens.now) stack.old
        end (all opens.now) stack.new) }
    ensures forward { IfSome result (λ end. at < end) }
    ensures inside { IfSome result (λ end. end ≤ length bytes.now) }
{
    let Some((code, fields, end)) = struct_named(tables, bytes, middle) else {
        return None;
    };
    if !have_defaults(fields) || !stack.put(code + 1) {
        return None;
    }
    Some(end)
}
