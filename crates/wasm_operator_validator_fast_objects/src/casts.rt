//! Tests and casts of references, branches on casts, conversions, and small numbers as references.

ghost use Rattle.std.specs.Prelude.{◌≡◌, ◌<◌, ◌≤◌, ◌+◌, if◌then◌else◌, length, IfSome};
ghost use Rattle.wasm_operators_frequent.specs.Short.{BeginsPrefixed};
ghost use Rattle.wasm_operator_validator_rules.specs.Objects.{null_left};
ghost use Rattle.wasm_operator_validator_fast_tables.specs.Loop.{Leads, all};
ghost use Rattle.wasm_operator_validator_fast_objects.specs.Casts.{IsBranchAt};

use crate::references::{label_at, last_of};
use wasm_operator_validator_fast_steps::indices::index_at;
use wasm_operator_validator_fast_tables::{
    ANY, EXTERN, I31, NO_CODE, Opens, Stack, Tables, heap_at,
};

/// Whether a reference is of a heap type, or that or null.
pub fn ref_test(
    null: bool,
    middle: usize,
    tables: &Tables,
    bytes: &[u8],
    at: usize,
    stack: &mut Stack,
    opens: &Opens,
) -> Option<usize>
    requires { BeginsPrefixed bytes.now at 0xfb (if null then 0x15 else 0x14) middle }
    ensures leads { IfSome result (λ end. Leads bytes.now tables.now at (all opens.now) stack.old
        end (all opens.now) stack.new) }
    ensures forward { IfSome result (λ end. at < end) }
    ensures inside { IfSome result (λ end. end ≤ length bytes.now) }
{
    if !tables.references {
        return None;
    }
    let Some((code, top, end)) = heap_at(tables, bytes, middle) else {
        return None;
    };
    if !stack.take_below(&tables.known.order, top) || !stack.put(0) {
        return None;
    }
    Some(end)
}

// The code of references to a heap type, of which some may be null, by that of those that may.
#[inline(always)]
fn with_null(null: bool, code: u32) -> Option<u32>
    ensures { IfSome result (λ n. n ≡ (if null then code else code + 1)) }
{
    if null {
        return Some(code);
    }
    if code >= NO_CODE {
        return None;
    }
    Some(code + 1)
}

// The same of what is left of such references if others are taken out, of which some may be null.
#[inline(always)]
fn with_null_left(null: bool, taken: bool, code: u32) -> Option<u32>
    ensures { IfSome result (λ n. n ≡ (if null_left null taken then code else code + 1)) }
{
    if taken {
        return with_null(false, code);
    }
    with_null(null, code)
}

/// A reference is cast to a heap type, or to that or null.
pub fn ref_cast(
    null: bool,
    middle: usize,
    tables: &Tables,
    bytes: &[u8],
    at: usize,
    stack: &mut Stack,
    opens: &Opens,
) -> Option<usize>
    requires { BeginsPrefixed bytes.now at 0xfb (if null then 0x17 else 0x16) middle }
    ensures leads { IfSome result (λ end. Leads bytes.now tables.now at (all opens.now) stack.old
        end (all opens.now) stack.new) }
    ensures forward { IfSome result (λ end. at < end) }
    ensures inside { IfSome result (λ end. end ≤ length bytes.now) }
{
    if !tables.references {
        return None;
    }
    let Some((code, top, end)) = heap_at(tables, bytes, middle) else {
        return None;
    };
    let Some(given) = with_null(null, code) else {
        return None;
    };
    if !stack.take_below(&tables.known.order, top) || !stack.put(given) {
        return None;
    }
    Some(end)
}

/// A small number becomes a reference.
pub fn ref_i31(
    middle: usize,
    tables: &Tables,
    bytes: &[u8],
    at: usize,
    stack: &mut Stack,
    opens: &Opens,
) -> Option<usize>
    requires { BeginsPrefixed bytes.now at 0xfb 0x1c middle }
    ensures leads { IfSome result (λ end. Leads bytes.now tables.now at (all opens.now) stack.old
        end (all opens.now) stack.new) }
    ensures forward { IfSome result (λ end. at < end) }
    ensures inside { IfSome result (λ end. end ≤ length bytes.now) }
{
    if !tables.references || !stack.change(0, I31 + 1) {
        return None;
    }
    Some(middle)
}

/// The number that such a reference is, with a sign or without.
pub fn i31_get(
    signed: bool,
    middle: usize,
    tables: &Tables,
    bytes: &[u8],
    at: usize,
    stack: &mut Stack,
    opens: &Opens,
) -> Option<usize>
    requires { BeginsPrefixed bytes.now at 0xfb (if signed then 0x1d else 0x1e) middle }
    ensures leads { IfSome result (λ end. Leads bytes.now tables.now at (all opens.now) stack.old
        end (all opens.now) stack.new) }
    ensures forward { IfSome result (λ end. at < end) }
    ensures inside { IfSome result (λ end. end ≤ length bytes.now) }
{
    if !tables.references || !stack.take_below(&tables.known.order, I31) || !stack.put(0) {
        return None;
    }
    Some(middle)
}

/// A branch on a cast as it is spelled: its label, the codes of what is cast, of what to, and of what is left if the cast
/// fails, and the offset behind it.
#[derive(Clone, Copy)]
pub struct Cast {
    pub depth: u32,
    pub from: u32,
    pub to: u32,
    pub rest: u32,
    pub end: usize,
}

// What a branch on a cast carries.
fn cast_at(tables: &Tables, bytes: &[u8], at: usize) -> Option<Cast>
    ensures { IfSome result (λ cast. IsBranchAt bytes.now tables.now at cast) }
{
    if at >= bytes.len() {
        return None;
    }
    let flags = bytes[at];
    if flags > 3 {
        return None;
    }
    let Some((depth, second)) = index_at(bytes, at + 1) else {
        return None;
    };
    let Some((held, top, third)) = heap_at(tables, bytes, second) else {
        return None;
    };
    let Some((sought, other, end)) = heap_at(tables, bytes, third) else {
        return None;
    };
    let _tops = (top, other);
    let null = flags % 2 == 1;
    let kept = flags / 2 == 1;
    let Some(from) = with_null(null, held) else {
        return None;
    };
    let Some(to) = with_null(kept, sought) else {
        return None;
    };
    let Some(rest) = with_null_left(null, kept, held) else {
        return None;
    };
    Some(Cast {
        depth,
        from,
        to,
        rest,
        end,
    })
}

// One of two codes.
#[inline(always)]
fn chosen(first: bool, one: u32, other: u32) -> u32
    ensures { result ≡ (if first then one else other) }
{
    if first { one } else { other }
}

/// A branch if a cast succeeds, or if it fails.
pub fn br_on_cast(
    fails: bool,
    middle: usize,
    tables: &Tables,
    bytes: &[u8],
    at: usize,
    stack: &mut Stack,
    opens: &Opens,
) -> Option<usize>
    requires { BeginsPrefixed bytes.now at 0xfb (if fails then 0x19 else 0x18) middle }
    ensures leads { IfSome result (λ end. Leads bytes.now tables.now at (all opens.now) stack.old
        end (all opens.now) stack.new) }
    ensures forward { IfSome result (λ end. at < end) }
    ensures inside { IfSome result (λ end. end ≤ length bytes.now) }
{
    if !tables.references {
        return None;
    }
    let Some(cast) = cast_at(tables, bytes, middle) else {
        return None;
    };
    let goes = chosen(fails, cast.rest, cast.to);
    let stays = chosen(fails, cast.to, cast.rest);
    let Some(types) = label_at(tables, opens, cast.depth) else {
        return None;
    };
    let Some((under, last)) = last_of(types) else {
        return None;
    };
    let order = &tables.known.order;
    if !order.may_be_taken(cast.to, cast.from) || !order.may_be_taken(goes, last) {
        return None;
    }
    if !stack.take_below(order, cast.from)
        || !stack.take_all(order, under)
        || !stack.put_all(under)
        || !stack.put(stays)
    {
        return None;
    }
    Some(cast.end)
}

/// A reference of the host becomes one of the module, or the other way.
pub fn convert(
    back: bool,
    middle: usize,
    tables: &Tables,
    bytes: &[u8],
    at: usize,
    stack: &mut Stack,
    opens: &Opens,
) -> Option<usize>
    requires { BeginsPrefixed bytes.now at 0xfb (if back then 0x1b else 0x1a) middle }
    ensures leads { IfSome result (λ end. Leads bytes.now tables.now at (all opens.now) stack.old
        end (all opens.now) stack.new) }
    ensures forward { IfSome result (λ end. at < end) }
    ensures inside { IfSome result (λ end. end ≤ length bytes.now) }
{
    if !tables.references {
        return None;
    }
    let Some(top) = stack.top() else {
        return None;
    };
    let null = top % 2 == 0;
    let Some(from) = with_null(null, chosen(back, ANY, EXTERN)) else {
        return None;
    };
    let Some(to) = with_null(null, chosen(back, EXTERN, ANY)) else {
        return None;
    };
    if !stack.take_below(&tables.known.order, from) || !stack.put(to) {
        return None;
    }
    Some(middle)
}
