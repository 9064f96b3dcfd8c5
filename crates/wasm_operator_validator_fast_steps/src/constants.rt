//! Constants.

ghost use Rattle.std.specs.Prelude.{◌≡◌, ◌<◌, ◌≤◌, ◌+◌, ◌∷◌, ℕ, List, length, [], IfSome};
ghost use Rattle.wasm_operators_frequent.specs.Short.{Begins};
ghost use Rattle.wasm_operator_validator_fast_tables.specs.Loop.{Leads, all};

use crate::indices::{i32_end, i64_end};
use wasm_operator_validator_fast_tables::{Opens, Stack, Tables};
use wasm_operators_frequent::{f32_at, f64_at};

/// A constant of type i32.
#[inline(always)]
pub fn i32_const(
    tables: &Tables,
    bytes: &[u8],
    at: usize,
    stack: &mut Stack,
    opens: &Opens,
) -> Option<usize>
    requires begins { Begins bytes.now at 0x41 }
    requires more { at + 1 < length bytes.now }
    ensures leads { IfSome result (λ end. Leads bytes.now tables.now at (all opens.now) stack.old
        end (all opens.now) stack.new) }
    ensures forward { IfSome result (λ end. at < end) }
    ensures inside { IfSome result (λ end. end ≤ length bytes.now) }
{
    let Some(end) = i32_end(bytes, at + 1) else {
        return None;
    };
    if !stack.put(0) {
        return None;
    }
    Some(end)
}

/// A constant of type i64.
#[inline(always)]
pub fn i64_const(
    tables: &Tables,
    bytes: &[u8],
    at: usize,
    stack: &mut Stack,
    opens: &Opens,
) -> Option<usize>
    requires begins { Begins bytes.now at 0x42 }
    requires more { at + 1 < length bytes.now }
    ensures leads { IfSome result (λ end. Leads bytes.now tables.now at (all opens.now) stack.old
        end (all opens.now) stack.new) }
    ensures forward { IfSome result (λ end. at < end) }
    ensures inside { IfSome result (λ end. end ≤ length bytes.now) }
{
    let Some(end) = i64_end(bytes, at + 1) else {
        return None;
    };
    if !stack.put(1) {
        return None;
    }
    Some(end)
}

/// A constant of type f32.
#[inline(always)]
pub fn f32_const(
    tables: &Tables,
    bytes: &[u8],
    at: usize,
    stack: &mut Stack,
    opens: &Opens,
) -> Option<usize>
    requires { Begins bytes.now at 0x43 }
    ensures leads { IfSome result (λ end. Leads bytes.now tables.now at (all opens.now) stack.old
        end (all opens.now) stack.new) }
    ensures forward { IfSome result (λ end. at < end) }
    ensures inside { IfSome result (λ end. end ≤ length bytes.now) }
{
    let Some((_value, end)) = f32_at(bytes, at + 1) else {
        return None;
    };
    if !stack.put(2) {
        return None;
    }
    Some(end)
}

/// A constant of type f64.
#[inline(always)]
pub fn f64_const(
    tables: &Tables,
    bytes: &[u8],
    at: usize,
    stack: &mut Stack,
    opens: &Opens,
) -> Option<usize>
    requires { Begins bytes.now at 0x44 }
    ensures leads { IfSome result (λ end. Leads bytes.now tables.now at (all opens.now) stack.old
        end (all opens.now) stack.new) }
    ensures forward { IfSome result (λ end. at < end) }
    ensures inside { IfSome result (λ end. end ≤ length bytes.now) }
{
    let Some((_value, end)) = f64_at(bytes, at + 1) else {
        return None;
    };
    if !stack.put(3) {
        return None;
    }
    Some(end)
}
