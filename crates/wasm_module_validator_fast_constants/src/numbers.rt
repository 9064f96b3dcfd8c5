//! Numbers, and sums of integers.

ghost use Rattle.std.specs.Prelude.{ℕ, IfSome};
ghost use Rattle.wasm_operators_frequent.specs.Short.{Begins};
ghost use Rattle.wasm_operator_validator_state.specs.resources.Meaning.{Meaning};
ghost use Rattle.wasm_module_validator_fast_constants.specs.Steps.{IsSum, Nexts};

use crate::stack::{integer_of, put, take_integer};
use wasm_operators_frequent::{f32_at, f64_at};
use wasm_types::{ValType, WasmFeatures};
use wasm_types_decoding::{short_i32_at, short_i64_at};

/// An integer of 32 bits.
#[inline(always)]
pub(crate) fn i32_const(bytes: &[u8], at: usize, stack: &mut Vec<ValType>) -> Option<usize>
    requires { Begins bytes.now at 0x41 }
    ensures { IfSome result (λ j. (bits : ℕ) → (m : Meaning) → Nexts bits m bytes.now at stack.old.items j stack.new.items) }
{
    let Some((_value, end)) = short_i32_at(bytes, at + 1) else {
        return None;
    };
    if !put(stack, ValType::I32) {
        return None;
    }
    Some(end)
}

/// An integer of 64 bits.
#[inline(always)]
pub(crate) fn i64_const(bytes: &[u8], at: usize, stack: &mut Vec<ValType>) -> Option<usize>
    requires { Begins bytes.now at 0x42 }
    ensures { IfSome result (λ j. (bits : ℕ) → (m : Meaning) → Nexts bits m bytes.now at stack.old.items j stack.new.items) }
{
    let Some((_value, end)) = short_i64_at(bytes, at + 1) else {
        return None;
    };
    if !put(stack, ValType::I64) {
        return None;
    }
    Some(end)
}

/// A float of 32 bits.
#[inline(always)]
pub(crate) fn f32_const(
    bytes: &[u8],
    at: usize,
    features: &WasmFeatures,
    stack: &mut Vec<ValType>,
) -> Option<usize>
    requires { Begins bytes.now at 0x43 }
    ensures { IfSome result (λ j. (m : Meaning) → Nexts features.now.0 m bytes.now at stack.old.items j stack.new.items) }
{
    if !features.floats() {
        return None;
    }
    let Some((_value, end)) = f32_at(bytes, at + 1) else {
        return None;
    };
    if !put(stack, ValType::F32) {
        return None;
    }
    Some(end)
}

/// A float of 64 bits.
#[inline(always)]
pub(crate) fn f64_const(
    bytes: &[u8],
    at: usize,
    features: &WasmFeatures,
    stack: &mut Vec<ValType>,
) -> Option<usize>
    requires { Begins bytes.now at 0x44 }
    ensures { IfSome result (λ j. (m : Meaning) → Nexts features.now.0 m bytes.now at stack.old.items j stack.new.items) }
{
    if !features.floats() {
        return None;
    }
    let Some((_value, end)) = f64_at(bytes, at + 1) else {
        return None;
    };
    if !put(stack, ValType::F64) {
        return None;
    }
    Some(end)
}

// Whether the sum, difference or product of this code is of 64 bits.
#[inline(always)]
fn sum_of(code: u8) -> Option<bool>
    ensures { IfSome result (IsSum code) }
{
    match code {
        0x6a => Some(false),
        0x6b => Some(false),
        0x6c => Some(false),
        0x7c => Some(true),
        0x7d => Some(true),
        0x7e => Some(true),
        _ => None,
    }
}

/// A sum, a difference or a product.
#[inline(always)]
pub(crate) fn sum(
    bytes: &[u8],
    at: usize,
    code: u8,
    features: &WasmFeatures,
    stack: &mut Vec<ValType>,
) -> Option<usize>
    requires { Begins bytes.now at code }
    ensures { IfSome result (λ j. (m : Meaning) → Nexts features.now.0 m bytes.now at stack.old.items j stack.new.items) }
{
    let Some(wide) = sum_of(code) else {
        return None;
    };
    if !features.extended_const() {
        return None;
    }
    if !take_integer(stack, wide) {
        return None;
    }
    if !take_integer(stack, wide) {
        return None;
    }
    if !put(stack, integer_of(wide)) {
        return None;
    }
    Some(at + 1)
}
