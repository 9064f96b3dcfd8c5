//! The operator at an offset, by its first byte.

ghost use Rattle.std.specs.Prelude.{◌≡◌, IfSome};
ghost use Rattle.wasm_operators_enums.specs.Op.{op_of};
ghost use Rattle.wasm_operators_frequent.specs.Short.{Begins, IsTold};

use crate::reading::bulk::{memory_copy, memory_fill};
use crate::reading::control::{control_alone, control_block, control_index, control_indirect};
use crate::reading::memory::{
    f32_const, f64_const, i32_const, i64_const, load, memory_size, store, variable,
};
use crate::reading::numbers::{numeric, numeric_prefixed};
use wasm_operators_visit::Operator;
use wasm_types::WasmFeatures;
use wasm_types_decoding::short_u32_at;

/// The operator that begins at an offset in `bytes`, if it is a frequent one in a frequent form, and the offset behind it.
/// None where it is another, or where the bytes spell none.
#[inline(always)]
pub fn short_operator_at<'a>(
    bytes: &'a [u8],
    at: usize,
    features: WasmFeatures,
) -> Option<(Operator<'a>, usize)>
    ensures { IfSome result (λ r. IsTold features.0 bytes.now at r.1 (λ o. o ≡ op_of r.0)) }
{
    if at >= bytes.len() {
        return None;
    }
    let code = bytes[at];
    match code {
        0x20 => variable(bytes, at, 0x20, features),
        0x21 => variable(bytes, at, 0x21, features),
        0x22..=0x24 => variable(bytes, at, code, features),
        0x41 => i32_const(bytes, at, 0x41, features),
        0x28..=0x35 => load(bytes, at, code, features),
        0x36..=0x3e => store(bytes, at, code, features),
        0x45..=0xc4 => numeric(bytes, at, code, features),
        _ => other_at(bytes, at, code, features),
    }
}

/// The same of operators whose first byte is at most 1f: control and parametric ones.
#[inline(always)]
pub fn short_control_at<'a>(
    bytes: &'a [u8],
    at: usize,
    features: WasmFeatures,
) -> Option<(Operator<'a>, usize)>
    ensures { IfSome result (λ r. IsTold features.0 bytes.now at r.1 (λ o. o ≡ op_of r.0)) }
{
    if at >= bytes.len() {
        return None;
    }
    let code = bytes[at];
    match code {
        0x0b => control_alone(bytes, at, 0x0b, features),
        0x1a => control_alone(bytes, at, 0x1a, features),
        0x0c | 0x0d | 0x10 => control_index(bytes, at, code, features),
        0x02..=0x04 => control_block(bytes, at, code, features),
        _ => other_control_at(bytes, at, code, features),
    }
}

/// The same of control and parametric operators that are less frequent, with a place of its own for the answer.
#[inline(always)]
fn other_control_at<'a>(
    bytes: &'a [u8],
    at: usize,
    code: u8,
    features: WasmFeatures,
) -> Option<(Operator<'a>, usize)>
    requires { Begins bytes.now at code }
    ensures { IfSome result (λ r. IsTold features.0 bytes.now at r.1 (λ o. o ≡ op_of r.0)) }
{
    let Some((op, end)) = short_other_control_at(bytes, at, code, features) else {
        return None;
    };
    Some((op, end))
}

/// The same, out of line.
#[inline(never)]
fn short_other_control_at<'a>(
    bytes: &'a [u8],
    at: usize,
    code: u8,
    features: WasmFeatures,
) -> Option<(Operator<'a>, usize)>
    requires { Begins bytes.now at code }
    ensures { IfSome result (λ r. IsTold features.0 bytes.now at r.1 (λ o. o ≡ op_of r.0)) }
{
    match code {
        0x00 | 0x01 | 0x05 | 0x0f | 0x1b => control_alone(bytes, at, code, features),
        0x11 => control_indirect(bytes, at, code, features),
        _ => None,
    }
}

/// The same of operators that are less frequent, where this byte stands at the offset: `short_other_at`, with a place of its own for the
/// answer, so that none is made ready before.
#[inline(always)]
fn other_at<'a>(
    bytes: &'a [u8],
    at: usize,
    code: u8,
    features: WasmFeatures,
) -> Option<(Operator<'a>, usize)>
    requires { Begins bytes.now at code }
    ensures { IfSome result (λ r. IsTold features.0 bytes.now at r.1 (λ o. o ≡ op_of r.0)) }
{
    let Some((op, end)) = short_other_at(bytes, at, code, features) else {
        return None;
    };
    Some((op, end))
}

/// The same. They stand out of line, since a function that grows too large is not inlined at all.
#[inline(never)]
fn short_other_at<'a>(
    bytes: &'a [u8],
    at: usize,
    code: u8,
    features: WasmFeatures,
) -> Option<(Operator<'a>, usize)>
    requires { Begins bytes.now at code }
    ensures { IfSome result (λ r. IsTold features.0 bytes.now at r.1 (λ o. o ≡ op_of r.0)) }
{
    match code {
        0x3f | 0x40 => memory_size(bytes, at, code, features),
        0x42 => i64_const(bytes, at, code, features),
        0x43 => f32_const(bytes, at, code, features),
        0x44 => f64_const(bytes, at, code, features),
        0xfc => prefixed(bytes, at, features),
        _ => None,
    }
}

/// An operator behind the prefix `fc`.
#[inline(always)]
fn prefixed<'a>(bytes: &'a [u8], at: usize, features: WasmFeatures) -> Option<(Operator<'a>, usize)>
    requires { Begins bytes.now at 0xfc }
    ensures { IfSome result (λ r. IsTold features.0 bytes.now at r.1 (λ o. o ≡ op_of r.0)) }
{
    let Some((code, end)) = short_u32_at(bytes, at + 1) else {
        return None;
    };
    match code {
        0x00..=0x07 => numeric_prefixed(bytes, at, code, end, features),
        0x0a => memory_copy(bytes, at, code, end, features),
        0x0b => memory_fill(bytes, at, code, end, features),
        _ => None,
    }
}
