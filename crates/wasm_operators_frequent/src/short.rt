//! The operator at an offset, by its first byte.

ghost use Rattle.std.specs.Prelude.{◌≡◌, IfSome, IfNone};
ghost use Rattle.wasm_operators_frequent.specs.Short.{Begins, IsTold};

use crate::bulk::{memory_copy, memory_fill};
use crate::control::{short_alone, short_block, short_index, short_indirect};
use crate::memory::{
    short_f32_const, short_f64_const, short_global, short_i32_const, short_i64_const, short_load,
    short_local_get, short_local_set, short_local_tee, short_memory_size, short_store,
};
use crate::numbers::{numeric_prefixed, short_number};
use wasm_operators_visit_operator::{VisitControl, VisitFloats, VisitIntegers, VisitMemory};
use wasm_types::WasmFeatures;
use wasm_types_decoding::short_u32_at;

/// Tells a visitor of the operator that begins at an offset in `bytes`, if it is a frequent one in a frequent form, and
/// gives the visitor's answer with the offset behind the operator. None where it is another, or where the bytes spell
/// none: the visitor is then told nothing.
#[inline(always)]
pub fn visit_short<'a, V>(
    bytes: &'a [u8],
    at: usize,
    features: WasmFeatures,
    visitor: &mut V,
) -> Option<(V::Output, usize)>
where
    V: VisitControl<'a> + VisitMemory<'a> + VisitIntegers<'a> + VisitFloats<'a>,
    ensures told { IfSome result (λ r. IsTold features.0 bytes.now at r.1
        (λ o. V.visits visitor.old o r.0 visitor.new)) }
    ensures none { IfNone result (visitor.new ≡ visitor.old) }
{
    if at >= bytes.len() {
        return None;
    }
    let code = bytes[at];
    match code {
        0x00 => short_alone(bytes, at, 0x00, features, visitor),
        0x01 => short_alone(bytes, at, 0x01, features, visitor),
        0x05 => short_alone(bytes, at, 0x05, features, visitor),
        0x0b => short_alone(bytes, at, 0x0b, features, visitor),
        0x0f => short_alone(bytes, at, 0x0f, features, visitor),
        0x1a => short_alone(bytes, at, 0x1a, features, visitor),
        0x1b => short_alone(bytes, at, 0x1b, features, visitor),
        0x0c => short_index(bytes, at, 0x0c, features, visitor),
        0x0d => short_index(bytes, at, 0x0d, features, visitor),
        0x10 => short_index(bytes, at, 0x10, features, visitor),
        0x11 => short_indirect(bytes, at, 0x11, features, visitor),
        0x20 => short_local_get(bytes, at, features, visitor),
        0x21 => short_local_set(bytes, at, features, visitor),
        0x22 => short_local_tee(bytes, at, features, visitor),
        0x23 => short_global(bytes, at, 0x23, features, visitor),
        0x24 => short_global(bytes, at, 0x24, features, visitor),
        0x3f => short_memory_size(bytes, at, 0x3f, features, visitor),
        0x40 => short_memory_size(bytes, at, 0x40, features, visitor),
        0x41 => short_i32_const(bytes, at, 0x41, features, visitor),
        0x42 => short_i64_const(bytes, at, 0x42, features, visitor),
        0x43 => short_f32_const(bytes, at, 0x43, features, visitor),
        0x44 => short_f64_const(bytes, at, 0x44, features, visitor),
        0x02..=0x04 => short_block(bytes, at, code, features, visitor),
        0x28..=0x35 => short_load(bytes, at, code, features, visitor),
        0x36..=0x3e => short_store(bytes, at, code, features, visitor),
        0x45..=0xc4 => short_number(bytes, at, code, features, visitor),
        0xfc => short_prefixed(bytes, at, features, visitor),
        _ => None,
    }
}

/// An operator behind the prefix `fc`.
#[inline(always)]
pub fn short_prefixed<'a, V>(
    bytes: &'a [u8],
    at: usize,
    features: WasmFeatures,
    visitor: &mut V,
) -> Option<(V::Output, usize)>
where
    V: VisitMemory<'a> + VisitIntegers<'a> + VisitFloats<'a>,
    requires { Begins bytes.now at 0xfc }
    ensures told { IfSome result (λ r. IsTold features.0 bytes.now at r.1
        (λ o. V.visits visitor.old o r.0 visitor.new)) }
    ensures none { IfNone result (visitor.new ≡ visitor.old) }
{
    if let Some(told) = numbers_prefixed(bytes, at, features, visitor) {
        return Some(told);
    }
    memory_prefixed(bytes, at, features, visitor)
}

/// An operator on numbers behind the prefix `fc`.
#[inline(always)]
fn numbers_prefixed<'a, V: VisitIntegers<'a> + VisitFloats<'a>>(
    bytes: &'a [u8],
    at: usize,
    features: WasmFeatures,
    visitor: &mut V,
) -> Option<(V::Output, usize)>
    requires { Begins bytes.now at 0xfc }
    ensures told { IfSome result (λ r. IsTold features.0 bytes.now at r.1
        (λ o. V.visits visitor.old o r.0 visitor.new)) }
    ensures none { IfNone result (visitor.new ≡ visitor.old) }
{
    let Some((code, end)) = short_u32_at(bytes, at + 1) else {
        return None;
    };
    match code {
        0x00..=0x07 => numeric_prefixed(bytes, at, code, end, features, visitor),
        _ => None,
    }
}

/// An operator on a whole memory behind the prefix `fc`.
#[inline(always)]
fn memory_prefixed<'a, V: VisitMemory<'a>>(
    bytes: &'a [u8],
    at: usize,
    features: WasmFeatures,
    visitor: &mut V,
) -> Option<(V::Output, usize)>
    requires { Begins bytes.now at 0xfc }
    ensures told { IfSome result (λ r. IsTold features.0 bytes.now at r.1
        (λ o. V.visits visitor.old o r.0 visitor.new)) }
    ensures none { IfNone result (visitor.new ≡ visitor.old) }
{
    let Some((code, end)) = short_u32_at(bytes, at + 1) else {
        return None;
    };
    match code {
        0x0a => memory_copy(bytes, at, code, end, features, visitor),
        0x0b => memory_fill(bytes, at, code, end, features, visitor),
        _ => None,
    }
}
