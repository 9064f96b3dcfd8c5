//! Variables, accesses to memories, and constants.

ghost use Rattle.std.specs.Prelude.{◌≡◌, IfSome, IfNone};
ghost use Rattle.wasm_operators_frequent.specs.Short.{Begins, IsTold};

use crate::immediates::{access_at, f32_at, f64_at, memarg_of, zero_at};
use wasm_operators_visit_operator::VisitMemory;
use wasm_types::WasmFeatures;
use wasm_types_decoding::{short_i32_at, short_i64_at, short_u32_at};

/// The value of a local.
#[inline(always)]
pub fn short_local_get<'a, V: VisitMemory<'a>>(
    bytes: &'a [u8],
    at: usize,
    features: WasmFeatures,
    visitor: &mut V,
) -> Option<(V::Output, usize)>
    requires { Begins bytes.now at 0x20 }
    ensures told { IfSome result (λ r. IsTold features.0 bytes.now at r.1
        (λ o. V.visits visitor.old o r.0 visitor.new)) }
    ensures none { IfNone result (visitor.new ≡ visitor.old) }
{
    let Some((index, end)) = short_u32_at(bytes, at + 1) else {
        return None;
    };
    Some((visitor.visit_local_get(index), end))
}

/// A local takes a value.
#[inline(always)]
pub fn short_local_set<'a, V: VisitMemory<'a>>(
    bytes: &'a [u8],
    at: usize,
    features: WasmFeatures,
    visitor: &mut V,
) -> Option<(V::Output, usize)>
    requires { Begins bytes.now at 0x21 }
    ensures told { IfSome result (λ r. IsTold features.0 bytes.now at r.1
        (λ o. V.visits visitor.old o r.0 visitor.new)) }
    ensures none { IfNone result (visitor.new ≡ visitor.old) }
{
    let Some((index, end)) = short_u32_at(bytes, at + 1) else {
        return None;
    };
    Some((visitor.visit_local_set(index), end))
}

/// A local takes a value, which stays.
#[inline(always)]
pub fn short_local_tee<'a, V: VisitMemory<'a>>(
    bytes: &'a [u8],
    at: usize,
    features: WasmFeatures,
    visitor: &mut V,
) -> Option<(V::Output, usize)>
    requires { Begins bytes.now at 0x22 }
    ensures told { IfSome result (λ r. IsTold features.0 bytes.now at r.1
        (λ o. V.visits visitor.old o r.0 visitor.new)) }
    ensures none { IfNone result (visitor.new ≡ visitor.old) }
{
    let Some((index, end)) = short_u32_at(bytes, at + 1) else {
        return None;
    };
    Some((visitor.visit_local_tee(index), end))
}

/// An operator on a global.
#[inline(always)]
pub fn short_global<'a, V: VisitMemory<'a>>(
    bytes: &'a [u8],
    at: usize,
    code: u8,
    features: WasmFeatures,
    visitor: &mut V,
) -> Option<(V::Output, usize)>
    requires { Begins bytes.now at code }
    ensures told { IfSome result (λ r. IsTold features.0 bytes.now at r.1
        (λ o. V.visits visitor.old o r.0 visitor.new)) }
    ensures none { IfNone result (visitor.new ≡ visitor.old) }
{
    let Some((index, end)) = short_u32_at(bytes, at + 1) else {
        return None;
    };
    match code {
        0x23 => Some((visitor.visit_global_get(index), end)),
        0x24 => Some((visitor.visit_global_set(index), end)),
        _ => None,
    }
}

/// A load from memory 0.
#[inline(always)]
pub fn short_load<'a, V: VisitMemory<'a>>(
    bytes: &'a [u8],
    at: usize,
    code: u8,
    features: WasmFeatures,
    visitor: &mut V,
) -> Option<(V::Output, usize)>
    requires { Begins bytes.now at code }
    ensures told { IfSome result (λ r. IsTold features.0 bytes.now at r.1
        (λ o. V.visits visitor.old o r.0 visitor.new)) }
    ensures none { IfNone result (visitor.new ≡ visitor.old) }
{
    let Some((access, end)) = access_at(bytes, at + 1, features) else {
        return None;
    };
    let one = memarg_of(access, 0);
    let two = memarg_of(access, 1);
    let four = memarg_of(access, 2);
    let eight = memarg_of(access, 3);
    match code {
        0x28 => Some((visitor.visit_i32_load(four), end)),
        0x29 => Some((visitor.visit_i64_load(eight), end)),
        0x2a => Some((visitor.visit_f32_load(four), end)),
        0x2b => Some((visitor.visit_f64_load(eight), end)),
        0x2c => Some((visitor.visit_i32_load8_s(one), end)),
        0x2d => Some((visitor.visit_i32_load8_u(one), end)),
        0x2e => Some((visitor.visit_i32_load16_s(two), end)),
        0x2f => Some((visitor.visit_i32_load16_u(two), end)),
        0x30 => Some((visitor.visit_i64_load8_s(one), end)),
        0x31 => Some((visitor.visit_i64_load8_u(one), end)),
        0x32 => Some((visitor.visit_i64_load16_s(two), end)),
        0x33 => Some((visitor.visit_i64_load16_u(two), end)),
        0x34 => Some((visitor.visit_i64_load32_s(four), end)),
        0x35 => Some((visitor.visit_i64_load32_u(four), end)),
        _ => None,
    }
}

/// A store to memory 0.
#[inline(always)]
pub fn short_store<'a, V: VisitMemory<'a>>(
    bytes: &'a [u8],
    at: usize,
    code: u8,
    features: WasmFeatures,
    visitor: &mut V,
) -> Option<(V::Output, usize)>
    requires { Begins bytes.now at code }
    ensures told { IfSome result (λ r. IsTold features.0 bytes.now at r.1
        (λ o. V.visits visitor.old o r.0 visitor.new)) }
    ensures none { IfNone result (visitor.new ≡ visitor.old) }
{
    let Some((access, end)) = access_at(bytes, at + 1, features) else {
        return None;
    };
    let one = memarg_of(access, 0);
    let two = memarg_of(access, 1);
    let four = memarg_of(access, 2);
    let eight = memarg_of(access, 3);
    match code {
        0x36 => Some((visitor.visit_i32_store(four), end)),
        0x37 => Some((visitor.visit_i64_store(eight), end)),
        0x38 => Some((visitor.visit_f32_store(four), end)),
        0x39 => Some((visitor.visit_f64_store(eight), end)),
        0x3a => Some((visitor.visit_i32_store8(one), end)),
        0x3b => Some((visitor.visit_i32_store16(two), end)),
        0x3c => Some((visitor.visit_i64_store8(one), end)),
        0x3d => Some((visitor.visit_i64_store16(two), end)),
        0x3e => Some((visitor.visit_i64_store32(four), end)),
        _ => None,
    }
}

/// The size of memory 0, or its growth.
#[inline(always)]
pub fn short_memory_size<'a, V: VisitMemory<'a>>(
    bytes: &'a [u8],
    at: usize,
    code: u8,
    features: WasmFeatures,
    visitor: &mut V,
) -> Option<(V::Output, usize)>
    requires { Begins bytes.now at code }
    ensures told { IfSome result (λ r. IsTold features.0 bytes.now at r.1
        (λ o. V.visits visitor.old o r.0 visitor.new)) }
    ensures none { IfNone result (visitor.new ≡ visitor.old) }
{
    let Some((mem, end)) = zero_at(bytes, at + 1) else {
        return None;
    };
    match code {
        0x3f => Some((visitor.visit_memory_size(mem), end)),
        0x40 => Some((visitor.visit_memory_grow(mem), end)),
        _ => None,
    }
}

/// A constant of type i32.
#[inline(always)]
pub fn short_i32_const<'a, V: VisitMemory<'a>>(
    bytes: &'a [u8],
    at: usize,
    code: u8,
    features: WasmFeatures,
    visitor: &mut V,
) -> Option<(V::Output, usize)>
    requires { Begins bytes.now at code }
    ensures told { IfSome result (λ r. IsTold features.0 bytes.now at r.1
        (λ o. V.visits visitor.old o r.0 visitor.new)) }
    ensures none { IfNone result (visitor.new ≡ visitor.old) }
{
    let Some((value, end)) = short_i32_at(bytes, at + 1) else {
        return None;
    };
    match code {
        0x41 => Some((visitor.visit_i32_const(value), end)),
        _ => None,
    }
}

/// A constant of type i64.
#[inline(always)]
pub fn short_i64_const<'a, V: VisitMemory<'a>>(
    bytes: &'a [u8],
    at: usize,
    code: u8,
    features: WasmFeatures,
    visitor: &mut V,
) -> Option<(V::Output, usize)>
    requires { Begins bytes.now at code }
    ensures told { IfSome result (λ r. IsTold features.0 bytes.now at r.1
        (λ o. V.visits visitor.old o r.0 visitor.new)) }
    ensures none { IfNone result (visitor.new ≡ visitor.old) }
{
    let Some((value, end)) = short_i64_at(bytes, at + 1) else {
        return None;
    };
    match code {
        0x42 => Some((visitor.visit_i64_const(value), end)),
        _ => None,
    }
}

/// A constant of type f32.
#[inline(always)]
pub fn short_f32_const<'a, V: VisitMemory<'a>>(
    bytes: &'a [u8],
    at: usize,
    code: u8,
    features: WasmFeatures,
    visitor: &mut V,
) -> Option<(V::Output, usize)>
    requires { Begins bytes.now at code }
    ensures told { IfSome result (λ r. IsTold features.0 bytes.now at r.1
        (λ o. V.visits visitor.old o r.0 visitor.new)) }
    ensures none { IfNone result (visitor.new ≡ visitor.old) }
{
    let Some((value, end)) = f32_at(bytes, at + 1) else {
        return None;
    };
    match code {
        0x43 => Some((visitor.visit_f32_const(value), end)),
        _ => None,
    }
}

/// A constant of type f64.
#[inline(always)]
pub fn short_f64_const<'a, V: VisitMemory<'a>>(
    bytes: &'a [u8],
    at: usize,
    code: u8,
    features: WasmFeatures,
    visitor: &mut V,
) -> Option<(V::Output, usize)>
    requires { Begins bytes.now at code }
    ensures told { IfSome result (λ r. IsTold features.0 bytes.now at r.1
        (λ o. V.visits visitor.old o r.0 visitor.new)) }
    ensures none { IfNone result (visitor.new ≡ visitor.old) }
{
    let Some((value, end)) = f64_at(bytes, at + 1) else {
        return None;
    };
    match code {
        0x44 => Some((visitor.visit_f64_const(value), end)),
        _ => None,
    }
}
