//! Variables, accesses to memories, and constants.

ghost use Rattle.std.specs.Prelude.{◌≡◌, IfSome};
ghost use Rattle.wasm_operators_enums.specs.Op.{op_of};
ghost use Rattle.wasm_operators_frequent.specs.Short.{Begins, IsTold};

use crate::{access_at, f32_at, f64_at, memarg_of, zero_at};
use wasm_operators_visit::{ConstOperator, MemoryOperator, Operator};
use wasm_types::WasmFeatures;
use wasm_types_decoding::{short_i32_at, short_i64_at, short_u32_at};

/// An operator on a local or a global.
#[inline(always)]
pub(crate) fn variable<'a>(
    bytes: &'a [u8],
    at: usize,
    code: u8,
    features: WasmFeatures,
) -> Option<(Operator<'a>, usize)>
    requires { Begins bytes.now at code }
    ensures { IfSome result (λ r. IsTold features.0 bytes.now at r.1 (λ o. o ≡ op_of r.0)) }
{
    let Some((index, end)) = short_u32_at(bytes, at + 1) else {
        return None;
    };
    match code {
        0x20 => Some((
            Operator::Memory(MemoryOperator::LocalGet { local_index: index }),
            end,
        )),
        0x21 => Some((
            Operator::Memory(MemoryOperator::LocalSet { local_index: index }),
            end,
        )),
        0x22 => Some((
            Operator::Memory(MemoryOperator::LocalTee { local_index: index }),
            end,
        )),
        0x23 => Some((
            Operator::Memory(MemoryOperator::GlobalGet {
                global_index: index,
            }),
            end,
        )),
        0x24 => Some((
            Operator::Memory(MemoryOperator::GlobalSet {
                global_index: index,
            }),
            end,
        )),
        _ => None,
    }
}

/// A load from memory 0.
#[inline(always)]
pub(crate) fn load<'a>(
    bytes: &'a [u8],
    at: usize,
    code: u8,
    features: WasmFeatures,
) -> Option<(Operator<'a>, usize)>
    requires { Begins bytes.now at code }
    ensures { IfSome result (λ r. IsTold features.0 bytes.now at r.1 (λ o. o ≡ op_of r.0)) }
{
    let Some((access, end)) = access_at(bytes, at + 1, features) else {
        return None;
    };
    let one = memarg_of(access, 0);
    let two = memarg_of(access, 1);
    let four = memarg_of(access, 2);
    let eight = memarg_of(access, 3);
    let op = match code {
        0x28 => MemoryOperator::I32Load { memarg: four },
        0x29 => MemoryOperator::I64Load { memarg: eight },
        0x2a => MemoryOperator::F32Load { memarg: four },
        0x2b => MemoryOperator::F64Load { memarg: eight },
        0x2c => MemoryOperator::I32Load8S { memarg: one },
        0x2d => MemoryOperator::I32Load8U { memarg: one },
        0x2e => MemoryOperator::I32Load16S { memarg: two },
        0x2f => MemoryOperator::I32Load16U { memarg: two },
        0x30 => MemoryOperator::I64Load8S { memarg: one },
        0x31 => MemoryOperator::I64Load8U { memarg: one },
        0x32 => MemoryOperator::I64Load16S { memarg: two },
        0x33 => MemoryOperator::I64Load16U { memarg: two },
        0x34 => MemoryOperator::I64Load32S { memarg: four },
        0x35 => MemoryOperator::I64Load32U { memarg: four },
        _ => return None,
    };
    Some((Operator::Memory(op), end))
}

/// A store to memory 0.
#[inline(always)]
pub(crate) fn store<'a>(
    bytes: &'a [u8],
    at: usize,
    code: u8,
    features: WasmFeatures,
) -> Option<(Operator<'a>, usize)>
    requires { Begins bytes.now at code }
    ensures { IfSome result (λ r. IsTold features.0 bytes.now at r.1 (λ o. o ≡ op_of r.0)) }
{
    let Some((access, end)) = access_at(bytes, at + 1, features) else {
        return None;
    };
    let one = memarg_of(access, 0);
    let two = memarg_of(access, 1);
    let four = memarg_of(access, 2);
    let eight = memarg_of(access, 3);
    let op = match code {
        0x36 => MemoryOperator::I32Store { memarg: four },
        0x37 => MemoryOperator::I64Store { memarg: eight },
        0x38 => MemoryOperator::F32Store { memarg: four },
        0x39 => MemoryOperator::F64Store { memarg: eight },
        0x3a => MemoryOperator::I32Store8 { memarg: one },
        0x3b => MemoryOperator::I32Store16 { memarg: two },
        0x3c => MemoryOperator::I64Store8 { memarg: one },
        0x3d => MemoryOperator::I64Store16 { memarg: two },
        0x3e => MemoryOperator::I64Store32 { memarg: four },
        _ => return None,
    };
    Some((Operator::Memory(op), end))
}

/// The size of memory 0, or its growth.
#[inline(always)]
pub(crate) fn memory_size<'a>(
    bytes: &'a [u8],
    at: usize,
    code: u8,
    features: WasmFeatures,
) -> Option<(Operator<'a>, usize)>
    requires { Begins bytes.now at code }
    ensures { IfSome result (λ r. IsTold features.0 bytes.now at r.1 (λ o. o ≡ op_of r.0)) }
{
    let Some((mem, end)) = zero_at(bytes, at + 1) else {
        return None;
    };
    match code {
        0x3f => Some((Operator::Memory(MemoryOperator::MemorySize { mem }), end)),
        0x40 => Some((Operator::Memory(MemoryOperator::MemoryGrow { mem }), end)),
        _ => None,
    }
}

/// A constant of type i32.
#[inline(always)]
pub(crate) fn i32_const<'a>(
    bytes: &'a [u8],
    at: usize,
    code: u8,
    features: WasmFeatures,
) -> Option<(Operator<'a>, usize)>
    requires { Begins bytes.now at code }
    ensures { IfSome result (λ r. IsTold features.0 bytes.now at r.1 (λ o. o ≡ op_of r.0)) }
{
    let Some((value, end)) = short_i32_at(bytes, at + 1) else {
        return None;
    };
    match code {
        0x41 => Some((Operator::Const(ConstOperator::I32Const { value }), end)),
        _ => None,
    }
}

/// A constant of type i64.
#[inline(always)]
pub(crate) fn i64_const<'a>(
    bytes: &'a [u8],
    at: usize,
    code: u8,
    features: WasmFeatures,
) -> Option<(Operator<'a>, usize)>
    requires { Begins bytes.now at code }
    ensures { IfSome result (λ r. IsTold features.0 bytes.now at r.1 (λ o. o ≡ op_of r.0)) }
{
    let Some((value, end)) = short_i64_at(bytes, at + 1) else {
        return None;
    };
    match code {
        0x42 => Some((Operator::Const(ConstOperator::I64Const { value }), end)),
        _ => None,
    }
}

/// A constant of type f32.
#[inline(always)]
pub(crate) fn f32_const<'a>(
    bytes: &'a [u8],
    at: usize,
    code: u8,
    features: WasmFeatures,
) -> Option<(Operator<'a>, usize)>
    requires { Begins bytes.now at code }
    ensures { IfSome result (λ r. IsTold features.0 bytes.now at r.1 (λ o. o ≡ op_of r.0)) }
{
    let Some((value, end)) = f32_at(bytes, at + 1) else {
        return None;
    };
    match code {
        0x43 => Some((Operator::Const(ConstOperator::F32Const { value }), end)),
        _ => None,
    }
}

/// A constant of type f64.
#[inline(always)]
pub(crate) fn f64_const<'a>(
    bytes: &'a [u8],
    at: usize,
    code: u8,
    features: WasmFeatures,
) -> Option<(Operator<'a>, usize)>
    requires { Begins bytes.now at code }
    ensures { IfSome result (λ r. IsTold features.0 bytes.now at r.1 (λ o. o ≡ op_of r.0)) }
{
    let Some((value, end)) = f64_at(bytes, at + 1) else {
        return None;
    };
    match code {
        0x44 => Some((Operator::Const(ConstOperator::F64Const { value }), end)),
        _ => None,
    }
}
