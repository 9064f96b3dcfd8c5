//! The visitor told of a frequent operator straight from its bytes, each shape of operator in a function of its own.

ghost use Rattle.std.specs.Prelude.{◌≡◌, ◌<◌, IfSome, IfNone};
ghost use Rattle.wasm_operator_validator_state.specs.State.{Visits};
ghost use Rattle.wasm_operator_validator_state.specs.Refusals.{refused};
ghost use Rattle.wasm_operators_frequent.specs.Short.{Begins, IsTold};

use wasm_operator_validator_stacks::{Refusal, WasmModuleResources};
use wasm_operator_validator_visits::{AsRefusal, ValidatingVisitor};
use wasm_operators_frequent::{
    access_at, memarg_of, short_alone, short_block, short_f32_const, short_f64_const, short_global,
    short_i32_const, short_i64_const, short_index, short_indirect, short_local_get,
    short_local_set, short_local_tee, short_memory_size, short_number, short_prefixed,
};
use wasm_operators_visit::MemoryOperator;
use wasm_types::{ValType, WasmFeatures};

/// Of one that carries nothing.
#[inline(always)]
pub(crate) fn tell_alone<'a, R: WasmModuleResources>(
    visitor: &mut ValidatingVisitor<'_, '_, R, AsRefusal>,
    bytes: &'a [u8],
    at: usize,
    code: u8,
    features: WasmFeatures,
) -> Option<(Result<(), Refusal>, usize)>
    requires { Begins bytes.now at code }
    ensures told { IfSome result (λ r. IsTold features.0 bytes.now at r.1 (λ o.
        Visits (R.meaning visitor.old.resources.now) visitor.old.inner.now o (refused r.0) visitor.new.inner.now
        × (visitor.new.inner.ghost_name ≡ visitor.old.inner.ghost_name)
        × (visitor.new.resources.now ≡ visitor.old.resources.now))) }
    ensures none { IfNone result (visitor.new ≡ visitor.old) }
{
    short_alone(bytes, at, code, features, visitor)
}

/// Of one that carries a block type.
#[inline(always)]
pub(crate) fn tell_block<'a, R: WasmModuleResources>(
    visitor: &mut ValidatingVisitor<'_, '_, R, AsRefusal>,
    bytes: &'a [u8],
    at: usize,
    code: u8,
    features: WasmFeatures,
) -> Option<(Result<(), Refusal>, usize)>
    requires { Begins bytes.now at code }
    ensures told { IfSome result (λ r. IsTold features.0 bytes.now at r.1 (λ o.
        Visits (R.meaning visitor.old.resources.now) visitor.old.inner.now o (refused r.0) visitor.new.inner.now
        × (visitor.new.inner.ghost_name ≡ visitor.old.inner.ghost_name)
        × (visitor.new.resources.now ≡ visitor.old.resources.now))) }
    ensures none { IfNone result (visitor.new ≡ visitor.old) }
{
    short_block(bytes, at, code, features, visitor)
}

/// Of one that carries a label or the index of a function.
#[inline(always)]
pub(crate) fn tell_index<'a, R: WasmModuleResources>(
    visitor: &mut ValidatingVisitor<'_, '_, R, AsRefusal>,
    bytes: &'a [u8],
    at: usize,
    code: u8,
    features: WasmFeatures,
) -> Option<(Result<(), Refusal>, usize)>
    requires { Begins bytes.now at code }
    ensures told { IfSome result (λ r. IsTold features.0 bytes.now at r.1 (λ o.
        Visits (R.meaning visitor.old.resources.now) visitor.old.inner.now o (refused r.0) visitor.new.inner.now
        × (visitor.new.inner.ghost_name ≡ visitor.old.inner.ghost_name)
        × (visitor.new.resources.now ≡ visitor.old.resources.now))) }
    ensures none { IfNone result (visitor.new ≡ visitor.old) }
{
    short_index(bytes, at, code, features, visitor)
}

/// Of a call through a table.
#[inline(always)]
pub(crate) fn tell_indirect<'a, R: WasmModuleResources>(
    visitor: &mut ValidatingVisitor<'_, '_, R, AsRefusal>,
    bytes: &'a [u8],
    at: usize,
    code: u8,
    features: WasmFeatures,
) -> Option<(Result<(), Refusal>, usize)>
    requires { Begins bytes.now at code }
    ensures told { IfSome result (λ r. IsTold features.0 bytes.now at r.1 (λ o.
        Visits (R.meaning visitor.old.resources.now) visitor.old.inner.now o (refused r.0) visitor.new.inner.now
        × (visitor.new.inner.ghost_name ≡ visitor.old.inner.ghost_name)
        × (visitor.new.resources.now ≡ visitor.old.resources.now))) }
    ensures none { IfNone result (visitor.new ≡ visitor.old) }
{
    short_indirect(bytes, at, code, features, visitor)
}

/// Of a local's value.
#[inline(always)]
pub(crate) fn tell_local_get<'a, R: WasmModuleResources>(
    visitor: &mut ValidatingVisitor<'_, '_, R, AsRefusal>,
    bytes: &'a [u8],
    at: usize,
    features: WasmFeatures,
) -> Option<(Result<(), Refusal>, usize)>
    requires { Begins bytes.now at 0x20 }
    ensures told { IfSome result (λ r. IsTold features.0 bytes.now at r.1 (λ o.
        Visits (R.meaning visitor.old.resources.now) visitor.old.inner.now o (refused r.0) visitor.new.inner.now
        × (visitor.new.inner.ghost_name ≡ visitor.old.inner.ghost_name)
        × (visitor.new.resources.now ≡ visitor.old.resources.now))) }
    ensures none { IfNone result (visitor.new ≡ visitor.old) }
{
    short_local_get(bytes, at, features, visitor)
}

/// Of a local that takes a value.
#[inline(always)]
pub(crate) fn tell_local_set<'a, R: WasmModuleResources>(
    visitor: &mut ValidatingVisitor<'_, '_, R, AsRefusal>,
    bytes: &'a [u8],
    at: usize,
    features: WasmFeatures,
) -> Option<(Result<(), Refusal>, usize)>
    requires { Begins bytes.now at 0x21 }
    ensures told { IfSome result (λ r. IsTold features.0 bytes.now at r.1 (λ o.
        Visits (R.meaning visitor.old.resources.now) visitor.old.inner.now o (refused r.0) visitor.new.inner.now
        × (visitor.new.inner.ghost_name ≡ visitor.old.inner.ghost_name)
        × (visitor.new.resources.now ≡ visitor.old.resources.now))) }
    ensures none { IfNone result (visitor.new ≡ visitor.old) }
{
    short_local_set(bytes, at, features, visitor)
}

/// Of a local that takes a value, which stays.
#[inline(always)]
pub(crate) fn tell_local_tee<'a, R: WasmModuleResources>(
    visitor: &mut ValidatingVisitor<'_, '_, R, AsRefusal>,
    bytes: &'a [u8],
    at: usize,
    features: WasmFeatures,
) -> Option<(Result<(), Refusal>, usize)>
    requires { Begins bytes.now at 0x22 }
    ensures told { IfSome result (λ r. IsTold features.0 bytes.now at r.1 (λ o.
        Visits (R.meaning visitor.old.resources.now) visitor.old.inner.now o (refused r.0) visitor.new.inner.now
        × (visitor.new.inner.ghost_name ≡ visitor.old.inner.ghost_name)
        × (visitor.new.resources.now ≡ visitor.old.resources.now))) }
    ensures none { IfNone result (visitor.new ≡ visitor.old) }
{
    short_local_tee(bytes, at, features, visitor)
}

/// Of one on a global.
#[inline(always)]
pub(crate) fn tell_global<'a, R: WasmModuleResources>(
    visitor: &mut ValidatingVisitor<'_, '_, R, AsRefusal>,
    bytes: &'a [u8],
    at: usize,
    code: u8,
    features: WasmFeatures,
) -> Option<(Result<(), Refusal>, usize)>
    requires { Begins bytes.now at code }
    ensures told { IfSome result (λ r. IsTold features.0 bytes.now at r.1 (λ o.
        Visits (R.meaning visitor.old.resources.now) visitor.old.inner.now o (refused r.0) visitor.new.inner.now
        × (visitor.new.inner.ghost_name ≡ visitor.old.inner.ghost_name)
        × (visitor.new.resources.now ≡ visitor.old.resources.now))) }
    ensures none { IfNone result (visitor.new ≡ visitor.old) }
{
    short_global(bytes, at, code, features, visitor)
}

/// Of a load from memory 0: `load_at`, with a place of its own for the answer, so that none is made ready in the loop.
#[inline(always)]
pub(crate) fn tell_load<'a, R: WasmModuleResources>(
    visitor: &mut ValidatingVisitor<'_, '_, R, AsRefusal>,
    bytes: &'a [u8],
    at: usize,
    code: u8,
    features: WasmFeatures,
) -> Option<(Result<(), Refusal>, usize)>
    requires { Begins bytes.now at code }
    ensures told { IfSome result (λ r. IsTold features.0 bytes.now at r.1 (λ o.
        Visits (R.meaning visitor.old.resources.now) visitor.old.inner.now o (refused r.0) visitor.new.inner.now
        × (visitor.new.inner.ghost_name ≡ visitor.old.inner.ghost_name)
        × (visitor.new.resources.now ≡ visitor.old.resources.now))) }
    ensures none { IfNone result (visitor.new ≡ visitor.old) }
{
    let Some((answer, end)) = load_at(visitor, bytes, at, code, features) else {
        return None;
    };
    Some((answer, end))
}

/// The same, out of line: each of its visits has places of its own.
#[inline(never)]
fn load_at<'a, R: WasmModuleResources>(
    visitor: &mut ValidatingVisitor<'_, '_, R, AsRefusal>,
    bytes: &'a [u8],
    at: usize,
    code: u8,
    features: WasmFeatures,
) -> Option<(Result<(), Refusal>, usize)>
    requires { Begins bytes.now at code }
    ensures told { IfSome result (λ r. IsTold features.0 bytes.now at r.1 (λ o.
        Visits (R.meaning visitor.old.resources.now) visitor.old.inner.now o (refused r.0) visitor.new.inner.now
        × (visitor.new.inner.ghost_name ≡ visitor.old.inner.ghost_name)
        × (visitor.new.resources.now ≡ visitor.old.resources.now))) }
    ensures none { IfNone result (visitor.new ≡ visitor.old) }
{
    let Some((access, end)) = access_at(bytes, at + 1, features) else {
        return None;
    };
    let one = memarg_of(access, 0);
    let two = memarg_of(access, 1);
    let four = memarg_of(access, 2);
    let eight = memarg_of(access, 3);
    match code {
        0x28 => Some((
            visitor.load(
                MemoryOperator::I32Load { memarg: four },
                &four,
                false,
                &ValType::I32,
            ),
            end,
        )),
        0x29 => Some((
            visitor.load(
                MemoryOperator::I64Load { memarg: eight },
                &eight,
                false,
                &ValType::I64,
            ),
            end,
        )),
        0x2a => Some((
            visitor.load(
                MemoryOperator::F32Load { memarg: four },
                &four,
                true,
                &ValType::F32,
            ),
            end,
        )),
        0x2b => Some((
            visitor.load(
                MemoryOperator::F64Load { memarg: eight },
                &eight,
                true,
                &ValType::F64,
            ),
            end,
        )),
        0x2c => Some((
            visitor.load(
                MemoryOperator::I32Load8S { memarg: one },
                &one,
                false,
                &ValType::I32,
            ),
            end,
        )),
        0x2d => Some((
            visitor.load(
                MemoryOperator::I32Load8U { memarg: one },
                &one,
                false,
                &ValType::I32,
            ),
            end,
        )),
        0x2e => Some((
            visitor.load(
                MemoryOperator::I32Load16S { memarg: two },
                &two,
                false,
                &ValType::I32,
            ),
            end,
        )),
        0x2f => Some((
            visitor.load(
                MemoryOperator::I32Load16U { memarg: two },
                &two,
                false,
                &ValType::I32,
            ),
            end,
        )),
        0x30 => Some((
            visitor.load(
                MemoryOperator::I64Load8S { memarg: one },
                &one,
                false,
                &ValType::I64,
            ),
            end,
        )),
        0x31 => Some((
            visitor.load(
                MemoryOperator::I64Load8U { memarg: one },
                &one,
                false,
                &ValType::I64,
            ),
            end,
        )),
        0x32 => Some((
            visitor.load(
                MemoryOperator::I64Load16S { memarg: two },
                &two,
                false,
                &ValType::I64,
            ),
            end,
        )),
        0x33 => Some((
            visitor.load(
                MemoryOperator::I64Load16U { memarg: two },
                &two,
                false,
                &ValType::I64,
            ),
            end,
        )),
        0x34 => Some((
            visitor.load(
                MemoryOperator::I64Load32S { memarg: four },
                &four,
                false,
                &ValType::I64,
            ),
            end,
        )),
        0x35 => Some((
            visitor.load(
                MemoryOperator::I64Load32U { memarg: four },
                &four,
                false,
                &ValType::I64,
            ),
            end,
        )),
        _ => None,
    }
}

/// Of a store to memory 0: `store_at`, with a place of its own for the answer, so that none is made ready in the loop.
#[inline(always)]
pub(crate) fn tell_store<'a, R: WasmModuleResources>(
    visitor: &mut ValidatingVisitor<'_, '_, R, AsRefusal>,
    bytes: &'a [u8],
    at: usize,
    code: u8,
    features: WasmFeatures,
) -> Option<(Result<(), Refusal>, usize)>
    requires { Begins bytes.now at code }
    ensures told { IfSome result (λ r. IsTold features.0 bytes.now at r.1 (λ o.
        Visits (R.meaning visitor.old.resources.now) visitor.old.inner.now o (refused r.0) visitor.new.inner.now
        × (visitor.new.inner.ghost_name ≡ visitor.old.inner.ghost_name)
        × (visitor.new.resources.now ≡ visitor.old.resources.now))) }
    ensures none { IfNone result (visitor.new ≡ visitor.old) }
{
    let Some((answer, end)) = store_at(visitor, bytes, at, code, features) else {
        return None;
    };
    Some((answer, end))
}

/// The same, out of line: each of its visits has places of its own.
#[inline(never)]
fn store_at<'a, R: WasmModuleResources>(
    visitor: &mut ValidatingVisitor<'_, '_, R, AsRefusal>,
    bytes: &'a [u8],
    at: usize,
    code: u8,
    features: WasmFeatures,
) -> Option<(Result<(), Refusal>, usize)>
    requires { Begins bytes.now at code }
    ensures told { IfSome result (λ r. IsTold features.0 bytes.now at r.1 (λ o.
        Visits (R.meaning visitor.old.resources.now) visitor.old.inner.now o (refused r.0) visitor.new.inner.now
        × (visitor.new.inner.ghost_name ≡ visitor.old.inner.ghost_name)
        × (visitor.new.resources.now ≡ visitor.old.resources.now))) }
    ensures none { IfNone result (visitor.new ≡ visitor.old) }
{
    let Some((access, end)) = access_at(bytes, at + 1, features) else {
        return None;
    };
    let one = memarg_of(access, 0);
    let two = memarg_of(access, 1);
    let four = memarg_of(access, 2);
    let eight = memarg_of(access, 3);
    match code {
        0x36 => Some((
            visitor.store(
                MemoryOperator::I32Store { memarg: four },
                &four,
                false,
                &ValType::I32,
            ),
            end,
        )),
        0x37 => Some((
            visitor.store(
                MemoryOperator::I64Store { memarg: eight },
                &eight,
                false,
                &ValType::I64,
            ),
            end,
        )),
        0x38 => Some((
            visitor.store(
                MemoryOperator::F32Store { memarg: four },
                &four,
                true,
                &ValType::F32,
            ),
            end,
        )),
        0x39 => Some((
            visitor.store(
                MemoryOperator::F64Store { memarg: eight },
                &eight,
                true,
                &ValType::F64,
            ),
            end,
        )),
        0x3a => Some((
            visitor.store(
                MemoryOperator::I32Store8 { memarg: one },
                &one,
                false,
                &ValType::I32,
            ),
            end,
        )),
        0x3b => Some((
            visitor.store(
                MemoryOperator::I32Store16 { memarg: two },
                &two,
                false,
                &ValType::I32,
            ),
            end,
        )),
        0x3c => Some((
            visitor.store(
                MemoryOperator::I64Store8 { memarg: one },
                &one,
                false,
                &ValType::I64,
            ),
            end,
        )),
        0x3d => Some((
            visitor.store(
                MemoryOperator::I64Store16 { memarg: two },
                &two,
                false,
                &ValType::I64,
            ),
            end,
        )),
        0x3e => Some((
            visitor.store(
                MemoryOperator::I64Store32 { memarg: four },
                &four,
                false,
                &ValType::I64,
            ),
            end,
        )),
        _ => None,
    }
}

/// Of the size of memory 0, or its growth.
#[inline(always)]
pub(crate) fn tell_memory_size<'a, R: WasmModuleResources>(
    visitor: &mut ValidatingVisitor<'_, '_, R, AsRefusal>,
    bytes: &'a [u8],
    at: usize,
    code: u8,
    features: WasmFeatures,
) -> Option<(Result<(), Refusal>, usize)>
    requires { Begins bytes.now at code }
    ensures told { IfSome result (λ r. IsTold features.0 bytes.now at r.1 (λ o.
        Visits (R.meaning visitor.old.resources.now) visitor.old.inner.now o (refused r.0) visitor.new.inner.now
        × (visitor.new.inner.ghost_name ≡ visitor.old.inner.ghost_name)
        × (visitor.new.resources.now ≡ visitor.old.resources.now))) }
    ensures none { IfNone result (visitor.new ≡ visitor.old) }
{
    short_memory_size(bytes, at, code, features, visitor)
}

/// Of a constant of type i32.
#[inline(always)]
pub(crate) fn tell_i32_const<'a, R: WasmModuleResources>(
    visitor: &mut ValidatingVisitor<'_, '_, R, AsRefusal>,
    bytes: &'a [u8],
    at: usize,
    code: u8,
    features: WasmFeatures,
) -> Option<(Result<(), Refusal>, usize)>
    requires { Begins bytes.now at code }
    ensures told { IfSome result (λ r. IsTold features.0 bytes.now at r.1 (λ o.
        Visits (R.meaning visitor.old.resources.now) visitor.old.inner.now o (refused r.0) visitor.new.inner.now
        × (visitor.new.inner.ghost_name ≡ visitor.old.inner.ghost_name)
        × (visitor.new.resources.now ≡ visitor.old.resources.now))) }
    ensures none { IfNone result (visitor.new ≡ visitor.old) }
{
    short_i32_const(bytes, at, code, features, visitor)
}

/// Of a constant of type i64.
#[inline(always)]
pub(crate) fn tell_i64_const<'a, R: WasmModuleResources>(
    visitor: &mut ValidatingVisitor<'_, '_, R, AsRefusal>,
    bytes: &'a [u8],
    at: usize,
    code: u8,
    features: WasmFeatures,
) -> Option<(Result<(), Refusal>, usize)>
    requires { Begins bytes.now at code }
    ensures told { IfSome result (λ r. IsTold features.0 bytes.now at r.1 (λ o.
        Visits (R.meaning visitor.old.resources.now) visitor.old.inner.now o (refused r.0) visitor.new.inner.now
        × (visitor.new.inner.ghost_name ≡ visitor.old.inner.ghost_name)
        × (visitor.new.resources.now ≡ visitor.old.resources.now))) }
    ensures none { IfNone result (visitor.new ≡ visitor.old) }
{
    short_i64_const(bytes, at, code, features, visitor)
}

/// Of a constant of type f32.
#[inline(always)]
pub(crate) fn tell_f32_const<'a, R: WasmModuleResources>(
    visitor: &mut ValidatingVisitor<'_, '_, R, AsRefusal>,
    bytes: &'a [u8],
    at: usize,
    code: u8,
    features: WasmFeatures,
) -> Option<(Result<(), Refusal>, usize)>
    requires { Begins bytes.now at code }
    ensures told { IfSome result (λ r. IsTold features.0 bytes.now at r.1 (λ o.
        Visits (R.meaning visitor.old.resources.now) visitor.old.inner.now o (refused r.0) visitor.new.inner.now
        × (visitor.new.inner.ghost_name ≡ visitor.old.inner.ghost_name)
        × (visitor.new.resources.now ≡ visitor.old.resources.now))) }
    ensures none { IfNone result (visitor.new ≡ visitor.old) }
{
    short_f32_const(bytes, at, code, features, visitor)
}

/// Of a constant of type f64.
#[inline(always)]
pub(crate) fn tell_f64_const<'a, R: WasmModuleResources>(
    visitor: &mut ValidatingVisitor<'_, '_, R, AsRefusal>,
    bytes: &'a [u8],
    at: usize,
    code: u8,
    features: WasmFeatures,
) -> Option<(Result<(), Refusal>, usize)>
    requires { Begins bytes.now at code }
    ensures told { IfSome result (λ r. IsTold features.0 bytes.now at r.1 (λ o.
        Visits (R.meaning visitor.old.resources.now) visitor.old.inner.now o (refused r.0) visitor.new.inner.now
        × (visitor.new.inner.ghost_name ≡ visitor.old.inner.ghost_name)
        × (visitor.new.resources.now ≡ visitor.old.resources.now))) }
    ensures none { IfNone result (visitor.new ≡ visitor.old) }
{
    short_f64_const(bytes, at, code, features, visitor)
}

/// Of one on numbers.
#[inline(always)]
pub(crate) fn tell_number<'a, R: WasmModuleResources>(
    visitor: &mut ValidatingVisitor<'_, '_, R, AsRefusal>,
    bytes: &'a [u8],
    at: usize,
    code: u8,
    features: WasmFeatures,
) -> Option<(Result<(), Refusal>, usize)>
    requires begins { Begins bytes.now at code }
    requires low { code < 0xfb }
    ensures told { IfSome result (λ r. IsTold features.0 bytes.now at r.1 (λ o.
        Visits (R.meaning visitor.old.resources.now) visitor.old.inner.now o (refused r.0) visitor.new.inner.now
        × (visitor.new.inner.ghost_name ≡ visitor.old.inner.ghost_name)
        × (visitor.new.resources.now ≡ visitor.old.resources.now))) }
    ensures none { IfNone result (visitor.new ≡ visitor.old) }
{
    short_number(bytes, at, code, features, visitor)
}

/// Of one behind the prefix `fc`: `prefixed_at`, with a place of its own for the answer, so that none is made ready in the loop.
#[inline(always)]
pub(crate) fn tell_prefixed<'a, R: WasmModuleResources>(
    visitor: &mut ValidatingVisitor<'_, '_, R, AsRefusal>,
    bytes: &'a [u8],
    at: usize,
    features: WasmFeatures,
) -> Option<(Result<(), Refusal>, usize)>
    requires { Begins bytes.now at 0xfc }
    ensures told { IfSome result (λ r. IsTold features.0 bytes.now at r.1 (λ o.
        Visits (R.meaning visitor.old.resources.now) visitor.old.inner.now o (refused r.0) visitor.new.inner.now
        × (visitor.new.inner.ghost_name ≡ visitor.old.inner.ghost_name)
        × (visitor.new.resources.now ≡ visitor.old.resources.now))) }
    ensures none { IfNone result (visitor.new ≡ visitor.old) }
{
    let Some((answer, end)) = prefixed_at(visitor, bytes, at, features) else {
        return None;
    };
    Some((answer, end))
}

/// The same, out of line.
#[inline(never)]
fn prefixed_at<'a, R: WasmModuleResources>(
    visitor: &mut ValidatingVisitor<'_, '_, R, AsRefusal>,
    bytes: &'a [u8],
    at: usize,
    features: WasmFeatures,
) -> Option<(Result<(), Refusal>, usize)>
    requires { Begins bytes.now at 0xfc }
    ensures told { IfSome result (λ r. IsTold features.0 bytes.now at r.1 (λ o.
        Visits (R.meaning visitor.old.resources.now) visitor.old.inner.now o (refused r.0) visitor.new.inner.now
        × (visitor.new.inner.ghost_name ≡ visitor.old.inner.ghost_name)
        × (visitor.new.resources.now ≡ visitor.old.resources.now))) }
    ensures none { IfNone result (visitor.new ≡ visitor.old) }
{
    short_prefixed(bytes, at, features, visitor)
}
