//! The visitor told of an operator, each group in a function of its own.
//!
//! That a type has the visits of a group is checked in every function that calls a generic one with it, visit by visit. In one function
//! the visits of all groups are more than the check of a declaration may take.

ghost use Rattle.std.specs.Prelude.{◌≡◌};
ghost use Rattle.wasm_operators_enums.specs.Op.{Op, parametric_of, exception_of, continuation_of};
ghost use Rattle.wasm_operator_validator_state.specs.State.{Visits};
ghost use Rattle.wasm_operator_validator_state.specs.Refusals.{refused};

use wasm_operator_validator_stacks::{Refusal, WasmModuleResources};
use wasm_operator_validator_visits::{AsRefusal, ValidatingVisitor};
use wasm_operators_visit::{
    AtomicOperator, BulkOperator, ConstOperator, ContinuationOperator, ControlOperator,
    DescriptorOperator, ExceptionOperator, GcOperator, MemoryOperator, NumericOperator,
    ParametricOperator, SharedOperator, SimdNumericOperator, SimdOperator,
};
use wasm_operators_visit_operator::{
    visit_atomic, visit_bulk, visit_const, visit_continuation, visit_control, visit_descriptor,
    visit_exception, visit_gc, visit_memory, visit_numeric, visit_parametric, visit_shared,
};

/// Of control, branches and calls.
#[inline]
pub(crate) fn tell_control<'a, R: WasmModuleResources>(
    visitor: &mut ValidatingVisitor<'_, '_, R, AsRefusal>,
    op: ControlOperator<'a>,
) -> Result<(), Refusal>
    ensures visits { Visits (R.meaning visitor.old.resources.now) visitor.old.inner.now (Op.Control op.entry)
        (refused result) visitor.new.inner.now }
    ensures lent { visitor.new.inner.ghost_name ≡ visitor.old.inner.ghost_name }
    ensures resources { visitor.new.resources.now ≡ visitor.old.resources.now }
{
    visit_control(visitor, op)
}

/// Of operands of any type.
#[inline]
pub(crate) fn tell_parametric<R: WasmModuleResources>(
    visitor: &mut ValidatingVisitor<'_, '_, R, AsRefusal>,
    op: ParametricOperator,
) -> Result<(), Refusal>
    ensures visits { Visits (R.meaning visitor.old.resources.now) visitor.old.inner.now
        (Op.Parametric (parametric_of op)) (refused result) visitor.new.inner.now }
    ensures lent { visitor.new.inner.ghost_name ≡ visitor.old.inner.ghost_name }
    ensures resources { visitor.new.resources.now ≡ visitor.old.resources.now }
{
    visit_parametric(visitor, op)
}

/// Of exceptions.
#[inline]
pub(crate) fn tell_exception<R: WasmModuleResources>(
    visitor: &mut ValidatingVisitor<'_, '_, R, AsRefusal>,
    op: ExceptionOperator,
) -> Result<(), Refusal>
    ensures visits { Visits (R.meaning visitor.old.resources.now) visitor.old.inner.now (Op.Exception (exception_of op))
        (refused result) visitor.new.inner.now }
    ensures lent { visitor.new.inner.ghost_name ≡ visitor.old.inner.ghost_name }
    ensures resources { visitor.new.resources.now ≡ visitor.old.resources.now }
{
    visit_exception(visitor, op)
}

/// Of continuations.
#[inline]
pub(crate) fn tell_continuation<R: WasmModuleResources>(
    visitor: &mut ValidatingVisitor<'_, '_, R, AsRefusal>,
    op: ContinuationOperator,
) -> Result<(), Refusal>
    ensures visits { Visits (R.meaning visitor.old.resources.now) visitor.old.inner.now
        (Op.Continuation (continuation_of op)) (refused result) visitor.new.inner.now }
    ensures lent { visitor.new.inner.ghost_name ≡ visitor.old.inner.ghost_name }
    ensures resources { visitor.new.resources.now ≡ visitor.old.resources.now }
{
    visit_continuation(visitor, op)
}

/// Of variables and memories.
#[inline]
pub(crate) fn tell_memory<R: WasmModuleResources>(
    visitor: &mut ValidatingVisitor<'_, '_, R, AsRefusal>,
    op: MemoryOperator,
) -> Result<(), Refusal>
    ensures visits { Visits (R.meaning visitor.old.resources.now) visitor.old.inner.now (Op.Memory op)
        (refused result) visitor.new.inner.now }
    ensures lent { visitor.new.inner.ghost_name ≡ visitor.old.inner.ghost_name }
    ensures resources { visitor.new.resources.now ≡ visitor.old.resources.now }
{
    visit_memory(visitor, op)
}

/// Of constants.
#[inline]
pub(crate) fn tell_const<R: WasmModuleResources>(
    visitor: &mut ValidatingVisitor<'_, '_, R, AsRefusal>,
    op: ConstOperator,
) -> Result<(), Refusal>
    ensures visits { Visits (R.meaning visitor.old.resources.now) visitor.old.inner.now (Op.Const op)
        (refused result) visitor.new.inner.now }
    ensures lent { visitor.new.inner.ghost_name ≡ visitor.old.inner.ghost_name }
    ensures resources { visitor.new.resources.now ≡ visitor.old.resources.now }
{
    visit_const(visitor, op)
}

/// Of ranges of memories and tables, tables and references.
#[inline]
pub(crate) fn tell_bulk<R: WasmModuleResources>(
    visitor: &mut ValidatingVisitor<'_, '_, R, AsRefusal>,
    op: BulkOperator,
) -> Result<(), Refusal>
    ensures visits { Visits (R.meaning visitor.old.resources.now) visitor.old.inner.now (Op.Bulk op)
        (refused result) visitor.new.inner.now }
    ensures lent { visitor.new.inner.ghost_name ≡ visitor.old.inner.ghost_name }
    ensures resources { visitor.new.resources.now ≡ visitor.old.resources.now }
{
    visit_bulk(visitor, op)
}

/// Of numbers.
#[inline]
pub(crate) fn tell_numeric<R: WasmModuleResources>(
    visitor: &mut ValidatingVisitor<'_, '_, R, AsRefusal>,
    op: NumericOperator,
) -> Result<(), Refusal>
    ensures visits { Visits (R.meaning visitor.old.resources.now) visitor.old.inner.now (Op.Numeric op)
        (refused result) visitor.new.inner.now }
    ensures lent { visitor.new.inner.ghost_name ≡ visitor.old.inner.ghost_name }
    ensures resources { visitor.new.resources.now ≡ visitor.old.resources.now }
{
    visit_numeric(visitor, op)
}

/// Of structs, arrays and casts.
#[inline]
pub(crate) fn tell_gc<R: WasmModuleResources>(
    visitor: &mut ValidatingVisitor<'_, '_, R, AsRefusal>,
    op: GcOperator,
) -> Result<(), Refusal>
    ensures visits { Visits (R.meaning visitor.old.resources.now) visitor.old.inner.now (Op.Gc op)
        (refused result) visitor.new.inner.now }
    ensures lent { visitor.new.inner.ghost_name ≡ visitor.old.inner.ghost_name }
    ensures resources { visitor.new.resources.now ≡ visitor.old.resources.now }
{
    visit_gc(visitor, op)
}

/// Of structs with descriptors.
#[inline]
pub(crate) fn tell_descriptor<R: WasmModuleResources>(
    visitor: &mut ValidatingVisitor<'_, '_, R, AsRefusal>,
    op: DescriptorOperator,
) -> Result<(), Refusal>
    ensures visits { Visits (R.meaning visitor.old.resources.now) visitor.old.inner.now (Op.Descriptor op)
        (refused result) visitor.new.inner.now }
    ensures lent { visitor.new.inner.ghost_name ≡ visitor.old.inner.ghost_name }
    ensures resources { visitor.new.resources.now ≡ visitor.old.resources.now }
{
    visit_descriptor(visitor, op)
}

/// Of atomic accesses to memories.
#[inline]
pub(crate) fn tell_atomic<R: WasmModuleResources>(
    visitor: &mut ValidatingVisitor<'_, '_, R, AsRefusal>,
    op: AtomicOperator,
) -> Result<(), Refusal>
    ensures visits { Visits (R.meaning visitor.old.resources.now) visitor.old.inner.now (Op.Atomic op)
        (refused result) visitor.new.inner.now }
    ensures lent { visitor.new.inner.ghost_name ≡ visitor.old.inner.ghost_name }
    ensures resources { visitor.new.resources.now ≡ visitor.old.resources.now }
{
    visit_atomic(visitor, op)
}

/// Of the other atomic accesses.
#[inline]
pub(crate) fn tell_shared<R: WasmModuleResources>(
    visitor: &mut ValidatingVisitor<'_, '_, R, AsRefusal>,
    op: SharedOperator,
) -> Result<(), Refusal>
    ensures visits { Visits (R.meaning visitor.old.resources.now) visitor.old.inner.now (Op.Shared op)
        (refused result) visitor.new.inner.now }
    ensures lent { visitor.new.inner.ghost_name ≡ visitor.old.inner.ghost_name }
    ensures resources { visitor.new.resources.now ≡ visitor.old.resources.now }
{
    visit_shared(visitor, op)
}

/// Of vectors, with what they carry.
#[inline]
pub(crate) fn tell_simd<R: WasmModuleResources>(
    visitor: &mut ValidatingVisitor<'_, '_, R, AsRefusal>,
    op: SimdOperator,
) -> Result<(), Refusal>
    ensures visits { Visits (R.meaning visitor.old.resources.now) visitor.old.inner.now (Op.Simd op)
        (refused result) visitor.new.inner.now }
    ensures lent { visitor.new.inner.ghost_name ≡ visitor.old.inner.ghost_name }
    ensures resources { visitor.new.resources.now ≡ visitor.old.resources.now }
{
    visitor.simd(op)
}

/// Of vectors, without.
#[inline]
pub(crate) fn tell_simd_numeric<R: WasmModuleResources>(
    visitor: &mut ValidatingVisitor<'_, '_, R, AsRefusal>,
    op: SimdNumericOperator,
) -> Result<(), Refusal>
    ensures visits { Visits (R.meaning visitor.old.resources.now) visitor.old.inner.now (Op.SimdNumeric op)
        (refused result) visitor.new.inner.now }
    ensures lent { visitor.new.inner.ghost_name ≡ visitor.old.inner.ghost_name }
    ensures resources { visitor.new.resources.now ≡ visitor.old.resources.now }
{
    visitor.simd_numeric(op)
}
