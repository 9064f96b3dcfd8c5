//! The test of one operator.

ghost use Rattle.std.specs.Prelude.{◌≡◌, ℕ, false, IfOk, IfErr};
ghost use Rattle.wasm_operators_enums.specs.Op.{Op, op_of};
ghost use Rattle.wasm_operator_validator_rules.specs.constants.Constants.{IsConstantOperator};
ghost use Rattle.wasm_operator_validator_constants.specs.Operators.{global_read, is_sum, is_object, is_described, is_reference};
ghost use Rattle.wasm_operator_validator_constants.specs.Operators.{is_vector, is_shared_number, ends_frame, is_listed, is_allowed};
ghost use Rattle.wasm_operator_validator_constants.specs.Operators.{allowing, IsOf, RefusesOperator};

use crate::ConstantRefusal;
use crate::globals::check_global;
use wasm_operator_validator_stacks::{BulkOperator, MemoryOperator, WasmModuleResources};
use wasm_operators_reader::walks::{
    ControlOperator, DescriptorOperator, GcOperator, NumericOperator, Operator, SharedOperator,
};
use wasm_operators_reader::{ParametricOperator, SimdOperator};
use wasm_types::WasmFeatures;

/// Whether an operator is constant, by these features, in this module, of whose globals the first so many are imported (WebAssembly
/// 3.0, validation, constant expressions).
///
/// # Errors
///
/// The operator is constant by no features, or not by these; or it reads a global that the module does not have, that is the module's
/// own while garbage collection is off, or that may be written.
pub fn is_constant_operator<R: WasmModuleResources>(
    op: &Operator<'_>,
    features: WasmFeatures,
    resources: &R,
    imported_globals: u32,
) -> Result<(), ConstantRefusal>
    ensures constant { IfOk result (λ _. IsConstantOperator features.0
        (R.meaning resources.now).«module» imported_globals (op_of op.now)) }
    ensures refused { IfErr result (λ r. IsConstantOperator features.0
        (R.meaning resources.now).«module» imported_globals (op_of op.now) → ⊥) }
    ensures why { IfErr result (λ r. RefusesOperator features.0 (R.meaning resources.now).«module» imported_globals
        (op_of op.now) r) }
{
    if let Some(global_index) = global_read(op) {
        return check_global(global_index, features, resources, imported_globals);
    }
    if !is_listed(op) {
        return Err(ConstantRefusal::NonConstant {
            name: visit_name(op),
        });
    }
    if !is_allowed(op, features) {
        return Err(ConstantRefusal::NotEnabled {
            feature: feature_of(op),
            name: op.info().name,
        });
    }
    Ok(())
}

/// The name of an operator's visit, with `.` for some `_`.
fn visit_name(op: &Operator<'_>) -> &'static str {
    match op {
        Operator::Parametric(ParametricOperator::TypedSelect { .. }) => "typed_select",
        Operator::Parametric(ParametricOperator::TypedSelectMulti { .. }) => "typed_select_multi",
        Operator::Gc(GcOperator::RefTestNonNull { .. }) => "ref_test_non_null",
        Operator::Gc(GcOperator::RefTestNullable { .. }) => "ref_test_nullable",
        Operator::Gc(GcOperator::RefCastNonNull { .. }) => "ref_cast_non_null",
        Operator::Gc(GcOperator::RefCastNullable { .. }) => "ref_cast_nullable",
        Operator::Descriptor(DescriptorOperator::RefCastDescEqNonNull { .. }) => {
            "ref_cast_desc_eq_non_null"
        }
        Operator::Descriptor(DescriptorOperator::RefCastDescEqNullable { .. }) => {
            "ref_cast_desc_eq_nullable"
        }
        _ => op.info().name,
    }
}

/// The global that an operator reads.
fn global_read(op: &Operator<'_>) -> Option<u32>
    ensures { result ≡ global_read (op_of op.now) }
{
    match op {
        Operator::Memory(op) => global_got(op),
        Operator::Control(_) | Operator::Parametric(_) | Operator::Exception(_) => None,
        Operator::Const(_) | Operator::Numeric(_) | Operator::Bulk(_) => None,
        Operator::Gc(_) | Operator::Descriptor(_) => None,
        Operator::Simd(_) | Operator::SimdNumeric(_) => None,
        Operator::Atomic(_) | Operator::Shared(_) | Operator::Continuation(_) => None,
    }
}

fn global_got(op: &MemoryOperator) -> Option<u32>
    ensures { result ≡ global_read (Op.Memory op.now) }
{
    match op {
        MemoryOperator::GlobalGet { global_index } => Some(*global_index),
        _ => None,
    }
}

/// Whether an operator is constant by some features, apart from those that read a global.
fn is_listed(op: &Operator<'_>) -> bool
    ensures { result ≡ is_listed (op_of op.now) }
{
    match op {
        Operator::Const(_) => true,
        Operator::Numeric(op) => is_sum(op),
        Operator::Bulk(op) => is_reference(op),
        Operator::Gc(op) => is_object(op),
        Operator::Descriptor(op) => is_described(op),
        Operator::Shared(op) => is_shared_number(op),
        Operator::Control(op) => ends_frame(op),
        Operator::Simd(op) => is_vector(op),
        Operator::Parametric(_) | Operator::Exception(_) | Operator::Memory(_) => false,
        Operator::SimdNumeric(_) => false,
        Operator::Atomic(_) | Operator::Continuation(_) => false,
    }
}

/// Whether these features allow an operator in a constant that is constant by some.
fn is_allowed(op: &Operator<'_>, features: WasmFeatures) -> bool
    ensures { result ≡ is_allowed features.0 (op_of op.now) }
{
    match op {
        Operator::Numeric(_) => features.extended_const(),
        Operator::Gc(_) | Operator::Descriptor(_) => features.gc(),
        Operator::Shared(_) => features.shared_everything_threads(),
        Operator::Control(_) | Operator::Parametric(_) | Operator::Exception(_) => true,
        Operator::Memory(_) | Operator::Const(_) | Operator::Bulk(_) => true,
        Operator::Simd(_) | Operator::SimdNumeric(_) => true,
        Operator::Atomic(_) | Operator::Continuation(_) => true,
    }
}

/// The feature by which an operator is constant, where it is by one alone.
fn feature_of(op: &Operator<'_>) -> WasmFeatures
    ensures { IsOf (allowing (op_of op.now)) result }
{
    match op {
        Operator::Numeric(_) => WasmFeatures::EXTENDED_CONST,
        Operator::Gc(_) | Operator::Descriptor(_) => WasmFeatures::GC,
        Operator::Shared(_) => WasmFeatures::SHARED_EVERYTHING_THREADS,
        Operator::Control(_) | Operator::Parametric(_) | Operator::Exception(_) => WasmFeatures::GC,
        Operator::Memory(_) | Operator::Const(_) | Operator::Bulk(_) => WasmFeatures::GC,
        Operator::Simd(_) | Operator::SimdNumeric(_) => WasmFeatures::GC,
        Operator::Atomic(_) | Operator::Continuation(_) => WasmFeatures::GC,
    }
}

/// Sums, differences and products of integers.
fn is_sum(op: &NumericOperator) -> bool
    ensures { result ≡ is_sum op.now }
{
    matches!(
        op,
        NumericOperator::I32Add
            | NumericOperator::I32Sub
            | NumericOperator::I32Mul
            | NumericOperator::I64Add
            | NumericOperator::I64Sub
            | NumericOperator::I64Mul
    )
}

/// New structs and arrays, and references made of other values.
fn is_object(op: &GcOperator) -> bool
    ensures { result ≡ is_object op.now }
{
    matches!(
        op,
        GcOperator::StructNew { .. }
            | GcOperator::StructNewDefault { .. }
            | GcOperator::ArrayNew { .. }
            | GcOperator::ArrayNewDefault { .. }
            | GcOperator::ArrayNewFixed { .. }
            | GcOperator::RefI31
            | GcOperator::AnyConvertExtern
            | GcOperator::ExternConvertAny
    )
}

/// New structs with descriptors.
fn is_described(op: &DescriptorOperator) -> bool
    ensures { result ≡ is_described op.now }
{
    matches!(
        op,
        DescriptorOperator::StructNewDesc { .. } | DescriptorOperator::StructNewDefaultDesc { .. }
    )
}

/// Null, and a reference to a function.
fn is_reference(op: &BulkOperator) -> bool
    ensures { result ≡ is_reference op.now }
{
    matches!(
        op,
        BulkOperator::RefNull { .. } | BulkOperator::RefFunc { .. }
    )
}

/// A shared reference to a number.
fn is_shared_number(op: &SharedOperator) -> bool
    ensures { result ≡ is_shared_number op.now }
{
    matches!(op, SharedOperator::RefI31Shared)
}

/// A vector.
fn is_vector(op: &SimdOperator) -> bool
    ensures { result ≡ is_vector op.now }
{
    matches!(op, SimdOperator::V128Const { .. })
}

/// `end`.
fn ends_frame(op: &ControlOperator<'_>) -> bool
    ensures { result ≡ ends_frame op.now }
{
    matches!(op, ControlOperator::End)
}
