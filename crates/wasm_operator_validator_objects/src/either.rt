//! Operators on references of one kind, in either sharedness.

ghost use Rattle.std.specs.Prelude.{◌↔◌, Bool, IsTrue};
ghost use Rattle.wasm_types.specs.values.declared.heap.AbstractHeapType.TheVariants.{I31};
ghost use Rattle.wasm_operator_validator_rules.specs.Operands.{known};
ghost use Rattle.wasm_operators_enums.specs.Op.{Op};
ghost use Rattle.wasm_operator_validator_state.specs.Refusals.{refused};
ghost use Rattle.wasm_operator_validator_state.specs.State.{Checks};
ghost use Rattle.wasm_operator_validator_state.specs.State.{Stands};
ghost use Rattle.wasm_operator_validator_objects.specs.Rows.{TakesEither, nullable_to};
ghost use Rattle.wasm_operator_validator_objects.specs.Either.{AreOf};

use crate::naming::abstract_reference;
use crate::steps::begin;
use wasm_operator_validator_stacks::determined::{
    MaybeType, OperatorValidator, Refusal, WasmModuleResources, is_fit,
};
use wasm_operators_visit::GcOperator;
use wasm_types::{AbstractHeapType, ValType};

/// `array.len`.
pub fn check_array_len<R: WasmModuleResources>(
    validator: &mut OperatorValidator,
    resources: &R,
) -> Result<(), Refusal>
    ensures { Checks (R.meaning resources.now) validator.old (Op.Gc GcOperator.ArrayLen)
        (refused result) validator.new }
{
    check_measure(
        validator,
        resources,
        GcOperator::ArrayLen,
        AbstractHeapType::Array,
    )
}

/// `i31.get_s` and `i31.get_u`.
pub fn check_i31_get<R: WasmModuleResources>(
    validator: &mut OperatorValidator,
    resources: &R,
    op: GcOperator,
) -> Result<(), Refusal>
    requires { TakesEither op I31 }
    ensures { Checks (R.meaning resources.now) validator.old (Op.Gc op) (refused result) validator.new }
{
    check_measure(validator, resources, op, AbstractHeapType::I31)
}

// A number is taken out of a reference to this kind.
fn check_measure<R: WasmModuleResources>(
    validator: &mut OperatorValidator,
    resources: &R,
    op: GcOperator,
    kind: AbstractHeapType,
) -> Result<(), Refusal>
    requires { TakesEither op kind }
    ensures { Checks (R.meaning resources.now) validator.old (Op.Gc op) (refused result) validator.new }
{
    match begin(validator, resources, &op) {
        Ok(()) => (),
        Err(refusal) => return Err(refusal),
    }
    let found = match validator.pop_any() {
        Ok(found) => found,
        Err(refusal) => return Err(refusal),
    };
    if !is_either(resources, &found, kind) {
        return Err(Refusal::NotOfKind {
            expected: abstract_reference(true, false, kind),
            found,
        });
    }
    validator.push_operands(resources, &[ValType::I32])
}

/// `ref.eq`, of two references that are both shared or both not.
pub fn check_ref_eq<R: WasmModuleResources>(
    validator: &mut OperatorValidator,
    resources: &R,
) -> Result<(), Refusal>
    ensures { Checks (R.meaning resources.now) validator.old (Op.Gc GcOperator.RefEq) (refused result) validator.new }
{
    let op = GcOperator::RefEq;
    match begin(validator, resources, &op) {
        Ok(()) => (),
        Err(refusal) => return Err(refusal),
    }
    let second = match validator.pop_any() {
        Ok(second) => second,
        Err(refusal) => return Err(refusal),
    };
    if !is_either(resources, &second, AbstractHeapType::Eq) {
        return Err(Refusal::NotOfKind {
            expected: abstract_reference(true, false, AbstractHeapType::Eq),
            found: second,
        });
    }
    let first = match validator.pop_any() {
        Ok(first) => first,
        Err(refusal) => return Err(refusal),
    };
    if !are_comparable(resources, &first, &second) {
        return Err(Refusal::NotOfKind {
            expected: abstract_reference(true, false, AbstractHeapType::Eq),
            found: first,
        });
    }
    validator.push_operands(resources, &[ValType::I32])
}

/// Whether what is known of an operand may be taken for a reference to this kind.
pub(crate) fn is_of_kind<R: WasmModuleResources>(
    resources: &R,
    found: &MaybeType,
    shared: bool,
    kind: AbstractHeapType,
) -> bool
    ensures { IsTrue result ↔ Stands (R.meaning resources.now) found.now (known (nullable_to kind shared)) }
{
    is_fit(resources, found, &abstract_reference(true, shared, kind))
}

// The same in either sharedness.
fn is_either<R: WasmModuleResources>(
    resources: &R,
    found: &MaybeType,
    kind: AbstractHeapType,
) -> bool
    ensures { IsTrue result ↔ (s : Bool) × Stands (R.meaning resources.now) found.now (known (nullable_to kind s)) }
{
    if is_of_kind(resources, found, false, kind) {
        return true;
    }
    is_of_kind(resources, found, true, kind)
}

// Whether both may be taken for references that can be compared, both shared or both not.
fn are_comparable<R: WasmModuleResources>(
    resources: &R,
    first: &MaybeType,
    second: &MaybeType,
) -> bool
    ensures { IsTrue result ↔ (s : Bool) × AreOf (R.meaning resources.now) first.now second.now s }
{
    if are_of(resources, first, second, false) {
        return true;
    }
    are_of(resources, first, second, true)
}

fn are_of<R: WasmModuleResources>(
    resources: &R,
    first: &MaybeType,
    second: &MaybeType,
    shared: bool,
) -> bool
    ensures { IsTrue result ↔ AreOf (R.meaning resources.now) first.now second.now shared }
{
    if !is_of_kind(resources, first, shared, AbstractHeapType::Eq) {
        return false;
    }
    is_of_kind(resources, second, shared, AbstractHeapType::Eq)
}
