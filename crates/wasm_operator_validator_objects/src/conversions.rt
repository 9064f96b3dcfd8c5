//! Conversions between references of the module and references of the host.

ghost use Rattle.std.specs.Prelude.{MatchOption};
ghost use Rattle.wasm_operators_enums.specs.Op.{Op};
ghost use Rattle.wasm_operator_validator_state.specs.Refusals.{refused};
ghost use Rattle.wasm_operator_validator_state.specs.State.{Checks};
ghost use Rattle.wasm_operator_validator_objects.specs.Rows.{Converts};
ghost use Rattle.wasm_operator_validator_objects.specs.Either.{IsConverted, IsUnconvertible};

use crate::either::is_of_kind;
use crate::naming::abstract_reference;
use crate::steps::begin;
use wasm_operator_validator_resources::laws::types_are_sound;
use wasm_operator_validator_stacks::determined::{
    MaybeType, OperatorValidator, Refusal, WasmModuleResources,
};
use wasm_operators_visit::GcOperator;
use wasm_types::{AbstractHeapType, ValType};

/// `any.convert_extern`.
pub fn check_any_convert_extern<R: WasmModuleResources>(
    validator: &mut OperatorValidator,
    resources: &R,
) -> Result<(), Refusal>
    ensures { Checks (R.meaning resources.now) validator.old (Op.Gc GcOperator.AnyConvertExtern)
        (refused result) validator.new }
{
    check_conversion(
        validator,
        resources,
        GcOperator::AnyConvertExtern,
        AbstractHeapType::Extern,
        AbstractHeapType::Any,
    )
}

/// `extern.convert_any`.
pub fn check_extern_convert_any<R: WasmModuleResources>(
    validator: &mut OperatorValidator,
    resources: &R,
) -> Result<(), Refusal>
    ensures { Checks (R.meaning resources.now) validator.old (Op.Gc GcOperator.ExternConvertAny)
        (refused result) validator.new }
{
    check_conversion(
        validator,
        resources,
        GcOperator::ExternConvertAny,
        AbstractHeapType::Any,
        AbstractHeapType::Extern,
    )
}

fn check_conversion<R: WasmModuleResources>(
    validator: &mut OperatorValidator,
    resources: &R,
    op: GcOperator,
    from: AbstractHeapType,
    to: AbstractHeapType,
) -> Result<(), Refusal>
    requires { Converts op from to }
    ensures { Checks (R.meaning resources.now) validator.old (Op.Gc op) (refused result) validator.new }
{
    match begin(validator, resources, &op) {
        Ok(()) => (),
        Err(refusal) => return Err(refusal),
    }
    let found = match validator.pop_any() {
        Ok(found) => found,
        Err(refusal) => return Err(refusal),
    };
    let converted = match converted(resources, &found, from, to) {
        Some(converted) => converted,
        None => {
            return Err(Refusal::NotOfKind {
                expected: abstract_reference(true, false, from),
                found,
            });
        }
    };
    validator.push_operand(converted)
}

// What is known of a reference once it is converted, which stays as shared as it was, and null if it may have been.
fn converted<R: WasmModuleResources>(
    resources: &R,
    found: &MaybeType,
    from: AbstractHeapType,
    to: AbstractHeapType,
) -> Option<MaybeType>
    ensures { MatchOption result (IsUnconvertible (R.meaning resources.now) found.now from)
        (λ b. IsConverted (R.meaning resources.now) found.now b from to) }
{
    match found {
        MaybeType::Bottom => Some(MaybeType::UnknownRef(Some(to))),
        MaybeType::UnknownRef(_) => {
            if is_of_kind(resources, found, false, from) {
                return Some(MaybeType::UnknownRef(Some(to)));
            }
            None
        }
        MaybeType::Known(ty) => converted_type(resources, ty, from, to),
    }
}

// The same of a known type.
fn converted_type<R: WasmModuleResources>(
    resources: &R,
    ty: &ValType,
    from: AbstractHeapType,
    to: AbstractHeapType,
) -> Option<MaybeType>
    ensures { MatchOption result (IsUnconvertible (R.meaning resources.now) (MaybeType.Known ty.now) from)
        (λ b. IsConverted (R.meaning resources.now) (MaybeType.Known ty.now) b from to) }
{
    types_are_sound(resources);
    let reference = match ty.as_reference_type() {
        Some(reference) => reference,
        None => return None,
    };
    let found = MaybeType::Known(ValType::Ref(reference));
    let shared = resources.is_shared(reference);
    if !is_of_kind(resources, &found, shared, from) {
        return None;
    }
    let nullable = reference.is_nullable();
    Some(MaybeType::Known(abstract_reference(nullable, shared, to)))
}
