//! References without null, and branches on null (WebAssembly 3.0, validation, reference and control instructions).

ghost use Rattle.std.specs.Prelude.{◌≡◌, MatchOption};
ghost use Rattle.wasm_operators_enums.specs.declared.control.ControlOperator.{ControlOperator};
ghost use Rattle.wasm_operators_enums.specs.Op.{Op};
ghost use Rattle.wasm_operator_validator_state.specs.Refusals.{refused};
ghost use Rattle.wasm_operator_validator_state.specs.State.{Checks};
ghost use Rattle.wasm_operator_validator_control.specs.Nulls.{known_not_null, EndsIn, EndsInNone};

use wasm_operator_validator_stacks::determined::{
    MaybeType, OperatorValidator, Proposal, Reason, Refusal, WasmModuleResources,
};
use wasm_operator_validator_state::blocks::label_types;
use wasm_types::ValType;

/// Checks `ref.as_non_null`.
pub fn check_ref_as_non_null<R: WasmModuleResources>(
    validator: &mut OperatorValidator,
    resources: &R,
) -> Result<(), Refusal>
    ensures { Checks (R.meaning resources.now) validator.old (Op.Control ControlOperator.RefAsNonNull)
        (refused result) validator.new }
{
    match validator.begin(Proposal::FunctionReferences, false) {
        Ok(()) => {}
        Err(refusal) => return Err(refusal),
    }
    let found = match validator.pop_any() {
        Ok(found) => found,
        Err(refusal) => return Err(refusal),
    };
    let Some(reference) = not_null(&found) else {
        return Err(Refusal::ExpectedReference { found });
    };
    validator.push_operand(reference)
}

/// Checks `br_on_null`.
pub fn check_br_on_null<R: WasmModuleResources>(
    validator: &mut OperatorValidator,
    resources: &R,
    relative_depth: u32,
) -> Result<(), Refusal>
    ensures { Checks (R.meaning resources.now) validator.old (Op.Control (ControlOperator.BrOnNull relative_depth))
        (refused result) validator.new }
{
    match validator.begin(Proposal::FunctionReferences, false) {
        Ok(()) => {}
        Err(refusal) => return Err(refusal),
    }
    let found = match validator.pop_any() {
        Ok(found) => found,
        Err(refusal) => return Err(refusal),
    };
    let Some(reference) = not_null(&found) else {
        return Err(Refusal::ExpectedReference { found });
    };
    let Some((block_type, kind)) = validator.jump(relative_depth) else {
        return Err(Refusal::UnknownLabel);
    };
    let types = label_types(resources, &block_type, kind);
    match validator.exchange(resources, types, types) {
        Ok(()) => {}
        Err(refusal) => return Err(refusal),
    }
    validator.push_operand(reference)
}

/// Checks `br_on_non_null`.
pub fn check_br_on_non_null<R: WasmModuleResources>(
    validator: &mut OperatorValidator,
    resources: &R,
    relative_depth: u32,
) -> Result<(), Refusal>
    ensures { Checks (R.meaning resources.now) validator.old (Op.Control (ControlOperator.BrOnNonNull relative_depth))
        (refused result) validator.new }
{
    match validator.begin(Proposal::FunctionReferences, false) {
        Ok(()) => {}
        Err(refusal) => return Err(refusal),
    }
    let Some((block_type, kind)) = validator.jump(relative_depth) else {
        return Err(Refusal::UnknownLabel);
    };
    let types = label_types(resources, &block_type, kind);
    let Some((reference, others)) = split_reference(types) else {
        return Err(Refusal::Because(no_reference(types)));
    };
    match validator.pop_operand(resources, &reference) {
        Ok(()) => {}
        Err(refusal) => return Err(refusal),
    }
    validator.exchange(resources, others, others)
}

/// What is known of a reference where it is not null, if an operand of which this much is known may be one.
fn not_null(found: &MaybeType) -> Option<MaybeType>
    ensures { result ≡ known_not_null found.now }
{
    match found {
        MaybeType::Bottom => Some(MaybeType::UnknownRef(None)),
        MaybeType::UnknownRef(ty) => Some(MaybeType::UnknownRef(*ty)),
        MaybeType::Known(ty) => match ty.as_reference_type() {
            Some(reference) => Some(MaybeType::Known(ValType::Ref(reference.as_non_null()))),
            None => None,
        },
    }
}

/// Why the last of these types is no reference.
fn no_reference(types: &[ValType]) -> Reason {
    if types.is_empty() {
        Reason::NoLabelTypes
    } else {
        Reason::LabelWithoutReference
    }
}

/// The last of these types, if it is a reference, as one that may be null; and the others.
fn split_reference(types: &[ValType]) -> Option<(ValType, &[ValType])>
    ensures { MatchOption result (EndsInNone types.now) (λ p. EndsIn types.now p.0 p.1.now) }
{
    let Some((last, others)) = types.split_last() else {
        return None;
    };
    match last.as_reference_type() {
        Some(reference) => Some((ValType::Ref(reference.nullable()), others)),
        None => None,
    }
}
