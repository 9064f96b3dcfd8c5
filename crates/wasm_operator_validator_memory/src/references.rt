//! References.

ghost use Rattle.std.specs.Prelude.{◌≡◌};
ghost use Rattle.wasm_operators_enums.specs.Op.{Op};
ghost use Rattle.wasm_operator_validator_state.specs.State.{Checks};
ghost use Rattle.wasm_operator_validator_state.specs.Refusals.{refused};
ghost use Rattle.wasm_operator_validator_memory.specs.Tables.{may_refer};

use wasm_operator_validator_stacks::determined::{
    BulkOperator, MaybeType, OperatorValidator, Proposal, Refusal, WasmModuleResources,
};
use wasm_types::ValType;

/// `ref.is_null`, of any reference (WebAssembly 3.0, validation, reference instructions).
pub fn check_ref_is_null<R: WasmModuleResources>(
    validator: &mut OperatorValidator,
    resources: &R,
) -> Result<(), Refusal>
    ensures { Checks (R.meaning resources.now) validator.old (Op.Bulk BulkOperator.RefIsNull)
        (refused result) validator.new }
{
    match validator.begin(Proposal::ReferenceTypes, false) {
        Ok(()) => (),
        Err(refusal) => return Err(refusal),
    }
    let found = match validator.pop_any() {
        Ok(found) => found,
        Err(refusal) => return Err(refusal),
    };
    if !is_referring(&found) {
        return Err(Refusal::ExpectedReference { found });
    }
    validator.push_operands(resources, &[ValType::I32])
}

// Whether what is known of an operand allows that it is a reference.
fn is_referring(found: &MaybeType) -> bool
    ensures { result ≡ may_refer found.now }
{
    match found {
        MaybeType::Bottom => true,
        MaybeType::UnknownRef(_) => true,
        MaybeType::Known(ty) => ty.is_reference_type(),
    }
}
