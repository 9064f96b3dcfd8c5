//! Nulls.

ghost use Rattle.wasm_operators_enums.specs.Op.{Op};
ghost use Rattle.wasm_operator_validator_state.specs.State.{Checks};
ghost use Rattle.wasm_operator_validator_state.specs.Refusals.{refused};

use crate::naming::name_null;
use wasm_operator_validator_stacks::determined::{
    BulkOperator, OperatorValidator, Proposal, Reason, Refusal, WasmModuleResources, may_use_type,
};
use wasm_types::HeapType;

/// `ref.null` (WebAssembly 3.0, validation, reference instructions).
pub fn check_ref_null<R: WasmModuleResources>(
    validator: &mut OperatorValidator,
    resources: &R,
    hty: HeapType,
) -> Result<(), Refusal>
    ensures { Checks (R.meaning resources.now) validator.old (Op.Bulk (BulkOperator.RefNull hty))
        (refused result) validator.new }
{
    match validator.begin(Proposal::ReferenceTypes, false) {
        Ok(()) => (),
        Err(refusal) => return Err(refusal),
    }
    let features = validator.features();
    let ty = match name_null(resources, &features, &hty) {
        Ok(ty) => ty,
        Err(refusal) => return Err(refusal),
    };
    if !may_use_type(validator, resources, &ty) {
        return Err(Refusal::Because(Reason::NotShared));
    }
    validator.push_operands(resources, &[ty])
}
