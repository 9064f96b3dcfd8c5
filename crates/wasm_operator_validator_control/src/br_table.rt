//! The check.

ghost use Rattle.wasm_operators_enums.specs.declared.control.ControlOperator.{ControlOperator};
ghost use Rattle.wasm_operators_enums.specs.Op.{Op};
ghost use Rattle.wasm_operator_validator_state.specs.Refusals.{refused};
ghost use Rattle.wasm_operator_validator_state.specs.State.{Checks};

use crate::labels::match_table;
use crate::{BrTable, OperatorValidator, Proposal, Refusal, WasmModuleResources};
use wasm_types::ValType;

/// Checks `br_table`.
pub fn check_br_table<R: WasmModuleResources>(
    validator: &mut OperatorValidator,
    resources: &R,
    table: &BrTable,
) -> Result<(), Refusal>
    ensures { Checks (R.meaning resources.now) validator.old (Op.Control (ControlOperator.BrTable table.now))
        (refused result) validator.new }
{
    match validator.begin(Proposal::Mvp, false) {
        Ok(()) => {}
        Err(refusal) => return Err(refusal),
    }
    match validator.pop_operand(resources, &ValType::I32) {
        Ok(()) => {}
        Err(refusal) => return Err(refusal),
    }
    match match_table(validator, resources, table) {
        Ok(()) => {}
        Err(refusal) => return Err(refusal),
    }
    validator.set_unreachable()
}
