//! Calls that take the place of their caller (the proposal on tail calls).

ghost use Rattle.wasm_operators_enums.specs.declared.control.ControlOperator.{ControlOperator};
ghost use Rattle.wasm_operators_enums.specs.Op.{Op};
ghost use Rattle.wasm_operator_validator_state.specs.Refusals.{refused};
ghost use Rattle.wasm_operator_validator_state.specs.State.{Checks};

use crate::callees::{callee, callee_type, gives_results, reference_at, through_reference};
use crate::tables::function_table;
use crate::{OperatorValidator, Proposal, Reason, Refusal, WasmModuleResources, jump_with};

/// Checks `return_call`.
pub fn check_return_call<R: WasmModuleResources>(
    validator: &mut OperatorValidator,
    resources: &R,
    function_index: u32,
) -> Result<(), Refusal>
    ensures { Checks (R.meaning resources.now) validator.old (Op.Control (ControlOperator.ReturnCall function_index))
        (refused result) validator.new }
{
    match validator.begin(Proposal::TailCall, false) {
        Ok(()) => {}
        Err(refusal) => return Err(refusal),
    }
    let Some((body, _)) = validator.outermost() else {
        return Err(Refusal::AfterEnd);
    };
    let function = match callee(validator, resources, function_index) {
        Ok(function) => function,
        Err(refusal) => return Err(refusal),
    };
    if !gives_results(resources, function, &body) {
        return Err(Refusal::Because(Reason::ResultsDiffer));
    }
    jump_with(validator, resources, function.params())
}

/// Checks `return_call_indirect`.
pub fn check_return_call_indirect<R: WasmModuleResources>(
    validator: &mut OperatorValidator,
    resources: &R,
    type_index: u32,
    table_index: u32,
) -> Result<(), Refusal>
    ensures { Checks (R.meaning resources.now) validator.old (Op.Control
        (ControlOperator.ReturnCallIndirect type_index table_index)) (refused result) validator.new }
{
    match validator.begin(Proposal::TailCall, false) {
        Ok(()) => {}
        Err(refusal) => return Err(refusal),
    }
    let Some((body, _)) = validator.outermost() else {
        return Err(Refusal::AfterEnd);
    };
    let table = match function_table(validator, resources, table_index) {
        Ok(table) => table,
        Err(refusal) => return Err(refusal),
    };
    let found = callee_type(validator, resources, type_index);
    match validator.pop_operand(resources, &table.index_type()) {
        Ok(()) => {}
        Err(refusal) => return Err(refusal),
    }
    let function = match found {
        Ok(function) => function,
        Err(refusal) => return Err(refusal),
    };
    if !gives_results(resources, function, &body) {
        return Err(Refusal::Because(Reason::ResultsDiffer));
    }
    jump_with(validator, resources, function.params())
}

/// Checks `return_call_ref`.
pub fn check_return_call_ref<R: WasmModuleResources>(
    validator: &mut OperatorValidator,
    resources: &R,
    type_index: u32,
) -> Result<(), Refusal>
    ensures { Checks (R.meaning resources.now) validator.old (Op.Control (ControlOperator.ReturnCallRef type_index))
        (refused result) validator.new }
{
    match validator.begin(Proposal::TailCall, false) {
        Ok(()) => {}
        Err(refusal) => return Err(refusal),
    }
    let Some((body, _)) = validator.outermost() else {
        return Err(Refusal::AfterEnd);
    };
    let function = match callee_type(validator, resources, type_index) {
        Ok(function) => function,
        Err(refusal) => return Err(through_reference(refusal)),
    };
    if !gives_results(resources, function, &body) {
        return Err(Refusal::Because(Reason::ResultsDiffer));
    }
    let reference = match reference_at(resources, type_index) {
        Ok(reference) => reference,
        Err(refusal) => return Err(refusal),
    };
    match validator.pop_operand(resources, &reference) {
        Ok(()) => {}
        Err(refusal) => return Err(refusal),
    }
    jump_with(validator, resources, function.params())
}
