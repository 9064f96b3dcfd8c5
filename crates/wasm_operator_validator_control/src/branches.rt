//! Operators that neither open nor end a frame: branches and returns.

ghost use Rattle.wasm_operators_enums.specs.declared.control.ControlOperator.{ControlOperator};
ghost use Rattle.wasm_operators_enums.specs.Op.{Op};
ghost use Rattle.wasm_operator_validator_state.specs.Refusals.{refused};
ghost use Rattle.wasm_operator_validator_state.specs.State.{Checks};

use crate::leaving::jump_with;
use wasm_operator_validator_stacks::determined::{
    OperatorValidator, Proposal, Refusal, WasmModuleResources,
};
use wasm_operator_validator_state::blocks::{block_results, label_types};
use wasm_types::ValType;

/// Checks `nop`.
pub fn check_nop<R: WasmModuleResources>(
    validator: &mut OperatorValidator,
    resources: &R,
) -> Result<(), Refusal>
    ensures { Checks (R.meaning resources.now) validator.old (Op.Control ControlOperator.Nop)
        (refused result) validator.new }
{
    match validator.begin(Proposal::Mvp, false) {
        Ok(()) => {}
        Err(refusal) => return Err(refusal),
    }
    validator.exchange(resources, &[], &[])
}

/// Checks `unreachable`.
pub fn check_unreachable<R: WasmModuleResources>(
    validator: &mut OperatorValidator,
    resources: &R,
) -> Result<(), Refusal>
    ensures { Checks (R.meaning resources.now) validator.old (Op.Control ControlOperator.Unreachable)
        (refused result) validator.new }
{
    match validator.begin(Proposal::Mvp, false) {
        Ok(()) => {}
        Err(refusal) => return Err(refusal),
    }
    jump_with(validator, resources, &[])
}

/// Checks `br`.
pub fn check_br<R: WasmModuleResources>(
    validator: &mut OperatorValidator,
    resources: &R,
    relative_depth: u32,
) -> Result<(), Refusal>
    ensures { Checks (R.meaning resources.now) validator.old (Op.Control (ControlOperator.Br relative_depth))
        (refused result) validator.new }
{
    match validator.begin(Proposal::Mvp, false) {
        Ok(()) => {}
        Err(refusal) => return Err(refusal),
    }
    let Some((block_type, kind)) = validator.jump(relative_depth) else {
        return Err(Refusal::UnknownLabel);
    };
    let types = label_types(resources, &block_type, kind);
    jump_with(validator, resources, types)
}

/// Checks `br_if`.
pub fn check_br_if<R: WasmModuleResources>(
    validator: &mut OperatorValidator,
    resources: &R,
    relative_depth: u32,
) -> Result<(), Refusal>
    ensures { Checks (R.meaning resources.now) validator.old (Op.Control (ControlOperator.BrIf relative_depth))
        (refused result) validator.new }
{
    match validator.begin(Proposal::Mvp, false) {
        Ok(()) => {}
        Err(refusal) => return Err(refusal),
    }
    match validator.pop_operand(resources, &ValType::I32) {
        Ok(()) => {}
        Err(refusal) => return Err(refusal),
    }
    let Some((block_type, kind)) = validator.jump(relative_depth) else {
        return Err(Refusal::UnknownLabel);
    };
    let types = label_types(resources, &block_type, kind);
    validator.exchange(resources, types, types)
}

/// Checks `return`.
pub fn check_return<R: WasmModuleResources>(
    validator: &mut OperatorValidator,
    resources: &R,
) -> Result<(), Refusal>
    ensures { Checks (R.meaning resources.now) validator.old (Op.Control ControlOperator.Return)
        (refused result) validator.new }
{
    match validator.begin(Proposal::Mvp, false) {
        Ok(()) => {}
        Err(refusal) => return Err(refusal),
    }
    let Some((block_type, _)) = validator.outermost() else {
        return Err(Refusal::AfterEnd);
    };
    let types = block_results(resources, &block_type);
    jump_with(validator, resources, types)
}
