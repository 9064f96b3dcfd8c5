//! Operands of any type.

ghost use Rattle.wasm_operators_enums.specs.Op.{Op, ParametricTree};
ghost use Rattle.wasm_operator_validator_state.specs.State.{Checks};
ghost use Rattle.wasm_operator_validator_state.specs.Refusals.{refused};
ghost use Rattle.wasm_operator_validator_memory.specs.Variables.{WantsRoom};

use crate::choosing::chosen;
use wasm_operator_validator_stacks::determined::{
    OperatorValidator, Proposal, Refusal, WasmModuleResources,
};
use wasm_types::ValType;

/// `drop` (WebAssembly 3.0, validation, parametric instructions).
pub fn check_drop<R: WasmModuleResources>(
    validator: &mut OperatorValidator,
    resources: &R,
) -> Result<(), Refusal>
    ensures checks { Checks (R.meaning resources.now) validator.old (Op.Parametric ParametricTree.Drop)
        (refused result) validator.new }
    ensures room { WantsRoom (R.meaning resources.now) validator.old (Op.Parametric ParametricTree.Drop)
        (refused result) }
{
    let _resources = resources;
    match validator.begin(Proposal::Mvp, false) {
        Ok(()) => (),
        Err(refusal) => return Err(refusal),
    }
    let _dropped = match validator.pop_any() {
        Ok(dropped) => dropped,
        Err(refusal) => return Err(refusal),
    };
    Ok(())
}

/// `select` without a type, which is for numbers and vectors (WebAssembly 3.0, validation, parametric instructions).
pub fn check_select<R: WasmModuleResources>(
    validator: &mut OperatorValidator,
    resources: &R,
) -> Result<(), Refusal>
    ensures { Checks (R.meaning resources.now) validator.old (Op.Parametric ParametricTree.Select)
        (refused result) validator.new }
{
    match validator.begin(Proposal::Mvp, false) {
        Ok(()) => (),
        Err(refusal) => return Err(refusal),
    }
    match validator.pop_operand(resources, &ValType::I32) {
        Ok(()) => (),
        Err(refusal) => return Err(refusal),
    }
    let second = match validator.pop_any() {
        Ok(second) => second,
        Err(refusal) => return Err(refusal),
    };
    let first = match validator.pop_any() {
        Ok(first) => first,
        Err(refusal) => return Err(refusal),
    };
    let choice = match chosen(&first, &second) {
        Ok(choice) => choice,
        Err(refusal) => return Err(refusal),
    };
    validator.push_operand(choice)
}
