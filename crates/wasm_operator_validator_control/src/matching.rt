//! Operands against one label.

ghost use Rattle.wasm_operator_validator_rules.specs.Operands.{stack};
ghost use Rattle.wasm_operator_validator_state.specs.State.{types_in};
ghost use Rattle.wasm_operator_validator_state.specs.Steps.{IsOpen, MayPop};
ghost use Rattle.wasm_operator_validator_control.specs.Fitting.{Suits, Answers};

use crate::{OperatorValidator, Reason, Refusal, WasmModuleResources, is_fit, label_types};
use wasm_types::ValType;

/// Whether operands of these types could be taken off. The first that could not be is told, from the top.
pub(crate) fn match_operands<R: WasmModuleResources>(
    validator: &OperatorValidator,
    resources: &R,
    types: &[ValType],
) -> Result<(), Refusal>
    requires { IsOpen validator.now.opens }
    ensures { Answers result (MayPop (R.meaning resources.now) validator.now
        (stack (types_in (R.meaning resources.now) types.now))) }
{
    for place in 0..types.len() {
        let expected = types[types.len() - 1 - place];
        let Some(found) = validator.peek(place) else {
            return Err(Refusal::EmptyStack { expected });
        };
        if !is_fit(resources, &found, &expected) {
            return Err(Refusal::TypeMismatch { expected, found });
        }
    }
    Ok(())
}

/// Whether a label takes so many operands, and what it takes could be taken off.
pub(crate) fn match_label<R: WasmModuleResources>(
    validator: &OperatorValidator,
    resources: &R,
    label: u32,
    count: usize,
) -> Result<(), Refusal>
    requires { IsOpen validator.now.opens }
    ensures { Answers result (Suits (R.meaning resources.now) validator.now count label) }
{
    let Some((block_type, kind)) = validator.jump(label) else {
        return Err(Refusal::UnknownLabel);
    };
    let types = label_types(resources, &block_type, kind);
    if types.len() != count {
        return Err(Refusal::Because(Reason::LabelsDiffer));
    }
    match_operands(validator, resources, types)
}
