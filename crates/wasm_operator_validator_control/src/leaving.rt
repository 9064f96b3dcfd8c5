//! What branches and returns do to the operands.

ghost use Rattle.std.specs.Prelude.{◌≡◌};
ghost use Rattle.wasm_operator_validator_rules.specs.Operands.{stack};
ghost use Rattle.wasm_operator_validator_state.specs.Refusals.{Does, refused};
ghost use Rattle.wasm_operator_validator_state.specs.State.{types_in};
ghost use Rattle.wasm_operator_validator_state.specs.Steps.{IsOpen, MayPop};
ghost use Rattle.wasm_operator_validator_control.specs.Jumps.{Jumps};

use wasm_operator_validator_stacks::determined::{OperatorValidator, Refusal, WasmModuleResources};
use wasm_types::ValType;

/// Takes operands off, behind which nothing is reached.
pub fn jump_with<R: WasmModuleResources>(
    validator: &mut OperatorValidator,
    resources: &R,
    types: &[ValType],
) -> Result<(), Refusal>
    requires { IsOpen validator.old.opens }
    ensures does { Does (refused result) (Jumps (R.meaning resources.now) validator.old
        (types_in (R.meaning resources.now) types.now) validator.new)
        (MayPop (R.meaning resources.now) validator.old (stack (types_in (R.meaning resources.now) types.now))) }
    ensures given { validator.new.given ≡ validator.old.given }
    ensures failed { validator.new.failed ≡ validator.old.failed }
    ensures saved { validator.new.saved ≡ validator.old.saved }
{
    match validator.pop_operands(resources, types) {
        Ok(()) => {}
        Err(refusal) => return Err(refusal),
    }
    validator.set_unreachable()
}
