//! Operators on vectors by what they take and give.

ghost use Rattle.wasm_operators_enums.specs.Op.{Op};
ghost use Rattle.wasm_operator_validator_state.specs.State.{Checks};
ghost use Rattle.wasm_operator_validator_state.specs.Refusals.{refused};
ghost use Rattle.wasm_operator_validator_vectors.specs.Vectors.{IsNumeric, IsOnLanes};

use crate::entering::begin_vector;
use wasm_operator_validator_memory::{OperatorValidator, Proposal, Refusal, WasmModuleResources};
use wasm_operators_visit::{SimdNumericOperator, SimdOperator};
use wasm_types::ValType;

/// One that carries nothing, which takes and gives these types; it is of this proposal, and has a float in its name or not (WebAssembly
/// 3.0, validation, vector instructions).
pub(crate) fn check_numeric<R: WasmModuleResources>(
    validator: &mut OperatorValidator,
    resources: &R,
    op: SimdNumericOperator,
    proposal: Proposal,
    floats: bool,
    takes: &[ValType],
    gives: &[ValType],
) -> Result<(), Refusal>
    requires { IsNumeric op proposal floats takes.now gives.now }
    ensures { Checks (R.meaning resources.now) validator.old (Op.SimdNumeric op) (refused result) validator.new }
{
    let _op = op;
    match begin_vector(validator, proposal, floats) {
        Ok(()) => (),
        Err(refusal) => return Err(refusal),
    }
    validator.exchange(resources, takes, gives)
}

/// One that carries a lane, lanes or a vector, which takes and gives these types; it has a float in its name or not.
pub(crate) fn check_lanes<R: WasmModuleResources>(
    validator: &mut OperatorValidator,
    resources: &R,
    op: SimdOperator,
    floats: bool,
    takes: &[ValType],
    gives: &[ValType],
) -> Result<(), Refusal>
    requires { IsOnLanes op floats takes.now gives.now }
    ensures { Checks (R.meaning resources.now) validator.old (Op.Simd op) (refused result) validator.new }
{
    let _op = op;
    match begin_vector(validator, Proposal::Simd, floats) {
        Ok(()) => (),
        Err(refusal) => return Err(refusal),
    }
    validator.exchange(resources, takes, gives)
}
