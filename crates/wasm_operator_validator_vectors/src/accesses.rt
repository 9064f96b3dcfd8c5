//! Loads and stores of vectors.

ghost use Rattle.std.specs.Prelude.{◌≡◌};
ghost use Rattle.wasm_types.specs.trees.Types.{v128};
ghost use Rattle.wasm_operators_enums.specs.Op.{Op};
ghost use Rattle.wasm_operator_validator_rules.specs.Accesses.{load, store, load_lane};
ghost use Rattle.wasm_operator_validator_state.specs.State.{Checks};
ghost use Rattle.wasm_operator_validator_state.specs.Refusals.{refused};
ghost use Rattle.wasm_operator_validator_vectors.specs.Vectors.{Reaches};

use crate::entering::begin_vector;
use wasm_operator_validator_memory::{
    MemArg, OperatorValidator, Proposal, Refusal, WasmModuleResources, reach,
};
use wasm_operators_visit::SimdOperator;
use wasm_types::ValType;

/// A load of a vector by this argument, of all its bytes or of some (WebAssembly 3.0, validation, memory instructions).
pub(crate) fn check_load<R: WasmModuleResources>(
    validator: &mut OperatorValidator,
    resources: &R,
    op: SimdOperator,
    memarg: &MemArg,
) -> Result<(), Refusal>
    requires { Reaches op (load v128) memarg.now }
    ensures { Checks (R.meaning resources.now) validator.old (Op.Simd op) (refused result) validator.new }
{
    let _op = op;
    match begin_vector(validator, Proposal::Simd, false) {
        Ok(()) => (),
        Err(refusal) => return Err(refusal),
    }
    let address = match reach(resources, false, memarg) {
        Ok(address) => address,
        Err(refusal) => return Err(refusal),
    };
    validator.exchange(resources, &[address], &[ValType::V128])
}

/// A store of a vector, or of one of its lanes, by this argument.
pub(crate) fn check_store<R: WasmModuleResources>(
    validator: &mut OperatorValidator,
    resources: &R,
    op: SimdOperator,
    memarg: &MemArg,
) -> Result<(), Refusal>
    requires { Reaches op (store v128) memarg.now }
    ensures { Checks (R.meaning resources.now) validator.old (Op.Simd op) (refused result) validator.new }
{
    let _op = op;
    match begin_vector(validator, Proposal::Simd, false) {
        Ok(()) => (),
        Err(refusal) => return Err(refusal),
    }
    let address = match reach(resources, false, memarg) {
        Ok(address) => address,
        Err(refusal) => return Err(refusal),
    };
    validator.pop_operands(resources, &[address, ValType::V128])
}

/// A load of one lane of a vector by this argument.
pub(crate) fn check_load_lane<R: WasmModuleResources>(
    validator: &mut OperatorValidator,
    resources: &R,
    op: SimdOperator,
    memarg: &MemArg,
) -> Result<(), Refusal>
    requires { Reaches op load_lane memarg.now }
    ensures { Checks (R.meaning resources.now) validator.old (Op.Simd op) (refused result) validator.new }
{
    let _op = op;
    match begin_vector(validator, Proposal::Simd, false) {
        Ok(()) => (),
        Err(refusal) => return Err(refusal),
    }
    let address = match reach(resources, false, memarg) {
        Ok(address) => address,
        Err(refusal) => return Err(refusal),
    };
    validator.exchange(resources, &[address, ValType::V128], &[ValType::V128])
}
