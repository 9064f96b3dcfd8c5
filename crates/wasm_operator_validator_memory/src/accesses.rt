//! Loads and stores.

ghost use Rattle.wasm_operators_enums.specs.Op.{Op};
ghost use Rattle.wasm_operator_validator_rules.specs.Accesses.{load, store};
ghost use Rattle.wasm_operator_validator_state.specs.State.{Checks};
ghost use Rattle.wasm_operator_validator_state.specs.Refusals.{refused};
ghost use Rattle.wasm_operator_validator_memory.specs.Reaching.{IsAccess};

use crate::reaching::reach;
use wasm_operator_validator_stacks::determined::{
    MemArg, MemoryOperator, OperatorValidator, Proposal, Refusal, WasmModuleResources,
};
use wasm_types::ValType;

/// A load of this type by this argument; the type is a float or not (WebAssembly 3.0, validation, memory instructions).
#[inline(always)]
pub fn check_load<R: WasmModuleResources>(
    validator: &mut OperatorValidator,
    resources: &R,
    op: MemoryOperator,
    memarg: &MemArg,
    floats: bool,
    ty: &ValType,
) -> Result<(), Refusal>
    requires { IsAccess load op memarg.now floats ty.now }
    ensures { Checks (R.meaning resources.now) validator.old (Op.Memory op) (refused result) validator.new }
{
    let _op = op;
    match validator.begin(Proposal::Mvp, floats) {
        Ok(()) => (),
        Err(refusal) => return Err(refusal),
    }
    let address = match reach(resources, false, memarg) {
        Ok(address) => address,
        Err(refusal) => return Err(refusal),
    };
    validator.exchange(resources, &[address], &[*ty])
}

/// A store of this type by this argument; the type is a float or not (WebAssembly 3.0, validation, memory instructions).
#[inline(always)]
pub fn check_store<R: WasmModuleResources>(
    validator: &mut OperatorValidator,
    resources: &R,
    op: MemoryOperator,
    memarg: &MemArg,
    floats: bool,
    ty: &ValType,
) -> Result<(), Refusal>
    requires { IsAccess store op memarg.now floats ty.now }
    ensures { Checks (R.meaning resources.now) validator.old (Op.Memory op) (refused result) validator.new }
{
    let _op = op;
    match validator.begin(Proposal::Mvp, floats) {
        Ok(()) => (),
        Err(refusal) => return Err(refusal),
    }
    let address = match reach(resources, false, memarg) {
        Ok(address) => address,
        Err(refusal) => return Err(refusal),
    };
    validator.pop_operands(resources, &[address, *ty])
}
