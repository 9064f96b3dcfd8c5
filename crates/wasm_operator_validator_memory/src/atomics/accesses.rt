//! Atomic loads, stores and changes.

ghost use Rattle.wasm_operators_enums.specs.Op.{Op};
ghost use Rattle.wasm_operator_validator_rules.specs.Accesses.{load, store, modify, compare_exchange};
ghost use Rattle.wasm_operator_validator_state.specs.State.{Checks};
ghost use Rattle.wasm_operator_validator_state.specs.Refusals.{refused};
ghost use Rattle.wasm_operator_validator_memory.specs.atomics.Atomics.{IsAtomic};

use crate::atomics::reaching::reach_atomic;
use crate::{MemArg, OperatorValidator, Proposal, Refusal, WasmModuleResources};
use wasm_operators_visit::AtomicOperator;
use wasm_types::ValType;

/// An atomic load of this type by this argument (the proposal on threads).
#[inline]
pub fn check_atomic_load<R: WasmModuleResources>(
    validator: &mut OperatorValidator,
    resources: &R,
    op: AtomicOperator,
    memarg: &MemArg,
    ty: &ValType,
) -> Result<(), Refusal>
    requires { IsAtomic load op memarg.now ty.now }
    ensures { Checks (R.meaning resources.now) validator.old (Op.Atomic op) (refused result) validator.new }
{
    let _op = op;
    match validator.begin(Proposal::Threads, false) {
        Ok(()) => (),
        Err(refusal) => return Err(refusal),
    }
    let address = match reach_atomic(resources, memarg) {
        Ok(address) => address,
        Err(refusal) => return Err(refusal),
    };
    validator.exchange(resources, &[address], &[*ty])
}

/// An atomic store of this type by this argument (the proposal on threads).
#[inline]
pub fn check_atomic_store<R: WasmModuleResources>(
    validator: &mut OperatorValidator,
    resources: &R,
    op: AtomicOperator,
    memarg: &MemArg,
    ty: &ValType,
) -> Result<(), Refusal>
    requires { IsAtomic store op memarg.now ty.now }
    ensures { Checks (R.meaning resources.now) validator.old (Op.Atomic op) (refused result) validator.new }
{
    let _op = op;
    match validator.begin(Proposal::Threads, false) {
        Ok(()) => (),
        Err(refusal) => return Err(refusal),
    }
    let address = match reach_atomic(resources, memarg) {
        Ok(address) => address,
        Err(refusal) => return Err(refusal),
    };
    validator.pop_operands(resources, &[address, *ty])
}

/// An atomic change of a number of this type by another, which gives what it was (the proposal on threads).
#[inline]
pub fn check_atomic_modify<R: WasmModuleResources>(
    validator: &mut OperatorValidator,
    resources: &R,
    op: AtomicOperator,
    memarg: &MemArg,
    ty: &ValType,
) -> Result<(), Refusal>
    requires { IsAtomic modify op memarg.now ty.now }
    ensures { Checks (R.meaning resources.now) validator.old (Op.Atomic op) (refused result) validator.new }
{
    let _op = op;
    match validator.begin(Proposal::Threads, false) {
        Ok(()) => (),
        Err(refusal) => return Err(refusal),
    }
    let address = match reach_atomic(resources, memarg) {
        Ok(address) => address,
        Err(refusal) => return Err(refusal),
    };
    validator.exchange(resources, &[address, *ty], &[*ty])
}

/// An atomic change of a number of this type that is as expected, which gives what it was (the proposal on threads).
#[inline]
pub fn check_atomic_compare_exchange<R: WasmModuleResources>(
    validator: &mut OperatorValidator,
    resources: &R,
    op: AtomicOperator,
    memarg: &MemArg,
    ty: &ValType,
) -> Result<(), Refusal>
    requires { IsAtomic compare_exchange op memarg.now ty.now }
    ensures { Checks (R.meaning resources.now) validator.old (Op.Atomic op) (refused result) validator.new }
{
    let _op = op;
    match validator.begin(Proposal::Threads, false) {
        Ok(()) => (),
        Err(refusal) => return Err(refusal),
    }
    let address = match reach_atomic(resources, memarg) {
        Ok(address) => address,
        Err(refusal) => return Err(refusal),
    };
    validator.exchange(resources, &[address, *ty, *ty], &[*ty])
}
