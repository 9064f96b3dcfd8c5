//! Threads that wait, are woken, or see each other's writes.

ghost use Rattle.std.specs.Prelude.{IfErr};
ghost use Rattle.wasm_operators_enums.specs.Op.{Op};
ghost use Rattle.wasm_operator_validator_rules.specs.Accesses.{wait};
ghost use Rattle.wasm_operator_validator_state.specs.State.{Checks};
ghost use Rattle.wasm_operator_validator_state.specs.Refusals.{refused};
ghost use Rattle.wasm_operator_validator_stacks.specs.determined.Operators.{IsOfContent};
ghost use Rattle.wasm_operator_validator_memory.specs.atomics.Atomics.{IsAtomic};

use crate::atomics::reaching::reach_atomic;
use crate::{MemArg, OperatorValidator, Proposal, Refusal, WasmModuleResources};
use wasm_operators_visit::AtomicOperator;
use wasm_types::ValType;

/// A thread waits while a number of this type is as expected (the proposal on threads).
#[inline]
pub fn check_atomic_wait<R: WasmModuleResources>(
    validator: &mut OperatorValidator,
    resources: &R,
    op: AtomicOperator,
    memarg: &MemArg,
    ty: &ValType,
) -> Result<(), Refusal>
    requires { IsAtomic wait op memarg.now ty.now }
    ensures { Checks (R.meaning resources.now) validator.old (Op.Atomic op) (refused result) validator.new }
{
    let _op = op;
    match validator.begin(Proposal::Threads, false) {
        Ok(()) => (),
        Err(refusal) => return Err(refusal),
    }
    let address = match reach_atomic(resources, memarg) {
        Ok(address) => address,
        Err(refusal) => return Err(refusal),
    };
    validator.exchange(resources, &[address, *ty, ValType::I64], &[ValType::I32])
}

/// `memory.atomic.notify` (the proposal on threads).
pub fn check_atomic_notify<R: WasmModuleResources>(
    validator: &mut OperatorValidator,
    resources: &R,
    memarg: MemArg,
) -> Result<(), Refusal>
    ensures { Checks (R.meaning resources.now) validator.old (Op.Atomic (AtomicOperator.MemoryAtomicNotify memarg))
        (refused result) validator.new }
{
    match validator.begin(Proposal::Threads, false) {
        Ok(()) => (),
        Err(refusal) => return Err(refusal),
    }
    let address = match reach_atomic(resources, &memarg) {
        Ok(address) => address,
        Err(refusal) => return Err(refusal),
    };
    validator.exchange(resources, &[address, ValType::I32], &[ValType::I32])
}

/// `atomic.fence`, which takes and gives nothing (the proposal on threads).
pub fn check_atomic_fence<R: WasmModuleResources>(
    validator: &mut OperatorValidator,
    resources: &R,
) -> Result<(), Refusal>
    ensures checks { Checks (R.meaning resources.now) validator.old (Op.Atomic AtomicOperator.AtomicFence)
        (refused result) validator.new }
    ensures memory { IfErr result IsOfContent }
{
    let _resources = resources;
    validator.begin(Proposal::Threads, false)
}
