//! Locals.

ghost use Rattle.std.specs.Prelude.{◌≡◌, slice_get, MatchResult, IfErr};
ghost use Rattle.wasm_types.specs.trees.Below.{value_is_shared};
ghost use Rattle.wasm_operators_enums.specs.Op.{Op};
ghost use Rattle.wasm_operator_validator_state.specs.resources.Meaning.{type_in};
ghost use Rattle.wasm_operator_validator_rules.specs.Operands.{ValueType};
ghost use Rattle.wasm_operator_validator_state.specs.State.{Checks, types_in};
ghost use Rattle.wasm_types.specs.decoding.declared.error.ErrorKind.TheVariants.{Other};
ghost use Rattle.wasm_operator_validator_state.specs.Refusals.{refused, kind_of};
ghost use Rattle.wasm_operator_validator_stacks.specs.determined.Operators.{IsUsable};
ghost use Rattle.wasm_operator_validator_memory.specs.Variables.{WantsRoom};

use wasm_operator_validator_stacks::determined::{
    MemoryOperator, OperatorValidator, Proposal, Reason, Refusal, WasmModuleResources, copied,
    may_use_type,
};
use wasm_types::ValType;

/// `local.get`, of a local that has a value (WebAssembly 3.0, validation, variable instructions).
#[inline(always)]
pub fn check_local_get<R: WasmModuleResources>(
    validator: &mut OperatorValidator,
    resources: &R,
    local_index: u32,
) -> Result<(), Refusal>
    ensures checks { Checks (R.meaning resources.now) validator.old (Op.Memory (MemoryOperator.LocalGet local_index))
        (refused result) validator.new }
    ensures room { WantsRoom (R.meaning resources.now) validator.old (Op.Memory (MemoryOperator.LocalGet local_index))
        (refused result) }
{
    match validator.begin(Proposal::Mvp, false) {
        Ok(()) => (),
        Err(refusal) => return Err(refusal),
    }
    let ty = match usable_local(validator, resources, local_index) {
        Ok(ty) => ty,
        Err(refusal) => return Err(refusal),
    };
    if validator.is_uninit(local_index) {
        return Err(Refusal::UninitializedLocal { local_index });
    }
    validator.push_operands(resources, &[ty])
}

/// `local.set`: the local has a value from here on (WebAssembly 3.0, validation, variable instructions).
#[inline(always)]
pub fn check_local_set<R: WasmModuleResources>(
    validator: &mut OperatorValidator,
    resources: &R,
    local_index: u32,
) -> Result<(), Refusal>
    ensures checks { Checks (R.meaning resources.now) validator.old (Op.Memory (MemoryOperator.LocalSet local_index))
        (refused result) validator.new }
    ensures room { WantsRoom (R.meaning resources.now) validator.old (Op.Memory (MemoryOperator.LocalSet local_index))
        (refused result) }
{
    match validator.begin(Proposal::Mvp, false) {
        Ok(()) => (),
        Err(refusal) => return Err(refusal),
    }
    let ty = match usable_local(validator, resources, local_index) {
        Ok(ty) => ty,
        Err(refusal) => return Err(refusal),
    };
    match validator.pop_operand(resources, &ty) {
        Ok(()) => (),
        Err(refusal) => return Err(refusal),
    }
    validator.set_init(local_index)
}

/// `local.tee`: the same, and the value stays (WebAssembly 3.0, validation, variable instructions).
#[inline(always)]
pub fn check_local_tee<R: WasmModuleResources>(
    validator: &mut OperatorValidator,
    resources: &R,
    local_index: u32,
) -> Result<(), Refusal>
    ensures checks { Checks (R.meaning resources.now) validator.old (Op.Memory (MemoryOperator.LocalTee local_index))
        (refused result) validator.new }
    ensures room { WantsRoom (R.meaning resources.now) validator.old (Op.Memory (MemoryOperator.LocalTee local_index))
        (refused result) }
{
    match validator.begin(Proposal::Mvp, false) {
        Ok(()) => (),
        Err(refusal) => return Err(refusal),
    }
    let ty = match usable_local(validator, resources, local_index) {
        Ok(ty) => ty,
        Err(refusal) => return Err(refusal),
    };
    match validator.exchange(resources, &[copied(&ty)], &[copied(&ty)]) {
        Ok(()) => (),
        Err(refusal) => return Err(refusal),
    }
    validator.set_init(local_index)
}

// The type of a local, where the function may use it.
#[inline(always)]
fn usable_local<R: WasmModuleResources>(
    validator: &OperatorValidator,
    resources: &R,
    local_index: u32,
) -> Result<ValType, Refusal>
    ensures usable { MatchResult result (λ t. IsUsable validator.now value_is_shared
        (slice_get (types_in (R.meaning resources.now) validator.now.given.locals) local_index)
        (type_in (R.meaning resources.now) t)) (λ r. (t : ValueType)
        → IsUsable validator.now value_is_shared (slice_get (types_in
        (R.meaning resources.now) validator.now.given.locals) local_index) t → ⊥) }
    ensures refused { IfErr result (λ r. kind_of r ≡ Other) }
{
    let ty = match validator.local(local_index) {
        Some(ty) => ty,
        None => return Err(Refusal::UnknownLocal { local_index }),
    };
    if !may_use_type(validator, resources, &ty) {
        return Err(Refusal::Because(Reason::NotShared));
    }
    Ok(ty)
}
