//! Globals.

ghost use Rattle.std.specs.Prelude.{◌≡◌, slice_get, MatchResult, IfErr};
ghost use Rattle.wasm_types.specs.decoding.declared.error.ErrorKind.TheVariants.{Other};
ghost use Rattle.wasm_operators_enums.specs.Op.{Op};
ghost use Rattle.wasm_operator_validator_state.specs.resources.Meaning.{global_in};
ghost use Rattle.wasm_operator_validator_rules.specs.Context.{Global};
ghost use Rattle.wasm_operator_validator_state.specs.State.{Checks};
ghost use Rattle.wasm_operator_validator_state.specs.Refusals.{refused, kind_of};
ghost use Rattle.wasm_operator_validator_stacks.specs.determined.Operators.{IsUsable};
ghost use Rattle.wasm_operator_validator_memory.specs.Variables.{global_is_shared, WantsRoom};

use wasm_operator_validator_stacks::determined::{
    MemoryOperator, OperatorValidator, Proposal, Reason, Refusal, Space, WasmModuleResources,
    may_use,
};
use wasm_types::GlobalType;

/// `global.get` (WebAssembly 3.0, validation, variable instructions).
pub fn check_global_get<R: WasmModuleResources>(
    validator: &mut OperatorValidator,
    resources: &R,
    global_index: u32,
) -> Result<(), Refusal>
    ensures checks { Checks (R.meaning resources.now) validator.old (Op.Memory (MemoryOperator.GlobalGet global_index))
        (refused result) validator.new }
    ensures room { WantsRoom (R.meaning resources.now) validator.old (Op.Memory (MemoryOperator.GlobalGet global_index))
        (refused result) }
{
    match validator.begin(Proposal::Mvp, false) {
        Ok(()) => (),
        Err(refusal) => return Err(refusal),
    }
    let global = match usable_global(validator, resources, global_index) {
        Ok(global) => global,
        Err(refusal) => return Err(refusal),
    };
    validator.push_operands(resources, &[global.content_type])
}

/// `global.set`, of a global that may be written (WebAssembly 3.0, validation, variable instructions).
pub fn check_global_set<R: WasmModuleResources>(
    validator: &mut OperatorValidator,
    resources: &R,
    global_index: u32,
) -> Result<(), Refusal>
    ensures checks { Checks (R.meaning resources.now) validator.old (Op.Memory (MemoryOperator.GlobalSet global_index))
        (refused result) validator.new }
    ensures room { WantsRoom (R.meaning resources.now) validator.old (Op.Memory (MemoryOperator.GlobalSet global_index))
        (refused result) }
{
    match validator.begin(Proposal::Mvp, false) {
        Ok(()) => (),
        Err(refusal) => return Err(refusal),
    }
    let global = match usable_global(validator, resources, global_index) {
        Ok(global) => global,
        Err(refusal) => return Err(refusal),
    };
    if !global.mutable {
        return Err(Refusal::Because(Reason::ImmutableGlobal));
    }
    validator.pop_operand(resources, &global.content_type)
}

// The global at an index, where the function may use it.
fn usable_global<R: WasmModuleResources>(
    validator: &OperatorValidator,
    resources: &R,
    at: u32,
) -> Result<GlobalType, Refusal>
    ensures usable { MatchResult result (λ v. IsUsable validator.now global_is_shared
        (slice_get (R.meaning resources.now).«module».globals at) (global_in (R.meaning resources.now) v))
        (λ r. (v : Global) → IsUsable validator.now global_is_shared
        (slice_get (R.meaning resources.now).«module».globals at) v → ⊥) }
    ensures refused { IfErr result (λ r. kind_of r ≡ Other) }
{
    let global = match resources.global_at(at) {
        Some(global) => global,
        None => {
            return Err(Refusal::Unknown {
                space: Space::Global,
                index: at,
            });
        }
    };
    if !may_use(validator, global.shared) {
        return Err(Refusal::Because(Reason::NotShared));
    }
    Ok(global)
}
