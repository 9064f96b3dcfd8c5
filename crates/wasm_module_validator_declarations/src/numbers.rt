//! The start function and the data count, each a section of its own.

ghost use Rattle.std.specs.Prelude.{◌≡◌, IfErr, List, OnErr, OnOk};
ghost use Rattle.wasm_types.specs.decoding.Denials.{Tells};
ghost use Rattle.wasm_types.specs.decoding.declared.error.ErrorKind.TheVariants.{Other};
ghost use Rattle.wasm_types.specs.settings.Settings.{Settings};
ghost use Rattle.wasm_module_validator_state.specs.resources.Named.{IsReadOver};
ghost use Rattle.wasm_module_validator_type_storage.specs.trees.Groups.{Group};
ghost use Rattle.wasm_module_validator_section_order.specs.rules.Syntax.{ModuleTree};
ghost use Rattle.wasm_module_validator_section_order.specs.rules_in_order.Sections as section;
ghost use Rattle.wasm_module_validator_section_order.specs.rules_in_order.Adding.{Adds};
ghost use Rattle.wasm_module_validator_state.specs.invariant.Standing.{IsBefore, IsReading};

use wasm_module_validator_state::invariant::ModuleState;
use wasm_module_validator_type_list::TypeList;
use wasm_types::Result;

/// Checks the start function. The state knows nothing of it.
///
/// # Errors
///
/// The module has no such function, or its type is not `[] -> []`: an error of kind `Other`, at `offset`.
pub fn take_start(state: &ModuleState, types: &TypeList, func: u32, offset: u64) -> Result<()>
    requires { IsReadOver types.now.groups state.now.spaces }
    ensures answer { (z : Settings) (m : ModuleTree) → IsBefore section.start types.now.groups state.now z m
        → Tells result ((n : ModuleTree) × Adds z section.start m func n) }
    ensures added { OnOk result ((z : Settings) (m n : ModuleTree)
        → IsBefore section.start types.now.groups state.now z m → Adds z section.start m func n
        → IsReading section.start types.now.groups state.now z n) }
    ensures refused { IfErr result (λ e. (e.kind ≡ Other) × (e.offset ≡ offset)) }
{
    state.check_start(func, types, offset)
}

/// Notes how many data segments the data count section names.
///
/// # Errors
///
/// The features of memories in bulk are not allowed, or `count` is above the limit of data segments: an error of kind `Other`, at `offset`.
/// The state stays then.
pub fn take_data_count(state: &mut ModuleState, count: u32, offset: u64) -> Result<()>
    ensures answer { (groups : List Group) (z : Settings) (m : ModuleTree)
        → IsBefore section.data_count groups state.old z m → Tells result ((n : ModuleTree)
        × Adds z section.data_count m count n) }
    ensures added { OnOk result ((groups : List Group) (z : Settings) (m n : ModuleTree)
        → IsBefore section.data_count groups state.old z m → Adds z section.data_count m count n
        → IsReading section.data_count groups state.new z n) }
    ensures read { (groups : List Group) → IsReadOver groups state.old.spaces → IsReadOver groups state.new.spaces }
    ensures settings { state.new.spaces.settings ≡ state.old.spaces.settings }
    ensures types { state.new.spaces.types ≡ state.old.spaces.types }
    ensures code { state.new.next_code ≡ state.old.next_code }
    ensures stays { OnErr result (state.new ≡ state.old) }
    ensures refused { IfErr result (λ e. (e.kind ≡ Other) × (e.offset ≡ offset)) }
{
    state.add_data_count(count, offset)
}
