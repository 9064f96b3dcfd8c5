//! Groups of types.

ghost use Rattle.std.specs.Prelude.{◌≡◌, ◌↔◌, ◌+◌, ◌<◌, ◌≤◌, ◌^◌, IfErr, IsTrue, OnErr, OnOk, codes, false, length};
ghost use Rattle.wasm_types.specs.decoding.Denials.{Tells, RefusedAt};
ghost use Rattle.wasm_types.specs.decoding.declared.error.ErrorKind.TheVariants.{Other};
ghost use Rattle.wasm_types.specs.Entries.{declared_types};
ghost use Rattle.wasm_types.specs.settings.Limits.{IsWithinCeilings};
ghost use Rattle.wasm_types.specs.settings.Settings.{Settings};
ghost use Rattle.wasm_module_validator_type_list.specs.List.{max_types};
ghost use Rattle.wasm_module_validator_section_order.specs.items.Adding.{UnlessFull};
ghost use Rattle.wasm_module_validator_canonical_types.specs.Written.{AreModuleIndices};
ghost use Rattle.wasm_module_validator_type_groups.specs.adding.Interned.{written_group};
ghost use Rattle.wasm_module_validator_type_storage.specs.trees.Groups.{count};
ghost use Rattle.wasm_module_validator_type_storage.specs.trees.Formed.{IsFormed};
ghost use Rattle.wasm_module_validator_state.specs.resources.Named.{IsReadOver};
ghost use Rattle.wasm_module_validator_section_order.specs.rules.Syntax.{ModuleTree};
ghost use Rattle.wasm_module_validator_section_order.specs.rules_in_order.Sections as section;
ghost use Rattle.wasm_module_validator_section_order.specs.rules_in_order.Texts.{AddsRead};
ghost use Rattle.wasm_module_validator_state.specs.invariant.Standing.{AddsItem, GrowsWith, IsReading};
ghost use Rattle.wasm_module_validator_declarations.specs.Total.{HasGroupNext, IsPastTotal};

use wasm_module_validator_checks::limits::too_many;
use wasm_module_validator_state::invariant::ModuleState;
use wasm_module_validator_type_list::{MAX_TYPES, TypeList};
use wasm_types::{Error, ModuleWords, RecGroup, Result, Words};

// Refuses a group of so many types behind as many groups as the limit of types, and one with which there are more types.
fn check_fit(state: &ModuleState, groups: u32, further: usize, offset: u64) -> Result<()>
    ensures answer { Tells result ((groups < state.now.spaces.settings.limits.types)
        × (length state.now.spaces.types + further ≤ state.now.spaces.settings.limits.types)) }
    ensures refused { IfErr result (λ e. (e.kind ≡ Other) × (e.offset ≡ offset)) }
{
    let most = state.settings().limits().types;
    let before = state.module().type_ids().len();
    if groups >= most || before > most as usize || further > most as usize - before {
        return Err(too_many(most, Words::Module(ModuleWords::Types), offset));
    }
    Ok(())
}

// The refusal of a group with which the list would have more types than it may.
#[cold]
fn past_total(offset: u64) -> Error
    ensures { result ≡ record {
      kind = Other;
      offset = offset;
      message = codes "implementation limit: too many core types";
    } }
{
    Error::new(
        Words::Module(ModuleWords::ImplementationLimitTooManyCoreTypes),
        offset,
    )
}

// Whether a list may have so many types more.
fn is_within_total(types: &TypeList, further: usize) -> bool
    ensures within { IsTrue result → count types.now.groups + further ≤ max_types }
    ensures past { result ≡ false → max_types < count types.now.groups + further }
    ensures formed { IsFormed types.now.groups }
{
    further <= MAX_TYPES - types.type_count()
}

// Whether there is a number for a group more.
fn has_number(types: &TypeList) -> bool
    ensures { IsTrue result ↔ (length types.now.groups < 2 ^ 32) }
{
    types.group_count() < 1 << 32
}

/// Adds a group of types, behind so many groups of the module.
///
/// # Errors
///
/// There are as many groups as the limit of types, or more types with the group than that; or the list, which has 2^20 types at most, would
/// have more with the group, whether it has the group already or not; or the group is not valid behind the types of the module: the first
/// of these in that order, at `offset`; or there is no memory. The state stays then; the list may have the group.
pub fn add_group(
    state: &mut ModuleState,
    types: &mut TypeList,
    groups: u32,
    rec_group: RecGroup,
    offset: u64,
) -> Result<()>
    requires can_intern { IsTrue types.old.can_intern }
    requires read { IsReadOver types.old.groups state.old.spaces }
    requires within { IsWithinCeilings state.old.spaces.settings.limits }
    requires indices { AreModuleIndices (declared_types rec_group) }
    ensures answer { UnlessFull (IsPastTotal types.old.groups state.old
        (HasGroupNext types.old.groups state.old (written_group rec_group))) result
        ((z : Settings) (m : ModuleTree) → IsReading section.types types.old.groups state.old z m
        → groups ≡ length m.types
        → Tells result ((n : ModuleTree) × AddsRead z section.types m (written_group rec_group) n)) }
    ensures added { OnOk result (AddsItem section.types types.old.groups state.old
        (written_group rec_group) types.new.groups state.new) }
    ensures fewer { OnOk result (groups < state.old.spaces.settings.limits.types) }
    ensures small { OnOk result (groups < max_types) }
    ensures read { OnOk result (IsReadOver types.new.groups state.new.spaces) }
    ensures settings { state.new.spaces.settings ≡ state.old.spaces.settings }
    ensures code { state.new.next_code ≡ state.old.next_code }
    ensures stays { OnErr result (state.new ≡ state.old) }
    ensures refused { RefusedAt offset result }
    ensures can_intern { IsTrue types.new.can_intern }
    ensures limits { types.new.limits ≡ types.old.limits }
    ensures grown { OnOk result (GrowsWith types.old.groups state.old.spaces types.new.groups state.new.spaces) }
{
    let further = rec_group.types().len();
    match check_fit(state, groups, further, offset) {
        Ok(()) => (),
        Err(error) => return Err(error),
    }
    if !is_within_total(types, further) {
        return Err(past_total(offset));
    }
    if !has_number(types) {
        return Err(Error::out_of_memory(offset));
    }
    state.add_types(rec_group, types, offset, true)
}
