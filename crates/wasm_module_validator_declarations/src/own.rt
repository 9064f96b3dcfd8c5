//! Functions, memories and tags that the module has itself.

ghost use Rattle.std.specs.Prelude.{◌≡◌, IfErr, List, OnErr, OnOk};
ghost use Rattle.wasm_types.specs.decoding.Denials.{UnlessMemory};
ghost use Rattle.wasm_module_validator_state.specs.resources.Named.{IsReadOver};
ghost use Rattle.wasm_module_validator_type_storage.specs.trees.Groups.{Group};
ghost use Rattle.wasm_module_validator_section_order.specs.rules_in_order.Sections as section;
ghost use Rattle.wasm_module_validator_state.specs.invariant.Standing.{AddsItem, TellsItem};

use wasm_module_validator_state::invariant::ModuleState;
use wasm_module_validator_type_list::TypeList;
use wasm_types::{MemoryType, Result, TagType};

/// Adds a function, by the index of its type.
///
/// # Errors
///
/// The module has no function type there, or as many functions as the limit, at `offset`; or there is no memory. The state stays then.
pub fn add_function_item(
    state: &mut ModuleState,
    types: &TypeList,
    type_index: u32,
    offset: u64,
) -> Result<()>
    requires { IsReadOver types.now.groups state.old.spaces }
    ensures answer { TellsItem section.functions types.now.groups state.old type_index result }
    ensures added { OnOk result (AddsItem section.functions types.now.groups state.old type_index
        types.now.groups state.new) }
    ensures read { IsReadOver types.now.groups state.new.spaces }
    ensures settings { state.new.spaces.settings ≡ state.old.spaces.settings }
    ensures types { state.new.spaces.types ≡ state.old.spaces.types }
    ensures code { state.new.next_code ≡ state.old.next_code }
    ensures stays { OnErr result (state.new ≡ state.old) }
    ensures refused { IfErr result (λ e. UnlessMemory e.kind (e.offset ≡ offset)) }
{
    state.add_function(type_index, types, offset)
}

/// Adds a memory. Whatever types the module has, they do not matter.
///
/// # Errors
///
/// Its type is not valid, or there are as many memories as there may be: the first of these, at `offset`; or there is no memory for it. The
/// state stays then.
pub fn add_memory_item(state: &mut ModuleState, ty: MemoryType, offset: u64) -> Result<()>
    ensures answer { (groups : List Group) → TellsItem section.memories groups state.old ty result }
    ensures added { OnOk result ((groups : List Group) → AddsItem section.memories groups state.old ty
        groups state.new) }
    ensures read { (groups : List Group) → IsReadOver groups state.old.spaces → IsReadOver groups state.new.spaces }
    ensures settings { state.new.spaces.settings ≡ state.old.spaces.settings }
    ensures types { state.new.spaces.types ≡ state.old.spaces.types }
    ensures code { state.new.next_code ≡ state.old.next_code }
    ensures stays { OnErr result (state.new ≡ state.old) }
    ensures refused { IfErr result (λ e. UnlessMemory e.kind (e.offset ≡ offset)) }
{
    state.add_memory(ty, offset)
}

/// Adds a tag.
///
/// # Errors
///
/// Its type is not valid, or there are as many tags as the limit: the first of these, at `offset`; or there is no memory. The state stays
/// then.
pub fn add_tag_item(
    state: &mut ModuleState,
    types: &TypeList,
    ty: TagType,
    offset: u64,
) -> Result<()>
    requires { IsReadOver types.now.groups state.old.spaces }
    ensures answer { TellsItem section.tags types.now.groups state.old ty result }
    ensures added { OnOk result (AddsItem section.tags types.now.groups state.old ty types.now.groups state.new) }
    ensures read { IsReadOver types.now.groups state.new.spaces }
    ensures settings { state.new.spaces.settings ≡ state.old.spaces.settings }
    ensures types { state.new.spaces.types ≡ state.old.spaces.types }
    ensures code { state.new.next_code ≡ state.old.next_code }
    ensures stays { OnErr result (state.new ≡ state.old) }
    ensures refused { IfErr result (λ e. UnlessMemory e.kind (e.offset ≡ offset)) }
{
    state.add_tag(ty, types, offset)
}
