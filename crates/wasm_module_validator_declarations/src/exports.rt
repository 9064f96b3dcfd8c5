//! Exports.

ghost use Rattle.std.specs.Prelude.{◌≡◌, IfErr, OnErr, OnOk};
ghost use Rattle.wasm_types.specs.decoding.Denials.{UnlessMemory};
ghost use Rattle.wasm_module_validator_state.specs.resources.Named.{IsReadOver};
ghost use Rattle.wasm_module_validator_section_order.specs.rules_in_order.Sections as section;
ghost use Rattle.wasm_module_validator_state.specs.invariant.Standing.{AddsItem, TellsItem};

use wasm_module_validator_state::invariant::ModuleState;
use wasm_module_validator_type_list::TypeList;
use wasm_sections_items::imports::Export;
use wasm_types::Result;

/// Adds an export; code may then refer to a function that is exported. How many exports there may be is tested where their section begins.
///
/// # Errors
///
/// The index is past the end of its space, or the global is mutable and may not be exported; the sizes of types pass their limit; or the
/// name is taken: the first of these in that order, at `offset`; or there is no memory. The state stays then.
pub fn add_export_item(
    state: &mut ModuleState,
    types: &TypeList,
    export: Export<'_>,
    offset: u64,
) -> Result<()>
    requires { IsReadOver types.now.groups state.old.spaces }
    ensures answer { TellsItem section.exports types.now.groups state.old
        (record { name = export.entry.name.now; kind = export.entry.kind; index = export.entry.index }) result }
    ensures added { OnOk result (AddsItem section.exports types.now.groups state.old
        (record { name = export.entry.name.now; kind = export.entry.kind; index = export.entry.index })
        types.now.groups state.new) }
    ensures read { IsReadOver types.now.groups state.new.spaces }
    ensures settings { state.new.spaces.settings ≡ state.old.spaces.settings }
    ensures types { state.new.spaces.types ≡ state.old.spaces.types }
    ensures code { state.new.next_code ≡ state.old.next_code }
    ensures stays { OnErr result (state.new ≡ state.old) }
    ensures refused { IfErr result (λ e. UnlessMemory e.kind (e.offset ≡ offset)) }
{
    state.add_export(export.name, export.kind, export.index, types, offset, false)
}
