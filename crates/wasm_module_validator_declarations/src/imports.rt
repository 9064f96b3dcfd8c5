//! Imports.

ghost use Rattle.std.specs.Prelude.{◌≡◌, IfErr, OnErr, OnOk};
ghost use Rattle.wasm_types.specs.decoding.Denials.{UnlessMemory};
ghost use Rattle.wasm_module_validator_state.specs.resources.Named.{IsReadOver};
ghost use Rattle.wasm_module_validator_state.specs.Items.{IsLeft};
ghost use Rattle.wasm_module_validator_section_order.specs.rules_in_order.Sections as section;
ghost use Rattle.wasm_module_validator_state.specs.invariant.Standing.{AddsItem, TellsItem};

use wasm_module_validator_state::invariant::ModuleState;
use wasm_module_validator_type_list::TypeList;
use wasm_sections_items::imports::Import;
use wasm_types::Result;

/// Adds an import. It is lent: the borrow checker takes no parameter of this type by value, since a type with a view stands behind a variant
/// of its `TypeRef`.
///
/// # Errors
///
/// Its type is not valid; there is no room for one more of what is imported; or the sizes of types pass their limit: the first of these in
/// that order, at `offset`; or there is no memory. The state stays then; where there is no memory, the import may be found by its names
/// though its space does not have it.
pub fn add_import_item(
    state: &mut ModuleState,
    types: &TypeList,
    import: &Import<'_>,
    offset: u64,
) -> Result<()>
    requires { IsReadOver types.now.groups state.old.spaces }
    ensures answer { TellsItem section.imports types.now.groups state.old
        (record {
          module_name = import.now.«module».now;
          field_name = import.now.name.now;
          ty = import.now.ty;
        }) result }
    ensures added { OnOk result (AddsItem section.imports types.now.groups state.old
        (record { module_name = import.now.«module».now; field_name = import.now.name.now; ty = import.now.ty })
        types.now.groups state.new) }
    ensures read { IsReadOver types.now.groups state.new.spaces }
    ensures settings { state.new.spaces.settings ≡ state.old.spaces.settings }
    ensures types { state.new.spaces.types ≡ state.old.spaces.types }
    ensures code { state.new.next_code ≡ state.old.next_code }
    ensures stays { IfErr result (λ e. UnlessMemory e.kind (state.new ≡ state.old)) }
    ensures left { OnErr result (IsLeft (record {
      module_name = import.now.«module».now;
      field_name = import.now.name.now;
      ty = import.now.ty;
    }) state.old state.new) }
    ensures refused { IfErr result (λ e. UnlessMemory e.kind (e.offset ≡ offset)) }
{
    state.add_import(import.module, import.name, import.ty, types, offset)
}
