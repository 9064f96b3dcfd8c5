//! Tables that the module has itself.

ghost use Rattle.std.specs.Prelude.{◌≡◌, ◌≤◌, IfErr, IfOk, OnErr, OnOk, length};
ghost use Rattle.wasm_types.specs.decoding.Denials.{Tells, UnlessMemory};
ghost use Rattle.wasm_types.specs.settings.Limits.{IsWithinCeilings};
ghost use Rattle.wasm_module_validator_resources.specs.Named.{IsReadOver};
ghost use Rattle.wasm_sections_items.specs.segments.Tables.{init_of};
ghost use Rattle.wasm_operator_validator_state.specs.resources.Meaning.{table_in};
ghost use Rattle.wasm_module_validator_checks.specs.rules.Spaces.{table_in as table_written};
ghost use Rattle.wasm_module_validator_initialisers.specs.segments.Trees.{bytes_of, table_read};
ghost use Rattle.wasm_module_validator_initialisers.specs.segments.Judged.{IsTable};
ghost use Rattle.wasm_module_validator_initialisers.specs.segments.Refusals.{RefusesTable};
ghost use Rattle.wasm_module_validator_resources.specs.rules_in_order.Sections as section;
ghost use Rattle.wasm_module_validator_state.specs.invariant.Standing.{constants_of, AddsItem, TellsItem};
ghost use Rattle.wasm_module_validator_initialisers.specs.adding.Read.{NamesInit};
ghost use Rattle.wasm_module_validator_initialisers.specs.adding.Refusals.{RefusesNewTable};

use crate::adding::marking::refer_to_each;
use crate::adding::naming::name_init;
use crate::elements::{
    ConstExpr, OperatorValidatorAllocations, ReferringToAll, Settings, TableOf,
    WasmModuleResources, check_table,
};
use std::alloc::Global;
use wasm_module_validator_state::invariant::ModuleState;
use wasm_module_validator_type_list::TypeList;
use wasm_types::{Result, TableType};

// Checks a table over any module, gives its type over ids, with the sizes that are written, and names the functions that its expression refers to. Where tables come in
// turn the module has no globals but those that are imported.
fn judge_table<R: WasmModuleResources>(
    alloc: Global,
    table: &TableOf<ConstExpr<'_>>,
    resources: &R,
    settings: &Settings,
    imported_globals: u32,
    allocs: &mut OperatorValidatorAllocations,
    names: &mut Vec<u32>,
    offset: u64,
) -> Result<TableType>
    requires within { IsWithinCeilings settings.now.limits }
    ensures in_turn { length (R.meaning resources.now).«module».globals ≤ imported_globals
        → Tells result (IsTable settings.now (R.meaning resources.now).«module» imported_globals
        (table_read table.now)) }
    ensures named { IfOk result (λ t. table_in (R.meaning resources.now) t ≡ table_written
        (R.meaning resources.now).«module».types table.now.ty) }
    ensures sizes { IfOk result (λ t. (t.initial ≡ table.now.ty.initial) × (t.maximum ≡ table.now.ty.maximum)) }
    ensures names { IfOk result (λ _. NamesInit settings.now (init_of bytes_of table.now.init) names.old.items
        names.new.items) }
    ensures refused { IfErr result (λ e. UnlessMemory e.kind (RefusesTable settings.now
        (R.meaning resources.now) imported_globals offset table.now e)) }
{
    let ty = match check_table(
        alloc,
        table,
        resources,
        settings,
        imported_globals,
        allocs,
        offset,
    ) {
        Ok(ty) => ty,
        Err(error) => return Err(error),
    };
    match name_init(alloc, &table.init, settings, names) {
        Ok(()) => (),
        Err(error) => return Err(error),
    }
    Ok(ty)
}

// The same in the module that is being read.
fn judge_table_here(
    alloc: Global,
    table: &TableOf<ConstExpr<'_>>,
    state: &ModuleState,
    types: &TypeList,
    allocs: &mut OperatorValidatorAllocations,
    names: &mut Vec<u32>,
    offset: u64,
) -> Result<TableType>
    requires over { IsReadOver types.now.groups state.now.spaces }
    requires within { IsWithinCeilings state.now.spaces.settings.limits }
    ensures in_turn { length (constants_of types.now.groups state.now.spaces).«module».globals
        ≤ state.now.spaces.imported_globals
        → Tells result (IsTable state.now.spaces.settings (constants_of types.now.groups state.now.spaces).«module»
        state.now.spaces.imported_globals (table_read table.now)) }
    ensures named { IfOk result (λ t. table_in (constants_of types.now.groups state.now.spaces) t ≡ table_written
        (constants_of types.now.groups state.now.spaces).«module».types table.now.ty) }
    ensures sizes { IfOk result (λ t. (t.initial ≡ table.now.ty.initial) × (t.maximum ≡ table.now.ty.maximum)) }
    ensures names { IfOk result (λ _. NamesInit state.now.spaces.settings
        (init_of bytes_of table.now.init) names.old.items names.new.items) }
    ensures refused { IfErr result (λ e. UnlessMemory e.kind (RefusesTable state.now.spaces.settings
        (constants_of types.now.groups state.now.spaces) state.now.spaces.imported_globals offset table.now e)) }
{
    let module = state.resources(types);
    judge_table(
        alloc,
        table,
        &ReferringToAll::new(&module),
        &state.settings(),
        state.module().imported_globals(),
        allocs,
        names,
        offset,
    )
}

// The same with the memory that the state keeps for constants.
fn check_new_table(
    alloc: Global,
    table: &TableOf<ConstExpr<'_>>,
    state: &mut ModuleState,
    types: &TypeList,
    names: &mut Vec<u32>,
    offset: u64,
) -> Result<TableType>
    requires over { IsReadOver types.now.groups state.old.spaces }
    requires within { IsWithinCeilings state.old.spaces.settings.limits }
    ensures in_turn { length (constants_of types.now.groups state.old.spaces).«module».globals
        ≤ state.old.spaces.imported_globals
        → Tells result (IsTable state.old.spaces.settings (constants_of types.now.groups state.old.spaces).«module»
        state.old.spaces.imported_globals (table_read table.now)) }
    ensures named { IfOk result (λ t. table_in (constants_of types.now.groups state.old.spaces) t ≡ table_written
        (constants_of types.now.groups state.old.spaces).«module».types table.now.ty) }
    ensures sizes { IfOk result (λ t. (t.initial ≡ table.now.ty.initial) × (t.maximum ≡ table.now.ty.maximum)) }
    ensures names { IfOk result (λ _. NamesInit state.old.spaces.settings
        (init_of bytes_of table.now.init) names.old.items names.new.items) }
    ensures refused { IfErr result (λ e. UnlessMemory e.kind (RefusesTable state.old.spaces.settings
        (constants_of types.now.groups state.old.spaces) state.old.spaces.imported_globals offset table.now e)) }
    ensures stays { state.new ≡ state.old }
{
    let mut allocs = state.take_const_expr_allocs(alloc);
    let answer = judge_table_here(alloc, table, state, types, &mut allocs, names, offset);
    state.keep_const_expr_allocs(allocs);
    answer
}

/// Checks a table that the module has itself, and adds it; code may then refer to the functions that its expression names. Where the state
/// stands for a tree it is Ok exactly if the table may be added to the tree, out of memory aside, and the state then stands for each
/// tree with the table more (WebAssembly 3.0, validation, modules, tables).
///
/// # Errors
///
/// The type is not valid; there is no expression, and the elements are never null; or there is one, which no feature allows or whose
/// bytes spell no constant of the type; or there are as many tables as the limit: the first of these, a constant inside its bytes, the
/// others at `offset`. Or there is no memory. The state stays then.
pub fn add_table(
    alloc: Global,
    state: &mut ModuleState,
    types: &TypeList,
    table: TableOf<ConstExpr<'_>>,
    offset: u64,
) -> Result<()>
    requires over { IsReadOver types.now.groups state.old.spaces }
    requires within { IsWithinCeilings state.old.spaces.settings.limits }
    ensures answer { TellsItem section.tables types.now.groups state.old (table_read table.entry) result }
    ensures added { OnOk result (AddsItem section.tables types.now.groups state.old
        (table_read table.entry) types.now.groups state.new) }
    ensures read { IsReadOver types.now.groups state.new.spaces }
    ensures settings { state.new.spaces.settings ≡ state.old.spaces.settings }
    ensures types { state.new.spaces.types ≡ state.old.spaces.types }
    ensures code { state.new.next_code ≡ state.old.next_code }
    ensures stays { OnErr result (state.new ≡ state.old) }
    ensures refused { IfErr result (λ e. UnlessMemory e.kind (RefusesNewTable types.now.groups state.old offset
        table.entry e)) }
{
    let mut names = Vec::new(alloc);
    let ty = match check_new_table(alloc, &table, state, types, &mut names, offset) {
        Ok(ty) => ty,
        Err(error) => return Err(error),
    };
    match state.push_table(ty, offset) {
        Ok(()) => (),
        Err(error) => return Err(error),
    }
    refer_to_each(state, names.as_slice());
    Ok(())
}
