//! Globals that the module has itself.

ghost use Rattle.std.specs.Prelude.{◌≡◌, IfErr, IfOk, OnErr, OnOk};
ghost use Rattle.wasm_types.specs.decoding.Denials.{Tells, UnlessMemory};
ghost use Rattle.wasm_types.specs.settings.Limits.{IsWithinCeilings};
ghost use Rattle.wasm_module_validator_resources.specs.Named.{IsReadOver};
ghost use Rattle.wasm_module_validator_resources.specs.referring.Naming.{NamesMore};
ghost use Rattle.wasm_operator_validator_state.specs.resources.Meaning.{global_in};
ghost use Rattle.wasm_module_validator_checks.specs.rules.Spaces.{global_in as global_written};
ghost use Rattle.wasm_module_validator_initialisers.specs.segments.Trees.{global_read};
ghost use Rattle.wasm_module_validator_initialisers.specs.segments.Judged.{IsGlobal};
ghost use Rattle.wasm_module_validator_initialisers.specs.segments.Refusals.{RefusesGlobal};
ghost use Rattle.wasm_module_validator_resources.specs.rules_in_order.Sections as section;
ghost use Rattle.wasm_module_validator_state.specs.invariant.Standing.{constants_of, AddsItem, TellsItem};
ghost use Rattle.wasm_module_validator_initialisers.specs.adding.Refusals.{RefusesNewGlobal};

use crate::adding::marking::refer_to_each;
use crate::adding::naming::name_constant;
use crate::elements::{
    ConstExpr, GlobalOf, OperatorValidatorAllocations, ReferringToAll, Settings,
    WasmModuleResources, check_global,
};
use std::alloc::Global;
use wasm_module_validator_state::invariant::ModuleState;
use wasm_module_validator_type_list::TypeList;
use wasm_types::{GlobalType, Result};

// Checks a global over any module, gives its type over ids, and names the functions that its value refers to.
fn judge_global<R: WasmModuleResources>(
    alloc: Global,
    global: &GlobalOf<ConstExpr<'_>>,
    resources: &R,
    settings: &Settings,
    imported_globals: u32,
    allocs: &mut OperatorValidatorAllocations,
    names: &mut Vec<u32>,
    offset: u64,
) -> Result<GlobalType>
    requires within { IsWithinCeilings settings.now.limits }
    ensures answer { Tells result (IsGlobal settings.now (R.meaning resources.now).«module» imported_globals
        (global_read global.now)) }
    ensures named { IfOk result (λ t. global_in (R.meaning resources.now) t ≡ global_written
        (R.meaning resources.now).«module».types global.now.ty) }
    ensures names { IfOk result (λ _. NamesMore settings.now global.now.init_expr.rest names.old.items
        names.new.items) }
    ensures refused { IfErr result (λ e. UnlessMemory e.kind (RefusesGlobal settings.now
        (R.meaning resources.now) imported_globals offset global.now e)) }
{
    let ty = match check_global(
        alloc,
        global,
        resources,
        settings,
        imported_globals,
        allocs,
        offset,
    ) {
        Ok(ty) => ty,
        Err(error) => return Err(error),
    };
    match name_constant(alloc, &global.init_expr, settings, names) {
        Ok(()) => (),
        Err(error) => return Err(error),
    }
    Ok(ty)
}

// The same in the module that is being read.
fn judge_global_here(
    alloc: Global,
    global: &GlobalOf<ConstExpr<'_>>,
    state: &ModuleState,
    types: &TypeList,
    allocs: &mut OperatorValidatorAllocations,
    names: &mut Vec<u32>,
    offset: u64,
) -> Result<GlobalType>
    requires over { IsReadOver types.now.groups state.now.spaces }
    requires within { IsWithinCeilings state.now.spaces.settings.limits }
    ensures answer { Tells result (IsGlobal state.now.spaces.settings
        (constants_of types.now.groups state.now.spaces).«module» state.now.spaces.imported_globals
        (global_read global.now)) }
    ensures named { IfOk result (λ t. global_in (constants_of types.now.groups state.now.spaces) t ≡ global_written
        (constants_of types.now.groups state.now.spaces).«module».types global.now.ty) }
    ensures names { IfOk result (λ _. NamesMore state.now.spaces.settings global.now.init_expr.rest names.old.items
        names.new.items) }
    ensures refused { IfErr result (λ e. UnlessMemory e.kind (RefusesGlobal state.now.spaces.settings
        (constants_of types.now.groups state.now.spaces) state.now.spaces.imported_globals offset global.now e)) }
{
    let module = state.resources(types);
    judge_global(
        alloc,
        global,
        &ReferringToAll::new(&module),
        &state.settings(),
        state.module().imported_globals(),
        allocs,
        names,
        offset,
    )
}

// The same with the memory that the state keeps for constants.
fn check_new_global(
    alloc: Global,
    global: &GlobalOf<ConstExpr<'_>>,
    state: &mut ModuleState,
    types: &TypeList,
    names: &mut Vec<u32>,
    offset: u64,
) -> Result<GlobalType>
    requires over { IsReadOver types.now.groups state.old.spaces }
    requires within { IsWithinCeilings state.old.spaces.settings.limits }
    ensures answer { Tells result (IsGlobal state.old.spaces.settings
        (constants_of types.now.groups state.old.spaces).«module» state.old.spaces.imported_globals
        (global_read global.now)) }
    ensures named { IfOk result (λ t. global_in (constants_of types.now.groups state.old.spaces) t ≡ global_written
        (constants_of types.now.groups state.old.spaces).«module».types global.now.ty) }
    ensures names { IfOk result (λ _. NamesMore state.old.spaces.settings global.now.init_expr.rest names.old.items
        names.new.items) }
    ensures refused { IfErr result (λ e. UnlessMemory e.kind (RefusesGlobal state.old.spaces.settings
        (constants_of types.now.groups state.old.spaces) state.old.spaces.imported_globals offset global.now e)) }
    ensures stays { state.new ≡ state.old }
{
    let mut allocs = state.take_const_expr_allocs(alloc);
    let answer = judge_global_here(alloc, global, state, types, &mut allocs, names, offset);
    state.keep_const_expr_allocs(allocs);
    answer
}

/// Checks a global that the module has itself, and adds it; code may then refer to the functions that its value names. Where the state
/// stands for a tree it is Ok exactly if the global may be added to the tree, out of memory aside, and the state then stands for
/// each tree with the global more (WebAssembly 3.0, validation, modules, globals).
///
/// # Errors
///
/// The type is not valid, or the bytes of the value spell no constant of it; or there are as many globals as the limit: the first of
/// these, the constant inside its bytes, the others at `offset`. Or there is no memory. The state stays then.
pub fn add_global(
    alloc: Global,
    state: &mut ModuleState,
    types: &TypeList,
    global: GlobalOf<ConstExpr<'_>>,
    offset: u64,
) -> Result<()>
    requires over { IsReadOver types.now.groups state.old.spaces }
    requires within { IsWithinCeilings state.old.spaces.settings.limits }
    ensures answer { TellsItem section.globals types.now.groups state.old (global_read global.entry) result }
    ensures added { OnOk result (AddsItem section.globals types.now.groups state.old
        (global_read global.entry) types.now.groups state.new) }
    ensures read { IsReadOver types.now.groups state.new.spaces }
    ensures settings { state.new.spaces.settings ≡ state.old.spaces.settings }
    ensures types { state.new.spaces.types ≡ state.old.spaces.types }
    ensures code { state.new.next_code ≡ state.old.next_code }
    ensures stays { OnErr result (state.new ≡ state.old) }
    ensures refused { IfErr result (λ e. UnlessMemory e.kind (RefusesNewGlobal types.now.groups state.old offset
        global.entry e)) }
{
    let mut names = Vec::new(alloc);
    let ty = match check_new_global(alloc, &global, state, types, &mut names, offset) {
        Ok(ty) => ty,
        Err(error) => return Err(error),
    };
    match state.push_global(ty, offset) {
        Ok(()) => (),
        Err(error) => return Err(error),
    }
    refer_to_each(state, names.as_slice());
    Ok(())
}
