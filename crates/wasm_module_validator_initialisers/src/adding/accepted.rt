//! Globals of any type, of which one pass over its bytes judges the value.

ghost use Rattle.std.specs.Prelude.{◌≡◌, ◌≤◌, length, IfNone, IfSome};
ghost use Rattle.wasm_types.specs.externs.Spells.{SpelledGlobal};
ghost use Rattle.wasm_module_validator_resources.specs.Named.{IsReadOver};
ghost use Rattle.wasm_module_validator_resources.specs.rules_in_order.Between.{IsBetween};
ghost use Rattle.wasm_module_validator_state.specs.invariant.Standing.{constants_of};
ghost use Rattle.wasm_module_validator_initialisers.specs.adding.Short.{AddsGlobal, IsTypedGlobal};

use crate::elements::{ReferringToAll, Settings, WasmModuleResources};
use std::alloc::Global;
use wasm_module_validator_checks::externs::check_global_type;
use wasm_module_validator_fast_constants::accepts_constant;
use wasm_module_validator_state::invariant::ModuleState;
use wasm_module_validator_type_list::TypeList;
use wasm_types::{BinaryReader, GlobalType};

// The type of the global at an offset, and where it ends. No feature and no limit is asked.
fn type_at(alloc: Global, bytes: &[u8], at: usize) -> Option<(GlobalType, usize)>
    requires { at ≤ length bytes.now }
    ensures { IfSome result (λ r. IsBetween (SpelledGlobal r.0) bytes.now at r.1) }
{
    let mut reader = BinaryReader::new(&bytes[at..], 0);
    let Ok(ty) = reader.read::<GlobalType>(alloc) else {
        return None;
    };
    let left = reader.bytes_remaining();
    Some((ty, bytes.len() - left))
}

// The type of a global over ids, and where its value ends, which begins at an offset. If a growth is refused, `lacks` is set.
fn judge<R: WasmModuleResources>(
    alloc: Global,
    ty: &GlobalType,
    bytes: &[u8],
    at: usize,
    resources: &R,
    settings: &Settings,
    lacks: &mut bool,
) -> Option<(GlobalType, usize)>
    requires { at ≤ length bytes.now }
    ensures { IfSome result (λ r. IsTypedGlobal settings.now (R.meaning resources.now) ty.now r.0 bytes.now at r.1) }
{
    let mut named = *ty;
    let Ok(()) = check_global_type(resources, &mut named, settings, 0) else {
        return None;
    };
    let features = settings.features();
    let content_type = named.content_type;
    let mut stack = Vec::new(alloc);
    let Some(end) = accepts_constant(
        bytes,
        at,
        &content_type,
        resources,
        &features,
        &mut stack,
        lacks,
    ) else {
        return None;
    };
    Some((named, end))
}

// The same in the module that is being read.
fn judge_here(
    alloc: Global,
    ty: &GlobalType,
    bytes: &[u8],
    at: usize,
    state: &ModuleState,
    types: &TypeList,
    lacks: &mut bool,
) -> Option<(GlobalType, usize)>
    requires over { IsReadOver types.now.groups state.now.spaces }
    requires inside { at ≤ length bytes.now }
    ensures { IfSome result (λ r. IsTypedGlobal state.now.spaces.settings
        (constants_of types.now.groups state.now.spaces) ty.now r.0 bytes.now at r.1) }
{
    let module = state.resources(types);
    judge(
        alloc,
        ty,
        bytes,
        at,
        &ReferringToAll::new(&module),
        &state.settings(),
        lacks,
    )
}

/// Adds the global at an offset of these bytes, if it may be added and one pass over its value tells that, and answers where it ends. Else the
/// state stays (WebAssembly 3.0, validation, modules, globals).
pub(crate) fn add_accepted_global(
    alloc: Global,
    state: &mut ModuleState,
    types: &TypeList,
    bytes: &[u8],
    at: usize,
) -> Option<usize>
    requires over { IsReadOver types.now.groups state.old.spaces }
    requires inside { at ≤ length bytes.now }
    ensures added { IfSome result (AddsGlobal types.now.groups state.old state.new bytes.now at) }
    ensures over { IsReadOver types.now.groups state.new.spaces }
    ensures settings { state.new.spaces.settings ≡ state.old.spaces.settings }
    ensures types { state.new.spaces.types ≡ state.old.spaces.types }
    ensures stays { IfNone result (state.new ≡ state.old) }
{
    let Some((ty, middle)) = type_at(alloc, bytes, at) else {
        return None;
    };
    let mut lacks = false;
    let Some((named, end)) = judge_here(alloc, &ty, bytes, middle, state, types, &mut lacks) else {
        state.note_lack(lacks);
        return None;
    };
    match state.push_global(named, 0) {
        Ok(()) => Some(end),
        Err(error) => {
            state.note(&error);
            None
        }
    }
}
