//! Globals.

ghost use Rattle.std.specs.Prelude.{◌≡◌, IfErr, IfOk};
ghost use Rattle.wasm_types.specs.decoding.Denials.{Tells, UnlessMemory};
ghost use Rattle.wasm_types.specs.settings.Limits.{IsWithinCeilings};
ghost use Rattle.wasm_operator_validator_state.specs.resources.Meaning.{global_in};
ghost use Rattle.wasm_module_validator_checks.specs.rules.Spaces.{global_in as global_written};
ghost use Rattle.wasm_module_validator_initialisers.specs.segments.Trees.{global_read};
ghost use Rattle.wasm_module_validator_initialisers.specs.segments.Judged.{IsGlobal};
ghost use Rattle.wasm_module_validator_initialisers.specs.segments.Refusals.{RefusesGlobal};

use crate::segments::constants::check_constant;
use std::alloc::Global;
use wasm_module_validator_checks::externs::{Settings, check_global_type};
use wasm_operator_validator_constants::{
    ConstExpr, OperatorValidatorAllocations, WasmModuleResources,
};
use wasm_sections_items::segments::GlobalOf;
use wasm_types::{GlobalType, Result};

/// Checks a global that the module has itself, and gives its type, over ids: Ok exactly if it is valid in the module so far, of
/// whose globals the first so many are imported, out of memory aside (WebAssembly 3.0, validation, modules, globals). Its value sees
/// the globals that the module has. The memory of `allocs` is used.
///
/// # Errors
///
/// The type is not valid, or the bytes of the value spell no constant of it: the first of these, the type at `offset`, the constant
/// inside its bytes; or there is no memory.
pub fn check_global<R: WasmModuleResources>(
    alloc: Global,
    global: &GlobalOf<ConstExpr<'_>>,
    resources: &R,
    settings: &Settings,
    imported_globals: u32,
    allocs: &mut OperatorValidatorAllocations,
    offset: u64,
) -> Result<GlobalType>
    requires within { IsWithinCeilings settings.now.limits }
    ensures answer { Tells result (IsGlobal settings.now (R.meaning resources.now).«module» imported_globals
        (global_read global.now)) }
    ensures named { IfOk result (λ t. global_in (R.meaning resources.now) t ≡ global_written
        (R.meaning resources.now).«module».types global.now.ty) }
    ensures refused { IfErr result (λ e. UnlessMemory e.kind (RefusesGlobal settings.now
        (R.meaning resources.now) imported_globals offset global.now e)) }
{
    let mut ty = global.ty;
    match check_global_type(resources, &mut ty, settings, offset) {
        Ok(()) => (),
        Err(error) => return Err(error),
    }
    match check_constant(
        alloc,
        &global.init_expr,
        ty.content_type,
        resources,
        settings,
        imported_globals,
        allocs,
    ) {
        Ok(()) => (),
        Err(error) => return Err(error),
    }
    Ok(ty)
}
