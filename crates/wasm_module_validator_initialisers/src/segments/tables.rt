//! Tables.

ghost use Rattle.std.specs.Prelude.{◌≡◌, ◌≤◌, IfErr, IfOk, length};
ghost use Rattle.wasm_types.specs.decoding.Denials.{Tells, UnlessMemory};
ghost use Rattle.wasm_types.specs.decoding.declared.error.ErrorKind.TheVariants.{Other};
ghost use Rattle.wasm_types.specs.settings.Features.{FunctionReferences};
ghost use Rattle.wasm_types.specs.settings.Limits.{IsWithinCeilings};
ghost use Rattle.wasm_types.specs.trees.Gates.{Has};
ghost use Rattle.wasm_types.specs.values.declared.value.ValType.TheVariants as value;
ghost use Rattle.wasm_operator_validator_state.specs.resources.Meaning.{reference_in, table_in};
ghost use Rattle.wasm_module_validator_checks.specs.rules.Spaces.{value_in, table_in as table_written};
ghost use Rattle.wasm_sections_items.specs.segments.Tables.{init_of};
ghost use Rattle.wasm_module_validator_initialisers.specs.segments.Trees.{bytes_of, table_read};
ghost use Rattle.wasm_module_validator_initialisers.specs.segments.Judged.{IsTable, IsTableHere, IsInitText};
ghost use Rattle.wasm_module_validator_initialisers.specs.segments.Refusals.{IsMissing, RefusesInit, RefusesTable};

use crate::segments::constants::check_constant;
use std::alloc::Global;
use wasm_module_validator_checks::externs::{Settings, check_table_type, require};
use wasm_operator_validator_constants::{
    ConstExpr, OperatorValidatorAllocations, WasmModuleResources,
};
use wasm_sections_items::segments::{TableInitOf, TableOf};
use wasm_types::{Error, ModuleWords, RefType, Result, TableType, ValType, WasmFeatures, Words};

// Asks for the feature of tables with expressions.
#[tactic(auto, unfolding(crate::specs::segments::Refusals::has))]
fn check_allowed(settings: &Settings, offset: u64) -> Result<()>
    ensures answer { Tells result (Has settings.now.features FunctionReferences) }
    ensures refused { IfErr result (IsMissing settings.now FunctionReferences offset) }
{
    require(
        settings.features().function_references(),
        WasmFeatures::FUNCTION_REFERENCES,
        Words::Module(
            ModuleWords::TablesWithExpressionInitializersRequireTheFunctionReferencesProposal,
        ),
        offset,
    )
}

// What elements of a type, over ids, are at first.
fn check_init<R: WasmModuleResources>(
    alloc: Global,
    init: &TableInitOf<ConstExpr<'_>>,
    element_type: RefType,
    resources: &R,
    settings: &Settings,
    imported_globals: u32,
    allocs: &mut OperatorValidatorAllocations,
    offset: u64,
) -> Result<()>
    requires within { IsWithinCeilings settings.now.limits }
    ensures answer { Tells result (IsInitText settings.now (R.meaning resources.now).«module» imported_globals
        element_type.nullable
        (reference_in (R.meaning resources.now) element_type) (init_of bytes_of init.now)) }
    ensures refused { IfErr result (λ e. UnlessMemory e.kind (RefusesInit settings.now
        (R.meaning resources.now) imported_globals offset element_type.nullable
        (reference_in (R.meaning resources.now) element_type) init.now e)) }
{
    match init {
        TableInitOf::RefNull => {
            if !element_type.is_nullable() {
                return Err(Error::new(
                    Words::Module(ModuleWords::TypeMismatchNonDefaultableElementType),
                    offset,
                ));
            }
            Ok(())
        }
        TableInitOf::Expr(expr) => {
            match check_allowed(settings, offset) {
                Ok(()) => (),
                Err(error) => return Err(error),
            }
            check_constant(
                alloc,
                expr,
                ValType::Ref(element_type),
                resources,
                settings,
                imported_globals,
                allocs,
            )
        }
    }
}

/// Checks a table that the module has itself, and gives its type, over ids: Ok exactly if it is valid in the module so far, of
/// whose globals the first so many are imported, out of memory aside (WebAssembly 3.0, validation, modules, tables). Its expression
/// sees the globals that the module has, which are the imported ones where tables come in turn. The memory of `allocs` is used.
///
/// # Errors
///
/// The type is not valid; there is no expression, and the elements are never null; or there is one, which no feature allows or whose
/// bytes spell no constant of the type: the first of these, a constant inside its bytes, the others at `offset`; or there is no
/// memory.
pub fn check_table<R: WasmModuleResources>(
    alloc: Global,
    table: &TableOf<ConstExpr<'_>>,
    resources: &R,
    settings: &Settings,
    imported_globals: u32,
    allocs: &mut OperatorValidatorAllocations,
    offset: u64,
) -> Result<TableType>
    requires within { IsWithinCeilings settings.now.limits }
    ensures answer { Tells result (IsTableHere settings.now (R.meaning resources.now).«module» imported_globals
        (table_read table.now)) }
    ensures in_turn { length (R.meaning resources.now).«module».globals ≤ imported_globals
        → Tells result (IsTable settings.now (R.meaning resources.now).«module» imported_globals
        (table_read table.now)) }
    ensures named { IfOk result (λ t. table_in (R.meaning resources.now) t ≡ table_written
        (R.meaning resources.now).«module».types table.now.ty) }
    ensures sizes { IfOk result (λ t. (t.initial ≡ table.now.ty.initial) × (t.maximum ≡ table.now.ty.maximum)) }
    ensures refused { IfErr result (λ e. UnlessMemory e.kind (RefusesTable settings.now
        (R.meaning resources.now) imported_globals offset table.now e)) }
{
    let mut ty = table.ty;
    match check_table_type(resources, &mut ty, settings, offset) {
        Ok(()) => (),
        Err(error) => return Err(error),
    }
    match check_init(
        alloc,
        &table.init,
        ty.element_type,
        resources,
        settings,
        imported_globals,
        allocs,
        offset,
    ) {
        Ok(()) => (),
        Err(error) => return Err(error),
    }
    Ok(ty)
}
