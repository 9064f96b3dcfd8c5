//! How segments are used: where active ones are copied.

ghost use Rattle.std.specs.Prelude.{◌≡◌, IfErr, IfOk};
ghost use Rattle.wasm_types.specs.decoding.Denials.{Tells, UnlessMemory};
ghost use Rattle.wasm_types.specs.decoding.declared.error.ErrorKind.TheVariants.{Other};
ghost use Rattle.wasm_types.specs.settings.Features.{BulkMemory};
ghost use Rattle.wasm_types.specs.settings.Limits.{IsWithinCeilings};
ghost use Rattle.wasm_types.specs.trees.Gates.{Has};
ghost use Rattle.wasm_sections_items.specs.declared.elements.element.ElementKindOf.TheVariants as kinds;
ghost use Rattle.wasm_operator_validator_state.specs.resources.Meaning.{reference_in};
ghost use Rattle.wasm_module_validator_checks.specs.rules.Valid.{table_index as table_named};
ghost use Rattle.wasm_module_validator_initialisers.specs.segments.Refusals.{IsMissing};
ghost use Rattle.wasm_module_validator_resources.specs.referring.Naming.{NamesMore};
ghost use Rattle.wasm_module_validator_initialisers.specs.elements.Items.{IsMode};
ghost use Rattle.wasm_module_validator_initialisers.specs.elements.Naming.{NamesMode};
ghost use Rattle.wasm_module_validator_initialisers.specs.elements.Refusals.{RefusesMode};

use crate::elements::naming::take_constant;
use crate::segments::{
    ConstExpr, OperatorValidatorAllocations, Settings, WasmModuleResources, require,
};
use std::alloc::Global;
use wasm_operator_validator_state::ty_to_str;
use wasm_sections_items::elements::ElementKindOf;
use wasm_types::{Error, ModuleWords, RefType, Result, Text, ValType, WasmFeatures, Words};

// The refusal of an index past the end of the tables.
#[cold]
fn unknown_table(index: u32, offset: u64) -> Error
    ensures kind { result.kind ≡ Other }
    ensures at { result.offset ≡ offset }
{
    Error::with(
        Text::Number(Words::UnknownTable, index, Words::TableIndexOutOfBounds),
        offset,
    )
}

// The table that a segment names, 0 where it names none.
fn table_index_of(table_index: Option<u32>) -> u32
    ensures { result ≡ table_named table_index }
{
    match table_index {
        Some(index) => index,
        None => 0,
    }
}

// The refusal of elements that a table does not take.
#[cold]
fn does_not_fit(element_type: RefType, table_type: RefType, offset: u64) -> Error
    ensures kind { result.kind ≡ Other }
    ensures at { result.offset ≡ offset }
{
    let element_name = ty_to_str(ValType::Ref(element_type));
    let table_name = ty_to_str(ValType::Ref(table_type));
    Error::with(Text::ElementMismatch(element_name, table_name), offset)
}

// The table that the elements of this type, over ids, are copied into, and where.
fn check_place<R: WasmModuleResources>(
    alloc: Global,
    table_index: Option<u32>,
    offset_expr: &ConstExpr<'_>,
    ty: RefType,
    resources: &R,
    settings: &Settings,
    imported_globals: u32,
    allocs: &mut OperatorValidatorAllocations,
    names: &mut Vec<u32>,
    offset: u64,
) -> Result<()>
    requires within { IsWithinCeilings settings.now.limits }
    ensures answer { Tells result (IsMode settings.now (R.meaning resources.now).«module» imported_globals
        (reference_in (R.meaning resources.now) ty) (kinds.Active table_index offset_expr.now)) }
    ensures named { IfOk result (λ _. NamesMore settings.now offset_expr.now.rest names.old.items names.new.items) }
    ensures refused { IfErr result (λ e. UnlessMemory e.kind (RefusesMode settings.now
        (R.meaning resources.now) imported_globals offset (reference_in (R.meaning resources.now) ty)
        (kinds.Active table_index offset_expr.now) e)) }
{
    let index = table_index_of(table_index);
    let Some(table) = resources.table_at(index) else {
        return Err(unknown_table(index, offset));
    };
    if !resources.is_subtype(ValType::Ref(ty), ValType::Ref(table.element_type)) {
        return Err(does_not_fit(ty, table.element_type, offset));
    }
    take_constant(
        alloc,
        offset_expr,
        table.index_type(),
        resources,
        settings,
        imported_globals,
        allocs,
        names,
    )
}

// Asks for the feature of other segments than active ones.
#[tactic(auto, unfolding(crate::specs::elements::Refusals::has))]
fn check_bulk(settings: &Settings, offset: u64) -> Result<()>
    ensures answer { Tells result (Has settings.now.features BulkMemory) }
    ensures refused { IfErr result (IsMissing settings.now BulkMemory offset) }
{
    require(
        settings.features().bulk_memory(),
        WasmFeatures::BULK_MEMORY,
        Words::Module(ModuleWords::BulkMemoryMustBeEnabled),
        offset,
    )
}

/// How the elements of this type, over ids, are used. It names the functions that the offset refers to.
pub(crate) fn check_mode<R: WasmModuleResources>(
    alloc: Global,
    kind: &ElementKindOf<ConstExpr<'_>>,
    ty: RefType,
    resources: &R,
    settings: &Settings,
    imported_globals: u32,
    allocs: &mut OperatorValidatorAllocations,
    names: &mut Vec<u32>,
    offset: u64,
) -> Result<()>
    requires within { IsWithinCeilings settings.now.limits }
    ensures answer { Tells result (IsMode settings.now (R.meaning resources.now).«module» imported_globals
        (reference_in (R.meaning resources.now) ty) kind.now) }
    ensures named { IfOk result (λ _. NamesMode settings.now kind.now names.old.items names.new.items) }
    ensures refused { IfErr result (λ e. UnlessMemory e.kind (RefusesMode settings.now
        (R.meaning resources.now) imported_globals offset (reference_in (R.meaning resources.now) ty) kind.now e)) }
{
    match kind {
        ElementKindOf::Active {
            table_index,
            offset_expr,
        } => check_place(
            alloc,
            *table_index,
            offset_expr,
            ty,
            resources,
            settings,
            imported_globals,
            allocs,
            names,
            offset,
        ),
        ElementKindOf::Passive => check_bulk(settings, offset),
        ElementKindOf::Declared => check_bulk(settings, offset),
    }
}
