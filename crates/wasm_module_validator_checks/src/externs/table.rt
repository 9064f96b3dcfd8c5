//! Table types.

ghost use Rattle.std.specs.Prelude.{◌≡◌, IsTrue, IfErr, OnOk, OnErr};
ghost use Rattle.wasm_types.specs.decoding.Denials.{Tells};
ghost use Rattle.wasm_types.specs.decoding.declared.error.ErrorKind.TheVariants.{Other};
ghost use Rattle.wasm_types.specs.settings.Features.{Memory64, SharedEverythingThreads};
ghost use Rattle.wasm_types.specs.trees.Each.{EachHeap};
ghost use Rattle.wasm_types.specs.trees.Gates.{Has};
ghost use Rattle.wasm_types.specs.values.Trees.{heap_of};
ghost use Rattle.wasm_types.specs.values.declared.value.ValType.TheVariants as value;
ghost use Rattle.wasm_operator_validator_state.specs.resources.Meaning.{reference_in, table_in, IsKnownIndex};
ghost use Rattle.wasm_module_validator_rules.specs.Spaces.{value_in, table_in as table_written};
ghost use Rattle.wasm_module_validator_rules.specs.Valid.{IsValidElementType, IsValidTableType, IfThere, most_elements};
ghost use Rattle.wasm_module_validator_checks.specs.externs.Refusals.{IsRefusal, IsNeeded, allowing};

use crate::externs::sizes::{are_within, check_limits, require};
use crate::limits::Settings;
use wasm_operator_validator_state::{WasmModuleResources, check_value_type_features};
use wasm_types::{
    Error, ModuleWords, RefType, Result, TableType, Text, ValType, WasmFeatures, Words,
};

// The type of a table's elements: funcref needs no feature, and any other is a reference that the module may write.
fn check_element_type<R: WasmModuleResources>(
    resources: &R,
    ty: &mut RefType,
    settings: &Settings,
    offset: u64,
) -> Result<()>
    ensures answer { Tells result (IsValidElementType settings.now (R.meaning resources.now).«module» ty.old) }
    ensures named { OnOk result (reference_in (R.meaning resources.now) ty.new ≡ value_in
        (R.meaning resources.now).«module».types (value.Ref ty.old)) }
    ensures known { OnOk result (EachHeap (IsKnownIndex (R.meaning resources.now)) (heap_of ty.new.heap)) }
    ensures refused { IfErr result (λ e. IsRefusal settings.now.features
        (λ b. IsValidElementType (allowing b settings.now) (R.meaning resources.now).«module» ty.old) e.kind) }
    ensures at { IfErr result (λ e. e.offset ≡ offset) }
{
    if *ty == RefType::FUNCREF {
        return Ok(());
    }
    check_value_type_features(&settings.features(), &ValType::Ref(*ty), offset)?;
    resources.check_ref_type(ty, offset)
}

// The most elements that there are indices for.
fn true_maximum(table64: bool) -> u64
    ensures { result ≡ most_elements table64 }
{
    if table64 {
        return 18_446_744_073_709_551_615;
    }
    4_294_967_295
}

// The refusal of more elements than there are indices for.
#[cold]
fn too_large(most: u64, offset: u64) -> Error
    ensures kind { result.kind ≡ Other }
    ensures at { result.offset ≡ offset }
{
    Error::with(Text::Entries(most), offset)
}

// The features of wide and of shared tables.
#[tactic(auto, unfolding(crate::specs::externs::Refusals::has))]
fn check_table_features(ty: &TableType, settings: &Settings, offset: u64) -> Result<()>
    ensures answer { Tells result ((IsTrue ty.now.table64 → Has settings.now.features Memory64)
        × (IsTrue ty.now.shared → Has settings.now.features SharedEverythingThreads)) }
    ensures refused { IfErr result (λ e. IsNeeded settings.now.features (λ b. (IsTrue ty.now.table64 → Has b Memory64)
        × (IsTrue ty.now.shared → Has b SharedEverythingThreads)) e.kind) }
    ensures at { IfErr result (λ e. e.offset ≡ offset) }
{
    require(
        !ty.table64 || settings.features().memory64(),
        WasmFeatures::MEMORY64,
        Words::Module(ModuleWords::Memory64MustBeEnabledFor64BitTables),
        offset,
    )?;
    require(
        !ty.shared || settings.features().shared_everything_threads(),
        WasmFeatures::SHARED_EVERYTHING_THREADS,
        Words::Module(ModuleWords::SharedTablesRequireTheSharedEverythingThreadsProposal),
        offset,
    )
}

/// Refuses a table type that is not valid: of elements that are not, a minimum above its maximum, a form that a feature is missing
/// for, more elements than there are indices for, and a shared one whose elements are not; else it names types by their ids, each of
/// a known type. A refused one stays as it was.
///
/// # Errors
///
/// The type is not valid under these settings: the first of these in that order, a missing feature or kind `Other`; at `offset`.
pub fn check_table_type<R: WasmModuleResources>(
    resources: &R,
    ty: &mut TableType,
    settings: &Settings,
    offset: u64,
) -> Result<()>
    ensures answer { Tells result (IsValidTableType settings.now (R.meaning resources.now).«module» ty.old) }
    ensures named { OnOk result (table_in (R.meaning resources.now) ty.new ≡ table_written
        (R.meaning resources.now).«module».types ty.old) }
    ensures known { OnOk result (EachHeap (IsKnownIndex (R.meaning resources.now)) (heap_of ty.new.element_type.heap)) }
    ensures sizes { (ty.new.initial ≡ ty.old.initial) × (ty.new.maximum ≡ ty.old.maximum) }
    ensures kept { OnErr result (ty.new ≡ ty.old) }
    ensures refused { IfErr result (λ e. IsRefusal settings.now.features
        (λ b. IsValidTableType (allowing b settings.now) (R.meaning resources.now).«module» ty.old) e.kind) }
    ensures at { IfErr result (λ e. e.offset ≡ offset) }
{
    let mut element_type = ty.element_type;
    match check_element_type(resources, &mut element_type, settings, offset) {
        Ok(()) => (),
        Err(error) => return Err(error),
    }
    check_limits(ty.initial, ty.maximum, offset)?;
    check_table_features(ty, settings, offset)?;
    let most = true_maximum(ty.table64);
    if !are_within(most, ty.initial, ty.maximum) {
        return Err(too_large(most, offset));
    }
    if ty.shared && !resources.is_shared(element_type) {
        return Err(Error::new(
            Words::Module(ModuleWords::SharedTablesMustHaveASharedElementType),
            offset,
        ));
    }
    ty.element_type = element_type;
    Ok(())
}
