//! Exports.

ghost use Rattle.std.specs.Prelude.{◌≡◌, IsTrue, IfErr, false};
ghost use Rattle.wasm_types.specs.decoding.Denials.{Tells};
ghost use Rattle.wasm_types.specs.decoding.declared.error.ErrorKind.TheVariants.{Other};
ghost use Rattle.wasm_module_validator_checks.specs.rules.Valid.{IsValidExport};
ghost use Rattle.wasm_sections_items.specs.declared.imports.kind.ExternalKind.TheVariants.{Global};
ghost use Rattle.wasm_module_validator_checks.specs.externs.Refusals.{IsNeeded, allowing};

use wasm_module_validator_checks::externs::{Settings, WasmModuleResources, require};
use wasm_sections_items::imports::ExternalKind;
use wasm_types::{Error, ModuleWords, Result, Text, WasmFeatures, Words};

// The refusal of an index past the end of its space.
#[cold]
fn unknown(space: Words, index: u32, offset: u64) -> Error
    ensures kind { result.kind ≡ Other }
    ensures at { result.offset ≡ offset }
{
    Error::with(Text::UnknownExport(space, index), offset)
}

// Asks that something is there.
fn check_index(is_there: bool, space: Words, index: u32, offset: u64) -> Result<()>
    ensures answer { Tells result (IsTrue is_there) }
    ensures refused { IfErr result (λ e. (e.kind ≡ Other) × (e.offset ≡ offset) × (is_there ≡ false)) }
{
    if is_there {
        return Ok(());
    }
    Err(unknown(space, index, offset))
}

// A global that is exported, a mutable one by a feature.
#[tactic(auto, unfolding(crate::specs::Imports::has))]
fn check_global<R: WasmModuleResources>(
    resources: &R,
    index: u32,
    settings: &Settings,
    offset: u64,
) -> Result<()>
    ensures answer { Tells result (IsValidExport settings.now (R.meaning resources.now).«module» Global index) }
    ensures refused { IfErr result (λ e. IsNeeded settings.now.features
        (λ b. IsValidExport (allowing b settings.now) (R.meaning resources.now).«module» Global index) e.kind) }
    ensures at { IfErr result (λ e. e.offset ≡ offset) }
{
    let Some(global) = resources.global_at(index) else {
        return Err(unknown(Words::Module(ModuleWords::Global), index, offset));
    };
    require(
        !global.mutable || settings.features().mutable_global(),
        WasmFeatures::MUTABLE_GLOBAL,
        Words::Module(ModuleWords::MutableGlobalSupportIsNotEnabled),
        offset,
    )
}

/// Refuses the export of what the module does not have, and of a mutable global where none may be exported.
///
/// # Errors
///
/// The index is past the end of its space, of kind `Other`; or mutable globals may not be exported; at `offset`.
pub fn check_export<R: WasmModuleResources>(
    resources: &R,
    kind: ExternalKind,
    index: u32,
    settings: &Settings,
    offset: u64,
) -> Result<()>
    ensures answer { Tells result (IsValidExport settings.now (R.meaning resources.now).«module» kind index) }
    ensures refused { IfErr result (λ e. IsNeeded settings.now.features
        (λ b. IsValidExport (allowing b settings.now) (R.meaning resources.now).«module» kind index) e.kind) }
    ensures at { IfErr result (λ e. e.offset ≡ offset) }
{
    match kind {
        ExternalKind::Func => {
            let is_there = resources.type_index_of_function(index).is_some();
            check_index(
                is_there,
                Words::Module(ModuleWords::Function),
                index,
                offset,
            )
        }
        ExternalKind::FuncExact => {
            let is_there = resources.type_index_of_function(index).is_some();
            check_index(
                is_there,
                Words::Module(ModuleWords::Function),
                index,
                offset,
            )
        }
        ExternalKind::Table => {
            let is_there = resources.table_at(index).is_some();
            check_index(is_there, Words::Module(ModuleWords::Table), index, offset)
        }
        ExternalKind::Memory => {
            let is_there = resources.memory_at(index).is_some();
            check_index(is_there, Words::Module(ModuleWords::Memory), index, offset)
        }
        ExternalKind::Tag => {
            let is_there = resources.tag_at(index).is_some();
            check_index(is_there, Words::Module(ModuleWords::Tag), index, offset)
        }
        ExternalKind::Global => check_global(resources, index, settings, offset),
    }
}
