//! The start function and the data count.

ghost use Rattle.std.specs.Prelude.{◌≡◌, ◌≤◌, IfErr, IfOk, slice_get, Some};
ghost use Rattle.wasm_types.specs.decoding.Denials.{Tells};
ghost use Rattle.wasm_types.specs.decoding.declared.error.ErrorKind.TheVariants.{Other};
ghost use Rattle.wasm_types.specs.settings.Features.{BulkMemory};
ghost use Rattle.wasm_types.specs.trees.Gates.{Has};
ghost use Rattle.wasm_module_validator_rules.specs.Valid.{IsValidStart};
ghost use Rattle.wasm_module_validator_checks.specs.sections.Functions.{IsFunctionOf, HasFunction};

use crate::externs::{Settings, WasmModuleResources, func_type_at};
use wasm_types::{Error, FuncType, ModuleWords, Result, Text, Words};

// The refusal of an index past the end of the functions.
#[cold]
fn unknown_function(index: u32, offset: u64) -> Error
    ensures kind { result.kind ≡ Other }
    ensures at { result.offset ≡ offset }
{
    Error::with(
        Text::Number(
            Words::UnknownFunction,
            index,
            Words::Module(ModuleWords::FuncIndexOutOfBounds),
        ),
        offset,
    )
}

/// The type of the function at an index.
///
/// # Errors
///
/// The module has no function there: an error of kind `Other`, at `offset`.
pub fn get_func_type<R: WasmModuleResources>(
    resources: &R,
    func_idx: u32,
    offset: u64,
) -> Result<&FuncType>
    ensures answer { Tells result (HasFunction (R.meaning resources.now) func_idx) }
    ensures function { IfOk result (λ f. IsFunctionOf (R.meaning resources.now) func_idx f.now) }
    ensures refused { IfErr result (λ e. (e.kind ≡ Other) × (e.offset ≡ offset)) }
{
    let Some(type_index) = resources.type_index_of_function(func_idx) else {
        return Err(unknown_function(func_idx, offset));
    };
    func_type_at(resources, type_index, offset)
}

/// Refuses a start function that takes or gives anything.
///
/// # Errors
///
/// The module has no such function, or its type is not `[] -> []`: an error of kind `Other`, at `offset`.
pub fn check_start<R: WasmModuleResources>(resources: &R, func: u32, offset: u64) -> Result<()>
    ensures answer { Tells result (IsValidStart (R.meaning resources.now).«module» func) }
    ensures refused { IfErr result (λ e. (e.kind ≡ Other) × (e.offset ≡ offset)) }
{
    let function = match get_func_type(resources, func, offset) {
        Ok(function) => function,
        Err(error) => return Err(error),
    };
    if !function.params().is_empty() || !function.results().is_empty() {
        return Err(Error::new(Words::Module(ModuleWords::InvalidStartFunctionType), offset));
    }
    Ok(())
}

/// Refuses a data count that no feature allows, and one above its limit.
///
/// # Errors
///
/// The features of memories in bulk are not allowed, or `count` is above the limit: an error of kind `Other`, at `offset`.
pub fn check_data_count(count: u32, settings: &Settings, offset: u64) -> Result<()>
    ensures answer { Tells result (Has settings.now.features BulkMemory × (count ≤ settings.now.limits.data_segments)) }
    ensures refused { IfErr result (λ e. (e.kind ≡ Other) × (e.offset ≡ offset)) }
{
    if !settings.features().bulk_memory() {
        return Err(Error::new(
            Words::Module(ModuleWords::DataCountSectionRequiresTheBulkMemoryProposal),
            offset,
        ));
    }
    if count > settings.limits().data_segments {
        return Err(Error::new(
            Words::Module(ModuleWords::DataCountSectionSpecifiesTooManyDataSegments),
            offset,
        ));
    }
    Ok(())
}
