//! Value types, and globals of them.

ghost use Rattle.std.specs.Prelude.{◌≡◌, IsTrue, IfErr, OnOk, OnErr};
ghost use Rattle.wasm_types.specs.decoding.Denials.{Tells};
ghost use Rattle.wasm_types.specs.decoding.declared.error.ErrorKind.TheVariants.{Other};
ghost use Rattle.wasm_types.specs.settings.Features.{SharedEverythingThreads};
ghost use Rattle.wasm_types.specs.trees.Below.{value_is_shared};
ghost use Rattle.wasm_types.specs.trees.Gates.{Has};
ghost use Rattle.wasm_operator_validator_state.specs.resources.Meaning.{type_in, global_in};
ghost use Rattle.wasm_module_validator_rules.specs.Spaces.{value_in, global_in as global_written};
ghost use Rattle.wasm_module_validator_rules.specs.Valid.{IsValidValueType, IsValidGlobalType};
ghost use Rattle.wasm_module_validator_checks.specs.externs.Refusals.{IsRefusal, allowing};

use crate::externs::sizes::require;
use crate::limits::Settings;
use wasm_operator_validator_state::{WasmModuleResources, check_value_type_features};
use wasm_types::{Error, GlobalType, ModuleWords, Result, ValType, WasmFeatures, Words};

/// Refuses a value type that the features don't allow, and one that names no type of the module; else it names types by their
/// ids. A refused one stays as it was.
///
/// # Errors
///
/// A feature is missing; or, of kind `Other`, there is no type at an index; at `offset`.
pub fn check_value_type<R: WasmModuleResources>(
    resources: &R,
    ty: &mut ValType,
    settings: &Settings,
    offset: u64,
) -> Result<()>
    ensures answer { Tells result (IsValidValueType settings.now (R.meaning resources.now).«module» ty.old) }
    ensures named { OnOk result (type_in (R.meaning resources.now) ty.new ≡ value_in
        (R.meaning resources.now).«module».types ty.old) }
    ensures kept { OnErr result (ty.new ≡ ty.old) }
    ensures refused { IfErr result (λ e. IsRefusal settings.now.features
        (λ b. IsValidValueType (allowing b settings.now) (R.meaning resources.now).«module» ty.old) e.kind) }
    ensures at { IfErr result (λ e. e.offset ≡ offset) }
{
    check_value_type_features(&settings.features(), ty, offset)?;
    if let ValType::Ref(reference) = ty {
        return resources.check_ref_type(reference, offset);
    }
    Ok(())
}

/// Whether a value type is shared: numbers and vectors are.
#[tactic(auto, unfolding(crate::specs::externs::Refusals::type_in))]
pub(crate) fn is_shared<R: WasmModuleResources>(resources: &R, ty: ValType) -> bool
    ensures { result ≡ value_is_shared (type_in (R.meaning resources.now) ty) }
{
    match ty {
        ValType::I32 => true,
        ValType::I64 => true,
        ValType::F32 => true,
        ValType::F64 => true,
        ValType::V128 => true,
        ValType::Ref(reference) => resources.is_shared(reference),
    }
}

/// Refuses a global type that is not valid: of a value type that is not, and a shared one whose values are not; else it names
/// types by their ids. A refused one stays as it was.
///
/// # Errors
///
/// The value type is refused; globals may not be shared; or, of kind `Other`, its values are not shared: the first of these, at
/// `offset`.
#[tactic(auto, unfolding(crate::specs::externs::Refusals::has))]
pub fn check_global_type<R: WasmModuleResources>(
    resources: &R,
    ty: &mut GlobalType,
    settings: &Settings,
    offset: u64,
) -> Result<()>
    ensures answer { Tells result (IsValidGlobalType settings.now (R.meaning resources.now).«module» ty.old) }
    ensures named { OnOk result (global_in (R.meaning resources.now) ty.new ≡ global_written
        (R.meaning resources.now).«module».types ty.old) }
    ensures kept { OnErr result (ty.new ≡ ty.old) }
    ensures refused { IfErr result (λ e. IsRefusal settings.now.features
        (λ b. IsValidGlobalType (allowing b settings.now) (R.meaning resources.now).«module» ty.old) e.kind) }
    ensures at { IfErr result (λ e. e.offset ≡ offset) }
{
    let mut content_type = ty.content_type;
    match check_value_type(resources, &mut content_type, settings, offset) {
        Ok(()) => (),
        Err(error) => return Err(error),
    }
    require(
        !ty.shared || settings.features().shared_everything_threads(),
        WasmFeatures::SHARED_EVERYTHING_THREADS,
        Words::Module(ModuleWords::SharedGlobalsRequireTheSharedEverythingThreadsProposal),
        offset,
    )?;
    if ty.shared && !is_shared(resources, content_type) {
        return Err(Error::new(
            Words::Module(ModuleWords::SharedGlobalsMustHaveASharedValueType),
            offset,
        ));
    }
    ty.content_type = content_type;
    Ok(())
}
