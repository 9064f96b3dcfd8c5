//! Tag types.

ghost use Rattle.std.specs.Prelude.{◌≡◌, IfErr, IfOk, Some};
ghost use Rattle.wasm_types.specs.decoding.Denials.{Tells};
ghost use Rattle.wasm_operator_validator_state.specs.blocks.Signatures.{signature_in, IsFunctionAt};
ghost use Rattle.wasm_module_validator_rules.specs.Valid.{IsValidTagType};
ghost use Rattle.wasm_module_validator_checks.specs.externs.Refusals.{IsNeeded, allowing};

use crate::externs::functions::func_type_at;
use crate::externs::sizes::require;
use crate::limits::Settings;
use wasm_operator_validator_state::WasmModuleResources;
use wasm_types::{FuncType, ModuleWords, Result, TagType, WasmFeatures, Words};

/// The function type of a tag, which is valid: it gives nothing, unless stacks may be switched.
///
/// # Errors
///
/// Exceptions are not allowed; the module has no function type at the index; or the function has results and stacks may not be
/// switched: the first of these, a missing feature or kind `Other`; at `offset`.
#[tactic(auto, unfolding(crate::specs::externs::Refusals::has))]
pub fn check_tag_type<'a, R: WasmModuleResources>(
    resources: &'a R,
    ty: &TagType,
    settings: &Settings,
    offset: u64,
) -> Result<&'a FuncType>
    ensures answer { Tells result (IsValidTagType settings.now (R.meaning resources.now).«module» ty.now) }
    ensures function { IfOk result (λ f. IsFunctionAt (R.meaning resources.now) ty.now.func_type_idx
        (Some (signature_in (R.meaning resources.now) f.now))) }
    ensures refused { IfErr result (λ e. IsNeeded settings.now.features
        (λ b. IsValidTagType (allowing b settings.now) (R.meaning resources.now).«module» ty.now) e.kind) }
    ensures at { IfErr result (λ e. e.offset ≡ offset) }
{
    require(
        settings.features().exceptions(),
        WasmFeatures::EXCEPTIONS,
        Words::Module(ModuleWords::ExceptionsProposalNotEnabled),
        offset,
    )?;
    let function = func_type_at(resources, ty.func_type_idx, offset)?;
    require(
        function.results().is_empty() || settings.features().stack_switching(),
        WasmFeatures::STACK_SWITCHING,
        Words::InvalidExceptionTypeNonEmptyTagResultType,
        offset,
    )?;
    Ok(function)
}
