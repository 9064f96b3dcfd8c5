//! The types of nulls that a module writes.

ghost use Rattle.std.specs.Prelude.{MatchResult};
ghost use Rattle.wasm_types.specs.decoding.Denials.{Denies};
ghost use Rattle.wasm_operator_validator_state.specs.resources.Meaning.{type_in};
ghost use Rattle.wasm_operator_validator_rules.specs.Context.{IsType};
ghost use Rattle.wasm_operator_validator_rules.specs.Operands.{ValueType};
ghost use Rattle.wasm_operator_validator_state.specs.Refusals.{kind_of};
ghost use Rattle.wasm_operator_validator_memory.specs.Tables.{null_of, reference_to};

use wasm_operator_validator_stacks::determined::{
    Reason, Refusal, WasmModuleResources, check_value_type_features, refusal_of,
};
use wasm_types::{HeapType, RefType, ValType, WasmFeatures};

/// The type of a null of this heap type, as a module writes it: its features are asked first, and then what it names.
pub(crate) fn name_null<R: WasmModuleResources>(
    resources: &R,
    features: &WasmFeatures,
    hty: &HeapType,
) -> Result<ValType, Refusal>
    ensures { MatchResult result (λ t. IsType features.now.0 (R.meaning resources.now).«module» (null_of hty.now)
        (type_in (R.meaning resources.now) t)) (λ r. Denies (kind_of r) ((u : ValueType)
        × IsType features.now.0 (R.meaning resources.now).«module» (null_of hty.now) u)) }
{
    let written = match RefType::new(true, *hty) {
        Some(written) => written,
        None => return name_far(resources, features, hty),
    };
    name_written(resources, features, written)
}

// The type of a reference that a module writes.
fn name_written<R: WasmModuleResources>(
    resources: &R,
    features: &WasmFeatures,
    written: RefType,
) -> Result<ValType, Refusal>
    ensures { MatchResult result (λ t. IsType features.now.0 (R.meaning resources.now).«module» (reference_to written)
        (type_in (R.meaning resources.now) t)) (λ r. Denies (kind_of r) ((u : ValueType)
        × IsType features.now.0 (R.meaning resources.now).«module» (reference_to written) u)) }
{
    let mut ty = ValType::Ref(written);
    match resources.check_value_type(&mut ty, features, 0) {
        Ok(()) => Ok(ty),
        Err(error) => Err(refusal_of(&error, &ty)),
    }
}

// The same where the index that is written has too many bits for a reference, until it is named.
#[cold]
fn name_far<R: WasmModuleResources>(
    resources: &R,
    features: &WasmFeatures,
    hty: &HeapType,
) -> Result<ValType, Refusal>
    ensures { MatchResult result (λ t. IsType features.now.0 (R.meaning resources.now).«module» (null_of hty.now)
        (type_in (R.meaning resources.now) t)) (λ r. Denies (kind_of r) ((u : ValueType)
        × IsType features.now.0 (R.meaning resources.now).«module» (null_of hty.now) u)) }
{
    let mut named = *hty;
    match resources.check_heap_type(&mut named, 0) {
        Ok(()) => (),
        Err(_) => return Err(Refusal::unknown_heap(*hty)),
    }
    let reference = match RefType::new(true, named) {
        Some(reference) => reference,
        None => unreachable!(),
    };
    let ty = ValType::Ref(reference);
    match check_value_type_features(features, &ty, 0) {
        Ok(()) => Ok(ty),
        Err(error) => Err(refusal_of(&error, &ty)),
    }
}
