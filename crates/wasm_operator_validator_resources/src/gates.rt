//! Which features a value type needs.

ghost use Rattle.std.specs.Prelude.{◌≡◌, ◌⊎◌, IsTrue, IfErr, Bool, false};
ghost use Rattle.wasm_types.specs.decoding.Denials.{Tells, RefusedAt};
ghost use Rattle.wasm_types.specs.decoding.declared.error.ErrorKind.TheVariants.{MissingFeature};
ghost use Rattle.wasm_types.specs.settings.Features.{ReferenceTypes, FunctionReferences, Gc};
ghost use Rattle.wasm_types.specs.trees.Gates.{Has, ValueIsAllowed, HeapIsAllowed, AbstractIsAllowed, CollectorIsAllowed};
ghost use Rattle.wasm_types.specs.trees.Types.{abstract};
ghost use Rattle.wasm_types.specs.trees.declared.index.UnpackedIndex.{UnpackedIndex};
ghost use Rattle.wasm_types.specs.values.Values.{value_of};
ghost use Rattle.wasm_types.specs.values.Trees.{heap_of, abstract_of};
ghost use Rattle.wasm_operator_validator_resources.specs.Answers.{IsMissing};

use wasm_types::{
    AbstractHeapType, Error, HeapType, RefType, Result, ValType, WasmFeatures, Words,
};

/// Whether these features allow a value type, whatever its references lead to (WebAssembly 3.0, appendix, history).
#[tactic(auto, unfolding(crate::specs::Answers::has))]
pub fn check_value_type_features(features: &WasmFeatures, ty: &ValType, offset: u64) -> Result<()>
    ensures answer { Tells result (ValueIsAllowed features.now.0 (value_of ty.now)) }
    ensures missing { IfErr result (λ e. IsMissing features.now.0 e.kind) }
    ensures at { RefusedAt offset result }
{
    match ty {
        ValType::I32 | ValType::I64 => Ok(()),
        ValType::F32 | ValType::F64 => require(
            features.floats(),
            WasmFeatures::FLOATS,
            Words::FloatingPointSupportIsDisabled,
            offset,
        ),
        ValType::V128 => require(
            features.simd(),
            WasmFeatures::SIMD,
            Words::SIMDSupportIsNotEnabled,
            offset,
        ),
        ValType::Ref(ty) => check_ref_type_features(features, ty, offset),
    }
}

/// Whether these features allow a reference type, whatever it leads to (WebAssembly 3.0, appendix, history).
#[tactic(auto, unfolding(crate::specs::Answers::has))]
pub fn check_ref_type_features(features: &WasmFeatures, ty: &RefType, offset: u64) -> Result<()>
    ensures answer { Tells result (Has features.now.0 ReferenceTypes
        × HeapIsAllowed features.now.0 ty.now.nullable (heap_of ty.now.heap)) }
    ensures missing { IfErr result (λ e. IsMissing features.now.0 e.kind) }
    ensures at { RefusedAt offset result }
{
    require(
        features.reference_types(),
        WasmFeatures::REFERENCE_TYPES,
        Words::ReferenceTypesSupportIsNotEnabled,
        offset,
    )?;
    match ty.heap_type() {
        HeapType::Concrete(_) => check_defined(features, offset),
        HeapType::Exact(_) => require(
            features.custom_descriptors(),
            WasmFeatures::CUSTOM_DESCRIPTORS,
            Words::CustomDescriptorsRequiredForExactReferenceTypes,
            offset,
        ),
        HeapType::Abstract { shared, ty: kind } => {
            check_abstract(features, ty.is_nullable(), shared, kind, offset)
        }
    }
}

// A defined type needs function references or garbage collection.
#[tactic(auto, unfolding(crate::specs::Answers::has))]
fn check_defined(features: &WasmFeatures, offset: u64) -> Result<()>
    ensures answer { Tells result (Has features.now.0 FunctionReferences ⊎ Has features.now.0 Gc) }
    ensures missing { IfErr result (λ e. IsMissing features.now.0 e.kind) }
    ensures at { RefusedAt offset result }
{
    if features.gc() {
        return Ok(());
    }
    require(
        features.function_references(),
        WasmFeatures::FUNCTION_REFERENCES,
        Words::FunctionReferencesRequiredForIndexReferenceTypes,
        offset,
    )
}

#[tactic(auto, unfolding(crate::specs::Answers::has))]
fn check_abstract(
    features: &WasmFeatures,
    nullable: bool,
    shared: bool,
    ty: AbstractHeapType,
    offset: u64,
) -> Result<()>
    ensures answer { Tells result (HeapIsAllowed {R = UnpackedIndex} features.now.0 nullable
        (abstract shared (abstract_of ty))) }
    ensures missing { IfErr result (λ e. IsMissing features.now.0 e.kind) }
    ensures at { RefusedAt offset result }
{
    require(
        !shared || features.shared_everything_threads(),
        WasmFeatures::SHARED_EVERYTHING_THREADS,
        Words::SharedReferenceTypesRequireTheSharedEverythingThreadsProposal,
        offset,
    )?;
    check_collector(features, ty, offset)?;
    check_kind(features, nullable, ty, offset)
}

// A reference that a collector need not trace needs no more.
#[tactic(auto, unfolding(crate::specs::Answers::has))]
fn check_collector(features: &WasmFeatures, ty: AbstractHeapType, offset: u64) -> Result<()>
    ensures answer { Tells result (CollectorIsAllowed features.now.0 (abstract_of ty)) }
    ensures missing { IfErr result (λ e. IsMissing features.now.0 e.kind) }
    ensures at { RefusedAt offset result }
{
    let untraced = matches!(ty, AbstractHeapType::Func | AbstractHeapType::Exn);
    require(
        untraced || features.gc_types(),
        WasmFeatures::GC_TYPES,
        Words::GcTypesAreDisallowedButFoundTypeWhichRequiresGc,
        offset,
    )
}

// What an abstract type itself needs.
#[tactic(auto, unfolding(crate::specs::Answers::has))]
fn check_kind(
    features: &WasmFeatures,
    nullable: bool,
    ty: AbstractHeapType,
    offset: u64,
) -> Result<()>
    ensures answer { Tells result (AbstractIsAllowed features.now.0 nullable (abstract_of ty)) }
    ensures missing { IfErr result (λ e. IsMissing features.now.0 e.kind) }
    ensures at { RefusedAt offset result }
{
    match ty {
        AbstractHeapType::Func | AbstractHeapType::Extern => require(
            nullable || features.function_references(),
            WasmFeatures::FUNCTION_REFERENCES,
            Words::FunctionReferencesRequiredForNonNullableTypes,
            offset,
        ),
        AbstractHeapType::Exn | AbstractHeapType::NoExn => require(
            features.exceptions(),
            WasmFeatures::EXCEPTIONS,
            Words::ExceptionRefsNotSupportedWithoutTheExceptionHandlingFeature,
            offset,
        ),
        AbstractHeapType::Cont | AbstractHeapType::NoCont => require(
            features.stack_switching(),
            WasmFeatures::STACK_SWITCHING,
            Words::ContinuationRefsNotSupportedWithoutTheStackSwitchingFeature,
            offset,
        ),
        AbstractHeapType::Any
        | AbstractHeapType::None
        | AbstractHeapType::Eq
        | AbstractHeapType::Struct
        | AbstractHeapType::Array
        | AbstractHeapType::I31
        | AbstractHeapType::NoExtern
        | AbstractHeapType::NoFunc => require(
            features.gc(),
            WasmFeatures::GC,
            Words::HeapTypesNotSupportedWithoutTheGcFeature,
            offset,
        ),
    }
}

// Asks for a feature that is there or not.
fn require(has: bool, feature: WasmFeatures, message: Words, offset: u64) -> Result<()>
    ensures answer { Tells result (IsTrue has) }
    ensures refused { IfErr result (λ e. (e.kind ≡ MissingFeature feature) × (e.offset ≡ offset) × (has ≡ false)) }
{
    if has {
        return Ok(());
    }
    Err(Error::missing_feature(feature, message, offset))
}
