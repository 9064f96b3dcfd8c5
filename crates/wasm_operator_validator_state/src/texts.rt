//! The texts of refusals, in the words of `wasmparser`.

ghost use Rattle.std.specs.Prelude.{◌≡◌};
ghost use Rattle.wasm_types.specs.decoding.declared.error.ErrorKind.TheVariants.{Other};

use crate::{MaybeType, Reason, Space, ty_to_str};
use wasm_types::{
    AbstractHeapType, Error, HeapType, Named, OperatorWords, RefType, Text, UnpackedIndex, ValType,
    WasmFeatures, Words,
};

/// An operand of another type than the one that is expected.
#[cold]
pub fn mismatch(offset: u64, expected: ValType, found: MaybeType) -> Error
    ensures kind { result.kind ≡ Other }
    ensures offset { result.offset ≡ offset }
{
    let wanted = ty_to_str(expected);
    match found {
        MaybeType::Bottom | MaybeType::UnknownRef(None) => Error::with(
            Text::Mismatch(wanted, Words::Operator(OperatorWords::HeapType)),
            offset,
        ),
        MaybeType::UnknownRef(Some(ty)) => {
            let found = abstract_name(ty);
            Error::with(Text::SubtypeMismatch(wanted, found), offset)
        }
        MaybeType::Known(found) => {
            let found = ty_to_str(found);
            Error::with(Text::Mismatch(wanted, found), offset)
        }
    }
}

// What a value type is called, with its index.
fn named(ty: ValType) -> Named {
    match ty {
        ValType::Ref(reference) => {
            let nullable = reference.is_nullable();
            match reference.heap_type() {
                HeapType::Abstract { .. } => plain(ty),
                HeapType::Concrete(index) => indexed(
                    if nullable {
                        Words::Operator(OperatorWords::RefNull)
                    } else {
                        Words::Operator(OperatorWords::Ref)
                    },
                    index,
                    Words::Operator(OperatorWords::Sign),
                ),
                HeapType::Exact(index) => indexed(
                    if nullable {
                        Words::Operator(OperatorWords::RefNullExact)
                    } else {
                        Words::Operator(OperatorWords::RefExact)
                    },
                    index,
                    Words::Operator(OperatorWords::Sign2),
                ),
            }
        }
        _ => plain(ty),
    }
}

fn plain(ty: ValType) -> Named {
    Named {
        before: ty_to_str(ty),
        space: Words::Nothing,
        number: None,
        behind: Words::Nothing,
    }
}

fn indexed(before: Words, index: UnpackedIndex, behind: Words) -> Named {
    match index {
        UnpackedIndex::Module(number) => Named {
            before,
            space: Words::Operator(OperatorWords::Module),
            number: Some(number),
            behind,
        },
        UnpackedIndex::RecGroup(number) => Named {
            before,
            space: Words::Operator(OperatorWords::Recgroup),
            number: Some(number),
            behind,
        },
        UnpackedIndex::Id(id) => Named {
            before,
            space: Words::Operator(OperatorWords::Id),
            number: Some(id.number()),
            behind,
        },
    }
}

/// A cast to a type that is not below the first.
#[cold]
pub fn not_below(offset: u64, expected: ValType, found: ValType) -> Error
    ensures kind { result.kind ≡ Other }
    ensures offset { result.offset ≡ offset }
{
    Error::with(
        Text::Types(
            Words::Operator(OperatorWords::TypeMismatchExpected),
            named(expected),
            Words::Operator(OperatorWords::Found),
            named(found),
        ),
        offset,
    )
}

/// A branch on a cast whose label takes another type on top.
#[cold]
pub fn cast_past_label(offset: u64, expected: ValType, found: ValType) -> Error
    ensures kind { result.kind ≡ Other }
    ensures offset { result.offset ≡ offset }
{
    Error::with(
        Text::Types(
            Words::Operator(OperatorWords::TypeMismatchCastingToType),
            named(found),
            Words::Operator(OperatorWords::ButItDoesNotMatchLabelResultType),
            named(expected),
        ),
        offset,
    )
}

/// The same of one that branches where the cast fails.
#[cold]
pub fn left_past_label(offset: u64, expected: ValType, found: ValType) -> Error
    ensures kind { result.kind ≡ Other }
    ensures offset { result.offset ≡ offset }
{
    Error::with(
        Text::Types(
            Words::Operator(OperatorWords::TypeMismatchExpectedLabelResultType),
            named(expected),
            Words::Operator(OperatorWords::Found),
            named(found),
        ),
        offset,
    )
}

/// An operand that is no reference to what this type refers to, shared or not.
#[cold]
pub fn not_of_kind(offset: u64, expected: ValType, found: MaybeType) -> Error
    ensures kind { result.kind ≡ Other }
    ensures offset { result.offset ≡ offset }
{
    let Some(known) = known_type(&found) else {
        return mismatch(offset, expected, found);
    };
    let Some(reference) = known.as_reference_type() else {
        return expected_reference(offset, found);
    };
    Error::with(
        Text::Types(
            Words::Operator(OperatorWords::TypeMismatchExpectedSubtypeOf),
            named(expected),
            Words::Operator(OperatorWords::Found),
            named(ValType::Ref(reference)),
        ),
        offset,
    )
}

// The type of an operand, if it is known.
fn known_type(found: &MaybeType) -> Option<ValType> {
    match found {
        MaybeType::Known(ty) => Some(*ty),
        MaybeType::Bottom | MaybeType::UnknownRef(_) => None,
    }
}

// The name of a reference to this type that is not null.
fn abstract_name(ty: AbstractHeapType) -> Words {
    match RefType::new(false, HeapType::Abstract { shared: false, ty }) {
        Some(reference) => reference.words(),
        None => Words::Operator(OperatorWords::HeapType),
    }
}

/// No operand where one is expected.
#[cold]
pub fn empty_stack(offset: u64, expected: Words) -> Error
    ensures kind { result.kind ≡ Other }
    ensures offset { result.offset ≡ offset }
{
    Error::with(Text::EmptyStack(expected), offset)
}

/// An operand that is no reference where one is expected.
#[cold]
pub fn expected_reference(offset: u64, found: MaybeType) -> Error
    ensures kind { result.kind ≡ Other }
    ensures offset { result.offset ≡ offset }
{
    match found {
        MaybeType::Bottom | MaybeType::UnknownRef(_) => Error::new(
            Words::Operator(OperatorWords::TypeMismatchExpectedRef),
            offset,
        ),
        MaybeType::Known(found) => {
            let found = ty_to_str(found);
            Error::with(
                Text::Word(
                    Words::Operator(OperatorWords::TypeMismatchExpectedRefButFound),
                    found,
                ),
                offset,
            )
        }
    }
}

/// A local that the function does not have.
#[cold]
pub fn unknown_local(offset: u64, local_index: u32) -> Error
    ensures kind { result.kind ≡ Other }
    ensures offset { result.offset ≡ offset }
{
    Error::with(
        Text::Number(
            Words::Operator(OperatorWords::UnknownLocal),
            local_index,
            Words::Operator(OperatorWords::LocalIndexOutOfBounds),
        ),
        offset,
    )
}

/// A local that has no value yet.
#[cold]
pub fn uninitialized_local(offset: u64, local_index: u32) -> Error
    ensures kind { result.kind ≡ Other }
    ensures offset { result.offset ≡ offset }
{
    Error::with(
        Text::Number(
            Words::Operator(OperatorWords::UninitializedLocal),
            local_index,
            Words::Nothing,
        ),
        offset,
    )
}

/// An index that names nothing.
#[cold]
pub fn unknown(offset: u64, space: Space, index: u32) -> Error
    ensures kind { result.kind ≡ Other }
    ensures offset { result.offset ≡ offset }
{
    match space {
        Space::Type => Error::new(
            Words::Operator(OperatorWords::UnknownTypeTypeIndexOutOfBounds),
            offset,
        ),
        Space::NamedType => Error::with(
            Text::Number(Words::UnknownType, index, Words::TypeIndexOutOfBounds),
            offset,
        ),
        Space::FunctionType => Error::with(
            Text::Number(
                Words::Operator(OperatorWords::ExpectedFuncTypeAtIndex),
                index,
                Words::Nothing,
            ),
            offset,
        ),
        Space::StructType => Error::with(
            Text::Number(
                Words::Operator(OperatorWords::ExpectedStructTypeAtIndex),
                index,
                Words::Nothing,
            ),
            offset,
        ),
        Space::ArrayType => Error::with(
            Text::Number(
                Words::Operator(OperatorWords::ExpectedArrayTypeAtIndex),
                index,
                Words::Nothing,
            ),
            offset,
        ),
        Space::ContinuationType => Error::with(
            Text::Number(
                Words::Operator(OperatorWords::NonContinuationType),
                index,
                Words::Nothing,
            ),
            offset,
        ),
        Space::Field => Error::new(
            Words::Operator(OperatorWords::UnknownFieldFieldIndexOutOfBounds),
            offset,
        ),
        Space::Function => Error::with(
            Text::Number(
                Words::UnknownFunction,
                index,
                Words::Operator(OperatorWords::FunctionIndexOutOfBounds),
            ),
            offset,
        ),
        Space::Table => Error::with(
            Text::Number(Words::UnknownTable, index, Words::TableIndexOutOfBounds),
            offset,
        ),
        Space::Memory => Error::with(
            Text::Number(Words::UnknownMemory, index, Words::Nothing),
            offset,
        ),
        Space::Global => Error::new(
            Words::Operator(OperatorWords::UnknownGlobalGlobalIndexOutOfBounds),
            offset,
        ),
        Space::ConstantGlobal => Error::with(
            Text::Number(
                Words::Operator(OperatorWords::UnknownGlobal),
                index,
                Words::Operator(OperatorWords::GlobalIndexOutOfBounds),
            ),
            offset,
        ),
        Space::Tag => Error::with(
            Text::Number(
                Words::Operator(OperatorWords::UnknownTag),
                index,
                Words::Operator(OperatorWords::TagIndexOutOfBounds),
            ),
            offset,
        ),
        Space::Element => Error::with(
            Text::Number(
                Words::Operator(OperatorWords::UnknownElemSegment),
                index,
                Words::Operator(OperatorWords::SegmentIndexOutOfBounds),
            ),
            offset,
        ),
        Space::Data => Error::with(
            Text::Number(
                Words::Operator(OperatorWords::UnknownDataSegment),
                index,
                Words::Nothing,
            ),
            offset,
        ),
    }
}

/// What an operator is called that needs this feature.
pub fn feature_text(feature: WasmFeatures) -> Words {
    if feature.floats() {
        return Words::FloatingPointSupportIsDisabled;
    }
    if feature.multi_value() {
        return Words::Operator(
            OperatorWords::BlocksLoopsAndIfsMayOnlyProduceAResulttypeWhenMultiValueIsNotEnabled,
        );
    }
    if feature.bulk_memory() || feature.bulk_memory_opt() {
        return Words::Operator(OperatorWords::BulkMemorySupportIsNotEnabled);
    }
    if feature.reference_types() {
        return Words::ReferenceTypesSupportIsNotEnabled;
    }
    if feature.sign_extension() {
        return Words::Operator(OperatorWords::SignExtensionOperationsSupportIsNotEnabled);
    }
    if feature.saturating_float_to_int() {
        return Words::Operator(OperatorWords::SaturatingFloatToIntConversionsSupportIsNotEnabled);
    }
    if feature.tail_call() {
        return Words::Operator(OperatorWords::TailCallsSupportIsNotEnabled);
    }
    if feature.threads() {
        return Words::Operator(OperatorWords::ThreadsSupportIsNotEnabled);
    }
    if feature.simd() {
        return Words::SIMDSupportIsNotEnabled;
    }
    if feature.relaxed_simd() {
        return Words::Operator(OperatorWords::RelaxedSIMDSupportIsNotEnabled);
    }
    later_feature_text(feature)
}

fn later_feature_text(feature: WasmFeatures) -> Words {
    if feature.exceptions() {
        return Words::Operator(OperatorWords::ExceptionsSupportIsNotEnabled);
    }
    if feature.legacy_exceptions() {
        return Words::Operator(OperatorWords::LegacyExceptionsSupportIsNotEnabled);
    }
    if feature.function_references() {
        return Words::Operator(OperatorWords::FunctionReferencesSupportIsNotEnabled);
    }
    if feature.gc() {
        return Words::Operator(OperatorWords::GcSupportIsNotEnabled);
    }
    if feature.shared_everything_threads() {
        return Words::Operator(OperatorWords::SharedEverythingThreadsSupportIsNotEnabled);
    }
    if feature.memory_control() {
        return Words::Operator(OperatorWords::MemoryControlSupportIsNotEnabled);
    }
    if feature.stack_switching() {
        return Words::Operator(OperatorWords::StackSwitchingSupportIsNotEnabled);
    }
    if feature.wide_arithmetic() {
        return Words::Operator(OperatorWords::WideArithmeticSupportIsNotEnabled);
    }
    if feature.custom_descriptors() {
        return Words::Operator(OperatorWords::CustomDescriptorsOperationsSupportIsNotEnabled);
    }
    Words::Operator(OperatorWords::SupportIsNotEnabled)
}

/// What a type is called that needs this feature.
pub fn type_feature_text(feature: WasmFeatures, ty: ValType) -> Words {
    if feature.floats() || feature.simd() || feature.reference_types() {
        return feature_text(feature);
    }
    if feature.function_references() {
        return if names_defined(ty) {
            Words::FunctionReferencesRequiredForIndexReferenceTypes
        } else {
            Words::FunctionReferencesRequiredForNonNullableTypes
        };
    }
    if feature.custom_descriptors() {
        return Words::CustomDescriptorsRequiredForExactReferenceTypes;
    }
    if feature.shared_everything_threads() {
        return Words::SharedReferenceTypesRequireTheSharedEverythingThreadsProposal;
    }
    if feature.gc_types() {
        return Words::GcTypesAreDisallowedButFoundTypeWhichRequiresGc;
    }
    if feature.gc() {
        return Words::HeapTypesNotSupportedWithoutTheGcFeature;
    }
    if feature.exceptions() {
        return Words::ExceptionRefsNotSupportedWithoutTheExceptionHandlingFeature;
    }
    if feature.stack_switching() {
        return Words::ContinuationRefsNotSupportedWithoutTheStackSwitchingFeature;
    }
    Words::Operator(OperatorWords::SupportIsNotEnabled)
}

// Whether a type is a reference to a defined type.
fn names_defined(ty: ValType) -> bool {
    match ty.as_reference_type() {
        Some(reference) => match reference.heap_type() {
            HeapType::Concrete(_) | HeapType::Exact(_) => true,
            HeapType::Abstract { shared: _, ty: _ } => false,
        },
        None => false,
    }
}

/// Why an operator is refused, where neither a type nor an index is told.
pub fn reason_text(reason: Reason) -> Words {
    match reason {
        Reason::ElseOutsideIf => Words::Operator(OperatorWords::ElseFoundOutsideOfAnIfBlock),
        Reason::NoElse => Words::Operator(
            OperatorWords::TypeMismatchAnIfWithoutElseMustGiveWhatItTakes,
        ),
        Reason::LabelsDiffer => {
            Words::Operator(
                OperatorWords::TypeMismatchBrTableTargetLabelsHaveDifferentNumberOfTypes,
            )
        }
        Reason::NoLabelTypes => Words::Operator(
            OperatorWords::TypeMismatchBrOnNonNullTargetHasNoLabelTypes,
        ),
        Reason::LabelWithoutReference => {
            Words::Operator(OperatorWords::TypeMismatchBrOnNonNullTargetDoesNotEndWithHeapType)
        }
        Reason::ResultsDiffer => {
            Words::Operator(OperatorWords::TypeMismatchCurrentFunctionAndCalleeHaveDifferentResults)
        }
        Reason::NotFunctions => {
            Words::Operator(
                OperatorWords::TypeMismatchIndirectCallsMustGoThroughATableWithTypeFuncref,
            )
        }
        Reason::NotShared => Words::Operator(
            OperatorWords::SharedFunctionsCannotAccessUnsharedItems,
        ),
        Reason::UnknownType => Words::Operator(OperatorWords::UnknownTypeTypeIndexOutOfBounds),
        Reason::Alignment => Words::Operator(
            OperatorWords::InvalidMemopAlignmentAlignmentMustNotBeLargerThanNatural,
        ),
        Reason::AtomicAlignment => Words::Operator(
            OperatorWords::AtomicInstructionsMustAlwaysSpecifyMaximumAlignment,
        ),
        Reason::OffsetOutOfRange => Words::Operator(OperatorWords::OffsetOutOfRangeMustBe232),
        Reason::ArrayTarget => Words::Operator(OperatorWords::AnAccessToAMemoryReachesIntoAnArray),
        Reason::ImmutableGlobal => Words::Operator(
            OperatorWords::GlobalIsImmutableCannotModifyItWithGlobalSet,
        ),
        Reason::NoDataCount => Words::Operator(OperatorWords::DataCountSectionRequired),
        Reason::UndeclaredFunction => Words::Operator(OperatorWords::UndeclaredFunctionReference),
        Reason::ElementTypes => Words::Operator(OperatorWords::TypeMismatch),
        Reason::ImmutableField => Words::Operator(
            OperatorWords::InvalidStructModificationStructFieldIsImmutable,
        ),
        Reason::ImmutableArray => Words::Operator(
            OperatorWords::InvalidArrayModificationArrayIsImmutable,
        ),
        Reason::PackedStorage => Words::Operator(
            OperatorWords::CanOnlyUseStructGetWithNonPackedStorageTypes,
        ),
        Reason::PackedElement => Words::Operator(
            OperatorWords::CannotUseArrayGetWithPackedStorageTypes,
        ),
        Reason::UnpackedStorage => Words::Operator(
            OperatorWords::CannotExtendANonPackedStorageTypeTo32Bits,
        ),
        Reason::UnpackedFieldSigned => Words::Operator(
            OperatorWords::CannotUseStructGetSWithNonPackedStorageTypes,
        ),
        Reason::UnpackedFieldUnsigned => Words::Operator(
            OperatorWords::CannotUseStructGetUWithNonPackedStorageTypes,
        ),
        Reason::UnpackedElementSigned => Words::Operator(
            OperatorWords::CannotUseArrayGetSWithNonPackedStorageTypes,
        ),
        Reason::UnpackedElementUnsigned => Words::Operator(
            OperatorWords::CannotUseArrayGetUWithNonPackedStorageTypes,
        ),
        Reason::NotDefaultable => Words::Operator(OperatorWords::AFieldOrAnElementIsNotDefaultable),
        Reason::ElementsOfReferences => {
            Words::Operator(
                OperatorWords::TypeMismatchArrayNewDataCanOnlyCreateArraysWithNumericAndVectorElements,
            )
        }
        Reason::ElementsOfReferencesFilled => {
            Words::Operator(OperatorWords::InvalidArrayInitDataArrayTypeIsNotNumericOrVector)
        }
        Reason::NeedsDescriptor => {
            Words::Operator(
                OperatorWords::ATypeWithADescriptorRequiresAnAllocationWithTheDescriptor,
            )
        }
        Reason::NotCastable => Words::Operator(OperatorWords::CannotCastOrTestContinuationTypes),
        Reason::CastTypes => Words::Operator(
            OperatorWords::TypeMismatchTheCastIsNotToASubtypeOfItsFirstType,
        ),
        Reason::NoCastLabel => {
            Words::Operator(
                OperatorWords::TypeMismatchBrOnCastToLabelWithEmptyTypesMustHaveAReferenceType,
            )
        }
        Reason::NoLeftLabel => Words::Operator(
            OperatorWords::TypeMismatchExpectedAReferenceTypeFoundNothing,
        ),
        Reason::CastLabel => Words::Operator(
            OperatorWords::TypeMismatchBrOnCastTargetDoesNotEndWithTheTypeItTakes,
        ),
        Reason::SelectOfReferences => Words::Operator(
            OperatorWords::TypeMismatchSelectOnlyTakesIntegralTypes,
        ),
        Reason::SelectOfTypes => Words::Operator(
            OperatorWords::TypeMismatchSelectOperandsHaveDifferentTypes,
        ),
        Reason::SelectArity => Words::Operator(OperatorWords::InvalidResultArity),
        Reason::TagResults => Words::InvalidExceptionTypeNonEmptyTagResultType,
        Reason::CatchTypes => Words::Operator(
            OperatorWords::TypeMismatchWhatIsCaughtDoesNotFitTheLabelOfItsClause,
        ),
        Reason::CatchCount => Words::Operator(
            OperatorWords::TypeMismatchCatchLabelMustHaveSameNumberOfTypesAsTag,
        ),
        Reason::CatchRefCount => {
            Words::Operator(OperatorWords::TypeMismatchCatchRefLabelMustHaveOneMoreTypeThanTagTypes)
        }
        Reason::CatchAllCount => Words::Operator(
            OperatorWords::TypeMismatchCatchAllLabelMustHaveNoResultTypes,
        ),
        Reason::CatchAllRefCount => {
            Words::Operator(OperatorWords::TypeMismatchCatchAllRefLabelMustHaveExactlyOneResultType)
        }
        Reason::CatchAllRefType => {
            Words::Operator(OperatorWords::TypeMismatchCatchAllRefLabelMustASubtypeOfRefExn)
        }
        Reason::CatchOutsideTry => Words::Operator(OperatorWords::CatchFoundOutsideOfAnTryBlock),
        Reason::CatchAllOutsideTry => Words::Operator(
            OperatorWords::CatchAllFoundOutsideOfATryBlock,
        ),
        Reason::DelegateOutsideTry => Words::Operator(
            OperatorWords::DelegateFoundOutsideOfAnTryBlock,
        ),
        Reason::RethrowOutsideCatch => Words::Operator(
            OperatorWords::InvalidRethrowLabelTargetWasNotACatchBlock,
        ),
        Reason::Vectors => Words::UnexpectedSIMDOpcode0xfd,
        Reason::NoDescriptor => Words::Operator(OperatorWords::ExpectedATypeWithADescriptor),
        Reason::AtomicType => {
            Words::Operator(
                OperatorWords::InvalidTypeOnlyI32I64AndSubtypesOfAnyrefCanBeAccessedAtomically,
            )
        }
        Reason::AtomicInteger => {
            Words::Operator(OperatorWords::InvalidTypeOnlyI32AndI64HaveAtomicArithmeticOperations)
        }
        Reason::AtomicComparable => {
            Words::Operator(
                OperatorWords::InvalidTypeOnlyI32I64AndSubtypesOfEqrefCanBeComparedAtomically,
            )
        }
        Reason::HandlerLabel => Words::Operator(
            OperatorWords::TypeMismatchAHandlerSLabelMustEndWithAContinuationType,
        ),
        Reason::HandlerCarries => Words::Operator(
            OperatorWords::TypeMismatchBetweenTagTypeAndLabelType,
        ),
        Reason::HandlerContinues => Words::Operator(OperatorWords::TypeMismatchInContinuationType),
        Reason::SwitchCarries => Words::Operator(
            OperatorWords::TypeMismatchNonEmptyTagParameterType,
        ),
        Reason::SwitchResults => Words::Operator(
            OperatorWords::TypeMismatchInContinuationTypesAndTheTagOfASwitch,
        ),
        Reason::SwitchParameter => Words::Operator(
            OperatorWords::TypeMismatchNonContinuationTypeAsTheLastParameter,
        ),
        Reason::BindParameters => Words::Operator(
            OperatorWords::TypeMismatchInContinuationArguments,
        ),
        Reason::BindResults => Words::Operator(OperatorWords::TypeMismatchInContinuationResults),
    }
}
