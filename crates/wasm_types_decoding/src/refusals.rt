//! The words of refusals of operators and of modules, in two tables.

ghost use Rattle.std.specs.Prelude.{◌≡◌};
ghost use Rattle.wasm_types_decoding.specs.Words.{operator_text, module_text};

/// The words of refusals of operators.
#[derive(Clone, Copy)]
pub enum OperatorWords {
    Id,
    Module,
    Recgroup,
    Ref,
    RefExact,
    RefNull,
    RefNullExact,
    Sign,
    Sign2,
    ButItDoesNotMatchLabelResultType,
    Found,
    FunctionIndexOutOfBounds,
    GlobalIndexOutOfBounds,
    LocalIndexOutOfBounds,
    SegmentIndexOutOfBounds,
    TagIndexOutOfBounds,
    AFieldOrAnElementIsNotDefaultable,
    AType,
    ATypeWithADescriptorRequiresAnAllocationWithTheDescriptor,
    AnAccessToAMemoryReachesIntoAnArray,
    AtomicInstructionsMustAlwaysSpecifyMaximumAlignment,
    BlocksLoopsAndIfsMayOnlyProduceAResulttypeWhenMultiValueIsNotEnabled,
    BulkMemorySupportIsNotEnabled,
    CanOnlyUseStructGetWithNonPackedStorageTypes,
    CannotCastOrTestContinuationTypes,
    CannotExtendANonPackedStorageTypeTo32Bits,
    CannotUseArrayGetWithPackedStorageTypes,
    CannotUseArrayGetSWithNonPackedStorageTypes,
    CannotUseArrayGetUWithNonPackedStorageTypes,
    CannotUseStructGetSWithNonPackedStorageTypes,
    CannotUseStructGetUWithNonPackedStorageTypes,
    CatchFoundOutsideOfAnTryBlock,
    CatchAllFoundOutsideOfATryBlock,
    CustomDescriptorsOperationsSupportIsNotEnabled,
    DataCountSectionRequired,
    DelegateFoundOutsideOfAnTryBlock,
    ElseFoundOutsideOfAnIfBlock,
    ExceptionsSupportIsNotEnabled,
    ExpectedATypeWithADescriptor,
    ExpectedArrayTypeAtIndex,
    ExpectedFuncTypeAtIndex,
    ExpectedStructTypeAtIndex,
    FunctionReferencesSupportIsNotEnabled,
    GcSupportIsNotEnabled,
    GlobalIsImmutableCannotModifyItWithGlobalSet,
    HeapType,
    InvalidArrayModificationArrayIsImmutable,
    InvalidArrayInitDataArrayTypeIsNotNumericOrVector,
    InvalidMemopAlignmentAlignmentMustNotBeLargerThanNatural,
    InvalidResultArity,
    InvalidRethrowLabelTargetWasNotACatchBlock,
    InvalidStructModificationStructFieldIsImmutable,
    InvalidTypeOnlyI32AndI64HaveAtomicArithmeticOperations,
    InvalidTypeOnlyI32I64AndSubtypesOfAnyrefCanBeAccessedAtomically,
    InvalidTypeOnlyI32I64AndSubtypesOfEqrefCanBeComparedAtomically,
    LegacyExceptionsSupportIsNotEnabled,
    MemoryControlSupportIsNotEnabled,
    NonContinuationType,
    OffsetOutOfRangeMustBe232,
    OperatorsRemainingAfterEndOfFunction,
    RelaxedSIMDSupportIsNotEnabled,
    SaturatingFloatToIntConversionsSupportIsNotEnabled,
    SharedFunctionsCannotAccessUnsharedItems,
    SharedEverythingThreadsSupportIsNotEnabled,
    SignExtensionOperationsSupportIsNotEnabled,
    StackSwitchingSupportIsNotEnabled,
    SupportIsNotEnabled,
    TailCallsSupportIsNotEnabled,
    ThreadsSupportIsNotEnabled,
    TypeMismatch,
    TypeMismatchBetweenTagTypeAndLabelType,
    TypeMismatchInContinuationArguments,
    TypeMismatchInContinuationResults,
    TypeMismatchInContinuationType,
    TypeMismatchInContinuationTypesAndTheTagOfASwitch,
    TypeMismatchAHandlerSLabelMustEndWithAContinuationType,
    TypeMismatchAnIfWithoutElseMustGiveWhatItTakes,
    TypeMismatchArrayNewDataCanOnlyCreateArraysWithNumericAndVectorElements,
    TypeMismatchBrOnCastTargetDoesNotEndWithTheTypeItTakes,
    TypeMismatchBrOnCastToLabelWithEmptyTypesMustHaveAReferenceType,
    TypeMismatchBrOnNonNullTargetDoesNotEndWithHeapType,
    TypeMismatchBrOnNonNullTargetHasNoLabelTypes,
    TypeMismatchBrTableTargetLabelsHaveDifferentNumberOfTypes,
    TypeMismatchCastingToType,
    TypeMismatchCatchLabelMustHaveSameNumberOfTypesAsTag,
    TypeMismatchCatchAllLabelMustHaveNoResultTypes,
    TypeMismatchCatchAllRefLabelMustASubtypeOfRefExn,
    TypeMismatchCatchAllRefLabelMustHaveExactlyOneResultType,
    TypeMismatchCatchRefLabelMustHaveOneMoreTypeThanTagTypes,
    TypeMismatchCurrentFunctionAndCalleeHaveDifferentResults,
    TypeMismatchExpected,
    TypeMismatchExpectedAReferenceTypeFoundNothing,
    TypeMismatchExpectedLabelResultType,
    TypeMismatchExpectedRef,
    TypeMismatchExpectedRefButFound,
    TypeMismatchExpectedSubtypeOf,
    TypeMismatchIndirectCallsMustGoThroughATableWithTypeFuncref,
    TypeMismatchNonContinuationTypeAsTheLastParameter,
    TypeMismatchNonEmptyTagParameterType,
    TypeMismatchSelectOnlyTakesIntegralTypes,
    TypeMismatchSelectOperandsHaveDifferentTypes,
    TypeMismatchTheCastIsNotToASubtypeOfItsFirstType,
    TypeMismatchValuesRemainingOnStackAtEndOfBlock,
    TypeMismatchWhatIsCaughtDoesNotFitTheLabelOfItsClause,
    UndeclaredFunctionReference,
    UninitializedLocal,
    UnknownDataSegment,
    UnknownElemSegment,
    UnknownFieldFieldIndexOutOfBounds,
    UnknownGlobal,
    UnknownGlobalGlobalIndexOutOfBounds,
    UnknownLabelBranchDepthTooLarge,
    UnknownLocal,
    UnknownTag,
    UnknownTypeTypeIndexOutOfBounds,
    WideArithmeticSupportIsNotEnabled,
}

impl OperatorWords {
    /// The words themselves.
    pub const fn text(self) -> &'static str
        ensures { result.now ≡ operator_text self }
    {
        match self {
            OperatorWords::Id => "(id ",
            OperatorWords::Module => "(module ",
            OperatorWords::Recgroup => "(recgroup ",
            OperatorWords::Ref => "(ref ",
            OperatorWords::RefExact => "(ref (exact ",
            OperatorWords::RefNull => "(ref null ",
            OperatorWords::RefNullExact => "(ref null (exact ",
            OperatorWords::Sign => "))",
            OperatorWords::Sign2 => ")))",
            OperatorWords::ButItDoesNotMatchLabelResultType =>
                ", but it does not match label result type ",
            OperatorWords::Found => ", found ",
            OperatorWords::FunctionIndexOutOfBounds => ": function index out of bounds",
            OperatorWords::GlobalIndexOutOfBounds => ": global index out of bounds",
            OperatorWords::LocalIndexOutOfBounds => ": local index out of bounds",
            OperatorWords::SegmentIndexOutOfBounds => ": segment index out of bounds",
            OperatorWords::TagIndexOutOfBounds => ": tag index out of bounds",
            OperatorWords::AFieldOrAnElementIsNotDefaultable =>
                "a field or an element is not defaultable",
            OperatorWords::AType => "a type",
            OperatorWords::ATypeWithADescriptorRequiresAnAllocationWithTheDescriptor =>
                "a type with a descriptor requires an allocation with the descriptor",
            OperatorWords::AnAccessToAMemoryReachesIntoAnArray =>
                "an access to a memory reaches into an array",
            OperatorWords::AtomicInstructionsMustAlwaysSpecifyMaximumAlignment =>
                "atomic instructions must always specify maximum alignment",
            OperatorWords::BlocksLoopsAndIfsMayOnlyProduceAResulttypeWhenMultiValueIsNotEnabled =>
                "blocks, loops, and ifs may only produce a resulttype when multi-value is not enabled",
            OperatorWords::BulkMemorySupportIsNotEnabled => "bulk memory support is not enabled",
            OperatorWords::CanOnlyUseStructGetWithNonPackedStorageTypes =>
                "can only use struct `get` with non-packed storage types",
            OperatorWords::CannotCastOrTestContinuationTypes =>
                "cannot cast or test continuation types",
            OperatorWords::CannotExtendANonPackedStorageTypeTo32Bits =>
                "cannot extend a non-packed storage type to 32 bits",
            OperatorWords::CannotUseArrayGetWithPackedStorageTypes =>
                "cannot use array.get with packed storage types",
            OperatorWords::CannotUseArrayGetSWithNonPackedStorageTypes =>
                "cannot use array.get_s with non-packed storage types",
            OperatorWords::CannotUseArrayGetUWithNonPackedStorageTypes =>
                "cannot use array.get_u with non-packed storage types",
            OperatorWords::CannotUseStructGetSWithNonPackedStorageTypes =>
                "cannot use struct.get_s with non-packed storage types",
            OperatorWords::CannotUseStructGetUWithNonPackedStorageTypes =>
                "cannot use struct.get_u with non-packed storage types",
            OperatorWords::CatchFoundOutsideOfAnTryBlock => "catch found outside of an `try` block",
            OperatorWords::CatchAllFoundOutsideOfATryBlock =>
                "catch_all found outside of a `try` block",
            OperatorWords::CustomDescriptorsOperationsSupportIsNotEnabled =>
                "custom descriptors operations support is not enabled",
            OperatorWords::DataCountSectionRequired => "data count section required",
            OperatorWords::DelegateFoundOutsideOfAnTryBlock =>
                "delegate found outside of an `try` block",
            OperatorWords::ElseFoundOutsideOfAnIfBlock => "else found outside of an `if` block",
            OperatorWords::ExceptionsSupportIsNotEnabled => "exceptions support is not enabled",
            OperatorWords::ExpectedATypeWithADescriptor => "expected a type with a descriptor",
            OperatorWords::ExpectedArrayTypeAtIndex => "expected array type at index ",
            OperatorWords::ExpectedFuncTypeAtIndex => "expected func type at index ",
            OperatorWords::ExpectedStructTypeAtIndex => "expected struct type at index ",
            OperatorWords::FunctionReferencesSupportIsNotEnabled =>
                "function references support is not enabled",
            OperatorWords::GcSupportIsNotEnabled => "gc support is not enabled",
            OperatorWords::GlobalIsImmutableCannotModifyItWithGlobalSet =>
                "global is immutable: cannot modify it with `global.set`",
            OperatorWords::HeapType => "heap type",
            OperatorWords::InvalidArrayModificationArrayIsImmutable =>
                "invalid array modification: array is immutable",
            OperatorWords::InvalidArrayInitDataArrayTypeIsNotNumericOrVector =>
                "invalid array.init_data: array type is not numeric or vector",
            OperatorWords::InvalidMemopAlignmentAlignmentMustNotBeLargerThanNatural =>
                "invalid memop alignment: alignment must not be larger than natural",
            OperatorWords::InvalidResultArity => "invalid result arity",
            OperatorWords::InvalidRethrowLabelTargetWasNotACatchBlock =>
                "invalid rethrow label: target was not a `catch` block",
            OperatorWords::InvalidStructModificationStructFieldIsImmutable =>
                "invalid struct modification: struct field is immutable",
            OperatorWords::InvalidTypeOnlyI32AndI64HaveAtomicArithmeticOperations =>
                "invalid type: only `i32` and `i64` have atomic arithmetic operations",
            OperatorWords::InvalidTypeOnlyI32I64AndSubtypesOfAnyrefCanBeAccessedAtomically =>
                "invalid type: only `i32`, `i64` and subtypes of `anyref` can be accessed atomically",
            OperatorWords::InvalidTypeOnlyI32I64AndSubtypesOfEqrefCanBeComparedAtomically =>
                "invalid type: only `i32`, `i64` and subtypes of `eqref` can be compared atomically",
            OperatorWords::LegacyExceptionsSupportIsNotEnabled =>
                "legacy exceptions support is not enabled",
            OperatorWords::MemoryControlSupportIsNotEnabled =>
                "memory control support is not enabled",
            OperatorWords::NonContinuationType => "non-continuation type ",
            OperatorWords::OffsetOutOfRangeMustBe232 => "offset out of range: must be <= 2**32",
            OperatorWords::OperatorsRemainingAfterEndOfFunction =>
                "operators remaining after end of function",
            OperatorWords::RelaxedSIMDSupportIsNotEnabled => "relaxed SIMD support is not enabled",
            OperatorWords::SaturatingFloatToIntConversionsSupportIsNotEnabled =>
                "saturating float to int conversions support is not enabled",
            OperatorWords::SharedFunctionsCannotAccessUnsharedItems =>
                "shared functions cannot access unshared items",
            OperatorWords::SharedEverythingThreadsSupportIsNotEnabled =>
                "shared-everything-threads support is not enabled",
            OperatorWords::SignExtensionOperationsSupportIsNotEnabled =>
                "sign extension operations support is not enabled",
            OperatorWords::StackSwitchingSupportIsNotEnabled =>
                "stack switching support is not enabled",
            OperatorWords::SupportIsNotEnabled => "support is not enabled",
            OperatorWords::TailCallsSupportIsNotEnabled => "tail calls support is not enabled",
            OperatorWords::ThreadsSupportIsNotEnabled => "threads support is not enabled",
            OperatorWords::TypeMismatch => "type mismatch",
            OperatorWords::TypeMismatchBetweenTagTypeAndLabelType =>
                "type mismatch between tag type and label type",
            OperatorWords::TypeMismatchInContinuationArguments =>
                "type mismatch in continuation arguments",
            OperatorWords::TypeMismatchInContinuationResults =>
                "type mismatch in continuation results",
            OperatorWords::TypeMismatchInContinuationType => "type mismatch in continuation type",
            OperatorWords::TypeMismatchInContinuationTypesAndTheTagOfASwitch =>
                "type mismatch in continuation types and the tag of a switch",
            OperatorWords::TypeMismatchAHandlerSLabelMustEndWithAContinuationType =>
                "type mismatch: a handler's label must end with a continuation type",
            OperatorWords::TypeMismatchAnIfWithoutElseMustGiveWhatItTakes =>
                "type mismatch: an `if` without `else` must give what it takes",
            OperatorWords::TypeMismatchArrayNewDataCanOnlyCreateArraysWithNumericAndVectorElements =>
                "type mismatch: array.new_data can only create arrays with numeric and vector elements",
            OperatorWords::TypeMismatchBrOnCastTargetDoesNotEndWithTheTypeItTakes =>
                "type mismatch: br_on_cast target does not end with the type it takes",
            OperatorWords::TypeMismatchBrOnCastToLabelWithEmptyTypesMustHaveAReferenceType =>
                "type mismatch: br_on_cast to label with empty types, must have a reference type",
            OperatorWords::TypeMismatchBrOnNonNullTargetDoesNotEndWithHeapType =>
                "type mismatch: br_on_non_null target does not end with heap type",
            OperatorWords::TypeMismatchBrOnNonNullTargetHasNoLabelTypes =>
                "type mismatch: br_on_non_null target has no label types",
            OperatorWords::TypeMismatchBrTableTargetLabelsHaveDifferentNumberOfTypes =>
                "type mismatch: br_table target labels have different number of types",
            OperatorWords::TypeMismatchCastingToType => "type mismatch: casting to type ",
            OperatorWords::TypeMismatchCatchLabelMustHaveSameNumberOfTypesAsTag =>
                "type mismatch: catch label must have same number of types as tag",
            OperatorWords::TypeMismatchCatchAllLabelMustHaveNoResultTypes =>
                "type mismatch: catch_all label must have no result types",
            OperatorWords::TypeMismatchCatchAllRefLabelMustASubtypeOfRefExn =>
                "type mismatch: catch_all_ref label must a subtype of (ref exn)",
            OperatorWords::TypeMismatchCatchAllRefLabelMustHaveExactlyOneResultType =>
                "type mismatch: catch_all_ref label must have exactly one result type",
            OperatorWords::TypeMismatchCatchRefLabelMustHaveOneMoreTypeThanTagTypes =>
                "type mismatch: catch_ref label must have one more type than tag types",
            OperatorWords::TypeMismatchCurrentFunctionAndCalleeHaveDifferentResults =>
                "type mismatch: current function and callee have different results",
            OperatorWords::TypeMismatchExpected => "type mismatch: expected ",
            OperatorWords::TypeMismatchExpectedAReferenceTypeFoundNothing =>
                "type mismatch: expected a reference type, found nothing",
            OperatorWords::TypeMismatchExpectedLabelResultType =>
                "type mismatch: expected label result type ",
            OperatorWords::TypeMismatchExpectedRef => "type mismatch: expected ref",
            OperatorWords::TypeMismatchExpectedRefButFound =>
                "type mismatch: expected ref but found ",
            OperatorWords::TypeMismatchExpectedSubtypeOf => "type mismatch: expected subtype of ",
            OperatorWords::TypeMismatchIndirectCallsMustGoThroughATableWithTypeFuncref =>
                "type mismatch: indirect calls must go through a table with type <= funcref",
            OperatorWords::TypeMismatchNonContinuationTypeAsTheLastParameter =>
                "type mismatch: non-continuation type as the last parameter",
            OperatorWords::TypeMismatchNonEmptyTagParameterType =>
                "type mismatch: non-empty tag parameter type",
            OperatorWords::TypeMismatchSelectOnlyTakesIntegralTypes =>
                "type mismatch: select only takes integral types",
            OperatorWords::TypeMismatchSelectOperandsHaveDifferentTypes =>
                "type mismatch: select operands have different types",
            OperatorWords::TypeMismatchTheCastIsNotToASubtypeOfItsFirstType =>
                "type mismatch: the cast is not to a subtype of its first type",
            OperatorWords::TypeMismatchValuesRemainingOnStackAtEndOfBlock =>
                "type mismatch: values remaining on stack at end of block",
            OperatorWords::TypeMismatchWhatIsCaughtDoesNotFitTheLabelOfItsClause =>
                "type mismatch: what is caught does not fit the label of its clause",
            OperatorWords::UndeclaredFunctionReference => "undeclared function reference",
            OperatorWords::UninitializedLocal => "uninitialized local: ",
            OperatorWords::UnknownDataSegment => "unknown data segment ",
            OperatorWords::UnknownElemSegment => "unknown elem segment ",
            OperatorWords::UnknownFieldFieldIndexOutOfBounds =>
                "unknown field: field index out of bounds",
            OperatorWords::UnknownGlobal => "unknown global ",
            OperatorWords::UnknownGlobalGlobalIndexOutOfBounds =>
                "unknown global: global index out of bounds",
            OperatorWords::UnknownLabelBranchDepthTooLarge =>
                "unknown label: branch depth too large",
            OperatorWords::UnknownLocal => "unknown local ",
            OperatorWords::UnknownTag => "unknown tag ",
            OperatorWords::UnknownTypeTypeIndexOutOfBounds =>
                "unknown type: type index out of bounds",
            OperatorWords::WideArithmeticSupportIsNotEnabled =>
                "wide arithmetic support is not enabled",
        }
    }
}

/// The words of refusals of modules.
#[derive(Clone, Copy)]
pub enum ModuleWords {
    IsNotAFunctionType,
    FuncIndexOutOfBounds,
    MemoryIndexOutOfBounds,
    TypeIndexOutOfBoundsBecauseTheGCProposalIsDisabled,
    TypeIndexOutOfRecGroupBounds,
    AModuleWritesIndicesOfItsOwnTypesAlone,
    ArrayIndexedTypesNotSupportedWithoutTheGcFeature,
    BulkMemoryMustBeEnabled,
    CannotCallEndAfterParsingHasCompleted,
    CannotCallEndBeforeAHeaderHasBeenParsed,
    CannotDefineArrayTypesWhenGcTypesAreDisabled,
    CannotDefineContinuationTypesWhenGcTypesAreDisabled,
    CannotDefineContinuationTypesWhenStackSwitchingIsDisabled,
    CannotDefineStructTypesWhenGcTypesAreDisabled,
    CodeSectionEntryExceedsNumberOfFunctions,
    CodeSectionEntryOutOfOrder,
    ComponentModelValidationSupportDisabledAtCompileTime,
    CustomDescriptorsProposalMustBeEnabledToUseDescriptorAndDescribes,
    CustomDescriptorsRequiredForExactFunctionImports,
    DataCountSectionRequiresTheBulkMemoryProposal,
    DataCountSectionSpecifiesTooManyDataSegments,
    DataSegments,
    DescribesClauseOnNonStructType,
    DescribesWithNoMatchingDescriptor,
    DescriptorAndDescribedTypeMustHaveTheSameFinality,
    DescriptorClauseOnNonStructType,
    DescriptorWithNoMatchingDescribes,
    EffectiveTypeSizeExceedsTheLimitOf,
    ElementSegments,
    EncodedAsAComponentButTheWebAssemblyComponentModelFeatureIsNotEnabled,
    ExceptionsProposalNotEnabled,
    Exports,
    ForwardDescribesReference,
    FuncTypeReturnsMultipleValuesButTheMultiValueFeatureIsNotEnabled,
    Function,
    FunctionBodySizeCountExceedsLimitOf,
    Functions,
    GcProposalMustBeEnabledToUseSubtypes,
    Global,
    Globals,
    ImplementationLimitTooManyCoreTypes,
    ImplementationLimitTooManyRecursionGroups,
    Imports,
    InvalidCustomPageSize,
    InvalidStartFunctionType,
    MalformedSectionId,
    Memories,
    Memory,
    Memory64MustBeEnabledFor64BitMemories,
    Memory64MustBeEnabledFor64BitTables,
    Multiple,
    MultipleSupertypes,
    MutableGlobalSupportIsNotEnabled,
    NonFunctionType,
    NumberOfElementsIsOutOfBounds,
    PassiveDataSegmentsRequireTheBulkMemoryProposal,
    RecGroupUsageRequiresGcProposalToBeEnabled,
    SharedCompositeTypeMustContainSharedTypes,
    SharedCompositeTypesRequireTheSharedEverythingThreadsProposal,
    SharedGlobalsMustHaveASharedValueType,
    SharedGlobalsRequireTheSharedEverythingThreadsProposal,
    SharedMemoryMustHaveMaximumSize,
    SharedTablesMustHaveASharedElementType,
    SharedTablesRequireTheSharedEverythingThreadsProposal,
    SizeMinimumMustNotBeGreaterThanMaximum,
    StructIndexedTypesNotSupportedWithoutTheGcFeature,
    SubTypeCannotHaveAFinalSuperType,
    SubTypeMustMatchSuperType,
    SubTypeWithDescriptorMustHaveSuperTypeWithDescriptor,
    SupertypeOfDescribedTypeMustBeDescribedBySupertypeOfDescriptor,
    SupertypeOfDescriptorDoesNotMatch,
    SupertypeOfDescriptorMustBeADescriptor,
    SupertypeOfNonDescriptorTypeCannotBeADescriptor,
    SupertypeOfTypeWithoutDescriptorCannotHaveDescriptor,
    SupertypesMustBeDefinedBeforeSubtypes,
    Table,
    Tables,
    TablesWithExpressionInitializersRequireTheFunctionReferencesProposal,
    Tag,
    Tags,
    TheCustomPageSizesProposalMustBeEnabledToCustomizeAMemorySPageSize,
    TheFunctionWasRefusedBefore,
    TheModuleWasRefusedBefore,
    ThreadsMustBeEnabledForSharedMemories,
    TypeIndex,
    TypeMismatchNonDefaultableElementType,
    Types,
    UnexpectedCodeSectionEntryBeforeTheCodeSectionHasBegun,
    UnexpectedSectionAfterParsingHasCompleted,
    UnexpectedSectionBeforeHeaderWasParsed,
    UnexpectedSectionBehindTheCodeSection,
    UnknownBinaryVersion0x,
    WasmVersionHeaderOutOfOrder,
}

impl ModuleWords {
    /// The words themselves.
    pub const fn text(self) -> &'static str
        ensures { result.now ≡ module_text self }
    {
        match self {
            ModuleWords::IsNotAFunctionType => " is not a function type",
            ModuleWords::FuncIndexOutOfBounds => ": func index out of bounds",
            ModuleWords::MemoryIndexOutOfBounds => ": memory index out of bounds",
            ModuleWords::TypeIndexOutOfBoundsBecauseTheGCProposalIsDisabled =>
                ": type index out of bounds because the GC proposal is disabled",
            ModuleWords::TypeIndexOutOfRecGroupBounds => ": type index out of rec group bounds",
            ModuleWords::AModuleWritesIndicesOfItsOwnTypesAlone =>
                "a module writes indices of its own types alone",
            ModuleWords::ArrayIndexedTypesNotSupportedWithoutTheGcFeature =>
                "array indexed types not supported without the gc feature",
            ModuleWords::BulkMemoryMustBeEnabled => "bulk memory must be enabled",
            ModuleWords::CannotCallEndAfterParsingHasCompleted =>
                "cannot call `end` after parsing has completed",
            ModuleWords::CannotCallEndBeforeAHeaderHasBeenParsed =>
                "cannot call `end` before a header has been parsed",
            ModuleWords::CannotDefineArrayTypesWhenGcTypesAreDisabled =>
                "cannot define array types when gc types are disabled",
            ModuleWords::CannotDefineContinuationTypesWhenGcTypesAreDisabled =>
                "cannot define continuation types when gc types are disabled",
            ModuleWords::CannotDefineContinuationTypesWhenStackSwitchingIsDisabled =>
                "cannot define continuation types when stack switching is disabled",
            ModuleWords::CannotDefineStructTypesWhenGcTypesAreDisabled =>
                "cannot define struct types when gc types are disabled",
            ModuleWords::CodeSectionEntryExceedsNumberOfFunctions =>
                "code section entry exceeds number of functions",
            ModuleWords::CodeSectionEntryOutOfOrder => "code section entry out of order",
            ModuleWords::ComponentModelValidationSupportDisabledAtCompileTime =>
                "component model validation support disabled at compile time",
            ModuleWords::CustomDescriptorsProposalMustBeEnabledToUseDescriptorAndDescribes =>
                "custom descriptors proposal must be enabled to use descriptor and describes",
            ModuleWords::CustomDescriptorsRequiredForExactFunctionImports =>
                "custom descriptors required for exact function imports",
            ModuleWords::DataCountSectionRequiresTheBulkMemoryProposal =>
                "data count section requires the bulk-memory proposal",
            ModuleWords::DataCountSectionSpecifiesTooManyDataSegments =>
                "data count section specifies too many data segments",
            ModuleWords::DataSegments => "data segments",
            ModuleWords::DescribesClauseOnNonStructType => "describes clause on non-struct type",
            ModuleWords::DescribesWithNoMatchingDescriptor =>
                "describes with no matching descriptor",
            ModuleWords::DescriptorAndDescribedTypeMustHaveTheSameFinality =>
                "descriptor and described type must have the same finality",
            ModuleWords::DescriptorClauseOnNonStructType => "descriptor clause on non-struct type",
            ModuleWords::DescriptorWithNoMatchingDescribes =>
                "descriptor with no matching describes",
            ModuleWords::EffectiveTypeSizeExceedsTheLimitOf =>
                "effective type size exceeds the limit of ",
            ModuleWords::ElementSegments => "element segments",
            ModuleWords::EncodedAsAComponentButTheWebAssemblyComponentModelFeatureIsNotEnabled =>
                "encoded as a component but the WebAssembly component model feature is not enabled",
            ModuleWords::ExceptionsProposalNotEnabled => "exceptions proposal not enabled",
            ModuleWords::Exports => "exports",
            ModuleWords::ForwardDescribesReference => "forward describes reference",
            ModuleWords::FuncTypeReturnsMultipleValuesButTheMultiValueFeatureIsNotEnabled =>
                "func type returns multiple values but the multi-value feature is not enabled",
            ModuleWords::Function => "function",
            ModuleWords::FunctionBodySizeCountExceedsLimitOf =>
                "function body size count exceeds limit of ",
            ModuleWords::Functions => "functions",
            ModuleWords::GcProposalMustBeEnabledToUseSubtypes =>
                "gc proposal must be enabled to use subtypes",
            ModuleWords::Global => "global",
            ModuleWords::Globals => "globals",
            ModuleWords::ImplementationLimitTooManyCoreTypes =>
                "implementation limit: too many core types",
            ModuleWords::ImplementationLimitTooManyRecursionGroups =>
                "implementation limit: too many recursion groups",
            ModuleWords::Imports => "imports",
            ModuleWords::InvalidCustomPageSize => "invalid custom page size",
            ModuleWords::InvalidStartFunctionType => "invalid start function type",
            ModuleWords::MalformedSectionId => "malformed section id: ",
            ModuleWords::Memories => "memories",
            ModuleWords::Memory => "memory",
            ModuleWords::Memory64MustBeEnabledFor64BitMemories =>
                "memory64 must be enabled for 64-bit memories",
            ModuleWords::Memory64MustBeEnabledFor64BitTables =>
                "memory64 must be enabled for 64-bit tables",
            ModuleWords::Multiple => "multiple ",
            ModuleWords::MultipleSupertypes => "multiple supertypes",
            ModuleWords::MutableGlobalSupportIsNotEnabled =>
                "mutable global support is not enabled",
            ModuleWords::NonFunctionType => "non-function type ",
            ModuleWords::NumberOfElementsIsOutOfBounds => "number of elements is out of bounds",
            ModuleWords::PassiveDataSegmentsRequireTheBulkMemoryProposal =>
                "passive data segments require the bulk-memory proposal",
            ModuleWords::RecGroupUsageRequiresGcProposalToBeEnabled =>
                "rec group usage requires `gc` proposal to be enabled",
            ModuleWords::SharedCompositeTypeMustContainSharedTypes =>
                "shared composite type must contain shared types",
            ModuleWords::SharedCompositeTypesRequireTheSharedEverythingThreadsProposal =>
                "shared composite types require the shared-everything-threads proposal",
            ModuleWords::SharedGlobalsMustHaveASharedValueType =>
                "shared globals must have a shared value type",
            ModuleWords::SharedGlobalsRequireTheSharedEverythingThreadsProposal =>
                "shared globals require the shared-everything-threads proposal",
            ModuleWords::SharedMemoryMustHaveMaximumSize => "shared memory must have maximum size",
            ModuleWords::SharedTablesMustHaveASharedElementType =>
                "shared tables must have a shared element type",
            ModuleWords::SharedTablesRequireTheSharedEverythingThreadsProposal =>
                "shared tables require the shared-everything-threads proposal",
            ModuleWords::SizeMinimumMustNotBeGreaterThanMaximum =>
                "size minimum must not be greater than maximum",
            ModuleWords::StructIndexedTypesNotSupportedWithoutTheGcFeature =>
                "struct indexed types not supported without the gc feature",
            ModuleWords::SubTypeCannotHaveAFinalSuperType =>
                "sub type cannot have a final super type",
            ModuleWords::SubTypeMustMatchSuperType => "sub type must match super type",
            ModuleWords::SubTypeWithDescriptorMustHaveSuperTypeWithDescriptor =>
                "sub type with descriptor must have super type with descriptor",
            ModuleWords::SupertypeOfDescribedTypeMustBeDescribedBySupertypeOfDescriptor =>
                "supertype of described type must be described by supertype of descriptor",
            ModuleWords::SupertypeOfDescriptorDoesNotMatch =>
                "supertype of descriptor does not match",
            ModuleWords::SupertypeOfDescriptorMustBeADescriptor =>
                "supertype of descriptor must be a descriptor",
            ModuleWords::SupertypeOfNonDescriptorTypeCannotBeADescriptor =>
                "supertype of non-descriptor type cannot be a descriptor",
            ModuleWords::SupertypeOfTypeWithoutDescriptorCannotHaveDescriptor =>
                "supertype of type without descriptor cannot have descriptor",
            ModuleWords::SupertypesMustBeDefinedBeforeSubtypes =>
                "supertypes must be defined before subtypes",
            ModuleWords::Table => "table",
            ModuleWords::Tables => "tables",
            ModuleWords::TablesWithExpressionInitializersRequireTheFunctionReferencesProposal =>
                "tables with expression initializers require the function-references proposal",
            ModuleWords::Tag => "tag",
            ModuleWords::Tags => "tags",
            ModuleWords::TheCustomPageSizesProposalMustBeEnabledToCustomizeAMemorySPageSize =>
                "the custom page sizes proposal must be enabled to customize a memory's page size",
            ModuleWords::TheFunctionWasRefusedBefore => "the function was refused before",
            ModuleWords::TheModuleWasRefusedBefore => "the module was refused before",
            ModuleWords::ThreadsMustBeEnabledForSharedMemories =>
                "threads must be enabled for shared memories",
            ModuleWords::TypeIndex => "type index ",
            ModuleWords::TypeMismatchNonDefaultableElementType =>
                "type mismatch: non-defaultable element type",
            ModuleWords::Types => "types",
            ModuleWords::UnexpectedCodeSectionEntryBeforeTheCodeSectionHasBegun =>
                "unexpected code section entry before the code section has begun",
            ModuleWords::UnexpectedSectionAfterParsingHasCompleted =>
                "unexpected section after parsing has completed",
            ModuleWords::UnexpectedSectionBeforeHeaderWasParsed =>
                "unexpected section before header was parsed",
            ModuleWords::UnexpectedSectionBehindTheCodeSection =>
                "unexpected section behind the code section",
            ModuleWords::UnknownBinaryVersion0x => "unknown binary version: 0x",
            ModuleWords::WasmVersionHeaderOutOfOrder => "wasm version header out of order",
        }
    }
}
