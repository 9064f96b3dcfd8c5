//! The words that messages are made of, and the names of types, in two of four tables. Words that tell only why an operator or a
//! module is refused have two more (`refusals.rt`).

ghost use Rattle.std.specs.Prelude.{◌≡◌};
ghost use Rattle.wasm_types_decoding.specs.Words.{words_text, type_text};

use crate::refusals::{ModuleWords, OperatorWords};
use std::fmt;
use std::fmt::Debug;

/// The words of messages, by what they say. What stands between them is in [`Text`](crate::Text).
#[derive(Clone, Copy)]
pub enum Words {
    Nothing,
    ForCatch,
    ForExternalKind,
    ForOnClause,
    ForType,
    TableIndexOutOfBounds,
    TypeIndexOutOfBounds,
    ExactTypeIsNotAllowedInTheExports,
    SIMDSupportIsNotEnabled,
    CatchAllFoundOutsideLegacyTryBlock,
    CatchFoundOutsideLegacyTryBlock,
    DelegateFoundOutsideLegacyTryBlock,
    ElseFoundOutsideIfBlock,
    AnOperatorWasRefusedBefore,
    BrTable,
    Catches,
    CodeSectionOutOfRange,
    ConstantExpressionRequiredGlobalGetOfLocallyDefinedGlobal,
    ConstantExpressionRequiredGlobalGetOfMutableGlobal,
    ConstantExpressionRequiredNonConstantOperator,
    ContinuationRefsNotSupportedWithoutTheStackSwitchingFeature,
    ControlFramesRemainAtEndOfExpression,
    ControlFramesRemainAtEndOfFunctionBodyOrExpression,
    CustomDescriptorsRequiredForExactReferenceTypes,
    DataCountAndDataSectionHaveInconsistentLengths,
    DataCountIsNonZeroButDataSectionIsAbsent,
    DuplicateExportName,
    ExceptionRefsNotSupportedWithoutTheExceptionHandlingFeature,
    FloatingPointSupportIsDisabled,
    FunctionAndCodeSectionHaveInconsistentLengths,
    FunctionParams,
    FunctionReferencesRequiredForIndexReferenceTypes,
    FunctionReferencesRequiredForNonNullableTypes,
    FunctionReturns,
    FunctionSectionHasNonZeroCountButCodeSectionIsAbsent,
    FunctionSectionIsAbsentButCodeSectionHasNonZeroCount,
    GcProposalNotSupported,
    GcTypesAreDisallowedButFoundTypeWhichRequiresGc,
    HeapTypesNotSupportedWithoutTheGcFeature,
    IllegalOpcode0x,
    InvalidAbstractHeapType,
    InvalidAtomicConsistencyOrdering,
    InvalidExceptionTypeNonEmptyTagResultType,
    InvalidFlagsByteInDataSegment,
    InvalidFlagsByteInElementSegment,
    InvalidFunctionType,
    InvalidHeapType,
    InvalidLaneIndex,
    InvalidLeadingByte0x,
    InvalidMemoryLimitsFlags,
    InvalidTableEncoding,
    InvalidTableResizableLimitsFlags,
    InvalidTagAttributes,
    InvalidU7,
    InvalidValueType,
    InvalidVarI32IntegerRepresentationTooLong,
    InvalidVarI32IntegerTooLarge,
    InvalidVarI64IntegerRepresentationTooLong,
    InvalidVarI64IntegerTooLarge,
    InvalidVarS33IntegerRepresentationTooLong,
    InvalidVarU32IntegerRepresentationTooLong,
    InvalidVarU32IntegerTooLarge,
    InvalidVarU64IntegerRepresentationTooLong,
    InvalidVarU64IntegerTooLarge,
    LegacyExceptionsFeatureRequiredForCatchInstruction,
    LegacyExceptionsFeatureRequiredForCatchAllInstruction,
    LegacyExceptionsFeatureRequiredForTryInstruction,
    MagicHeaderNotDetectedBadMagicNumber,
    MalformedUTF8Encoding,
    MalformedGlobalFlags,
    MalformedMemopAlignmentAlignmentTooLarge,
    MalformedMutabilityByteForFieldType,
    MalformedReferenceType,
    NoGroupOfLocalsIsLeft,
    NonzeroByteAfterAtomicFence,
    NothingFollowsARefusal,
    NothingFollowsTheEnd,
    NothingMoreIsParsed,
    OnlyTheFunctionExternalTypeIsSupportedInElemSegment,
    OperatorsRemainingAfterEndOfFunctionBodyOrExpression,
    OutOfMemory,
    RecGroupTypes,
    ReferenceTypesSupportIsNotEnabled,
    ResumeTable,
    SectionOutOfOrder,
    SectionSizeMismatchUnexpectedDataAtTheEndOfTheSection,
    SelectTypes,
    SharedReferenceTypesRequireTheSharedEverythingThreadsProposal,
    StringSizeOutOfBounds,
    StructFields,
    SupertypeIdxs,
    TooManyLocalsLocalsExceedMaximum,
    TrailingBytesAtEndOfSection,
    TypeIndexGreaterThanImplementationLimits,
    UnexpectedSIMDOpcode0xfd,
    UnexpectedContentInTheDataCountSection,
    UnexpectedContentInTheStartSection,
    UnexpectedDataAtTheEndOfOperators,
    UnexpectedEndOfFile,
    UnexpectedExactType,
    UnknownBinaryVersionAndEncodingCombination,
    UnknownFunction,
    UnknownMemory,
    UnknownTable,
    UnknownType,
    ZeroByteExpected,
    /// Those of a type.
    Type(TypeWords),
    /// Those of a refusal of an operator.
    Operator(OperatorWords),
    /// Those of a refusal of a module.
    Module(ModuleWords),
}

impl Words {
    /// The words themselves.
    pub const fn text(self) -> &'static str
        ensures { result.now ≡ words_text self }
    {
        match self {
            Words::Nothing => "",
            Words::ForCatch => ") for catch",
            Words::ForExternalKind => ") for external kind",
            Words::ForOnClause => ") for on clause",
            Words::ForType => ") for type",
            Words::TableIndexOutOfBounds => ": table index out of bounds",
            Words::TypeIndexOutOfBounds => ": type index out of bounds",
            Words::ExactTypeIsNotAllowedInTheExports => "Exact type is not allowed in the exports",
            Words::SIMDSupportIsNotEnabled => "SIMD support is not enabled",
            Words::CatchAllFoundOutsideLegacyTryBlock =>
                "`catch_all` found outside `LegacyTry` block",
            Words::CatchFoundOutsideLegacyTryBlock => "`catch` found outside `LegacyTry` block",
            Words::DelegateFoundOutsideLegacyTryBlock =>
                "`delegate` found outside `LegacyTry` block",
            Words::ElseFoundOutsideIfBlock => "`else` found outside `If` block",
            Words::AnOperatorWasRefusedBefore => "an operator was refused before",
            Words::BrTable => "br_table",
            Words::Catches => "catches",
            Words::CodeSectionOutOfRange => "code section out of range",
            Words::ConstantExpressionRequiredGlobalGetOfLocallyDefinedGlobal =>
                "constant expression required: global.get of locally defined global",
            Words::ConstantExpressionRequiredGlobalGetOfMutableGlobal =>
                "constant expression required: global.get of mutable global",
            Words::ConstantExpressionRequiredNonConstantOperator =>
                "constant expression required: non-constant operator: ",
            Words::ContinuationRefsNotSupportedWithoutTheStackSwitchingFeature =>
                "continuation refs not supported without the stack switching feature",
            Words::ControlFramesRemainAtEndOfExpression =>
                "control frames remain at end of expression",
            Words::ControlFramesRemainAtEndOfFunctionBodyOrExpression =>
                "control frames remain at end of function body or expression",
            Words::CustomDescriptorsRequiredForExactReferenceTypes =>
                "custom descriptors required for exact reference types",
            Words::DataCountAndDataSectionHaveInconsistentLengths =>
                "data count and data section have inconsistent lengths",
            Words::DataCountIsNonZeroButDataSectionIsAbsent =>
                "data count is non-zero but data section is absent",
            Words::DuplicateExportName => "duplicate export name",
            Words::ExceptionRefsNotSupportedWithoutTheExceptionHandlingFeature =>
                "exception refs not supported without the exception handling feature",
            Words::FloatingPointSupportIsDisabled => "floating-point support is disabled",
            Words::FunctionAndCodeSectionHaveInconsistentLengths =>
                "function and code section have inconsistent lengths",
            Words::FunctionParams => "function params",
            Words::FunctionReferencesRequiredForIndexReferenceTypes =>
                "function references required for index reference types",
            Words::FunctionReferencesRequiredForNonNullableTypes =>
                "function references required for non-nullable types",
            Words::FunctionReturns => "function returns",
            Words::FunctionSectionHasNonZeroCountButCodeSectionIsAbsent =>
                "function section has non-zero count but code section is absent",
            Words::FunctionSectionIsAbsentButCodeSectionHasNonZeroCount =>
                "function section is absent but code section has non-zero count",
            Words::GcProposalNotSupported => "gc proposal not supported",
            Words::GcTypesAreDisallowedButFoundTypeWhichRequiresGc =>
                "gc types are disallowed but found type which requires gc",
            Words::HeapTypesNotSupportedWithoutTheGcFeature =>
                "heap types not supported without the gc feature",
            Words::IllegalOpcode0x => "illegal opcode: 0x",
            Words::InvalidAbstractHeapType => "invalid abstract heap type",
            Words::InvalidAtomicConsistencyOrdering => "invalid atomic consistency ordering ",
            Words::InvalidExceptionTypeNonEmptyTagResultType =>
                "invalid exception type: non-empty tag result type",
            Words::InvalidFlagsByteInDataSegment => "invalid flags byte in data segment",
            Words::InvalidFlagsByteInElementSegment => "invalid flags byte in element segment",
            Words::InvalidFunctionType => "invalid function type",
            Words::InvalidHeapType => "invalid heap type",
            Words::InvalidLaneIndex => "invalid lane index",
            Words::InvalidLeadingByte0x => "invalid leading byte (0x",
            Words::InvalidMemoryLimitsFlags => "invalid memory limits flags",
            Words::InvalidTableEncoding => "invalid table encoding",
            Words::InvalidTableResizableLimitsFlags => "invalid table resizable limits flags",
            Words::InvalidTagAttributes => "invalid tag attributes",
            Words::InvalidU7 => "invalid u7",
            Words::InvalidValueType => "invalid value type",
            Words::InvalidVarI32IntegerRepresentationTooLong =>
                "invalid var_i32: integer representation too long",
            Words::InvalidVarI32IntegerTooLarge => "invalid var_i32: integer too large",
            Words::InvalidVarI64IntegerRepresentationTooLong =>
                "invalid var_i64: integer representation too long",
            Words::InvalidVarI64IntegerTooLarge => "invalid var_i64: integer too large",
            Words::InvalidVarS33IntegerRepresentationTooLong =>
                "invalid var_s33: integer representation too long",
            Words::InvalidVarU32IntegerRepresentationTooLong =>
                "invalid var_u32: integer representation too long",
            Words::InvalidVarU32IntegerTooLarge => "invalid var_u32: integer too large",
            Words::InvalidVarU64IntegerRepresentationTooLong =>
                "invalid var_u64: integer representation too long",
            Words::InvalidVarU64IntegerTooLarge => "invalid var_u64: integer too large",
            Words::LegacyExceptionsFeatureRequiredForCatchInstruction =>
                "legacy_exceptions feature required for catch instruction",
            Words::LegacyExceptionsFeatureRequiredForCatchAllInstruction =>
                "legacy_exceptions feature required for catch_all instruction",
            Words::LegacyExceptionsFeatureRequiredForTryInstruction =>
                "legacy_exceptions feature required for try instruction",
            Words::MagicHeaderNotDetectedBadMagicNumber =>
                "magic header not detected: bad magic number",
            Words::MalformedUTF8Encoding => "malformed UTF-8 encoding",
            Words::MalformedGlobalFlags => "malformed global flags",
            Words::MalformedMemopAlignmentAlignmentTooLarge =>
                "malformed memop alignment: alignment too large",
            Words::MalformedMutabilityByteForFieldType =>
                "malformed mutability byte for field type",
            Words::MalformedReferenceType => "malformed reference type",
            Words::NoGroupOfLocalsIsLeft => "no group of locals is left",
            Words::NonzeroByteAfterAtomicFence => "nonzero byte after `atomic.fence`",
            Words::NothingFollowsARefusal => "nothing follows a refusal",
            Words::NothingFollowsTheEnd => "nothing follows the end",
            Words::NothingMoreIsParsed => "nothing more is parsed",
            Words::OnlyTheFunctionExternalTypeIsSupportedInElemSegment =>
                "only the function external type is supported in elem segment",
            Words::OperatorsRemainingAfterEndOfFunctionBodyOrExpression =>
                "operators remaining after end of function body or expression",
            Words::OutOfMemory => "out of memory",
            Words::RecGroupTypes => "rec group types",
            Words::ReferenceTypesSupportIsNotEnabled => "reference types support is not enabled",
            Words::ResumeTable => "resume table",
            Words::SectionOutOfOrder => "section out of order",
            Words::SectionSizeMismatchUnexpectedDataAtTheEndOfTheSection =>
                "section size mismatch: unexpected data at the end of the section",
            Words::SelectTypes => "select types",
            Words::SharedReferenceTypesRequireTheSharedEverythingThreadsProposal =>
                "shared reference types require the shared-everything-threads proposal",
            Words::StringSizeOutOfBounds => "string size out of bounds",
            Words::StructFields => "struct fields",
            Words::SupertypeIdxs => "supertype idxs",
            Words::TooManyLocalsLocalsExceedMaximum => "too many locals: locals exceed maximum",
            Words::TrailingBytesAtEndOfSection => "trailing bytes at end of section",
            Words::TypeIndexGreaterThanImplementationLimits =>
                "type index greater than implementation limits",
            Words::UnexpectedSIMDOpcode0xfd => "unexpected SIMD opcode: 0xfd",
            Words::UnexpectedContentInTheDataCountSection =>
                "unexpected content in the data count section",
            Words::UnexpectedContentInTheStartSection => "unexpected content in the start section",
            Words::UnexpectedDataAtTheEndOfOperators => "unexpected data at the end of operators",
            Words::UnexpectedEndOfFile => "unexpected end-of-file",
            Words::UnexpectedExactType => "unexpected exact type",
            Words::UnknownBinaryVersionAndEncodingCombination =>
                "unknown binary version and encoding combination",
            Words::UnknownFunction => "unknown function ",
            Words::UnknownMemory => "unknown memory ",
            Words::UnknownTable => "unknown table ",
            Words::UnknownType => "unknown type ",
            Words::ZeroByteExpected => "zero byte expected",
            Words::Type(words) => words.text(),
            Words::Operator(words) => words.text(),
            Words::Module(words) => words.text(),
        }
    }
}

/// As its text.
impl Debug for Words {
    fn fmt<W: fmt::Write>(&self, f: &mut fmt::Formatter<W>) -> fmt::Result {
        f.write_str(self.text())
    }
}

/// The words for types, in the text format.
#[derive(Clone, Copy)]
pub enum TypeWords {
    RefType,
    RefExactType,
    RefSharedAny,
    RefSharedArray,
    RefSharedCont,
    RefSharedEq,
    RefSharedExn,
    RefSharedExtern,
    RefSharedFunc,
    RefSharedI31,
    RefSharedNocont,
    RefSharedNoexn,
    RefSharedNoextern,
    RefSharedNofunc,
    RefSharedNone,
    RefSharedStruct,
    RefAny,
    RefArray,
    RefCont,
    RefEq,
    RefExn,
    RefExtern,
    RefFunc,
    RefI31,
    RefNocont,
    RefNoexn,
    RefNoextern,
    RefNofunc,
    RefNone,
    RefNullType,
    RefNullExactType,
    RefNullSharedAny,
    RefNullSharedArray,
    RefNullSharedCont,
    RefNullSharedEq,
    RefNullSharedExn,
    RefNullSharedExtern,
    RefNullSharedFunc,
    RefNullSharedI31,
    RefNullSharedNocont,
    RefNullSharedNoexn,
    RefNullSharedNoextern,
    RefNullSharedNofunc,
    RefNullSharedNone,
    RefNullSharedStruct,
    RefStruct,
    Anyref,
    Arrayref,
    Contref,
    Eqref,
    Exnref,
    Externref,
    F32,
    F64,
    Funcref,
    I31ref,
    I32,
    I64,
    Nullcontref,
    Nullexnref,
    Nullexternref,
    Nullfuncref,
    Nullref,
    Structref,
    V128,
}

impl TypeWords {
    /// The words themselves.
    pub const fn text(self) -> &'static str
        ensures { result.now ≡ type_text self }
    {
        match self {
            TypeWords::RefType => "(ref $type)",
            TypeWords::RefExactType => "(ref (exact $type))",
            TypeWords::RefSharedAny => "(ref (shared any))",
            TypeWords::RefSharedArray => "(ref (shared array))",
            TypeWords::RefSharedCont => "(ref (shared cont))",
            TypeWords::RefSharedEq => "(ref (shared eq))",
            TypeWords::RefSharedExn => "(ref (shared exn))",
            TypeWords::RefSharedExtern => "(ref (shared extern))",
            TypeWords::RefSharedFunc => "(ref (shared func))",
            TypeWords::RefSharedI31 => "(ref (shared i31))",
            TypeWords::RefSharedNocont => "(ref (shared nocont))",
            TypeWords::RefSharedNoexn => "(ref (shared noexn))",
            TypeWords::RefSharedNoextern => "(ref (shared noextern))",
            TypeWords::RefSharedNofunc => "(ref (shared nofunc))",
            TypeWords::RefSharedNone => "(ref (shared none))",
            TypeWords::RefSharedStruct => "(ref (shared struct))",
            TypeWords::RefAny => "(ref any)",
            TypeWords::RefArray => "(ref array)",
            TypeWords::RefCont => "(ref cont)",
            TypeWords::RefEq => "(ref eq)",
            TypeWords::RefExn => "(ref exn)",
            TypeWords::RefExtern => "(ref extern)",
            TypeWords::RefFunc => "(ref func)",
            TypeWords::RefI31 => "(ref i31)",
            TypeWords::RefNocont => "(ref nocont)",
            TypeWords::RefNoexn => "(ref noexn)",
            TypeWords::RefNoextern => "(ref noextern)",
            TypeWords::RefNofunc => "(ref nofunc)",
            TypeWords::RefNone => "(ref none)",
            TypeWords::RefNullType => "(ref null $type)",
            TypeWords::RefNullExactType => "(ref null (exact $type))",
            TypeWords::RefNullSharedAny => "(ref null (shared any))",
            TypeWords::RefNullSharedArray => "(ref null (shared array))",
            TypeWords::RefNullSharedCont => "(ref null (shared cont))",
            TypeWords::RefNullSharedEq => "(ref null (shared eq))",
            TypeWords::RefNullSharedExn => "(ref null (shared exn))",
            TypeWords::RefNullSharedExtern => "(ref null (shared extern))",
            TypeWords::RefNullSharedFunc => "(ref null (shared func))",
            TypeWords::RefNullSharedI31 => "(ref null (shared i31))",
            TypeWords::RefNullSharedNocont => "(ref null (shared nocont))",
            TypeWords::RefNullSharedNoexn => "(ref null (shared noexn))",
            TypeWords::RefNullSharedNoextern => "(ref null (shared noextern))",
            TypeWords::RefNullSharedNofunc => "(ref null (shared nofunc))",
            TypeWords::RefNullSharedNone => "(ref null (shared none))",
            TypeWords::RefNullSharedStruct => "(ref null (shared struct))",
            TypeWords::RefStruct => "(ref struct)",
            TypeWords::Anyref => "anyref",
            TypeWords::Arrayref => "arrayref",
            TypeWords::Contref => "contref",
            TypeWords::Eqref => "eqref",
            TypeWords::Exnref => "exnref",
            TypeWords::Externref => "externref",
            TypeWords::F32 => "f32",
            TypeWords::F64 => "f64",
            TypeWords::Funcref => "funcref",
            TypeWords::I31ref => "i31ref",
            TypeWords::I32 => "i32",
            TypeWords::I64 => "i64",
            TypeWords::Nullcontref => "nullcontref",
            TypeWords::Nullexnref => "nullexnref",
            TypeWords::Nullexternref => "nullexternref",
            TypeWords::Nullfuncref => "nullfuncref",
            TypeWords::Nullref => "nullref",
            TypeWords::Structref => "structref",
            TypeWords::V128 => "v128",
        }
    }
}
