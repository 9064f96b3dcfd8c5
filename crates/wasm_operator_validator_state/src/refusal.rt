//! Why an operator is refused, in few bytes.

ghost use Rattle.std.specs.Prelude.{◌≡◌};
ghost use Rattle.wasm_types.specs.decoding.declared.error.ErrorKind.TheVariants.{Other};
ghost use Rattle.wasm_operator_validator_state.specs.Refusals.{kind_of, OfContent};

use crate::texts::{
    cast_past_label, empty_stack, expected_reference, feature_text, left_past_label, mismatch,
    not_below, not_of_kind, reason_text, type_feature_text, uninitialized_local, unknown,
    unknown_local,
};
use crate::{MaybeType, ty_to_str};
use wasm_types::{Error, HeapType, OperatorWords, UnpackedIndex, ValType, WasmFeatures, Words};

/// Why an operator is refused. It has no text and no offset, so that it is answered in few registers.
#[derive(Clone, Copy)]
pub enum Refusal {
    /// A growth was refused.
    OutOfMemory,
    /// The validator has refused an operator before.
    AfterRefusal,
    /// Every frame has ended.
    AfterEnd,
    /// The operator needs a feature.
    NotEnabled { feature: WasmFeatures },
    /// The same of `try`.
    TryNotEnabled { feature: WasmFeatures },
    /// A type that the operator names needs a feature.
    TypeNotEnabled { feature: WasmFeatures, ty: ValType },
    /// The operand on top does not fit the type.
    TypeMismatch { expected: ValType, found: MaybeType },
    /// The operand on top is no reference to what this type refers to, shared or not.
    NotOfKind { expected: ValType, found: MaybeType },
    /// There is no operand where one of this type is expected.
    EmptyStack { expected: ValType },
    /// There is no operand where one of any type is expected.
    EmptyStackOfAny,
    /// Operands are left over at the end of a frame.
    ValuesRemain,
    /// No frame is so far outwards.
    UnknownLabel,
    /// No local has this index.
    UnknownLocal { local_index: u32 },
    /// The local has no value yet.
    UninitializedLocal { local_index: u32 },
    /// The index names nothing of this kind.
    Unknown { space: Space, index: u32 },
    /// The operand on top is no reference.
    ExpectedReference { found: MaybeType },
    /// A cast or a test is to a type that is not below the first.
    NotBelow { expected: ValType, found: ValType },
    /// A branch on a cast goes to a label that takes another type on top.
    CastPastLabel { expected: ValType, found: ValType },
    /// The same of one that branches where the cast fails.
    LeftPastLabel { expected: ValType, found: ValType },
    /// For another reason.
    Because(Reason),
}

/// What an index names (WebAssembly 3.0, structure, indices).
#[derive(Clone, Copy)]
pub enum Space {
    /// A type.
    Type,
    /// A type that a value type names.
    NamedType,
    /// A type that is a function type.
    FunctionType,
    /// A type that is a struct type.
    StructType,
    /// A type that is an array type.
    ArrayType,
    /// A type that is a continuation type.
    ContinuationType,
    /// A field of a struct.
    Field,
    /// A function.
    Function,
    /// A table.
    Table,
    /// A memory.
    Memory,
    /// A global.
    Global,
    /// A global that a constant reads.
    ConstantGlobal,
    /// A tag.
    Tag,
    /// An element segment.
    Element,
    /// A data segment.
    Data,
}

/// Why an operator is refused, where neither a type nor an index is told.
#[derive(Clone, Copy)]
pub enum Reason {
    /// An `else` that does not end the first part of an `if`.
    ElseOutsideIf,
    /// An `if` that takes what it does not give has no `else`.
    NoElse,
    /// Labels of one branch take different numbers of operands.
    LabelsDiffer,
    /// A branch on a reference that is not null goes to a label that takes nothing.
    NoLabelTypes,
    /// The last operand that such a label takes is no reference.
    LabelWithoutReference,
    /// A call that takes the place of its caller gives other results.
    ResultsDiffer,
    /// A call goes through a table of something else than functions.
    NotFunctions,
    /// A shared function uses what is not shared.
    NotShared,
    /// A value type names a type that the module does not have.
    UnknownType,
    /// The alignment is larger than the natural one.
    Alignment,
    /// The alignment of an atomic access is not the natural one.
    AtomicAlignment,
    /// The offset is no address of the memory.
    OffsetOutOfRange,
    /// The argument reaches into an array.
    ArrayTarget,
    /// The global is constant.
    ImmutableGlobal,
    /// The data count section is missing.
    NoDataCount,
    /// No element segment, export or initial value names the function.
    UndeclaredFunction,
    /// The elements don't fit the table.
    ElementTypes,
    /// The field is constant.
    ImmutableField,
    /// The array's elements are constant.
    ImmutableArray,
    /// A packed field is read as if it were not.
    PackedStorage,
    /// The same of an element.
    PackedElement,
    /// A field or element is read as if it were packed.
    UnpackedStorage,
    /// A field is read as if it were packed, with its sign.
    UnpackedFieldSigned,
    /// The same without.
    UnpackedFieldUnsigned,
    /// An element is read as if it were packed, with its sign.
    UnpackedElementSigned,
    /// The same without.
    UnpackedElementUnsigned,
    /// A field or element has no default value.
    NotDefaultable,
    /// The array's elements are references, which bytes do not hold.
    ElementsOfReferences,
    /// The same where the array is filled.
    ElementsOfReferencesFilled,
    /// The struct has a descriptor, and is made with it alone.
    NeedsDescriptor,
    /// A cast or a test is of continuations.
    NotCastable,
    /// A branch on a cast casts to a type that is not below the first.
    CastTypes,
    /// A branch on a cast goes to a label that takes nothing.
    NoCastLabel,
    /// The same of one that branches where the cast fails.
    NoLeftLabel,
    /// The label of a branch on a cast takes another type on top.
    CastLabel,
    /// A choice without a type is between references.
    SelectOfReferences,
    /// A choice is between operands of two types.
    SelectOfTypes,
    /// A choice is of no type or of several.
    SelectArity,
    /// The tag of an exception gives something back.
    TagResults,
    /// What a clause of `try_table` catches does not fit its label.
    CatchTypes,
    /// A clause for a tag goes to a label that takes another number of operands.
    CatchCount,
    /// The same of one with the exception behind them.
    CatchRefCount,
    /// A clause for whatever is thrown goes to a label that takes something.
    CatchAllCount,
    /// The same of one with the exception, whose label takes nothing, or several.
    CatchAllRefCount,
    /// A label takes no reference to an exception, where a clause gives one.
    CatchAllRefType,
    /// A `catch` that ends neither the body of a `try` nor the clause of a tag.
    CatchOutsideTry,
    /// A `catch_all` there.
    CatchAllOutsideTry,
    /// A `delegate` that does not end the body of a `try`.
    DelegateOutsideTry,
    /// A `rethrow` of what no clause has caught.
    RethrowOutsideCatch,
    /// The operator is one on vectors, and the features do not ask that those be judged.
    Vectors,
    /// No other type describes the type.
    NoDescriptor,
    /// An atomic access to what is neither an integer nor a reference below `any`.
    AtomicType,
    /// Arithmetic in an atomic access to what is no integer.
    AtomicInteger,
    /// An atomic comparison with what is neither an integer nor a reference below `eq`.
    AtomicComparable,
    /// The label of a handler does not end with a reference to a continuation type.
    HandlerLabel,
    /// What a suspension carries does not fit the label of its handler.
    HandlerCarries,
    /// The continuation type that the label of a handler names is not that of what is left.
    HandlerContinues,
    /// The tag of a switch carries something.
    SwitchCarries,
    /// What continuations and the tag give in a switch does not fit.
    SwitchResults,
    /// A switch goes to a continuation whose last parameter is no reference to a continuation type.
    SwitchParameter,
    /// The last parameters of a continuation are not those of the type to which it is bound.
    BindParameters,
    /// What a continuation gives is not what the type gives to which it is bound.
    BindResults,
}

impl Refusal {
    /// That a heap type names a type that the module does not have.
    #[cold]
    pub fn unknown_heap(ty: HeapType) -> Refusal
        ensures { kind_of result ≡ Other }
    {
        match ty {
            HeapType::Concrete(index) => Refusal::unknown_index(index),
            HeapType::Exact(index) => Refusal::unknown_index(index),
            HeapType::Abstract { shared: _, ty: _ } => Refusal::Because(Reason::UnknownType),
        }
    }

    // The same of an index.
    fn unknown_index(index: UnpackedIndex) -> Refusal
        ensures { kind_of result ≡ Other }
    {
        match index {
            UnpackedIndex::Module(index) => Refusal::Unknown {
                space: Space::NamedType,
                index,
            },
            _ => Refusal::Because(Reason::UnknownType),
        }
    }

    /// The error of a refusal of the operator at this offset. Out of memory has no offset.
    #[cold]
    #[inline(never)]
    pub fn error(self, offset: u64) -> Error
        ensures kind { result.kind ≡ kind_of self }
        ensures at { OfContent result.kind (result.offset ≡ offset) }
    {
        match self {
            Refusal::OutOfMemory => Error::out_of_memory(0),
            Refusal::AfterRefusal => Error::failed(Words::AnOperatorWasRefusedBefore, offset),
            Refusal::AfterEnd => Error::new(
                Words::Operator(OperatorWords::OperatorsRemainingAfterEndOfFunction),
                offset,
            ),
            Refusal::NotEnabled { feature } => {
                Error::missing_feature(feature, feature_text(feature), offset)
            }
            Refusal::TryNotEnabled { feature } => Error::missing_feature(
                feature,
                Words::LegacyExceptionsFeatureRequiredForTryInstruction,
                offset,
            ),
            Refusal::TypeNotEnabled { feature, ty } => {
                Error::missing_feature(feature, type_feature_text(feature, ty), offset)
            }
            Refusal::TypeMismatch { expected, found } => mismatch(offset, expected, found),
            Refusal::NotOfKind { expected, found } => not_of_kind(offset, expected, found),
            Refusal::EmptyStack { expected } => empty_stack(offset, ty_to_str(expected)),
            Refusal::EmptyStackOfAny => empty_stack(offset, Words::Operator(OperatorWords::AType)),
            Refusal::ValuesRemain => Error::new(
                Words::Operator(OperatorWords::TypeMismatchValuesRemainingOnStackAtEndOfBlock),
                offset,
            ),
            Refusal::UnknownLabel => {
                Error::new(
                    Words::Operator(OperatorWords::UnknownLabelBranchDepthTooLarge),
                    offset,
                )
            }
            Refusal::UnknownLocal { local_index } => unknown_local(offset, local_index),
            Refusal::UninitializedLocal { local_index } => uninitialized_local(offset, local_index),
            Refusal::Unknown { space, index } => unknown(offset, space, index),
            Refusal::ExpectedReference { found } => expected_reference(offset, found),
            Refusal::NotBelow { expected, found } => not_below(offset, expected, found),
            Refusal::CastPastLabel { expected, found } => cast_past_label(offset, expected, found),
            Refusal::LeftPastLabel { expected, found } => left_past_label(offset, expected, found),
            Refusal::Because(reason) => Error::new(reason_text(reason), offset),
        }
    }
}
