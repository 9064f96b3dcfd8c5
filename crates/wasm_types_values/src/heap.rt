//! Heap types: what a reference may refer to.
ghost use Rattle.wasm_types_decoding.specs.Words.{words_text};

use wasm_types_reader::{TypeWords, Words};
use wasm_types_trees::UnpackedIndex;

/// An abstract heap type (WebAssembly 3.0, structure, heap types; `Cont` and `NoCont` by the proposal for stack
/// switching), ordered as they stand here.
#[derive(Clone, Copy, Debug, PartialEq, Eq, PartialOrd, Ord, Hash)]
pub enum AbstractHeapType {
    /// Any function.
    Func,
    /// Any value that the host owns.
    Extern,
    /// Any value of the module's own: structs, arrays, `i31`.
    Any,
    /// No value, below `any`.
    None,
    /// No value, below `extern`.
    NoExtern,
    /// No value, below `func`.
    NoFunc,
    /// Any value that `ref.eq` compares.
    Eq,
    /// Any struct.
    Struct,
    /// Any array.
    Array,
    /// A number of 31 bits in place of a pointer.
    I31,
    /// Any exception.
    Exn,
    /// No value, below `exn`.
    NoExn,
    /// Any continuation.
    Cont,
    /// No value, below `cont`.
    NoCont,
}

// The number by which a reference keeps each abstract type.
#[derive(Clone, Copy)]
pub(crate) enum AbstractCode {
    Func = 5,
    Extern = 3,
    Any = 15,
    None = 0,
    NoExtern = 2,
    NoFunc = 4,
    Eq = 13,
    Struct = 9,
    Array = 12,
    I31 = 8,
    Exn = 1,
    NoExn = 14,
    Cont = 11,
    NoCont = 10,
}

impl AbstractHeapType {
    ghost use Rattle.std.specs.Prelude.{◌≡◌, ◌↔◌, IsTrue};
    ghost use Rattle.wasm_types_values.specs.Trees.{abstract_of};
    ghost use Rattle.wasm_types_trees.specs.AbstractOrder.{AbstractBelow};
    ghost use Rattle.wasm_types_values.specs.Order.{is_below};
    ghost use Rattle.wasm_types_values.specs.Bits.{code_of, type_of_code};
    ghost use Rattle.wasm_types_values.specs.Text.{short_text, non_null_text, shared_null_text, shared_text};

    /// Whether this type matches the other (WebAssembly 3.0, validation, matching of heap types).
    pub const fn is_subtype_of(&self, other: AbstractHeapType) -> bool
        ensures { IsTrue result ↔ AbstractBelow (abstract_of self.now) (abstract_of other) }
    {
        self.is_in_table(other)
    }

    // The same, by the types that are below each.
    const fn is_in_table(&self, other: AbstractHeapType) -> bool
        ensures { result ≡ is_below (abstract_of self.now) (abstract_of other) }
    {
        match other {
            AbstractHeapType::Func => matches!(
                self,
                AbstractHeapType::Func | AbstractHeapType::NoFunc
            ),
            AbstractHeapType::Extern => matches!(
                self,
                AbstractHeapType::Extern | AbstractHeapType::NoExtern
            ),
            AbstractHeapType::Any => matches!(
                self,
                AbstractHeapType::Any
                    | AbstractHeapType::Eq
                    | AbstractHeapType::I31
                    | AbstractHeapType::Struct
                    | AbstractHeapType::Array
                    | AbstractHeapType::None
            ),
            AbstractHeapType::Eq => matches!(
                self,
                AbstractHeapType::Eq
                    | AbstractHeapType::I31
                    | AbstractHeapType::Struct
                    | AbstractHeapType::Array
                    | AbstractHeapType::None
            ),
            AbstractHeapType::I31 => matches!(self, AbstractHeapType::I31 | AbstractHeapType::None),
            AbstractHeapType::Struct => matches!(
                self,
                AbstractHeapType::Struct | AbstractHeapType::None
            ),
            AbstractHeapType::Array => matches!(
                self,
                AbstractHeapType::Array | AbstractHeapType::None
            ),
            AbstractHeapType::Exn => matches!(
                self,
                AbstractHeapType::Exn | AbstractHeapType::NoExn
            ),
            AbstractHeapType::Cont => matches!(
                self,
                AbstractHeapType::Cont | AbstractHeapType::NoCont
            ),
            AbstractHeapType::None => matches!(self, AbstractHeapType::None),
            AbstractHeapType::NoFunc => matches!(self, AbstractHeapType::NoFunc),
            AbstractHeapType::NoExtern => matches!(self, AbstractHeapType::NoExtern),
            AbstractHeapType::NoExn => matches!(self, AbstractHeapType::NoExn),
            AbstractHeapType::NoCont => matches!(self, AbstractHeapType::NoCont),
        }
    }

    // Its number in the bits of a reference.
    pub(crate) const fn code(self) -> u32
        ensures { result ≡ code_of self }
    {
        match self {
            AbstractHeapType::Func => AbstractCode::Func as u32,
            AbstractHeapType::Extern => AbstractCode::Extern as u32,
            AbstractHeapType::Any => AbstractCode::Any as u32,
            AbstractHeapType::None => AbstractCode::None as u32,
            AbstractHeapType::NoExtern => AbstractCode::NoExtern as u32,
            AbstractHeapType::NoFunc => AbstractCode::NoFunc as u32,
            AbstractHeapType::Eq => AbstractCode::Eq as u32,
            AbstractHeapType::Struct => AbstractCode::Struct as u32,
            AbstractHeapType::Array => AbstractCode::Array as u32,
            AbstractHeapType::I31 => AbstractCode::I31 as u32,
            AbstractHeapType::Exn => AbstractCode::Exn as u32,
            AbstractHeapType::NoExn => AbstractCode::NoExn as u32,
            AbstractHeapType::Cont => AbstractCode::Cont as u32,
            AbstractHeapType::NoCont => AbstractCode::NoCont as u32,
        }
    }

    // The type of a number that a type has.
    pub(crate) const fn of_code(code: u32) -> AbstractHeapType
        ensures { result ≡ type_of_code code }
    {
        match code {
            5 => AbstractHeapType::Func,
            3 => AbstractHeapType::Extern,
            15 => AbstractHeapType::Any,
            2 => AbstractHeapType::NoExtern,
            4 => AbstractHeapType::NoFunc,
            13 => AbstractHeapType::Eq,
            9 => AbstractHeapType::Struct,
            12 => AbstractHeapType::Array,
            8 => AbstractHeapType::I31,
            1 => AbstractHeapType::Exn,
            14 => AbstractHeapType::NoExn,
            11 => AbstractHeapType::Cont,
            10 => AbstractHeapType::NoCont,
            _ => AbstractHeapType::None,
        }
    }

    // The short word of a nullable reference to it.
    pub(crate) const fn short_word(self) -> Words
        ensures { words_text result ≡ short_text self }
    {
        match self {
            AbstractHeapType::Func => Words::Type(TypeWords::Funcref),
            AbstractHeapType::Extern => Words::Type(TypeWords::Externref),
            AbstractHeapType::Any => Words::Type(TypeWords::Anyref),
            AbstractHeapType::None => Words::Type(TypeWords::Nullref),
            AbstractHeapType::NoExtern => Words::Type(TypeWords::Nullexternref),
            AbstractHeapType::NoFunc => Words::Type(TypeWords::Nullfuncref),
            AbstractHeapType::Eq => Words::Type(TypeWords::Eqref),
            AbstractHeapType::Struct => Words::Type(TypeWords::Structref),
            AbstractHeapType::Array => Words::Type(TypeWords::Arrayref),
            AbstractHeapType::I31 => Words::Type(TypeWords::I31ref),
            AbstractHeapType::Exn => Words::Type(TypeWords::Exnref),
            AbstractHeapType::NoExn => Words::Type(TypeWords::Nullexnref),
            AbstractHeapType::Cont => Words::Type(TypeWords::Contref),
            AbstractHeapType::NoCont => Words::Type(TypeWords::Nullcontref),
        }
    }

    // How a reference to it is written that is not null.
    pub(crate) const fn non_null_word(self) -> Words
        ensures { words_text result ≡ non_null_text self }
    {
        match self {
            AbstractHeapType::Func => Words::Type(TypeWords::RefFunc),
            AbstractHeapType::Extern => Words::Type(TypeWords::RefExtern),
            AbstractHeapType::Any => Words::Type(TypeWords::RefAny),
            AbstractHeapType::None => Words::Type(TypeWords::RefNone),
            AbstractHeapType::NoExtern => Words::Type(TypeWords::RefNoextern),
            AbstractHeapType::NoFunc => Words::Type(TypeWords::RefNofunc),
            AbstractHeapType::Eq => Words::Type(TypeWords::RefEq),
            AbstractHeapType::Struct => Words::Type(TypeWords::RefStruct),
            AbstractHeapType::Array => Words::Type(TypeWords::RefArray),
            AbstractHeapType::I31 => Words::Type(TypeWords::RefI31),
            AbstractHeapType::Exn => Words::Type(TypeWords::RefExn),
            AbstractHeapType::NoExn => Words::Type(TypeWords::RefNoexn),
            AbstractHeapType::Cont => Words::Type(TypeWords::RefCont),
            AbstractHeapType::NoCont => Words::Type(TypeWords::RefNocont),
        }
    }

    // How a nullable reference to its shared form is written.
    pub(crate) const fn shared_null_word(self) -> Words
        ensures { words_text result ≡ shared_null_text self }
    {
        match self {
            AbstractHeapType::Func => Words::Type(TypeWords::RefNullSharedFunc),
            AbstractHeapType::Extern => Words::Type(TypeWords::RefNullSharedExtern),
            AbstractHeapType::Any => Words::Type(TypeWords::RefNullSharedAny),
            AbstractHeapType::None => Words::Type(TypeWords::RefNullSharedNone),
            AbstractHeapType::NoExtern => Words::Type(TypeWords::RefNullSharedNoextern),
            AbstractHeapType::NoFunc => Words::Type(TypeWords::RefNullSharedNofunc),
            AbstractHeapType::Eq => Words::Type(TypeWords::RefNullSharedEq),
            AbstractHeapType::Struct => Words::Type(TypeWords::RefNullSharedStruct),
            AbstractHeapType::Array => Words::Type(TypeWords::RefNullSharedArray),
            AbstractHeapType::I31 => Words::Type(TypeWords::RefNullSharedI31),
            AbstractHeapType::Exn => Words::Type(TypeWords::RefNullSharedExn),
            AbstractHeapType::NoExn => Words::Type(TypeWords::RefNullSharedNoexn),
            AbstractHeapType::Cont => Words::Type(TypeWords::RefNullSharedCont),
            AbstractHeapType::NoCont => Words::Type(TypeWords::RefNullSharedNocont),
        }
    }

    // How a reference to its shared form is written that is not null.
    pub(crate) const fn shared_word(self) -> Words
        ensures { words_text result ≡ shared_text self }
    {
        match self {
            AbstractHeapType::Func => Words::Type(TypeWords::RefSharedFunc),
            AbstractHeapType::Extern => Words::Type(TypeWords::RefSharedExtern),
            AbstractHeapType::Any => Words::Type(TypeWords::RefSharedAny),
            AbstractHeapType::None => Words::Type(TypeWords::RefSharedNone),
            AbstractHeapType::NoExtern => Words::Type(TypeWords::RefSharedNoextern),
            AbstractHeapType::NoFunc => Words::Type(TypeWords::RefSharedNofunc),
            AbstractHeapType::Eq => Words::Type(TypeWords::RefSharedEq),
            AbstractHeapType::Struct => Words::Type(TypeWords::RefSharedStruct),
            AbstractHeapType::Array => Words::Type(TypeWords::RefSharedArray),
            AbstractHeapType::I31 => Words::Type(TypeWords::RefSharedI31),
            AbstractHeapType::Exn => Words::Type(TypeWords::RefSharedExn),
            AbstractHeapType::NoExn => Words::Type(TypeWords::RefSharedNoexn),
            AbstractHeapType::Cont => Words::Type(TypeWords::RefSharedCont),
            AbstractHeapType::NoCont => Words::Type(TypeWords::RefSharedNocont),
        }
    }
}

/// What a reference may refer to (WebAssembly 3.0, structure, heap types; `Exact` by the proposal for custom
/// descriptors, `shared` by that for shared everything threads).
#[derive(Clone, Copy, Debug, PartialEq, Eq, PartialOrd, Ord, Hash)]
pub enum HeapType {
    /// An abstract type.
    Abstract {
        /// Whether its values are shared between threads.
        shared: bool,
        /// The type.
        ty: AbstractHeapType,
    },
    /// A defined type, or one below it.
    Concrete(UnpackedIndex),
    /// A defined type, and no other.
    Exact(UnpackedIndex),
}

impl HeapType {
    /// Any function.
    pub const FUNC: Self = HeapType::Abstract {
        shared: false,
        ty: AbstractHeapType::Func,
    };
    /// Any value that the host owns.
    pub const EXTERN: Self = HeapType::Abstract {
        shared: false,
        ty: AbstractHeapType::Extern,
    };
}
