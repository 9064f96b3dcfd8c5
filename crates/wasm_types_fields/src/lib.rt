//! Fields, and the types that are made of them: arrays, structs, functions and continuations.
//!
//! `specs/Fields.antt` gives each the plain tree that the rules of types speak of. `specs/Spells.antt` defines which
//! bytes spell each, `specs/Text.antt` how each is written, and `specs/Remap.antt` what it means to replace its
//! indices. A type is read exactly where the bytes spell it, within the limits of this implementation.
#![tactic(auto)]

mod cont;
mod field;
mod func;
pub mod laws;
mod read;
mod remap;

pub use cont::ContType;
pub use field::{ArrayType, FieldType, StructType};
pub use func::FuncType;
pub use read::read_index;
pub use wasm_types_values::laws::equality_is_identity;
pub use wasm_types_values::{
    AbstractHeapType, BinaryReader, BinaryReaderError, BinaryReaderIter, CoreTypeId, Error,
    ErrorKind, FromReader, HeapType, Ieee32, Ieee64, Limits, Message, ModuleWords, Named,
    OperatorWords, PackedIndex, RefType, Result, StorageType, Text, TypeWords, UnpackedIndex,
    ValType, WasmFeatures, WasmFeaturesInflated, Words, index_error, limits, read_list, read_many,
};
