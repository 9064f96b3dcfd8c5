//! The value types of WebAssembly's core: numbers, vectors and references, and what fields store.
//!
//! A contract sees a [`RefType`] as what it means (`specs/Reference.antt`): whether it may be null, and what it refers
//! to, whatever its bits are. It sees the other types as their variants. `specs/Trees.antt` and `specs/Values.antt`
//! give each the plain tree that the rules of types speak of, and `specs/Spells.antt` the bytes that spell it.
#![tactic(auto)]

mod heap;
pub mod laws;
mod read_heap;
mod read_value;
mod reference;
mod remap;
mod value;

pub use heap::{AbstractHeapType, HeapType};
pub use read_heap::index_error;
pub use reference::RefType;
pub use value::{StorageType, ValType};
pub use wasm_types_reader::{
    BinaryReader, BinaryReaderError, BinaryReaderIter, Error, ErrorKind, FromReader, Ieee32,
    Ieee64, Limits, Message, ModuleWords, Named, OperatorWords, Result, Text, TypeWords,
    WasmFeatures, WasmFeaturesInflated, Words, limits, read_list, read_many,
};
pub use wasm_types_trees::{CoreTypeId, PackedIndex, UnpackedIndex};
