//! The lowest layer of the validator: bytes, numbers and faults, the features of WebAssembly, and core types.
//!
//! Its parts are passed on here under one name, and so are their rules (`specs/Lib.antt`):
//!
//! - `wasm_types_settings`: features and limits, and both as the settings by which all is judged;
//! - `wasm_types_decoding`, `wasm_types_reader`: decoders and grammars, errors; the reader of bytes, and the trait of all
//!   that is read;
//! - `wasm_types_trees`: types as plain trees with their rules, and packed indices of types;
//! - `wasm_types_values`, `wasm_types_fields`, `wasm_types_externs`: heap types, references and values; fields, functions,
//!   arrays, structs and continuations; the types of tables, memories, globals and tags.
//!
//! This crate itself has what a module's type section is made of: composite types, subtypes and recursion groups.
//! `specs/Entries.antt` gives each the plain tree of which the rules of types speak, and `specs/Spells.antt` says which
//! bytes spell a tree: a type is read exactly from those. A [`RecGroup`] also keeps the offset of each of its types
//! (`specs/Places.antt`); equality, order and hash leave the offsets out.
#![tactic(auto)]

mod composite;
pub mod laws;
mod read_group;
mod read_types;
mod rec_group;
mod remap;
mod sub_type;

pub use composite::{CompositeInnerType, CompositeType};
pub use rec_group::{RecGroup, TypesAndOffsets};
pub use sub_type::SubType;
pub use wasm_types_externs::{GlobalType, MemoryType, TableType, TagKind, TagType};
pub use wasm_types_fields::{
    AbstractHeapType, ArrayType, BinaryReader, BinaryReaderError, BinaryReaderIter, ContType,
    CoreTypeId, Error, ErrorKind, FieldType, FromReader, FuncType, HeapType, Ieee32, Ieee64,
    Limits, Message, ModuleWords, Named, OperatorWords, PackedIndex, RefType, Result, StorageType,
    StructType, Text, TypeWords, UnpackedIndex, ValType, WasmFeatures, WasmFeaturesInflated, Words,
    equality_is_identity, index_error, limits, read_list, read_many,
};
