//! Bytes, numbers and texts of a WebAssembly binary, the faults that they may have, and the trait of all that is read.
//!
//! Contracts see a [`BinaryReader`] as the state of a decoder: the bytes that are left, the offset of the first of
//! them, the allowed features, and the offset where its bytes begin. Each `read` promises the outcome that a decoder of
//! `wasm_types_decoding` has for the state before the call. A refused `read` leaves its reader where it was.
#![tactic(auto)]

mod binary_reader;
mod from_reader;
mod iter;
mod laws;
mod leb;
pub mod limits;
mod lists;
mod short;
mod texts;
mod words;

pub use binary_reader::BinaryReader;
pub use from_reader::FromReader;
pub use iter::BinaryReaderIter;
pub use laws::{lists_are_lawful, reading_is_lawful, texts_and_words_are_lawful, worked_readings};
pub use leb::numbers_are_lawful;
pub use lists::{read_list, read_many};
pub use wasm_types_decoding::{
    BinaryReaderError, Error, ErrorKind, Limits, Message, ModuleWords, Named, OperatorWords,
    Result, Text, TypeWords, WasmFeatures, WasmFeaturesInflated, Words,
};
pub use words::{Ieee32, Ieee64};
