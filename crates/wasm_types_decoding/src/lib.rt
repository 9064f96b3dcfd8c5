//! How bytes are read: decoders and grammars as definitions, numbers in LEB128 over a slice, and the error of every layer.
//!
//! A decoder is a function from the place of a reader to its answer. Three laws hold of each: a value and a fault stay
//! whatever bytes follow, the hint at an end of data is exact, and a value is read exactly if a grammar spells it. Readers
//! of the crates above state their contracts by these definitions; `docs/OPERATORS.md` explains them in plain words.
//!
//! Numbers (WebAssembly 3.0, binary format, values, integers) are groups of seven bits, the lowest first, in a byte each,
//! whose highest bit says that more follow: 300 is `ac 02`. No reader moves here: each function takes the bytes and an
//! offset, and gives the value with the offset after it. So hot code keeps its position in a register, and a refusal
//! leaves nothing to put back. Numbers of one and two bytes are taken at once (`short_..`), the longer ones by two loops,
//! one for unsigned numbers of any width and one for signed ones (`long_..`).
//!
//! An [`Error`] has a kind (one of five, [`ErrorKind`]), the offset in the input at which something is wrong, and a
//! message for people. It keeps what the message is made of, and the message is written out only if it is asked for, into
//! a fixed room; a longer text is cut. One such part takes memory: the name of an export that comes twice.
//! `specs/ErrorText.antt` defines what an error tells, and `specs/Denials.antt` what a refusal denies: nothing if memory
//! ran out, and otherwise the fact that was asked for.
#![tactic(auto)]

ghost use Rattle.wasm_types_decoding.specs.Rows.{UnsignedRows, SignedRows, ByteRows, WordRows, ListRows, NameRows, PartRows};
ghost use Rattle.wasm_types_decoding.specs.ErrorRows.{KindRows, TextRows};

mod error;
mod groups;
mod long;
mod message;
mod refusals;
mod short;
mod text;
mod words;

pub use error::{BinaryReaderError, Error, ErrorKind, Result};
pub use long::{Flaw, long_i32_at, long_i64_at, long_s33_at, long_u32_at, long_u64_at};
pub use message::Message;
pub use refusals::{ModuleWords, OperatorWords};
pub use short::{
    short_i32_at, short_i64_at, short_s33_at, short_u8_at, short_u32_at, short_u64_at,
};
pub use text::{Named, Text};
pub use wasm_types_settings::{Limits, WasmFeatures, WasmFeaturesInflated};
pub use words::{TypeWords, Words};

/// What is wrong with bytes, where no further byte mends it.
#[derive(Clone, Copy, Debug, PartialEq, Eq)]
pub enum Refusal {
    /// The bytes ask for what these features, by their bits, would allow.
    MissingFeature(u32),
    /// The bytes spell nothing.
    Other,
}

/// What the decoders answer for bytes that were worked by hand: values, refusals, and bytes that end too early.
#[tactic(auto, using(crate::specs::RowLaws::unsigned_rows, crate::specs::RowLaws::signed_rows, crate::specs::RowLaws::byte_rows, crate::specs::RowLaws::word_rows, crate::specs::RowLaws::list_rows, crate::specs::RowLaws::name_rows, crate::specs::RowLaws::part_rows))]
pub fn worked_bytes()
    ensures unsigned { UnsignedRows }
    ensures signed { SignedRows }
    ensures bytes { ByteRows }
    ensures words { WordRows }
    ensures lists { ListRows }
    ensures names { NameRows }
    ensures parts { PartRows }
{}

/// Errors that were worked by hand: kinds by their numbers, messages cut to their room, and texts.
#[tactic(auto, using(crate::specs::ErrorRowLaws::kind_rows, crate::specs::ErrorRowLaws::text_rows))]
pub fn worked_errors()
    ensures kinds { KindRows }
    ensures texts { TextRows }
{}
