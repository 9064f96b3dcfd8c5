//! Why a call was refused.

ghost use Rattle.wasm_types_decoding.specs.Words.{words_text};
ghost use Rattle.std.specs.Prelude.{◌≡◌, ◌≤◌, codes, length, Some, IfSome};
ghost use Rattle.wasm_types_decoding.specs.declared.error.ErrorKind.TheVariants as kinds;
ghost use Rattle.wasm_types_decoding.specs.ErrorText.{message_of, kind_number, hint_of, feature_of, shown};
ghost use Rattle.wasm_types_decoding.specs.Texts.{text_of};

use crate::message::Message;
use crate::text::Text;
use crate::words::Words;
use std::alloc::{AllocError, AllocFailed};
use std::fmt;
use std::fmt::Display;
use std::marker::Model;
use wasm_types_settings::WasmFeatures;

/// What kind of fault an error is.
#[derive(Clone, Copy, Debug, PartialEq, Eq)]
pub enum ErrorKind {
    /// The data end too early. With fewer than this many bytes more they still do, at the same offset; with as many they
    /// end there no longer.
    EndOfData { needed_hint: usize },
    /// These features would allow it.
    MissingFeature(WasmFeatures),
    /// A growth was refused.
    OutOfMemory,
    /// The call comes after a failure, or out of turn.
    Failed,
    /// Any other fault of content or of state.
    Other,
}

impl ErrorKind {
    /// The kind's number, from 1 to 5 in the order of the variants.
    pub fn number(&self) -> u8
        ensures { result ≡ kind_number self.now }
    {
        match self {
            ErrorKind::EndOfData { needed_hint: _ } => 1,
            ErrorKind::MissingFeature(_) => 2,
            ErrorKind::OutOfMemory => 3,
            ErrorKind::Failed => 4,
            ErrorKind::Other => 5,
        }
    }
}

/// Why a call was refused: a kind, an offset in the input, and a message for people.
#[derive(Debug, Drop)]
pub struct Error {
    kind: ErrorKind,
    offset: u64,
    text: Text,
}

/// The name of [`Error`] where readers are meant.
pub type BinaryReaderError = Error;

/// What a call gives, or why it was refused.
pub type Result<T, E = Error> = std::result::Result<T, E>;

impl Model for Error {
    ghost use Rattle.wasm_types_decoding.specs.ErrorValue.{ErrorValue};
    ghost use Rattle.wasm_types_decoding.specs.ErrorText.{message_of};
    ghost use Rattle.wasm_types_decoding.specs.Texts.{text_of};

    ghost Value = { ErrorValue };

    ghost view = { λ e. record { kind = e.kind; offset = e.offset; message = message_of (text_of e.text) } };
}

impl Error {
    /// A fault of content or state, kind 5.
    #[cold]
    pub fn new(message: Words, offset: u64) -> Error
        ensures { result ≡ record { kind = kinds.Other; offset = offset; message = message_of (words_text message) } }
    {
        Error::of_kind(ErrorKind::Other, message, offset)
    }

    /// A fault of content or state, kind 5, with this text.
    #[cold]
    pub fn with(text: Text, offset: u64) -> Error
        ensures { result ≡ record { kind = kinds.Other; offset = offset; message = message_of (text_of text) } }
    {
        Error {
            kind: ErrorKind::Other,
            offset,
            text,
        }
    }

    /// What only these features allow, kind 2, with this text.
    #[cold]
    pub fn missing_with(feature: WasmFeatures, text: Text, offset: u64) -> Error
        ensures { result ≡ record {
          kind = kinds.MissingFeature feature;
          offset = offset;
          message = message_of (text_of text);
        } }
    {
        Error {
            kind: ErrorKind::MissingFeature(feature),
            offset,
            text,
        }
    }

    /// An error of the same kind at the same offset. Its message is the same too, but leaves out the name of an export that
    /// comes twice if memory for that name is refused.
    pub fn again(&self) -> Error
        ensures kind { result.kind ≡ self.now.kind }
        ensures offset { result.offset ≡ self.now.offset }
    {
        Error {
            kind: self.kind,
            offset: self.offset,
            text: self.text.again(),
        }
    }

    /// The data end at `offset`, kind 1, and `needed_hint` bytes more would keep them from ending there.
    #[cold]
    pub fn eof(offset: u64, needed_hint: usize) -> Error
        ensures { result ≡ record {
          kind = kinds.EndOfData needed_hint;
          offset = offset;
          message = codes "unexpected end-of-file";
        } }
    {
        Error::of_kind(
            ErrorKind::EndOfData { needed_hint },
            Words::UnexpectedEndOfFile,
            offset,
        )
    }

    /// What only these features allow, kind 2.
    #[cold]
    pub fn missing_feature(feature: WasmFeatures, message: Words, offset: u64) -> Error
        ensures { result ≡ record {
          kind = kinds.MissingFeature feature;
          offset = offset;
          message = message_of (words_text message);
        } }
    {
        Error::of_kind(ErrorKind::MissingFeature(feature), message, offset)
    }

    /// A growth was refused, kind 3.
    #[cold]
    pub fn out_of_memory(offset: u64) -> Error
        ensures { result ≡ record { kind = kinds.OutOfMemory; offset = offset; message = codes "out of memory" } }
    {
        Error::of_kind(ErrorKind::OutOfMemory, Words::OutOfMemory, offset)
    }

    /// A call after a failure, or out of turn, kind 4.
    #[cold]
    pub fn failed(message: Words, offset: u64) -> Error
        ensures { result ≡ record { kind = kinds.Failed; offset = offset; message = message_of (words_text message) } }
    {
        Error::of_kind(ErrorKind::Failed, message, offset)
    }

    fn of_kind(kind: ErrorKind, message: Words, offset: u64) -> Error
        ensures { result ≡ record { kind = kind; offset = offset; message = message_of (words_text message) } }
    {
        Error {
            kind,
            offset,
            text: Text::Words(message),
        }
    }

    /// What is wrong, in at most 256 bytes of UTF-8.
    pub fn message(&self) -> Message
        ensures { result.kept.bytes ≡ self.now.message }
    {
        let mut message = Message::new();
        self.text.write_to(&mut message);
        message
    }

    /// The offset in the input, in bytes.
    pub fn offset(&self) -> u64
        ensures { result ≡ self.now.offset }
    {
        self.offset
    }

    /// Which of the five kinds it is of, with what that kind carries.
    pub fn kind(&self) -> ErrorKind
        ensures { result ≡ self.now.kind }
    {
        self.kind
    }

    /// At kind 1, how many bytes more keep the data from ending at this offset; fewer don't.
    pub fn needed_hint(&self) -> Option<usize>
        ensures { result ≡ hint_of self.now.kind }
    {
        match self.kind {
            ErrorKind::EndOfData { needed_hint } => Some(needed_hint),
            _ => None,
        }
    }

    /// At kind 2, the features that would allow it.
    pub fn missing_wasm_feature(&self) -> Option<WasmFeatures>
        ensures { result ≡ feature_of self.now.kind }
    {
        match self.kind {
            ErrorKind::MissingFeature(feature) => Some(feature),
            _ => None,
        }
    }
}

impl Display for Error {
    ghost output = { λ e. Some (shown e.message e.offset) };

    fn fmt<W: fmt::Write>(&self, f: &mut fmt::Formatter<W>) -> fmt::Result {
        let message = self.message();
        write!(f, "{} (at offset 0x{:x})", message.as_str(), self.offset)
    }
}

impl std::error::Error for Error {}

impl From<AllocError> for Error {
    ghost from_gives = { λ _ e. e ≡ record { kind = kinds.OutOfMemory; offset = 0; message = codes "out of memory" } };

    fn from(_error: AllocError) -> Error {
        Error::out_of_memory(0)
    }
}

impl<T: Drop> From<AllocFailed<T>> for Error {
    ghost from_gives = { λ _ e. e ≡ record { kind = kinds.OutOfMemory; offset = 0; message = codes "out of memory" } };

    fn from(_error: AllocFailed<T>) -> Error {
        Error::out_of_memory(0)
    }
}
