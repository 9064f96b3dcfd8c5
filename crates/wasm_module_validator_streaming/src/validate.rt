//! The validation of a module whose bytes come from a reader.

ghost use Rattle.std.specs.Prelude.{◌≡◌, ◌≤◌, ◌<◌, ◌+◌, ◌-◌, ◌^◌, false};
ghost use Rattle.wasm_types.specs.settings.Limits.{default_limits, IsWithinCeilings};
ghost use Rattle.wasm_module_validator_streaming.specs.Pieces.{fails};
ghost use Rattle.wasm_module_validator_streaming.specs.Verdicts.{AnswersReader, StopsReader};

use crate::judging::Judging;
use crate::reading::{ReadError, take_reader};
use crate::watched::WatchedReader;
use std::alloc::Global;
use std::io::Read;
use wasm_module_validator::Types;
use wasm_module_validator_index_spaces::view::ValidatorId;
use wasm_types::{Limits, WasmFeatures};

/// Validates a module as its bytes come from a reader, by these features and the default limits.
///
/// As `validate_reader_limited`.
///
/// # Errors
///
/// As `validate_reader_limited`.
pub fn validate_reader<R: Read>(
    alloc: Global,
    id: ValidatorId,
    features: WasmFeatures,
    reader: &mut WatchedReader<R>,
    piece: usize,
    max_bytes: u64,
) -> Result<Types, ReadError>
    requires reads { reader.old.has_failed ≡ false }
    requires piece { 1 ≤ piece }
    requires most { max_bytes < 2 ^ 64 - 1 }
    ensures answer { AnswersReader (record { features = features.0; limits = default_limits }) id max_bytes
        (R.remaining reader.old.reader)
        (R.remaining reader.new.reader) result }
    ensures stops { StopsReader (record { features = features.0; limits = default_limits }) max_bytes piece
        (R.remaining reader.old.reader) (R.remaining reader.new.reader) result }
    ensures failed { reader.new.has_failed ≡ fails result }
    ensures count { reader.new.reads ≤ reader.old.reads + (max_bytes + 1) }
    ensures counted { reader.old.reads ≤ reader.new.reads }
{
    validate_reader_limited(
        alloc,
        id,
        features,
        Limits::default(),
        reader,
        piece,
        max_bytes,
    )
}

/// Validates a module as its bytes come from a reader, by these features and limits (WebAssembly 3.0, validation, modules).
///
/// Each read asks for at most `piece` bytes, 1 at least, and a read of none is the end. No read is repeated: there are at most
/// `max_bytes` + 1. Each section, and each body, is judged as soon as it is whole, and is not kept. So what is held of the bytes is the item
/// that they stand in, without the contents of a custom section, and no more than a piece behind it: whatever the answer, what was read is
/// bytes that were judged as far as they hold whole items, none of them refused, and at most `piece` bytes behind these (`StopsReader`).
///
/// An accepted module is that of all bytes that the reader had; it runs soundly, and what was learned of it is shown.
///
/// # Errors
///
/// `Refused`: what was read refuses each module that begins with it, or there is no memory (kind 3). `Read`: a read failed, as `has_failed`
/// then says of the reader, and else never. `TooLong`: more than `max_bytes` bytes came, and of the first `max_bytes` each whole item was
/// judged and none refused.
pub fn validate_reader_limited<R: Read>(
    alloc: Global,
    id: ValidatorId,
    features: WasmFeatures,
    limits: Limits,
    reader: &mut WatchedReader<R>,
    piece: usize,
    max_bytes: u64,
) -> Result<Types, ReadError>
    requires within { IsWithinCeilings limits }
    requires reads { reader.old.has_failed ≡ false }
    requires piece { 1 ≤ piece }
    requires most { max_bytes < 2 ^ 64 - 1 }
    ensures answer { AnswersReader (record { features = features.0; limits = limits }) id max_bytes
        (R.remaining reader.old.reader)
        (R.remaining reader.new.reader) result }
    ensures stops { StopsReader (record { features = features.0; limits = limits }) max_bytes piece
        (R.remaining reader.old.reader) (R.remaining reader.new.reader) result }
    ensures failed { reader.new.has_failed ≡ fails result }
    ensures count { reader.new.reads ≤ reader.old.reads + (max_bytes + 1) }
    ensures counted { reader.old.reads ≤ reader.new.reads }
{
    let mut judging = Judging::new(alloc, id, features, limits);
    take_reader(alloc, &mut judging, reader, piece, max_bytes)
}
