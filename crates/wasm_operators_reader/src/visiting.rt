//! Operators that are read and told.

ghost use Rattle.std.specs.Prelude.{◌≡◌, false, ℕ, Option, Some, None, IfOk, IfErr, IfSome, MatchOption};
ghost use Rattle.wasm_types.specs.decoding.declared.error.ErrorKind.{ErrorKind as TheKind};
ghost use Rattle.wasm_types.specs.decoding.declared.error.ErrorKind.TheVariants.{Other};
ghost use Rattle.wasm_types.specs.reader.Reading.{IsNotMemory, NeedsNoMemory};
ghost use Rattle.wasm_operators_encoding.specs.expressions.Stack.{innermost};
ghost use Rattle.wasm_operators_reader.specs.FirstByte.{ToldFirst, refused_in, refused_by_byte, refused_by_first, legacy_refused, vector_refused, vector_in, vector_by_byte, vector_by_first};
ghost use Rattle.wasm_operators_enums.specs.Op.{op_of};
ghost use Rattle.wasm_operators_enums.specs.Vectors.{is_simd};
ghost use Rattle.wasm_operators_reader.specs.Standing.{Reads, Refuses, WantsMemory};
ghost use Rattle.wasm_operators_reader.specs.Visiting.{Visits, VisitsPlain, RefusesPlain};

use crate::{FrameKind, FrameStack, OperatorsReader};
use wasm_operators_encoding::expressions::Operator;
use wasm_operators_enums::is_simd;
use wasm_operators_frequent::reading::TellOperator;
use wasm_types::{BinaryReader, Error, ErrorKind, Result, WasmFeatures, Words};

impl<'a> OperatorsReader<'a> {
    /// Reads the next operator, as `read` does, and tells the visitor of it.
    ///
    /// # Errors
    ///
    /// As `read`; and where the operator is one on vectors, which is refused where it begins, whatever follows its first byte. The
    /// reader stays as it was, and the visitor is told nothing.
    #[inline(never)]
    pub fn tell_operator<V: TellOperator<'a>>(&mut self, visitor: &mut V) -> Result<V::Output>
        ensures visited { IfOk result (λ answer. VisitsPlain V.visits self.old visitor.old answer
            self.new visitor.new) }
        ensures refused { IfErr result (λ e. RefusesPlain self.old e × (self.new ≡ self.old)) }
        ensures told { IfErr result (λ _. visitor.new ≡ visitor.old) }
        ensures no_memory { (WantsMemory self.old → ⊥) → NeedsNoMemory result }
    {
        let op = match self.read_plain() {
            Ok(op) => op,
            Err(error) => return Err(error),
        };
        Ok(visitor.tell(op))
    }

    /// Reads the next operator, as `read` does, where it is not one on vectors.
    ///
    /// # Errors
    ///
    /// As `read`; and where the operator is one on vectors, which is refused where it begins, whatever follows its first byte. The
    /// reader stays as it was.
    pub fn read_plain(&mut self) -> Result<Operator<'a>>
        ensures read { IfOk result (λ op. Reads self.old (op_of op) self.new × (is_simd (op_of op) ≡ false)) }
        ensures refused { IfErr result (λ e. RefusesPlain self.old e × (self.new ≡ self.old)) }
        ensures no_memory { (WantsMemory self.old → ⊥) → NeedsNoMemory result }
    {
        let start = self.get_binary_reader();
        let op = match self.read() {
            Ok(op) => op,
            Err(error) => return Err(unread_in_frame(self.current_frame(), &start, error)),
        };
        if is_simd(&op) {
            let place = start.original_position();
            self.put_back(start);
            return Err(unexpected_vector(place));
        }
        Ok(op)
    }
}

/// What is told of the operator that comes next, and was not read for this reason. If the features refuse it by its first byte, that is
/// told, except if memory was refused: it is one on vectors, and they do not ask that it be judged; or it is a legacy one on exceptions,
/// which they do not allow.
#[cold]
pub(crate) fn told_of(operators: &OperatorsReader<'_>, error: Error) -> Error
    ensures told { ToldFirst (refused_in (innermost operators.now.frames) operators.now.bytes)
        operators.now.bytes.place error result }
    ensures content { IsNotMemory error.kind → IsNotMemory result.kind }
{
    let Some(_kind) = operators.current_frame() else {
        return error;
    };
    let reader = operators.get_binary_reader();
    first_of(refused_by_first(&reader), error)
}

/// What is told of the operator that begins here in this frame, and was not read for this reason, where none on vectors is taken: it is
/// refused as one on vectors if it begins so, except if memory was refused.
#[cold]
pub(crate) fn unread_in_frame(
    frame: Option<FrameKind>,
    reader: &BinaryReader<'_>,
    error: Error,
) -> Error
    ensures told { ToldFirst (vector_in frame reader.now) reader.now.place error result }
    ensures content { IsNotMemory error.kind → IsNotMemory result.kind }
{
    let Some(_kind) = frame else {
        return error;
    };
    first_of(vector_by_first(reader), error)
}

// Of two errors the first, if there is one, except if the second is that memory was refused.
fn first_of(first: Option<Error>, error: Error) -> Error
    ensures told { (k : Option TheKind) (place : ℕ) → MatchOption first (k ≡ None)
        (λ e. (k ≡ Some e.kind) × (e.offset ≡ place)) → ToldFirst k place error result }
    ensures content { IfSome first (λ e. IsNotMemory e.kind) → IsNotMemory error.kind → IsNotMemory result.kind }
{
    if let ErrorKind::OutOfMemory = error.kind() {
        return error;
    }
    match first {
        Some(first) => first,
        None => error,
    }
}

// That an operator on vectors comes next, if one does.
fn vector_by_first(reader: &BinaryReader<'_>) -> Option<Error>
    ensures is { MatchOption result (vector_by_first reader.now.rest ≡ None)
        (λ e. (vector_by_first reader.now.rest ≡ Some e.kind) × (e.offset ≡ reader.now.place)) }
    ensures content { IfSome result (λ e. IsNotMemory e.kind) }
{
    let Ok(byte) = reader.peek() else {
        return None;
    };
    vector_by_byte(byte, reader.original_position())
}

// The same of an operator that begins with this byte at this offset.
fn vector_by_byte(byte: u8, offset: u64) -> Option<Error>
    ensures is { MatchOption result (vector_by_byte byte ≡ None)
        (λ e. (vector_by_byte byte ≡ Some e.kind) × (e.offset ≡ offset)) }
    ensures content { IfSome result (λ e. IsNotMemory e.kind) }
{
    if byte == 0xfd {
        return Some(unexpected_vector(offset));
    }
    None
}

// Why the features of the reader refuse an operator by its first byte.
fn refused_by_first(reader: &BinaryReader<'_>) -> Option<Error>
    ensures is { MatchOption result (refused_by_first reader.now.settings.features reader.now.rest ≡ None)
        (λ e. (refused_by_first reader.now.settings.features reader.now.rest ≡ Some e.kind) × (e.offset ≡ reader.now.place)) }
    ensures content { IfSome result (λ e. IsNotMemory e.kind) }
{
    let Ok(byte) = reader.peek() else {
        return None;
    };
    refused_by_byte(byte, reader.features(), reader.original_position())
}

// The same of this byte at this offset.
fn refused_by_byte(byte: u8, features: WasmFeatures, offset: u64) -> Option<Error>
    ensures is { MatchOption result (refused_by_byte features.0 byte ≡ None)
        (λ e. (refused_by_byte features.0 byte ≡ Some e.kind) × (e.offset ≡ offset)) }
    ensures content { IfSome result (λ e. IsNotMemory e.kind) }
{
    if byte == 0x06 {
        return legacy_refused(
            Words::LegacyExceptionsFeatureRequiredForTryInstruction,
            features,
            offset,
        );
    }
    if byte == 0x07 {
        return legacy_refused(
            Words::LegacyExceptionsFeatureRequiredForCatchInstruction,
            features,
            offset,
        );
    }
    if byte == 0x19 {
        return legacy_refused(
            Words::LegacyExceptionsFeatureRequiredForCatchAllInstruction,
            features,
            offset,
        );
    }
    if byte == 0xfd {
        return vector_refused(features, offset);
    }
    None
}

// That an operator is one on vectors, unless these features ask that it be judged.
fn vector_refused(features: WasmFeatures, offset: u64) -> Option<Error>
    ensures is { MatchOption result (vector_refused features.0 ≡ None)
        (λ e. (vector_refused features.0 ≡ Some e.kind) × (e.offset ≡ offset)) }
    ensures content { IfSome result (λ e. IsNotMemory e.kind) }
{
    if features.vector_operators() {
        return None;
    }
    Some(unexpected_vector(offset))
}

// That an operator is a legacy one on exceptions, unless these features allow it.
fn legacy_refused(message: Words, features: WasmFeatures, offset: u64) -> Option<Error>
    ensures is { MatchOption result (legacy_refused features.0 ≡ None)
        (λ e. (legacy_refused features.0 ≡ Some e.kind) × (e.offset ≡ offset)) }
    ensures content { IfSome result (λ e. IsNotMemory e.kind) }
{
    if features.legacy_exceptions() {
        return None;
    }
    Some(Error::missing_feature(WasmFeatures::LEGACY_EXCEPTIONS, message, offset))
}

/// That an operator is one on vectors.
#[cold]
pub fn unexpected_vector(offset: u64) -> Error
    ensures kind { result.kind ≡ Other }
    ensures offset { result.offset ≡ offset }
{
    Error::new(Words::UnexpectedSIMDOpcode0xfd, offset)
}
