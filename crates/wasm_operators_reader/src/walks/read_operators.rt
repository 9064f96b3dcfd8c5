//! Operators from a reader of bytes, where the caller keeps the frames.

ghost use Rattle.std.specs.Prelude.{◌≡◌, ◌+◌, ◌<◌, false, None, [], length, IfOk, IfErr};
ghost use Rattle.wasm_types.specs.decoding.Decoder.{State};
ghost use Rattle.wasm_types.specs.decoding.declared.error.ErrorKind.TheVariants.{Other};
ghost use Rattle.wasm_types.specs.reader.Reading.{NeedsNoMemory};
ghost use Rattle.wasm_operators_enums.specs.Op.{op_of};
ghost use Rattle.wasm_operators_decode.specs.Memory.{keeps_list_at};
ghost use Rattle.wasm_operators_enums.specs.Vectors.{is_simd};
ghost use Rattle.wasm_operators_reader.specs.walks.InFrame.{ReadsIn, RefusesIn, RefusesPlainIn};

use crate::visiting::unread_in_frame;
use crate::{FrameKind, FrameStack, Operator, misplaced, read_operator, unexpected_vector};
use std::alloc::Global;
use wasm_operators_enums::is_simd;
use wasm_types::{BinaryReader, Error, Result, Words};

/// Looks at operators, where a stack knows which frames are open. With no frame open nothing is read: that is refused before a
/// byte is read.
pub trait ReadOperators<'a> {
    ghost use Rattle.wasm_types.specs.decoding.Decoder.{State as TheState};

    /// Where it stands.
    ghost state: { Self → TheState };

    /// The next operator, which stays.
    ///
    /// # Errors
    ///
    /// No frame is open; the bytes spell no operator that the features of the reader allow; the operator may not come next in
    /// the innermost frame; or there is no memory for a list that it keeps.
    fn peek_operator<S: FrameStack>(&self, alloc: Global, stack: &S) -> Result<Operator<'a>>
        ensures read { IfOk result (λ op. (t : State) × ReadsIn (S.frame stack.now) (state self.now) (op_of op) t) }
        ensures refused { IfErr result (λ e. RefusesIn (S.frame stack.now) (state self.now) e) }
        ensures no_memory { keeps_list_at (state self.now) ≡ false → NeedsNoMemory result };

    /// That no frame is open, and no byte left.
    ///
    /// # Errors
    ///
    /// A frame is open, or bytes are left.
    fn finish_expression<S: FrameStack>(&self, stack: &S) -> Result<()>
        ensures finished { IfOk result (λ _. (S.frame stack.now ≡ None) × ((state self.now).rest ≡ [])) }
        ensures refused { IfErr result (λ e. (S.frame stack.now ≡ None → (state self.now).rest ≡ [] → ⊥)
            × (e.kind ≡ Other) × (e.offset ≡ (state self.now).place)) }
        ensures no_memory { NeedsNoMemory result };
}

impl<'a> ReadOperators<'a> for BinaryReader<'a> {
    ghost state = { λ r. r };

    fn peek_operator<S: FrameStack>(&self, alloc: Global, stack: &S) -> Result<Operator<'a>> {
        let mut reader = self.clone();
        read_in_frame(alloc, stack.current_frame(), &mut reader)
    }

    fn finish_expression<S: FrameStack>(&self, stack: &S) -> Result<()> {
        if stack.current_frame().is_some() {
            return Err(Error::new(
                Words::ControlFramesRemainAtEndOfFunctionBodyOrExpression,
                self.original_position(),
            ));
        }
        if !self.eof() {
            return Err(Error::new(
                Words::UnexpectedDataAtTheEndOfOperators,
                self.original_position(),
            ));
        }
        Ok(())
    }
}

/// The next operator, where this frame is the innermost.
///
/// # Errors
///
/// As `ReadOperators::peek_operator`. The reader stays as it was.
pub fn read_in_frame<'a>(
    alloc: Global,
    frame: Option<FrameKind>,
    reader: &mut BinaryReader<'a>,
) -> Result<Operator<'a>>
    ensures read { IfOk result (λ op. ReadsIn frame reader.old (op_of op) reader.new) }
    ensures refused { IfErr result (λ e. RefusesIn frame reader.old e × (reader.new ≡ reader.old)) }
    ensures no_memory { keeps_list_at reader.old ≡ false → NeedsNoMemory result }
{
    if frame.is_none() {
        return Err(Error::new(
            Words::OperatorsRemainingAfterEndOfFunctionBodyOrExpression,
            reader.original_position(),
        ));
    }
    let start = reader.clone();
    let op = match read_operator(alloc, reader) {
        Ok(op) => op,
        Err(error) => return Err(error),
    };
    if !op.fits_frame(frame) {
        let error = misplaced(&op, &start);
        *reader = start;
        return Err(error);
    }
    Ok(op)
}

/// The same, where the operator is not one on vectors.
///
/// # Errors
///
/// As [`read_in_frame`]; and where the operator is one on vectors, which is refused where it begins, whatever follows its first byte.
/// The reader stays as it was.
pub fn read_plain_in_frame<'a>(
    alloc: Global,
    frame: Option<FrameKind>,
    reader: &mut BinaryReader<'a>,
) -> Result<Operator<'a>>
    ensures read { IfOk result (λ op. ReadsIn frame reader.old (op_of op) reader.new × (is_simd (op_of op) ≡ false)) }
    ensures refused { IfErr result (λ e. RefusesPlainIn frame reader.old e × (reader.new ≡ reader.old)) }
    ensures no_memory { keeps_list_at reader.old ≡ false → NeedsNoMemory result }
{
    let start = reader.clone();
    let op = match read_in_frame(alloc, frame, reader) {
        Ok(op) => op,
        Err(error) => return Err(unread_in_frame(frame, &start, error)),
    };
    if is_simd(&op) {
        let place = start.original_position();
        *reader = start;
        return Err(unexpected_vector(place));
    }
    Ok(op)
}
