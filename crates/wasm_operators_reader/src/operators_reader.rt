//! The reader of operators in frames.

ghost use Rattle.std.specs.Prelude.{◌≡◌, ◌↔◌, ◌==◌, ◌+◌, ◌<◌, [], ◌∷◌, IsTrue, Ok, Err, IfOk, IfErr, IfSome, IfNone, length};
ghost use Rattle.wasm_types.specs.decoding.declared.error.ErrorKind.TheVariants.{Other};
ghost use Rattle.wasm_types.specs.reader.Reading.{NeedsNoMemory};
ghost use Rattle.wasm_operators_enums.specs.Op.{op_of};
ghost use Rattle.wasm_operators_reader.specs.Standing.{at_start, IsFinished, Reads, Refuses, WantsMemory};
ghost use Rattle.wasm_operators_reader.specs.Visiting.{VisitsPlain};
ghost use Rattle.wasm_operators_reader.specs.Walking.{WalksTo, WalksUntilTo};

use crate::cursor::Cursor;
use crate::frequent::{read_frequent, visit_frequent, visit_run};
use std::alloc::Global;
use std::marker::Model;
use wasm_operators_decode::read_operator;
use wasm_operators_encoding::expressions::{ControlStack, FrameKind, FrameStack, Operator, Role};
use wasm_operators_frequent::reading::TellOperator;
use wasm_types::{BinaryReader, Error, Result, Words};

/// The memory of a reader's frames.
#[derive(Drop)]
pub struct OperatorsReaderAllocations(ControlStack);

impl OperatorsReaderAllocations {
    /// None.
    pub fn new(alloc: Global) -> OperatorsReaderAllocations
        ensures { result.0.frames ≡ [] }
    {
        OperatorsReaderAllocations(ControlStack::new(alloc))
    }
}

/// Reads operators one after the other, and knows which frames are open.
#[derive(Drop)]
pub struct OperatorsReader<'a> {
    reader: Cursor<'a>,
    control: ControlStack,
    alloc: Global,
}

impl<'a> Model for OperatorsReader<'a> {
    ghost use Rattle.wasm_operators_reader.specs.Standing.{Standing};

    ghost Value = { Standing };

    ghost view = { λ r. record { bytes = r.reader; frames = r.control.frames } };
}

impl<'a> OperatorsReader<'a> {
    /// A reader of an expression, or of a function's body behind its locals, whose own frame is open. It takes no memory.
    pub fn new(alloc: Global, reader: BinaryReader<'a>) -> OperatorsReader<'a>
        ensures { result ≡ at_start reader.entry }
    {
        let mut control = ControlStack::new(alloc);
        let _ = control.push(FrameKind::Block);
        OperatorsReader {
            reader: Cursor::new(reader),
            control,
            alloc,
        }
    }

    /// The same, in memory that another reader had.
    pub fn new_with_allocs(
        alloc: Global,
        reader: BinaryReader<'a>,
        allocs: OperatorsReaderAllocations,
    ) -> OperatorsReader<'a>
        ensures { result ≡ at_start reader.entry }
    {
        let OperatorsReaderAllocations(mut control) = allocs;
        control.clear();
        let _ = control.push(FrameKind::Block);
        OperatorsReader {
            reader: Cursor::new(reader),
            control,
            alloc,
        }
    }

    /// The memory of its frames, for a reader to come.
    pub fn into_allocations(self) -> OperatorsReaderAllocations
        ensures { result.0.frames ≡ self.entry.frames }
    {
        let OperatorsReader {
            reader: _,
            control,
            alloc: _,
        } = self;
        OperatorsReaderAllocations(control)
    }

    /// A reader of bytes at the same offset, over the same bytes.
    pub fn get_binary_reader(&self) -> BinaryReader<'a>
        ensures { result ≡ self.now.bytes }
    {
        self.reader.reader()
    }

    /// Whether no byte is left.
    #[inline]
    pub fn eof(&self) -> bool
        ensures { result ≡ (length self.now.bytes.rest == 0) }
    {
        self.reader.eof()
    }

    /// Where the next byte stands in the input.
    #[inline]
    pub fn original_position(&self) -> u64
        ensures { result ≡ self.now.bytes.place }
    {
        self.reader.original_position()
    }

    /// Whether `end`, the byte `0b`, is all that is left.
    #[inline]
    pub fn is_end_then_eof(&self) -> bool
        ensures { IsTrue result ↔ (self.now.bytes.rest ≡ 0x0b ∷ []) }
    {
        self.reader.reader().is_end_then_eof()
    }

    /// The next operator, whose frame it opens, closes or turns.
    ///
    /// # Errors
    ///
    /// No frame is open; the bytes spell no operator that the features of the reader allow; the operator may not come next in
    /// the innermost frame; or there is no memory for a list that it keeps, or for a frame. The reader stays as it was.
    #[inline(always)]
    pub fn read(&mut self) -> Result<Operator<'a>>
        ensures read { IfOk result (λ op. Reads self.old (op_of op) self.new) }
        ensures refused { IfErr result (λ e. Refuses self.old e × (self.new ≡ self.old)) }
        ensures no_memory { (WantsMemory self.old → ⊥) → NeedsNoMemory result }
    {
        if let Some(op) = self.read_frequent() {
            return Ok(op);
        }
        self.read_other()
    }

    /// The next operator, whichever it is: `read_complete`, with a place of its own for the answer, so that none is made ready before.
    #[inline(always)]
    fn read_other(&mut self) -> Result<Operator<'a>>
        ensures read { IfOk result (λ op. Reads self.old (op_of op) self.new) }
        ensures refused { IfErr result (λ e. Refuses self.old e × (self.new ≡ self.old)) }
        ensures no_memory { (WantsMemory self.old → ⊥) → NeedsNoMemory result }
    {
        let op = match self.read_complete() {
            Ok(op) => op,
            Err(error) => return Err(error),
        };
        Ok(op)
    }

    /// The next operator, where it is a frequent one in a frequent form that may come next.
    #[inline(always)]
    fn read_frequent(&mut self) -> Option<Operator<'a>>
        ensures read { IfSome result (λ op. Reads self.old (op_of op) self.new) }
        ensures stays { IfNone result (self.new ≡ self.old) }
    {
        let Some(op) = read_frequent(&mut self.reader, &mut self.control) else {
            return None;
        };
        Some(op)
    }

    /// The next operator, whichever it is.
    #[inline(never)]
    fn read_complete(&mut self) -> Result<Operator<'a>>
        ensures read { IfOk result (λ op. Reads self.old (op_of op) self.new) }
        ensures refused { IfErr result (λ e. Refuses self.old e × (self.new ≡ self.old)) }
        ensures no_memory { (WantsMemory self.old → ⊥) → NeedsNoMemory result }
    {
        if self.control.is_empty() {
            return Err(Error::new(
                Words::OperatorsRemainingAfterEndOfFunctionBodyOrExpression,
                self.original_position(),
            ));
        }
        let mut ahead = self.reader.reader();
        let op = match read_operator(self.alloc, &mut ahead) {
            Ok(op) => op,
            Err(error) => return Err(error),
        };
        let Ok(fits) = self.control.advance(&op) else {
            return Err(Error::out_of_memory(self.original_position()));
        };
        if !fits {
            return Err(misplaced(&op, &self.reader.reader()));
        }
        self.reader.go_to(&ahead);
        Ok(op)
    }

    /// The next operator, as `read` gives it, and its offset in the input.
    ///
    /// # Errors
    ///
    /// As `read`.
    pub fn read_with_offset(&mut self) -> Result<(Operator<'a>, u64)>
        ensures read { IfOk result (λ found. Reads self.old (op_of found.0) self.new
            × (found.1 ≡ self.old.bytes.place)) }
        ensures refused { IfErr result (λ e. Refuses self.old e × (self.new ≡ self.old)) }
        ensures no_memory { (WantsMemory self.old → ⊥) → NeedsNoMemory result }
    {
        let place = self.original_position();
        let op = self.read()?;
        Ok((op, place))
    }

    /// Reads operators, as `read` does, and tells the visitor of them, one after the other, as long as they are frequent ones in frequent
    /// forms and the visitor answers `Ok`. Its first `Err` is given back, with the offset in the input of the operator that it
    /// answers, and the reader stands behind that operator. None where another operator follows, or none that `read` reads: the reader
    /// stands there then.
    pub fn tell_run<E: Drop, V>(&mut self, visitor: &mut V) -> Option<(E, u64)>
    where
        V: TellOperator<'a, Output = std::result::Result<(), E>>,
        ensures ended { IfSome result (λ last. WalksUntilTo V.visits (Ok tt) self.old visitor.old
            (Err last.0) self.new visitor.new last.1) }
        ensures told { IfNone result (WalksTo V.visits (Ok tt) self.old visitor.old self.new visitor.new) }
    {
        let mut ahead = self.reader.copy();
        let end = visit_run(&mut ahead, &mut self.control, visitor);
        self.reader = ahead;
        end
    }

    /// Lets it stand at other bytes, with the same frames.
    pub(crate) fn put_back(&mut self, reader: BinaryReader<'a>)
        ensures { self.new ≡ record { bytes = reader.entry; frames = self.old.frames } }
    {
        self.reader = Cursor::new(reader);
    }

    /// That all frames are closed, and all bytes read.
    ///
    /// # Errors
    ///
    /// A frame is open, or bytes are left.
    pub fn finish(&self) -> Result<()>
        ensures finished { IfOk result (λ _. IsFinished self.now) }
        ensures refused { IfErr result (λ e. (IsFinished self.now → ⊥) × (e.kind ≡ Other)
            × (e.offset ≡ self.now.bytes.place)) }
        ensures no_memory { NeedsNoMemory result }
    {
        if !self.control.is_empty() {
            return Err(Error::new(
                Words::ControlFramesRemainAtEndOfFunctionBodyOrExpression,
                self.original_position(),
            ));
        }
        if !self.eof() {
            return Err(Error::new(
                Words::UnexpectedDataAtTheEndOfOperators,
                self.original_position(),
            ));
        }
        Ok(())
    }
}

impl<'a> FrameStack for OperatorsReader<'a> {
    ghost use Rattle.wasm_operators_encoding.specs.expressions.Stack.{innermost};

    ghost frame = { λ s. innermost s.frames };

    fn current_frame(&self) -> Option<FrameKind> {
        self.control.last()
    }
}

/// That an operator, which begins where the reader stands, may not come next there: it is refused behind its first byte.
#[cold]
pub fn misplaced(op: &Operator, reader: &BinaryReader) -> Error
    requires { 0 < length reader.now.rest }
    ensures kind { result.kind ≡ Other }
    ensures offset { result.offset ≡ reader.now.place + 1 }
{
    let message = match Role::of(op) {
        Role::Else => Words::ElseFoundOutsideIfBlock,
        Role::Catch => Words::CatchFoundOutsideLegacyTryBlock,
        Role::CatchAll => Words::CatchAllFoundOutsideLegacyTryBlock,
        _ => Words::DelegateFoundOutsideLegacyTryBlock,
    };
    let left = reader.remaining_range();
    Error::new(message, left.start + 1)
}
