//! Constant expressions, as they stand among other bytes.

ghost use Rattle.std.specs.Prelude.{◌≡◌, ℕ, List, false, true, IfOk, IfErr, IfSome};
ghost use Rattle.wasm_types.specs.decoding.Decoder.{State, Takes, Reaches};
ghost use Rattle.wasm_types.specs.decoding.declared.error.ErrorKind.TheVariants.{Other};
ghost use Rattle.wasm_types.specs.reader.Parts.{part_at};
ghost use Rattle.wasm_types.specs.reader.Reading.{Gives, IsNotMemory, MemoryOnlyIf, NeedsNoMemory};
ghost use Rattle.wasm_operators_enums.specs.Op.{Op, op_of};
ghost use Rattle.wasm_operators_reader.specs.Standing.{at_start, Reads, Refuses, WantsMemory};
ghost use Rattle.wasm_operators_bodies.specs.Short.{SpellsShort};
ghost use Rattle.wasm_operators_encoding.specs.Ends.{is_end, IsConstantText};
ghost use Rattle.wasm_operators_bodies.specs.Constants.{PassesTo, StopsConstant, same_bytes};
ghost use Rattle.wasm_operators_bodies.specs.ConstantLaws.{same_bytes_equal};
ghost use Rattle.wasm_operators_encoding.specs.ConstantDecoder.{constant};

use crate::part::{front, left, take_front};
use crate::short::{ShortConstant, short_constant};
use std::alloc::Global;
use std::marker::Model;
use wasm_operators_reader::{FrameStack, Operator, OperatorsReader, Role};
use wasm_types::{BinaryReader, Error, FromReader, Result, Words};

/// The bytes of a constant expression, such as the value of a global (WebAssembly 3.0, binary format, expressions).
#[derive(Drop)]
pub struct ConstExpr<'a> {
    reader: BinaryReader<'a>,
    alloc: Global,
}

impl<'a> Model for ConstExpr<'a> {
    ghost use Rattle.wasm_types.specs.decoding.Decoder.{State};

    ghost Value = { State };

    ghost view = { λ e. e.reader };
}

impl<'a> ConstExpr<'a> {
    /// The expression whose bytes are those that are left to `reader`. None of them is judged. Reading from it takes memory of
    /// `alloc` for operators.
    pub fn new(alloc: Global, reader: BinaryReader<'a>) -> ConstExpr<'a>
        ensures { result ≡ reader.entry }
    {
        ConstExpr { reader, alloc }
    }

    /// Reads an expression at the front of what is left, whose only `end` is its last operator, and takes exactly its bytes.
    ///
    /// # Errors
    ///
    /// No front of the bytes spells such an expression: an operator is refused before the first `end`, or a frame is open behind
    /// it, which is refused there. Or there is no memory for a frame or a list of an operator. The reader stays as it was.
    pub fn read(alloc: Global, reader: &mut BinaryReader<'a>) -> Result<ConstExpr<'a>>
        ensures read { IfOk result (λ it. (text : List ℕ) × IsConstantText reader.old.settings text
            × Takes reader.old text reader.new × (it ≡ part_at reader.old text)) }
        ensures refused { IfErr result (λ e. IsNotMemory e.kind → (text : List ℕ) (t : State) → Takes reader.old text t
            → IsConstantText reader.old.settings text → ⊥) }
        ensures stops { IfErr result (λ e. StopsConstant (at_start reader.old) e) }
        ensures stays { IfErr result (λ _. reader.new ≡ reader.old) }
    {
        if let Some((_constant, length)) = short_constant(left(reader)) {
            return Ok(ConstExpr::new(alloc, take_front(reader, length)));
        }
        let behind = pass_constant(alloc, reader.clone())?;
        let passed = reader.bytes_remaining() - behind.bytes_remaining();
        let part = front(reader, passed);
        *reader = behind;
        Ok(ConstExpr::new(alloc, part))
    }

    /// A reader of the expression's bytes.
    pub fn get_binary_reader(&self) -> BinaryReader<'a>
        ensures { result ≡ self.now }
    {
        self.reader.clone()
    }

    /// A reader of the expression's operators.
    pub fn get_operators_reader(&self) -> OperatorsReader<'a>
        ensures { result ≡ at_start self.now }
    {
        OperatorsReader::new(self.alloc, self.reader.clone())
    }

    /// The expression's bytes.
    fn bytes(&self) -> &'a [u8]
        ensures { result.now ≡ self.now.rest }
    {
        left(&self.reader)
    }

    /// What the whole expression is, if it is one operator that can be told from its bytes alone.
    pub fn as_short(&self) -> Option<ShortConstant>
        ensures { IfSome result (λ c. SpellsShort c self.now.rest) }
    {
        let bytes = self.bytes();
        let Some((constant, length)) = short_constant(bytes) else {
            return None;
        };
        if length < bytes.len() {
            return None;
        }
        Some(constant)
    }
}

/// Expressions of the same bytes are equal, wherever they stand and whatever the settings of their readers are.
impl<'a> PartialEq for ConstExpr<'a> {
    ghost eq = { same_bytes };

    ghost laws = { same_bytes_equal.0 };

    fn eq(&self, other: &ConstExpr<'a>) -> bool {
        self.bytes() == other.bytes()
    }
}

impl<'a> Eq for ConstExpr<'a> {
    ghost laws = { same_bytes_equal.1 };
}

/// The bytes of an expression whose only `end` is its last operator, as [`ConstExpr::read`] takes them.
impl<'a> FromReader<'a> for ConstExpr<'a> {
    ghost use Rattle.std.specs.Prelude.{ℕ, List, true};
    ghost use Rattle.wasm_operators_encoding.specs.ConstantDecoder.{constant, ConstantText};
    ghost use Rattle.wasm_operators_encoding.specs.ConstantDecoderLaws.{lawful-constant, decides-constant};

    ghost Value = { List ℕ };

    ghost view = { λ e. e.rest };

    ghost decoder = { constant };

    ghost grammar = { ConstantText };

    ghost takes_memory = { true };

    ghost lawful = { lawful-constant };

    ghost exact = { decides-constant };

    #[tactic(auto, using(wasm_types::specs::Laws::reaches_self, crate::specs::ConstantStopLaws::constant_part, crate::specs::ConstantStopLaws::constant_reaches, crate::specs::ConstantStopLaws::constant_fails))]
    fn from_reader(alloc: Global, reader: &mut BinaryReader<'a>) -> Result<ConstExpr<'a>>
        ensures answer { Gives (λ e. e.rest) result reader.new (constant reader.old.settings reader.old) }
        ensures part { IfOk result (λ e. e ≡ part_at reader.old e.rest) }
        ensures memory { MemoryOnlyIf true result }
        ensures stops { IfErr result (λ e. StopsConstant (at_start reader.old) e) }
        ensures forward { Reaches reader.old reader.new }
    {
        match ConstExpr::read(alloc, reader) {
            Ok(expression) => Ok(expression),
            Err(error) => Err(error),
        }
    }
}

/// Whether an operator is `end`.
#[inline]
fn is_end(op: &Operator) -> bool
    ensures { result ≡ is_end (op_of op.now) }
{
    matches!(Role::of(op), Role::End)
}

/// Goes past the first `end`.
fn pass_end(operators: &mut OperatorsReader<'_>) -> Result<()>
    ensures passed { IfOk result (λ _. PassesTo operators.old true operators.new) }
    ensures refused { IfErr result (λ e. PassesTo operators.old false operators.new × Refuses operators.new e
        × ((WantsMemory operators.new → ⊥) → IsNotMemory e.kind)) }
{
    let mut ended = false;
    while !ended {
        ended = match read_end(operators) {
            Ok(ended) => ended,
            Err(error) => return Err(error),
        };
    }
    Ok(())
}

/// Reads the next operator, and tells whether it is `end`.
fn read_end(operators: &mut OperatorsReader<'_>) -> Result<bool>
    ensures read { IfOk result (λ ended. (o : Op) × Reads operators.old o operators.new × (is_end o ≡ ended)) }
    ensures refused { IfErr result (λ e. Refuses operators.old e × (operators.new ≡ operators.old)) }
    ensures no_memory { (WantsMemory operators.old → ⊥) → NeedsNoMemory result }
{
    let op = match operators.read() {
        Ok(op) => op,
        Err(error) => return Err(error),
    };
    Ok(is_end(&op))
}

/// Where the bytes go on behind a constant expression.
fn pass_constant<'a>(alloc: Global, reader: BinaryReader<'a>) -> Result<BinaryReader<'a>>
    ensures read { IfOk result (λ behind. (text : List ℕ) × IsConstantText reader.entry.settings text
        × Takes reader.entry text behind) }
    ensures stops { IfErr result (λ e. StopsConstant (at_start reader.entry) e) }
{
    let mut operators = OperatorsReader::new(alloc, reader);
    if let Err(error) = pass_end(&mut operators) {
        return Err(error);
    }
    if operators.current_frame().is_some() {
        return Err(frames_remain(operators.original_position()));
    }
    Ok(operators.get_binary_reader())
}

/// That a frame is open where the expression ends.
#[cold]
fn frames_remain(offset: u64) -> Error
    ensures kind { result.kind ≡ Other }
    ensures offset { result.offset ≡ offset }
{
    Error::new(Words::ControlFramesRemainAtEndOfExpression, offset)
}
