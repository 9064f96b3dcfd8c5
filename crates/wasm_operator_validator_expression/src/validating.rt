//! The loop over an expression.

ghost use Rattle.std.specs.Prelude.{◌≡◌, ◌↔◌, Result, Ok, IsTrue, [], true};
ghost use Rattle.wasm_types.specs.decoding.declared.error.ErrorKind.TheVariants.{Other};
ghost use Rattle.wasm_operators_enums.specs.Op.{Op};
ghost use Rattle.wasm_operator_validator_state.specs.resources.Meaning.{Meaning};
ghost use Rattle.wasm_operator_validator_state.specs.State.{State, Visits};
ghost use Rattle.wasm_operator_validator_expression.specs.Validating.{Validates};

use std::alloc::Global;
use wasm_operator_validator_state::Refusal;
use wasm_operators_reader::walks::{TellOperator, TellSimdOperator, tell_whole_with_offset};
use wasm_types::{BinaryReader, Error, Result, Words};

/// That an operator is refused. Whoever is told of operators keeps why, so that an answer is one bit.
#[derive(Clone, Copy, Debug, PartialEq, Eq)]
pub struct Refused;

/// A visitor that validates all operators, and keeps a refusal of few bytes.
pub trait Validating<'a>: TellOperator<'a, Output = std::result::Result<(), Refused>>
    + TellSimdOperator<'a> {
    ghost use Rattle.wasm_operator_validator_state.specs.declared.refusal.Refusal.{Refusal as Why};
    ghost use Rattle.wasm_operator_validator_expression.specs.declared.validating.Refused.{Refused as Sign};
    ghost use Rattle.wasm_operator_validator_expression.specs.Validating.{refused_for};

    /// What its look-ups mean.
    ghost meaning: { Self → Meaning };

    /// What the validator that it holds knows.
    ghost state: { Self → State };

    /// Why the last operator that is refused is.
    ghost why: { Self → Why };

    /// What stays of it, whatever is visited.
    ghost keeps: { Self → Self → Type 0 };

    /// Why the last operator that is refused is.
    fn refusal(&self) -> Refusal
        ensures { result ≡ why self.now };

    /// Whether an operator was refused.
    fn has_failed(&self) -> bool
        ensures { result ≡ (state self.now).failed };

    /// Whether every frame has ended.
    fn is_done(&self) -> bool
        ensures { IsTrue result ↔ ((state self.now).opens ≡ []) };

    /// Notes a refusal.
    fn fail(&mut self)
        ensures failed { state self.new ≡ record (state self.old) { failed = true } }
        ensures keeps { keeps self.old self.new };

    // Each visit decides its operator.
    ghost visited: { (v : Self) (o : Op) (a : Result (Unit {0}) Sign) (w : Self) → Self.visits v o a w
        → Visits (meaning v) (state v) o (refused_for (why w) a) (state w) × keeps v w };

    // The look-ups mean the same.
    ghost kept: { (v w : Self) → keeps v w → meaning w ≡ meaning v };

    ghost stays: { (v : Self) → keeps v v };

    ghost through: { (u v w : Self) → keeps u v → keeps v w → keeps u w };
}

/// Validates an expression: tells the visitor of each operator to the end of the bytes, and asks that every frame has ended then. It is Ok exactly
/// where the bytes spell one expression whose operators may come, out of memory aside.
///
/// # Errors
///
/// An operator was refused before; the bytes spell no expression; an operator is refused, at its offset; a frame
/// is still open at the end; or there is no memory. The visitor has failed then.
pub fn validate_operators<'a, V: Validating<'a>>(
    alloc: Global,
    reader: BinaryReader<'a>,
    visitor: &mut V,
) -> Result<()>
    ensures validates { Validates (V.meaning visitor.old) (V.state visitor.old) reader.entry result
        (V.state visitor.new) }
    ensures keeps { V.keeps visitor.old visitor.new }
{
    let whole = reader.remaining_range();
    if visitor.has_failed() {
        return Err(Error::failed(Words::AnOperatorWasRefusedBefore, whole.start));
    }
    let end = match tell_whole_with_offset(alloc, reader, visitor) {
        Ok(end) => end,
        Err(error) => {
            visitor.fail();
            return Err(error);
        }
    };
    if let Err(last) = end {
        let refusal = visitor.refusal().error(last.1);
        return Err(refusal);
    }
    if !visitor.is_done() {
        visitor.fail();
        let unfinished = frames_remain(whole.end);
        return Err(unfinished);
    }
    Ok(())
}

/// The refusal of an expression behind which a frame is still open.
#[cold]
fn frames_remain(offset: u64) -> Error
    ensures kind { result.kind ≡ Other }
    ensures at { result.offset ≡ offset }
{
    Error::new(
        Words::ControlFramesRemainAtEndOfFunctionBodyOrExpression,
        offset,
    )
}
