//! The loop over the operators of a constant.

ghost use Rattle.std.specs.Prelude.{◌≡◌, ◌↔◌, Result, IsTrue, [], false};
ghost use Rattle.wasm_types.specs.decoding.declared.error.ErrorKind.TheVariants.{Other};
ghost use Rattle.wasm_operators_enums.specs.Op.{Op};
ghost use Rattle.wasm_operator_validator_state.specs.State.{State};
ghost use Rattle.wasm_operator_validator_constants.specs.Refusals.{refused_constant};
ghost use Rattle.wasm_operator_validator_constants.specs.Checked.{Surroundings, VisitsConstant, ValidatesConstant};

use crate::ConstantRefusal;
use std::alloc::Global;
use wasm_operators_reader::walks::{TellOperator, TellSimdOperator, tell_whole_with_offset};
use wasm_types::{BinaryReader, Error, Result, Words};

/// A visitor that tests each operator, and validates those that are constant.
pub trait ValidatingConstants<'a>: TellOperator<
    'a,
    Output = std::result::Result<(), ConstantRefusal>,
>
    + TellSimdOperator<'a> {
    ghost use Rattle.wasm_operator_validator_constants.specs.declared.refusal.ConstantRefusal.{ConstantRefusal as Why};

    /// What it judges by.
    ghost around: { Self → Surroundings };

    /// What the validator that it holds knows.
    ghost state: { Self → State };

    /// Whether every frame has ended.
    fn is_done(&self) -> bool
        ensures { IsTrue result ↔ ((state self.now).opens ≡ []) };

    // Each visit tests its operator, and then decides it.
    ghost visited: { (v : Self) (o : Op) (a : Result (Unit {0}) Why) (w : Self) → Self.visits v o a w
        → VisitsConstant (around v) (state v) o (refused_constant a) (state w) × (around w ≡ around v) };
}

/// Validates the operators of a constant to the end of the bytes, and asks that every frame has ended then.
///
/// # Errors
///
/// The bytes spell no expression; an operator is not constant, or is refused by the validator, at its offset; a frame is
/// still open at the end; or there is no memory.
pub(crate) fn validate_constant_operators<'a, V: ValidatingConstants<'a>>(
    alloc: Global,
    reader: BinaryReader<'a>,
    visitor: &mut V,
) -> Result<()>
    requires going { (V.state visitor.old).failed ≡ false }
    ensures { ValidatesConstant (V.around visitor.old) (V.state visitor.old) reader.entry result }
{
    let whole = reader.remaining_range();
    let end = match tell_whole_with_offset(alloc, reader, visitor) {
        Ok(end) => end,
        Err(error) => return Err(error),
    };
    if let Err(last) = end {
        let refusal = last.0.error(last.1);
        return Err(refusal);
    }
    if !visitor.is_done() {
        let unfinished = frames_remain(whole.end);
        return Err(unfinished);
    }
    Ok(())
}

/// The refusal of an expression behind which a frame is still open.
#[cold]
fn frames_remain(offset: u64) -> Error
    ensures kind { result.kind ≡ Other }
    ensures at { result.offset ≡ offset }
{
    Error::new(
        Words::ControlFramesRemainAtEndOfFunctionBodyOrExpression,
        offset,
    )
}
