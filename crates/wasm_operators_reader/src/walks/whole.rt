//! Expressions whose operators a visitor is told of as they are read, those on vectors too.

ghost use Rattle.std.specs.Prelude.{◌≡◌, [], true, Ok, Err, IfOk, IfErr};
ghost use Rattle.wasm_types.specs.reader.Reading.{IsNotMemory};
ghost use Rattle.wasm_operators_encoding.specs.expressions.Code.{Code, walk};
ghost use Rattle.wasm_operators_encoding.specs.expressions.Spelling.{SpelledExpression};
ghost use Rattle.wasm_operators_reader.specs.Standing.{Standing, at_start};
ghost use Rattle.wasm_operators_reader.specs.Visiting.{Visits};
ghost use Rattle.wasm_operators_reader.specs.Walking.{VisitsAll};
ghost use Rattle.wasm_operators_reader.specs.walks.Whole.{TellsTo, TellsUntilAt, Stops};

use crate::visiting::told_of;
use crate::walks::telling::{TellSimdOperator, tell_operator_simd};
use crate::{OperatorsReader, TellOperator};
use std::alloc::Global;
use wasm_types::{BinaryReader, Result};

/// Tells a visitor of all operators of an expression in their order, to the end of the bytes, and of several at once that open and close no
/// frame. The visitor answers whether to go on: the walk ends with its first `Err`, which is given back with the offset of that operator.
/// Where it answers none, it was told of the whole expression, which all bytes of the reader spell.
///
/// # Errors
///
/// The bytes spell no expression, or there is no memory; the visitor was told of the operators before the one that is refused. If the
/// features refuse that one by its first byte, it is refused there, whatever follows.
#[tactic(none)]
pub fn tell_whole_with_offset<'a, E: Drop, V>(
    alloc: Global,
    reader: BinaryReader<'a>,
    visitor: &mut V,
) -> Result<std::result::Result<(), (E, u64)>>
where
    V: TellOperator<'a, Output = std::result::Result<(), E>> + TellSimdOperator<'a>,
    ensures whole { IfOk result (λ end. IfOk end (λ _. (c : Code)
        × SpelledExpression reader.entry.settings c reader.entry.rest
        × VisitsAll V.visits (Ok tt) visitor.old (walk c) visitor.new)) }
    ensures ended { IfOk result (λ end. IfErr end (λ x. TellsUntilAt V.visits (Ok tt)
        (at_start reader.entry) visitor.old (Err x.0) visitor.new x.1)) }
    ensures refused { IfErr result (λ e. IsNotMemory e.kind → (c : Code)
        → SpelledExpression reader.entry.settings c reader.entry.rest → ⊥) }
    ensures stops { IfErr result (λ e. (t : Standing) × TellsTo V.visits (Ok tt)
        (at_start reader.entry) visitor.old t visitor.new × Stops t e) }
{
    let mut operators = OperatorsReader::new(alloc, reader);
    let end = match tell_every(&mut operators, visitor) {
        Ok(end) => end,
        Err(error) => return Err(error),
    };
    if let Err(last) = end {
        return Ok(Err(last));
    }
    match operators.finish() {
        Ok(()) => Ok(Ok(())),
        Err(error) => Err(error),
    }
}

// Tells a visitor of operators until no byte is left, or it answers an `Err`, which is given back with the operator's offset.
fn tell_every<'a, E: Drop, V>(
    operators: &mut OperatorsReader<'a>,
    visitor: &mut V,
) -> Result<std::result::Result<(), (E, u64)>>
where
    V: TellOperator<'a, Output = std::result::Result<(), E>> + TellSimdOperator<'a>,
    ensures whole { IfOk result (λ end. IfOk end (λ _. TellsTo V.visits
        (Ok tt) operators.old visitor.old operators.new visitor.new × (operators.new.bytes.rest ≡ []))) }
    ensures ended { IfOk result (λ end. IfErr end (λ x. TellsUntilAt V.visits (Ok tt) operators.old visitor.old
        (Err x.0) visitor.new x.1)) }
    ensures refused { IfErr result (λ e. TellsTo V.visits (Ok tt) operators.old visitor.old operators.new visitor.new
        × Stops operators.new e) }
{
    while !operators.eof() {
        if let Some(ended) = operators.tell_run(visitor) {
            return Ok(Err(ended));
        }
        let at_end = operators.eof();
        if at_end {
            return Ok(Ok(()));
        }
        let place = operators.original_position();
        let answer = match tell_operator_simd(operators, visitor) {
            Ok(answer) => answer,
            Err(error) => return Err(told_of(operators, error)),
        };
        if let Err(last) = answer {
            return Ok(Err((last, place)));
        }
    }
    Ok(Ok(()))
}
