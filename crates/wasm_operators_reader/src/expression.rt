//! Expressions as lists of operators.

ghost use Rattle.std.specs.Prelude.{◌≡◌, List, [], map, IfOk, IfErr};
ghost use Rattle.wasm_types.specs.reader.Reading.{IsNotMemory, NeedsNoMemory};
ghost use Rattle.wasm_operators_enums.specs.Op.{Op, op_of};
ghost use Rattle.wasm_operators_encoding.specs.expressions.Code.{Code, walk};
ghost use Rattle.wasm_operators_encoding.specs.expressions.Spelling.{SpelledExpression};
ghost use Rattle.wasm_operators_reader.specs.Standing.{at_start, Refuses, Runs, StopsAfter, TakesMemory};

use crate::OperatorsReader;
use std::alloc::Global;
use wasm_operators_encoding::expressions::Operator;
use wasm_types::{BinaryReader, Result};

/// Reads an expression, which all bytes of the reader spell.
///
/// # Errors
///
/// The bytes spell no expression, or there is no memory. Operators are read in order, and the first that is refused gives kind
/// and offset; where the bytes end while a frame is open, that is refused at their end.
pub fn read_expression<'a>(alloc: Global, reader: BinaryReader<'a>) -> Result<Vec<Operator<'a>>>
    ensures spelled { IfOk result (λ ops. (c : Code) × (walk c ≡ map op_of ops.items)
        × SpelledExpression reader.entry.settings c reader.entry.rest) }
    ensures refused { IfErr result (λ e. IsNotMemory e.kind → (c : Code)
        → SpelledExpression reader.entry.settings c reader.entry.rest → ⊥) }
    ensures stops { IfErr result (λ e. IsNotMemory e.kind → StopsAfter (at_start reader.entry) e) }
    ensures no_memory { (TakesMemory (at_start reader.entry) → ⊥) → NeedsNoMemory result }
{
    let mut operators = OperatorsReader::new(alloc, reader);
    let ops = read_all(alloc, &mut operators)?;
    operators.finish()?;
    Ok(ops)
}

// Reads operators until no byte is left.
fn read_all<'a>(alloc: Global, operators: &mut OperatorsReader<'a>) -> Result<Vec<Operator<'a>>>
    ensures read { IfOk result (λ ops. Runs operators.old (map op_of ops.items) operators.new
        × (operators.new.bytes.rest ≡ [])) }
    ensures refused { IfErr result (λ e. IsNotMemory e.kind → ((os : List Op) × Runs operators.old os operators.new)
        × Refuses operators.new e × (operators.new.bytes.rest ≡ [] → ⊥)) }
    ensures no_memory { (TakesMemory operators.old → ⊥) → NeedsNoMemory result }
{
    let mut ops = Vec::new(alloc);
    while !operators.eof() {
        let op = operators.read()?;
        ops.push(op)?;
    }
    Ok(ops)
}
