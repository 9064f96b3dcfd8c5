//! The functions that an expression makes references to.

ghost use Rattle.std.specs.Prelude.{◌≡◌, ◌++◌, [], IfOk, IfErr};
ghost use Rattle.wasm_types.specs.reader.Reading.{IsNotMemory};
ghost use Rattle.wasm_operators_enums.specs.Op.{Op, op_of};
ghost use Rattle.wasm_operators_encoding.specs.expressions.Code.{Code};
ghost use Rattle.wasm_operators_encoding.specs.expressions.Spelling.{SpelledExpression};
ghost use Rattle.wasm_operators_reader.specs.Standing.{Reads, Refuses};
ghost use Rattle.wasm_module_validator_rules_in_order.specs.rules.Spaces.{referred_by};
ghost use Rattle.wasm_module_validator_resources.specs.referring.Naming.{listed, NamesMore};
ghost use Rattle.wasm_module_validator_resources.specs.referring.NamingLaws.{HasNamed};

use std::alloc::Global;
use wasm_operators_reader::{BulkOperator, Operator, OperatorsReader};
use wasm_types::{BinaryReader, Result};

/// Puts the functions that an expression makes references to behind `names`, in their order. The bytes of `reader` are those of the
/// expression.
///
/// # Errors
///
/// The bytes spell no expression, or there is no memory. Some names may be there then.
pub fn name_references(alloc: Global, reader: BinaryReader<'_>, names: &mut Vec<u32>) -> Result<()>
    ensures named { IfOk result (λ _. NamesMore reader.entry.settings reader.entry.rest names.old.items
        names.new.items) }
    ensures refused { IfErr result (λ e. IsNotMemory e.kind → (c : Code)
        → SpelledExpression reader.entry.settings c reader.entry.rest → ⊥) }
{
    let mut operators = OperatorsReader::new(alloc, reader);
    match name_all(&mut operators, names) {
        Ok(()) => (),
        Err(error) => return Err(error),
    }
    match operators.finish() {
        Ok(()) => (),
        Err(error) => return Err(error),
    }
    Ok(())
}

// Names what the operators to the end of the bytes refer to.
fn name_all(operators: &mut OperatorsReader<'_>, names: &mut Vec<u32>) -> Result<()>
    ensures read { IfOk result (λ _. HasNamed operators.old names.old.items operators.new names.new.items
        × (operators.new.bytes.rest ≡ [])) }
    ensures refused { IfErr result (λ e. IsNotMemory e.kind → HasNamed operators.old names.old.items operators.new
        names.new.items × Refuses operators.new e × (operators.new.bytes.rest ≡ [] → ⊥)) }
{
    while !operators.eof() {
        let found = match read_reference(operators) {
            Ok(found) => found,
            Err(error) => return Err(error),
        };
        match name_found(found, names) {
            Ok(()) => (),
            Err(error) => return Err(error),
        }
    }
    Ok(())
}

// One name more, if there is one.
fn name_found(found: Option<u32>, names: &mut Vec<u32>) -> Result<()>
    ensures named { IfOk result (λ _. names.new.items ≡ names.old.items ++ listed found) }
    ensures refused { IfErr result (λ e. IsNotMemory e.kind → ⊥) }
{
    match found {
        Some(index) => {
            names.push(index)?;
            Ok(())
        }
        None => Ok(()),
    }
}

// Reads the next operator, and tells which function it refers to.
fn read_reference(operators: &mut OperatorsReader<'_>) -> Result<Option<u32>>
    ensures read { IfOk result (λ x. (o : Op) × Reads operators.old o operators.new × (referred_by o ≡ listed x)) }
    ensures refused { IfErr result (λ e. Refuses operators.old e × (operators.new ≡ operators.old)) }
{
    let op = match operators.read() {
        Ok(op) => op,
        Err(error) => return Err(error),
    };
    Ok(referred(&op))
}

// The function that an operator makes a reference to.
fn referred(op: &Operator<'_>) -> Option<u32>
    ensures { referred_by (op_of op.now) ≡ listed result }
{
    match op {
        Operator::Bulk(op) => referred_bulk(op),
        Operator::Control(_) | Operator::Parametric(_) | Operator::Exception(_) => None,
        Operator::Const(_) | Operator::Numeric(_) | Operator::Memory(_) => None,
        Operator::Gc(_) | Operator::Descriptor(_) => None,
        Operator::Simd(_) | Operator::SimdNumeric(_) => None,
        Operator::Atomic(_) | Operator::Shared(_) | Operator::Continuation(_) => None,
    }
}

fn referred_bulk(op: &BulkOperator) -> Option<u32>
    ensures { referred_by (Op.Bulk op.now) ≡ listed result }
{
    match op {
        BulkOperator::RefFunc { function_index } => Some(*function_index),
        _ => None,
    }
}
