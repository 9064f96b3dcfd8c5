//! What an operator takes and gives.

use crate::given::add_given;
use crate::taken::add_taken;
use crate::types::names_from_top;
use std::alloc::{AllocError, Global};
use wasm_check_places::Operands;
use wasm_module_validator::{FuncValidator, TypesRef, ValidatorResources};
use wasm_operator_validator::OperatorArity;
use wasm_operators_reader::Operator;
use wasm_types::ValType;

/// So many operands, of these types if there are as many.
fn operands(
    alloc: Global,
    types: &TypesRef<'_>,
    count: u32,
    list: &[ValType],
) -> Result<Operands, AllocError> {
    if list.len() != count as usize {
        return Ok(Operands { count, types: None });
    }
    let names = names_from_top(alloc, types, list)?;
    Ok(Operands {
        count,
        types: Some(names),
    })
}

/// The operands that an operator takes: so many.
fn taken(
    alloc: Global,
    types: &TypesRef<'_>,
    validator: &FuncValidator<ValidatorResources>,
    operator: &Operator<'_>,
    count: u32,
) -> Result<Operands, AllocError> {
    let mut list = Vec::new(alloc);
    add_taken(validator, operator, count, &mut list)?;
    operands(alloc, types, count, list.as_slice())
}

/// The operands that an operator gives: so many.
fn given(
    alloc: Global,
    types: &TypesRef<'_>,
    validator: &FuncValidator<ValidatorResources>,
    operator: &Operator<'_>,
    count: u32,
) -> Result<Operands, AllocError> {
    let mut list = Vec::new(alloc);
    add_given(validator, operator, count, &mut list)?;
    operands(alloc, types, count, list.as_slice())
}

/// What an operator takes and what it gives before this validator is told of it, if that is known.
pub(crate) fn operands_of(
    alloc: Global,
    types: &TypesRef<'_>,
    validator: &FuncValidator<ValidatorResources>,
    operator: &Operator<'_>,
) -> Result<(Option<Operands>, Option<Operands>), AllocError> {
    let Some((takes, gives)) = operator.operator_arity(validator) else {
        return Ok((None, None));
    };
    let takes = taken(alloc, types, validator, operator, takes)?;
    let gives = given(alloc, types, validator, operator, gives)?;
    Ok((Some(takes), Some(gives)))
}
