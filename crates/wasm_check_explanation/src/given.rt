//! The types of what an operator gives, as far as its names tell them.
//!
//! The functions add types as those of [`taken`](crate::taken) do.

use crate::known::{
    address_in, element_of, field_at, global_at, item_of, label_at, params_at, params_of_block,
    place_in, results_at, results_of_type, type_of_function,
};
use crate::numbers::{given_by, named_first};
use crate::taken::{add, add_all, add_times, loaded_from};
use std::alloc::AllocError;
use wasm_module_validator::{FuncValidator, ValidatorResources};
use wasm_operators_reader::{
    BulkOperator, ControlOperator, GcOperator, MemoryOperator, Operator, ParametricOperator,
};
use wasm_types::ValType;

/// What an operator of control gives.
fn of_control<'a>(
    validator: &'a FuncValidator<ValidatorResources>,
    op: &ControlOperator<'_>,
) -> Option<&'a [ValType]> {
    match op {
        ControlOperator::Block { blockty } => params_of_block(validator, *blockty),
        ControlOperator::Loop { blockty } => params_of_block(validator, *blockty),
        ControlOperator::If { blockty } => params_of_block(validator, *blockty),
        ControlOperator::Else => params_at(validator, 0),
        ControlOperator::End => results_at(validator, 0),
        ControlOperator::BrIf { relative_depth } => label_at(validator, *relative_depth),
        ControlOperator::Call { function_index } => {
            Some(type_of_function(validator, *function_index)?.results())
        }
        ControlOperator::CallIndirect { type_index, .. } => results_of_type(validator, *type_index),
        ControlOperator::CallRef { type_index } => results_of_type(validator, *type_index),
        _ => None,
    }
}

/// What an operator on variables or memories gives.
fn of_memory(
    validator: &FuncValidator<ValidatorResources>,
    op: &MemoryOperator,
) -> Option<ValType> {
    if loaded_from(op).is_some() {
        return named_first(op.info().name);
    }
    match op {
        MemoryOperator::LocalGet { local_index } => validator.get_local_type(*local_index),
        MemoryOperator::LocalTee { local_index } => validator.get_local_type(*local_index),
        MemoryOperator::GlobalGet { global_index } => global_at(validator, *global_index),
        MemoryOperator::MemorySize { mem } => address_in(validator, *mem),
        MemoryOperator::MemoryGrow { mem } => address_in(validator, *mem),
        _ => None,
    }
}

/// What an operator on tables or references gives.
fn of_table(validator: &FuncValidator<ValidatorResources>, op: &BulkOperator) -> Option<ValType> {
    match op {
        BulkOperator::TableGet { table } => element_of(validator, *table),
        BulkOperator::TableSize { table } => place_in(validator, *table),
        BulkOperator::TableGrow { table } => place_in(validator, *table),
        BulkOperator::RefIsNull => Some(ValType::I32),
        _ => None,
    }
}

/// What an operator on structs or arrays gives.
fn of_aggregate(validator: &FuncValidator<ValidatorResources>, op: &GcOperator) -> Option<ValType> {
    match op {
        GcOperator::StructGet {
            struct_type_index,
            field_index,
        } => field_at(validator, *struct_type_index, *field_index),
        GcOperator::StructGetS { .. } => Some(ValType::I32),
        GcOperator::StructGetU { .. } => Some(ValType::I32),
        GcOperator::ArrayGet { array_type_index } => item_of(validator, *array_type_index),
        GcOperator::ArrayGetS { .. } => Some(ValType::I32),
        GcOperator::ArrayGetU { .. } => Some(ValType::I32),
        GcOperator::ArrayLen => Some(ValType::I32),
        GcOperator::RefEq => Some(ValType::I32),
        _ => None,
    }
}

/// What an operator gives that is told its type.
fn of_parametric(op: &ParametricOperator) -> Option<ValType> {
    match op {
        ParametricOperator::TypedSelect { ty } => Some(*ty),
        _ => None,
    }
}

/// Adds what an operator gives, which gives so many operands.
pub(crate) fn add_given(
    validator: &FuncValidator<ValidatorResources>,
    operator: &Operator<'_>,
    gives: u32,
    types: &mut Vec<ValType>,
) -> Result<(), AllocError> {
    match operator {
        Operator::Control(op) => add_all(of_control(validator, op), types),
        Operator::Parametric(op) => add(of_parametric(op), types),
        Operator::Memory(op) => add(of_memory(validator, op), types),
        Operator::Const(op) => add(named_first(op.info().name), types),
        Operator::Numeric(op) => add_times(given_by(op.info().name), gives, types),
        Operator::Bulk(op) => add(of_table(validator, op), types),
        Operator::Gc(op) => add(of_aggregate(validator, op), types),
        _ => Ok(()),
    }
}
