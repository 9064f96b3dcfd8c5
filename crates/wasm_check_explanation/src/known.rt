//! What a module and the open frames of a body tell of types.

use wasm_module_validator::{FuncValidator, ValidatorResources};
use wasm_operator_validator::{BlockType, WasmModuleResources};
use wasm_operator_validator_state::blocks::{
    block_params, block_results, function_at, label_types,
};
use wasm_types::{
    CompositeInnerType, FieldType, FuncType, PackedIndex, RefType, StorageType, ValType,
};

/// What a branch to this label takes.
pub(crate) fn label_at(
    validator: &FuncValidator<ValidatorResources>,
    depth: u32,
) -> Option<&[ValType]> {
    let frame = validator.get_control_frame(depth as usize)?;
    Some(label_types(validator.resources(), &frame.block_type, frame.kind))
}

/// What the frame of this label gives.
pub(crate) fn results_at(
    validator: &FuncValidator<ValidatorResources>,
    depth: u32,
) -> Option<&[ValType]> {
    let frame = validator.get_control_frame(depth as usize)?;
    Some(block_results(validator.resources(), &frame.block_type))
}

/// What the frame of this label takes.
pub(crate) fn params_at(
    validator: &FuncValidator<ValidatorResources>,
    depth: u32,
) -> Option<&[ValType]> {
    let frame = validator.get_control_frame(depth as usize)?;
    Some(block_params(validator.resources(), &frame.block_type))
}

/// What the function gives.
pub(crate) fn outermost_results(
    validator: &FuncValidator<ValidatorResources>,
) -> Option<&[ValType]> {
    let depth = validator.control_stack_height().checked_sub(1)?;
    results_at(validator, depth)
}

/// What functions of the type at an index take.
pub(crate) fn params_of_type(
    validator: &FuncValidator<ValidatorResources>,
    type_index: u32,
) -> Option<&[ValType]> {
    let function = function_at(validator.resources(), type_index)?;
    Some(function.params())
}

/// What functions of the type at an index give.
pub(crate) fn results_of_type(
    validator: &FuncValidator<ValidatorResources>,
    type_index: u32,
) -> Option<&[ValType]> {
    let function = function_at(validator.resources(), type_index)?;
    Some(function.results())
}

/// What a block of this type takes.
pub(crate) fn params_of_block(
    validator: &FuncValidator<ValidatorResources>,
    block_type: BlockType,
) -> Option<&[ValType]> {
    match block_type {
        BlockType::Empty => Some(&[]),
        BlockType::Val(_) => Some(&[]),
        BlockType::FuncType(type_index) => params_of_type(validator, type_index),
    }
}

/// The type of the function at an index.
pub(crate) fn type_of_function(
    validator: &FuncValidator<ValidatorResources>,
    function_index: u32,
) -> Option<&FuncType> {
    let type_index = validator
        .resources()
        .type_index_of_function(function_index)?;
    function_at(validator.resources(), type_index)
}

/// What the tag at an index carries.
pub(crate) fn carried_by(
    validator: &FuncValidator<ValidatorResources>,
    tag_index: u32,
) -> Option<&[ValType]> {
    let tag = validator.resources().tag_at(tag_index)?;
    Some(tag.params())
}

/// The type of an index or address of 64 bits, or of 32.
fn index_type(has_64_bits: bool) -> ValType {
    if has_64_bits {
        return ValType::I64;
    }
    ValType::I32
}

/// The type of an index into a table.
pub(crate) fn place_in(
    validator: &FuncValidator<ValidatorResources>,
    table_index: u32,
) -> Option<ValType> {
    let table = validator.resources().table_at(table_index)?;
    Some(index_type(table.table64))
}

/// The type of what a table has.
pub(crate) fn element_of(
    validator: &FuncValidator<ValidatorResources>,
    table_index: u32,
) -> Option<ValType> {
    let table = validator.resources().table_at(table_index)?;
    Some(ValType::Ref(table.element_type))
}

/// The type of an address in a memory.
pub(crate) fn address_in(
    validator: &FuncValidator<ValidatorResources>,
    memory_index: u32,
) -> Option<ValType> {
    let memory = validator.resources().memory_at(memory_index)?;
    Some(index_type(memory.memory64))
}

/// The type of a length within two tables.
pub(crate) fn length_in_tables(
    validator: &FuncValidator<ValidatorResources>,
    first_index: u32,
    second_index: u32,
) -> Option<ValType> {
    let first = validator.resources().table_at(first_index)?;
    let second = validator.resources().table_at(second_index)?;
    Some(index_type(first.table64 && second.table64))
}

/// The type of a length within two memories.
pub(crate) fn length_in_memories(
    validator: &FuncValidator<ValidatorResources>,
    first_index: u32,
    second_index: u32,
) -> Option<ValType> {
    let first = validator.resources().memory_at(first_index)?;
    let second = validator.resources().memory_at(second_index)?;
    Some(index_type(first.memory64 && second.memory64))
}

/// The type of a global.
pub(crate) fn global_at(
    validator: &FuncValidator<ValidatorResources>,
    global_index: u32,
) -> Option<ValType> {
    let global = validator.resources().global_at(global_index)?;
    Some(global.content_type)
}

/// A reference, maybe null, to the type at an index.
pub(crate) fn reference_to(type_index: u32) -> Option<ValType> {
    let index = PackedIndex::from_module_index(type_index)?;
    Some(ValType::Ref(RefType::concrete(true, index)))
}

/// What a field gives if it is read, or takes if it is written.
pub(crate) fn value_of(field: &FieldType) -> ValType {
    match field.element_type {
        StorageType::I8 => ValType::I32,
        StorageType::I16 => ValType::I32,
        StorageType::Val(ty) => ty,
    }
}

/// The composite type at an index.
fn inner_at(
    validator: &FuncValidator<ValidatorResources>,
    type_index: u32,
) -> Option<&CompositeInnerType> {
    let sub_type = validator.resources().sub_type_at(type_index)?;
    Some(&sub_type.composite_type.inner)
}

/// The fields of the struct type at an index.
pub(crate) fn fields_at(
    validator: &FuncValidator<ValidatorResources>,
    type_index: u32,
) -> Option<&[FieldType]> {
    match inner_at(validator, type_index)? {
        CompositeInnerType::Struct(structure) => Some(structure.fields.as_slice()),
        _ => None,
    }
}

/// What a field of the struct type at an index gives.
pub(crate) fn field_at(
    validator: &FuncValidator<ValidatorResources>,
    type_index: u32,
    field_index: u32,
) -> Option<ValType> {
    let fields = fields_at(validator, type_index)?;
    let field = fields.get(field_index as usize)?;
    Some(value_of(field))
}

/// What an element of the array type at an index gives.
pub(crate) fn item_of(
    validator: &FuncValidator<ValidatorResources>,
    type_index: u32,
) -> Option<ValType> {
    match inner_at(validator, type_index)? {
        CompositeInnerType::Array(array) => Some(value_of(&array.0)),
        _ => None,
    }
}
