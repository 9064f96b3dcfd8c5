//! The fields of structures, the elements of arrays, and operands for them.

ghost use Rattle.std.specs.Prelude.{◌≡◌, ◌∷◌, [], IsTrue, IfSome, is_some, option_map, replicate};
ghost use Rattle.wasm_operator_validator_state.specs.resources.Meaning.{type_in};
ghost use Rattle.wasm_module_validator_fast_constants.specs.Fields.{are_defaultable, array_element, field_types, is_defaultable_field, IsArray, IsStruct, struct_fields};
ghost use Rattle.wasm_module_validator_fast_constants.specs.Steps.{MayTake, tops};

use wasm_operator_validator_state::WasmModuleResources;
use wasm_types::{CompositeInnerType, FieldType, SubType, ValType};

// The fields of a type, if it is a structure.
fn fields_of(sub_type: &SubType) -> Option<&[FieldType]>
    ensures { option_map (λ f. f.now) result ≡ struct_fields sub_type.now.composite_type.inner }
{
    match &sub_type.composite_type.inner {
        CompositeInnerType::Struct(fields) => Some(fields.fields.as_slice()),
        CompositeInnerType::Array(_) => None,
        CompositeInnerType::Func(_) => None,
        CompositeInnerType::Cont(_) => None,
    }
}

// The element of a type, if it is an array.
fn element_of(sub_type: &SubType) -> Option<FieldType>
    ensures { result ≡ array_element sub_type.now.composite_type.inner }
{
    match &sub_type.composite_type.inner {
        CompositeInnerType::Array(array) => Some(array.0),
        CompositeInnerType::Struct(_) => None,
        CompositeInnerType::Func(_) => None,
        CompositeInnerType::Cont(_) => None,
    }
}

// Whether a type has a descriptor.
fn has_descriptor(sub_type: &SubType) -> bool
    ensures { result ≡ is_some sub_type.now.composite_type.descriptor_idx }
{
    match sub_type.composite_type.descriptor_idx {
        Some(_) => true,
        None => false,
    }
}

/// The fields of the structure at an index, if it has no descriptor.
pub(crate) fn struct_at<'a, R: WasmModuleResources>(
    index: u32,
    resources: &'a R,
) -> Option<&'a [FieldType]>
    ensures { IfSome result (λ f. IsStruct (R.meaning resources.now) index f.now) }
{
    let Some(sub_type) = resources.sub_type_at(index) else {
        return None;
    };
    if has_descriptor(sub_type) {
        return None;
    }
    let Some(fields) = fields_of(sub_type) else {
        return None;
    };
    Some(fields)
}

/// The element of the array at an index.
pub(crate) fn array_at<R: WasmModuleResources>(index: u32, resources: &R) -> Option<FieldType>
    ensures { IfSome result (IsArray (R.meaning resources.now) index) }
{
    let Some(sub_type) = resources.sub_type_at(index) else {
        return None;
    };
    let Some(element) = element_of(sub_type) else {
        return None;
    };
    Some(element)
}

/// Whether a field has a default value.
pub(crate) fn is_defaultable(field: &FieldType) -> bool
    ensures { result ≡ is_defaultable_field field.now }
{
    let unpacked = field.element_type.unpack();
    unpacked.is_defaultable()
}

/// Whether each of them has a default value.
pub(crate) fn are_defaultable(fields: &[FieldType]) -> bool
    ensures { result ≡ are_defaultable fields.now }
{
    let mut left = fields;
    while let Some((first, rest)) = left.split_first() {
        left = rest;
        if !is_defaultable(first) {
            return false;
        }
    }
    true
}

/// Takes an operand off that may be taken for one of this type.
#[inline(always)]
pub(crate) fn take<R: WasmModuleResources>(
    stack: &mut Vec<ValType>,
    ty: ValType,
    resources: &R,
) -> bool
    ensures { IsTrue result → MayTake (tops (R.meaning resources.now) stack.old.items)
        (type_in (R.meaning resources.now) ty ∷ []) (tops (R.meaning resources.now) stack.new.items) }
{
    match stack.pop() {
        None => false,
        Some(top) => resources.is_subtype(top, ty),
    }
}

/// Takes an operand off for each field, the last first.
pub(crate) fn take_fields<R: WasmModuleResources>(
    stack: &mut Vec<ValType>,
    fields: &[FieldType],
    resources: &R,
) -> bool
    ensures { IsTrue result → MayTake (tops (R.meaning resources.now) stack.old.items)
        (field_types (R.meaning resources.now) fields.now) (tops (R.meaning resources.now) stack.new.items) }
{
    let mut left = fields;
    while let Some((last, rest)) = left.split_last() {
        left = rest;
        if !take(stack, last.element_type.unpack(), resources) {
            return false;
        }
    }
    true
}

/// Takes this many operands of one type off.
pub(crate) fn take_same<R: WasmModuleResources>(
    stack: &mut Vec<ValType>,
    ty: &ValType,
    count: u32,
    resources: &R,
) -> bool
    ensures { IsTrue result → MayTake (tops (R.meaning resources.now) stack.old.items)
        (replicate count (type_in (R.meaning resources.now) ty.now)) (tops (R.meaning resources.now) stack.new.items) }
{
    let mut passed = 0;
    while passed < count {
        if !take(stack, *ty, resources) {
            return false;
        }
        passed += 1;
    }
    true
}
