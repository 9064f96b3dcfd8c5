//! Structures, arrays, and references to numbers of 31 bits.

ghost use Rattle.std.specs.Prelude.{◌≡◌, ◌∷◌, [], false, IfSome, IsTrue};
ghost use Rattle.wasm_types.specs.settings.Features.{CustomDescriptors, Gc, has};
ghost use Rattle.wasm_types.specs.trees.Gates.{Has};
ghost use Rattle.wasm_operators_immediates.specs.Immediates.{Count};
ghost use Rattle.wasm_operators_frequent.specs.Short.{Begins, BeginsPrefixed};
ghost use Rattle.wasm_module_validator_fast_constants.specs.Fields.{MakesObject, RefersToNumber};
ghost use Rattle.wasm_module_validator_fast_constants.specs.Steps.{Nexts};

use crate::fields::{
    are_defaultable, array_at, is_defaultable, struct_at, take, take_fields, take_same,
};
use crate::references::reference_to;
use crate::stack::{put, take_integer};
use wasm_operator_validator_state::WasmModuleResources;
use wasm_types::{AbstractHeapType, HeapType, RefType, ValType, WasmFeatures};
use wasm_types_decoding::short_u32_at;

// A structure of the values on top.
fn struct_new<R: WasmModuleResources>(index: u32, resources: &R, stack: &mut Vec<ValType>) -> bool
    ensures { IsTrue result → MakesObject (R.meaning resources.now) 0x00 index [] stack.old.items stack.new.items }
{
    let Some(fields) = struct_at(index, resources) else {
        return false;
    };
    take_fields(stack, fields, resources)
}

// A structure of default values.
fn struct_new_default<R: WasmModuleResources>(index: u32, resources: &R, stack: &[ValType]) -> bool
    ensures { IsTrue result → MakesObject (R.meaning resources.now) 0x01 index [] stack.now stack.now }
{
    let Some(fields) = struct_at(index, resources) else {
        return false;
    };
    let _stack = stack;
    are_defaultable(fields)
}

// An array of one value, and of a length.
fn array_new<R: WasmModuleResources>(index: u32, resources: &R, stack: &mut Vec<ValType>) -> bool
    ensures { IsTrue result → MakesObject (R.meaning resources.now) 0x06 index [] stack.old.items stack.new.items }
{
    let Some(element) = array_at(index, resources) else {
        return false;
    };
    if !take(stack, ValType::I32, resources) {
        return false;
    }
    take(stack, element.element_type.unpack(), resources)
}

// An array of default values, of a length.
fn array_new_default<R: WasmModuleResources>(
    index: u32,
    resources: &R,
    stack: &mut Vec<ValType>,
) -> bool
    ensures { IsTrue result → MakesObject (R.meaning resources.now) 0x07 index [] stack.old.items stack.new.items }
{
    let Some(element) = array_at(index, resources) else {
        return false;
    };
    if !is_defaultable(&element) {
        return false;
    }
    take(stack, ValType::I32, resources)
}

// An array of this many values on top.
fn array_new_fixed<R: WasmModuleResources>(
    index: u32,
    count: u32,
    resources: &R,
    stack: &mut Vec<ValType>,
) -> bool
    ensures { IsTrue result → MakesObject (R.meaning resources.now) 0x08 index (Count count ∷ []) stack.old.items
        stack.new.items }
{
    let Some(element) = array_at(index, resources) else {
        return false;
    };
    let ty = element.element_type.unpack();
    take_same(stack, &ty, count, resources)
}

// Takes the operands of which an object of the type at an index is made, by the code of its operator.
fn take_operands<R: WasmModuleResources>(
    code: u32,
    index: u32,
    resources: &R,
    stack: &mut Vec<ValType>,
) -> bool
    ensures { IsTrue result → MakesObject (R.meaning resources.now) code index [] stack.old.items stack.new.items }
{
    match code {
        0x00 => struct_new(index, resources, stack),
        0x01 => struct_new_default(index, resources, stack.as_slice()),
        0x06 => array_new(index, resources, stack),
        0x07 => array_new_default(index, resources, stack),
        _ => false,
    }
}

// The operands of an object are taken, and the reference to it is put on top.
fn one_object<R: WasmModuleResources>(
    bytes: &[u8],
    at: usize,
    code: u32,
    middle: usize,
    resources: &R,
    features: &WasmFeatures,
    stack: &mut Vec<ValType>,
) -> Option<usize>
    requires begins { BeginsPrefixed bytes.now at 0xfb code middle }
    requires allowed { Has features.now.0 Gc }
    requires described { has CustomDescriptors features.now.0 ≡ false }
    ensures { IfSome result (λ j. Nexts features.now.0 (R.meaning resources.now) bytes.now at stack.old.items j stack.new.items) }
{
    let Some((index, end)) = short_u32_at(bytes, middle) else {
        return None;
    };
    if !take_operands(code, index, resources, stack) {
        return None;
    }
    let Some(reference) = reference_to(index, false, resources) else {
        return None;
    };
    if !put(stack, ValType::Ref(reference)) {
        return None;
    }
    Some(end)
}

// The same of an array whose bytes say how many values there are.
fn counted_array<R: WasmModuleResources>(
    bytes: &[u8],
    at: usize,
    middle: usize,
    resources: &R,
    features: &WasmFeatures,
    stack: &mut Vec<ValType>,
) -> Option<usize>
    requires begins { BeginsPrefixed bytes.now at 0xfb 0x08 middle }
    requires allowed { Has features.now.0 Gc }
    requires described { has CustomDescriptors features.now.0 ≡ false }
    ensures { IfSome result (λ j. Nexts features.now.0 (R.meaning resources.now) bytes.now at stack.old.items j stack.new.items) }
{
    let Some((index, last)) = short_u32_at(bytes, middle) else {
        return None;
    };
    let Some((count, end)) = short_u32_at(bytes, last) else {
        return None;
    };
    if !array_new_fixed(index, count, resources, stack) {
        return None;
    }
    let Some(reference) = reference_to(index, false, resources) else {
        return None;
    };
    if !put(stack, ValType::Ref(reference)) {
        return None;
    }
    Some(end)
}

// Puts the reference to a number of 31 bits in the place of the number.
fn refer_to_number(stack: &mut Vec<ValType>) -> bool
    ensures { IsTrue result → RefersToNumber stack.old.items stack.new.items }
{
    if !take_integer(stack, false) {
        return false;
    }
    let number = HeapType::Abstract {
        shared: false,
        ty: AbstractHeapType::I31,
    };
    let Some(reference) = RefType::new(false, number) else {
        return false;
    };
    put(stack, ValType::Ref(reference))
}

/// A new structure or array, or the reference to a number of 31 bits.
pub(crate) fn object<R: WasmModuleResources>(
    bytes: &[u8],
    at: usize,
    resources: &R,
    features: &WasmFeatures,
    stack: &mut Vec<ValType>,
) -> Option<usize>
    requires { Begins bytes.now at 0xfb }
    ensures { IfSome result (λ j. Nexts features.now.0 (R.meaning resources.now) bytes.now at stack.old.items j stack.new.items) }
{
    if !features.gc() {
        return None;
    }
    let Some((code, middle)) = short_u32_at(bytes, at + 1) else {
        return None;
    };
    if code == 0x1c {
        if !refer_to_number(stack) {
            return None;
        }
        return Some(middle);
    }
    if features.custom_descriptors() {
        return None;
    }
    if code == 0x08 {
        return counted_array(bytes, at, middle, resources, features, stack);
    }
    one_object(bytes, at, code, middle, resources, features, stack)
}
