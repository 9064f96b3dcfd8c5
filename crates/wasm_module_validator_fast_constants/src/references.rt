//! Globals and nulls.

ghost use Rattle.std.specs.Prelude.{IfSome};
ghost use Rattle.wasm_types.specs.settings.Features.{GcTypes, ReferenceTypes};
ghost use Rattle.wasm_types.specs.trees.Gates.{Has};
ghost use Rattle.wasm_operators_frequent.specs.Short.{Begins};
ghost use Rattle.wasm_module_validator_fast_constants.specs.Steps.{IsNullByte, Nexts, RefersTo};

use crate::stack::put;
use wasm_operator_validator_state::WasmModuleResources;
use wasm_types::{AbstractHeapType, HeapType, RefType, UnpackedIndex, ValType, WasmFeatures};
use wasm_types_decoding::{short_s33_at, short_u32_at};

/// A global that is never written.
pub(crate) fn global<R: WasmModuleResources>(
    bytes: &[u8],
    at: usize,
    resources: &R,
    features: &WasmFeatures,
    stack: &mut Vec<ValType>,
) -> Option<usize>
    requires { Begins bytes.now at 0x23 }
    ensures { IfSome result (λ j. Nexts features.now.0 (R.meaning resources.now) bytes.now at stack.old.items j stack.new.items) }
{
    if !features.gc() {
        return None;
    }
    let Some((index, end)) = short_u32_at(bytes, at + 1) else {
        return None;
    };
    let Some(global) = resources.global_at(index) else {
        return None;
    };
    if global.mutable {
        return None;
    }
    if !put(stack, global.content_type) {
        return None;
    }
    Some(end)
}

// The abstract heap type of a byte, if a null of it may be written under these features. Of types of continuations nothing is said.
fn null_type(byte: u8, features: &WasmFeatures) -> Option<AbstractHeapType>
    ensures { IfSome result (IsNullByte features.now.0 byte) }
{
    if byte == 0x70 {
        return Some(AbstractHeapType::Func);
    }
    if !features.gc_types() {
        return None;
    }
    if byte == 0x6f {
        return Some(AbstractHeapType::Extern);
    }
    if byte == 0x69 || byte == 0x74 {
        return exception_type(byte, features);
    }
    if !features.gc() {
        return None;
    }
    match byte {
        0x6a => Some(AbstractHeapType::Array),
        0x6b => Some(AbstractHeapType::Struct),
        0x6c => Some(AbstractHeapType::I31),
        0x6d => Some(AbstractHeapType::Eq),
        0x6e => Some(AbstractHeapType::Any),
        0x71 => Some(AbstractHeapType::None),
        0x72 => Some(AbstractHeapType::NoExtern),
        0x73 => Some(AbstractHeapType::NoFunc),
        _ => None,
    }
}

// The same of the types of exceptions.
fn exception_type(byte: u8, features: &WasmFeatures) -> Option<AbstractHeapType>
    requires traced { Has features.now.0 GcTypes }
    ensures { IfSome result (IsNullByte features.now.0 byte) }
{
    if !features.exceptions() {
        return None;
    }
    match byte {
        0x69 => Some(AbstractHeapType::Exn),
        0x74 => Some(AbstractHeapType::NoExn),
        _ => None,
    }
}

/// A reference to the type at an index of the module, by its id.
pub(crate) fn reference_to<R: WasmModuleResources>(
    index: u32,
    nullable: bool,
    resources: &R,
) -> Option<RefType>
    ensures { IfSome result (RefersTo (R.meaning resources.now) index nullable) }
{
    let mut named = HeapType::Concrete(UnpackedIndex::Module(index));
    let Ok(()) = resources.check_heap_type(&mut named, 0) else {
        return None;
    };
    let Some(reference) = RefType::new(nullable, named) else {
        return None;
    };
    Some(reference)
}

// A null of the type at an index.
fn typed_null<R: WasmModuleResources>(
    bytes: &[u8],
    at: usize,
    resources: &R,
    features: &WasmFeatures,
    stack: &mut Vec<ValType>,
) -> Option<usize>
    requires begins { Begins bytes.now at 0xd0 }
    requires allowed { Has features.now.0 ReferenceTypes }
    ensures { IfSome result (λ j. Nexts features.now.0 (R.meaning resources.now) bytes.now at stack.old.items j stack.new.items) }
{
    if !features.gc() {
        return None;
    }
    let Some((number, end)) = short_s33_at(bytes, at + 1) else {
        return None;
    };
    let Ok(index) = u32::try_from(number) else {
        return None;
    };
    if index >= 0x10_0000 {
        return None;
    }
    let Some(reference) = reference_to(index, true, resources) else {
        return None;
    };
    if !put(stack, ValType::Ref(reference)) {
        return None;
    }
    Some(end)
}

/// A null of an abstract type, or of a type of the module.
pub(crate) fn null<R: WasmModuleResources>(
    bytes: &[u8],
    at: usize,
    resources: &R,
    features: &WasmFeatures,
    stack: &mut Vec<ValType>,
) -> Option<usize>
    requires { Begins bytes.now at 0xd0 }
    ensures { IfSome result (λ j. Nexts features.now.0 (R.meaning resources.now) bytes.now at stack.old.items j stack.new.items) }
{
    if at + 1 >= bytes.len() {
        return None;
    }
    if !features.reference_types() {
        return None;
    }
    let Some(ty) = null_type(bytes[at + 1], features) else {
        return typed_null(bytes, at, resources, features, stack);
    };
    let heap_type = HeapType::Abstract { shared: false, ty };
    let Some(reference) = RefType::new(true, heap_type) else {
        return None;
    };
    if !put(stack, ValType::Ref(reference)) {
        return None;
    }
    Some(at + 2)
}
