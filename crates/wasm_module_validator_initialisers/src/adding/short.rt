//! Globals that their bytes alone tell.
//!
//! Most globals of a module are integers, each a number or the value of a global before it. [`add_short_global`] tells these with no reader at
//! all, and those of other types if one pass over the bytes judges their values; of all others it says nothing.

ghost use Rattle.std.specs.Prelude.{◌≡◌, ◌∷◌, ◌+◌, ◌≤◌, [], length, IsTrue, IfNone, IfSome};
ghost use Rattle.wasm_types.specs.settings.Features.{Gc, has};
ghost use Rattle.wasm_types.specs.externs.Spells.{bit};
ghost use Rattle.wasm_module_validator_resources.specs.Named.{IsReadOver};
ghost use Rattle.wasm_module_validator_resources.specs.rules_in_order.Between.{IsBetween};
ghost use Rattle.wasm_module_validator_state.specs.invariant.Standing.{constants_of};
ghost use Rattle.wasm_module_validator_initialisers.specs.adding.Short.{AddsGlobal, HoldsInteger, IsInteger, integer_byte, integer_global, integer_type};

use crate::adding::accepted::add_accepted_global;
use crate::elements::{ReferringToAll, WasmModuleResources};
use std::alloc::Global;
use wasm_module_validator_state::invariant::ModuleState;
use wasm_module_validator_type_list::TypeList;
use wasm_operators_bodies::{ShortConstant, short_constant};
use wasm_types::{GlobalType, ValType};

// Whether the integers whose type is this byte have 64 bits.
fn is_wide(byte: u8) -> Option<bool>
    ensures { IfSome result (λ wide. byte ≡ integer_byte wide) }
{
    match byte {
        0x7f => Some(false),
        0x7e => Some(true),
        _ => None,
    }
}

// Whether a global with this byte may be written, if it is not shared.
fn is_mutable(byte: u8) -> Option<bool>
    ensures { IfSome result (λ mutable. byte ≡ bit mutable) }
{
    match byte {
        0x00 => Some(false),
        0x01 => Some(true),
        _ => None,
    }
}

// The type at an offset, in two bytes: whether the global's integers have 64 bits, and whether it may be written.
fn type_at(bytes: &[u8], at: usize) -> Option<(bool, bool)>
    requires { at ≤ length bytes.now }
    ensures { IfSome result (λ r. IsBetween (λ t. t ≡ integer_byte r.0 ∷ bit r.1 ∷ []) bytes.now at (at + 2)) }
{
    if bytes.len() - at < 2 {
        return None;
    }
    let Some(wide) = is_wide(bytes[at]) else {
        return None;
    };
    let Some(mutable) = is_mutable(bytes[at + 1]) else {
        return None;
    };
    Some((wide, mutable))
}

// The type of a global of integers.
fn integers(wide: bool, mutable: bool) -> GlobalType
    ensures { result ≡ integer_global wide mutable }
{
    let content_type = if wide { ValType::I64 } else { ValType::I32 };
    GlobalType {
        content_type,
        mutable,
        shared: false,
    }
}

// Whether this is the type of such integers.
fn is_of(ty: &ValType, wide: bool) -> bool
    ensures { IsTrue result → ty.now ≡ integer_type wide }
{
    match ty {
        ValType::I32 => !wide,
        ValType::I64 => wide,
        _ => false,
    }
}

// Whether the global at an index is never written, and is such an integer.
fn holds_integer<R: WasmModuleResources>(resources: &R, wide: bool, index: u32) -> bool
    ensures { IsTrue result → HoldsInteger (R.meaning resources.now).«module» wide index }
{
    let Some(global) = resources.global_at(index) else {
        return false;
    };
    if global.mutable {
        return false;
    }
    is_of(&global.content_type, wide)
}

// Whether a constant is such an integer.
fn is_integer<R: WasmModuleResources>(
    resources: &R,
    gc: bool,
    wide: bool,
    constant: ShortConstant,
) -> bool
    ensures { IsTrue result → IsInteger gc (R.meaning resources.now).«module» wide constant }
{
    match constant {
        ShortConstant::I32 => !wide,
        ShortConstant::I64 => wide,
        ShortConstant::Global(index) => gc && holds_integer(resources, wide, index),
        _ => false,
    }
}

// The same in the module that is being read.
fn is_integer_here(
    state: &ModuleState,
    types: &TypeList,
    wide: bool,
    constant: ShortConstant,
) -> bool
    requires { IsReadOver types.now.groups state.now.spaces }
    ensures { IsTrue result → IsInteger (has Gc state.now.spaces.settings.features)
        (constants_of types.now.groups state.now.spaces).«module» wide constant }
{
    let gc = state.settings().features().gc();
    let module = state.resources(types);
    is_integer(&ReferringToAll::new(&module), gc, wide, constant)
}

// Adds the global at an offset of these bytes, if it may be added and is an integer, and its value a number or a global before it.
fn add_integer(state: &mut ModuleState, types: &TypeList, bytes: &[u8], at: usize) -> Option<usize>
    requires over { IsReadOver types.now.groups state.old.spaces }
    requires inside { at ≤ length bytes.now }
    ensures added { IfSome result (AddsGlobal types.now.groups state.old state.new bytes.now at) }
    ensures over { IsReadOver types.now.groups state.new.spaces }
    ensures settings { state.new.spaces.settings ≡ state.old.spaces.settings }
    ensures types { state.new.spaces.types ≡ state.old.spaces.types }
    ensures stays { IfNone result (state.new ≡ state.old) }
{
    let Some((wide, mutable)) = type_at(bytes, at) else {
        return None;
    };
    let Some((constant, long)) = short_constant(&bytes[at + 2..]) else {
        return None;
    };
    if !is_integer_here(state, types, wide, constant) {
        return None;
    }
    match state.push_global(integers(wide, mutable), 0) {
        Ok(()) => Some(at + 2 + long),
        Err(error) => {
            state.note(&error);
            None
        }
    }
}

/// Adds the global at an offset of these bytes, if the bytes alone tell that it may be added, and answers where it ends (WebAssembly 3.0,
/// validation, modules, globals). Else the state stays.
pub fn add_short_global(
    alloc: Global,
    state: &mut ModuleState,
    types: &TypeList,
    bytes: &[u8],
    at: usize,
) -> Option<usize>
    requires over { IsReadOver types.now.groups state.old.spaces }
    requires inside { at ≤ length bytes.now }
    ensures added { IfSome result (AddsGlobal types.now.groups state.old state.new bytes.now at) }
    ensures over { IsReadOver types.now.groups state.new.spaces }
    ensures settings { state.new.spaces.settings ≡ state.old.spaces.settings }
    ensures types { state.new.spaces.types ≡ state.old.spaces.types }
    ensures stays { IfNone result (state.new ≡ state.old) }
{
    if let Some(end) = add_integer(state, types, bytes, at) {
        return Some(end);
    }
    if state.lacks_memory() {
        return None;
    }
    add_accepted_global(alloc, state, types, bytes, at)
}
