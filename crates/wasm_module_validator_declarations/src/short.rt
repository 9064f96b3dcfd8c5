//! Imports, exports and functions that their bytes alone tell.
//!
//! A reader makes a place for an error of each part of an item. Nearly all items are valid: they are read here at an offset of the bytes of
//! their section, and whatever is not as it should be is left to the readers, which name the fault.

ghost use Rattle.std.specs.Prelude.{◌≡◌, ◌<◌, ◌≤◌, length, IsTrue, IfSome, IfNone};
ghost use Rattle.wasm_types.specs.decoding.Text.{IsName};
ghost use Rattle.wasm_sections_items.specs.declared.imports.kind.ExternalKind.TheVariants.{Func};
ghost use Rattle.wasm_sections_items.specs.imports.Spells.{kind_byte};
ghost use Rattle.wasm_module_validator_state.specs.resources.Named.{IsReadOver};
ghost use Rattle.wasm_module_validator_section_order.specs.rules_in_order.Between.{IsBetween};
ghost use Rattle.wasm_module_validator_section_order.specs.rules_in_order.Sections as section;
ghost use Rattle.wasm_module_validator_state.specs.invariant.Standing.{IsAdded};
ghost use Rattle.wasm_module_validator_declarations.specs.Short.{AddsExport, AddsFunction, AddsImport, SpellsExport, is_exported};

use crate::exports::add_export_item;
use crate::own::add_function_item;
use std::str;
use wasm_module_validator_state::invariant::ModuleState;
use wasm_module_validator_type_list::TypeList;
use wasm_sections_items::imports::{Export, ExternalKind};
use wasm_types::Limits;
use wasm_types_decoding::short_u32_at;

// What stands for this byte.
#[inline(always)]
fn kind_of(byte: u8) -> Option<ExternalKind>
    ensures byte { IfSome result (λ k. byte ≡ kind_byte k) }
    ensures exported { IfSome result (λ k. IsTrue (is_exported k)) }
{
    match byte {
        0x00 => Some(ExternalKind::Func),
        0x01 => Some(ExternalKind::Table),
        0x02 => Some(ExternalKind::Memory),
        0x03 => Some(ExternalKind::Global),
        0x04 => Some(ExternalKind::Tag),
        _ => None,
    }
}

// Whether what is exported is a function.
#[inline(always)]
fn is_function(kind: ExternalKind) -> bool
    ensures { IsTrue result → kind ≡ Func }
{
    match kind {
        ExternalKind::Func => true,
        _ => false,
    }
}

// The name at an offset, and where it ends: before the end of the bytes.
#[inline(always)]
fn short_name_at<'a>(bytes: &'a [u8], at: usize, limits: &Limits) -> Option<(&'a str, usize)>
    requires { at ≤ length bytes.now }
    ensures name { IfSome result (λ r. IsBetween (IsName limits.now.string_bytes r.0.now) bytes.now at r.1) }
    ensures inside { IfSome result (λ r. r.1 < length bytes.now) }
{
    let Some((count, first)) = short_u32_at(bytes, at) else {
        return None;
    };
    let most = bytes.len() - first;
    if count > limits.string_bytes || count as usize >= most {
        return None;
    }
    let end = first + count as usize;
    let Ok(name) = str::from_utf8(&bytes[first..end]) else {
        return None;
    };
    Some((name, end))
}

// The export at an offset, and where it ends.
fn short_export_at<'a>(bytes: &'a [u8], at: usize, limits: &Limits) -> Option<(Export<'a>, usize)>
    requires { at ≤ length bytes.now }
    ensures { IfSome result (λ r. IsBetween (SpellsExport limits.now
        (record { name = r.0.name.now; kind = r.0.kind; index = r.0.index }))
        bytes.now at r.1) }
{
    let Some((name, middle)) = short_name_at(bytes, at, limits) else {
        return None;
    };
    let Some(kind) = kind_of(bytes[middle]) else {
        return None;
    };
    let Some((index, end)) = short_u32_at(bytes, middle + 1) else {
        return None;
    };
    Some((Export { name, kind, index }, end))
}

// Adds an export that is no function's.
#[inline(never)]
fn add_other_export(
    state: &mut ModuleState,
    types: &TypeList,
    export: Export<'_>,
    end: usize,
) -> Option<usize>
    requires { IsReadOver types.now.groups state.old.spaces }
    ensures added { IfSome result (λ r. (r ≡ end) × IsAdded section.exports types.now.groups state.old
        (record { name = export.entry.name.now; kind = export.entry.kind; index = export.entry.index }) state.new) }
    ensures stays { IfNone result (state.new ≡ state.old) }
    ensures over { IsReadOver types.now.groups state.new.spaces }
    ensures settings { state.new.spaces.settings ≡ state.old.spaces.settings }
    ensures types { state.new.spaces.types ≡ state.old.spaces.types }
{
    match add_export_item(state, types, export, 0) {
        Ok(()) => Some(end),
        Err(error) => {
            state.note(&error);
            None
        }
    }
}

/// Adds the export at an offset of these bytes, if the bytes alone tell that it may be added, and answers where it ends. Else the state stays.
pub fn add_short_export(
    state: &mut ModuleState,
    types: &TypeList,
    bytes: &[u8],
    at: usize,
    limits: &Limits,
) -> Option<usize>
    requires over { IsReadOver types.now.groups state.old.spaces }
    requires inside { at ≤ length bytes.now }
    ensures added { IfSome result (AddsExport limits.now types.now.groups state.old state.new bytes.now at) }
    ensures stays { IfNone result (state.new ≡ state.old) }
    ensures over { IsReadOver types.now.groups state.new.spaces }
    ensures settings { state.new.spaces.settings ≡ state.old.spaces.settings }
    ensures types { state.new.spaces.types ≡ state.old.spaces.types }
{
    let Some((export, end)) = short_export_at(bytes, at, limits) else {
        return None;
    };
    if !is_function(export.kind) {
        return add_other_export(state, types, export, end);
    }
    let Some(()) = state.export_function(export.name, export.index, types) else {
        return None;
    };
    Some(end)
}

/// Adds the import of a function at an offset of these bytes, if the bytes alone tell that it may be added, and answers where it ends. Else
/// the state stays.
pub fn add_short_import(
    state: &mut ModuleState,
    types: &TypeList,
    bytes: &[u8],
    at: usize,
    limits: &Limits,
) -> Option<usize>
    requires over { IsReadOver types.now.groups state.old.spaces }
    requires inside { at ≤ length bytes.now }
    ensures added { IfSome result (AddsImport limits.now types.now.groups state.old state.new bytes.now at) }
    ensures stays { IfNone result (state.new ≡ state.old) }
    ensures over { IsReadOver types.now.groups state.new.spaces }
    ensures settings { state.new.spaces.settings ≡ state.old.spaces.settings }
    ensures types { state.new.spaces.types ≡ state.old.spaces.types }
{
    let Some((module, second)) = short_name_at(bytes, at, limits) else {
        return None;
    };
    let Some((name, middle)) = short_name_at(bytes, second, limits) else {
        return None;
    };
    let Some(kind) = kind_of(bytes[middle]) else {
        return None;
    };
    if !is_function(kind) {
        return None;
    }
    let Some((index, end)) = short_u32_at(bytes, middle + 1) else {
        return None;
    };
    let Some(()) = state.import_function(module, name, index, types) else {
        return None;
    };
    Some(end)
}

/// The same of a function.
pub fn add_short_function(
    state: &mut ModuleState,
    types: &TypeList,
    bytes: &[u8],
    at: usize,
) -> Option<usize>
    requires over { IsReadOver types.now.groups state.old.spaces }
    requires inside { at ≤ length bytes.now }
    ensures added { IfSome result (AddsFunction types.now.groups state.old state.new bytes.now at) }
    ensures stays { IfNone result (state.new ≡ state.old) }
    ensures over { IsReadOver types.now.groups state.new.spaces }
    ensures settings { state.new.spaces.settings ≡ state.old.spaces.settings }
    ensures types { state.new.spaces.types ≡ state.old.spaces.types }
{
    let Some((index, end)) = short_u32_at(bytes, at) else {
        return None;
    };
    match add_function_item(state, types, index, 0) {
        Ok(()) => Some(end),
        Err(error) => {
            state.note(&error);
            None
        }
    }
}
