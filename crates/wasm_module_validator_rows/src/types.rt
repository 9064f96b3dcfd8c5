//! Defined types, as rows of numbers.

ghost use Rattle.std.specs.Prelude.{◌≡◌, ◌<◌, length, map, slice_get, drop};
ghost use Rattle.wasm_types.specs.Entries.{declared_of, inner_of};
ghost use Rattle.wasm_types.specs.fields.Fields.{field_of, function_tree};
ghost use Rattle.wasm_module_validator_type_storage.specs.trees.Groups.{count};
ghost use Rattle.wasm_module_validator_rows.specs.Rows.{some_id_number, told_field};
ghost use Rattle.wasm_module_validator_rows.specs.Types.{function_number, param_count, short, told_type, told_values, type_number, type_rows};

use crate::groups::{end_of_group, start_of_group};
use crate::values::{
    FINAL, NO_TYPE, SHARED, ValueRow, field_row, flag, id_of, id_of_some, value_row,
};
use wasm_module_validator_index_spaces::view::TypesRef;
use wasm_types::{CompositeInnerType, CoreTypeId, FieldType, FuncType, SubType};

/// A defined type.
#[repr(C)]
#[derive(Clone, Copy)]
pub struct TypeRow {
    /// 0 a function, 1 a struct, 2 an array, 3 a continuation.
    pub kind: u32,
    /// Whether it is final, and whether it is shared.
    pub flags: u32,
    /// The id of the supertype that it declares, or `NO_TYPE`.
    pub supertype: u32,
    /// The id of the first type of its recursion group.
    pub group_first: u32,
    /// How many types the group has.
    pub group_count: u32,
    /// How many values it is made of: parameters and results, fields, the element.
    pub values: u32,
    /// Of a function how many of these are parameters, else 0.
    pub params: u32,
    /// Of a continuation the id of its function type, else `NO_TYPE`.
    pub function: u32,
    /// The id of the type that describes it, or `NO_TYPE`.
    pub descriptor: u32,
    /// The id of the type that it describes, or `NO_TYPE`.
    pub describes: u32,
}

/// A number by 32 bits, ending at the largest.
fn shortened(count: u64) -> u32
    ensures { result ≡ short count }
{
    u32::try_from(count).unwrap_or(u32::MAX)
}

/// The number of a type's kind.
fn kind_of(ty: &CompositeInnerType) -> u32
    ensures { result ≡ type_number (inner_of ty.now) }
{
    match ty {
        CompositeInnerType::Func(_) => 0,
        CompositeInnerType::Struct(_) => 1,
        CompositeInnerType::Array(_) => 2,
        CompositeInnerType::Cont(_) => 3,
    }
}

/// How many values a type is made of.
pub(crate) fn value_count(ty: &CompositeInnerType) -> u64
    ensures { result ≡ length (told_values (inner_of ty.now)) }
{
    match ty {
        CompositeInnerType::Func(ty) => ty.params().len() as u64 + ty.results().len() as u64,
        CompositeInnerType::Struct(ty) => ty.fields.as_slice().len() as u64,
        CompositeInnerType::Array(_) => 1,
        CompositeInnerType::Cont(_) => 0,
    }
}

/// How many parameters a type has.
fn count_of_params(ty: &CompositeInnerType) -> u64
    ensures { result ≡ param_count (inner_of ty.now) }
{
    match ty {
        CompositeInnerType::Func(ty) => ty.params().len() as u64,
        CompositeInnerType::Struct(_) => 0,
        CompositeInnerType::Array(_) => 0,
        CompositeInnerType::Cont(_) => 0,
    }
}

/// The id of the function type of a continuation.
fn function_of(ty: &CompositeInnerType) -> u32
    ensures { result ≡ function_number (inner_of ty.now) }
{
    match ty {
        CompositeInnerType::Func(_) => NO_TYPE,
        CompositeInnerType::Struct(_) => NO_TYPE,
        CompositeInnerType::Array(_) => NO_TYPE,
        CompositeInnerType::Cont(ty) => id_of(ty.0.unpack()),
    }
}

/// The supertype that a type declares.
fn supertype_of(ty: &SubType) -> u32
    ensures { result ≡ some_id_number (declared_of ty.now).entry.supertype }
{
    match ty.supertype_idxs.as_slice().first() {
        Some(index) => id_of(index.unpack()),
        None => NO_TYPE,
    }
}

/// The type of an id, in a list of so many types.
fn type_row(types: &TypesRef<'_>, total: u32, id: u32, ty: &SubType) -> TypeRow
    requires counted { total ≡ short (count types.now.groups) }
    requires known { id < total }
    ensures { result ≡ told_type types.now.groups id (declared_of ty.now) }
{
    let of = &ty.composite_type;
    let start = start_of_group(types, id);
    let end = end_of_group(types, total, start, id);
    TypeRow {
        kind: kind_of(&of.inner),
        flags: flag(ty.is_final, FINAL) + flag(of.shared, SHARED),
        supertype: supertype_of(ty),
        group_first: start,
        group_count: end.saturating_sub(start),
        values: shortened(value_count(&of.inner)),
        params: shortened(count_of_params(&of.inner)),
        function: function_of(&of.inner),
        descriptor: id_of_some(of.descriptor_idx),
        describes: id_of_some(of.describes_idx),
    }
}

/// The row of the type so many ids behind an id, if there is one, in a list of so many types.
pub(crate) fn type_at(
    types: &TypesRef<'_>,
    total: u32,
    first: u32,
    behind: usize,
) -> Option<TypeRow>
    requires { total ≡ short (count types.now.groups) }
    ensures { result ≡ slice_get (drop first (type_rows types.now.groups)) behind }
{
    let number = (first as u64).saturating_add(behind as u64);
    if number >= total as u64 {
        return None;
    }
    let id = number as u32;
    match types.get(CoreTypeId::new(id)) {
        Some(ty) => Some(type_row(types, total, id, ty)),
        None => None,
    }
}

/// What is at a place of a function's parameters and results.
fn signature_at(ty: &FuncType, place: usize) -> Option<ValueRow>
    ensures { result ≡ slice_get (told_values (function_tree ty.now)) place }
{
    let params = ty.params();
    if place < params.len() {
        return Some(value_row(params[place]));
    }
    let results = ty.results();
    let behind = place - params.len();
    if behind < results.len() {
        Some(value_row(results[behind]))
    } else {
        None
    }
}

/// What is at a place of fields.
fn field_at(fields: &[FieldType], place: usize) -> Option<ValueRow>
    ensures { result ≡ slice_get (map told_field (map field_of fields.now)) place }
{
    if place < fields.len() {
        Some(field_row(fields[place]))
    } else {
        None
    }
}

/// What is at a place of what a type is made of.
pub(crate) fn value_at(ty: &CompositeInnerType, place: usize) -> Option<ValueRow>
    ensures { result ≡ slice_get (told_values (inner_of ty.now)) place }
{
    match ty {
        CompositeInnerType::Func(ty) => signature_at(ty, place),
        CompositeInnerType::Struct(ty) => field_at(ty.fields.as_slice(), place),
        CompositeInnerType::Array(ty) => {
            if place == 0 {
                Some(field_row(ty.0))
            } else {
                None
            }
        }
        CompositeInnerType::Cont(_) => None,
    }
}
