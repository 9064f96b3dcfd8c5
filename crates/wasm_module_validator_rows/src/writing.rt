//! Rows, written into those of a caller.

ghost use Rattle.std.specs.Prelude.{◌≡◌, [], length, drop, option_map, unwrap_or, slice_get};
ghost use Rattle.wasm_module_validator_rows.specs.Entities.{entity_rows, id_rows};
ghost use Rattle.wasm_module_validator_rows.specs.Types.{told_values, type_rows, value_rows};
ghost use Rattle.wasm_module_validator_rows.specs.Written.{written};
ghost use Rattle.wasm_types.specs.Entries.{inner_of};

use crate::entities::{EntityRow, count_of, entity_at};
use crate::groups::type_count;
use crate::types::{TypeRow, type_at, value_at, value_count};
use crate::values::ValueRow;
use wasm_module_validator_index_spaces::view::TypesRef;
use wasm_sections_items::imports::ExternalKind;
use wasm_types::{CompositeInnerType, CoreTypeId};

/// Writes those of a kind from an index on, as many as there are rows for, and answers how many there are in all.
pub fn write_entities(
    types: &TypesRef<'_>,
    kind: ExternalKind,
    first: u32,
    rows: &mut [EntityRow],
) -> u32
    ensures count { result ≡ length (entity_rows types.now.spaces kind) }
    ensures rows { rows.new ≡ written (drop first (entity_rows types.now.spaces kind)) rows.old }
{
    for i in 0..rows.len() {
        match entity_at(types, kind, first, i) {
            Some(row) => rows[i] = row,
            None => return count_of(types, kind),
        }
    }
    count_of(types, kind)
}

/// The id of the type so many places behind an index of the module, if there is one.
fn id_at(types: &TypesRef<'_>, first: u32, behind: usize) -> Option<u32>
    ensures { result ≡ slice_get (drop first (id_rows types.now.spaces)) behind }
{
    let index = (first as u64).saturating_add(behind as u64);
    if index < types.core_type_count_in_module() as u64 {
        Some(types.core_type_at_in_module(index as u32).number())
    } else {
        None
    }
}

/// Writes the ids of the types that a module has, from an index on, as many as there are places for, and answers how many it has in all.
pub fn write_ids(types: &TypesRef<'_>, first: u32, ids: &mut [u32]) -> u32
    ensures count { result ≡ length (id_rows types.now.spaces) }
    ensures ids { ids.new ≡ written (drop first (id_rows types.now.spaces)) ids.old }
{
    for i in 0..ids.len() {
        match id_at(types, first, i) {
            Some(id) => ids[i] = id,
            None => return types.core_type_count_in_module(),
        }
    }
    types.core_type_count_in_module()
}

/// Writes types from an id on, as many as there are rows for, and answers how many the list has in all.
pub fn write_types(types: &TypesRef<'_>, first: u32, rows: &mut [TypeRow]) -> u32
    ensures count { result ≡ length (type_rows types.now.groups) }
    ensures rows { rows.new ≡ written (drop first (type_rows types.now.groups)) rows.old }
{
    let total = type_count(types);
    for i in 0..rows.len() {
        match type_at(types, total, first, i) {
            Some(row) => rows[i] = row,
            None => return total,
        }
    }
    total
}

/// Writes what a type is made of, as many as there are rows for.
fn write_parts(ty: &CompositeInnerType, rows: &mut [ValueRow])
    ensures { rows.new ≡ written (told_values (inner_of ty.now)) rows.old }
{
    for i in 0..rows.len() {
        match value_at(ty, i) {
            Some(row) => rows[i] = row,
            None => return,
        }
    }
}

/// Writes what the type of an id is made of, as many as there are rows for, and answers how many that are; none where there is no such type,
/// and then nothing is written.
pub fn write_values(types: &TypesRef<'_>, id: u32, rows: &mut [ValueRow]) -> Option<u64>
    ensures count { result ≡ option_map length (value_rows types.now.groups id) }
    ensures rows { rows.new ≡ written (unwrap_or (value_rows types.now.groups id) []) rows.old }
{
    match types.get(CoreTypeId::new(id)) {
        Some(ty) => {
            write_parts(&ty.composite_type.inner, rows);
            Some(value_count(&ty.composite_type.inner))
        }
        None => None,
    }
}
