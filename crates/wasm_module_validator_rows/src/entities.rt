//! The types of functions, tables, memories, globals and tags, as rows of numbers.

ghost use Rattle.std.specs.Prelude.{◌≡◌, length, option_map, slice_get, drop};
ghost use Rattle.wasm_module_validator_index_spaces.specs.view.Entities.{exported_entity};
ghost use Rattle.wasm_module_validator_rows.specs.Entities.{plain_entity, typed_of, table_of, memory_of, global_of, told_entity, entity_rows, kind_numbered};

use crate::values::{
    BITS_64, EXACT, HAS_MAXIMUM, HAS_PAGE_SIZE, MUTABLE, NO_TYPE, SHARED, ValueRow, flag,
    plain_row, reference_row, value_row,
};
use wasm_module_validator_index_spaces::view::{EntityType, TypesRef};
use wasm_sections_items::imports::{Export, ExternalKind};
use wasm_types::{CoreTypeId, GlobalType, MemoryType, TableType};

/// The type of a function, table, memory, global or tag.
#[repr(C)]
#[derive(Clone, Copy)]
pub struct EntityRow {
    /// What it is, as for an import.
    pub kind: u32,
    /// What holds of it, by bits.
    pub flags: u32,
    /// Of a function or a tag the id of its type, else `NO_TYPE`.
    pub id: u32,
    /// Of a memory the logarithm of the bytes of a page, else 0.
    pub page_size_log2: u32,
    /// Of a table what its elements are, of a global what it holds.
    pub value: ValueRow,
    /// Of a table or a memory the least size, else 0.
    pub minimum: u64,
    /// The most, if it is limited, else 0.
    pub maximum: u64,
}

/// Something of this kind, of which nothing is known yet.
fn entity_row(kind: u32) -> EntityRow
    ensures { result ≡ plain_entity kind }
{
    EntityRow {
        kind,
        flags: 0,
        id: NO_TYPE,
        page_size_log2: 0,
        value: plain_row(0),
        minimum: 0,
        maximum: 0,
    }
}

/// A function or a tag.
fn typed_row(kind: u32, id: CoreTypeId, is_exact: bool) -> EntityRow
    ensures { result ≡ typed_of kind id is_exact }
{
    let mut row = entity_row(kind);
    row.flags = flag(is_exact, EXACT);
    row.id = id.number();
    row
}

/// A table.
fn table_row(ty: TableType) -> EntityRow
    ensures { result ≡ table_of ty }
{
    EntityRow {
        kind: 1,
        flags: flag(ty.table64, BITS_64)
            + flag(ty.shared, SHARED)
            + flag(ty.maximum.is_some(), HAS_MAXIMUM),
        id: NO_TYPE,
        page_size_log2: 0,
        value: reference_row(ty.element_type),
        minimum: ty.initial,
        maximum: ty.maximum.unwrap_or(0),
    }
}

/// A memory.
fn memory_row(ty: MemoryType) -> EntityRow
    ensures { result ≡ memory_of ty }
{
    EntityRow {
        kind: 2,
        flags: flag(ty.memory64, BITS_64)
            + flag(ty.shared, SHARED)
            + flag(ty.maximum.is_some(), HAS_MAXIMUM)
            + flag(ty.page_size_log2.is_some(), HAS_PAGE_SIZE),
        id: NO_TYPE,
        page_size_log2: ty.page_size_log2(),
        value: plain_row(0),
        minimum: ty.initial,
        maximum: ty.maximum.unwrap_or(0),
    }
}

/// A global.
fn global_row(ty: GlobalType) -> EntityRow
    ensures { result ≡ global_of ty }
{
    EntityRow {
        kind: 3,
        flags: flag(ty.mutable, MUTABLE) + flag(ty.shared, SHARED),
        id: NO_TYPE,
        page_size_log2: 0,
        value: value_row(ty.content_type),
        minimum: 0,
        maximum: 0,
    }
}

/// What something is.
fn row_of(entity: EntityType) -> EntityRow
    ensures { result ≡ told_entity entity }
{
    match entity {
        EntityType::Func(id) => typed_row(0, id, false),
        EntityType::FuncExact(id) => typed_row(0, id, true),
        EntityType::Table(ty) => table_row(ty),
        EntityType::Memory(ty) => memory_row(ty),
        EntityType::Global(ty) => global_row(ty),
        EntityType::Tag(id) => typed_row(4, id, false),
    }
}

/// What is at an index of the space of a kind, if something is.
fn row_at(types: &TypesRef<'_>, kind: ExternalKind, index: u32) -> Option<EntityRow>
    ensures { result ≡ option_map told_entity (exported_entity types.now.spaces kind index) }
{
    let place = Export {
        name: "",
        kind,
        index,
    };
    match types.entity_type_from_export(&place) {
        Some(entity) => Some(row_of(entity)),
        None => None,
    }
}

/// The kind of a number, if there is one.
pub fn kind_of(number: u32) -> Option<ExternalKind>
    ensures { result ≡ kind_numbered number }
{
    match number {
        0 => Some(ExternalKind::Func),
        1 => Some(ExternalKind::Table),
        2 => Some(ExternalKind::Memory),
        3 => Some(ExternalKind::Global),
        4 => Some(ExternalKind::Tag),
        _ => None,
    }
}

/// How many there are of a kind.
pub(crate) fn count_of(types: &TypesRef<'_>, kind: ExternalKind) -> u32
    ensures { result ≡ length (entity_rows types.now.spaces kind) }
{
    match kind {
        ExternalKind::Func => types.function_count(),
        ExternalKind::FuncExact => types.function_count(),
        ExternalKind::Table => types.table_count(),
        ExternalKind::Memory => types.memory_count(),
        ExternalKind::Global => types.global_count(),
        ExternalKind::Tag => types.tag_count(),
    }
}

/// The row of what is so many places behind an index, if something is.
pub(crate) fn entity_at(
    types: &TypesRef<'_>,
    kind: ExternalKind,
    first: u32,
    behind: usize,
) -> Option<EntityRow>
    ensures { result ≡ slice_get (drop first (entity_rows types.now.spaces kind)) behind }
{
    let index = (first as u64).saturating_add(behind as u64);
    if index < count_of(types, kind) as u64 {
        row_at(types, kind, index as u32)
    } else {
        None
    }
}
