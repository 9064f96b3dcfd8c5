//! The types of values and of fields, as rows of numbers.

ghost use Rattle.std.specs.Prelude.{◌≡◌, ◌≤◌};
ghost use Rattle.wasm_types.specs.values.Trees.{abstract_of, heap_of};
ghost use Rattle.wasm_types.specs.values.Values.{value_of, storage_of};
ghost use Rattle.wasm_types.specs.fields.Fields.{field_of};
ghost use Rattle.wasm_module_validator_rows.specs.Rows.{flag_of, heap_number, id_number, some_id_number, plain, told_reference, told_value, told_storage, told_field};

use wasm_types::{
    AbstractHeapType, FieldType, HeapType, PackedIndex, RefType, StorageType, UnpackedIndex,
    ValType,
};

/// No type, in the place of an id.
pub(crate) const NO_TYPE: u32 = u32::MAX;

pub(crate) const MUTABLE: u32 = 1;

pub(crate) const NULLABLE: u32 = 2;

pub(crate) const SHARED: u32 = 4;

pub(crate) const EXACT: u32 = 8;

pub(crate) const BITS_64: u32 = 16;

pub(crate) const HAS_MAXIMUM: u32 = 32;

pub(crate) const HAS_PAGE_SIZE: u32 = 64;

pub(crate) const FINAL: u32 = 128;

/// The type of a value, or of what a field stores.
#[repr(C)]
#[derive(Clone, Copy)]
pub struct ValueRow {
    /// 0 to 4 a number or a vector, 5 a reference, 6 and 7 a packed number.
    pub kind: u32,
    /// Whether it is mutable, and of a reference whether it may be null, is shared, or is exact.
    pub flags: u32,
    /// Of a reference, what it refers to.
    pub heap: u32,
    /// Of a reference to a defined type its id, else `NO_TYPE`.
    pub id: u32,
}

/// This flag, if it holds.
pub(crate) fn flag(holds: bool, bit: u32) -> u32
    ensures value { result ≡ flag_of holds bit }
    ensures small { result ≤ bit }
{
    if holds { bit } else { 0 }
}

/// The number of an abstract heap type.
fn number_of(ty: AbstractHeapType) -> u32
    ensures { result ≡ heap_number (abstract_of ty) }
{
    match ty {
        AbstractHeapType::Func => 0,
        AbstractHeapType::Extern => 1,
        AbstractHeapType::Any => 2,
        AbstractHeapType::None => 3,
        AbstractHeapType::NoExtern => 4,
        AbstractHeapType::NoFunc => 5,
        AbstractHeapType::Eq => 6,
        AbstractHeapType::Struct => 7,
        AbstractHeapType::Array => 8,
        AbstractHeapType::I31 => 9,
        AbstractHeapType::Exn => 10,
        AbstractHeapType::NoExn => 11,
        AbstractHeapType::Cont => 12,
        AbstractHeapType::NoCont => 13,
    }
}

/// The id by which a type is named. All types of a list are named so.
pub(crate) fn id_of(index: UnpackedIndex) -> u32
    ensures { result ≡ id_number index }
{
    match index {
        UnpackedIndex::Id(id) => id.number(),
        UnpackedIndex::Module(_) => NO_TYPE,
        UnpackedIndex::RecGroup(_) => NO_TYPE,
    }
}

/// The id by which a type is named, if one is.
pub(crate) fn id_of_some(index: Option<PackedIndex>) -> u32
    ensures { result ≡ some_id_number index }
{
    match index {
        Some(index) => id_of(index.unpack()),
        None => NO_TYPE,
    }
}

/// A row of this kind alone.
pub(crate) fn plain_row(kind: u32) -> ValueRow
    ensures { result ≡ plain kind }
{
    ValueRow {
        kind,
        flags: 0,
        heap: 0,
        id: NO_TYPE,
    }
}

/// A row of a reference.
fn heap_row(is_nullable: bool, heap: HeapType) -> ValueRow
    ensures value { result ≡ told_reference is_nullable (heap_of heap) }
    ensures small { result.flags ≤ 10 }
{
    match heap {
        HeapType::Abstract { shared, ty } => ValueRow {
            kind: 5,
            flags: flag(is_nullable, NULLABLE) + flag(shared, SHARED),
            heap: number_of(ty),
            id: NO_TYPE,
        },
        HeapType::Concrete(index) => ValueRow {
            kind: 5,
            flags: flag(is_nullable, NULLABLE),
            heap: 14,
            id: id_of(index),
        },
        HeapType::Exact(index) => ValueRow {
            kind: 5,
            flags: flag(is_nullable, NULLABLE) + EXACT,
            heap: 14,
            id: id_of(index),
        },
    }
}

/// A reference type.
pub(crate) fn reference_row(ty: RefType) -> ValueRow
    ensures value { result ≡ told_reference ty.nullable (heap_of ty.heap) }
    ensures small { result.flags ≤ 10 }
{
    heap_row(ty.is_nullable(), ty.heap_type())
}

/// A value type.
pub(crate) fn value_row(ty: ValType) -> ValueRow
    ensures value { result ≡ told_value (value_of ty) }
    ensures small { result.flags ≤ 10 }
{
    match ty {
        ValType::I32 => plain_row(0),
        ValType::I64 => plain_row(1),
        ValType::F32 => plain_row(2),
        ValType::F64 => plain_row(3),
        ValType::V128 => plain_row(4),
        ValType::Ref(ty) => reference_row(ty),
    }
}

/// What a field stores, without whether it may be written.
fn storage_row(ty: StorageType) -> ValueRow
    ensures value { result ≡ told_storage (storage_of ty) }
    ensures small { result.flags ≤ 10 }
{
    match ty {
        StorageType::I8 => plain_row(6),
        StorageType::I16 => plain_row(7),
        StorageType::Val(ty) => value_row(ty),
    }
}

/// What a field stores.
pub(crate) fn field_row(field: FieldType) -> ValueRow
    ensures { result ≡ told_field (field_of field) }
{
    let row = storage_row(field.element_type);
    ValueRow {
        kind: row.kind,
        flags: row.flags + flag(field.mutable, MUTABLE),
        heap: row.heap,
        id: row.id,
    }
}
