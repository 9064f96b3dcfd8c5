//! Globals and elements of tables as places, and what may be stored at a place that is accessed atomically.

ghost use Rattle.std.specs.Prelude.{◌≡◌, ◌↔◌, ◌∷◌, [], IsTrue, MatchResult, None, Some};
ghost use Rattle.wasm_types.specs.values.Trees.{abstract_of};
ghost use Rattle.wasm_operator_validator_rules.specs.Places.{global_place, table_place};
ghost use Rattle.wasm_operator_validator_rules.specs.SharedAccesses.{IsAtomic, MayChange, Stores, StoresAtomic, StoresInteger, StoresWritten};
ghost use Rattle.wasm_operator_validator_resources.specs.Meaning.{type_in};
ghost use Rattle.wasm_operator_validator_objects.specs.Rows.{here};
ghost use Rattle.wasm_operator_validator_objects.specs.Found.{place_in, storage_in};
ghost use Rattle.wasm_operator_validator_proposals.specs.Accesses.{access_of, is_integer};

use wasm_operator_validator_objects::abstract_reference;
use wasm_operator_validator_stacks::determined::{
    OperatorValidator, Reason, Refusal, Space, WasmModuleResources, may_use,
};
use wasm_types::{AbstractHeapType, FieldType, StorageType, ValType};

/// What an atomic access does at its place.
#[derive(Clone, Copy)]
pub enum AtomicAccess {
    /// It is read.
    Reads,
    /// It is read as a packed type, and extended.
    ReadsPacked,
    /// It is written.
    Writes,
    /// It is replaced by what it and another number make, and given as it was.
    Modifies,
    /// It is replaced by another value, and given as it was.
    Exchanges,
    /// The same, if it was as expected.
    Compares,
}

/// The global at an index as a place, where the function may use it.
pub(crate) fn global_at<R: WasmModuleResources>(
    validator: &OperatorValidator,
    resources: &R,
    global_index: u32,
) -> Result<FieldType, Refusal>
    ensures { MatchResult result (λ f. global_place (here (R.meaning resources.now) validator.now) global_index ≡ Some
        (place_in (R.meaning resources.now) [] f))
        (λ r. global_place (here (R.meaning resources.now) validator.now) global_index ≡ None) }
{
    let global = match resources.global_at(global_index) {
        Some(global) => global,
        None => {
            return Err(Refusal::Unknown {
                space: Space::Global,
                index: global_index,
            });
        }
    };
    if !may_use(validator, global.shared) {
        return Err(Refusal::Because(Reason::NotShared));
    }
    Ok(FieldType {
        element_type: StorageType::Val(global.content_type),
        mutable: global.mutable,
    })
}

/// The index by which the table at an index is reached, and its elements as places, where the function may use it.
pub(crate) fn table_at<R: WasmModuleResources>(
    validator: &OperatorValidator,
    resources: &R,
    table_index: u32,
) -> Result<(ValType, FieldType), Refusal>
    ensures { MatchResult result (λ p. table_place (here (R.meaning resources.now) validator.now) table_index ≡ Some
        (place_in (R.meaning resources.now) (p.0 ∷ []) p.1))
        (λ r. table_place (here (R.meaning resources.now) validator.now) table_index ≡ None) }
{
    let table = match resources.table_at(table_index) {
        Some(table) => table,
        None => {
            return Err(Refusal::Unknown {
                space: Space::Table,
                index: table_index,
            });
        }
    };
    if !may_use(validator, table.shared) {
        return Err(Refusal::Because(Reason::NotShared));
    }
    let elements = FieldType {
        element_type: StorageType::Val(ValType::Ref(table.element_type)),
        mutable: true,
    };
    Ok((table.index_type(), elements))
}

// Whether it is an integer.
fn is_integer(ty: &ValType) -> bool
    ensures { result ≡ is_integer ty.now }
{
    match ty {
        ValType::I32 => true,
        ValType::I64 => true,
        ValType::F32 => false,
        ValType::F64 => false,
        ValType::V128 => false,
        ValType::Ref(_) => false,
    }
}

// Whether it is an integer, or a reference below this abstract type, shared or not.
fn is_atomic<R: WasmModuleResources>(resources: &R, ty: &ValType, kind: AbstractHeapType) -> bool
    ensures { IsTrue result ↔ IsAtomic (abstract_of kind) (type_in (R.meaning resources.now) ty.now) }
{
    if !ty.is_reference_type() {
        return is_integer(ty);
    }
    if resources.is_subtype(*ty, abstract_reference(true, false, kind)) {
        return true;
    }
    resources.is_subtype(*ty, abstract_reference(true, true, kind))
}

// Whether such an integer or reference is stored.
fn stores_atomic<R: WasmModuleResources>(
    resources: &R,
    storage: &StorageType,
    kind: AbstractHeapType,
) -> bool
    ensures { IsTrue result ↔ StoresAtomic (abstract_of kind) (storage_in (R.meaning resources.now) storage.now) }
{
    match storage {
        StorageType::I8 => false,
        StorageType::I16 => false,
        StorageType::Val(ty) => is_atomic(resources, ty, kind),
    }
}

// Whether an integer is stored.
fn stores_integer<R: WasmModuleResources>(resources: &R, storage: &StorageType) -> bool
    ensures { IsTrue result ↔ StoresInteger (storage_in (R.meaning resources.now) storage.now) }
{
    match storage {
        StorageType::I8 => false,
        StorageType::I16 => false,
        StorageType::Val(ty) => is_integer(ty),
    }
}

// Whether a packed type is stored, or an integer or a reference below `any`.
fn stores_written<R: WasmModuleResources>(resources: &R, storage: &StorageType) -> bool
    ensures { IsTrue result ↔ StoresWritten (storage_in (R.meaning resources.now) storage.now) }
{
    match storage {
        StorageType::I8 => true,
        StorageType::I16 => true,
        StorageType::Val(ty) => is_atomic(resources, ty, AbstractHeapType::Any),
    }
}

/// Whether what is stored may be accessed so.
pub(crate) fn stores<R: WasmModuleResources>(
    resources: &R,
    access: AtomicAccess,
    storage: &StorageType,
) -> bool
    ensures { IsTrue result ↔ Stores (access_of access) (storage_in (R.meaning resources.now) storage.now) }
{
    match access {
        AtomicAccess::Reads => stores_atomic(resources, storage, AbstractHeapType::Any),
        AtomicAccess::ReadsPacked => storage.is_packed(),
        AtomicAccess::Writes => stores_written(resources, storage),
        AtomicAccess::Modifies => stores_integer(resources, storage),
        AtomicAccess::Exchanges => stores_atomic(resources, storage, AbstractHeapType::Any),
        AtomicAccess::Compares => stores_atomic(resources, storage, AbstractHeapType::Eq),
    }
}

/// Whether a place that is mutable, or not, may be accessed so.
pub(crate) fn may_change(access: AtomicAccess, mutable: bool) -> bool
    ensures { IsTrue result ↔ MayChange (access_of access) mutable }
{
    match access {
        AtomicAccess::Reads => true,
        AtomicAccess::ReadsPacked => true,
        AtomicAccess::Writes => mutable,
        AtomicAccess::Modifies => mutable,
        AtomicAccess::Exchanges => mutable,
        AtomicAccess::Compares => mutable,
    }
}

/// Why what is stored may not be accessed so.
pub(crate) fn not_stored(access: AtomicAccess) -> Reason {
    match access {
        AtomicAccess::Reads => Reason::AtomicType,
        AtomicAccess::ReadsPacked => Reason::UnpackedStorage,
        AtomicAccess::Writes => Reason::AtomicType,
        AtomicAccess::Modifies => Reason::AtomicInteger,
        AtomicAccess::Exchanges => Reason::AtomicType,
        AtomicAccess::Compares => Reason::AtomicComparable,
    }
}
