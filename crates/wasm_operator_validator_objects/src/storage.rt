//! What is stored in fields and elements.

ghost use Rattle.std.specs.Prelude.{◌≡◌, ◌↔◌, IsTrue};
ghost use Rattle.wasm_types.specs.trees.Matches.{StorageMatches};
ghost use Rattle.wasm_types.specs.values.ValueKinds.{is_packed_type};
ghost use Rattle.wasm_operator_validator_objects.specs.Found.{are_defaultable, is_defaultable_field, is_of_references, storage_in};

use wasm_operator_validator_stacks::determined::{Reason, WasmModuleResources};
use wasm_operators_visit::GcOperator;
use wasm_types::{FieldType, StorageType};

/// Whether it has a default value.
pub(crate) fn is_defaultable(field: &FieldType) -> bool
    ensures { result ≡ is_defaultable_field field.now }
{
    let unpacked = field.element_type.unpack();
    unpacked.is_defaultable()
}

/// Whether each of them has a default value.
pub fn are_defaultable(fields: &[FieldType]) -> bool
    ensures { result ≡ are_defaultable fields.now }
{
    let mut left = fields;
    while let Some((first, rest)) = left.split_first() {
        left = rest;
        if !is_defaultable(first) {
            return false;
        }
    }
    true
}

/// Whether it is a reference, which bytes do not hold.
pub(crate) fn is_of_references(storage: &StorageType) -> bool
    ensures { result ≡ is_of_references storage.now }
{
    match storage {
        StorageType::I8 => false,
        StorageType::I16 => false,
        StorageType::Val(ty) => ty.is_reference_type(),
    }
}

/// Whether what is stored as the first may be stored as the second.
pub(crate) fn storage_fits<R: WasmModuleResources>(
    resources: &R,
    from: &StorageType,
    to: &StorageType,
) -> bool
    ensures { IsTrue result ↔ StorageMatches (storage_in (R.meaning resources.now) from.now)
        (storage_in (R.meaning resources.now) to.now) }
{
    match from {
        StorageType::I8 => match to {
            StorageType::I8 => true,
            StorageType::I16 => false,
            StorageType::Val(_) => false,
        },
        StorageType::I16 => match to {
            StorageType::I8 => false,
            StorageType::I16 => true,
            StorageType::Val(_) => false,
        },
        StorageType::Val(stored) => match to {
            StorageType::I8 => false,
            StorageType::I16 => false,
            StorageType::Val(holds) => resources.is_subtype(*stored, *holds),
        },
    }
}

/// Whether it is read as if it were packed, or not, as it is.
pub(crate) fn is_read_so(storage: &StorageType, packed: bool) -> bool
    ensures { IsTrue result ↔ (is_packed_type storage.now ≡ packed) }
{
    if packed {
        return storage.is_packed();
    }
    !storage.is_packed()
}

/// Why it is not read so by this operator.
pub(crate) fn unread(op: &GcOperator) -> Reason {
    match op {
        GcOperator::StructGet { .. } => Reason::PackedStorage,
        GcOperator::StructGetS { .. } => Reason::UnpackedFieldSigned,
        GcOperator::StructGetU { .. } => Reason::UnpackedFieldUnsigned,
        GcOperator::ArrayGet { .. } => Reason::PackedElement,
        GcOperator::ArrayGetS { .. } => Reason::UnpackedElementSigned,
        GcOperator::ArrayGetU { .. } => Reason::UnpackedElementUnsigned,
        _ => Reason::UnpackedStorage,
    }
}
