//! Fields and lists of value types.

ghost use Rattle.std.specs.Prelude.{◌↔◌, IsTrue, map};
ghost use Rattle.wasm_types.specs.trees.Each.{EachStorage, EachValues, EachFields};
ghost use Rattle.wasm_types.specs.values.Values.{value_of, storage_of};
ghost use Rattle.wasm_types.specs.fields.Fields.{field_of};
ghost use Rattle.wasm_module_validator_type_storage.specs.trees.Groups.{count};
ghost use Rattle.wasm_module_validator_type_storage.specs.trees.BelowIds.{IsIdBelow};
ghost use Rattle.wasm_module_validator_canonical_types.specs.matches.MatchesById.{StorageMatchesById, FieldMatchesById, FieldsMatchById, ResultsMatchById};

use wasm_module_validator_type_list::TypeList;
use wasm_types::{FieldType, StorageType, ValType};

/// Whether a storage type matches another: the same packed type, or a value type below the other.
pub(crate) fn storage_matches(types: &TypeList, a: &StorageType, b: &StorageType) -> bool
    requires first { EachStorage (IsIdBelow (count types.now.groups)) (storage_of a.now) }
    requires second { EachStorage (IsIdBelow (count types.now.groups)) (storage_of b.now) }
    ensures { IsTrue result ↔ StorageMatchesById types.now.groups (storage_of a.now) (storage_of b.now) }
{
    match a {
        StorageType::I8 => matches!(b, StorageType::I8),
        StorageType::I16 => matches!(b, StorageType::I16),
        StorageType::Val(a) => match b {
            StorageType::Val(b) => types.valtype_is_subtype(*a, *b),
            StorageType::I8 => false,
            StorageType::I16 => false,
        },
    }
}

/// Whether a field matches another: as mutable as the other, its storage type matches, and where it may be written the
/// other's matches it too.
pub(crate) fn field_matches(types: &TypeList, a: &FieldType, b: &FieldType) -> bool
    requires first { EachStorage (IsIdBelow (count types.now.groups)) (field_of a.now).storage }
    requires second { EachStorage (IsIdBelow (count types.now.groups)) (field_of b.now).storage }
    ensures { IsTrue result ↔ FieldMatchesById types.now.groups (field_of a.now) (field_of b.now) }
{
    if a.mutable != b.mutable {
        return false;
    }
    if !storage_matches(types, &a.element_type, &b.element_type) {
        return false;
    }
    !a.mutable || storage_matches(types, &b.element_type, &a.element_type)
}

/// Whether fields match others: they are at least as many, and match place by place.
pub(crate) fn fields_match(types: &TypeList, a: &[FieldType], b: &[FieldType]) -> bool
    requires first { EachFields (IsIdBelow (count types.now.groups)) (map field_of a.now) }
    requires second { EachFields (IsIdBelow (count types.now.groups)) (map field_of b.now) }
    ensures { IsTrue result ↔ FieldsMatchById types.now.groups (map field_of a.now) (map field_of b.now) }
{
    if a.len() < b.len() {
        return false;
    }
    for i in 0..b.len() {
        if !field_matches(types, &a[i], &b[i]) {
            return false;
        }
    }
    true
}

/// Whether value types match others: they are as many, and each is below the other at its place.
pub(crate) fn results_match(types: &TypeList, a: &[ValType], b: &[ValType]) -> bool
    requires first { EachValues (IsIdBelow (count types.now.groups)) (map value_of a.now) }
    requires second { EachValues (IsIdBelow (count types.now.groups)) (map value_of b.now) }
    ensures { IsTrue result ↔ ResultsMatchById types.now.groups (map value_of a.now) (map value_of b.now) }
{
    if a.len() != b.len() {
        return false;
    }
    for i in 0..b.len() {
        if !types.valtype_is_subtype(a[i], b[i]) {
            return false;
        }
    }
    true
}
