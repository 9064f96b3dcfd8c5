//! Matching of parts of types, each with the group that it was taken from.

ghost use Rattle.std.specs.Prelude.{◌≡◌, ◌↔◌, ◌<◌, IsTrue, List, Some, slice_get};
ghost use Rattle.wasm_module_validator_type_storage.specs.trees.Groups.{Group, count, group_numbers};

use crate::matches::composite::{composite_matches, continuation_matches, function_matches};
use crate::matches::fields::{field_matches, fields_match, storage_matches};
use wasm_module_validator_type_list::{RecGroupId, TypeList};
use wasm_types::{
    ArrayType, CompositeType, ContType, CoreTypeId, FieldType, FuncType, RefType, StorageType,
    StructType, SubType, ValType,
};

/// A part of a type with the group that the type stands in.
#[derive(Clone, Copy, Debug)]
pub struct WithRecGroup<T> {
    inner: T,
    rec_group_id: RecGroupId,
}

impl WithRecGroup<CoreTypeId> {
    /// An id with the group of its type.
    pub fn new(types: &TypeList, id: CoreTypeId) -> Self
        requires { id.0 < count types.now.groups }
        ensures id { result.inner ≡ id }
        ensures group { slice_get (group_numbers types.now.groups) id.0 ≡ Some result.rec_group_id.0 }
    {
        WithRecGroup {
            inner: id,
            rec_group_id: types.rec_group_id_of(id),
        }
    }
}

impl<T> WithRecGroup<T> {
    /// Another part of the same type.
    pub fn map<U, F: FnOnce(T) -> U>(x: Self, f: F) -> WithRecGroup<U>
        requires { F.pre f x.inner }
        ensures part { F.post f x.inner result.inner }
        ensures group { result.rec_group_id ≡ x.rec_group_id }
    {
        WithRecGroup {
            inner: f(x.inner),
            rec_group_id: x.rec_group_id,
        }
    }
}

/// Parts of types that one link between a type and its supertype compares.
pub trait Matches {
    /// Each index in it is an id of the list.
    ghost has_known_ids: { List Group → Self → Type 0 };

    /// The first may stand where the second is declared.
    ghost is_match: { List Group → Self → Self → Type 0 };

    /// Whether the first matches the second. Parts of it are compared by what was declared, and never matched anew.
    fn matches(types: &TypeList, a: Self, b: Self) -> bool
        requires first { has_known_ids types.now.groups a }
        requires second { has_known_ids types.now.groups b }
        ensures { IsTrue result ↔ is_match types.now.groups a b };
}

impl<'a> Matches for WithRecGroup<&'a SubType> {
    ghost use Rattle.wasm_types.specs.trees.Each.{EachEntry};
    ghost use Rattle.wasm_types.specs.Entries.{entry_of};
    ghost use Rattle.wasm_module_validator_type_storage.specs.trees.Groups.{count};
    ghost use Rattle.wasm_module_validator_type_storage.specs.trees.BelowIds.{IsIdBelow};
    ghost use Rattle.wasm_module_validator_canonical_types.specs.matches.MatchesById.{EntryMatchesById};

    ghost has_known_ids = { λ groups x. EachEntry (IsIdBelow (count groups)) (entry_of x.inner.now) };

    ghost is_match = { λ groups x y. EntryMatchesById groups (entry_of x.inner.now) (entry_of y.inner.now) };

    fn matches(types: &TypeList, a: Self, b: Self) -> bool {
        composite_matches(types, &a.inner.composite_type, &b.inner.composite_type)
    }
}

impl<'a> Matches for WithRecGroup<&'a CompositeType> {
    ghost use Rattle.wasm_types.specs.trees.Each.{EachEntry};
    ghost use Rattle.wasm_types.specs.Entries.{composite_of};
    ghost use Rattle.wasm_module_validator_type_storage.specs.trees.Groups.{count};
    ghost use Rattle.wasm_module_validator_type_storage.specs.trees.BelowIds.{IsIdBelow};
    ghost use Rattle.wasm_module_validator_canonical_types.specs.matches.MatchesById.{EntryMatchesById};

    ghost has_known_ids = { λ groups x. EachEntry (IsIdBelow (count groups)) (composite_of x.inner.now) };

    ghost is_match = { λ groups x y. EntryMatchesById groups (composite_of x.inner.now) (composite_of y.inner.now) };

    fn matches(types: &TypeList, a: Self, b: Self) -> bool {
        composite_matches(types, a.inner, b.inner)
    }
}

impl<'a> Matches for WithRecGroup<&'a FuncType> {
    ghost use Rattle.wasm_types.specs.trees.Each.{EachInner};
    ghost use Rattle.wasm_types.specs.fields.Fields.{function_tree};
    ghost use Rattle.wasm_module_validator_type_storage.specs.trees.Groups.{count};
    ghost use Rattle.wasm_module_validator_type_storage.specs.trees.BelowIds.{IsIdBelow};
    ghost use Rattle.wasm_module_validator_canonical_types.specs.matches.MatchesById.{InnerMatchesById};

    ghost has_known_ids = { λ groups x. EachInner (IsIdBelow (count groups)) (function_tree x.inner.now) };

    ghost is_match = { λ groups x y. InnerMatchesById groups (function_tree x.inner.now) (function_tree y.inner.now) };

    fn matches(types: &TypeList, a: Self, b: Self) -> bool {
        function_matches(types, a.inner, b.inner)
    }
}

impl Matches for WithRecGroup<ArrayType> {
    ghost use Rattle.wasm_types.specs.trees.Each.{EachInner};
    ghost use Rattle.wasm_types.specs.fields.Fields.{array_tree};
    ghost use Rattle.wasm_module_validator_type_storage.specs.trees.Groups.{count};
    ghost use Rattle.wasm_module_validator_type_storage.specs.trees.BelowIds.{IsIdBelow};
    ghost use Rattle.wasm_module_validator_canonical_types.specs.matches.MatchesById.{InnerMatchesById};

    ghost has_known_ids = { λ groups x. EachInner (IsIdBelow (count groups)) (array_tree x.inner) };

    ghost is_match = { λ groups x y. InnerMatchesById groups (array_tree x.inner) (array_tree y.inner) };

    fn matches(types: &TypeList, a: Self, b: Self) -> bool {
        field_matches(types, &a.inner.0, &b.inner.0)
    }
}

impl<'a> Matches for WithRecGroup<&'a StructType> {
    ghost use Rattle.wasm_types.specs.trees.Each.{EachInner};
    ghost use Rattle.wasm_types.specs.fields.Fields.{struct_tree};
    ghost use Rattle.wasm_module_validator_type_storage.specs.trees.Groups.{count};
    ghost use Rattle.wasm_module_validator_type_storage.specs.trees.BelowIds.{IsIdBelow};
    ghost use Rattle.wasm_module_validator_canonical_types.specs.matches.MatchesById.{InnerMatchesById};

    ghost has_known_ids = { λ groups x. EachInner (IsIdBelow (count groups)) (struct_tree x.inner.now) };

    ghost is_match = { λ groups x y. InnerMatchesById groups (struct_tree x.inner.now) (struct_tree y.inner.now) };

    fn matches(types: &TypeList, a: Self, b: Self) -> bool {
        fields_match(types, a.inner.fields.as_slice(), b.inner.fields.as_slice())
    }
}

impl<'a> Matches for WithRecGroup<&'a ContType> {
    ghost use Rattle.wasm_types.specs.trees.Each.{EachInner};
    ghost use Rattle.wasm_types.specs.fields.Fields.{continuation_tree};
    ghost use Rattle.wasm_module_validator_type_storage.specs.trees.Groups.{count};
    ghost use Rattle.wasm_module_validator_type_storage.specs.trees.BelowIds.{IsIdBelow};
    ghost use Rattle.wasm_module_validator_canonical_types.specs.matches.MatchesById.{InnerMatchesById};

    ghost has_known_ids = { λ groups x. EachInner (IsIdBelow (count groups)) (continuation_tree x.inner.now) };

    ghost is_match = { λ groups x y. InnerMatchesById groups (continuation_tree x.inner.now)
        (continuation_tree y.inner.now) };

    fn matches(types: &TypeList, a: Self, b: Self) -> bool {
        continuation_matches(types, a.inner, b.inner)
    }
}

impl Matches for WithRecGroup<FieldType> {
    ghost use Rattle.wasm_types.specs.trees.Each.{EachStorage};
    ghost use Rattle.wasm_types.specs.fields.Fields.{field_of};
    ghost use Rattle.wasm_module_validator_type_storage.specs.trees.Groups.{count};
    ghost use Rattle.wasm_module_validator_type_storage.specs.trees.BelowIds.{IsIdBelow};
    ghost use Rattle.wasm_module_validator_canonical_types.specs.matches.MatchesById.{FieldMatchesById};

    ghost has_known_ids = { λ groups x. EachStorage (IsIdBelow (count groups)) (field_of x.inner).storage };

    ghost is_match = { λ groups x y. FieldMatchesById groups (field_of x.inner) (field_of y.inner) };

    fn matches(types: &TypeList, a: Self, b: Self) -> bool {
        field_matches(types, &a.inner, &b.inner)
    }
}

impl Matches for WithRecGroup<StorageType> {
    ghost use Rattle.wasm_types.specs.trees.Each.{EachStorage};
    ghost use Rattle.wasm_types.specs.values.Values.{storage_of};
    ghost use Rattle.wasm_module_validator_type_storage.specs.trees.Groups.{count};
    ghost use Rattle.wasm_module_validator_type_storage.specs.trees.BelowIds.{IsIdBelow};
    ghost use Rattle.wasm_module_validator_canonical_types.specs.matches.MatchesById.{StorageMatchesById};

    ghost has_known_ids = { λ groups x. EachStorage (IsIdBelow (count groups)) (storage_of x.inner) };

    ghost is_match = { λ groups x y. StorageMatchesById groups (storage_of x.inner) (storage_of y.inner) };

    fn matches(types: &TypeList, a: Self, b: Self) -> bool {
        storage_matches(types, &a.inner, &b.inner)
    }
}

impl Matches for WithRecGroup<ValType> {
    ghost use Rattle.wasm_types.specs.trees.Each.{EachValue};
    ghost use Rattle.wasm_types.specs.values.Values.{value_of};
    ghost use Rattle.wasm_module_validator_type_storage.specs.trees.Groups.{count};
    ghost use Rattle.wasm_module_validator_type_storage.specs.trees.BelowIds.{IsIdBelow, ValueBelowById};

    ghost has_known_ids = { λ groups x. EachValue (IsIdBelow (count groups)) (value_of x.inner) };

    ghost is_match = { λ groups x y. ValueBelowById groups (value_of x.inner) (value_of y.inner) };

    fn matches(types: &TypeList, a: Self, b: Self) -> bool {
        types.valtype_is_subtype(a.inner, b.inner)
    }
}

impl Matches for WithRecGroup<RefType> {
    ghost use Rattle.wasm_types.specs.trees.Types.{ref};
    ghost use Rattle.wasm_types.specs.trees.Each.{EachHeap};
    ghost use Rattle.wasm_types.specs.values.Trees.{heap_of};
    ghost use Rattle.wasm_module_validator_type_storage.specs.trees.Groups.{count};
    ghost use Rattle.wasm_module_validator_type_storage.specs.trees.BelowIds.{IsIdBelow, ValueBelowById};

    ghost has_known_ids = { λ groups x. EachHeap (IsIdBelow (count groups)) (heap_of x.inner.heap) };

    ghost is_match = { λ groups x y. ValueBelowById groups (ref x.inner.nullable (heap_of x.inner.heap))
        (ref y.inner.nullable (heap_of y.inner.heap)) };

    fn matches(types: &TypeList, a: Self, b: Self) -> bool {
        types.reftype_is_subtype(a.inner, b.inner)
    }
}
