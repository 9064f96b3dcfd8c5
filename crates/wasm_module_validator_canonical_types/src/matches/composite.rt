//! Composite types by their constructors.

ghost use Rattle.std.specs.Prelude.{◌↔◌, IsTrue};
ghost use Rattle.wasm_types.specs.trees.Each.{EachInner};
ghost use Rattle.wasm_types.specs.fields.Fields.{function_tree, continuation_tree};
ghost use Rattle.wasm_types.specs.Entries.{inner_of, composite_of};
ghost use Rattle.wasm_module_validator_type_storage.specs.trees.Groups.{count};
ghost use Rattle.wasm_module_validator_type_storage.specs.trees.BelowIds.{IsIdBelow};
ghost use Rattle.wasm_module_validator_canonical_types.specs.matches.MatchesById.{InnerMatchesById, EntryMatchesById};

use crate::matches::fields::{field_matches, fields_match, results_match};
use wasm_module_validator_type_list::TypeList;
use wasm_types::{CompositeInnerType, CompositeType, ContType, FuncType, RefType};

/// Whether a function type matches another: the other's parameters match its own, and its results match the other's.
pub(crate) fn function_matches(types: &TypeList, a: &FuncType, b: &FuncType) -> bool
    requires first { EachInner (IsIdBelow (count types.now.groups)) (function_tree a.now) }
    requires second { EachInner (IsIdBelow (count types.now.groups)) (function_tree b.now) }
    ensures { IsTrue result ↔ InnerMatchesById types.now.groups (function_tree a.now) (function_tree b.now) }
{
    results_match(types, b.params(), a.params()) && results_match(types, a.results(), b.results())
}

/// Whether a continuation type matches another: its function type is the other's, or is declared below it.
pub(crate) fn continuation_matches(types: &TypeList, a: &ContType, b: &ContType) -> bool
    requires first { EachInner (IsIdBelow (count types.now.groups)) (continuation_tree a.now) }
    requires second { EachInner (IsIdBelow (count types.now.groups)) (continuation_tree b.now) }
    ensures { IsTrue result ↔ InnerMatchesById types.now.groups (continuation_tree a.now) (continuation_tree b.now) }
{
    types.reftype_is_subtype(RefType::concrete(false, a.0), RefType::concrete(false, b.0))
}

/// Whether a composite type matches another, by the constructor of both.
pub(crate) fn inner_matches(
    types: &TypeList,
    a: &CompositeInnerType,
    b: &CompositeInnerType,
) -> bool
    requires first { EachInner (IsIdBelow (count types.now.groups)) (inner_of a.now) }
    requires second { EachInner (IsIdBelow (count types.now.groups)) (inner_of b.now) }
    ensures { IsTrue result ↔ InnerMatchesById types.now.groups (inner_of a.now) (inner_of b.now) }
{
    match (a, b) {
        (CompositeInnerType::Func(a), CompositeInnerType::Func(b)) => function_matches(types, a, b),
        (CompositeInnerType::Array(a), CompositeInnerType::Array(b)) => {
            field_matches(types, &a.0, &b.0)
        }
        (CompositeInnerType::Struct(a), CompositeInnerType::Struct(b)) => {
            fields_match(types, a.fields.as_slice(), b.fields.as_slice())
        }
        (CompositeInnerType::Cont(a), CompositeInnerType::Cont(b)) => {
            continuation_matches(types, a, b)
        }
        _ => false,
    }
}

/// Whether a composite type matches another: both are shared or neither is, and their inner types match.
pub(crate) fn composite_matches(types: &TypeList, a: &CompositeType, b: &CompositeType) -> bool
    requires first { EachInner (IsIdBelow (count types.now.groups)) (inner_of a.now.inner) }
    requires second { EachInner (IsIdBelow (count types.now.groups)) (inner_of b.now.inner) }
    ensures { IsTrue result ↔ EntryMatchesById types.now.groups (composite_of a.now) (composite_of b.now) }
{
    a.shared == b.shared && inner_matches(types, &a.inner, &b.inner)
}
