//! Matching of the types of ids.

ghost use Rattle.std.specs.Prelude.{◌≡◌, ◌↔◌, ◌<◌, IsTrue};
ghost use Rattle.wasm_types.specs.Entries.{declared_of};
ghost use Rattle.wasm_module_validator_type_storage.specs.trees.Groups.{count};
ghost use Rattle.wasm_module_validator_type_storage.specs.trees.BelowIds.{entry_by_id};
ghost use Rattle.wasm_module_validator_canonical_types.specs.matches.MatchesById.{MatchesById, HasKnownIds};

use crate::matches::composite::composite_matches;
use wasm_module_validator_type_list::TypeList;
use wasm_types::{CoreTypeId, SubType};

/// The type of an id.
pub fn stored_type(types: &TypeList, id: CoreTypeId) -> &SubType
    requires { id.0 < count types.now.groups }
    ensures { (declared_of result.now).entry ≡ entry_by_id types.now.groups id }
{
    match types.get(id) {
        Some(ty) => ty,
        None => unreachable!(),
    }
}

/// Whether the type of an id matches that of another. Neither finality nor supertypes count: those are tested where a type is
/// declared.
pub fn types_match(types: &TypeList, a: CoreTypeId, b: CoreTypeId) -> bool
    requires first { a.0 < count types.now.groups }
    requires second { b.0 < count types.now.groups }
    requires first_ids { HasKnownIds types.now.groups (entry_by_id types.now.groups a) }
    requires second_ids { HasKnownIds types.now.groups (entry_by_id types.now.groups b) }
    ensures { IsTrue result ↔ MatchesById types.now.groups a b }
{
    let a = stored_type(types, a);
    let b = stored_type(types, b);
    composite_matches(types, &a.composite_type, &b.composite_type)
}
