//! What names a type or a group of a list.

ghost use Rattle.std.specs.Prelude.{◌≡◌, ℕ, List, length, map};
ghost use Rattle.wasm_types.specs.Entries.{declared_of};
ghost use Rattle.wasm_module_validator_type_storage.specs.trees.Groups.{Group, count, declared_by_id, group_ranges};
ghost use Rattle.wasm_module_validator_type_alloc.specs.ListedLaws.{types_counted, groups_counted};

use crate::TypeData;
use std::ops::Range;
use wasm_module_validator_type_list::{RecGroupId, TypeList};
use wasm_module_validator_type_storage::snapshots::SnapshotList;
use wasm_types::{CoreTypeId, SubType};

/// What names something in a list of types, by its number.
pub trait TypeIdentifier: Copy {
    /// What it names.
    type Data: TypeData;

    /// Its number.
    ghost number: { Self → ℕ };

    /// How many have a name of this kind, of groups in a list.
    ghost named: { List Group → ℕ };

    /// What these names name, of groups in a list, in the order of the numbers.
    ghost are_listed: { List Group → List Self.Data → Type 0 };

    /// The identifier of a number.
    fn from_index(index: u32) -> Self
        ensures { number result ≡ index };

    /// What a list has under identifiers of this kind.
    fn list(types: &TypeList) -> &SnapshotList<Self::Data>
        ensures { are_listed types.now.groups result.now.items };

    /// Its number.
    fn index(&self) -> usize
        ensures { result ≡ number self.now };

    // Each number below the count names something.
    ghost counted: { (groups : List Group) (items : List Self.Data) → are_listed groups items
        → length items ≡ named groups };
}

impl TypeIdentifier for CoreTypeId {
    type Data = SubType;

    ghost number = { λ id. id.0 };

    ghost named = { count };

    ghost are_listed = { λ groups types. map declared_of types ≡ declared_by_id groups };

    fn from_index(index: u32) -> Self {
        CoreTypeId::new(index)
    }

    fn list(types: &TypeList) -> &SnapshotList<SubType> {
        types.sub_types()
    }

    fn index(&self) -> usize {
        self.number() as usize
    }

    ghost counted = { types_counted };
}

impl TypeIdentifier for RecGroupId {
    type Data = Range<CoreTypeId>;

    ghost number = { λ id. id.0 };

    ghost named = { λ groups. length groups };

    ghost are_listed = { λ groups ranges. map (λ r. (r.start.0, r.end.0)) ranges ≡ group_ranges groups };

    fn from_index(index: u32) -> Self {
        RecGroupId::new(index)
    }

    fn list(types: &TypeList) -> &SnapshotList<Range<CoreTypeId>> {
        types.group_elements()
    }

    fn index(&self) -> usize {
        self.number() as usize
    }

    ghost counted = { groups_counted };
}
