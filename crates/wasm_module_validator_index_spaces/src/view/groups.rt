//! Types by their ids, and their groups.

ghost use Rattle.std.specs.Prelude.{◌≡◌, ◌<◌, ◌-◌, ℕ, length, slice_get, option_map, Some, IfSome};
ghost use Rattle.std.specs.Iterator.{YieldsFirst, item_count};
ghost use Rattle.wasm_types.specs.Entries.{declared_of};
ghost use Rattle.wasm_module_validator_type_storage.specs.trees.Groups.{count, declared_by_id, group_numbers};
ghost use Rattle.wasm_module_validator_type_storage.specs.trees.ByIds.{supertype_of};
ghost use Rattle.wasm_module_validator_type_list.specs.Lookups.{HasIds};
ghost use Rattle.wasm_module_validator_index_spaces.specs.view.Shown.{ids_from, is_type_of, knows};

use crate::view::TypesRef;
use std::marker::Model;
use std::ops::Index;
use wasm_module_validator_type_list::RecGroupId;
use wasm_types::{CoreTypeId, SubType};

impl<'a> TypesRef<'a> {
    /// The type of an id, which names the types of its group by their ids; none where the list has no such id.
    pub fn get(&self, id: CoreTypeId) -> Option<&'a SubType>
        ensures { option_map (λ t. declared_of t.now) result ≡ slice_get (declared_by_id self.now.groups) id.0 }
    {
        self.types.get(id)
    }

    /// The type of an id that the list has, as `types[id]`.
    pub fn at(&self, id: CoreTypeId) -> &'a SubType
        requires { knows self.now id }
        ensures { is_type_of self.now id (declared_of result.now) }
    {
        match self.types.get(id) {
            Some(ty) => ty,
            None => unreachable!(),
        }
    }

    /// The group that the type of an id stands in.
    pub fn rec_group_id_of(&self, id: CoreTypeId) -> RecGroupId
        requires { id.0 < count self.now.groups }
        ensures { slice_get (group_numbers self.now.groups) id.0 ≡ Some result.0 }
    {
        self.types.rec_group_id_of(id)
    }

    /// The ids of the types of a group, in their order.
    pub fn rec_group_elements(&self, id: RecGroupId) -> RecGroupElements
        requires { id.0 < length self.now.groups }
        ensures { (first end : ℕ) → HasIds self.now.groups id.0 first end → result ≡ ids_from first (end - first) }
    {
        let elements = self.types.rec_group_elements(id);
        let next = elements.start.number();
        RecGroupElements {
            next,
            remaining: elements.end.number().saturating_sub(next),
        }
    }

    /// The supertype that the type of an id declares.
    pub fn supertype_of(&self, id: CoreTypeId) -> Option<CoreTypeId>
        requires { id.0 < count self.now.groups }
        ensures declared { result ≡ supertype_of self.now.groups id }
        ensures earlier { IfSome result (λ above. above.0 < id.0) }
    {
        self.types.supertype_of(id)
    }
}

impl Index<CoreTypeId> for TypesRef<'_> {
    ghost use Rattle.wasm_types.specs.Entries.{declared_of};
    ghost use Rattle.wasm_module_validator_index_spaces.specs.view.Shown.{knows, is_type_of};

    type Output = SubType;

    ghost can_index = { λ r id. knows r id };

    ghost index_gives = { λ r id t. is_type_of r id (declared_of t) };

    fn index(&self, id: CoreTypeId) -> &SubType {
        self.at(id)
    }
}

/// The ids of the types of a group that are left, one by one. A contract sees them as a list.
#[derive(Drop)]
pub struct RecGroupElements {
    next: u32,
    remaining: u32,
}

impl Model for RecGroupElements {
    ghost use Rattle.std.specs.Prelude.{◌+◌, ◌<◌, ◌^◌, List};
    ghost use Rattle.wasm_types.specs.trees.declared.index.CoreTypeId.{CoreTypeId as Id};
    ghost use Rattle.wasm_module_validator_index_spaces.specs.view.Shown.{ids_from};

    ghost Value = { List Id };

    ghost view = { λ e. ids_from e.next e.remaining };

    ghost invariant = { λ e. e.next + e.remaining < 2 ^ 32 };
}

impl Iterator for RecGroupElements {
    type Item = CoreTypeId;

    ghost use Rattle.std.specs.Prelude.{Some, IfSome};

    ghost next_gives = { YieldsFirst (λ rest. rest) };

    ghost remaining = { item_count (λ rest. rest) };

    fn next(&mut self) -> Option<CoreTypeId> {
        if self.remaining == 0 {
            return None;
        }
        let id = CoreTypeId::new(self.next);
        self.next += 1;
        self.remaining -= 1;
        Some(id)
    }
}
