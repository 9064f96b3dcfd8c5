//! What a list has under an id and under the number of a group.

ghost use Rattle.std.specs.Prelude.{◌≡◌, ◌<◌, length, Some, slice_get};
ghost use Rattle.wasm_types.specs.Entries.{declared_of};
ghost use Rattle.wasm_module_validator_type_storage.specs.trees.Groups.{count, declared_by_id};
ghost use Rattle.wasm_module_validator_type_list.specs.Lookups.{HasIds};

use crate::{RecGroupId, TypeList};
use std::ops::{Index, Range};
use wasm_types::{CoreTypeId, SubType};

impl Index<CoreTypeId> for TypeList {
    type Output = SubType;

    ghost can_index = { λ list id. id.0 < count list.groups };

    ghost index_gives = { λ list id ty. slice_get (declared_by_id list.groups) id.0 ≡ Some (declared_of ty) };

    fn index(&self, id: CoreTypeId) -> &SubType {
        match self.get(id) {
            Some(ty) => ty,
            None => unreachable!(),
        }
    }
}

impl Index<RecGroupId> for TypeList {
    type Output = Range<CoreTypeId>;

    ghost can_index = { λ list rec_group. rec_group.0 < length list.groups };

    ghost index_gives = { λ list rec_group ids. HasIds list.groups rec_group.0 ids.start.0 ids.end.0 };

    fn index(&self, rec_group: RecGroupId) -> &Range<CoreTypeId> {
        self.rec_group_elements(rec_group)
    }
}
