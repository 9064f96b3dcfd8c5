//! Single types interned as groups of their own.

ghost use Rattle.std.specs.Prelude.{◌≡◌, true, IsTrue, OnErr, IfOk};
ghost use Rattle.wasm_types.specs.decoding.Denials.{Tells, RefusedAt};
ghost use Rattle.wasm_types.specs.Entries.{declared_of};
ghost use Rattle.wasm_module_validator_type_storage.specs.trees.Groups.{count};
ghost use Rattle.wasm_module_validator_type_storage.specs.trees.Formed.{IsGroupFormed};
ghost use Rattle.wasm_module_validator_type_list.specs.Depths.{KeepsDepths};
ghost use Rattle.wasm_module_validator_type_list.specs.List.{HasRoom, alone, InternsAlone, function_alone};

use crate::TypeList;
use wasm_types::{CoreTypeId, FuncType, RecGroup, Result as Reading, SubType};

impl TypeList {
    /// The id of a type that is interned as a group of its own (`intern_canonical_rec_group`). Refused are, before all else
    /// (out of memory aside), a type past 2^20 types and a group that would be the 2^32nd behind the first. A refusal changes no
    /// type and no id.
    pub fn intern_sub_type(&mut self, sub_ty: SubType, offset: u64) -> Reading<CoreTypeId>
        requires can_intern { IsTrue self.old.can_intern }
        requires formed { IsGroupFormed (count self.old.groups) (alone (declared_of sub_ty)) }
        ensures answer { Tells result (HasRoom self.old.groups 1) }
        ensures interned { IfOk result (λ id. InternsAlone self.old.groups self.new.groups (declared_of sub_ty) id) }
        ensures refused { OnErr result (self.new.groups ≡ self.old.groups) }
        ensures at { RefusedAt offset result }
        ensures can_intern { self.new.can_intern ≡ true }
        ensures depths { KeepsDepths self.old.groups self.old.depths self.new.depths }
        ensures limits { self.new.limits ≡ self.old.limits }
    {
        let group = RecGroup::implicit(self.alloc, offset, sub_ty)?;
        let (_, number) = self.intern_canonical_rec_group(true, group, offset)?;
        Ok(self.rec_group_elements(number).start)
    }

    /// The id of a function type that is interned as a final type of its own, which is not shared.
    pub fn intern_func_type(&mut self, ty: FuncType, offset: u64) -> Reading<CoreTypeId>
        requires can_intern { IsTrue self.old.can_intern }
        requires formed { IsGroupFormed (count self.old.groups) (alone (function_alone ty)) }
        ensures answer { Tells result (HasRoom self.old.groups 1) }
        ensures interned { IfOk result (λ id. InternsAlone self.old.groups self.new.groups (function_alone ty) id) }
        ensures refused { OnErr result (self.new.groups ≡ self.old.groups) }
        ensures at { RefusedAt offset result }
        ensures can_intern { self.new.can_intern ≡ true }
        ensures depths { KeepsDepths self.old.groups self.old.depths self.new.depths }
        ensures limits { self.new.limits ≡ self.old.limits }
    {
        self.intern_sub_type(SubType::func(self.alloc, ty, false), offset)
    }
}
