//! A module under validation: so far its types.

ghost use Rattle.std.specs.Prelude.{◌≡◌, ◌⊎◌, ◌∷◌, ◌++◌, ◌+◌, ◌-◌, ◌<◌, ◌≤◌, ◌^◌, [], IsTrue, false, OnOk, OnErr, IfErr, length, vec_len, vec_capacity};
ghost use Rattle.wasm_types.specs.decoding.Denials.{Tells, RefusedAt};
ghost use Rattle.wasm_types.specs.decoding.declared.error.ErrorKind.TheVariants.{Other};
ghost use Rattle.wasm_types.specs.Entries.{declared_types};
ghost use Rattle.wasm_types.specs.trees.ValidGroup.{IsValidGroup, types_of};
ghost use Rattle.wasm_module_validator_type_list.specs.List.{HasRoom};
ghost use Rattle.wasm_module_validator_canonical_types.specs.Written.{AreModuleIndices};
ghost use Rattle.wasm_module_validator_type_groups.specs.adding.Interned.{space_of, AreIdsKnown, written_group, kept_group, IsChecked, AddsGroup};
ghost use Rattle.wasm_module_validator_type_groups.specs.adding.Modules.{settings_of};

use crate::adding::canonicalize_and_intern_rec_group;
use std::alloc::{AllocError, Global};
use wasm_module_validator_canonical_types::InternRecGroup;
use wasm_module_validator_type_list::TypeList;
use wasm_types::{
    CoreTypeId, Error, Limits, ModuleWords, RecGroup, Result as Reading, Text, WasmFeatures, Words,
};

/// A module as far as it was validated: the ids of its types, with the features that are allowed and the limits that hold.
#[derive(Drop)]
pub struct Module {
    features: WasmFeatures,
    limits: Limits,
    types: Vec<CoreTypeId>,
    ghost short: { length types.items < 2 ^ 32 },
}

impl InternRecGroup for Module {
    ghost ids = { λ m. m.types.items };

    ghost room = { λ m. vec_capacity m.types - vec_len m.types };

    ghost settings = { λ m. settings_of m.features.0 m.limits };

    fn reserve_type_ids(&mut self, additional: usize) -> Result<(), AllocError> {
        self.types.reserve(additional)
    }

    fn add_type_id(&mut self, id: CoreTypeId) {
        let _ = self.types.push(id);
    }

    fn type_id_at(&self, idx: u32, offset: u64) -> Reading<CoreTypeId> {
        match self.types.get(idx as usize) {
            Some(id) => Ok(*id),
            None => Err(Error::with(
                Text::Number(Words::UnknownType, idx, Words::TypeIndexOutOfBounds),
                offset,
            )),
        }
    }

    fn type_ids(&self) -> &[CoreTypeId] {
        self.types.as_slice()
    }

    fn types_len(&self) -> u32 {
        self.types.len() as u32
    }

    fn features(&self) -> &WasmFeatures {
        &self.features
    }

    fn limits(&self) -> &Limits {
        &self.limits
    }
}

// Refuses more of a thing than a limit allows.
fn check_max(len: usize, further: usize, most: u32, name: Words, offset: u64) -> Reading<()>
    ensures answer { Tells result (len + further ≤ most) }
    ensures at { IfErr result (λ e. (e.kind ≡ Other) × (e.offset ≡ offset)) }
{
    let most = most as usize;
    if len <= most && further <= most - len {
        return Ok(());
    }
    if most == 1 {
        return Err(Error::with(
            Text::Word(Words::Module(ModuleWords::Multiple), name),
            offset,
        ));
    }
    Err(Error::with(Text::PastLimit(name, most as u32), offset))
}

impl Module {
    /// A module with no types, under these features and limits. It takes no memory.
    pub fn new(alloc: Global, features: WasmFeatures, limits: Limits) -> Module
        ensures types { result.types.items ≡ [] }
        ensures features { result.features ≡ features }
        ensures limits { result.limits ≡ limits }
    {
        Module {
            features,
            limits,
            types: Vec::new(alloc),
        }
    }

    /// Adds a group of types, as `canonicalize_and_intern_rec_group` does; where the limit of types is to be tested, that comes
    /// before all else.
    ///
    /// # Errors
    ///
    /// Refused is a group with which there are more types than the limit, where that is tested, and what
    /// `canonicalize_and_intern_rec_group` refuses. A refusal adds no type to the module; what it leaves of the list is said
    /// there.
    pub fn add_types(
        &mut self,
        rec_group: RecGroup,
        types: &mut TypeList,
        offset: u64,
        check_limit: bool,
    ) -> Reading<()>
        requires can_intern { IsTrue types.old.can_intern }
        requires checked { IsChecked (settings_of self.old.features.0 self.old.limits) types.old.groups }
        requires known { AreIdsKnown types.old.groups self.old.types.items }
        requires short { check_limit ≡ false → length self.old.types.items + length
            (declared_types rec_group) < 2 ^ 32 }
        requires indices { AreModuleIndices (declared_types rec_group) }
        ensures answer { Tells result ((IsTrue check_limit → length self.old.types.items + length
            (declared_types rec_group) ≤ self.old.limits.types)
            × IsValidGroup (settings_of self.old.features.0 self.old.limits)
            (space_of types.old.groups self.old.types.items) (written_group rec_group)
            × HasRoom types.old.groups (length (declared_types rec_group))) }
        ensures added { OnOk result (AddsGroup types.old.groups types.new.groups self.old.types.items
            self.new.types.items
            (kept_group self.old.features.0 self.old.types.items (declared_types rec_group))) }
        ensures space { OnOk result (space_of types.new.groups self.new.types.items
            ≡ space_of types.old.groups self.old.types.items ++ types_of (space_of types.old.groups self.old.types.items) (written_group rec_group)) }
        ensures checked { OnOk result (IsChecked (settings_of self.old.features.0 self.old.limits) types.new.groups) }
        ensures known { OnOk result (AreIdsKnown types.new.groups self.new.types.items) }
        ensures refused { OnErr result (self.new.types.items ≡ self.old.types.items) }
        ensures list { OnErr result ((types.new.groups ≡ types.old.groups)
            ⊎ (types.new.groups ≡ kept_group self.old.features.0 self.old.types.items
            (declared_types rec_group) ∷ types.old.groups)) }
        ensures at { RefusedAt offset result }
        ensures settings { settings_of self.new.features.0 self.new.limits
            ≡ settings_of self.old.features.0 self.old.limits }
        ensures can_intern { IsTrue types.new.can_intern }
        ensures limits { types.new.limits ≡ types.old.limits }
    {
        if check_limit {
            let further = rec_group.types().len();
            check_max(
                self.types.len(),
                further,
                self.limits.types,
                Words::Module(ModuleWords::Types),
                offset,
            )?;
        }
        canonicalize_and_intern_rec_group(self, types, rec_group, offset)
    }
}
