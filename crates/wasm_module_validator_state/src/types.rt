//! Groups of types.

ghost use Rattle.std.specs.Prelude.{◌≡◌, ◌+◌, ◌<◌, ◌≤◌, ◌^◌, ◌++◌, ◌⊎◌, ◌∷◌, false, IsTrue, OnOk, OnErr, length};
ghost use Rattle.wasm_types.specs.decoding.Denials.{Tells, RefusedAt};
ghost use Rattle.wasm_types.specs.Entries.{declared_types};
ghost use Rattle.wasm_types.specs.trees.ValidGroup.{IsValidGroup, types_of};
ghost use Rattle.wasm_module_validator_type_list.specs.List.{HasRoom};
ghost use Rattle.wasm_module_validator_canonical_types.specs.Written.{AreModuleIndices};
ghost use Rattle.wasm_module_validator_type_groups.specs.adding.Interned.{space_of, written_group, kept_group, AddsGroup};
ghost use Rattle.wasm_module_validator_resources.specs.Named.{IsReadOver};
ghost use Rattle.wasm_module_validator_resources.specs.Reading.{context_of};
ghost use Rattle.wasm_module_validator_state.specs.Contexts.{with_types, AreNamesKnown};

use crate::ModuleState;
use wasm_module_validator_type_list::TypeList;
use wasm_types::{RecGroup, Result};

impl ModuleState {
    /// Adds a group of types to the list and to the module; where the limit of types is to be tested, that comes before all else.
    ///
    /// # Errors
    ///
    /// Refused is a group with which there are more types than the limit, where that is tested; a group that is not valid behind the
    /// module's types; and one for which the list has no room. The state stays then; of the list that is said by `Module::add_types`.
    pub fn add_types(
        &mut self,
        rec_group: RecGroup,
        types: &mut TypeList,
        offset: u64,
        check_limit: bool,
    ) -> Result<()>
        requires can_intern { IsTrue types.old.can_intern }
        requires read { IsReadOver types.old.groups self.old.spaces }
        requires short { check_limit ≡ false → length self.old.spaces.types + length
            (declared_types rec_group) < 2 ^ 32 }
        requires indices { AreModuleIndices (declared_types rec_group) }
        ensures answer { Tells result ((IsTrue check_limit → length self.old.spaces.types + length
            (declared_types rec_group) ≤ self.old.spaces.settings.limits.types)
            × IsValidGroup self.old.spaces.settings (space_of types.old.groups self.old.spaces.types)
            (written_group rec_group)
            × HasRoom types.old.groups (length (declared_types rec_group))) }
        ensures interned { OnOk result (AddsGroup types.old.groups types.new.groups self.old.spaces.types
            self.new.spaces.types
            (kept_group self.old.spaces.settings.features self.old.spaces.types (declared_types rec_group))) }
        ensures added { self.new ≡ record self.old {
          spaces = record self.old.spaces { types = self.new.spaces.types };
        } }
        ensures space { OnOk result (space_of types.new.groups self.new.spaces.types
            ≡ space_of types.old.groups self.old.spaces.types ++ types_of (space_of types.old.groups self.old.spaces.types) (written_group rec_group)) }
        ensures context { OnOk result (AreNamesKnown types.old.groups self.old.spaces
            → context_of types.new.groups self.new.spaces
            ≡ with_types (types_of (space_of types.old.groups self.old.spaces.types) (written_group rec_group)) (context_of types.old.groups self.old.spaces)) }
        ensures read { OnOk result (IsReadOver types.new.groups self.new.spaces) }
        ensures stays { OnErr result (self.new ≡ self.old) }
        ensures list { OnErr result ((types.new.groups ≡ types.old.groups)
            ⊎ (types.new.groups ≡ kept_group self.old.spaces.settings.features self.old.spaces.types
            (declared_types rec_group) ∷ types.old.groups)) }
        ensures refused { RefusedAt offset result }
        ensures can_intern { IsTrue types.new.can_intern }
        ensures limits { types.new.limits ≡ types.old.limits }
    {
        self.module.add_types(rec_group, types, offset, check_limit)
    }
}
