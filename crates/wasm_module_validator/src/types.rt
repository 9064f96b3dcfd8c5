//! What a validator learned of a module.

ghost use Rattle.std.specs.Prelude.{◌≡◌};
ghost use Rattle.wasm_module_validator.specs.Lists.{AreToldUnder};
ghost use Rattle.wasm_module_validator.specs.Shown.{shown, shown_of};

use std::marker::Model;
use std::ops::Index;
use std::rc::Rc;
use wasm_module_validator_drivers::{ModuleState, SharedModule, TypeList};
use wasm_module_validator_index_spaces::view::{TypesRef, ValidatorId};
use wasm_types::{CoreTypeId, SubType};

/// What a validator learned of a module: its index spaces, and the list of its types. `types[id]` is the type of an id.
#[derive(Drop)]
pub struct Types {
    pub(crate) id: ValidatorId,
    pub(crate) module: Rc<SharedModule>,
}

impl Model for Types {
    ghost use Rattle.wasm_module_validator.specs.Shown.{Learned};

    ghost Value = { Learned };

    ghost view = { λ t. record { id = t.id; kept = t.«module».value } };
}

impl Types {
    /// The same, borrowed, to look something up.
    pub fn as_ref(&self) -> TypesRef<'_>
        ensures { result ≡ shown self.now }
    {
        look_up(self.id, self.module.state(), self.module.types())
    }

    // Two ids of its list are the same exactly if their types are, if types are kept in canonical form. It does nothing.
    pub(crate) fn tell_ids(&self)
        ensures { AreToldUnder self.now.kept.items.spaces.settings self.now.kept.groups self.now.kept.groups }
    {
        let _count = self.module.types().type_count();
    }
}

impl Index<CoreTypeId> for Types {
    ghost use Rattle.wasm_types.specs.Entries.{declared_of};
    ghost use Rattle.wasm_module_validator_index_spaces.specs.view.Shown.{knows, is_type_of};
    ghost use Rattle.wasm_module_validator.specs.Shown.{shown};

    type Output = SubType;

    ghost can_index = { λ r id. knows (shown r) id };

    ghost index_gives = { λ r id t. is_type_of (shown r) id (declared_of t) };

    fn index(&self, id: CoreTypeId) -> &SubType {
        look_up(self.id, self.module.state(), self.module.types()).at(id)
    }
}

// What was read so far of a module, borrowed, by the validator of this id: its items, and the list of its types.
pub(crate) fn look_up<'t>(
    id: ValidatorId,
    state: &'t ModuleState,
    types: &'t TypeList,
) -> TypesRef<'t>
    ensures { result ≡ shown_of id types.now.groups state.now }
{
    TypesRef::new(id, types, state.module(), state.imports(), state.exports())
}
