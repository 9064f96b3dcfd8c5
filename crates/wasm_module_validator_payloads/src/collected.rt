//! The items of a module so far, and the list of their types.

ghost use Rattle.std.specs.Prelude.{◌≡◌, IfOk, IsTrue, OnErr, OnOk};
ghost use Rattle.wasm_module_validator_payloads.specs.Progress.{are_same, nothing_kept, renewed, next_over};

use crate::{HeldSettings, SharedModule};
use std::alloc::{AllocError, Global};
use std::marker::Model;
use std::mem;
use wasm_module_validator_state::invariant::ModuleState;
use wasm_module_validator_type_list::TypeList;

/// The items of a module that is being read, and the list of their types. A contract sees what is kept (`specs/Progress.antt`).
#[derive(Drop)]
pub struct Collected {
    pub(crate) state: ModuleState,
    pub(crate) types: TypeList,
    // How many groups of types the module has written.
    pub(crate) groups: u32,
    pub(crate) alloc: Global,
}

impl Model for Collected {
    ghost use Rattle.std.specs.Prelude.{◌≡◌, true};
    ghost use Rattle.wasm_module_validator_payloads.specs.Progress.{IsOver, Kept};

    ghost Value = { Kept };

    ghost view = { λ c. record { groups = c.types.groups; items = c.state; count = c.groups } };

    ghost invariant = { λ c. (c.types.can_intern ≡ true) × IsOver c.types c.state.spaces };
}

// Whether a module is read by these settings.
fn has_settings(state: &ModuleState, settings: &HeldSettings) -> bool
    ensures same { result ≡ are_same state.now.spaces.settings settings.now }
    ensures equal { IsTrue result → state.now.spaces.settings ≡ settings.now }
{
    let own = state.settings();
    own.features() == settings.features() && own.limits() == settings.limits()
}

impl Collected {
    /// Of a module of which nothing was read, by these settings. It takes no memory.
    pub(crate) fn new(alloc: Global, settings: &HeldSettings) -> Collected
        ensures { result ≡ (nothing_kept settings.now).kept }
    {
        let limits = settings.limits();
        Collected {
            state: ModuleState::new(alloc, settings.features(), limits),
            types: TypeList::new(alloc, limits),
            groups: 0,
            alloc,
        }
    }

    // Begins with another module, over the same list, and gives the state and the number of groups of that before. It takes no memory.
    fn replace(&mut self) -> (ModuleState, u32)
        ensures next { self.new ≡ (next_over self.old).kept }
        ensures before { record { groups = self.old.groups; items = result.0; count = result.1 } ≡ self.old }
    {
        let settings = self.state.settings();
        let state = ModuleState::new(self.alloc, settings.features(), settings.limits());
        let groups = mem::replace(&mut self.groups, 0);
        (mem::replace(&mut self.state, state), groups)
    }

    /// Begins with another module by these settings, over the same list of types if this one was read by them too. It takes no memory.
    pub(crate) fn renew(&mut self, settings: &HeldSettings)
        ensures { self.new ≡ (renewed settings.now self.old).kept }
    {
        if has_settings(&self.state, settings) {
            let _ = self.replace();
        } else {
            *self = Collected::new(self.alloc, settings);
        }
    }

    /// Gives the module as it was read, with a list of its types that may be shared, and begins with another over the same types. Where
    /// there is no memory, it stays.
    pub(crate) fn close(&mut self) -> Result<SharedModule, AllocError>
        ensures next { OnOk result (self.new ≡ (next_over self.old).kept) }
        ensures stays { OnErr result (self.new ≡ self.old) }
        ensures closed { IfOk result (λ s. s ≡ self.old) }
    {
        let types = self.types.commit()?;
        let (state, groups) = self.replace();
        Ok(SharedModule {
            state,
            types,
            groups,
        })
    }
}
