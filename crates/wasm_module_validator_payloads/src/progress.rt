//! What is kept of a module that is being read.

ghost use Rattle.std.specs.Prelude.{◌≡◌, IfOk, OnErr, OnOk};
ghost use Rattle.wasm_types.specs.settings.Limits.{IsWithinCeilings};
ghost use Rattle.wasm_module_validator_resources.specs.Named.{IsReadOver};
ghost use Rattle.wasm_module_validator_resources.specs.Reading.{meaning_of};
ghost use Rattle.wasm_module_validator_payloads.specs.Progress.{nothing_kept, renewed, next_over};

use crate::{Collected, HeldSettings, SharedModule};
use std::alloc::{AllocError, Global};
use std::marker::Model;
use wasm_module_validator_resources::OperatorValidatorResources;
use wasm_module_validator_state::invariant::ModuleState;
use wasm_module_validator_type_list::TypeList;
use wasm_types::{Limits, WasmFeatures};

/// A module that is being read. A contract sees what is kept (`specs/Progress.antt`).
#[derive(Drop)]
pub struct InProgress {
    pub(crate) collected: Collected,
    // The place of the last section in the order of sections.
    pub(crate) last: u32,
}

impl Model for InProgress {
    ghost use Rattle.wasm_module_validator_payloads.specs.Progress.{Progress};

    ghost Value = { Progress };

    ghost view = { λ r. record { kept = r.collected; last = r.last } };
}

impl InProgress {
    /// A module of which nothing was read, by these settings. It takes no memory.
    pub fn new(alloc: Global, settings: &HeldSettings) -> InProgress
        ensures { result ≡ nothing_kept settings.now }
    {
        InProgress {
            collected: Collected::new(alloc, settings),
            last: 0,
        }
    }

    /// Begins with another module by these settings, of which nothing was read: over the same list of types, if this one was read by the
    /// same settings, and else over a list with none. It takes no memory.
    pub fn renew(&mut self, settings: &HeldSettings)
        ensures { self.new ≡ renewed settings.now self.old.kept }
    {
        self.collected.renew(settings);
        self.last = 0;
    }

    /// Gives the module as it was read, so that it may be shared, and begins with another by the same settings, over the same list of types.
    ///
    /// # Errors
    ///
    /// There is no memory. The module stays.
    pub fn close(&mut self) -> Result<SharedModule, AllocError>
        ensures next { OnOk result (self.new ≡ next_over self.old.kept) }
        ensures stays { OnErr result (self.new ≡ self.old) }
        ensures closed { IfOk result (λ s. s ≡ self.old.kept) }
    {
        let module = self.collected.close()?;
        self.last = 0;
        Ok(module)
    }

    /// The items so far.
    pub fn state(&self) -> &ModuleState
        ensures { result.now ≡ self.now.kept.items }
    {
        &self.collected.state
    }

    /// The features that the module is read by.
    pub fn features(&self) -> WasmFeatures
        ensures { result.0 ≡ self.now.kept.items.spaces.settings.features }
    {
        self.collected.state.settings().features()
    }

    /// The limits that it is read by. None is above its ceiling.
    pub fn limits(&self) -> Limits
        ensures value { result ≡ self.now.kept.items.spaces.settings.limits }
        ensures within { IsWithinCeilings result }
    {
        self.collected.state.settings().limits()
    }

    /// The list that the types stand in. Each is valid, the module's are in it, it has the module's limits, and none is above its ceiling.
    pub fn types(&self) -> &TypeList
        ensures value { result.now.groups ≡ self.now.kept.groups }
        ensures over { IsReadOver result.now.groups self.now.kept.items.spaces }
        ensures limits { result.now.limits ≡ self.now.kept.items.spaces.settings.limits }
        ensures within { IsWithinCeilings self.now.kept.items.spaces.settings.limits }
    {
        &self.collected.types
    }

    /// What operators ask of the module.
    pub fn resources(&self) -> OperatorValidatorResources<'_>
        ensures { meaning_of result.types.now.groups result.«module».now
            ≡ meaning_of self.now.kept.groups self.now.kept.items.spaces }
    {
        self.collected.state.resources(&self.collected.types)
    }
}
