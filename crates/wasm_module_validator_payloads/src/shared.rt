//! A module that was read, with a list of its types that takes no more.

ghost use Rattle.std.specs.Prelude.{◌≡◌, ◌+◌, ◌≤◌, IfSome, length, option_map, slice_get};
ghost use Rattle.wasm_types.specs.decoding.Denials.{Tells};
ghost use Rattle.wasm_types.specs.settings.Limits.{IsWithinCeilings};
ghost use Rattle.wasm_module_validator_resources.specs.Named.{IsReadOver};
ghost use Rattle.wasm_module_validator_resources.specs.Reading.{meaning_of};
ghost use Rattle.wasm_module_validator_section_order.specs.rules_in_order.Sections.{code_place};

use crate::frames::{check_body_behind, function_behind_in};
use std::marker::Model;
use wasm_module_validator_resources::OperatorValidatorResources;
use wasm_module_validator_state::invariant::ModuleState;
use wasm_module_validator_type_list::TypeList;
use wasm_operators_bodies::FunctionBody;
use wasm_types::{Limits, Result, WasmFeatures};

/// A module that was read, or all of it but its code. Nothing of it changes, so that it may be shared. A contract sees what is kept of it
/// (`specs/Progress.antt`).
#[derive(Drop)]
pub struct SharedModule {
    pub(crate) state: ModuleState,
    pub(crate) types: TypeList,
    // How many groups of types the module has written.
    pub(crate) groups: u32,
}

impl Model for SharedModule {
    ghost use Rattle.std.specs.Prelude.{◌≡◌};
    ghost use Rattle.wasm_module_validator_payloads.specs.Progress.{IsOver, Kept};

    ghost Value = { Kept };

    ghost view = { λ c. record { groups = c.types.groups; items = c.state; count = c.groups } };

    ghost invariant = { λ c. IsOver c.types c.state.spaces };
}

impl SharedModule {
    /// Its items.
    pub fn state(&self) -> &ModuleState
        ensures { result.now ≡ self.now.items }
    {
        &self.state
    }

    /// The features that it was read by.
    pub fn features(&self) -> WasmFeatures
        ensures { result.0 ≡ self.now.items.spaces.settings.features }
    {
        self.state.settings().features()
    }

    /// The limits that it was read by. None is above its ceiling.
    pub fn limits(&self) -> Limits
        ensures value { result ≡ self.now.items.spaces.settings.limits }
        ensures within { IsWithinCeilings result }
    {
        self.state.settings().limits()
    }

    /// The list that its types stand in. Each is valid, the module's are in it, it has the module's limits, and none is above its ceiling.
    pub fn types(&self) -> &TypeList
        ensures value { result.now.groups ≡ self.now.groups }
        ensures over { IsReadOver result.now.groups self.now.items.spaces }
        ensures limits { result.now.limits ≡ self.now.items.spaces.settings.limits }
        ensures within { IsWithinCeilings self.now.items.spaces.settings.limits }
    {
        &self.types
    }

    /// What operators ask of it.
    pub fn resources(&self) -> OperatorValidatorResources<'_>
        ensures { meaning_of result.types.now.groups result.«module».now
            ≡ meaning_of self.now.groups self.now.items.spaces }
    {
        self.state.resources(&self.types)
    }

    /// The index of the function that the body behind so many others is of, and that of its type.
    pub fn function_behind(&self, bodies: usize) -> Option<(u32, u32)>
        ensures typed { option_map (λ x. x.1) result ≡ option_map (λ f. f.type_index)
            (slice_get self.now.items.spaces.functions (self.now.items.spaces.imported_functions + bodies)) }
        ensures index { IfSome result (λ x. x.0 ≡ self.now.items.spaces.imported_functions + bodies) }
    {
        function_behind_in(&self.state, bodies)
    }

    /// Checks where a body comes, behind a section of this place, and how long it is.
    ///
    /// # Errors
    ///
    /// That section is not the code section; or the body is longer than a body may be: the first of these.
    pub fn check_body(&self, last: u32, body: &FunctionBody<'_>) -> Result<()>
        ensures { Tells result ((last ≡ code_place) × (length body.now.rest
            ≤ self.now.items.spaces.settings.limits.body_bytes)) }
    {
        check_body_behind(&self.state, last, body)
    }
}
