//! The features that are allowed, and the limits that hold.

ghost use Rattle.std.specs.Prelude.{◌≡◌};
ghost use Rattle.wasm_module_validator_rules.specs.Valid.{most_tables, most_memories};

use std::marker::Model;
use wasm_types::{Limits, WasmFeatures};

/// What a module is judged by, apart from its bytes. A contract sees the settings of the rules.
#[derive(Clone, Copy, Debug)]
pub struct Settings {
    features: WasmFeatures,
    limits: Limits,
}

impl Model for Settings {
    ghost use Rattle.std.proofs.Common.{refl};
    ghost use Rattle.wasm_types.specs.settings.Settings.{Settings as Judged};

    ghost Value = { Judged };

    ghost view = { λ s. record { features = s.features.0; limits = s.limits } };

    ghost inverse = { λ z. record { features = record { 0 = z.features }; limits = z.limits } };

    ghost inverse_ok = { λ s h. refl };
}

impl Settings {
    /// These features and these limits.
    pub const fn new(features: WasmFeatures, limits: Limits) -> Settings
        ensures { result ≡ record { features = features.0; limits = limits } }
    {
        Settings { features, limits }
    }

    /// The features that are allowed.
    pub const fn features(&self) -> WasmFeatures
        ensures { result.0 ≡ self.now.features }
    {
        self.features
    }

    /// The limits that hold.
    pub const fn limits(&self) -> Limits
        ensures { result ≡ self.now.limits }
    {
        self.limits
    }

    /// The most tables: one at most, where references are not allowed.
    pub fn max_tables(&self) -> u32
        ensures { result ≡ most_tables self.now }
    {
        if self.features.reference_types() || self.limits.tables == 0 {
            return self.limits.tables;
        }
        1
    }

    /// The most memories: one at most, where several are not allowed.
    pub fn max_memories(&self) -> u32
        ensures { result ≡ most_memories self.now }
    {
        if self.features.multi_memory() || self.limits.memories == 0 {
            return self.limits.memories;
        }
        1
    }
}
