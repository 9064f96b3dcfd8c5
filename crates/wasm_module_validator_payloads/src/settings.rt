//! What modules are read by.

ghost use Rattle.std.specs.Prelude.{◌≡◌};
ghost use Rattle.wasm_types.specs.settings.Limits.{IsWithinCeilings};

use std::marker::Model;
use wasm_types::{Limits, WasmFeatures};

/// The features that are allowed, and limits of which none is above its ceiling. A contract sees the settings of the rules.
#[derive(Drop)]
pub struct HeldSettings {
    features: WasmFeatures,
    limits: Limits,
}

impl Model for HeldSettings {
    ghost use Rattle.wasm_types.specs.settings.Limits.{IsWithinCeilings};
    ghost use Rattle.wasm_types.specs.settings.Settings.{Settings};

    ghost Value = { Settings };

    ghost view = { λ h. record { features = h.features.0; limits = h.limits } };

    ghost invariant = { λ h. IsWithinCeilings h.limits };
}

impl HeldSettings {
    /// These features and these limits.
    pub fn new(features: WasmFeatures, limits: Limits) -> HeldSettings
        requires within { IsWithinCeilings limits }
        ensures { result ≡ record { features = features.0; limits = limits } }
    {
        HeldSettings { features, limits }
    }

    /// The features that are allowed.
    pub fn features(&self) -> WasmFeatures
        ensures { result.0 ≡ self.now.features }
    {
        self.features
    }

    /// The limits that hold. None is above its ceiling.
    pub fn limits(&self) -> Limits
        ensures value { result ≡ self.now.limits }
        ensures within { IsWithinCeilings result }
    {
        self.limits
    }
}
