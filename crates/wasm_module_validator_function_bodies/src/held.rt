//! Limits that were chosen.

ghost use Rattle.std.specs.Prelude.{◌≡◌};
ghost use Rattle.wasm_types.specs.settings.Limits.{IsWithinCeilings};

use std::marker::Model;
use wasm_types::Limits;

/// Limits of which none is above its ceiling. A contract sees them as limits.
#[derive(Drop)]
pub struct HeldLimits {
    limits: Limits,
}

impl Model for HeldLimits {
    ghost use Rattle.wasm_types.specs.settings.Limits.{IsWithinCeilings};
    ghost use Rattle.wasm_types.specs.settings.declared.Limits.{Limits as TheLimits};

    ghost Value = { TheLimits };

    ghost view = { λ h. h.limits };

    ghost invariant = { λ h. IsWithinCeilings h.limits };
}

impl HeldLimits {
    /// These limits.
    pub(crate) fn new(limits: Limits) -> HeldLimits
        requires within { IsWithinCeilings limits }
        ensures { result ≡ limits }
    {
        HeldLimits { limits }
    }

    /// The limits.
    #[inline]
    pub(crate) fn get(&self) -> Limits
        ensures value { result ≡ self.now }
        ensures within { IsWithinCeilings result }
    {
        self.limits
    }
}
