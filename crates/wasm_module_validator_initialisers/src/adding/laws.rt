//! Worked rows, on the contract of a function that does nothing.

ghost use Rattle.wasm_types.specs.settings.Settings.{Settings};
ghost use Rattle.wasm_module_validator_initialisers.specs.adding.Worked.{InitialisingWorked};

/// What constants are judged in, names and refusals: a changed definition breaks a row.
pub fn initialising_is_worked()
    ensures { (z : Settings) → InitialisingWorked z }
{}
