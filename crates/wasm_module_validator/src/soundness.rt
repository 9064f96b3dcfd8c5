//! No run of a valid module is stuck (WebAssembly 3.0, appendix, soundness).
//!
//! There is no code here but the laws, each on the contract of a function that does nothing. `specs/` is read in the order of its
//! `Lib.antt`. How a program runs stands in `wasm_operator_validator_soundness::runs`.

ghost use Rattle.std.specs.Prelude.{ℤ};
ghost use Rattle.wasm_types.specs.settings.Sets.{bits_of, default_features};
ghost use Rattle.wasm_operator_validator_soundness.specs.runs.Values.{IsStandard};
ghost use Rattle.wasm_module_validator.specs.soundness.LinkedWorked.{LinkedWorked};
ghost use Rattle.wasm_module_validator.specs.soundness.ModuleWorked.{ModuleWorked};
ghost use Rattle.wasm_module_validator.specs.soundness.Soundness.{AcceptedIsSound, ModulesAreSound};

/// A valid module runs soundly under the features of the standard: a function of it, started with fitting arguments and answered by
/// fitting values, is never stuck, what it returns or throws fits, and each constant gives what fits its place. All fits in its first
/// store, if it does in what the host gives for imports.
pub fn modules_are_sound()
    ensures { ModulesAreSound }
{}

/// What is accepted runs soundly.
pub fn accepted_is_sound()
    ensures { AcceptedIsSound }
{}

/// The features by default are those of the standard.
pub fn default_is_standard()
    ensures { IsStandard (bits_of default_features) }
{}

/// A function of a valid module is started, answered, and returns.
pub fn modules_are_worked()
    ensures { ModuleWorked }
{}

/// The function that starts a valid module with imports, a table, a tag and a global calls an import, which the host answers, and throws.
pub fn linked_is_worked()
    ensures { (x : ℤ) → LinkedWorked x }
{}
