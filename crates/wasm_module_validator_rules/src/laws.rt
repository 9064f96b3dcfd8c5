//! Laws of the rules, each on the contract of a function that does nothing.

ghost use Rattle.std.specs.Prelude.{◌≡◌, ℕ, List};
ghost use Rattle.wasm_types.specs.settings.Settings.{Settings};
ghost use Rattle.wasm_module_validator_rules.specs.Syntax.{ModuleTree};
ghost use Rattle.wasm_module_validator_rules.specs.Binary.{SpelledModule};
ghost use Rattle.wasm_module_validator_rules.specs.Accepts.{AcceptsUnder, IsValidOutsideBodies};

/// Bytes fully spell at most one module, custom sections aside.
pub fn modules_are_spelled_once()
    ensures { (z : Settings) (m n : ModuleTree) (text : List ℕ) → SpelledModule z m text
        → SpelledModule z n text → m ≡ n }
{}

/// A module that is accepted is valid outside its bodies.
pub fn accepted_is_valid_outside_bodies()
    ensures { (z : Settings) (bytes : List ℕ) → AcceptsUnder z bytes → IsValidOutsideBodies z bytes }
{}
