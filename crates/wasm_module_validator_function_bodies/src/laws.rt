//! The laws, each on the contract of a function that does nothing.

ghost use Rattle.std.specs.Prelude.{◌≤◌, ◌<◌, ℕ, List, [], ◌∷◌};
ghost use Rattle.wasm_types.specs.settings.Settings.{Settings};
ghost use Rattle.wasm_operator_validator_rules.specs.Context.{Module};
ghost use Rattle.wasm_module_validator_function_bodies.specs.Functions.{FunctionsAreThoseOfTheRules};
ghost use Rattle.wasm_module_validator_function_bodies.specs.Locals.{SpellsLocals};

/// The functions that a validator accepts are those of the rules.
pub const fn functions_are_those_of_the_rules()
    ensures { FunctionsAreThoseOfTheRules }
{}

/// Worked locals: no groups, behind as many parameters as there may be locals; one parameter more; and no bytes.
pub const fn locals_are_worked()
    ensures none { (z : Settings) (g : Module) (before : ℕ) → before ≤ z.limits.locals
        → SpellsLocals z g before (0 ∷ 0x0b ∷ []) }
    ensures too_many { (z : Settings) (g : Module) (before : ℕ) (text : List ℕ) → z.limits.locals < before
        → SpellsLocals z g before text → ⊥ }
    ensures nothing { (z : Settings) (g : Module) (before : ℕ) → SpellsLocals z g before [] → ⊥ }
{}
