//! Worked bodies, on the contract of a function that does nothing.

ghost use Rattle.wasm_module_validator_function_bodies.specs.code.Worked.{BodyRows};

/// Worked bodies, each with a yes or a no.
#[tactic(auto, using(crate::specs::code::Worked::body_rows))]
pub const fn bodies_are_worked()
    ensures { BodyRows }
{}
