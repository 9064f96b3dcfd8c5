//! Typed code is never stuck (WebAssembly 3.0, appendix, soundness).
//!
//! There is no code here except the laws, each on the contract of a function that does nothing. The first part goes as far
//! as one activation: `specs/` has values and their types, how instructions run, and what it means that they are never
//! stuck; [`accepted`] says the same of a body that the validator accepts. [`runs`] goes over all activations of a whole
//! program: its machine reads none of the rules' tables, so a wrong row of the rules breaks its laws.
#![tactic(auto)]

pub mod accepted;
pub mod runs;
pub mod shown;
mod worked;

ghost use Rattle.wasm_operator_validator_soundness.specs.Beginning.{CallsMayBegin, NullsAreGiven, NullsAreOne, AnswersExist, TableAnswered};
ghost use Rattle.wasm_operator_validator_soundness.specs.Soundness.{ActivationsAreSound};

pub use worked::{
    operators_are_answered, runs_are_worked, stuck_configurations_are_worked, values_are_worked,
};

/// A well-typed body, begun with locals of their types and answered by values of theirs, is never stuck within its
/// activation, and what it returns, or hands to a call in its place, is of the types that were promised.
pub fn activations_are_sound()
    ensures { ActivationsAreSound }
{}

/// Where types are of valid groups, a call by arguments of its function's parameters begins with such locals, some answer fits
/// wherever it comes to, and `ref.null` is answered by one null. Operators of the table of instruction types are answered by
/// exactly what the table gives.
pub fn calls_may_begin()
    ensures begin { CallsMayBegin }
    ensures null { NullsAreGiven }
    ensures one_null { NullsAreOne }
    ensures answered { AnswersExist }
    ensures table { TableAnswered }
{}
