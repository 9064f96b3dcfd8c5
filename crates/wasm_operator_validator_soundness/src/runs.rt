//! No run of a valid program is stuck (WebAssembly 3.0, appendix, soundness).
//!
//! There is no code here but the laws, each on the contract of a function that does nothing. `specs/` is read in the order of
//! its `Lib.antt`: values and their types, states, how a program runs over all of its activations, the states in which all fits, and
//! what it means that no run is stuck.

mod worked;

ghost use Rattle.wasm_operator_validator_soundness.specs.runs.Places.{DerivationsAreGiven, StaysAtPlaces};
ghost use Rattle.wasm_operator_validator_soundness.specs.runs.Progress.{AnswersExist, ConstantsAreAnswered, StatesAreAnswered};
ghost use Rattle.wasm_operator_validator_soundness.specs.runs.Soundness.{AncestorsAreSound, ConstantsAreSound, ConstantsAreValid, ProgramsAreSound, ProgramsStayValid, StartsAreValid, StepsAreSound};

pub use worked::{
    answers_are_worked, branching_is_worked, caught_is_worked, objects_are_worked, older_is_worked,
    places_are_worked, runs_are_worked, segments_are_worked, stuck_states_are_worked,
    sums_are_worked, vectors_are_worked,
};

/// A function of a valid program that is started with fitting arguments and answered by fitting values is never stuck, and what
/// it returns or throws fits. At each place on the way each value and each local that is set fits what the rules know of it.
pub fn programs_are_sound()
    ensures sound { ProgramsAreSound }
    ensures states { ProgramsStayValid }
{}

/// A valid program has a derivation of each body. Whichever these are, what a label of a run awaits is what a derivation says at a place:
/// after the block of the label within it, and the outermost in the derivation of the whole code that runs.
pub fn runs_stay_at_places()
    ensures given { DerivationsAreGiven }
    ensures stays { StaysAtPlaces }
{}

/// From activations whose values fit, a step has what it needs, and comes to such activations again or ends well. A function that is
/// started is such an activation.
pub fn steps_are_sound()
    ensures steps { StepsAreSound }
    ensures starts { StartsAreValid }
{}

/// A constant is in such a state too, so each of its steps has what it needs; and its value fits the type that it is typed with.
pub fn constants_are_sound()
    ensures steps { ConstantsAreValid }
    ensures values { ConstantsAreSound }
{}

/// At each step something is an answer, and the run traps under it only if the operator may trap: if each global is of a type that
/// has values, as over a store it is.
pub fn answers_exist()
    ensures runs { AnswersExist }
    ensures states { StatesAreAnswered }
    ensures constants { ConstantsAreAnswered }
{}

/// A value made with a type may be used through each type that is declared above it.
pub fn ancestors_are_sound()
    ensures { AncestorsAreSound }
{}
