//! What a validator shows along a body is a typing of it, and the values of runs fit it.
//!
//! There is no code here but the laws, each on the contract of a function that does nothing. They speak of a validator of which each operator
//! leads from what it knew to what it knows after it (`specs/shown/Leading.antt`).

ghost use Rattle.std.specs.Prelude.{ℤ};
ghost use Rattle.wasm_operator_validator_state.specs.resources.Meaning.{Meaning};
ghost use Rattle.wasm_operator_validator_soundness.specs.shown.Shown.{PlacesAreShown, ShownOperandsAreATyping};
ghost use Rattle.wasm_operator_validator_soundness.specs.shown.Programs.{RunsFitWhatIsShown, ShownDerivationsAreGiven};
ghost use Rattle.wasm_operator_validator_soundness.specs.shown.Worked.{ShownWorked};

/// If the operators of a body lead from its beginning to its end, the body has a derivation that says at each place what is known there:
/// the labels, the locals that are set, and the operands, each no more than what is shown of it.
pub fn shown_operands_are_a_typing()
    ensures typing { ShownOperandsAreATyping }
    ensures places { PlacesAreShown }
{}

/// A valid program whose bodies were walked so has such derivations, and at each place of a run the values fit what is shown there.
pub fn runs_fit_what_is_shown()
    ensures given { ShownDerivationsAreGiven }
    ensures runs { RunsFitWhatIsShown }
{}

/// What is known after each operator of a short body, and what is not.
pub fn shown_is_worked()
    ensures { (m : Meaning) (x : ℤ) → ShownWorked m x }
{}
