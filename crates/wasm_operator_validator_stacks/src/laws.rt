//! Laws of attempts, on the contract of a function that does nothing.

ghost use Rattle.std.specs.Prelude.{◌≡◌, Option};
ghost use Rattle.wasm_types.specs.decoding.declared.error.ErrorKind.{ErrorKind};
ghost use Rattle.wasm_operators_enums.specs.Op.{Op};
ghost use Rattle.wasm_operator_validator_state.specs.resources.Meaning.{Meaning};
ghost use Rattle.wasm_operator_validator_state.specs.State.{State, Checks, Visits};
ghost use Rattle.wasm_operator_validator_stacks.specs.Layout.{none_saved, rolled_back, Begins};

/// Whatever an operator did since an attempt began, and whether it was refused: a rollback gives what stood where the attempt began,
/// outside an attempt.
#[tactic(auto, using(crate::specs::laws::Attempts::taken_back_checks, crate::specs::laws::Attempts::taken_back_visits))]
pub fn attempts_are_taken_back()
    ensures checks { (m : Meaning) (σ β τ : State) (o : Op) (answer : Option ErrorKind) → Begins σ β
        → Checks m β o answer τ → rolled_back τ ≡ record σ { saved = none_saved } }
    ensures visits { (m : Meaning) (σ β τ : State) (o : Op) (answer : Option ErrorKind) → Begins σ β
        → Visits m β o answer τ → rolled_back τ ≡ record σ { saved = none_saved } }
{}
