//! How a visit answers: by a refusal in few bytes, or by an error.

ghost use Rattle.std.specs.Prelude.{◌≡◌};
ghost use Rattle.wasm_operators_enums.specs.Op.{Op};
ghost use Rattle.wasm_operator_validator_arity.specs.resources.Meaning.{Meaning};
ghost use Rattle.wasm_operator_validator_state.specs.Refusals.{refused};
ghost use Rattle.wasm_operator_validator_state.specs.State.{State, Visits};
ghost use Rattle.wasm_operator_validator_visits.specs.Told.{Tells};

use wasm_operator_validator_control::Refusal;

/// What a visit answers where its operator is accepted, and where it is refused.
pub trait AnswerAs {
    /// What each visit answers.
    type Output;

    /// What a visit promises: in a module, of what was known before, how it answers, the operator, the answer, what is known then, and
    /// how it answers then.
    ghost tells: { Meaning → State → Self → Op → Self.Output → State → Self → Type 0 };

    /// The answer, where the operator was refused for this or was not.
    fn answer(&self, answer: Result<(), Refusal>) -> Self::Output
        ensures { (m : Meaning) (σ τ : State) (o : Op) → Visits m σ o (refused answer) τ
            → Self.tells m σ self.now o result τ self.now };
}

/// By a refusal in few bytes, without a text and an offset.
#[derive(Clone, Copy)]
pub struct AsRefusal;

impl AnswerAs for AsRefusal {
    type Output = Result<(), Refusal>;

    ghost tells = { λ m σ before o answer τ after. Visits m σ o (refused answer) τ };

    #[inline(always)]
    fn answer(&self, answer: Result<(), Refusal>) -> Result<(), Refusal> {
        answer
    }
}

/// By an error, with a text, at an offset.
#[derive(Clone, Copy)]
pub struct AsError {
    /// The offset of the operator that is visited next.
    pub offset: u64,
}

impl AnswerAs for AsError {
    type Output = wasm_types::Result<()>;

    ghost tells = { λ m σ before o answer τ after. Tells m σ before.offset o answer τ
        × (after.offset ≡ before.offset) };

    #[inline(always)]
    fn answer(&self, answer: Result<(), Refusal>) -> wasm_types::Result<()> {
        match answer {
            Ok(()) => Ok(()),
            Err(refusal) => Err(refusal.error(self.offset)),
        }
    }
}
