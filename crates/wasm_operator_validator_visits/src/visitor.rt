//! The visitor that validates.

ghost use Rattle.std.specs.Prelude.{◌≡◌};
ghost use Rattle.wasm_operators_enums.specs.Op.{Op};
ghost use Rattle.wasm_operator_validator_state.specs.State.{Checks, State};
ghost use Rattle.wasm_operator_validator_state.specs.Refusals.{refused};

use crate::answer::{AnswerAs, AsError};
use wasm_operator_validator_control::{OperatorValidator, Refusal, WasmModuleResources};
use wasm_operators_immediates::{FrameKind, FrameStack};
use wasm_operators_visit::Visitor;

/// A validator that is lent, with the module, and how its visits answer: each checks its operator (WebAssembly 3.0, validation,
/// instructions), and answers why where it is refused.
pub struct ValidatingVisitor<'v, 'r, R: WasmModuleResources, A: AnswerAs> {
    /// What is known of the body.
    pub inner: &'v mut OperatorValidator,
    /// The module.
    pub resources: &'r R,
    /// How it answers.
    pub answer: A,
}

/// The visitor that answers errors, each at the offset that its field `answer` has.
pub type WasmProposalValidator<'v, 'r, R> = ValidatingVisitor<'v, 'r, R, AsError>;

impl<'a, 'v, 'r, R: WasmModuleResources, A: AnswerAs> Visitor<'a>
    for ValidatingVisitor<'v, 'r, R, A> {
    type Output = A::Output;

    ghost visits = { λ before op answer after. A.tells (R.meaning before.resources.now) before.inner.now before.answer
        op answer after.inner.now after.answer
        × (after.inner.ghost_name ≡ before.inner.ghost_name) × (after.resources.now ≡ before.resources.now) };
}

impl<'v, 'r, R: WasmModuleResources, A: AnswerAs> ValidatingVisitor<'v, 'r, R, A> {
    /// The answer of a visit to the check of its operator: where that refused it, the validator has failed.
    #[inline(always)]
    pub(crate) fn tell(&mut self, checked: Result<(), Refusal>) -> A::Output
        ensures tells { (σ : State) (o : Op) → Checks (R.meaning self.old.resources.now) σ o
            (refused checked) self.old.inner.now
            → A.tells (R.meaning self.old.resources.now) σ self.old.answer o result self.new.inner.now self.new.answer }
        ensures lent { self.new.inner.ghost_name ≡ self.old.inner.ghost_name }
        ensures resources { self.new.resources.now ≡ self.old.resources.now }
    {
        if checked.is_err() {
            self.inner.fail();
        }
        self.answer.answer(checked)
    }
}

impl<'v, 'r, R: WasmModuleResources, A: AnswerAs> FrameStack for ValidatingVisitor<'v, 'r, R, A> {
    ghost use Rattle.std.specs.Prelude.{option_map, slice_get};

    ghost frame = { λ v. option_map (λ o. o.kind) (slice_get v.inner.now.opens 0) };

    fn current_frame(&self) -> Option<FrameKind> {
        let Some((_, kind)) = self.inner.jump(0) else {
            return None;
        };
        Some(kind)
    }
}
