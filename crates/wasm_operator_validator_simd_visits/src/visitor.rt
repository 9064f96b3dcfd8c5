//! The visitor of operators on vectors.

ghost use Rattle.std.specs.Prelude.{◌≡◌};

use wasm_operator_validator_visits::{AnswerAs, ValidatingVisitor, WasmModuleResources};
use wasm_operators_visit::Visitor;

/// A visitor that validates, told of operators on vectors visit by visit (WebAssembly 3.0, validation, vector instructions).
pub struct ValidatingSimdVisitor<'v, 'r, R: WasmModuleResources, A: AnswerAs> {
    /// The visitor of all other operators, with the validator that it was lent.
    pub visitor: ValidatingVisitor<'v, 'r, R, A>,
}

impl<'a, 'v, 'r, R: WasmModuleResources, A: AnswerAs> Visitor<'a>
    for ValidatingSimdVisitor<'v, 'r, R, A> {
    type Output = A::Output;

    ghost visits = { λ before op answer after. A.tells (R.meaning before.visitor.resources.now)
        before.visitor.inner.now before.visitor.answer op answer after.visitor.inner.now after.visitor.answer
        × (after.visitor.inner.ghost_name ≡ before.visitor.inner.ghost_name)
        × (after.visitor.resources.now ≡ before.visitor.resources.now) };
}
