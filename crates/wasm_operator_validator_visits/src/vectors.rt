//! Visits of operators on vectors.

ghost use Rattle.std.specs.Prelude.{◌≡◌};
ghost use Rattle.wasm_operators_enums.specs.Op.{Op};

use crate::{AnswerAs, ValidatingVisitor};
use wasm_operator_validator_control::WasmModuleResources;
use wasm_operator_validator_vectors::{check_simd, check_simd_numeric};
use wasm_operators_visit::{SimdNumericOperator, SimdOperator};

impl<'v, 'r, R: WasmModuleResources, A: AnswerAs> ValidatingVisitor<'v, 'r, R, A> {
    /// An operator on vectors that carries something.
    pub fn simd(&mut self, op: SimdOperator) -> A::Output
        ensures tells { A.tells (R.meaning self.old.resources.now) self.old.inner.now self.old.answer
            (Op.Simd op) result self.new.inner.now self.new.answer }
        ensures lent { self.new.inner.ghost_name ≡ self.old.inner.ghost_name }
        ensures resources { self.new.resources.now ≡ self.old.resources.now }
    {
        let checked = check_simd(self.inner, self.resources, op);
        self.tell(checked)
    }

    /// An operator on vectors that carries nothing.
    pub fn simd_numeric(&mut self, op: SimdNumericOperator) -> A::Output
        ensures tells { A.tells (R.meaning self.old.resources.now) self.old.inner.now self.old.answer
            (Op.SimdNumeric op) result self.new.inner.now self.new.answer }
        ensures lent { self.new.inner.ghost_name ≡ self.old.inner.ghost_name }
        ensures resources { self.new.resources.now ≡ self.old.resources.now }
    {
        let checked = check_simd_numeric(self.inner, self.resources, op);
        self.tell(checked)
    }
}
