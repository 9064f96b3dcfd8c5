//! The visitor that tests each operator of a constant before it tells the validator.

ghost use Rattle.std.proofs.Common.{◌≡◌, ap};
ghost use Rattle.std.specs.Prelude.{true};
ghost use Rattle.wasm_types.specs.decoding.declared.error.ErrorKind.TheVariants.{Other};
ghost use Rattle.wasm_operator_validator_constants.specs.Refusals.{kind_of_constant, refused_constant};
ghost use Rattle.wasm_operator_validator_constants.specs.Checked.{VisitsConstant};
ghost use Rattle.wasm_operator_validator_constants.specs.laws.Driven.{same_around};

use crate::ConstantRefusal;
use crate::operators::is_constant_operator;
use crate::validating::ValidatingConstants;
use wasm_operator_validator_driver::ValidatingWalk;
use wasm_operator_validator_expression::TellSimdOperator;
use wasm_operator_validator_stacks::{Reason, Refusal, WasmModuleResources};
use wasm_operators_enums::is_simd;
use wasm_operators_reader::walks::{Operator, TellOperator, Visitor};
use wasm_types::WasmFeatures;

/// The walk that validates, where each operator has to be constant first.
pub struct ConstantWalk<'v, 'r, R: WasmModuleResources> {
    /// The walk.
    pub walk: ValidatingWalk<'v, 'r, R>,
    /// The features by which operators are constant.
    pub features: WasmFeatures,
    /// How many globals are imported.
    pub imported_globals: u32,
}

impl<'a, 'v, 'r, R: WasmModuleResources> Visitor<'a> for ConstantWalk<'v, 'r, R> {
    type Output = Result<(), ConstantRefusal>;

    ghost visits = { λ before op answer after. VisitsConstant
        (record {
          bits = before.features.0;
          meaning = R.meaning before.walk.visitor.resources.now;
          imported = before.imported_globals;
        })
        before.walk.visitor.inner.now op (refused_constant answer) after.walk.visitor.inner.now ×
        (after.walk.visitor.inner.ghost_name ≡ before.walk.visitor.inner.ghost_name) ×
        (after.walk.visitor.resources.now ≡ before.walk.visitor.resources.now)
        × (after.features.0 ≡ before.features.0) ×
        (after.imported_globals ≡ before.imported_globals) };
}

impl<'a, 'v, 'r, R: WasmModuleResources> TellOperator<'a> for ConstantWalk<'v, 'r, R> {
    fn tell(&mut self, op: Operator<'a>) -> Result<(), ConstantRefusal> {
        let tested = is_constant_operator(
            &op,
            self.features,
            self.walk.visitor.resources,
            self.imported_globals,
        );
        if let Err(refusal) = tested {
            self.walk.visitor.inner.fail();
            return Err(refusal);
        }
        if let Err(refusal) = self.walk.tell(op) {
            return Err(ConstantRefusal::Invalid(refusal));
        }
        Ok(())
    }

    fn tell_short(
        &mut self,
        bytes: &'a [u8],
        at: usize,
        features: WasmFeatures,
    ) -> Option<(Result<(), ConstantRefusal>, usize)> {
        None
    }

    fn tell_short_control(
        &mut self,
        bytes: &'a [u8],
        at: usize,
        features: WasmFeatures,
    ) -> Option<(Result<(), ConstantRefusal>, usize)> {
        None
    }
}

impl<'a, 'v, 'r, R: WasmModuleResources> TellSimdOperator<'a> for ConstantWalk<'v, 'r, R> {
    fn tell_simd(&mut self, op: Operator<'a>) -> Result<(), ConstantRefusal> {
        let judged = !is_simd(&op) || self.features.vector_operators();
        let tested = is_constant_operator(
            &op,
            self.features,
            self.walk.visitor.resources,
            self.imported_globals,
        );
        if let Err(refusal) = tested {
            self.walk.visitor.inner.fail();
            if !judged && is_not_listed(&refusal) {
                return Err(ConstantRefusal::Invalid(Refusal::Because(Reason::Vectors)));
            }
            return Err(refusal);
        }
        if let Err(refused) = self.walk.tell_simd(op) {
            return Err(ConstantRefusal::Invalid(refused));
        }
        Ok(())
    }
}

/// Whether an operator is refused since no constant has it. One on vectors that is not judged at all is refused for that, as in bodies.
fn is_not_listed(refusal: &ConstantRefusal) -> bool
    ensures { result ≡ true → kind_of_constant refusal.now ≡ Other }
{
    matches!(refusal, ConstantRefusal::NonConstant { .. })
}

impl<'a, 'v, 'r, R: WasmModuleResources> ValidatingConstants<'a> for ConstantWalk<'v, 'r, R> {
    ghost around = { λ w. record {
      bits = w.features.0;
      meaning = R.meaning w.walk.visitor.resources.now;
      imported = w.imported_globals;
    } };

    ghost state = { λ w. w.walk.visitor.inner.now };

    fn is_done(&self) -> bool {
        self.walk.visitor.inner.is_done()
    }

    ghost visited = { λ v o a w h. (
      h.0,
      same_around w.features.0 v.features.0 (R.meaning w.walk.visitor.resources.now)
          (R.meaning v.walk.visitor.resources.now) w.imported_globals v.imported_globals h.3 (ap R.meaning h.2) h.4,
    ) };
}
