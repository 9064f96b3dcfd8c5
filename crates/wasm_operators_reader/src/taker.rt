//! Reading as visiting: a visitor that gives back what it is told.

ghost use Rattle.std.specs.Prelude.{◌≡◌};

use wasm_operators_encoding::expressions::Operator;
use wasm_operators_frequent::reading::{TellOperator, short_control_at, short_operator_at};
use wasm_operators_visit_simd_operator::Visitor;
use wasm_types::WasmFeatures;

/// Answers each operator by that operator. So an operator is read by the same steps, in the same frames, as one is visited.
#[derive(Drop)]
pub(crate) struct Taker;

impl<'a> Visitor<'a> for Taker {
    type Output = Operator<'a>;

    ghost use Rattle.wasm_operators_enums.specs.Op.{op_of};

    ghost visits = { λ before op answer after. op ≡ op_of answer };
}

impl<'a> TellOperator<'a> for Taker {
    #[inline(always)]
    fn tell(&mut self, op: Operator<'a>) -> Operator<'a> {
        op
    }

    #[inline(always)]
    fn tell_short(
        &mut self,
        bytes: &'a [u8],
        at: usize,
        features: WasmFeatures,
    ) -> Option<(Operator<'a>, usize)> {
        short_operator_at(bytes, at, features)
    }

    #[inline(always)]
    fn tell_short_control(
        &mut self,
        bytes: &'a [u8],
        at: usize,
        features: WasmFeatures,
    ) -> Option<(Operator<'a>, usize)> {
        short_control_at(bytes, at, features)
    }
}
