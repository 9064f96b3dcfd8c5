//! What lends a visitor.

use crate::floats::VisitSimdFloats;
use wasm_operators_visit::Lender;

/// What lends a visitor is told by the visits of what it lends.
impl<'a, P: Lender> VisitSimdFloats<'a> for P
where
    P::Lent: VisitSimdFloats<'a>,
{
    fn visit_f32x4_splat(&mut self) -> Self::Output {
        self.lend().visit_f32x4_splat()
    }

    fn visit_f64x2_splat(&mut self) -> Self::Output {
        self.lend().visit_f64x2_splat()
    }

    fn visit_f32x4_eq(&mut self) -> Self::Output {
        self.lend().visit_f32x4_eq()
    }

    fn visit_f32x4_ne(&mut self) -> Self::Output {
        self.lend().visit_f32x4_ne()
    }

    fn visit_f32x4_lt(&mut self) -> Self::Output {
        self.lend().visit_f32x4_lt()
    }

    fn visit_f32x4_gt(&mut self) -> Self::Output {
        self.lend().visit_f32x4_gt()
    }

    fn visit_f32x4_le(&mut self) -> Self::Output {
        self.lend().visit_f32x4_le()
    }

    fn visit_f32x4_ge(&mut self) -> Self::Output {
        self.lend().visit_f32x4_ge()
    }

    fn visit_f64x2_eq(&mut self) -> Self::Output {
        self.lend().visit_f64x2_eq()
    }

    fn visit_f64x2_ne(&mut self) -> Self::Output {
        self.lend().visit_f64x2_ne()
    }

    fn visit_f64x2_lt(&mut self) -> Self::Output {
        self.lend().visit_f64x2_lt()
    }

    fn visit_f64x2_gt(&mut self) -> Self::Output {
        self.lend().visit_f64x2_gt()
    }

    fn visit_f64x2_le(&mut self) -> Self::Output {
        self.lend().visit_f64x2_le()
    }

    fn visit_f64x2_ge(&mut self) -> Self::Output {
        self.lend().visit_f64x2_ge()
    }

    fn visit_f32x4_demote_f64x2_zero(&mut self) -> Self::Output {
        self.lend().visit_f32x4_demote_f64x2_zero()
    }

    fn visit_f64x2_promote_low_f32x4(&mut self) -> Self::Output {
        self.lend().visit_f64x2_promote_low_f32x4()
    }

    fn visit_f32x4_ceil(&mut self) -> Self::Output {
        self.lend().visit_f32x4_ceil()
    }

    fn visit_f32x4_floor(&mut self) -> Self::Output {
        self.lend().visit_f32x4_floor()
    }

    fn visit_f32x4_trunc(&mut self) -> Self::Output {
        self.lend().visit_f32x4_trunc()
    }

    fn visit_f32x4_nearest(&mut self) -> Self::Output {
        self.lend().visit_f32x4_nearest()
    }

    fn visit_f64x2_ceil(&mut self) -> Self::Output {
        self.lend().visit_f64x2_ceil()
    }

    fn visit_f64x2_floor(&mut self) -> Self::Output {
        self.lend().visit_f64x2_floor()
    }

    fn visit_f64x2_trunc(&mut self) -> Self::Output {
        self.lend().visit_f64x2_trunc()
    }

    fn visit_f64x2_nearest(&mut self) -> Self::Output {
        self.lend().visit_f64x2_nearest()
    }

    fn visit_f32x4_abs(&mut self) -> Self::Output {
        self.lend().visit_f32x4_abs()
    }

    fn visit_f32x4_neg(&mut self) -> Self::Output {
        self.lend().visit_f32x4_neg()
    }

    fn visit_f32x4_sqrt(&mut self) -> Self::Output {
        self.lend().visit_f32x4_sqrt()
    }

    fn visit_f32x4_add(&mut self) -> Self::Output {
        self.lend().visit_f32x4_add()
    }

    fn visit_f32x4_sub(&mut self) -> Self::Output {
        self.lend().visit_f32x4_sub()
    }

    fn visit_f32x4_mul(&mut self) -> Self::Output {
        self.lend().visit_f32x4_mul()
    }

    fn visit_f32x4_div(&mut self) -> Self::Output {
        self.lend().visit_f32x4_div()
    }

    fn visit_f32x4_min(&mut self) -> Self::Output {
        self.lend().visit_f32x4_min()
    }

    fn visit_f32x4_max(&mut self) -> Self::Output {
        self.lend().visit_f32x4_max()
    }

    fn visit_f32x4_pmin(&mut self) -> Self::Output {
        self.lend().visit_f32x4_pmin()
    }

    fn visit_f32x4_pmax(&mut self) -> Self::Output {
        self.lend().visit_f32x4_pmax()
    }

    fn visit_f64x2_abs(&mut self) -> Self::Output {
        self.lend().visit_f64x2_abs()
    }

    fn visit_f64x2_neg(&mut self) -> Self::Output {
        self.lend().visit_f64x2_neg()
    }

    fn visit_f64x2_sqrt(&mut self) -> Self::Output {
        self.lend().visit_f64x2_sqrt()
    }

    fn visit_f64x2_add(&mut self) -> Self::Output {
        self.lend().visit_f64x2_add()
    }

    fn visit_f64x2_sub(&mut self) -> Self::Output {
        self.lend().visit_f64x2_sub()
    }

    fn visit_f64x2_mul(&mut self) -> Self::Output {
        self.lend().visit_f64x2_mul()
    }

    fn visit_f64x2_div(&mut self) -> Self::Output {
        self.lend().visit_f64x2_div()
    }

    fn visit_f64x2_min(&mut self) -> Self::Output {
        self.lend().visit_f64x2_min()
    }

    fn visit_f64x2_max(&mut self) -> Self::Output {
        self.lend().visit_f64x2_max()
    }

    fn visit_f64x2_pmin(&mut self) -> Self::Output {
        self.lend().visit_f64x2_pmin()
    }

    fn visit_f64x2_pmax(&mut self) -> Self::Output {
        self.lend().visit_f64x2_pmax()
    }

    fn visit_f32x4_convert_i32x4_s(&mut self) -> Self::Output {
        self.lend().visit_f32x4_convert_i32x4_s()
    }

    fn visit_f32x4_convert_i32x4_u(&mut self) -> Self::Output {
        self.lend().visit_f32x4_convert_i32x4_u()
    }

    fn visit_f64x2_convert_low_i32x4_s(&mut self) -> Self::Output {
        self.lend().visit_f64x2_convert_low_i32x4_s()
    }

    fn visit_f64x2_convert_low_i32x4_u(&mut self) -> Self::Output {
        self.lend().visit_f64x2_convert_low_i32x4_u()
    }

    fn visit_f32x4_relaxed_madd(&mut self) -> Self::Output {
        self.lend().visit_f32x4_relaxed_madd()
    }

    fn visit_f32x4_relaxed_nmadd(&mut self) -> Self::Output {
        self.lend().visit_f32x4_relaxed_nmadd()
    }

    fn visit_f64x2_relaxed_madd(&mut self) -> Self::Output {
        self.lend().visit_f64x2_relaxed_madd()
    }

    fn visit_f64x2_relaxed_nmadd(&mut self) -> Self::Output {
        self.lend().visit_f64x2_relaxed_nmadd()
    }

    fn visit_f32x4_relaxed_min(&mut self) -> Self::Output {
        self.lend().visit_f32x4_relaxed_min()
    }

    fn visit_f32x4_relaxed_max(&mut self) -> Self::Output {
        self.lend().visit_f32x4_relaxed_max()
    }

    fn visit_f64x2_relaxed_min(&mut self) -> Self::Output {
        self.lend().visit_f64x2_relaxed_min()
    }

    fn visit_f64x2_relaxed_max(&mut self) -> Self::Output {
        self.lend().visit_f64x2_relaxed_max()
    }
}
