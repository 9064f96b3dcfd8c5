//! What lends a visitor.

use crate::floats::VisitFloats;
use wasm_operators_visit::Lender;

/// What lends a visitor is told by the visits of what it lends.
impl<'a, P: Lender> VisitFloats<'a> for P
where
    P::Lent: VisitFloats<'a>,
{
    fn visit_f32_eq(&mut self) -> Self::Output {
        self.lend().visit_f32_eq()
    }

    fn visit_f32_ne(&mut self) -> Self::Output {
        self.lend().visit_f32_ne()
    }

    fn visit_f32_lt(&mut self) -> Self::Output {
        self.lend().visit_f32_lt()
    }

    fn visit_f32_gt(&mut self) -> Self::Output {
        self.lend().visit_f32_gt()
    }

    fn visit_f32_le(&mut self) -> Self::Output {
        self.lend().visit_f32_le()
    }

    fn visit_f32_ge(&mut self) -> Self::Output {
        self.lend().visit_f32_ge()
    }

    fn visit_f64_eq(&mut self) -> Self::Output {
        self.lend().visit_f64_eq()
    }

    fn visit_f64_ne(&mut self) -> Self::Output {
        self.lend().visit_f64_ne()
    }

    fn visit_f64_lt(&mut self) -> Self::Output {
        self.lend().visit_f64_lt()
    }

    fn visit_f64_gt(&mut self) -> Self::Output {
        self.lend().visit_f64_gt()
    }

    fn visit_f64_le(&mut self) -> Self::Output {
        self.lend().visit_f64_le()
    }

    fn visit_f64_ge(&mut self) -> Self::Output {
        self.lend().visit_f64_ge()
    }

    fn visit_f32_abs(&mut self) -> Self::Output {
        self.lend().visit_f32_abs()
    }

    fn visit_f32_neg(&mut self) -> Self::Output {
        self.lend().visit_f32_neg()
    }

    fn visit_f32_ceil(&mut self) -> Self::Output {
        self.lend().visit_f32_ceil()
    }

    fn visit_f32_floor(&mut self) -> Self::Output {
        self.lend().visit_f32_floor()
    }

    fn visit_f32_trunc(&mut self) -> Self::Output {
        self.lend().visit_f32_trunc()
    }

    fn visit_f32_nearest(&mut self) -> Self::Output {
        self.lend().visit_f32_nearest()
    }

    fn visit_f32_sqrt(&mut self) -> Self::Output {
        self.lend().visit_f32_sqrt()
    }

    fn visit_f32_add(&mut self) -> Self::Output {
        self.lend().visit_f32_add()
    }

    fn visit_f32_sub(&mut self) -> Self::Output {
        self.lend().visit_f32_sub()
    }

    fn visit_f32_mul(&mut self) -> Self::Output {
        self.lend().visit_f32_mul()
    }

    fn visit_f32_div(&mut self) -> Self::Output {
        self.lend().visit_f32_div()
    }

    fn visit_f32_min(&mut self) -> Self::Output {
        self.lend().visit_f32_min()
    }

    fn visit_f32_max(&mut self) -> Self::Output {
        self.lend().visit_f32_max()
    }

    fn visit_f32_copysign(&mut self) -> Self::Output {
        self.lend().visit_f32_copysign()
    }

    fn visit_f64_abs(&mut self) -> Self::Output {
        self.lend().visit_f64_abs()
    }

    fn visit_f64_neg(&mut self) -> Self::Output {
        self.lend().visit_f64_neg()
    }

    fn visit_f64_ceil(&mut self) -> Self::Output {
        self.lend().visit_f64_ceil()
    }

    fn visit_f64_floor(&mut self) -> Self::Output {
        self.lend().visit_f64_floor()
    }

    fn visit_f64_trunc(&mut self) -> Self::Output {
        self.lend().visit_f64_trunc()
    }

    fn visit_f64_nearest(&mut self) -> Self::Output {
        self.lend().visit_f64_nearest()
    }

    fn visit_f64_sqrt(&mut self) -> Self::Output {
        self.lend().visit_f64_sqrt()
    }

    fn visit_f64_add(&mut self) -> Self::Output {
        self.lend().visit_f64_add()
    }

    fn visit_f64_sub(&mut self) -> Self::Output {
        self.lend().visit_f64_sub()
    }

    fn visit_f64_mul(&mut self) -> Self::Output {
        self.lend().visit_f64_mul()
    }

    fn visit_f64_div(&mut self) -> Self::Output {
        self.lend().visit_f64_div()
    }

    fn visit_f64_min(&mut self) -> Self::Output {
        self.lend().visit_f64_min()
    }

    fn visit_f64_max(&mut self) -> Self::Output {
        self.lend().visit_f64_max()
    }

    fn visit_f64_copysign(&mut self) -> Self::Output {
        self.lend().visit_f64_copysign()
    }

    fn visit_i32_trunc_f32_s(&mut self) -> Self::Output {
        self.lend().visit_i32_trunc_f32_s()
    }

    fn visit_i32_trunc_f32_u(&mut self) -> Self::Output {
        self.lend().visit_i32_trunc_f32_u()
    }

    fn visit_i32_trunc_f64_s(&mut self) -> Self::Output {
        self.lend().visit_i32_trunc_f64_s()
    }

    fn visit_i32_trunc_f64_u(&mut self) -> Self::Output {
        self.lend().visit_i32_trunc_f64_u()
    }

    fn visit_i64_trunc_f32_s(&mut self) -> Self::Output {
        self.lend().visit_i64_trunc_f32_s()
    }

    fn visit_i64_trunc_f32_u(&mut self) -> Self::Output {
        self.lend().visit_i64_trunc_f32_u()
    }

    fn visit_i64_trunc_f64_s(&mut self) -> Self::Output {
        self.lend().visit_i64_trunc_f64_s()
    }

    fn visit_i64_trunc_f64_u(&mut self) -> Self::Output {
        self.lend().visit_i64_trunc_f64_u()
    }

    fn visit_f32_convert_i32_s(&mut self) -> Self::Output {
        self.lend().visit_f32_convert_i32_s()
    }

    fn visit_f32_convert_i32_u(&mut self) -> Self::Output {
        self.lend().visit_f32_convert_i32_u()
    }

    fn visit_f32_convert_i64_s(&mut self) -> Self::Output {
        self.lend().visit_f32_convert_i64_s()
    }

    fn visit_f32_convert_i64_u(&mut self) -> Self::Output {
        self.lend().visit_f32_convert_i64_u()
    }

    fn visit_f32_demote_f64(&mut self) -> Self::Output {
        self.lend().visit_f32_demote_f64()
    }

    fn visit_f64_convert_i32_s(&mut self) -> Self::Output {
        self.lend().visit_f64_convert_i32_s()
    }

    fn visit_f64_convert_i32_u(&mut self) -> Self::Output {
        self.lend().visit_f64_convert_i32_u()
    }

    fn visit_f64_convert_i64_s(&mut self) -> Self::Output {
        self.lend().visit_f64_convert_i64_s()
    }

    fn visit_f64_convert_i64_u(&mut self) -> Self::Output {
        self.lend().visit_f64_convert_i64_u()
    }

    fn visit_f64_promote_f32(&mut self) -> Self::Output {
        self.lend().visit_f64_promote_f32()
    }

    fn visit_i32_reinterpret_f32(&mut self) -> Self::Output {
        self.lend().visit_i32_reinterpret_f32()
    }

    fn visit_i64_reinterpret_f64(&mut self) -> Self::Output {
        self.lend().visit_i64_reinterpret_f64()
    }

    fn visit_f32_reinterpret_i32(&mut self) -> Self::Output {
        self.lend().visit_f32_reinterpret_i32()
    }

    fn visit_f64_reinterpret_i64(&mut self) -> Self::Output {
        self.lend().visit_f64_reinterpret_i64()
    }

    fn visit_i32_trunc_sat_f32_s(&mut self) -> Self::Output {
        self.lend().visit_i32_trunc_sat_f32_s()
    }

    fn visit_i32_trunc_sat_f32_u(&mut self) -> Self::Output {
        self.lend().visit_i32_trunc_sat_f32_u()
    }

    fn visit_i32_trunc_sat_f64_s(&mut self) -> Self::Output {
        self.lend().visit_i32_trunc_sat_f64_s()
    }

    fn visit_i32_trunc_sat_f64_u(&mut self) -> Self::Output {
        self.lend().visit_i32_trunc_sat_f64_u()
    }

    fn visit_i64_trunc_sat_f32_s(&mut self) -> Self::Output {
        self.lend().visit_i64_trunc_sat_f32_s()
    }

    fn visit_i64_trunc_sat_f32_u(&mut self) -> Self::Output {
        self.lend().visit_i64_trunc_sat_f32_u()
    }

    fn visit_i64_trunc_sat_f64_s(&mut self) -> Self::Output {
        self.lend().visit_i64_trunc_sat_f64_s()
    }

    fn visit_i64_trunc_sat_f64_u(&mut self) -> Self::Output {
        self.lend().visit_i64_trunc_sat_f64_u()
    }
}
