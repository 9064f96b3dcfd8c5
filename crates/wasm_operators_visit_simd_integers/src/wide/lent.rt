//! What lends a visitor.

use crate::wide::VisitSimdWide;
use wasm_operators_visit::Lender;

/// What lends a visitor is told by the visits of what it lends.
impl<'a, P: Lender> VisitSimdWide<'a> for P
where
    P::Lent: VisitSimdWide<'a>,
{
    fn visit_i32x4_splat(&mut self) -> Self::Output {
        self.lend().visit_i32x4_splat()
    }

    fn visit_i64x2_splat(&mut self) -> Self::Output {
        self.lend().visit_i64x2_splat()
    }

    fn visit_i32x4_eq(&mut self) -> Self::Output {
        self.lend().visit_i32x4_eq()
    }

    fn visit_i32x4_ne(&mut self) -> Self::Output {
        self.lend().visit_i32x4_ne()
    }

    fn visit_i32x4_lt_s(&mut self) -> Self::Output {
        self.lend().visit_i32x4_lt_s()
    }

    fn visit_i32x4_lt_u(&mut self) -> Self::Output {
        self.lend().visit_i32x4_lt_u()
    }

    fn visit_i32x4_gt_s(&mut self) -> Self::Output {
        self.lend().visit_i32x4_gt_s()
    }

    fn visit_i32x4_gt_u(&mut self) -> Self::Output {
        self.lend().visit_i32x4_gt_u()
    }

    fn visit_i32x4_le_s(&mut self) -> Self::Output {
        self.lend().visit_i32x4_le_s()
    }

    fn visit_i32x4_le_u(&mut self) -> Self::Output {
        self.lend().visit_i32x4_le_u()
    }

    fn visit_i32x4_ge_s(&mut self) -> Self::Output {
        self.lend().visit_i32x4_ge_s()
    }

    fn visit_i32x4_ge_u(&mut self) -> Self::Output {
        self.lend().visit_i32x4_ge_u()
    }

    fn visit_i32x4_extadd_pairwise_i16x8_s(&mut self) -> Self::Output {
        self.lend().visit_i32x4_extadd_pairwise_i16x8_s()
    }

    fn visit_i32x4_extadd_pairwise_i16x8_u(&mut self) -> Self::Output {
        self.lend().visit_i32x4_extadd_pairwise_i16x8_u()
    }

    fn visit_i32x4_abs(&mut self) -> Self::Output {
        self.lend().visit_i32x4_abs()
    }

    fn visit_i32x4_neg(&mut self) -> Self::Output {
        self.lend().visit_i32x4_neg()
    }

    fn visit_i32x4_all_true(&mut self) -> Self::Output {
        self.lend().visit_i32x4_all_true()
    }

    fn visit_i32x4_bitmask(&mut self) -> Self::Output {
        self.lend().visit_i32x4_bitmask()
    }

    fn visit_i32x4_extend_low_i16x8_s(&mut self) -> Self::Output {
        self.lend().visit_i32x4_extend_low_i16x8_s()
    }

    fn visit_i32x4_extend_high_i16x8_s(&mut self) -> Self::Output {
        self.lend().visit_i32x4_extend_high_i16x8_s()
    }

    fn visit_i32x4_extend_low_i16x8_u(&mut self) -> Self::Output {
        self.lend().visit_i32x4_extend_low_i16x8_u()
    }

    fn visit_i32x4_extend_high_i16x8_u(&mut self) -> Self::Output {
        self.lend().visit_i32x4_extend_high_i16x8_u()
    }

    fn visit_i32x4_shl(&mut self) -> Self::Output {
        self.lend().visit_i32x4_shl()
    }

    fn visit_i32x4_shr_s(&mut self) -> Self::Output {
        self.lend().visit_i32x4_shr_s()
    }

    fn visit_i32x4_shr_u(&mut self) -> Self::Output {
        self.lend().visit_i32x4_shr_u()
    }

    fn visit_i32x4_add(&mut self) -> Self::Output {
        self.lend().visit_i32x4_add()
    }

    fn visit_i32x4_sub(&mut self) -> Self::Output {
        self.lend().visit_i32x4_sub()
    }

    fn visit_i32x4_mul(&mut self) -> Self::Output {
        self.lend().visit_i32x4_mul()
    }

    fn visit_i32x4_min_s(&mut self) -> Self::Output {
        self.lend().visit_i32x4_min_s()
    }

    fn visit_i32x4_min_u(&mut self) -> Self::Output {
        self.lend().visit_i32x4_min_u()
    }

    fn visit_i32x4_max_s(&mut self) -> Self::Output {
        self.lend().visit_i32x4_max_s()
    }

    fn visit_i32x4_max_u(&mut self) -> Self::Output {
        self.lend().visit_i32x4_max_u()
    }

    fn visit_i32x4_dot_i16x8_s(&mut self) -> Self::Output {
        self.lend().visit_i32x4_dot_i16x8_s()
    }

    fn visit_i32x4_extmul_low_i16x8_s(&mut self) -> Self::Output {
        self.lend().visit_i32x4_extmul_low_i16x8_s()
    }

    fn visit_i32x4_extmul_high_i16x8_s(&mut self) -> Self::Output {
        self.lend().visit_i32x4_extmul_high_i16x8_s()
    }

    fn visit_i32x4_extmul_low_i16x8_u(&mut self) -> Self::Output {
        self.lend().visit_i32x4_extmul_low_i16x8_u()
    }

    fn visit_i32x4_extmul_high_i16x8_u(&mut self) -> Self::Output {
        self.lend().visit_i32x4_extmul_high_i16x8_u()
    }

    fn visit_i64x2_abs(&mut self) -> Self::Output {
        self.lend().visit_i64x2_abs()
    }

    fn visit_i64x2_neg(&mut self) -> Self::Output {
        self.lend().visit_i64x2_neg()
    }

    fn visit_i64x2_all_true(&mut self) -> Self::Output {
        self.lend().visit_i64x2_all_true()
    }

    fn visit_i64x2_bitmask(&mut self) -> Self::Output {
        self.lend().visit_i64x2_bitmask()
    }

    fn visit_i64x2_extend_low_i32x4_s(&mut self) -> Self::Output {
        self.lend().visit_i64x2_extend_low_i32x4_s()
    }

    fn visit_i64x2_extend_high_i32x4_s(&mut self) -> Self::Output {
        self.lend().visit_i64x2_extend_high_i32x4_s()
    }

    fn visit_i64x2_extend_low_i32x4_u(&mut self) -> Self::Output {
        self.lend().visit_i64x2_extend_low_i32x4_u()
    }

    fn visit_i64x2_extend_high_i32x4_u(&mut self) -> Self::Output {
        self.lend().visit_i64x2_extend_high_i32x4_u()
    }

    fn visit_i64x2_shl(&mut self) -> Self::Output {
        self.lend().visit_i64x2_shl()
    }

    fn visit_i64x2_shr_s(&mut self) -> Self::Output {
        self.lend().visit_i64x2_shr_s()
    }

    fn visit_i64x2_shr_u(&mut self) -> Self::Output {
        self.lend().visit_i64x2_shr_u()
    }

    fn visit_i64x2_add(&mut self) -> Self::Output {
        self.lend().visit_i64x2_add()
    }

    fn visit_i64x2_sub(&mut self) -> Self::Output {
        self.lend().visit_i64x2_sub()
    }

    fn visit_i64x2_mul(&mut self) -> Self::Output {
        self.lend().visit_i64x2_mul()
    }

    fn visit_i64x2_eq(&mut self) -> Self::Output {
        self.lend().visit_i64x2_eq()
    }

    fn visit_i64x2_ne(&mut self) -> Self::Output {
        self.lend().visit_i64x2_ne()
    }

    fn visit_i64x2_lt_s(&mut self) -> Self::Output {
        self.lend().visit_i64x2_lt_s()
    }

    fn visit_i64x2_gt_s(&mut self) -> Self::Output {
        self.lend().visit_i64x2_gt_s()
    }

    fn visit_i64x2_le_s(&mut self) -> Self::Output {
        self.lend().visit_i64x2_le_s()
    }

    fn visit_i64x2_ge_s(&mut self) -> Self::Output {
        self.lend().visit_i64x2_ge_s()
    }

    fn visit_i64x2_extmul_low_i32x4_s(&mut self) -> Self::Output {
        self.lend().visit_i64x2_extmul_low_i32x4_s()
    }

    fn visit_i64x2_extmul_high_i32x4_s(&mut self) -> Self::Output {
        self.lend().visit_i64x2_extmul_high_i32x4_s()
    }

    fn visit_i64x2_extmul_low_i32x4_u(&mut self) -> Self::Output {
        self.lend().visit_i64x2_extmul_low_i32x4_u()
    }

    fn visit_i64x2_extmul_high_i32x4_u(&mut self) -> Self::Output {
        self.lend().visit_i64x2_extmul_high_i32x4_u()
    }

    fn visit_i32x4_trunc_sat_f32x4_s(&mut self) -> Self::Output {
        self.lend().visit_i32x4_trunc_sat_f32x4_s()
    }

    fn visit_i32x4_trunc_sat_f32x4_u(&mut self) -> Self::Output {
        self.lend().visit_i32x4_trunc_sat_f32x4_u()
    }

    fn visit_i32x4_trunc_sat_f64x2_s_zero(&mut self) -> Self::Output {
        self.lend().visit_i32x4_trunc_sat_f64x2_s_zero()
    }

    fn visit_i32x4_trunc_sat_f64x2_u_zero(&mut self) -> Self::Output {
        self.lend().visit_i32x4_trunc_sat_f64x2_u_zero()
    }

    fn visit_i32x4_relaxed_trunc_f32x4_s(&mut self) -> Self::Output {
        self.lend().visit_i32x4_relaxed_trunc_f32x4_s()
    }

    fn visit_i32x4_relaxed_trunc_f32x4_u(&mut self) -> Self::Output {
        self.lend().visit_i32x4_relaxed_trunc_f32x4_u()
    }

    fn visit_i32x4_relaxed_trunc_f64x2_s_zero(&mut self) -> Self::Output {
        self.lend().visit_i32x4_relaxed_trunc_f64x2_s_zero()
    }

    fn visit_i32x4_relaxed_trunc_f64x2_u_zero(&mut self) -> Self::Output {
        self.lend().visit_i32x4_relaxed_trunc_f64x2_u_zero()
    }

    fn visit_i32x4_relaxed_laneselect(&mut self) -> Self::Output {
        self.lend().visit_i32x4_relaxed_laneselect()
    }

    fn visit_i64x2_relaxed_laneselect(&mut self) -> Self::Output {
        self.lend().visit_i64x2_relaxed_laneselect()
    }

    fn visit_i32x4_relaxed_dot_i8x16_i7x16_add_s(&mut self) -> Self::Output {
        self.lend().visit_i32x4_relaxed_dot_i8x16_i7x16_add_s()
    }
}
