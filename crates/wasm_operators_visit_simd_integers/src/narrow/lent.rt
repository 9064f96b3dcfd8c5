//! What lends a visitor.

use crate::narrow::VisitSimdNarrow;
use wasm_operators_visit::Lender;

/// What lends a visitor is told by the visits of what it lends.
impl<'a, P: Lender> VisitSimdNarrow<'a> for P
where
    P::Lent: VisitSimdNarrow<'a>,
{
    fn visit_i8x16_swizzle(&mut self) -> Self::Output {
        self.lend().visit_i8x16_swizzle()
    }

    fn visit_i8x16_splat(&mut self) -> Self::Output {
        self.lend().visit_i8x16_splat()
    }

    fn visit_i16x8_splat(&mut self) -> Self::Output {
        self.lend().visit_i16x8_splat()
    }

    fn visit_i8x16_eq(&mut self) -> Self::Output {
        self.lend().visit_i8x16_eq()
    }

    fn visit_i8x16_ne(&mut self) -> Self::Output {
        self.lend().visit_i8x16_ne()
    }

    fn visit_i8x16_lt_s(&mut self) -> Self::Output {
        self.lend().visit_i8x16_lt_s()
    }

    fn visit_i8x16_lt_u(&mut self) -> Self::Output {
        self.lend().visit_i8x16_lt_u()
    }

    fn visit_i8x16_gt_s(&mut self) -> Self::Output {
        self.lend().visit_i8x16_gt_s()
    }

    fn visit_i8x16_gt_u(&mut self) -> Self::Output {
        self.lend().visit_i8x16_gt_u()
    }

    fn visit_i8x16_le_s(&mut self) -> Self::Output {
        self.lend().visit_i8x16_le_s()
    }

    fn visit_i8x16_le_u(&mut self) -> Self::Output {
        self.lend().visit_i8x16_le_u()
    }

    fn visit_i8x16_ge_s(&mut self) -> Self::Output {
        self.lend().visit_i8x16_ge_s()
    }

    fn visit_i8x16_ge_u(&mut self) -> Self::Output {
        self.lend().visit_i8x16_ge_u()
    }

    fn visit_i16x8_eq(&mut self) -> Self::Output {
        self.lend().visit_i16x8_eq()
    }

    fn visit_i16x8_ne(&mut self) -> Self::Output {
        self.lend().visit_i16x8_ne()
    }

    fn visit_i16x8_lt_s(&mut self) -> Self::Output {
        self.lend().visit_i16x8_lt_s()
    }

    fn visit_i16x8_lt_u(&mut self) -> Self::Output {
        self.lend().visit_i16x8_lt_u()
    }

    fn visit_i16x8_gt_s(&mut self) -> Self::Output {
        self.lend().visit_i16x8_gt_s()
    }

    fn visit_i16x8_gt_u(&mut self) -> Self::Output {
        self.lend().visit_i16x8_gt_u()
    }

    fn visit_i16x8_le_s(&mut self) -> Self::Output {
        self.lend().visit_i16x8_le_s()
    }

    fn visit_i16x8_le_u(&mut self) -> Self::Output {
        self.lend().visit_i16x8_le_u()
    }

    fn visit_i16x8_ge_s(&mut self) -> Self::Output {
        self.lend().visit_i16x8_ge_s()
    }

    fn visit_i16x8_ge_u(&mut self) -> Self::Output {
        self.lend().visit_i16x8_ge_u()
    }

    fn visit_i8x16_abs(&mut self) -> Self::Output {
        self.lend().visit_i8x16_abs()
    }

    fn visit_i8x16_neg(&mut self) -> Self::Output {
        self.lend().visit_i8x16_neg()
    }

    fn visit_i8x16_popcnt(&mut self) -> Self::Output {
        self.lend().visit_i8x16_popcnt()
    }

    fn visit_i8x16_all_true(&mut self) -> Self::Output {
        self.lend().visit_i8x16_all_true()
    }

    fn visit_i8x16_bitmask(&mut self) -> Self::Output {
        self.lend().visit_i8x16_bitmask()
    }

    fn visit_i8x16_narrow_i16x8_s(&mut self) -> Self::Output {
        self.lend().visit_i8x16_narrow_i16x8_s()
    }

    fn visit_i8x16_narrow_i16x8_u(&mut self) -> Self::Output {
        self.lend().visit_i8x16_narrow_i16x8_u()
    }

    fn visit_i8x16_shl(&mut self) -> Self::Output {
        self.lend().visit_i8x16_shl()
    }

    fn visit_i8x16_shr_s(&mut self) -> Self::Output {
        self.lend().visit_i8x16_shr_s()
    }

    fn visit_i8x16_shr_u(&mut self) -> Self::Output {
        self.lend().visit_i8x16_shr_u()
    }

    fn visit_i8x16_add(&mut self) -> Self::Output {
        self.lend().visit_i8x16_add()
    }

    fn visit_i8x16_add_sat_s(&mut self) -> Self::Output {
        self.lend().visit_i8x16_add_sat_s()
    }

    fn visit_i8x16_add_sat_u(&mut self) -> Self::Output {
        self.lend().visit_i8x16_add_sat_u()
    }

    fn visit_i8x16_sub(&mut self) -> Self::Output {
        self.lend().visit_i8x16_sub()
    }

    fn visit_i8x16_sub_sat_s(&mut self) -> Self::Output {
        self.lend().visit_i8x16_sub_sat_s()
    }

    fn visit_i8x16_sub_sat_u(&mut self) -> Self::Output {
        self.lend().visit_i8x16_sub_sat_u()
    }

    fn visit_i8x16_min_s(&mut self) -> Self::Output {
        self.lend().visit_i8x16_min_s()
    }

    fn visit_i8x16_min_u(&mut self) -> Self::Output {
        self.lend().visit_i8x16_min_u()
    }

    fn visit_i8x16_max_s(&mut self) -> Self::Output {
        self.lend().visit_i8x16_max_s()
    }

    fn visit_i8x16_max_u(&mut self) -> Self::Output {
        self.lend().visit_i8x16_max_u()
    }

    fn visit_i8x16_avgr_u(&mut self) -> Self::Output {
        self.lend().visit_i8x16_avgr_u()
    }

    fn visit_i16x8_extadd_pairwise_i8x16_s(&mut self) -> Self::Output {
        self.lend().visit_i16x8_extadd_pairwise_i8x16_s()
    }

    fn visit_i16x8_extadd_pairwise_i8x16_u(&mut self) -> Self::Output {
        self.lend().visit_i16x8_extadd_pairwise_i8x16_u()
    }

    fn visit_i16x8_abs(&mut self) -> Self::Output {
        self.lend().visit_i16x8_abs()
    }

    fn visit_i16x8_neg(&mut self) -> Self::Output {
        self.lend().visit_i16x8_neg()
    }

    fn visit_i16x8_q15mulr_sat_s(&mut self) -> Self::Output {
        self.lend().visit_i16x8_q15mulr_sat_s()
    }

    fn visit_i16x8_all_true(&mut self) -> Self::Output {
        self.lend().visit_i16x8_all_true()
    }

    fn visit_i16x8_bitmask(&mut self) -> Self::Output {
        self.lend().visit_i16x8_bitmask()
    }

    fn visit_i16x8_narrow_i32x4_s(&mut self) -> Self::Output {
        self.lend().visit_i16x8_narrow_i32x4_s()
    }

    fn visit_i16x8_narrow_i32x4_u(&mut self) -> Self::Output {
        self.lend().visit_i16x8_narrow_i32x4_u()
    }

    fn visit_i16x8_extend_low_i8x16_s(&mut self) -> Self::Output {
        self.lend().visit_i16x8_extend_low_i8x16_s()
    }

    fn visit_i16x8_extend_high_i8x16_s(&mut self) -> Self::Output {
        self.lend().visit_i16x8_extend_high_i8x16_s()
    }

    fn visit_i16x8_extend_low_i8x16_u(&mut self) -> Self::Output {
        self.lend().visit_i16x8_extend_low_i8x16_u()
    }

    fn visit_i16x8_extend_high_i8x16_u(&mut self) -> Self::Output {
        self.lend().visit_i16x8_extend_high_i8x16_u()
    }

    fn visit_i16x8_shl(&mut self) -> Self::Output {
        self.lend().visit_i16x8_shl()
    }

    fn visit_i16x8_shr_s(&mut self) -> Self::Output {
        self.lend().visit_i16x8_shr_s()
    }

    fn visit_i16x8_shr_u(&mut self) -> Self::Output {
        self.lend().visit_i16x8_shr_u()
    }

    fn visit_i16x8_add(&mut self) -> Self::Output {
        self.lend().visit_i16x8_add()
    }

    fn visit_i16x8_add_sat_s(&mut self) -> Self::Output {
        self.lend().visit_i16x8_add_sat_s()
    }

    fn visit_i16x8_add_sat_u(&mut self) -> Self::Output {
        self.lend().visit_i16x8_add_sat_u()
    }

    fn visit_i16x8_sub(&mut self) -> Self::Output {
        self.lend().visit_i16x8_sub()
    }

    fn visit_i16x8_sub_sat_s(&mut self) -> Self::Output {
        self.lend().visit_i16x8_sub_sat_s()
    }

    fn visit_i16x8_sub_sat_u(&mut self) -> Self::Output {
        self.lend().visit_i16x8_sub_sat_u()
    }

    fn visit_i16x8_mul(&mut self) -> Self::Output {
        self.lend().visit_i16x8_mul()
    }

    fn visit_i16x8_min_s(&mut self) -> Self::Output {
        self.lend().visit_i16x8_min_s()
    }

    fn visit_i16x8_min_u(&mut self) -> Self::Output {
        self.lend().visit_i16x8_min_u()
    }

    fn visit_i16x8_max_s(&mut self) -> Self::Output {
        self.lend().visit_i16x8_max_s()
    }

    fn visit_i16x8_max_u(&mut self) -> Self::Output {
        self.lend().visit_i16x8_max_u()
    }

    fn visit_i16x8_avgr_u(&mut self) -> Self::Output {
        self.lend().visit_i16x8_avgr_u()
    }

    fn visit_i16x8_extmul_low_i8x16_s(&mut self) -> Self::Output {
        self.lend().visit_i16x8_extmul_low_i8x16_s()
    }

    fn visit_i16x8_extmul_high_i8x16_s(&mut self) -> Self::Output {
        self.lend().visit_i16x8_extmul_high_i8x16_s()
    }

    fn visit_i16x8_extmul_low_i8x16_u(&mut self) -> Self::Output {
        self.lend().visit_i16x8_extmul_low_i8x16_u()
    }

    fn visit_i16x8_extmul_high_i8x16_u(&mut self) -> Self::Output {
        self.lend().visit_i16x8_extmul_high_i8x16_u()
    }

    fn visit_i8x16_relaxed_swizzle(&mut self) -> Self::Output {
        self.lend().visit_i8x16_relaxed_swizzle()
    }

    fn visit_i8x16_relaxed_laneselect(&mut self) -> Self::Output {
        self.lend().visit_i8x16_relaxed_laneselect()
    }

    fn visit_i16x8_relaxed_laneselect(&mut self) -> Self::Output {
        self.lend().visit_i16x8_relaxed_laneselect()
    }

    fn visit_i16x8_relaxed_q15mulr_s(&mut self) -> Self::Output {
        self.lend().visit_i16x8_relaxed_q15mulr_s()
    }

    fn visit_i16x8_relaxed_dot_i8x16_i7x16_s(&mut self) -> Self::Output {
        self.lend().visit_i16x8_relaxed_dot_i8x16_i7x16_s()
    }
}
