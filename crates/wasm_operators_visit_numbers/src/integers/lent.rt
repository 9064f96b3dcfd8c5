//! What lends a visitor.

use crate::integers::VisitIntegers;
use wasm_operators_visit::Lender;

/// What lends a visitor is told by the visits of what it lends.
impl<'a, P: Lender> VisitIntegers<'a> for P
where
    P::Lent: VisitIntegers<'a>,
{
    fn visit_i32_eqz(&mut self) -> Self::Output {
        self.lend().visit_i32_eqz()
    }

    fn visit_i32_eq(&mut self) -> Self::Output {
        self.lend().visit_i32_eq()
    }

    fn visit_i32_ne(&mut self) -> Self::Output {
        self.lend().visit_i32_ne()
    }

    fn visit_i32_lt_s(&mut self) -> Self::Output {
        self.lend().visit_i32_lt_s()
    }

    fn visit_i32_lt_u(&mut self) -> Self::Output {
        self.lend().visit_i32_lt_u()
    }

    fn visit_i32_gt_s(&mut self) -> Self::Output {
        self.lend().visit_i32_gt_s()
    }

    fn visit_i32_gt_u(&mut self) -> Self::Output {
        self.lend().visit_i32_gt_u()
    }

    fn visit_i32_le_s(&mut self) -> Self::Output {
        self.lend().visit_i32_le_s()
    }

    fn visit_i32_le_u(&mut self) -> Self::Output {
        self.lend().visit_i32_le_u()
    }

    fn visit_i32_ge_s(&mut self) -> Self::Output {
        self.lend().visit_i32_ge_s()
    }

    fn visit_i32_ge_u(&mut self) -> Self::Output {
        self.lend().visit_i32_ge_u()
    }

    fn visit_i64_eqz(&mut self) -> Self::Output {
        self.lend().visit_i64_eqz()
    }

    fn visit_i64_eq(&mut self) -> Self::Output {
        self.lend().visit_i64_eq()
    }

    fn visit_i64_ne(&mut self) -> Self::Output {
        self.lend().visit_i64_ne()
    }

    fn visit_i64_lt_s(&mut self) -> Self::Output {
        self.lend().visit_i64_lt_s()
    }

    fn visit_i64_lt_u(&mut self) -> Self::Output {
        self.lend().visit_i64_lt_u()
    }

    fn visit_i64_gt_s(&mut self) -> Self::Output {
        self.lend().visit_i64_gt_s()
    }

    fn visit_i64_gt_u(&mut self) -> Self::Output {
        self.lend().visit_i64_gt_u()
    }

    fn visit_i64_le_s(&mut self) -> Self::Output {
        self.lend().visit_i64_le_s()
    }

    fn visit_i64_le_u(&mut self) -> Self::Output {
        self.lend().visit_i64_le_u()
    }

    fn visit_i64_ge_s(&mut self) -> Self::Output {
        self.lend().visit_i64_ge_s()
    }

    fn visit_i64_ge_u(&mut self) -> Self::Output {
        self.lend().visit_i64_ge_u()
    }

    fn visit_i32_clz(&mut self) -> Self::Output {
        self.lend().visit_i32_clz()
    }

    fn visit_i32_ctz(&mut self) -> Self::Output {
        self.lend().visit_i32_ctz()
    }

    fn visit_i32_popcnt(&mut self) -> Self::Output {
        self.lend().visit_i32_popcnt()
    }

    fn visit_i32_add(&mut self) -> Self::Output {
        self.lend().visit_i32_add()
    }

    fn visit_i32_sub(&mut self) -> Self::Output {
        self.lend().visit_i32_sub()
    }

    fn visit_i32_mul(&mut self) -> Self::Output {
        self.lend().visit_i32_mul()
    }

    fn visit_i32_div_s(&mut self) -> Self::Output {
        self.lend().visit_i32_div_s()
    }

    fn visit_i32_div_u(&mut self) -> Self::Output {
        self.lend().visit_i32_div_u()
    }

    fn visit_i32_rem_s(&mut self) -> Self::Output {
        self.lend().visit_i32_rem_s()
    }

    fn visit_i32_rem_u(&mut self) -> Self::Output {
        self.lend().visit_i32_rem_u()
    }

    fn visit_i32_and(&mut self) -> Self::Output {
        self.lend().visit_i32_and()
    }

    fn visit_i32_or(&mut self) -> Self::Output {
        self.lend().visit_i32_or()
    }

    fn visit_i32_xor(&mut self) -> Self::Output {
        self.lend().visit_i32_xor()
    }

    fn visit_i32_shl(&mut self) -> Self::Output {
        self.lend().visit_i32_shl()
    }

    fn visit_i32_shr_s(&mut self) -> Self::Output {
        self.lend().visit_i32_shr_s()
    }

    fn visit_i32_shr_u(&mut self) -> Self::Output {
        self.lend().visit_i32_shr_u()
    }

    fn visit_i32_rotl(&mut self) -> Self::Output {
        self.lend().visit_i32_rotl()
    }

    fn visit_i32_rotr(&mut self) -> Self::Output {
        self.lend().visit_i32_rotr()
    }

    fn visit_i64_clz(&mut self) -> Self::Output {
        self.lend().visit_i64_clz()
    }

    fn visit_i64_ctz(&mut self) -> Self::Output {
        self.lend().visit_i64_ctz()
    }

    fn visit_i64_popcnt(&mut self) -> Self::Output {
        self.lend().visit_i64_popcnt()
    }

    fn visit_i64_add(&mut self) -> Self::Output {
        self.lend().visit_i64_add()
    }

    fn visit_i64_sub(&mut self) -> Self::Output {
        self.lend().visit_i64_sub()
    }

    fn visit_i64_mul(&mut self) -> Self::Output {
        self.lend().visit_i64_mul()
    }

    fn visit_i64_div_s(&mut self) -> Self::Output {
        self.lend().visit_i64_div_s()
    }

    fn visit_i64_div_u(&mut self) -> Self::Output {
        self.lend().visit_i64_div_u()
    }

    fn visit_i64_rem_s(&mut self) -> Self::Output {
        self.lend().visit_i64_rem_s()
    }

    fn visit_i64_rem_u(&mut self) -> Self::Output {
        self.lend().visit_i64_rem_u()
    }

    fn visit_i64_and(&mut self) -> Self::Output {
        self.lend().visit_i64_and()
    }

    fn visit_i64_or(&mut self) -> Self::Output {
        self.lend().visit_i64_or()
    }

    fn visit_i64_xor(&mut self) -> Self::Output {
        self.lend().visit_i64_xor()
    }

    fn visit_i64_shl(&mut self) -> Self::Output {
        self.lend().visit_i64_shl()
    }

    fn visit_i64_shr_s(&mut self) -> Self::Output {
        self.lend().visit_i64_shr_s()
    }

    fn visit_i64_shr_u(&mut self) -> Self::Output {
        self.lend().visit_i64_shr_u()
    }

    fn visit_i64_rotl(&mut self) -> Self::Output {
        self.lend().visit_i64_rotl()
    }

    fn visit_i64_rotr(&mut self) -> Self::Output {
        self.lend().visit_i64_rotr()
    }

    fn visit_i32_wrap_i64(&mut self) -> Self::Output {
        self.lend().visit_i32_wrap_i64()
    }

    fn visit_i64_extend_i32_s(&mut self) -> Self::Output {
        self.lend().visit_i64_extend_i32_s()
    }

    fn visit_i64_extend_i32_u(&mut self) -> Self::Output {
        self.lend().visit_i64_extend_i32_u()
    }

    fn visit_i32_extend8_s(&mut self) -> Self::Output {
        self.lend().visit_i32_extend8_s()
    }

    fn visit_i32_extend16_s(&mut self) -> Self::Output {
        self.lend().visit_i32_extend16_s()
    }

    fn visit_i64_extend8_s(&mut self) -> Self::Output {
        self.lend().visit_i64_extend8_s()
    }

    fn visit_i64_extend16_s(&mut self) -> Self::Output {
        self.lend().visit_i64_extend16_s()
    }

    fn visit_i64_extend32_s(&mut self) -> Self::Output {
        self.lend().visit_i64_extend32_s()
    }

    fn visit_i64_add128(&mut self) -> Self::Output {
        self.lend().visit_i64_add128()
    }

    fn visit_i64_sub128(&mut self) -> Self::Output {
        self.lend().visit_i64_sub128()
    }

    fn visit_i64_mul_wide_s(&mut self) -> Self::Output {
        self.lend().visit_i64_mul_wide_s()
    }

    fn visit_i64_mul_wide_u(&mut self) -> Self::Output {
        self.lend().visit_i64_mul_wide_u()
    }
}
