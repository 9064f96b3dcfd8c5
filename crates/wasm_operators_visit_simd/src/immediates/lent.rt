//! What lends a visitor.

use crate::immediates::VisitSimd;
use wasm_operators_visit::{Lender, MemArg, V128};

/// What lends a visitor is told by the visits of what it lends.
impl<'a, P: Lender> VisitSimd<'a> for P
where
    P::Lent: VisitSimd<'a>,
{
    fn visit_v128_load(&mut self, memarg: MemArg) -> Self::Output {
        self.lend().visit_v128_load(memarg)
    }

    fn visit_v128_load8x8_s(&mut self, memarg: MemArg) -> Self::Output {
        self.lend().visit_v128_load8x8_s(memarg)
    }

    fn visit_v128_load8x8_u(&mut self, memarg: MemArg) -> Self::Output {
        self.lend().visit_v128_load8x8_u(memarg)
    }

    fn visit_v128_load16x4_s(&mut self, memarg: MemArg) -> Self::Output {
        self.lend().visit_v128_load16x4_s(memarg)
    }

    fn visit_v128_load16x4_u(&mut self, memarg: MemArg) -> Self::Output {
        self.lend().visit_v128_load16x4_u(memarg)
    }

    fn visit_v128_load32x2_s(&mut self, memarg: MemArg) -> Self::Output {
        self.lend().visit_v128_load32x2_s(memarg)
    }

    fn visit_v128_load32x2_u(&mut self, memarg: MemArg) -> Self::Output {
        self.lend().visit_v128_load32x2_u(memarg)
    }

    fn visit_v128_load8_splat(&mut self, memarg: MemArg) -> Self::Output {
        self.lend().visit_v128_load8_splat(memarg)
    }

    fn visit_v128_load16_splat(&mut self, memarg: MemArg) -> Self::Output {
        self.lend().visit_v128_load16_splat(memarg)
    }

    fn visit_v128_load32_splat(&mut self, memarg: MemArg) -> Self::Output {
        self.lend().visit_v128_load32_splat(memarg)
    }

    fn visit_v128_load64_splat(&mut self, memarg: MemArg) -> Self::Output {
        self.lend().visit_v128_load64_splat(memarg)
    }

    fn visit_v128_store(&mut self, memarg: MemArg) -> Self::Output {
        self.lend().visit_v128_store(memarg)
    }

    fn visit_v128_const(&mut self, value: V128) -> Self::Output {
        self.lend().visit_v128_const(value)
    }

    fn visit_i8x16_shuffle(&mut self, lanes: [u8; 16]) -> Self::Output {
        self.lend().visit_i8x16_shuffle(lanes)
    }

    fn visit_i8x16_extract_lane_s(&mut self, lane: u8) -> Self::Output {
        self.lend().visit_i8x16_extract_lane_s(lane)
    }

    fn visit_i8x16_extract_lane_u(&mut self, lane: u8) -> Self::Output {
        self.lend().visit_i8x16_extract_lane_u(lane)
    }

    fn visit_i8x16_replace_lane(&mut self, lane: u8) -> Self::Output {
        self.lend().visit_i8x16_replace_lane(lane)
    }

    fn visit_i16x8_extract_lane_s(&mut self, lane: u8) -> Self::Output {
        self.lend().visit_i16x8_extract_lane_s(lane)
    }

    fn visit_i16x8_extract_lane_u(&mut self, lane: u8) -> Self::Output {
        self.lend().visit_i16x8_extract_lane_u(lane)
    }

    fn visit_i16x8_replace_lane(&mut self, lane: u8) -> Self::Output {
        self.lend().visit_i16x8_replace_lane(lane)
    }

    fn visit_i32x4_extract_lane(&mut self, lane: u8) -> Self::Output {
        self.lend().visit_i32x4_extract_lane(lane)
    }

    fn visit_i32x4_replace_lane(&mut self, lane: u8) -> Self::Output {
        self.lend().visit_i32x4_replace_lane(lane)
    }

    fn visit_i64x2_extract_lane(&mut self, lane: u8) -> Self::Output {
        self.lend().visit_i64x2_extract_lane(lane)
    }

    fn visit_i64x2_replace_lane(&mut self, lane: u8) -> Self::Output {
        self.lend().visit_i64x2_replace_lane(lane)
    }

    fn visit_f32x4_extract_lane(&mut self, lane: u8) -> Self::Output {
        self.lend().visit_f32x4_extract_lane(lane)
    }

    fn visit_f32x4_replace_lane(&mut self, lane: u8) -> Self::Output {
        self.lend().visit_f32x4_replace_lane(lane)
    }

    fn visit_f64x2_extract_lane(&mut self, lane: u8) -> Self::Output {
        self.lend().visit_f64x2_extract_lane(lane)
    }

    fn visit_f64x2_replace_lane(&mut self, lane: u8) -> Self::Output {
        self.lend().visit_f64x2_replace_lane(lane)
    }

    fn visit_v128_load8_lane(&mut self, memarg: MemArg, lane: u8) -> Self::Output {
        self.lend().visit_v128_load8_lane(memarg, lane)
    }

    fn visit_v128_load16_lane(&mut self, memarg: MemArg, lane: u8) -> Self::Output {
        self.lend().visit_v128_load16_lane(memarg, lane)
    }

    fn visit_v128_load32_lane(&mut self, memarg: MemArg, lane: u8) -> Self::Output {
        self.lend().visit_v128_load32_lane(memarg, lane)
    }

    fn visit_v128_load64_lane(&mut self, memarg: MemArg, lane: u8) -> Self::Output {
        self.lend().visit_v128_load64_lane(memarg, lane)
    }

    fn visit_v128_store8_lane(&mut self, memarg: MemArg, lane: u8) -> Self::Output {
        self.lend().visit_v128_store8_lane(memarg, lane)
    }

    fn visit_v128_store16_lane(&mut self, memarg: MemArg, lane: u8) -> Self::Output {
        self.lend().visit_v128_store16_lane(memarg, lane)
    }

    fn visit_v128_store32_lane(&mut self, memarg: MemArg, lane: u8) -> Self::Output {
        self.lend().visit_v128_store32_lane(memarg, lane)
    }

    fn visit_v128_store64_lane(&mut self, memarg: MemArg, lane: u8) -> Self::Output {
        self.lend().visit_v128_store64_lane(memarg, lane)
    }

    fn visit_v128_load32_zero(&mut self, memarg: MemArg) -> Self::Output {
        self.lend().visit_v128_load32_zero(memarg)
    }

    fn visit_v128_load64_zero(&mut self, memarg: MemArg) -> Self::Output {
        self.lend().visit_v128_load64_zero(memarg)
    }

    fn visit_v128_not(&mut self) -> Self::Output {
        self.lend().visit_v128_not()
    }

    fn visit_v128_and(&mut self) -> Self::Output {
        self.lend().visit_v128_and()
    }

    fn visit_v128_andnot(&mut self) -> Self::Output {
        self.lend().visit_v128_andnot()
    }

    fn visit_v128_or(&mut self) -> Self::Output {
        self.lend().visit_v128_or()
    }

    fn visit_v128_xor(&mut self) -> Self::Output {
        self.lend().visit_v128_xor()
    }

    fn visit_v128_bitselect(&mut self) -> Self::Output {
        self.lend().visit_v128_bitselect()
    }

    fn visit_v128_any_true(&mut self) -> Self::Output {
        self.lend().visit_v128_any_true()
    }
}
