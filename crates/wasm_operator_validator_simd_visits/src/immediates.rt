//! Visits of operators on vectors: memory accesses, constants, lanes and bits.

use crate::{AnswerAs, ValidatingSimdVisitor, WasmModuleResources};
use wasm_operators_visit::{MemArg, SimdNumericOperator, SimdOperator, V128};
use wasm_operators_visit_simd::VisitSimd;

impl<'a, 'v, 'r, R: WasmModuleResources, A: AnswerAs> VisitSimd<'a>
    for ValidatingSimdVisitor<'v, 'r, R, A> {
    fn visit_v128_load(&mut self, memarg: MemArg) -> A::Output {
        self.visitor.simd(SimdOperator::V128Load { memarg })
    }

    fn visit_v128_load8x8_s(&mut self, memarg: MemArg) -> A::Output {
        self.visitor.simd(SimdOperator::V128Load8x8S { memarg })
    }

    fn visit_v128_load8x8_u(&mut self, memarg: MemArg) -> A::Output {
        self.visitor.simd(SimdOperator::V128Load8x8U { memarg })
    }

    fn visit_v128_load16x4_s(&mut self, memarg: MemArg) -> A::Output {
        self.visitor.simd(SimdOperator::V128Load16x4S { memarg })
    }

    fn visit_v128_load16x4_u(&mut self, memarg: MemArg) -> A::Output {
        self.visitor.simd(SimdOperator::V128Load16x4U { memarg })
    }

    fn visit_v128_load32x2_s(&mut self, memarg: MemArg) -> A::Output {
        self.visitor.simd(SimdOperator::V128Load32x2S { memarg })
    }

    fn visit_v128_load32x2_u(&mut self, memarg: MemArg) -> A::Output {
        self.visitor.simd(SimdOperator::V128Load32x2U { memarg })
    }

    fn visit_v128_load8_splat(&mut self, memarg: MemArg) -> A::Output {
        self.visitor.simd(SimdOperator::V128Load8Splat { memarg })
    }

    fn visit_v128_load16_splat(&mut self, memarg: MemArg) -> A::Output {
        self.visitor.simd(SimdOperator::V128Load16Splat { memarg })
    }

    fn visit_v128_load32_splat(&mut self, memarg: MemArg) -> A::Output {
        self.visitor.simd(SimdOperator::V128Load32Splat { memarg })
    }

    fn visit_v128_load64_splat(&mut self, memarg: MemArg) -> A::Output {
        self.visitor.simd(SimdOperator::V128Load64Splat { memarg })
    }

    fn visit_v128_store(&mut self, memarg: MemArg) -> A::Output {
        self.visitor.simd(SimdOperator::V128Store { memarg })
    }

    fn visit_v128_const(&mut self, value: V128) -> A::Output {
        self.visitor.simd(SimdOperator::V128Const { value })
    }

    fn visit_i8x16_shuffle(&mut self, lanes: [u8; 16]) -> A::Output {
        self.visitor.simd(SimdOperator::I8x16Shuffle { lanes })
    }

    fn visit_i8x16_extract_lane_s(&mut self, lane: u8) -> A::Output {
        self.visitor.simd(SimdOperator::I8x16ExtractLaneS { lane })
    }

    fn visit_i8x16_extract_lane_u(&mut self, lane: u8) -> A::Output {
        self.visitor.simd(SimdOperator::I8x16ExtractLaneU { lane })
    }

    fn visit_i8x16_replace_lane(&mut self, lane: u8) -> A::Output {
        self.visitor.simd(SimdOperator::I8x16ReplaceLane { lane })
    }

    fn visit_i16x8_extract_lane_s(&mut self, lane: u8) -> A::Output {
        self.visitor.simd(SimdOperator::I16x8ExtractLaneS { lane })
    }

    fn visit_i16x8_extract_lane_u(&mut self, lane: u8) -> A::Output {
        self.visitor.simd(SimdOperator::I16x8ExtractLaneU { lane })
    }

    fn visit_i16x8_replace_lane(&mut self, lane: u8) -> A::Output {
        self.visitor.simd(SimdOperator::I16x8ReplaceLane { lane })
    }

    fn visit_i32x4_extract_lane(&mut self, lane: u8) -> A::Output {
        self.visitor.simd(SimdOperator::I32x4ExtractLane { lane })
    }

    fn visit_i32x4_replace_lane(&mut self, lane: u8) -> A::Output {
        self.visitor.simd(SimdOperator::I32x4ReplaceLane { lane })
    }

    fn visit_i64x2_extract_lane(&mut self, lane: u8) -> A::Output {
        self.visitor.simd(SimdOperator::I64x2ExtractLane { lane })
    }

    fn visit_i64x2_replace_lane(&mut self, lane: u8) -> A::Output {
        self.visitor.simd(SimdOperator::I64x2ReplaceLane { lane })
    }

    fn visit_f32x4_extract_lane(&mut self, lane: u8) -> A::Output {
        self.visitor.simd(SimdOperator::F32x4ExtractLane { lane })
    }

    fn visit_f32x4_replace_lane(&mut self, lane: u8) -> A::Output {
        self.visitor.simd(SimdOperator::F32x4ReplaceLane { lane })
    }

    fn visit_f64x2_extract_lane(&mut self, lane: u8) -> A::Output {
        self.visitor.simd(SimdOperator::F64x2ExtractLane { lane })
    }

    fn visit_f64x2_replace_lane(&mut self, lane: u8) -> A::Output {
        self.visitor.simd(SimdOperator::F64x2ReplaceLane { lane })
    }

    fn visit_v128_load8_lane(&mut self, memarg: MemArg, lane: u8) -> A::Output {
        self.visitor
            .simd(SimdOperator::V128Load8Lane { memarg, lane })
    }

    fn visit_v128_load16_lane(&mut self, memarg: MemArg, lane: u8) -> A::Output {
        self.visitor
            .simd(SimdOperator::V128Load16Lane { memarg, lane })
    }

    fn visit_v128_load32_lane(&mut self, memarg: MemArg, lane: u8) -> A::Output {
        self.visitor
            .simd(SimdOperator::V128Load32Lane { memarg, lane })
    }

    fn visit_v128_load64_lane(&mut self, memarg: MemArg, lane: u8) -> A::Output {
        self.visitor
            .simd(SimdOperator::V128Load64Lane { memarg, lane })
    }

    fn visit_v128_store8_lane(&mut self, memarg: MemArg, lane: u8) -> A::Output {
        self.visitor
            .simd(SimdOperator::V128Store8Lane { memarg, lane })
    }

    fn visit_v128_store16_lane(&mut self, memarg: MemArg, lane: u8) -> A::Output {
        self.visitor
            .simd(SimdOperator::V128Store16Lane { memarg, lane })
    }

    fn visit_v128_store32_lane(&mut self, memarg: MemArg, lane: u8) -> A::Output {
        self.visitor
            .simd(SimdOperator::V128Store32Lane { memarg, lane })
    }

    fn visit_v128_store64_lane(&mut self, memarg: MemArg, lane: u8) -> A::Output {
        self.visitor
            .simd(SimdOperator::V128Store64Lane { memarg, lane })
    }

    fn visit_v128_load32_zero(&mut self, memarg: MemArg) -> A::Output {
        self.visitor.simd(SimdOperator::V128Load32Zero { memarg })
    }

    fn visit_v128_load64_zero(&mut self, memarg: MemArg) -> A::Output {
        self.visitor.simd(SimdOperator::V128Load64Zero { memarg })
    }

    fn visit_v128_not(&mut self) -> A::Output {
        self.visitor.simd_numeric(SimdNumericOperator::V128Not)
    }

    fn visit_v128_and(&mut self) -> A::Output {
        self.visitor.simd_numeric(SimdNumericOperator::V128And)
    }

    fn visit_v128_andnot(&mut self) -> A::Output {
        self.visitor.simd_numeric(SimdNumericOperator::V128AndNot)
    }

    fn visit_v128_or(&mut self) -> A::Output {
        self.visitor.simd_numeric(SimdNumericOperator::V128Or)
    }

    fn visit_v128_xor(&mut self) -> A::Output {
        self.visitor.simd_numeric(SimdNumericOperator::V128Xor)
    }

    fn visit_v128_bitselect(&mut self) -> A::Output {
        self.visitor
            .simd_numeric(SimdNumericOperator::V128Bitselect)
    }

    fn visit_v128_any_true(&mut self) -> A::Output {
        self.visitor.simd_numeric(SimdNumericOperator::V128AnyTrue)
    }
}
