//! Visits of operators on vectors: lanes of 8 and 16 bits.

use crate::{AnswerAs, ValidatingSimdVisitor, WasmModuleResources};
use wasm_operators_visit::SimdNumericOperator;
use wasm_operators_visit_simd::VisitSimdNarrow;

impl<'a, 'v, 'r, R: WasmModuleResources, A: AnswerAs> VisitSimdNarrow<'a>
    for ValidatingSimdVisitor<'v, 'r, R, A> {
    fn visit_i8x16_swizzle(&mut self) -> A::Output {
        self.visitor.simd_numeric(SimdNumericOperator::I8x16Swizzle)
    }

    fn visit_i8x16_splat(&mut self) -> A::Output {
        self.visitor.simd_numeric(SimdNumericOperator::I8x16Splat)
    }

    fn visit_i16x8_splat(&mut self) -> A::Output {
        self.visitor.simd_numeric(SimdNumericOperator::I16x8Splat)
    }

    fn visit_i8x16_eq(&mut self) -> A::Output {
        self.visitor.simd_numeric(SimdNumericOperator::I8x16Eq)
    }

    fn visit_i8x16_ne(&mut self) -> A::Output {
        self.visitor.simd_numeric(SimdNumericOperator::I8x16Ne)
    }

    fn visit_i8x16_lt_s(&mut self) -> A::Output {
        self.visitor.simd_numeric(SimdNumericOperator::I8x16LtS)
    }

    fn visit_i8x16_lt_u(&mut self) -> A::Output {
        self.visitor.simd_numeric(SimdNumericOperator::I8x16LtU)
    }

    fn visit_i8x16_gt_s(&mut self) -> A::Output {
        self.visitor.simd_numeric(SimdNumericOperator::I8x16GtS)
    }

    fn visit_i8x16_gt_u(&mut self) -> A::Output {
        self.visitor.simd_numeric(SimdNumericOperator::I8x16GtU)
    }

    fn visit_i8x16_le_s(&mut self) -> A::Output {
        self.visitor.simd_numeric(SimdNumericOperator::I8x16LeS)
    }

    fn visit_i8x16_le_u(&mut self) -> A::Output {
        self.visitor.simd_numeric(SimdNumericOperator::I8x16LeU)
    }

    fn visit_i8x16_ge_s(&mut self) -> A::Output {
        self.visitor.simd_numeric(SimdNumericOperator::I8x16GeS)
    }

    fn visit_i8x16_ge_u(&mut self) -> A::Output {
        self.visitor.simd_numeric(SimdNumericOperator::I8x16GeU)
    }

    fn visit_i16x8_eq(&mut self) -> A::Output {
        self.visitor.simd_numeric(SimdNumericOperator::I16x8Eq)
    }

    fn visit_i16x8_ne(&mut self) -> A::Output {
        self.visitor.simd_numeric(SimdNumericOperator::I16x8Ne)
    }

    fn visit_i16x8_lt_s(&mut self) -> A::Output {
        self.visitor.simd_numeric(SimdNumericOperator::I16x8LtS)
    }

    fn visit_i16x8_lt_u(&mut self) -> A::Output {
        self.visitor.simd_numeric(SimdNumericOperator::I16x8LtU)
    }

    fn visit_i16x8_gt_s(&mut self) -> A::Output {
        self.visitor.simd_numeric(SimdNumericOperator::I16x8GtS)
    }

    fn visit_i16x8_gt_u(&mut self) -> A::Output {
        self.visitor.simd_numeric(SimdNumericOperator::I16x8GtU)
    }

    fn visit_i16x8_le_s(&mut self) -> A::Output {
        self.visitor.simd_numeric(SimdNumericOperator::I16x8LeS)
    }

    fn visit_i16x8_le_u(&mut self) -> A::Output {
        self.visitor.simd_numeric(SimdNumericOperator::I16x8LeU)
    }

    fn visit_i16x8_ge_s(&mut self) -> A::Output {
        self.visitor.simd_numeric(SimdNumericOperator::I16x8GeS)
    }

    fn visit_i16x8_ge_u(&mut self) -> A::Output {
        self.visitor.simd_numeric(SimdNumericOperator::I16x8GeU)
    }

    fn visit_i8x16_abs(&mut self) -> A::Output {
        self.visitor.simd_numeric(SimdNumericOperator::I8x16Abs)
    }

    fn visit_i8x16_neg(&mut self) -> A::Output {
        self.visitor.simd_numeric(SimdNumericOperator::I8x16Neg)
    }

    fn visit_i8x16_popcnt(&mut self) -> A::Output {
        self.visitor.simd_numeric(SimdNumericOperator::I8x16Popcnt)
    }

    fn visit_i8x16_all_true(&mut self) -> A::Output {
        self.visitor.simd_numeric(SimdNumericOperator::I8x16AllTrue)
    }

    fn visit_i8x16_bitmask(&mut self) -> A::Output {
        self.visitor.simd_numeric(SimdNumericOperator::I8x16Bitmask)
    }

    fn visit_i8x16_narrow_i16x8_s(&mut self) -> A::Output {
        self.visitor
            .simd_numeric(SimdNumericOperator::I8x16NarrowI16x8S)
    }

    fn visit_i8x16_narrow_i16x8_u(&mut self) -> A::Output {
        self.visitor
            .simd_numeric(SimdNumericOperator::I8x16NarrowI16x8U)
    }

    fn visit_i8x16_shl(&mut self) -> A::Output {
        self.visitor.simd_numeric(SimdNumericOperator::I8x16Shl)
    }

    fn visit_i8x16_shr_s(&mut self) -> A::Output {
        self.visitor.simd_numeric(SimdNumericOperator::I8x16ShrS)
    }

    fn visit_i8x16_shr_u(&mut self) -> A::Output {
        self.visitor.simd_numeric(SimdNumericOperator::I8x16ShrU)
    }

    fn visit_i8x16_add(&mut self) -> A::Output {
        self.visitor.simd_numeric(SimdNumericOperator::I8x16Add)
    }

    fn visit_i8x16_add_sat_s(&mut self) -> A::Output {
        self.visitor.simd_numeric(SimdNumericOperator::I8x16AddSatS)
    }

    fn visit_i8x16_add_sat_u(&mut self) -> A::Output {
        self.visitor.simd_numeric(SimdNumericOperator::I8x16AddSatU)
    }

    fn visit_i8x16_sub(&mut self) -> A::Output {
        self.visitor.simd_numeric(SimdNumericOperator::I8x16Sub)
    }

    fn visit_i8x16_sub_sat_s(&mut self) -> A::Output {
        self.visitor.simd_numeric(SimdNumericOperator::I8x16SubSatS)
    }

    fn visit_i8x16_sub_sat_u(&mut self) -> A::Output {
        self.visitor.simd_numeric(SimdNumericOperator::I8x16SubSatU)
    }

    fn visit_i8x16_min_s(&mut self) -> A::Output {
        self.visitor.simd_numeric(SimdNumericOperator::I8x16MinS)
    }

    fn visit_i8x16_min_u(&mut self) -> A::Output {
        self.visitor.simd_numeric(SimdNumericOperator::I8x16MinU)
    }

    fn visit_i8x16_max_s(&mut self) -> A::Output {
        self.visitor.simd_numeric(SimdNumericOperator::I8x16MaxS)
    }

    fn visit_i8x16_max_u(&mut self) -> A::Output {
        self.visitor.simd_numeric(SimdNumericOperator::I8x16MaxU)
    }

    fn visit_i8x16_avgr_u(&mut self) -> A::Output {
        self.visitor.simd_numeric(SimdNumericOperator::I8x16AvgrU)
    }

    fn visit_i16x8_extadd_pairwise_i8x16_s(&mut self) -> A::Output {
        self.visitor
            .simd_numeric(SimdNumericOperator::I16x8ExtAddPairwiseI8x16S)
    }

    fn visit_i16x8_extadd_pairwise_i8x16_u(&mut self) -> A::Output {
        self.visitor
            .simd_numeric(SimdNumericOperator::I16x8ExtAddPairwiseI8x16U)
    }

    fn visit_i16x8_abs(&mut self) -> A::Output {
        self.visitor.simd_numeric(SimdNumericOperator::I16x8Abs)
    }

    fn visit_i16x8_neg(&mut self) -> A::Output {
        self.visitor.simd_numeric(SimdNumericOperator::I16x8Neg)
    }

    fn visit_i16x8_q15mulr_sat_s(&mut self) -> A::Output {
        self.visitor
            .simd_numeric(SimdNumericOperator::I16x8Q15MulrSatS)
    }

    fn visit_i16x8_all_true(&mut self) -> A::Output {
        self.visitor.simd_numeric(SimdNumericOperator::I16x8AllTrue)
    }

    fn visit_i16x8_bitmask(&mut self) -> A::Output {
        self.visitor.simd_numeric(SimdNumericOperator::I16x8Bitmask)
    }

    fn visit_i16x8_narrow_i32x4_s(&mut self) -> A::Output {
        self.visitor
            .simd_numeric(SimdNumericOperator::I16x8NarrowI32x4S)
    }

    fn visit_i16x8_narrow_i32x4_u(&mut self) -> A::Output {
        self.visitor
            .simd_numeric(SimdNumericOperator::I16x8NarrowI32x4U)
    }

    fn visit_i16x8_extend_low_i8x16_s(&mut self) -> A::Output {
        self.visitor
            .simd_numeric(SimdNumericOperator::I16x8ExtendLowI8x16S)
    }

    fn visit_i16x8_extend_high_i8x16_s(&mut self) -> A::Output {
        self.visitor
            .simd_numeric(SimdNumericOperator::I16x8ExtendHighI8x16S)
    }

    fn visit_i16x8_extend_low_i8x16_u(&mut self) -> A::Output {
        self.visitor
            .simd_numeric(SimdNumericOperator::I16x8ExtendLowI8x16U)
    }

    fn visit_i16x8_extend_high_i8x16_u(&mut self) -> A::Output {
        self.visitor
            .simd_numeric(SimdNumericOperator::I16x8ExtendHighI8x16U)
    }

    fn visit_i16x8_shl(&mut self) -> A::Output {
        self.visitor.simd_numeric(SimdNumericOperator::I16x8Shl)
    }

    fn visit_i16x8_shr_s(&mut self) -> A::Output {
        self.visitor.simd_numeric(SimdNumericOperator::I16x8ShrS)
    }

    fn visit_i16x8_shr_u(&mut self) -> A::Output {
        self.visitor.simd_numeric(SimdNumericOperator::I16x8ShrU)
    }

    fn visit_i16x8_add(&mut self) -> A::Output {
        self.visitor.simd_numeric(SimdNumericOperator::I16x8Add)
    }

    fn visit_i16x8_add_sat_s(&mut self) -> A::Output {
        self.visitor.simd_numeric(SimdNumericOperator::I16x8AddSatS)
    }

    fn visit_i16x8_add_sat_u(&mut self) -> A::Output {
        self.visitor.simd_numeric(SimdNumericOperator::I16x8AddSatU)
    }

    fn visit_i16x8_sub(&mut self) -> A::Output {
        self.visitor.simd_numeric(SimdNumericOperator::I16x8Sub)
    }

    fn visit_i16x8_sub_sat_s(&mut self) -> A::Output {
        self.visitor.simd_numeric(SimdNumericOperator::I16x8SubSatS)
    }

    fn visit_i16x8_sub_sat_u(&mut self) -> A::Output {
        self.visitor.simd_numeric(SimdNumericOperator::I16x8SubSatU)
    }

    fn visit_i16x8_mul(&mut self) -> A::Output {
        self.visitor.simd_numeric(SimdNumericOperator::I16x8Mul)
    }

    fn visit_i16x8_min_s(&mut self) -> A::Output {
        self.visitor.simd_numeric(SimdNumericOperator::I16x8MinS)
    }

    fn visit_i16x8_min_u(&mut self) -> A::Output {
        self.visitor.simd_numeric(SimdNumericOperator::I16x8MinU)
    }

    fn visit_i16x8_max_s(&mut self) -> A::Output {
        self.visitor.simd_numeric(SimdNumericOperator::I16x8MaxS)
    }

    fn visit_i16x8_max_u(&mut self) -> A::Output {
        self.visitor.simd_numeric(SimdNumericOperator::I16x8MaxU)
    }

    fn visit_i16x8_avgr_u(&mut self) -> A::Output {
        self.visitor.simd_numeric(SimdNumericOperator::I16x8AvgrU)
    }

    fn visit_i16x8_extmul_low_i8x16_s(&mut self) -> A::Output {
        self.visitor
            .simd_numeric(SimdNumericOperator::I16x8ExtMulLowI8x16S)
    }

    fn visit_i16x8_extmul_high_i8x16_s(&mut self) -> A::Output {
        self.visitor
            .simd_numeric(SimdNumericOperator::I16x8ExtMulHighI8x16S)
    }

    fn visit_i16x8_extmul_low_i8x16_u(&mut self) -> A::Output {
        self.visitor
            .simd_numeric(SimdNumericOperator::I16x8ExtMulLowI8x16U)
    }

    fn visit_i16x8_extmul_high_i8x16_u(&mut self) -> A::Output {
        self.visitor
            .simd_numeric(SimdNumericOperator::I16x8ExtMulHighI8x16U)
    }

    fn visit_i8x16_relaxed_swizzle(&mut self) -> A::Output {
        self.visitor
            .simd_numeric(SimdNumericOperator::I8x16RelaxedSwizzle)
    }

    fn visit_i8x16_relaxed_laneselect(&mut self) -> A::Output {
        self.visitor
            .simd_numeric(SimdNumericOperator::I8x16RelaxedLaneselect)
    }

    fn visit_i16x8_relaxed_laneselect(&mut self) -> A::Output {
        self.visitor
            .simd_numeric(SimdNumericOperator::I16x8RelaxedLaneselect)
    }

    fn visit_i16x8_relaxed_q15mulr_s(&mut self) -> A::Output {
        self.visitor
            .simd_numeric(SimdNumericOperator::I16x8RelaxedQ15mulrS)
    }

    fn visit_i16x8_relaxed_dot_i8x16_i7x16_s(&mut self) -> A::Output {
        self.visitor
            .simd_numeric(SimdNumericOperator::I16x8RelaxedDotI8x16I7x16S)
    }
}
