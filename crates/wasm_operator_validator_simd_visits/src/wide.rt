//! Visits of operators on vectors: lanes of 32 and 64 bits.

use crate::{AnswerAs, ValidatingSimdVisitor, WasmModuleResources};
use wasm_operators_visit::SimdNumericOperator;
use wasm_operators_visit_simd::VisitSimdWide;

impl<'a, 'v, 'r, R: WasmModuleResources, A: AnswerAs> VisitSimdWide<'a>
    for ValidatingSimdVisitor<'v, 'r, R, A> {
    fn visit_i32x4_splat(&mut self) -> A::Output {
        self.visitor.simd_numeric(SimdNumericOperator::I32x4Splat)
    }

    fn visit_i64x2_splat(&mut self) -> A::Output {
        self.visitor.simd_numeric(SimdNumericOperator::I64x2Splat)
    }

    fn visit_i32x4_eq(&mut self) -> A::Output {
        self.visitor.simd_numeric(SimdNumericOperator::I32x4Eq)
    }

    fn visit_i32x4_ne(&mut self) -> A::Output {
        self.visitor.simd_numeric(SimdNumericOperator::I32x4Ne)
    }

    fn visit_i32x4_lt_s(&mut self) -> A::Output {
        self.visitor.simd_numeric(SimdNumericOperator::I32x4LtS)
    }

    fn visit_i32x4_lt_u(&mut self) -> A::Output {
        self.visitor.simd_numeric(SimdNumericOperator::I32x4LtU)
    }

    fn visit_i32x4_gt_s(&mut self) -> A::Output {
        self.visitor.simd_numeric(SimdNumericOperator::I32x4GtS)
    }

    fn visit_i32x4_gt_u(&mut self) -> A::Output {
        self.visitor.simd_numeric(SimdNumericOperator::I32x4GtU)
    }

    fn visit_i32x4_le_s(&mut self) -> A::Output {
        self.visitor.simd_numeric(SimdNumericOperator::I32x4LeS)
    }

    fn visit_i32x4_le_u(&mut self) -> A::Output {
        self.visitor.simd_numeric(SimdNumericOperator::I32x4LeU)
    }

    fn visit_i32x4_ge_s(&mut self) -> A::Output {
        self.visitor.simd_numeric(SimdNumericOperator::I32x4GeS)
    }

    fn visit_i32x4_ge_u(&mut self) -> A::Output {
        self.visitor.simd_numeric(SimdNumericOperator::I32x4GeU)
    }

    fn visit_i32x4_extadd_pairwise_i16x8_s(&mut self) -> A::Output {
        self.visitor
            .simd_numeric(SimdNumericOperator::I32x4ExtAddPairwiseI16x8S)
    }

    fn visit_i32x4_extadd_pairwise_i16x8_u(&mut self) -> A::Output {
        self.visitor
            .simd_numeric(SimdNumericOperator::I32x4ExtAddPairwiseI16x8U)
    }

    fn visit_i32x4_abs(&mut self) -> A::Output {
        self.visitor.simd_numeric(SimdNumericOperator::I32x4Abs)
    }

    fn visit_i32x4_neg(&mut self) -> A::Output {
        self.visitor.simd_numeric(SimdNumericOperator::I32x4Neg)
    }

    fn visit_i32x4_all_true(&mut self) -> A::Output {
        self.visitor.simd_numeric(SimdNumericOperator::I32x4AllTrue)
    }

    fn visit_i32x4_bitmask(&mut self) -> A::Output {
        self.visitor.simd_numeric(SimdNumericOperator::I32x4Bitmask)
    }

    fn visit_i32x4_extend_low_i16x8_s(&mut self) -> A::Output {
        self.visitor
            .simd_numeric(SimdNumericOperator::I32x4ExtendLowI16x8S)
    }

    fn visit_i32x4_extend_high_i16x8_s(&mut self) -> A::Output {
        self.visitor
            .simd_numeric(SimdNumericOperator::I32x4ExtendHighI16x8S)
    }

    fn visit_i32x4_extend_low_i16x8_u(&mut self) -> A::Output {
        self.visitor
            .simd_numeric(SimdNumericOperator::I32x4ExtendLowI16x8U)
    }

    fn visit_i32x4_extend_high_i16x8_u(&mut self) -> A::Output {
        self.visitor
            .simd_numeric(SimdNumericOperator::I32x4ExtendHighI16x8U)
    }

    fn visit_i32x4_shl(&mut self) -> A::Output {
        self.visitor.simd_numeric(SimdNumericOperator::I32x4Shl)
    }

    fn visit_i32x4_shr_s(&mut self) -> A::Output {
        self.visitor.simd_numeric(SimdNumericOperator::I32x4ShrS)
    }

    fn visit_i32x4_shr_u(&mut self) -> A::Output {
        self.visitor.simd_numeric(SimdNumericOperator::I32x4ShrU)
    }

    fn visit_i32x4_add(&mut self) -> A::Output {
        self.visitor.simd_numeric(SimdNumericOperator::I32x4Add)
    }

    fn visit_i32x4_sub(&mut self) -> A::Output {
        self.visitor.simd_numeric(SimdNumericOperator::I32x4Sub)
    }

    fn visit_i32x4_mul(&mut self) -> A::Output {
        self.visitor.simd_numeric(SimdNumericOperator::I32x4Mul)
    }

    fn visit_i32x4_min_s(&mut self) -> A::Output {
        self.visitor.simd_numeric(SimdNumericOperator::I32x4MinS)
    }

    fn visit_i32x4_min_u(&mut self) -> A::Output {
        self.visitor.simd_numeric(SimdNumericOperator::I32x4MinU)
    }

    fn visit_i32x4_max_s(&mut self) -> A::Output {
        self.visitor.simd_numeric(SimdNumericOperator::I32x4MaxS)
    }

    fn visit_i32x4_max_u(&mut self) -> A::Output {
        self.visitor.simd_numeric(SimdNumericOperator::I32x4MaxU)
    }

    fn visit_i32x4_dot_i16x8_s(&mut self) -> A::Output {
        self.visitor
            .simd_numeric(SimdNumericOperator::I32x4DotI16x8S)
    }

    fn visit_i32x4_extmul_low_i16x8_s(&mut self) -> A::Output {
        self.visitor
            .simd_numeric(SimdNumericOperator::I32x4ExtMulLowI16x8S)
    }

    fn visit_i32x4_extmul_high_i16x8_s(&mut self) -> A::Output {
        self.visitor
            .simd_numeric(SimdNumericOperator::I32x4ExtMulHighI16x8S)
    }

    fn visit_i32x4_extmul_low_i16x8_u(&mut self) -> A::Output {
        self.visitor
            .simd_numeric(SimdNumericOperator::I32x4ExtMulLowI16x8U)
    }

    fn visit_i32x4_extmul_high_i16x8_u(&mut self) -> A::Output {
        self.visitor
            .simd_numeric(SimdNumericOperator::I32x4ExtMulHighI16x8U)
    }

    fn visit_i64x2_abs(&mut self) -> A::Output {
        self.visitor.simd_numeric(SimdNumericOperator::I64x2Abs)
    }

    fn visit_i64x2_neg(&mut self) -> A::Output {
        self.visitor.simd_numeric(SimdNumericOperator::I64x2Neg)
    }

    fn visit_i64x2_all_true(&mut self) -> A::Output {
        self.visitor.simd_numeric(SimdNumericOperator::I64x2AllTrue)
    }

    fn visit_i64x2_bitmask(&mut self) -> A::Output {
        self.visitor.simd_numeric(SimdNumericOperator::I64x2Bitmask)
    }

    fn visit_i64x2_extend_low_i32x4_s(&mut self) -> A::Output {
        self.visitor
            .simd_numeric(SimdNumericOperator::I64x2ExtendLowI32x4S)
    }

    fn visit_i64x2_extend_high_i32x4_s(&mut self) -> A::Output {
        self.visitor
            .simd_numeric(SimdNumericOperator::I64x2ExtendHighI32x4S)
    }

    fn visit_i64x2_extend_low_i32x4_u(&mut self) -> A::Output {
        self.visitor
            .simd_numeric(SimdNumericOperator::I64x2ExtendLowI32x4U)
    }

    fn visit_i64x2_extend_high_i32x4_u(&mut self) -> A::Output {
        self.visitor
            .simd_numeric(SimdNumericOperator::I64x2ExtendHighI32x4U)
    }

    fn visit_i64x2_shl(&mut self) -> A::Output {
        self.visitor.simd_numeric(SimdNumericOperator::I64x2Shl)
    }

    fn visit_i64x2_shr_s(&mut self) -> A::Output {
        self.visitor.simd_numeric(SimdNumericOperator::I64x2ShrS)
    }

    fn visit_i64x2_shr_u(&mut self) -> A::Output {
        self.visitor.simd_numeric(SimdNumericOperator::I64x2ShrU)
    }

    fn visit_i64x2_add(&mut self) -> A::Output {
        self.visitor.simd_numeric(SimdNumericOperator::I64x2Add)
    }

    fn visit_i64x2_sub(&mut self) -> A::Output {
        self.visitor.simd_numeric(SimdNumericOperator::I64x2Sub)
    }

    fn visit_i64x2_mul(&mut self) -> A::Output {
        self.visitor.simd_numeric(SimdNumericOperator::I64x2Mul)
    }

    fn visit_i64x2_eq(&mut self) -> A::Output {
        self.visitor.simd_numeric(SimdNumericOperator::I64x2Eq)
    }

    fn visit_i64x2_ne(&mut self) -> A::Output {
        self.visitor.simd_numeric(SimdNumericOperator::I64x2Ne)
    }

    fn visit_i64x2_lt_s(&mut self) -> A::Output {
        self.visitor.simd_numeric(SimdNumericOperator::I64x2LtS)
    }

    fn visit_i64x2_gt_s(&mut self) -> A::Output {
        self.visitor.simd_numeric(SimdNumericOperator::I64x2GtS)
    }

    fn visit_i64x2_le_s(&mut self) -> A::Output {
        self.visitor.simd_numeric(SimdNumericOperator::I64x2LeS)
    }

    fn visit_i64x2_ge_s(&mut self) -> A::Output {
        self.visitor.simd_numeric(SimdNumericOperator::I64x2GeS)
    }

    fn visit_i64x2_extmul_low_i32x4_s(&mut self) -> A::Output {
        self.visitor
            .simd_numeric(SimdNumericOperator::I64x2ExtMulLowI32x4S)
    }

    fn visit_i64x2_extmul_high_i32x4_s(&mut self) -> A::Output {
        self.visitor
            .simd_numeric(SimdNumericOperator::I64x2ExtMulHighI32x4S)
    }

    fn visit_i64x2_extmul_low_i32x4_u(&mut self) -> A::Output {
        self.visitor
            .simd_numeric(SimdNumericOperator::I64x2ExtMulLowI32x4U)
    }

    fn visit_i64x2_extmul_high_i32x4_u(&mut self) -> A::Output {
        self.visitor
            .simd_numeric(SimdNumericOperator::I64x2ExtMulHighI32x4U)
    }

    fn visit_i32x4_trunc_sat_f32x4_s(&mut self) -> A::Output {
        self.visitor
            .simd_numeric(SimdNumericOperator::I32x4TruncSatF32x4S)
    }

    fn visit_i32x4_trunc_sat_f32x4_u(&mut self) -> A::Output {
        self.visitor
            .simd_numeric(SimdNumericOperator::I32x4TruncSatF32x4U)
    }

    fn visit_i32x4_trunc_sat_f64x2_s_zero(&mut self) -> A::Output {
        self.visitor
            .simd_numeric(SimdNumericOperator::I32x4TruncSatF64x2SZero)
    }

    fn visit_i32x4_trunc_sat_f64x2_u_zero(&mut self) -> A::Output {
        self.visitor
            .simd_numeric(SimdNumericOperator::I32x4TruncSatF64x2UZero)
    }

    fn visit_i32x4_relaxed_trunc_f32x4_s(&mut self) -> A::Output {
        self.visitor
            .simd_numeric(SimdNumericOperator::I32x4RelaxedTruncF32x4S)
    }

    fn visit_i32x4_relaxed_trunc_f32x4_u(&mut self) -> A::Output {
        self.visitor
            .simd_numeric(SimdNumericOperator::I32x4RelaxedTruncF32x4U)
    }

    fn visit_i32x4_relaxed_trunc_f64x2_s_zero(&mut self) -> A::Output {
        self.visitor
            .simd_numeric(SimdNumericOperator::I32x4RelaxedTruncF64x2SZero)
    }

    fn visit_i32x4_relaxed_trunc_f64x2_u_zero(&mut self) -> A::Output {
        self.visitor
            .simd_numeric(SimdNumericOperator::I32x4RelaxedTruncF64x2UZero)
    }

    fn visit_i32x4_relaxed_laneselect(&mut self) -> A::Output {
        self.visitor
            .simd_numeric(SimdNumericOperator::I32x4RelaxedLaneselect)
    }

    fn visit_i64x2_relaxed_laneselect(&mut self) -> A::Output {
        self.visitor
            .simd_numeric(SimdNumericOperator::I64x2RelaxedLaneselect)
    }

    fn visit_i32x4_relaxed_dot_i8x16_i7x16_add_s(&mut self) -> A::Output {
        self.visitor
            .simd_numeric(SimdNumericOperator::I32x4RelaxedDotI8x16I7x16AddS)
    }
}
