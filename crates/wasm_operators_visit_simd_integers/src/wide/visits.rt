//! One visit for each operator.

ghost use Rattle.wasm_operators_enums.specs.Op.{Op};
ghost use Rattle.wasm_operators_enums.specs.declared.vector_numeric.SimdNumericOperator.{SimdNumericOperator};

use wasm_operators_visit::Visitor;

/// A visit for each operator on vectors of 32-bit and 64-bit integers that carries nothing (WebAssembly 3.0, structure,
/// vector instructions).
pub trait VisitSimdWide<'a>: Visitor<'a> {
    /// Visits `i32x4.splat`.
    fn visit_i32x4_splat(&mut self) -> Self::Output
        ensures { Self.visits self.old (Op.SimdNumeric SimdNumericOperator.I32x4Splat) result self.new };

    /// Visits `i64x2.splat`.
    fn visit_i64x2_splat(&mut self) -> Self::Output
        ensures { Self.visits self.old (Op.SimdNumeric SimdNumericOperator.I64x2Splat) result self.new };

    /// Visits `i32x4.eq`.
    fn visit_i32x4_eq(&mut self) -> Self::Output
        ensures { Self.visits self.old (Op.SimdNumeric SimdNumericOperator.I32x4Eq) result self.new };

    /// Visits `i32x4.ne`.
    fn visit_i32x4_ne(&mut self) -> Self::Output
        ensures { Self.visits self.old (Op.SimdNumeric SimdNumericOperator.I32x4Ne) result self.new };

    /// Visits `i32x4.lt_s`.
    fn visit_i32x4_lt_s(&mut self) -> Self::Output
        ensures { Self.visits self.old (Op.SimdNumeric SimdNumericOperator.I32x4LtS) result self.new };

    /// Visits `i32x4.lt_u`.
    fn visit_i32x4_lt_u(&mut self) -> Self::Output
        ensures { Self.visits self.old (Op.SimdNumeric SimdNumericOperator.I32x4LtU) result self.new };

    /// Visits `i32x4.gt_s`.
    fn visit_i32x4_gt_s(&mut self) -> Self::Output
        ensures { Self.visits self.old (Op.SimdNumeric SimdNumericOperator.I32x4GtS) result self.new };

    /// Visits `i32x4.gt_u`.
    fn visit_i32x4_gt_u(&mut self) -> Self::Output
        ensures { Self.visits self.old (Op.SimdNumeric SimdNumericOperator.I32x4GtU) result self.new };

    /// Visits `i32x4.le_s`.
    fn visit_i32x4_le_s(&mut self) -> Self::Output
        ensures { Self.visits self.old (Op.SimdNumeric SimdNumericOperator.I32x4LeS) result self.new };

    /// Visits `i32x4.le_u`.
    fn visit_i32x4_le_u(&mut self) -> Self::Output
        ensures { Self.visits self.old (Op.SimdNumeric SimdNumericOperator.I32x4LeU) result self.new };

    /// Visits `i32x4.ge_s`.
    fn visit_i32x4_ge_s(&mut self) -> Self::Output
        ensures { Self.visits self.old (Op.SimdNumeric SimdNumericOperator.I32x4GeS) result self.new };

    /// Visits `i32x4.ge_u`.
    fn visit_i32x4_ge_u(&mut self) -> Self::Output
        ensures { Self.visits self.old (Op.SimdNumeric SimdNumericOperator.I32x4GeU) result self.new };

    /// Visits `i32x4.extadd_pairwise_i16x8_s`.
    fn visit_i32x4_extadd_pairwise_i16x8_s(&mut self) -> Self::Output
        ensures { Self.visits self.old (Op.SimdNumeric SimdNumericOperator.I32x4ExtAddPairwiseI16x8S) result self.new };

    /// Visits `i32x4.extadd_pairwise_i16x8_u`.
    fn visit_i32x4_extadd_pairwise_i16x8_u(&mut self) -> Self::Output
        ensures { Self.visits self.old (Op.SimdNumeric SimdNumericOperator.I32x4ExtAddPairwiseI16x8U) result self.new };

    /// Visits `i32x4.abs`.
    fn visit_i32x4_abs(&mut self) -> Self::Output
        ensures { Self.visits self.old (Op.SimdNumeric SimdNumericOperator.I32x4Abs) result self.new };

    /// Visits `i32x4.neg`.
    fn visit_i32x4_neg(&mut self) -> Self::Output
        ensures { Self.visits self.old (Op.SimdNumeric SimdNumericOperator.I32x4Neg) result self.new };

    /// Visits `i32x4.all_true`.
    fn visit_i32x4_all_true(&mut self) -> Self::Output
        ensures { Self.visits self.old (Op.SimdNumeric SimdNumericOperator.I32x4AllTrue) result self.new };

    /// Visits `i32x4.bitmask`.
    fn visit_i32x4_bitmask(&mut self) -> Self::Output
        ensures { Self.visits self.old (Op.SimdNumeric SimdNumericOperator.I32x4Bitmask) result self.new };

    /// Visits `i32x4.extend_low_i16x8_s`.
    fn visit_i32x4_extend_low_i16x8_s(&mut self) -> Self::Output
        ensures { Self.visits self.old (Op.SimdNumeric SimdNumericOperator.I32x4ExtendLowI16x8S) result self.new };

    /// Visits `i32x4.extend_high_i16x8_s`.
    fn visit_i32x4_extend_high_i16x8_s(&mut self) -> Self::Output
        ensures { Self.visits self.old (Op.SimdNumeric SimdNumericOperator.I32x4ExtendHighI16x8S) result self.new };

    /// Visits `i32x4.extend_low_i16x8_u`.
    fn visit_i32x4_extend_low_i16x8_u(&mut self) -> Self::Output
        ensures { Self.visits self.old (Op.SimdNumeric SimdNumericOperator.I32x4ExtendLowI16x8U) result self.new };

    /// Visits `i32x4.extend_high_i16x8_u`.
    fn visit_i32x4_extend_high_i16x8_u(&mut self) -> Self::Output
        ensures { Self.visits self.old (Op.SimdNumeric SimdNumericOperator.I32x4ExtendHighI16x8U) result self.new };

    /// Visits `i32x4.shl`.
    fn visit_i32x4_shl(&mut self) -> Self::Output
        ensures { Self.visits self.old (Op.SimdNumeric SimdNumericOperator.I32x4Shl) result self.new };

    /// Visits `i32x4.shr_s`.
    fn visit_i32x4_shr_s(&mut self) -> Self::Output
        ensures { Self.visits self.old (Op.SimdNumeric SimdNumericOperator.I32x4ShrS) result self.new };

    /// Visits `i32x4.shr_u`.
    fn visit_i32x4_shr_u(&mut self) -> Self::Output
        ensures { Self.visits self.old (Op.SimdNumeric SimdNumericOperator.I32x4ShrU) result self.new };

    /// Visits `i32x4.add`.
    fn visit_i32x4_add(&mut self) -> Self::Output
        ensures { Self.visits self.old (Op.SimdNumeric SimdNumericOperator.I32x4Add) result self.new };

    /// Visits `i32x4.sub`.
    fn visit_i32x4_sub(&mut self) -> Self::Output
        ensures { Self.visits self.old (Op.SimdNumeric SimdNumericOperator.I32x4Sub) result self.new };

    /// Visits `i32x4.mul`.
    fn visit_i32x4_mul(&mut self) -> Self::Output
        ensures { Self.visits self.old (Op.SimdNumeric SimdNumericOperator.I32x4Mul) result self.new };

    /// Visits `i32x4.min_s`.
    fn visit_i32x4_min_s(&mut self) -> Self::Output
        ensures { Self.visits self.old (Op.SimdNumeric SimdNumericOperator.I32x4MinS) result self.new };

    /// Visits `i32x4.min_u`.
    fn visit_i32x4_min_u(&mut self) -> Self::Output
        ensures { Self.visits self.old (Op.SimdNumeric SimdNumericOperator.I32x4MinU) result self.new };

    /// Visits `i32x4.max_s`.
    fn visit_i32x4_max_s(&mut self) -> Self::Output
        ensures { Self.visits self.old (Op.SimdNumeric SimdNumericOperator.I32x4MaxS) result self.new };

    /// Visits `i32x4.max_u`.
    fn visit_i32x4_max_u(&mut self) -> Self::Output
        ensures { Self.visits self.old (Op.SimdNumeric SimdNumericOperator.I32x4MaxU) result self.new };

    /// Visits `i32x4.dot_i16x8_s`.
    fn visit_i32x4_dot_i16x8_s(&mut self) -> Self::Output
        ensures { Self.visits self.old (Op.SimdNumeric SimdNumericOperator.I32x4DotI16x8S) result self.new };

    /// Visits `i32x4.extmul_low_i16x8_s`.
    fn visit_i32x4_extmul_low_i16x8_s(&mut self) -> Self::Output
        ensures { Self.visits self.old (Op.SimdNumeric SimdNumericOperator.I32x4ExtMulLowI16x8S) result self.new };

    /// Visits `i32x4.extmul_high_i16x8_s`.
    fn visit_i32x4_extmul_high_i16x8_s(&mut self) -> Self::Output
        ensures { Self.visits self.old (Op.SimdNumeric SimdNumericOperator.I32x4ExtMulHighI16x8S) result self.new };

    /// Visits `i32x4.extmul_low_i16x8_u`.
    fn visit_i32x4_extmul_low_i16x8_u(&mut self) -> Self::Output
        ensures { Self.visits self.old (Op.SimdNumeric SimdNumericOperator.I32x4ExtMulLowI16x8U) result self.new };

    /// Visits `i32x4.extmul_high_i16x8_u`.
    fn visit_i32x4_extmul_high_i16x8_u(&mut self) -> Self::Output
        ensures { Self.visits self.old (Op.SimdNumeric SimdNumericOperator.I32x4ExtMulHighI16x8U) result self.new };

    /// Visits `i64x2.abs`.
    fn visit_i64x2_abs(&mut self) -> Self::Output
        ensures { Self.visits self.old (Op.SimdNumeric SimdNumericOperator.I64x2Abs) result self.new };

    /// Visits `i64x2.neg`.
    fn visit_i64x2_neg(&mut self) -> Self::Output
        ensures { Self.visits self.old (Op.SimdNumeric SimdNumericOperator.I64x2Neg) result self.new };

    /// Visits `i64x2.all_true`.
    fn visit_i64x2_all_true(&mut self) -> Self::Output
        ensures { Self.visits self.old (Op.SimdNumeric SimdNumericOperator.I64x2AllTrue) result self.new };

    /// Visits `i64x2.bitmask`.
    fn visit_i64x2_bitmask(&mut self) -> Self::Output
        ensures { Self.visits self.old (Op.SimdNumeric SimdNumericOperator.I64x2Bitmask) result self.new };

    /// Visits `i64x2.extend_low_i32x4_s`.
    fn visit_i64x2_extend_low_i32x4_s(&mut self) -> Self::Output
        ensures { Self.visits self.old (Op.SimdNumeric SimdNumericOperator.I64x2ExtendLowI32x4S) result self.new };

    /// Visits `i64x2.extend_high_i32x4_s`.
    fn visit_i64x2_extend_high_i32x4_s(&mut self) -> Self::Output
        ensures { Self.visits self.old (Op.SimdNumeric SimdNumericOperator.I64x2ExtendHighI32x4S) result self.new };

    /// Visits `i64x2.extend_low_i32x4_u`.
    fn visit_i64x2_extend_low_i32x4_u(&mut self) -> Self::Output
        ensures { Self.visits self.old (Op.SimdNumeric SimdNumericOperator.I64x2ExtendLowI32x4U) result self.new };

    /// Visits `i64x2.extend_high_i32x4_u`.
    fn visit_i64x2_extend_high_i32x4_u(&mut self) -> Self::Output
        ensures { Self.visits self.old (Op.SimdNumeric SimdNumericOperator.I64x2ExtendHighI32x4U) result self.new };

    /// Visits `i64x2.shl`.
    fn visit_i64x2_shl(&mut self) -> Self::Output
        ensures { Self.visits self.old (Op.SimdNumeric SimdNumericOperator.I64x2Shl) result self.new };

    /// Visits `i64x2.shr_s`.
    fn visit_i64x2_shr_s(&mut self) -> Self::Output
        ensures { Self.visits self.old (Op.SimdNumeric SimdNumericOperator.I64x2ShrS) result self.new };

    /// Visits `i64x2.shr_u`.
    fn visit_i64x2_shr_u(&mut self) -> Self::Output
        ensures { Self.visits self.old (Op.SimdNumeric SimdNumericOperator.I64x2ShrU) result self.new };

    /// Visits `i64x2.add`.
    fn visit_i64x2_add(&mut self) -> Self::Output
        ensures { Self.visits self.old (Op.SimdNumeric SimdNumericOperator.I64x2Add) result self.new };

    /// Visits `i64x2.sub`.
    fn visit_i64x2_sub(&mut self) -> Self::Output
        ensures { Self.visits self.old (Op.SimdNumeric SimdNumericOperator.I64x2Sub) result self.new };

    /// Visits `i64x2.mul`.
    fn visit_i64x2_mul(&mut self) -> Self::Output
        ensures { Self.visits self.old (Op.SimdNumeric SimdNumericOperator.I64x2Mul) result self.new };

    /// Visits `i64x2.eq`.
    fn visit_i64x2_eq(&mut self) -> Self::Output
        ensures { Self.visits self.old (Op.SimdNumeric SimdNumericOperator.I64x2Eq) result self.new };

    /// Visits `i64x2.ne`.
    fn visit_i64x2_ne(&mut self) -> Self::Output
        ensures { Self.visits self.old (Op.SimdNumeric SimdNumericOperator.I64x2Ne) result self.new };

    /// Visits `i64x2.lt_s`.
    fn visit_i64x2_lt_s(&mut self) -> Self::Output
        ensures { Self.visits self.old (Op.SimdNumeric SimdNumericOperator.I64x2LtS) result self.new };

    /// Visits `i64x2.gt_s`.
    fn visit_i64x2_gt_s(&mut self) -> Self::Output
        ensures { Self.visits self.old (Op.SimdNumeric SimdNumericOperator.I64x2GtS) result self.new };

    /// Visits `i64x2.le_s`.
    fn visit_i64x2_le_s(&mut self) -> Self::Output
        ensures { Self.visits self.old (Op.SimdNumeric SimdNumericOperator.I64x2LeS) result self.new };

    /// Visits `i64x2.ge_s`.
    fn visit_i64x2_ge_s(&mut self) -> Self::Output
        ensures { Self.visits self.old (Op.SimdNumeric SimdNumericOperator.I64x2GeS) result self.new };

    /// Visits `i64x2.extmul_low_i32x4_s`.
    fn visit_i64x2_extmul_low_i32x4_s(&mut self) -> Self::Output
        ensures { Self.visits self.old (Op.SimdNumeric SimdNumericOperator.I64x2ExtMulLowI32x4S) result self.new };

    /// Visits `i64x2.extmul_high_i32x4_s`.
    fn visit_i64x2_extmul_high_i32x4_s(&mut self) -> Self::Output
        ensures { Self.visits self.old (Op.SimdNumeric SimdNumericOperator.I64x2ExtMulHighI32x4S) result self.new };

    /// Visits `i64x2.extmul_low_i32x4_u`.
    fn visit_i64x2_extmul_low_i32x4_u(&mut self) -> Self::Output
        ensures { Self.visits self.old (Op.SimdNumeric SimdNumericOperator.I64x2ExtMulLowI32x4U) result self.new };

    /// Visits `i64x2.extmul_high_i32x4_u`.
    fn visit_i64x2_extmul_high_i32x4_u(&mut self) -> Self::Output
        ensures { Self.visits self.old (Op.SimdNumeric SimdNumericOperator.I64x2ExtMulHighI32x4U) result self.new };

    /// Visits `i32x4.trunc_sat_f32x4_s`.
    fn visit_i32x4_trunc_sat_f32x4_s(&mut self) -> Self::Output
        ensures { Self.visits self.old (Op.SimdNumeric SimdNumericOperator.I32x4TruncSatF32x4S) result self.new };

    /// Visits `i32x4.trunc_sat_f32x4_u`.
    fn visit_i32x4_trunc_sat_f32x4_u(&mut self) -> Self::Output
        ensures { Self.visits self.old (Op.SimdNumeric SimdNumericOperator.I32x4TruncSatF32x4U) result self.new };

    /// Visits `i32x4.trunc_sat_f64x2_s_zero`.
    fn visit_i32x4_trunc_sat_f64x2_s_zero(&mut self) -> Self::Output
        ensures { Self.visits self.old (Op.SimdNumeric SimdNumericOperator.I32x4TruncSatF64x2SZero) result self.new };

    /// Visits `i32x4.trunc_sat_f64x2_u_zero`.
    fn visit_i32x4_trunc_sat_f64x2_u_zero(&mut self) -> Self::Output
        ensures { Self.visits self.old (Op.SimdNumeric SimdNumericOperator.I32x4TruncSatF64x2UZero) result self.new };

    /// Visits `i32x4.relaxed_trunc_f32x4_s`.
    fn visit_i32x4_relaxed_trunc_f32x4_s(&mut self) -> Self::Output
        ensures { Self.visits self.old (Op.SimdNumeric SimdNumericOperator.I32x4RelaxedTruncF32x4S) result self.new };

    /// Visits `i32x4.relaxed_trunc_f32x4_u`.
    fn visit_i32x4_relaxed_trunc_f32x4_u(&mut self) -> Self::Output
        ensures { Self.visits self.old (Op.SimdNumeric SimdNumericOperator.I32x4RelaxedTruncF32x4U) result self.new };

    /// Visits `i32x4.relaxed_trunc_f64x2_s_zero`.
    fn visit_i32x4_relaxed_trunc_f64x2_s_zero(&mut self) -> Self::Output
        ensures { Self.visits self.old (Op.SimdNumeric SimdNumericOperator.I32x4RelaxedTruncF64x2SZero)
            result self.new };

    /// Visits `i32x4.relaxed_trunc_f64x2_u_zero`.
    fn visit_i32x4_relaxed_trunc_f64x2_u_zero(&mut self) -> Self::Output
        ensures { Self.visits self.old (Op.SimdNumeric SimdNumericOperator.I32x4RelaxedTruncF64x2UZero)
            result self.new };

    /// Visits `i32x4.relaxed_laneselect`.
    fn visit_i32x4_relaxed_laneselect(&mut self) -> Self::Output
        ensures { Self.visits self.old (Op.SimdNumeric SimdNumericOperator.I32x4RelaxedLaneselect) result self.new };

    /// Visits `i64x2.relaxed_laneselect`.
    fn visit_i64x2_relaxed_laneselect(&mut self) -> Self::Output
        ensures { Self.visits self.old (Op.SimdNumeric SimdNumericOperator.I64x2RelaxedLaneselect) result self.new };

    /// Visits `i32x4.relaxed_dot_i8x16_i7x16_add_s`.
    fn visit_i32x4_relaxed_dot_i8x16_i7x16_add_s(&mut self) -> Self::Output
        ensures { Self.visits self.old (Op.SimdNumeric SimdNumericOperator.I32x4RelaxedDotI8x16I7x16AddS)
            result self.new };
}
