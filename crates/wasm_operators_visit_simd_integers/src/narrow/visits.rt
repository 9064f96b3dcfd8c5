//! One visit for each operator.

ghost use Rattle.wasm_operators_enums.specs.Op.{Op};
ghost use Rattle.wasm_operators_enums.specs.declared.vector_numeric.SimdNumericOperator.{SimdNumericOperator};

use wasm_operators_visit::Visitor;

/// A visit for each operator on vectors of 8-bit and 16-bit integers that carries nothing (WebAssembly 3.0, structure,
/// vector instructions).
pub trait VisitSimdNarrow<'a>: Visitor<'a> {
    /// Visits `i8x16.swizzle`.
    fn visit_i8x16_swizzle(&mut self) -> Self::Output
        ensures { Self.visits self.old (Op.SimdNumeric SimdNumericOperator.I8x16Swizzle) result self.new };

    /// Visits `i8x16.splat`.
    fn visit_i8x16_splat(&mut self) -> Self::Output
        ensures { Self.visits self.old (Op.SimdNumeric SimdNumericOperator.I8x16Splat) result self.new };

    /// Visits `i16x8.splat`.
    fn visit_i16x8_splat(&mut self) -> Self::Output
        ensures { Self.visits self.old (Op.SimdNumeric SimdNumericOperator.I16x8Splat) result self.new };

    /// Visits `i8x16.eq`.
    fn visit_i8x16_eq(&mut self) -> Self::Output
        ensures { Self.visits self.old (Op.SimdNumeric SimdNumericOperator.I8x16Eq) result self.new };

    /// Visits `i8x16.ne`.
    fn visit_i8x16_ne(&mut self) -> Self::Output
        ensures { Self.visits self.old (Op.SimdNumeric SimdNumericOperator.I8x16Ne) result self.new };

    /// Visits `i8x16.lt_s`.
    fn visit_i8x16_lt_s(&mut self) -> Self::Output
        ensures { Self.visits self.old (Op.SimdNumeric SimdNumericOperator.I8x16LtS) result self.new };

    /// Visits `i8x16.lt_u`.
    fn visit_i8x16_lt_u(&mut self) -> Self::Output
        ensures { Self.visits self.old (Op.SimdNumeric SimdNumericOperator.I8x16LtU) result self.new };

    /// Visits `i8x16.gt_s`.
    fn visit_i8x16_gt_s(&mut self) -> Self::Output
        ensures { Self.visits self.old (Op.SimdNumeric SimdNumericOperator.I8x16GtS) result self.new };

    /// Visits `i8x16.gt_u`.
    fn visit_i8x16_gt_u(&mut self) -> Self::Output
        ensures { Self.visits self.old (Op.SimdNumeric SimdNumericOperator.I8x16GtU) result self.new };

    /// Visits `i8x16.le_s`.
    fn visit_i8x16_le_s(&mut self) -> Self::Output
        ensures { Self.visits self.old (Op.SimdNumeric SimdNumericOperator.I8x16LeS) result self.new };

    /// Visits `i8x16.le_u`.
    fn visit_i8x16_le_u(&mut self) -> Self::Output
        ensures { Self.visits self.old (Op.SimdNumeric SimdNumericOperator.I8x16LeU) result self.new };

    /// Visits `i8x16.ge_s`.
    fn visit_i8x16_ge_s(&mut self) -> Self::Output
        ensures { Self.visits self.old (Op.SimdNumeric SimdNumericOperator.I8x16GeS) result self.new };

    /// Visits `i8x16.ge_u`.
    fn visit_i8x16_ge_u(&mut self) -> Self::Output
        ensures { Self.visits self.old (Op.SimdNumeric SimdNumericOperator.I8x16GeU) result self.new };

    /// Visits `i16x8.eq`.
    fn visit_i16x8_eq(&mut self) -> Self::Output
        ensures { Self.visits self.old (Op.SimdNumeric SimdNumericOperator.I16x8Eq) result self.new };

    /// Visits `i16x8.ne`.
    fn visit_i16x8_ne(&mut self) -> Self::Output
        ensures { Self.visits self.old (Op.SimdNumeric SimdNumericOperator.I16x8Ne) result self.new };

    /// Visits `i16x8.lt_s`.
    fn visit_i16x8_lt_s(&mut self) -> Self::Output
        ensures { Self.visits self.old (Op.SimdNumeric SimdNumericOperator.I16x8LtS) result self.new };

    /// Visits `i16x8.lt_u`.
    fn visit_i16x8_lt_u(&mut self) -> Self::Output
        ensures { Self.visits self.old (Op.SimdNumeric SimdNumericOperator.I16x8LtU) result self.new };

    /// Visits `i16x8.gt_s`.
    fn visit_i16x8_gt_s(&mut self) -> Self::Output
        ensures { Self.visits self.old (Op.SimdNumeric SimdNumericOperator.I16x8GtS) result self.new };

    /// Visits `i16x8.gt_u`.
    fn visit_i16x8_gt_u(&mut self) -> Self::Output
        ensures { Self.visits self.old (Op.SimdNumeric SimdNumericOperator.I16x8GtU) result self.new };

    /// Visits `i16x8.le_s`.
    fn visit_i16x8_le_s(&mut self) -> Self::Output
        ensures { Self.visits self.old (Op.SimdNumeric SimdNumericOperator.I16x8LeS) result self.new };

    /// Visits `i16x8.le_u`.
    fn visit_i16x8_le_u(&mut self) -> Self::Output
        ensures { Self.visits self.old (Op.SimdNumeric SimdNumericOperator.I16x8LeU) result self.new };

    /// Visits `i16x8.ge_s`.
    fn visit_i16x8_ge_s(&mut self) -> Self::Output
        ensures { Self.visits self.old (Op.SimdNumeric SimdNumericOperator.I16x8GeS) result self.new };

    /// Visits `i16x8.ge_u`.
    fn visit_i16x8_ge_u(&mut self) -> Self::Output
        ensures { Self.visits self.old (Op.SimdNumeric SimdNumericOperator.I16x8GeU) result self.new };

    /// Visits `i8x16.abs`.
    fn visit_i8x16_abs(&mut self) -> Self::Output
        ensures { Self.visits self.old (Op.SimdNumeric SimdNumericOperator.I8x16Abs) result self.new };

    /// Visits `i8x16.neg`.
    fn visit_i8x16_neg(&mut self) -> Self::Output
        ensures { Self.visits self.old (Op.SimdNumeric SimdNumericOperator.I8x16Neg) result self.new };

    /// Visits `i8x16.popcnt`.
    fn visit_i8x16_popcnt(&mut self) -> Self::Output
        ensures { Self.visits self.old (Op.SimdNumeric SimdNumericOperator.I8x16Popcnt) result self.new };

    /// Visits `i8x16.all_true`.
    fn visit_i8x16_all_true(&mut self) -> Self::Output
        ensures { Self.visits self.old (Op.SimdNumeric SimdNumericOperator.I8x16AllTrue) result self.new };

    /// Visits `i8x16.bitmask`.
    fn visit_i8x16_bitmask(&mut self) -> Self::Output
        ensures { Self.visits self.old (Op.SimdNumeric SimdNumericOperator.I8x16Bitmask) result self.new };

    /// Visits `i8x16.narrow_i16x8_s`.
    fn visit_i8x16_narrow_i16x8_s(&mut self) -> Self::Output
        ensures { Self.visits self.old (Op.SimdNumeric SimdNumericOperator.I8x16NarrowI16x8S) result self.new };

    /// Visits `i8x16.narrow_i16x8_u`.
    fn visit_i8x16_narrow_i16x8_u(&mut self) -> Self::Output
        ensures { Self.visits self.old (Op.SimdNumeric SimdNumericOperator.I8x16NarrowI16x8U) result self.new };

    /// Visits `i8x16.shl`.
    fn visit_i8x16_shl(&mut self) -> Self::Output
        ensures { Self.visits self.old (Op.SimdNumeric SimdNumericOperator.I8x16Shl) result self.new };

    /// Visits `i8x16.shr_s`.
    fn visit_i8x16_shr_s(&mut self) -> Self::Output
        ensures { Self.visits self.old (Op.SimdNumeric SimdNumericOperator.I8x16ShrS) result self.new };

    /// Visits `i8x16.shr_u`.
    fn visit_i8x16_shr_u(&mut self) -> Self::Output
        ensures { Self.visits self.old (Op.SimdNumeric SimdNumericOperator.I8x16ShrU) result self.new };

    /// Visits `i8x16.add`.
    fn visit_i8x16_add(&mut self) -> Self::Output
        ensures { Self.visits self.old (Op.SimdNumeric SimdNumericOperator.I8x16Add) result self.new };

    /// Visits `i8x16.add_sat_s`.
    fn visit_i8x16_add_sat_s(&mut self) -> Self::Output
        ensures { Self.visits self.old (Op.SimdNumeric SimdNumericOperator.I8x16AddSatS) result self.new };

    /// Visits `i8x16.add_sat_u`.
    fn visit_i8x16_add_sat_u(&mut self) -> Self::Output
        ensures { Self.visits self.old (Op.SimdNumeric SimdNumericOperator.I8x16AddSatU) result self.new };

    /// Visits `i8x16.sub`.
    fn visit_i8x16_sub(&mut self) -> Self::Output
        ensures { Self.visits self.old (Op.SimdNumeric SimdNumericOperator.I8x16Sub) result self.new };

    /// Visits `i8x16.sub_sat_s`.
    fn visit_i8x16_sub_sat_s(&mut self) -> Self::Output
        ensures { Self.visits self.old (Op.SimdNumeric SimdNumericOperator.I8x16SubSatS) result self.new };

    /// Visits `i8x16.sub_sat_u`.
    fn visit_i8x16_sub_sat_u(&mut self) -> Self::Output
        ensures { Self.visits self.old (Op.SimdNumeric SimdNumericOperator.I8x16SubSatU) result self.new };

    /// Visits `i8x16.min_s`.
    fn visit_i8x16_min_s(&mut self) -> Self::Output
        ensures { Self.visits self.old (Op.SimdNumeric SimdNumericOperator.I8x16MinS) result self.new };

    /// Visits `i8x16.min_u`.
    fn visit_i8x16_min_u(&mut self) -> Self::Output
        ensures { Self.visits self.old (Op.SimdNumeric SimdNumericOperator.I8x16MinU) result self.new };

    /// Visits `i8x16.max_s`.
    fn visit_i8x16_max_s(&mut self) -> Self::Output
        ensures { Self.visits self.old (Op.SimdNumeric SimdNumericOperator.I8x16MaxS) result self.new };

    /// Visits `i8x16.max_u`.
    fn visit_i8x16_max_u(&mut self) -> Self::Output
        ensures { Self.visits self.old (Op.SimdNumeric SimdNumericOperator.I8x16MaxU) result self.new };

    /// Visits `i8x16.avgr_u`.
    fn visit_i8x16_avgr_u(&mut self) -> Self::Output
        ensures { Self.visits self.old (Op.SimdNumeric SimdNumericOperator.I8x16AvgrU) result self.new };

    /// Visits `i16x8.extadd_pairwise_i8x16_s`.
    fn visit_i16x8_extadd_pairwise_i8x16_s(&mut self) -> Self::Output
        ensures { Self.visits self.old (Op.SimdNumeric SimdNumericOperator.I16x8ExtAddPairwiseI8x16S) result self.new };

    /// Visits `i16x8.extadd_pairwise_i8x16_u`.
    fn visit_i16x8_extadd_pairwise_i8x16_u(&mut self) -> Self::Output
        ensures { Self.visits self.old (Op.SimdNumeric SimdNumericOperator.I16x8ExtAddPairwiseI8x16U) result self.new };

    /// Visits `i16x8.abs`.
    fn visit_i16x8_abs(&mut self) -> Self::Output
        ensures { Self.visits self.old (Op.SimdNumeric SimdNumericOperator.I16x8Abs) result self.new };

    /// Visits `i16x8.neg`.
    fn visit_i16x8_neg(&mut self) -> Self::Output
        ensures { Self.visits self.old (Op.SimdNumeric SimdNumericOperator.I16x8Neg) result self.new };

    /// Visits `i16x8.q15mulr_sat_s`.
    fn visit_i16x8_q15mulr_sat_s(&mut self) -> Self::Output
        ensures { Self.visits self.old (Op.SimdNumeric SimdNumericOperator.I16x8Q15MulrSatS) result self.new };

    /// Visits `i16x8.all_true`.
    fn visit_i16x8_all_true(&mut self) -> Self::Output
        ensures { Self.visits self.old (Op.SimdNumeric SimdNumericOperator.I16x8AllTrue) result self.new };

    /// Visits `i16x8.bitmask`.
    fn visit_i16x8_bitmask(&mut self) -> Self::Output
        ensures { Self.visits self.old (Op.SimdNumeric SimdNumericOperator.I16x8Bitmask) result self.new };

    /// Visits `i16x8.narrow_i32x4_s`.
    fn visit_i16x8_narrow_i32x4_s(&mut self) -> Self::Output
        ensures { Self.visits self.old (Op.SimdNumeric SimdNumericOperator.I16x8NarrowI32x4S) result self.new };

    /// Visits `i16x8.narrow_i32x4_u`.
    fn visit_i16x8_narrow_i32x4_u(&mut self) -> Self::Output
        ensures { Self.visits self.old (Op.SimdNumeric SimdNumericOperator.I16x8NarrowI32x4U) result self.new };

    /// Visits `i16x8.extend_low_i8x16_s`.
    fn visit_i16x8_extend_low_i8x16_s(&mut self) -> Self::Output
        ensures { Self.visits self.old (Op.SimdNumeric SimdNumericOperator.I16x8ExtendLowI8x16S) result self.new };

    /// Visits `i16x8.extend_high_i8x16_s`.
    fn visit_i16x8_extend_high_i8x16_s(&mut self) -> Self::Output
        ensures { Self.visits self.old (Op.SimdNumeric SimdNumericOperator.I16x8ExtendHighI8x16S) result self.new };

    /// Visits `i16x8.extend_low_i8x16_u`.
    fn visit_i16x8_extend_low_i8x16_u(&mut self) -> Self::Output
        ensures { Self.visits self.old (Op.SimdNumeric SimdNumericOperator.I16x8ExtendLowI8x16U) result self.new };

    /// Visits `i16x8.extend_high_i8x16_u`.
    fn visit_i16x8_extend_high_i8x16_u(&mut self) -> Self::Output
        ensures { Self.visits self.old (Op.SimdNumeric SimdNumericOperator.I16x8ExtendHighI8x16U) result self.new };

    /// Visits `i16x8.shl`.
    fn visit_i16x8_shl(&mut self) -> Self::Output
        ensures { Self.visits self.old (Op.SimdNumeric SimdNumericOperator.I16x8Shl) result self.new };

    /// Visits `i16x8.shr_s`.
    fn visit_i16x8_shr_s(&mut self) -> Self::Output
        ensures { Self.visits self.old (Op.SimdNumeric SimdNumericOperator.I16x8ShrS) result self.new };

    /// Visits `i16x8.shr_u`.
    fn visit_i16x8_shr_u(&mut self) -> Self::Output
        ensures { Self.visits self.old (Op.SimdNumeric SimdNumericOperator.I16x8ShrU) result self.new };

    /// Visits `i16x8.add`.
    fn visit_i16x8_add(&mut self) -> Self::Output
        ensures { Self.visits self.old (Op.SimdNumeric SimdNumericOperator.I16x8Add) result self.new };

    /// Visits `i16x8.add_sat_s`.
    fn visit_i16x8_add_sat_s(&mut self) -> Self::Output
        ensures { Self.visits self.old (Op.SimdNumeric SimdNumericOperator.I16x8AddSatS) result self.new };

    /// Visits `i16x8.add_sat_u`.
    fn visit_i16x8_add_sat_u(&mut self) -> Self::Output
        ensures { Self.visits self.old (Op.SimdNumeric SimdNumericOperator.I16x8AddSatU) result self.new };

    /// Visits `i16x8.sub`.
    fn visit_i16x8_sub(&mut self) -> Self::Output
        ensures { Self.visits self.old (Op.SimdNumeric SimdNumericOperator.I16x8Sub) result self.new };

    /// Visits `i16x8.sub_sat_s`.
    fn visit_i16x8_sub_sat_s(&mut self) -> Self::Output
        ensures { Self.visits self.old (Op.SimdNumeric SimdNumericOperator.I16x8SubSatS) result self.new };

    /// Visits `i16x8.sub_sat_u`.
    fn visit_i16x8_sub_sat_u(&mut self) -> Self::Output
        ensures { Self.visits self.old (Op.SimdNumeric SimdNumericOperator.I16x8SubSatU) result self.new };

    /// Visits `i16x8.mul`.
    fn visit_i16x8_mul(&mut self) -> Self::Output
        ensures { Self.visits self.old (Op.SimdNumeric SimdNumericOperator.I16x8Mul) result self.new };

    /// Visits `i16x8.min_s`.
    fn visit_i16x8_min_s(&mut self) -> Self::Output
        ensures { Self.visits self.old (Op.SimdNumeric SimdNumericOperator.I16x8MinS) result self.new };

    /// Visits `i16x8.min_u`.
    fn visit_i16x8_min_u(&mut self) -> Self::Output
        ensures { Self.visits self.old (Op.SimdNumeric SimdNumericOperator.I16x8MinU) result self.new };

    /// Visits `i16x8.max_s`.
    fn visit_i16x8_max_s(&mut self) -> Self::Output
        ensures { Self.visits self.old (Op.SimdNumeric SimdNumericOperator.I16x8MaxS) result self.new };

    /// Visits `i16x8.max_u`.
    fn visit_i16x8_max_u(&mut self) -> Self::Output
        ensures { Self.visits self.old (Op.SimdNumeric SimdNumericOperator.I16x8MaxU) result self.new };

    /// Visits `i16x8.avgr_u`.
    fn visit_i16x8_avgr_u(&mut self) -> Self::Output
        ensures { Self.visits self.old (Op.SimdNumeric SimdNumericOperator.I16x8AvgrU) result self.new };

    /// Visits `i16x8.extmul_low_i8x16_s`.
    fn visit_i16x8_extmul_low_i8x16_s(&mut self) -> Self::Output
        ensures { Self.visits self.old (Op.SimdNumeric SimdNumericOperator.I16x8ExtMulLowI8x16S) result self.new };

    /// Visits `i16x8.extmul_high_i8x16_s`.
    fn visit_i16x8_extmul_high_i8x16_s(&mut self) -> Self::Output
        ensures { Self.visits self.old (Op.SimdNumeric SimdNumericOperator.I16x8ExtMulHighI8x16S) result self.new };

    /// Visits `i16x8.extmul_low_i8x16_u`.
    fn visit_i16x8_extmul_low_i8x16_u(&mut self) -> Self::Output
        ensures { Self.visits self.old (Op.SimdNumeric SimdNumericOperator.I16x8ExtMulLowI8x16U) result self.new };

    /// Visits `i16x8.extmul_high_i8x16_u`.
    fn visit_i16x8_extmul_high_i8x16_u(&mut self) -> Self::Output
        ensures { Self.visits self.old (Op.SimdNumeric SimdNumericOperator.I16x8ExtMulHighI8x16U) result self.new };

    /// Visits `i8x16.relaxed_swizzle`.
    fn visit_i8x16_relaxed_swizzle(&mut self) -> Self::Output
        ensures { Self.visits self.old (Op.SimdNumeric SimdNumericOperator.I8x16RelaxedSwizzle) result self.new };

    /// Visits `i8x16.relaxed_laneselect`.
    fn visit_i8x16_relaxed_laneselect(&mut self) -> Self::Output
        ensures { Self.visits self.old (Op.SimdNumeric SimdNumericOperator.I8x16RelaxedLaneselect) result self.new };

    /// Visits `i16x8.relaxed_laneselect`.
    fn visit_i16x8_relaxed_laneselect(&mut self) -> Self::Output
        ensures { Self.visits self.old (Op.SimdNumeric SimdNumericOperator.I16x8RelaxedLaneselect) result self.new };

    /// Visits `i16x8.relaxed_q15mulr_s`.
    fn visit_i16x8_relaxed_q15mulr_s(&mut self) -> Self::Output
        ensures { Self.visits self.old (Op.SimdNumeric SimdNumericOperator.I16x8RelaxedQ15mulrS) result self.new };

    /// Visits `i16x8.relaxed_dot_i8x16_i7x16_s`.
    fn visit_i16x8_relaxed_dot_i8x16_i7x16_s(&mut self) -> Self::Output
        ensures { Self.visits self.old (Op.SimdNumeric SimdNumericOperator.I16x8RelaxedDotI8x16I7x16S)
            result self.new };
}
