//! One visit for each operator.

ghost use Rattle.wasm_operators_enums.specs.Op.{Op};
ghost use Rattle.wasm_operators_enums.specs.declared.vector.SimdOperator.{SimdOperator};
ghost use Rattle.wasm_operators_enums.specs.declared.vector_numeric.SimdNumericOperator.{SimdNumericOperator};

use wasm_operators_visit::{MemArg, V128, Visitor};

/// A visit for each operator on vectors that carries something, and for those on all 128 bits (WebAssembly 3.0,
/// structure, vector instructions).
pub trait VisitSimd<'a>: Visitor<'a> {
    /// Visits `v128.load`.
    fn visit_v128_load(&mut self, memarg: MemArg) -> Self::Output
        ensures { Self.visits self.old (Op.Simd (SimdOperator.V128Load memarg)) result self.new };

    /// Visits `v128.load8x8_s`.
    fn visit_v128_load8x8_s(&mut self, memarg: MemArg) -> Self::Output
        ensures { Self.visits self.old (Op.Simd (SimdOperator.V128Load8x8S memarg)) result self.new };

    /// Visits `v128.load8x8_u`.
    fn visit_v128_load8x8_u(&mut self, memarg: MemArg) -> Self::Output
        ensures { Self.visits self.old (Op.Simd (SimdOperator.V128Load8x8U memarg)) result self.new };

    /// Visits `v128.load16x4_s`.
    fn visit_v128_load16x4_s(&mut self, memarg: MemArg) -> Self::Output
        ensures { Self.visits self.old (Op.Simd (SimdOperator.V128Load16x4S memarg)) result self.new };

    /// Visits `v128.load16x4_u`.
    fn visit_v128_load16x4_u(&mut self, memarg: MemArg) -> Self::Output
        ensures { Self.visits self.old (Op.Simd (SimdOperator.V128Load16x4U memarg)) result self.new };

    /// Visits `v128.load32x2_s`.
    fn visit_v128_load32x2_s(&mut self, memarg: MemArg) -> Self::Output
        ensures { Self.visits self.old (Op.Simd (SimdOperator.V128Load32x2S memarg)) result self.new };

    /// Visits `v128.load32x2_u`.
    fn visit_v128_load32x2_u(&mut self, memarg: MemArg) -> Self::Output
        ensures { Self.visits self.old (Op.Simd (SimdOperator.V128Load32x2U memarg)) result self.new };

    /// Visits `v128.load8_splat`.
    fn visit_v128_load8_splat(&mut self, memarg: MemArg) -> Self::Output
        ensures { Self.visits self.old (Op.Simd (SimdOperator.V128Load8Splat memarg)) result self.new };

    /// Visits `v128.load16_splat`.
    fn visit_v128_load16_splat(&mut self, memarg: MemArg) -> Self::Output
        ensures { Self.visits self.old (Op.Simd (SimdOperator.V128Load16Splat memarg)) result self.new };

    /// Visits `v128.load32_splat`.
    fn visit_v128_load32_splat(&mut self, memarg: MemArg) -> Self::Output
        ensures { Self.visits self.old (Op.Simd (SimdOperator.V128Load32Splat memarg)) result self.new };

    /// Visits `v128.load64_splat`.
    fn visit_v128_load64_splat(&mut self, memarg: MemArg) -> Self::Output
        ensures { Self.visits self.old (Op.Simd (SimdOperator.V128Load64Splat memarg)) result self.new };

    /// Visits `v128.store`.
    fn visit_v128_store(&mut self, memarg: MemArg) -> Self::Output
        ensures { Self.visits self.old (Op.Simd (SimdOperator.V128Store memarg)) result self.new };

    /// Visits `v128.const`.
    fn visit_v128_const(&mut self, value: V128) -> Self::Output
        ensures { Self.visits self.old (Op.Simd (SimdOperator.V128Const value)) result self.new };

    /// Visits `i8x16.shuffle`.
    fn visit_i8x16_shuffle(&mut self, lanes: [u8; 16]) -> Self::Output
        ensures { Self.visits self.old (Op.Simd (SimdOperator.I8x16Shuffle lanes)) result self.new };

    /// Visits `i8x16.extract_lane_s`.
    fn visit_i8x16_extract_lane_s(&mut self, lane: u8) -> Self::Output
        ensures { Self.visits self.old (Op.Simd (SimdOperator.I8x16ExtractLaneS lane)) result self.new };

    /// Visits `i8x16.extract_lane_u`.
    fn visit_i8x16_extract_lane_u(&mut self, lane: u8) -> Self::Output
        ensures { Self.visits self.old (Op.Simd (SimdOperator.I8x16ExtractLaneU lane)) result self.new };

    /// Visits `i8x16.replace_lane`.
    fn visit_i8x16_replace_lane(&mut self, lane: u8) -> Self::Output
        ensures { Self.visits self.old (Op.Simd (SimdOperator.I8x16ReplaceLane lane)) result self.new };

    /// Visits `i16x8.extract_lane_s`.
    fn visit_i16x8_extract_lane_s(&mut self, lane: u8) -> Self::Output
        ensures { Self.visits self.old (Op.Simd (SimdOperator.I16x8ExtractLaneS lane)) result self.new };

    /// Visits `i16x8.extract_lane_u`.
    fn visit_i16x8_extract_lane_u(&mut self, lane: u8) -> Self::Output
        ensures { Self.visits self.old (Op.Simd (SimdOperator.I16x8ExtractLaneU lane)) result self.new };

    /// Visits `i16x8.replace_lane`.
    fn visit_i16x8_replace_lane(&mut self, lane: u8) -> Self::Output
        ensures { Self.visits self.old (Op.Simd (SimdOperator.I16x8ReplaceLane lane)) result self.new };

    /// Visits `i32x4.extract_lane`.
    fn visit_i32x4_extract_lane(&mut self, lane: u8) -> Self::Output
        ensures { Self.visits self.old (Op.Simd (SimdOperator.I32x4ExtractLane lane)) result self.new };

    /// Visits `i32x4.replace_lane`.
    fn visit_i32x4_replace_lane(&mut self, lane: u8) -> Self::Output
        ensures { Self.visits self.old (Op.Simd (SimdOperator.I32x4ReplaceLane lane)) result self.new };

    /// Visits `i64x2.extract_lane`.
    fn visit_i64x2_extract_lane(&mut self, lane: u8) -> Self::Output
        ensures { Self.visits self.old (Op.Simd (SimdOperator.I64x2ExtractLane lane)) result self.new };

    /// Visits `i64x2.replace_lane`.
    fn visit_i64x2_replace_lane(&mut self, lane: u8) -> Self::Output
        ensures { Self.visits self.old (Op.Simd (SimdOperator.I64x2ReplaceLane lane)) result self.new };

    /// Visits `f32x4.extract_lane`.
    fn visit_f32x4_extract_lane(&mut self, lane: u8) -> Self::Output
        ensures { Self.visits self.old (Op.Simd (SimdOperator.F32x4ExtractLane lane)) result self.new };

    /// Visits `f32x4.replace_lane`.
    fn visit_f32x4_replace_lane(&mut self, lane: u8) -> Self::Output
        ensures { Self.visits self.old (Op.Simd (SimdOperator.F32x4ReplaceLane lane)) result self.new };

    /// Visits `f64x2.extract_lane`.
    fn visit_f64x2_extract_lane(&mut self, lane: u8) -> Self::Output
        ensures { Self.visits self.old (Op.Simd (SimdOperator.F64x2ExtractLane lane)) result self.new };

    /// Visits `f64x2.replace_lane`.
    fn visit_f64x2_replace_lane(&mut self, lane: u8) -> Self::Output
        ensures { Self.visits self.old (Op.Simd (SimdOperator.F64x2ReplaceLane lane)) result self.new };

    /// Visits `v128.load8_lane`.
    fn visit_v128_load8_lane(&mut self, memarg: MemArg, lane: u8) -> Self::Output
        ensures { Self.visits self.old (Op.Simd (SimdOperator.V128Load8Lane memarg lane)) result self.new };

    /// Visits `v128.load16_lane`.
    fn visit_v128_load16_lane(&mut self, memarg: MemArg, lane: u8) -> Self::Output
        ensures { Self.visits self.old (Op.Simd (SimdOperator.V128Load16Lane memarg lane)) result self.new };

    /// Visits `v128.load32_lane`.
    fn visit_v128_load32_lane(&mut self, memarg: MemArg, lane: u8) -> Self::Output
        ensures { Self.visits self.old (Op.Simd (SimdOperator.V128Load32Lane memarg lane)) result self.new };

    /// Visits `v128.load64_lane`.
    fn visit_v128_load64_lane(&mut self, memarg: MemArg, lane: u8) -> Self::Output
        ensures { Self.visits self.old (Op.Simd (SimdOperator.V128Load64Lane memarg lane)) result self.new };

    /// Visits `v128.store8_lane`.
    fn visit_v128_store8_lane(&mut self, memarg: MemArg, lane: u8) -> Self::Output
        ensures { Self.visits self.old (Op.Simd (SimdOperator.V128Store8Lane memarg lane)) result self.new };

    /// Visits `v128.store16_lane`.
    fn visit_v128_store16_lane(&mut self, memarg: MemArg, lane: u8) -> Self::Output
        ensures { Self.visits self.old (Op.Simd (SimdOperator.V128Store16Lane memarg lane)) result self.new };

    /// Visits `v128.store32_lane`.
    fn visit_v128_store32_lane(&mut self, memarg: MemArg, lane: u8) -> Self::Output
        ensures { Self.visits self.old (Op.Simd (SimdOperator.V128Store32Lane memarg lane)) result self.new };

    /// Visits `v128.store64_lane`.
    fn visit_v128_store64_lane(&mut self, memarg: MemArg, lane: u8) -> Self::Output
        ensures { Self.visits self.old (Op.Simd (SimdOperator.V128Store64Lane memarg lane)) result self.new };

    /// Visits `v128.load32_zero`.
    fn visit_v128_load32_zero(&mut self, memarg: MemArg) -> Self::Output
        ensures { Self.visits self.old (Op.Simd (SimdOperator.V128Load32Zero memarg)) result self.new };

    /// Visits `v128.load64_zero`.
    fn visit_v128_load64_zero(&mut self, memarg: MemArg) -> Self::Output
        ensures { Self.visits self.old (Op.Simd (SimdOperator.V128Load64Zero memarg)) result self.new };

    /// Visits `v128.not`.
    fn visit_v128_not(&mut self) -> Self::Output
        ensures { Self.visits self.old (Op.SimdNumeric SimdNumericOperator.V128Not) result self.new };

    /// Visits `v128.and`.
    fn visit_v128_and(&mut self) -> Self::Output
        ensures { Self.visits self.old (Op.SimdNumeric SimdNumericOperator.V128And) result self.new };

    /// Visits `v128.andnot`.
    fn visit_v128_andnot(&mut self) -> Self::Output
        ensures { Self.visits self.old (Op.SimdNumeric SimdNumericOperator.V128AndNot) result self.new };

    /// Visits `v128.or`.
    fn visit_v128_or(&mut self) -> Self::Output
        ensures { Self.visits self.old (Op.SimdNumeric SimdNumericOperator.V128Or) result self.new };

    /// Visits `v128.xor`.
    fn visit_v128_xor(&mut self) -> Self::Output
        ensures { Self.visits self.old (Op.SimdNumeric SimdNumericOperator.V128Xor) result self.new };

    /// Visits `v128.bitselect`.
    fn visit_v128_bitselect(&mut self) -> Self::Output
        ensures { Self.visits self.old (Op.SimdNumeric SimdNumericOperator.V128Bitselect) result self.new };

    /// Visits `v128.any_true`.
    fn visit_v128_any_true(&mut self) -> Self::Output
        ensures { Self.visits self.old (Op.SimdNumeric SimdNumericOperator.V128AnyTrue) result self.new };
}
