//! One visit for each operator.

ghost use Rattle.wasm_operators_enums.specs.Op.{Op};
ghost use Rattle.wasm_operators_enums.specs.declared.vector_numeric.SimdNumericOperator.{SimdNumericOperator};

use wasm_operators_visit::Visitor;

/// A visit for each operator on vectors of floats that carries nothing (WebAssembly 3.0, structure, vector
/// instructions).
pub trait VisitSimdFloats<'a>: Visitor<'a> {
    /// Visits `f32x4.splat`.
    fn visit_f32x4_splat(&mut self) -> Self::Output
        ensures { Self.visits self.old (Op.SimdNumeric SimdNumericOperator.F32x4Splat) result self.new };

    /// Visits `f64x2.splat`.
    fn visit_f64x2_splat(&mut self) -> Self::Output
        ensures { Self.visits self.old (Op.SimdNumeric SimdNumericOperator.F64x2Splat) result self.new };

    /// Visits `f32x4.eq`.
    fn visit_f32x4_eq(&mut self) -> Self::Output
        ensures { Self.visits self.old (Op.SimdNumeric SimdNumericOperator.F32x4Eq) result self.new };

    /// Visits `f32x4.ne`.
    fn visit_f32x4_ne(&mut self) -> Self::Output
        ensures { Self.visits self.old (Op.SimdNumeric SimdNumericOperator.F32x4Ne) result self.new };

    /// Visits `f32x4.lt`.
    fn visit_f32x4_lt(&mut self) -> Self::Output
        ensures { Self.visits self.old (Op.SimdNumeric SimdNumericOperator.F32x4Lt) result self.new };

    /// Visits `f32x4.gt`.
    fn visit_f32x4_gt(&mut self) -> Self::Output
        ensures { Self.visits self.old (Op.SimdNumeric SimdNumericOperator.F32x4Gt) result self.new };

    /// Visits `f32x4.le`.
    fn visit_f32x4_le(&mut self) -> Self::Output
        ensures { Self.visits self.old (Op.SimdNumeric SimdNumericOperator.F32x4Le) result self.new };

    /// Visits `f32x4.ge`.
    fn visit_f32x4_ge(&mut self) -> Self::Output
        ensures { Self.visits self.old (Op.SimdNumeric SimdNumericOperator.F32x4Ge) result self.new };

    /// Visits `f64x2.eq`.
    fn visit_f64x2_eq(&mut self) -> Self::Output
        ensures { Self.visits self.old (Op.SimdNumeric SimdNumericOperator.F64x2Eq) result self.new };

    /// Visits `f64x2.ne`.
    fn visit_f64x2_ne(&mut self) -> Self::Output
        ensures { Self.visits self.old (Op.SimdNumeric SimdNumericOperator.F64x2Ne) result self.new };

    /// Visits `f64x2.lt`.
    fn visit_f64x2_lt(&mut self) -> Self::Output
        ensures { Self.visits self.old (Op.SimdNumeric SimdNumericOperator.F64x2Lt) result self.new };

    /// Visits `f64x2.gt`.
    fn visit_f64x2_gt(&mut self) -> Self::Output
        ensures { Self.visits self.old (Op.SimdNumeric SimdNumericOperator.F64x2Gt) result self.new };

    /// Visits `f64x2.le`.
    fn visit_f64x2_le(&mut self) -> Self::Output
        ensures { Self.visits self.old (Op.SimdNumeric SimdNumericOperator.F64x2Le) result self.new };

    /// Visits `f64x2.ge`.
    fn visit_f64x2_ge(&mut self) -> Self::Output
        ensures { Self.visits self.old (Op.SimdNumeric SimdNumericOperator.F64x2Ge) result self.new };

    /// Visits `f32x4.demote_f64x2_zero`.
    fn visit_f32x4_demote_f64x2_zero(&mut self) -> Self::Output
        ensures { Self.visits self.old (Op.SimdNumeric SimdNumericOperator.F32x4DemoteF64x2Zero) result self.new };

    /// Visits `f64x2.promote_low_f32x4`.
    fn visit_f64x2_promote_low_f32x4(&mut self) -> Self::Output
        ensures { Self.visits self.old (Op.SimdNumeric SimdNumericOperator.F64x2PromoteLowF32x4) result self.new };

    /// Visits `f32x4.ceil`.
    fn visit_f32x4_ceil(&mut self) -> Self::Output
        ensures { Self.visits self.old (Op.SimdNumeric SimdNumericOperator.F32x4Ceil) result self.new };

    /// Visits `f32x4.floor`.
    fn visit_f32x4_floor(&mut self) -> Self::Output
        ensures { Self.visits self.old (Op.SimdNumeric SimdNumericOperator.F32x4Floor) result self.new };

    /// Visits `f32x4.trunc`.
    fn visit_f32x4_trunc(&mut self) -> Self::Output
        ensures { Self.visits self.old (Op.SimdNumeric SimdNumericOperator.F32x4Trunc) result self.new };

    /// Visits `f32x4.nearest`.
    fn visit_f32x4_nearest(&mut self) -> Self::Output
        ensures { Self.visits self.old (Op.SimdNumeric SimdNumericOperator.F32x4Nearest) result self.new };

    /// Visits `f64x2.ceil`.
    fn visit_f64x2_ceil(&mut self) -> Self::Output
        ensures { Self.visits self.old (Op.SimdNumeric SimdNumericOperator.F64x2Ceil) result self.new };

    /// Visits `f64x2.floor`.
    fn visit_f64x2_floor(&mut self) -> Self::Output
        ensures { Self.visits self.old (Op.SimdNumeric SimdNumericOperator.F64x2Floor) result self.new };

    /// Visits `f64x2.trunc`.
    fn visit_f64x2_trunc(&mut self) -> Self::Output
        ensures { Self.visits self.old (Op.SimdNumeric SimdNumericOperator.F64x2Trunc) result self.new };

    /// Visits `f64x2.nearest`.
    fn visit_f64x2_nearest(&mut self) -> Self::Output
        ensures { Self.visits self.old (Op.SimdNumeric SimdNumericOperator.F64x2Nearest) result self.new };

    /// Visits `f32x4.abs`.
    fn visit_f32x4_abs(&mut self) -> Self::Output
        ensures { Self.visits self.old (Op.SimdNumeric SimdNumericOperator.F32x4Abs) result self.new };

    /// Visits `f32x4.neg`.
    fn visit_f32x4_neg(&mut self) -> Self::Output
        ensures { Self.visits self.old (Op.SimdNumeric SimdNumericOperator.F32x4Neg) result self.new };

    /// Visits `f32x4.sqrt`.
    fn visit_f32x4_sqrt(&mut self) -> Self::Output
        ensures { Self.visits self.old (Op.SimdNumeric SimdNumericOperator.F32x4Sqrt) result self.new };

    /// Visits `f32x4.add`.
    fn visit_f32x4_add(&mut self) -> Self::Output
        ensures { Self.visits self.old (Op.SimdNumeric SimdNumericOperator.F32x4Add) result self.new };

    /// Visits `f32x4.sub`.
    fn visit_f32x4_sub(&mut self) -> Self::Output
        ensures { Self.visits self.old (Op.SimdNumeric SimdNumericOperator.F32x4Sub) result self.new };

    /// Visits `f32x4.mul`.
    fn visit_f32x4_mul(&mut self) -> Self::Output
        ensures { Self.visits self.old (Op.SimdNumeric SimdNumericOperator.F32x4Mul) result self.new };

    /// Visits `f32x4.div`.
    fn visit_f32x4_div(&mut self) -> Self::Output
        ensures { Self.visits self.old (Op.SimdNumeric SimdNumericOperator.F32x4Div) result self.new };

    /// Visits `f32x4.min`.
    fn visit_f32x4_min(&mut self) -> Self::Output
        ensures { Self.visits self.old (Op.SimdNumeric SimdNumericOperator.F32x4Min) result self.new };

    /// Visits `f32x4.max`.
    fn visit_f32x4_max(&mut self) -> Self::Output
        ensures { Self.visits self.old (Op.SimdNumeric SimdNumericOperator.F32x4Max) result self.new };

    /// Visits `f32x4.pmin`.
    fn visit_f32x4_pmin(&mut self) -> Self::Output
        ensures { Self.visits self.old (Op.SimdNumeric SimdNumericOperator.F32x4PMin) result self.new };

    /// Visits `f32x4.pmax`.
    fn visit_f32x4_pmax(&mut self) -> Self::Output
        ensures { Self.visits self.old (Op.SimdNumeric SimdNumericOperator.F32x4PMax) result self.new };

    /// Visits `f64x2.abs`.
    fn visit_f64x2_abs(&mut self) -> Self::Output
        ensures { Self.visits self.old (Op.SimdNumeric SimdNumericOperator.F64x2Abs) result self.new };

    /// Visits `f64x2.neg`.
    fn visit_f64x2_neg(&mut self) -> Self::Output
        ensures { Self.visits self.old (Op.SimdNumeric SimdNumericOperator.F64x2Neg) result self.new };

    /// Visits `f64x2.sqrt`.
    fn visit_f64x2_sqrt(&mut self) -> Self::Output
        ensures { Self.visits self.old (Op.SimdNumeric SimdNumericOperator.F64x2Sqrt) result self.new };

    /// Visits `f64x2.add`.
    fn visit_f64x2_add(&mut self) -> Self::Output
        ensures { Self.visits self.old (Op.SimdNumeric SimdNumericOperator.F64x2Add) result self.new };

    /// Visits `f64x2.sub`.
    fn visit_f64x2_sub(&mut self) -> Self::Output
        ensures { Self.visits self.old (Op.SimdNumeric SimdNumericOperator.F64x2Sub) result self.new };

    /// Visits `f64x2.mul`.
    fn visit_f64x2_mul(&mut self) -> Self::Output
        ensures { Self.visits self.old (Op.SimdNumeric SimdNumericOperator.F64x2Mul) result self.new };

    /// Visits `f64x2.div`.
    fn visit_f64x2_div(&mut self) -> Self::Output
        ensures { Self.visits self.old (Op.SimdNumeric SimdNumericOperator.F64x2Div) result self.new };

    /// Visits `f64x2.min`.
    fn visit_f64x2_min(&mut self) -> Self::Output
        ensures { Self.visits self.old (Op.SimdNumeric SimdNumericOperator.F64x2Min) result self.new };

    /// Visits `f64x2.max`.
    fn visit_f64x2_max(&mut self) -> Self::Output
        ensures { Self.visits self.old (Op.SimdNumeric SimdNumericOperator.F64x2Max) result self.new };

    /// Visits `f64x2.pmin`.
    fn visit_f64x2_pmin(&mut self) -> Self::Output
        ensures { Self.visits self.old (Op.SimdNumeric SimdNumericOperator.F64x2PMin) result self.new };

    /// Visits `f64x2.pmax`.
    fn visit_f64x2_pmax(&mut self) -> Self::Output
        ensures { Self.visits self.old (Op.SimdNumeric SimdNumericOperator.F64x2PMax) result self.new };

    /// Visits `f32x4.convert_i32x4_s`.
    fn visit_f32x4_convert_i32x4_s(&mut self) -> Self::Output
        ensures { Self.visits self.old (Op.SimdNumeric SimdNumericOperator.F32x4ConvertI32x4S) result self.new };

    /// Visits `f32x4.convert_i32x4_u`.
    fn visit_f32x4_convert_i32x4_u(&mut self) -> Self::Output
        ensures { Self.visits self.old (Op.SimdNumeric SimdNumericOperator.F32x4ConvertI32x4U) result self.new };

    /// Visits `f64x2.convert_low_i32x4_s`.
    fn visit_f64x2_convert_low_i32x4_s(&mut self) -> Self::Output
        ensures { Self.visits self.old (Op.SimdNumeric SimdNumericOperator.F64x2ConvertLowI32x4S) result self.new };

    /// Visits `f64x2.convert_low_i32x4_u`.
    fn visit_f64x2_convert_low_i32x4_u(&mut self) -> Self::Output
        ensures { Self.visits self.old (Op.SimdNumeric SimdNumericOperator.F64x2ConvertLowI32x4U) result self.new };

    /// Visits `f32x4.relaxed_madd`.
    fn visit_f32x4_relaxed_madd(&mut self) -> Self::Output
        ensures { Self.visits self.old (Op.SimdNumeric SimdNumericOperator.F32x4RelaxedMadd) result self.new };

    /// Visits `f32x4.relaxed_nmadd`.
    fn visit_f32x4_relaxed_nmadd(&mut self) -> Self::Output
        ensures { Self.visits self.old (Op.SimdNumeric SimdNumericOperator.F32x4RelaxedNmadd) result self.new };

    /// Visits `f64x2.relaxed_madd`.
    fn visit_f64x2_relaxed_madd(&mut self) -> Self::Output
        ensures { Self.visits self.old (Op.SimdNumeric SimdNumericOperator.F64x2RelaxedMadd) result self.new };

    /// Visits `f64x2.relaxed_nmadd`.
    fn visit_f64x2_relaxed_nmadd(&mut self) -> Self::Output
        ensures { Self.visits self.old (Op.SimdNumeric SimdNumericOperator.F64x2RelaxedNmadd) result self.new };

    /// Visits `f32x4.relaxed_min`.
    fn visit_f32x4_relaxed_min(&mut self) -> Self::Output
        ensures { Self.visits self.old (Op.SimdNumeric SimdNumericOperator.F32x4RelaxedMin) result self.new };

    /// Visits `f32x4.relaxed_max`.
    fn visit_f32x4_relaxed_max(&mut self) -> Self::Output
        ensures { Self.visits self.old (Op.SimdNumeric SimdNumericOperator.F32x4RelaxedMax) result self.new };

    /// Visits `f64x2.relaxed_min`.
    fn visit_f64x2_relaxed_min(&mut self) -> Self::Output
        ensures { Self.visits self.old (Op.SimdNumeric SimdNumericOperator.F64x2RelaxedMin) result self.new };

    /// Visits `f64x2.relaxed_max`.
    fn visit_f64x2_relaxed_max(&mut self) -> Self::Output
        ensures { Self.visits self.old (Op.SimdNumeric SimdNumericOperator.F64x2RelaxedMax) result self.new };
}
