//! One visit for each operator.

ghost use Rattle.wasm_operators_enums.specs.Op.{Op};
ghost use Rattle.wasm_operators_enums.specs.declared.numeric.NumericOperator.{NumericOperator};

use wasm_operators_visit::Visitor;

/// A visit for each operator on floats, and for what makes them of integers or integers of them (WebAssembly 3.0,
/// structure, numeric instructions).
pub trait VisitFloats<'a>: Visitor<'a> {
    /// Visits `f32.eq`.
    fn visit_f32_eq(&mut self) -> Self::Output
        ensures { Self.visits self.old (Op.Numeric NumericOperator.F32Eq) result self.new };

    /// Visits `f32.ne`.
    fn visit_f32_ne(&mut self) -> Self::Output
        ensures { Self.visits self.old (Op.Numeric NumericOperator.F32Ne) result self.new };

    /// Visits `f32.lt`.
    fn visit_f32_lt(&mut self) -> Self::Output
        ensures { Self.visits self.old (Op.Numeric NumericOperator.F32Lt) result self.new };

    /// Visits `f32.gt`.
    fn visit_f32_gt(&mut self) -> Self::Output
        ensures { Self.visits self.old (Op.Numeric NumericOperator.F32Gt) result self.new };

    /// Visits `f32.le`.
    fn visit_f32_le(&mut self) -> Self::Output
        ensures { Self.visits self.old (Op.Numeric NumericOperator.F32Le) result self.new };

    /// Visits `f32.ge`.
    fn visit_f32_ge(&mut self) -> Self::Output
        ensures { Self.visits self.old (Op.Numeric NumericOperator.F32Ge) result self.new };

    /// Visits `f64.eq`.
    fn visit_f64_eq(&mut self) -> Self::Output
        ensures { Self.visits self.old (Op.Numeric NumericOperator.F64Eq) result self.new };

    /// Visits `f64.ne`.
    fn visit_f64_ne(&mut self) -> Self::Output
        ensures { Self.visits self.old (Op.Numeric NumericOperator.F64Ne) result self.new };

    /// Visits `f64.lt`.
    fn visit_f64_lt(&mut self) -> Self::Output
        ensures { Self.visits self.old (Op.Numeric NumericOperator.F64Lt) result self.new };

    /// Visits `f64.gt`.
    fn visit_f64_gt(&mut self) -> Self::Output
        ensures { Self.visits self.old (Op.Numeric NumericOperator.F64Gt) result self.new };

    /// Visits `f64.le`.
    fn visit_f64_le(&mut self) -> Self::Output
        ensures { Self.visits self.old (Op.Numeric NumericOperator.F64Le) result self.new };

    /// Visits `f64.ge`.
    fn visit_f64_ge(&mut self) -> Self::Output
        ensures { Self.visits self.old (Op.Numeric NumericOperator.F64Ge) result self.new };

    /// Visits `f32.abs`.
    fn visit_f32_abs(&mut self) -> Self::Output
        ensures { Self.visits self.old (Op.Numeric NumericOperator.F32Abs) result self.new };

    /// Visits `f32.neg`.
    fn visit_f32_neg(&mut self) -> Self::Output
        ensures { Self.visits self.old (Op.Numeric NumericOperator.F32Neg) result self.new };

    /// Visits `f32.ceil`.
    fn visit_f32_ceil(&mut self) -> Self::Output
        ensures { Self.visits self.old (Op.Numeric NumericOperator.F32Ceil) result self.new };

    /// Visits `f32.floor`.
    fn visit_f32_floor(&mut self) -> Self::Output
        ensures { Self.visits self.old (Op.Numeric NumericOperator.F32Floor) result self.new };

    /// Visits `f32.trunc`.
    fn visit_f32_trunc(&mut self) -> Self::Output
        ensures { Self.visits self.old (Op.Numeric NumericOperator.F32Trunc) result self.new };

    /// Visits `f32.nearest`.
    fn visit_f32_nearest(&mut self) -> Self::Output
        ensures { Self.visits self.old (Op.Numeric NumericOperator.F32Nearest) result self.new };

    /// Visits `f32.sqrt`.
    fn visit_f32_sqrt(&mut self) -> Self::Output
        ensures { Self.visits self.old (Op.Numeric NumericOperator.F32Sqrt) result self.new };

    /// Visits `f32.add`.
    fn visit_f32_add(&mut self) -> Self::Output
        ensures { Self.visits self.old (Op.Numeric NumericOperator.F32Add) result self.new };

    /// Visits `f32.sub`.
    fn visit_f32_sub(&mut self) -> Self::Output
        ensures { Self.visits self.old (Op.Numeric NumericOperator.F32Sub) result self.new };

    /// Visits `f32.mul`.
    fn visit_f32_mul(&mut self) -> Self::Output
        ensures { Self.visits self.old (Op.Numeric NumericOperator.F32Mul) result self.new };

    /// Visits `f32.div`.
    fn visit_f32_div(&mut self) -> Self::Output
        ensures { Self.visits self.old (Op.Numeric NumericOperator.F32Div) result self.new };

    /// Visits `f32.min`.
    fn visit_f32_min(&mut self) -> Self::Output
        ensures { Self.visits self.old (Op.Numeric NumericOperator.F32Min) result self.new };

    /// Visits `f32.max`.
    fn visit_f32_max(&mut self) -> Self::Output
        ensures { Self.visits self.old (Op.Numeric NumericOperator.F32Max) result self.new };

    /// Visits `f32.copysign`.
    fn visit_f32_copysign(&mut self) -> Self::Output
        ensures { Self.visits self.old (Op.Numeric NumericOperator.F32Copysign) result self.new };

    /// Visits `f64.abs`.
    fn visit_f64_abs(&mut self) -> Self::Output
        ensures { Self.visits self.old (Op.Numeric NumericOperator.F64Abs) result self.new };

    /// Visits `f64.neg`.
    fn visit_f64_neg(&mut self) -> Self::Output
        ensures { Self.visits self.old (Op.Numeric NumericOperator.F64Neg) result self.new };

    /// Visits `f64.ceil`.
    fn visit_f64_ceil(&mut self) -> Self::Output
        ensures { Self.visits self.old (Op.Numeric NumericOperator.F64Ceil) result self.new };

    /// Visits `f64.floor`.
    fn visit_f64_floor(&mut self) -> Self::Output
        ensures { Self.visits self.old (Op.Numeric NumericOperator.F64Floor) result self.new };

    /// Visits `f64.trunc`.
    fn visit_f64_trunc(&mut self) -> Self::Output
        ensures { Self.visits self.old (Op.Numeric NumericOperator.F64Trunc) result self.new };

    /// Visits `f64.nearest`.
    fn visit_f64_nearest(&mut self) -> Self::Output
        ensures { Self.visits self.old (Op.Numeric NumericOperator.F64Nearest) result self.new };

    /// Visits `f64.sqrt`.
    fn visit_f64_sqrt(&mut self) -> Self::Output
        ensures { Self.visits self.old (Op.Numeric NumericOperator.F64Sqrt) result self.new };

    /// Visits `f64.add`.
    fn visit_f64_add(&mut self) -> Self::Output
        ensures { Self.visits self.old (Op.Numeric NumericOperator.F64Add) result self.new };

    /// Visits `f64.sub`.
    fn visit_f64_sub(&mut self) -> Self::Output
        ensures { Self.visits self.old (Op.Numeric NumericOperator.F64Sub) result self.new };

    /// Visits `f64.mul`.
    fn visit_f64_mul(&mut self) -> Self::Output
        ensures { Self.visits self.old (Op.Numeric NumericOperator.F64Mul) result self.new };

    /// Visits `f64.div`.
    fn visit_f64_div(&mut self) -> Self::Output
        ensures { Self.visits self.old (Op.Numeric NumericOperator.F64Div) result self.new };

    /// Visits `f64.min`.
    fn visit_f64_min(&mut self) -> Self::Output
        ensures { Self.visits self.old (Op.Numeric NumericOperator.F64Min) result self.new };

    /// Visits `f64.max`.
    fn visit_f64_max(&mut self) -> Self::Output
        ensures { Self.visits self.old (Op.Numeric NumericOperator.F64Max) result self.new };

    /// Visits `f64.copysign`.
    fn visit_f64_copysign(&mut self) -> Self::Output
        ensures { Self.visits self.old (Op.Numeric NumericOperator.F64Copysign) result self.new };

    /// Visits `i32.trunc_f32_s`.
    fn visit_i32_trunc_f32_s(&mut self) -> Self::Output
        ensures { Self.visits self.old (Op.Numeric NumericOperator.I32TruncF32S) result self.new };

    /// Visits `i32.trunc_f32_u`.
    fn visit_i32_trunc_f32_u(&mut self) -> Self::Output
        ensures { Self.visits self.old (Op.Numeric NumericOperator.I32TruncF32U) result self.new };

    /// Visits `i32.trunc_f64_s`.
    fn visit_i32_trunc_f64_s(&mut self) -> Self::Output
        ensures { Self.visits self.old (Op.Numeric NumericOperator.I32TruncF64S) result self.new };

    /// Visits `i32.trunc_f64_u`.
    fn visit_i32_trunc_f64_u(&mut self) -> Self::Output
        ensures { Self.visits self.old (Op.Numeric NumericOperator.I32TruncF64U) result self.new };

    /// Visits `i64.trunc_f32_s`.
    fn visit_i64_trunc_f32_s(&mut self) -> Self::Output
        ensures { Self.visits self.old (Op.Numeric NumericOperator.I64TruncF32S) result self.new };

    /// Visits `i64.trunc_f32_u`.
    fn visit_i64_trunc_f32_u(&mut self) -> Self::Output
        ensures { Self.visits self.old (Op.Numeric NumericOperator.I64TruncF32U) result self.new };

    /// Visits `i64.trunc_f64_s`.
    fn visit_i64_trunc_f64_s(&mut self) -> Self::Output
        ensures { Self.visits self.old (Op.Numeric NumericOperator.I64TruncF64S) result self.new };

    /// Visits `i64.trunc_f64_u`.
    fn visit_i64_trunc_f64_u(&mut self) -> Self::Output
        ensures { Self.visits self.old (Op.Numeric NumericOperator.I64TruncF64U) result self.new };

    /// Visits `f32.convert_i32_s`.
    fn visit_f32_convert_i32_s(&mut self) -> Self::Output
        ensures { Self.visits self.old (Op.Numeric NumericOperator.F32ConvertI32S) result self.new };

    /// Visits `f32.convert_i32_u`.
    fn visit_f32_convert_i32_u(&mut self) -> Self::Output
        ensures { Self.visits self.old (Op.Numeric NumericOperator.F32ConvertI32U) result self.new };

    /// Visits `f32.convert_i64_s`.
    fn visit_f32_convert_i64_s(&mut self) -> Self::Output
        ensures { Self.visits self.old (Op.Numeric NumericOperator.F32ConvertI64S) result self.new };

    /// Visits `f32.convert_i64_u`.
    fn visit_f32_convert_i64_u(&mut self) -> Self::Output
        ensures { Self.visits self.old (Op.Numeric NumericOperator.F32ConvertI64U) result self.new };

    /// Visits `f32.demote_f64`.
    fn visit_f32_demote_f64(&mut self) -> Self::Output
        ensures { Self.visits self.old (Op.Numeric NumericOperator.F32DemoteF64) result self.new };

    /// Visits `f64.convert_i32_s`.
    fn visit_f64_convert_i32_s(&mut self) -> Self::Output
        ensures { Self.visits self.old (Op.Numeric NumericOperator.F64ConvertI32S) result self.new };

    /// Visits `f64.convert_i32_u`.
    fn visit_f64_convert_i32_u(&mut self) -> Self::Output
        ensures { Self.visits self.old (Op.Numeric NumericOperator.F64ConvertI32U) result self.new };

    /// Visits `f64.convert_i64_s`.
    fn visit_f64_convert_i64_s(&mut self) -> Self::Output
        ensures { Self.visits self.old (Op.Numeric NumericOperator.F64ConvertI64S) result self.new };

    /// Visits `f64.convert_i64_u`.
    fn visit_f64_convert_i64_u(&mut self) -> Self::Output
        ensures { Self.visits self.old (Op.Numeric NumericOperator.F64ConvertI64U) result self.new };

    /// Visits `f64.promote_f32`.
    fn visit_f64_promote_f32(&mut self) -> Self::Output
        ensures { Self.visits self.old (Op.Numeric NumericOperator.F64PromoteF32) result self.new };

    /// Visits `i32.reinterpret_f32`.
    fn visit_i32_reinterpret_f32(&mut self) -> Self::Output
        ensures { Self.visits self.old (Op.Numeric NumericOperator.I32ReinterpretF32) result self.new };

    /// Visits `i64.reinterpret_f64`.
    fn visit_i64_reinterpret_f64(&mut self) -> Self::Output
        ensures { Self.visits self.old (Op.Numeric NumericOperator.I64ReinterpretF64) result self.new };

    /// Visits `f32.reinterpret_i32`.
    fn visit_f32_reinterpret_i32(&mut self) -> Self::Output
        ensures { Self.visits self.old (Op.Numeric NumericOperator.F32ReinterpretI32) result self.new };

    /// Visits `f64.reinterpret_i64`.
    fn visit_f64_reinterpret_i64(&mut self) -> Self::Output
        ensures { Self.visits self.old (Op.Numeric NumericOperator.F64ReinterpretI64) result self.new };

    /// Visits `i32.trunc_sat_f32_s`.
    fn visit_i32_trunc_sat_f32_s(&mut self) -> Self::Output
        ensures { Self.visits self.old (Op.Numeric NumericOperator.I32TruncSatF32S) result self.new };

    /// Visits `i32.trunc_sat_f32_u`.
    fn visit_i32_trunc_sat_f32_u(&mut self) -> Self::Output
        ensures { Self.visits self.old (Op.Numeric NumericOperator.I32TruncSatF32U) result self.new };

    /// Visits `i32.trunc_sat_f64_s`.
    fn visit_i32_trunc_sat_f64_s(&mut self) -> Self::Output
        ensures { Self.visits self.old (Op.Numeric NumericOperator.I32TruncSatF64S) result self.new };

    /// Visits `i32.trunc_sat_f64_u`.
    fn visit_i32_trunc_sat_f64_u(&mut self) -> Self::Output
        ensures { Self.visits self.old (Op.Numeric NumericOperator.I32TruncSatF64U) result self.new };

    /// Visits `i64.trunc_sat_f32_s`.
    fn visit_i64_trunc_sat_f32_s(&mut self) -> Self::Output
        ensures { Self.visits self.old (Op.Numeric NumericOperator.I64TruncSatF32S) result self.new };

    /// Visits `i64.trunc_sat_f32_u`.
    fn visit_i64_trunc_sat_f32_u(&mut self) -> Self::Output
        ensures { Self.visits self.old (Op.Numeric NumericOperator.I64TruncSatF32U) result self.new };

    /// Visits `i64.trunc_sat_f64_s`.
    fn visit_i64_trunc_sat_f64_s(&mut self) -> Self::Output
        ensures { Self.visits self.old (Op.Numeric NumericOperator.I64TruncSatF64S) result self.new };

    /// Visits `i64.trunc_sat_f64_u`.
    fn visit_i64_trunc_sat_f64_u(&mut self) -> Self::Output
        ensures { Self.visits self.old (Op.Numeric NumericOperator.I64TruncSatF64U) result self.new };
}
