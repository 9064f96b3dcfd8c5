//! One visit for each operator.

ghost use Rattle.wasm_operators_enums.specs.Op.{Op};
ghost use Rattle.wasm_operators_enums.specs.declared.numeric.NumericOperator.{NumericOperator};

use wasm_operators_visit::Visitor;

/// A visit for each operator on integers alone (WebAssembly 3.0, structure, numeric instructions).
pub trait VisitIntegers<'a>: Visitor<'a> {
    /// Visits `i32.eqz`.
    fn visit_i32_eqz(&mut self) -> Self::Output
        ensures { Self.visits self.old (Op.Numeric NumericOperator.I32Eqz) result self.new };

    /// Visits `i32.eq`.
    fn visit_i32_eq(&mut self) -> Self::Output
        ensures { Self.visits self.old (Op.Numeric NumericOperator.I32Eq) result self.new };

    /// Visits `i32.ne`.
    fn visit_i32_ne(&mut self) -> Self::Output
        ensures { Self.visits self.old (Op.Numeric NumericOperator.I32Ne) result self.new };

    /// Visits `i32.lt_s`.
    fn visit_i32_lt_s(&mut self) -> Self::Output
        ensures { Self.visits self.old (Op.Numeric NumericOperator.I32LtS) result self.new };

    /// Visits `i32.lt_u`.
    fn visit_i32_lt_u(&mut self) -> Self::Output
        ensures { Self.visits self.old (Op.Numeric NumericOperator.I32LtU) result self.new };

    /// Visits `i32.gt_s`.
    fn visit_i32_gt_s(&mut self) -> Self::Output
        ensures { Self.visits self.old (Op.Numeric NumericOperator.I32GtS) result self.new };

    /// Visits `i32.gt_u`.
    fn visit_i32_gt_u(&mut self) -> Self::Output
        ensures { Self.visits self.old (Op.Numeric NumericOperator.I32GtU) result self.new };

    /// Visits `i32.le_s`.
    fn visit_i32_le_s(&mut self) -> Self::Output
        ensures { Self.visits self.old (Op.Numeric NumericOperator.I32LeS) result self.new };

    /// Visits `i32.le_u`.
    fn visit_i32_le_u(&mut self) -> Self::Output
        ensures { Self.visits self.old (Op.Numeric NumericOperator.I32LeU) result self.new };

    /// Visits `i32.ge_s`.
    fn visit_i32_ge_s(&mut self) -> Self::Output
        ensures { Self.visits self.old (Op.Numeric NumericOperator.I32GeS) result self.new };

    /// Visits `i32.ge_u`.
    fn visit_i32_ge_u(&mut self) -> Self::Output
        ensures { Self.visits self.old (Op.Numeric NumericOperator.I32GeU) result self.new };

    /// Visits `i64.eqz`.
    fn visit_i64_eqz(&mut self) -> Self::Output
        ensures { Self.visits self.old (Op.Numeric NumericOperator.I64Eqz) result self.new };

    /// Visits `i64.eq`.
    fn visit_i64_eq(&mut self) -> Self::Output
        ensures { Self.visits self.old (Op.Numeric NumericOperator.I64Eq) result self.new };

    /// Visits `i64.ne`.
    fn visit_i64_ne(&mut self) -> Self::Output
        ensures { Self.visits self.old (Op.Numeric NumericOperator.I64Ne) result self.new };

    /// Visits `i64.lt_s`.
    fn visit_i64_lt_s(&mut self) -> Self::Output
        ensures { Self.visits self.old (Op.Numeric NumericOperator.I64LtS) result self.new };

    /// Visits `i64.lt_u`.
    fn visit_i64_lt_u(&mut self) -> Self::Output
        ensures { Self.visits self.old (Op.Numeric NumericOperator.I64LtU) result self.new };

    /// Visits `i64.gt_s`.
    fn visit_i64_gt_s(&mut self) -> Self::Output
        ensures { Self.visits self.old (Op.Numeric NumericOperator.I64GtS) result self.new };

    /// Visits `i64.gt_u`.
    fn visit_i64_gt_u(&mut self) -> Self::Output
        ensures { Self.visits self.old (Op.Numeric NumericOperator.I64GtU) result self.new };

    /// Visits `i64.le_s`.
    fn visit_i64_le_s(&mut self) -> Self::Output
        ensures { Self.visits self.old (Op.Numeric NumericOperator.I64LeS) result self.new };

    /// Visits `i64.le_u`.
    fn visit_i64_le_u(&mut self) -> Self::Output
        ensures { Self.visits self.old (Op.Numeric NumericOperator.I64LeU) result self.new };

    /// Visits `i64.ge_s`.
    fn visit_i64_ge_s(&mut self) -> Self::Output
        ensures { Self.visits self.old (Op.Numeric NumericOperator.I64GeS) result self.new };

    /// Visits `i64.ge_u`.
    fn visit_i64_ge_u(&mut self) -> Self::Output
        ensures { Self.visits self.old (Op.Numeric NumericOperator.I64GeU) result self.new };

    /// Visits `i32.clz`.
    fn visit_i32_clz(&mut self) -> Self::Output
        ensures { Self.visits self.old (Op.Numeric NumericOperator.I32Clz) result self.new };

    /// Visits `i32.ctz`.
    fn visit_i32_ctz(&mut self) -> Self::Output
        ensures { Self.visits self.old (Op.Numeric NumericOperator.I32Ctz) result self.new };

    /// Visits `i32.popcnt`.
    fn visit_i32_popcnt(&mut self) -> Self::Output
        ensures { Self.visits self.old (Op.Numeric NumericOperator.I32Popcnt) result self.new };

    /// Visits `i32.add`.
    fn visit_i32_add(&mut self) -> Self::Output
        ensures { Self.visits self.old (Op.Numeric NumericOperator.I32Add) result self.new };

    /// Visits `i32.sub`.
    fn visit_i32_sub(&mut self) -> Self::Output
        ensures { Self.visits self.old (Op.Numeric NumericOperator.I32Sub) result self.new };

    /// Visits `i32.mul`.
    fn visit_i32_mul(&mut self) -> Self::Output
        ensures { Self.visits self.old (Op.Numeric NumericOperator.I32Mul) result self.new };

    /// Visits `i32.div_s`.
    fn visit_i32_div_s(&mut self) -> Self::Output
        ensures { Self.visits self.old (Op.Numeric NumericOperator.I32DivS) result self.new };

    /// Visits `i32.div_u`.
    fn visit_i32_div_u(&mut self) -> Self::Output
        ensures { Self.visits self.old (Op.Numeric NumericOperator.I32DivU) result self.new };

    /// Visits `i32.rem_s`.
    fn visit_i32_rem_s(&mut self) -> Self::Output
        ensures { Self.visits self.old (Op.Numeric NumericOperator.I32RemS) result self.new };

    /// Visits `i32.rem_u`.
    fn visit_i32_rem_u(&mut self) -> Self::Output
        ensures { Self.visits self.old (Op.Numeric NumericOperator.I32RemU) result self.new };

    /// Visits `i32.and`.
    fn visit_i32_and(&mut self) -> Self::Output
        ensures { Self.visits self.old (Op.Numeric NumericOperator.I32And) result self.new };

    /// Visits `i32.or`.
    fn visit_i32_or(&mut self) -> Self::Output
        ensures { Self.visits self.old (Op.Numeric NumericOperator.I32Or) result self.new };

    /// Visits `i32.xor`.
    fn visit_i32_xor(&mut self) -> Self::Output
        ensures { Self.visits self.old (Op.Numeric NumericOperator.I32Xor) result self.new };

    /// Visits `i32.shl`.
    fn visit_i32_shl(&mut self) -> Self::Output
        ensures { Self.visits self.old (Op.Numeric NumericOperator.I32Shl) result self.new };

    /// Visits `i32.shr_s`.
    fn visit_i32_shr_s(&mut self) -> Self::Output
        ensures { Self.visits self.old (Op.Numeric NumericOperator.I32ShrS) result self.new };

    /// Visits `i32.shr_u`.
    fn visit_i32_shr_u(&mut self) -> Self::Output
        ensures { Self.visits self.old (Op.Numeric NumericOperator.I32ShrU) result self.new };

    /// Visits `i32.rotl`.
    fn visit_i32_rotl(&mut self) -> Self::Output
        ensures { Self.visits self.old (Op.Numeric NumericOperator.I32Rotl) result self.new };

    /// Visits `i32.rotr`.
    fn visit_i32_rotr(&mut self) -> Self::Output
        ensures { Self.visits self.old (Op.Numeric NumericOperator.I32Rotr) result self.new };

    /// Visits `i64.clz`.
    fn visit_i64_clz(&mut self) -> Self::Output
        ensures { Self.visits self.old (Op.Numeric NumericOperator.I64Clz) result self.new };

    /// Visits `i64.ctz`.
    fn visit_i64_ctz(&mut self) -> Self::Output
        ensures { Self.visits self.old (Op.Numeric NumericOperator.I64Ctz) result self.new };

    /// Visits `i64.popcnt`.
    fn visit_i64_popcnt(&mut self) -> Self::Output
        ensures { Self.visits self.old (Op.Numeric NumericOperator.I64Popcnt) result self.new };

    /// Visits `i64.add`.
    fn visit_i64_add(&mut self) -> Self::Output
        ensures { Self.visits self.old (Op.Numeric NumericOperator.I64Add) result self.new };

    /// Visits `i64.sub`.
    fn visit_i64_sub(&mut self) -> Self::Output
        ensures { Self.visits self.old (Op.Numeric NumericOperator.I64Sub) result self.new };

    /// Visits `i64.mul`.
    fn visit_i64_mul(&mut self) -> Self::Output
        ensures { Self.visits self.old (Op.Numeric NumericOperator.I64Mul) result self.new };

    /// Visits `i64.div_s`.
    fn visit_i64_div_s(&mut self) -> Self::Output
        ensures { Self.visits self.old (Op.Numeric NumericOperator.I64DivS) result self.new };

    /// Visits `i64.div_u`.
    fn visit_i64_div_u(&mut self) -> Self::Output
        ensures { Self.visits self.old (Op.Numeric NumericOperator.I64DivU) result self.new };

    /// Visits `i64.rem_s`.
    fn visit_i64_rem_s(&mut self) -> Self::Output
        ensures { Self.visits self.old (Op.Numeric NumericOperator.I64RemS) result self.new };

    /// Visits `i64.rem_u`.
    fn visit_i64_rem_u(&mut self) -> Self::Output
        ensures { Self.visits self.old (Op.Numeric NumericOperator.I64RemU) result self.new };

    /// Visits `i64.and`.
    fn visit_i64_and(&mut self) -> Self::Output
        ensures { Self.visits self.old (Op.Numeric NumericOperator.I64And) result self.new };

    /// Visits `i64.or`.
    fn visit_i64_or(&mut self) -> Self::Output
        ensures { Self.visits self.old (Op.Numeric NumericOperator.I64Or) result self.new };

    /// Visits `i64.xor`.
    fn visit_i64_xor(&mut self) -> Self::Output
        ensures { Self.visits self.old (Op.Numeric NumericOperator.I64Xor) result self.new };

    /// Visits `i64.shl`.
    fn visit_i64_shl(&mut self) -> Self::Output
        ensures { Self.visits self.old (Op.Numeric NumericOperator.I64Shl) result self.new };

    /// Visits `i64.shr_s`.
    fn visit_i64_shr_s(&mut self) -> Self::Output
        ensures { Self.visits self.old (Op.Numeric NumericOperator.I64ShrS) result self.new };

    /// Visits `i64.shr_u`.
    fn visit_i64_shr_u(&mut self) -> Self::Output
        ensures { Self.visits self.old (Op.Numeric NumericOperator.I64ShrU) result self.new };

    /// Visits `i64.rotl`.
    fn visit_i64_rotl(&mut self) -> Self::Output
        ensures { Self.visits self.old (Op.Numeric NumericOperator.I64Rotl) result self.new };

    /// Visits `i64.rotr`.
    fn visit_i64_rotr(&mut self) -> Self::Output
        ensures { Self.visits self.old (Op.Numeric NumericOperator.I64Rotr) result self.new };

    /// Visits `i32.wrap_i64`.
    fn visit_i32_wrap_i64(&mut self) -> Self::Output
        ensures { Self.visits self.old (Op.Numeric NumericOperator.I32WrapI64) result self.new };

    /// Visits `i64.extend_i32_s`.
    fn visit_i64_extend_i32_s(&mut self) -> Self::Output
        ensures { Self.visits self.old (Op.Numeric NumericOperator.I64ExtendI32S) result self.new };

    /// Visits `i64.extend_i32_u`.
    fn visit_i64_extend_i32_u(&mut self) -> Self::Output
        ensures { Self.visits self.old (Op.Numeric NumericOperator.I64ExtendI32U) result self.new };

    /// Visits `i32.extend8_s`.
    fn visit_i32_extend8_s(&mut self) -> Self::Output
        ensures { Self.visits self.old (Op.Numeric NumericOperator.I32Extend8S) result self.new };

    /// Visits `i32.extend16_s`.
    fn visit_i32_extend16_s(&mut self) -> Self::Output
        ensures { Self.visits self.old (Op.Numeric NumericOperator.I32Extend16S) result self.new };

    /// Visits `i64.extend8_s`.
    fn visit_i64_extend8_s(&mut self) -> Self::Output
        ensures { Self.visits self.old (Op.Numeric NumericOperator.I64Extend8S) result self.new };

    /// Visits `i64.extend16_s`.
    fn visit_i64_extend16_s(&mut self) -> Self::Output
        ensures { Self.visits self.old (Op.Numeric NumericOperator.I64Extend16S) result self.new };

    /// Visits `i64.extend32_s`.
    fn visit_i64_extend32_s(&mut self) -> Self::Output
        ensures { Self.visits self.old (Op.Numeric NumericOperator.I64Extend32S) result self.new };

    /// Visits `i64.add128`.
    fn visit_i64_add128(&mut self) -> Self::Output
        ensures { Self.visits self.old (Op.Numeric NumericOperator.I64Add128) result self.new };

    /// Visits `i64.sub128`.
    fn visit_i64_sub128(&mut self) -> Self::Output
        ensures { Self.visits self.old (Op.Numeric NumericOperator.I64Sub128) result self.new };

    /// Visits `i64.mul_wide_s`.
    fn visit_i64_mul_wide_s(&mut self) -> Self::Output
        ensures { Self.visits self.old (Op.Numeric NumericOperator.I64MulWideS) result self.new };

    /// Visits `i64.mul_wide_u`.
    fn visit_i64_mul_wide_u(&mut self) -> Self::Output
        ensures { Self.visits self.old (Op.Numeric NumericOperator.I64MulWideU) result self.new };
}
