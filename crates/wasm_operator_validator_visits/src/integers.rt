//! Visits of operators on integers.

use crate::{AnswerAs, ValidatingVisitor};
use wasm_operator_validator_control::{Proposal, WasmModuleResources};
use wasm_operators_visit::NumericOperator;
use wasm_operators_visit_operator::VisitIntegers;
use wasm_types::ValType;

impl<'a, 'v, 'r, R: WasmModuleResources, A: AnswerAs> VisitIntegers<'a>
    for ValidatingVisitor<'v, 'r, R, A> {
    fn visit_i32_eqz(&mut self) -> A::Output {
        self.of_one(NumericOperator::I32Eqz, &ValType::I32, &ValType::I32)
    }

    fn visit_i32_eq(&mut self) -> A::Output {
        self.of_two(NumericOperator::I32Eq, &ValType::I32, &ValType::I32)
    }

    fn visit_i32_ne(&mut self) -> A::Output {
        self.of_two(NumericOperator::I32Ne, &ValType::I32, &ValType::I32)
    }

    fn visit_i32_lt_s(&mut self) -> A::Output {
        self.of_two(NumericOperator::I32LtS, &ValType::I32, &ValType::I32)
    }

    fn visit_i32_lt_u(&mut self) -> A::Output {
        self.of_two(NumericOperator::I32LtU, &ValType::I32, &ValType::I32)
    }

    fn visit_i32_gt_s(&mut self) -> A::Output {
        self.of_two(NumericOperator::I32GtS, &ValType::I32, &ValType::I32)
    }

    fn visit_i32_gt_u(&mut self) -> A::Output {
        self.of_two(NumericOperator::I32GtU, &ValType::I32, &ValType::I32)
    }

    fn visit_i32_le_s(&mut self) -> A::Output {
        self.of_two(NumericOperator::I32LeS, &ValType::I32, &ValType::I32)
    }

    fn visit_i32_le_u(&mut self) -> A::Output {
        self.of_two(NumericOperator::I32LeU, &ValType::I32, &ValType::I32)
    }

    fn visit_i32_ge_s(&mut self) -> A::Output {
        self.of_two(NumericOperator::I32GeS, &ValType::I32, &ValType::I32)
    }

    fn visit_i32_ge_u(&mut self) -> A::Output {
        self.of_two(NumericOperator::I32GeU, &ValType::I32, &ValType::I32)
    }

    fn visit_i64_eqz(&mut self) -> A::Output {
        self.of_one(NumericOperator::I64Eqz, &ValType::I64, &ValType::I32)
    }

    fn visit_i64_eq(&mut self) -> A::Output {
        self.of_two(NumericOperator::I64Eq, &ValType::I64, &ValType::I32)
    }

    fn visit_i64_ne(&mut self) -> A::Output {
        self.of_two(NumericOperator::I64Ne, &ValType::I64, &ValType::I32)
    }

    fn visit_i64_lt_s(&mut self) -> A::Output {
        self.of_two(NumericOperator::I64LtS, &ValType::I64, &ValType::I32)
    }

    fn visit_i64_lt_u(&mut self) -> A::Output {
        self.of_two(NumericOperator::I64LtU, &ValType::I64, &ValType::I32)
    }

    fn visit_i64_gt_s(&mut self) -> A::Output {
        self.of_two(NumericOperator::I64GtS, &ValType::I64, &ValType::I32)
    }

    fn visit_i64_gt_u(&mut self) -> A::Output {
        self.of_two(NumericOperator::I64GtU, &ValType::I64, &ValType::I32)
    }

    fn visit_i64_le_s(&mut self) -> A::Output {
        self.of_two(NumericOperator::I64LeS, &ValType::I64, &ValType::I32)
    }

    fn visit_i64_le_u(&mut self) -> A::Output {
        self.of_two(NumericOperator::I64LeU, &ValType::I64, &ValType::I32)
    }

    fn visit_i64_ge_s(&mut self) -> A::Output {
        self.of_two(NumericOperator::I64GeS, &ValType::I64, &ValType::I32)
    }

    fn visit_i64_ge_u(&mut self) -> A::Output {
        self.of_two(NumericOperator::I64GeU, &ValType::I64, &ValType::I32)
    }

    fn visit_i32_clz(&mut self) -> A::Output {
        self.of_one(NumericOperator::I32Clz, &ValType::I32, &ValType::I32)
    }

    fn visit_i32_ctz(&mut self) -> A::Output {
        self.of_one(NumericOperator::I32Ctz, &ValType::I32, &ValType::I32)
    }

    fn visit_i32_popcnt(&mut self) -> A::Output {
        self.of_one(NumericOperator::I32Popcnt, &ValType::I32, &ValType::I32)
    }

    fn visit_i32_add(&mut self) -> A::Output {
        self.of_two(NumericOperator::I32Add, &ValType::I32, &ValType::I32)
    }

    fn visit_i32_sub(&mut self) -> A::Output {
        self.of_two(NumericOperator::I32Sub, &ValType::I32, &ValType::I32)
    }

    fn visit_i32_mul(&mut self) -> A::Output {
        self.of_two(NumericOperator::I32Mul, &ValType::I32, &ValType::I32)
    }

    fn visit_i32_div_s(&mut self) -> A::Output {
        self.of_two(NumericOperator::I32DivS, &ValType::I32, &ValType::I32)
    }

    fn visit_i32_div_u(&mut self) -> A::Output {
        self.of_two(NumericOperator::I32DivU, &ValType::I32, &ValType::I32)
    }

    fn visit_i32_rem_s(&mut self) -> A::Output {
        self.of_two(NumericOperator::I32RemS, &ValType::I32, &ValType::I32)
    }

    fn visit_i32_rem_u(&mut self) -> A::Output {
        self.of_two(NumericOperator::I32RemU, &ValType::I32, &ValType::I32)
    }

    fn visit_i32_and(&mut self) -> A::Output {
        self.of_two(NumericOperator::I32And, &ValType::I32, &ValType::I32)
    }

    fn visit_i32_or(&mut self) -> A::Output {
        self.of_two(NumericOperator::I32Or, &ValType::I32, &ValType::I32)
    }

    fn visit_i32_xor(&mut self) -> A::Output {
        self.of_two(NumericOperator::I32Xor, &ValType::I32, &ValType::I32)
    }

    fn visit_i32_shl(&mut self) -> A::Output {
        self.of_two(NumericOperator::I32Shl, &ValType::I32, &ValType::I32)
    }

    fn visit_i32_shr_s(&mut self) -> A::Output {
        self.of_two(NumericOperator::I32ShrS, &ValType::I32, &ValType::I32)
    }

    fn visit_i32_shr_u(&mut self) -> A::Output {
        self.of_two(NumericOperator::I32ShrU, &ValType::I32, &ValType::I32)
    }

    fn visit_i32_rotl(&mut self) -> A::Output {
        self.of_two(NumericOperator::I32Rotl, &ValType::I32, &ValType::I32)
    }

    fn visit_i32_rotr(&mut self) -> A::Output {
        self.of_two(NumericOperator::I32Rotr, &ValType::I32, &ValType::I32)
    }

    fn visit_i64_clz(&mut self) -> A::Output {
        self.of_one(NumericOperator::I64Clz, &ValType::I64, &ValType::I64)
    }

    fn visit_i64_ctz(&mut self) -> A::Output {
        self.of_one(NumericOperator::I64Ctz, &ValType::I64, &ValType::I64)
    }

    fn visit_i64_popcnt(&mut self) -> A::Output {
        self.of_one(NumericOperator::I64Popcnt, &ValType::I64, &ValType::I64)
    }

    fn visit_i64_add(&mut self) -> A::Output {
        self.of_two(NumericOperator::I64Add, &ValType::I64, &ValType::I64)
    }

    fn visit_i64_sub(&mut self) -> A::Output {
        self.of_two(NumericOperator::I64Sub, &ValType::I64, &ValType::I64)
    }

    fn visit_i64_mul(&mut self) -> A::Output {
        self.of_two(NumericOperator::I64Mul, &ValType::I64, &ValType::I64)
    }

    fn visit_i64_div_s(&mut self) -> A::Output {
        self.of_two(NumericOperator::I64DivS, &ValType::I64, &ValType::I64)
    }

    fn visit_i64_div_u(&mut self) -> A::Output {
        self.of_two(NumericOperator::I64DivU, &ValType::I64, &ValType::I64)
    }

    fn visit_i64_rem_s(&mut self) -> A::Output {
        self.of_two(NumericOperator::I64RemS, &ValType::I64, &ValType::I64)
    }

    fn visit_i64_rem_u(&mut self) -> A::Output {
        self.of_two(NumericOperator::I64RemU, &ValType::I64, &ValType::I64)
    }

    fn visit_i64_and(&mut self) -> A::Output {
        self.of_two(NumericOperator::I64And, &ValType::I64, &ValType::I64)
    }

    fn visit_i64_or(&mut self) -> A::Output {
        self.of_two(NumericOperator::I64Or, &ValType::I64, &ValType::I64)
    }

    fn visit_i64_xor(&mut self) -> A::Output {
        self.of_two(NumericOperator::I64Xor, &ValType::I64, &ValType::I64)
    }

    fn visit_i64_shl(&mut self) -> A::Output {
        self.of_two(NumericOperator::I64Shl, &ValType::I64, &ValType::I64)
    }

    fn visit_i64_shr_s(&mut self) -> A::Output {
        self.of_two(NumericOperator::I64ShrS, &ValType::I64, &ValType::I64)
    }

    fn visit_i64_shr_u(&mut self) -> A::Output {
        self.of_two(NumericOperator::I64ShrU, &ValType::I64, &ValType::I64)
    }

    fn visit_i64_rotl(&mut self) -> A::Output {
        self.of_two(NumericOperator::I64Rotl, &ValType::I64, &ValType::I64)
    }

    fn visit_i64_rotr(&mut self) -> A::Output {
        self.of_two(NumericOperator::I64Rotr, &ValType::I64, &ValType::I64)
    }

    fn visit_i32_wrap_i64(&mut self) -> A::Output {
        self.of_one(NumericOperator::I32WrapI64, &ValType::I64, &ValType::I32)
    }

    fn visit_i64_extend_i32_s(&mut self) -> A::Output {
        self.of_one(NumericOperator::I64ExtendI32S, &ValType::I32, &ValType::I64)
    }

    fn visit_i64_extend_i32_u(&mut self) -> A::Output {
        self.of_one(NumericOperator::I64ExtendI32U, &ValType::I32, &ValType::I64)
    }

    fn visit_i32_extend8_s(&mut self) -> A::Output {
        self.numbers(
            Proposal::SignExtension,
            false,
            NumericOperator::I32Extend8S,
            &[ValType::I32],
            &[ValType::I32],
        )
    }

    fn visit_i32_extend16_s(&mut self) -> A::Output {
        self.numbers(
            Proposal::SignExtension,
            false,
            NumericOperator::I32Extend16S,
            &[ValType::I32],
            &[ValType::I32],
        )
    }

    fn visit_i64_extend8_s(&mut self) -> A::Output {
        self.numbers(
            Proposal::SignExtension,
            false,
            NumericOperator::I64Extend8S,
            &[ValType::I64],
            &[ValType::I64],
        )
    }

    fn visit_i64_extend16_s(&mut self) -> A::Output {
        self.numbers(
            Proposal::SignExtension,
            false,
            NumericOperator::I64Extend16S,
            &[ValType::I64],
            &[ValType::I64],
        )
    }

    fn visit_i64_extend32_s(&mut self) -> A::Output {
        self.numbers(
            Proposal::SignExtension,
            false,
            NumericOperator::I64Extend32S,
            &[ValType::I64],
            &[ValType::I64],
        )
    }

    fn visit_i64_add128(&mut self) -> A::Output {
        self.numbers(
            Proposal::WideArithmetic,
            false,
            NumericOperator::I64Add128,
            &[ValType::I64, ValType::I64, ValType::I64, ValType::I64],
            &[ValType::I64, ValType::I64],
        )
    }

    fn visit_i64_sub128(&mut self) -> A::Output {
        self.numbers(
            Proposal::WideArithmetic,
            false,
            NumericOperator::I64Sub128,
            &[ValType::I64, ValType::I64, ValType::I64, ValType::I64],
            &[ValType::I64, ValType::I64],
        )
    }

    fn visit_i64_mul_wide_s(&mut self) -> A::Output {
        self.numbers(
            Proposal::WideArithmetic,
            false,
            NumericOperator::I64MulWideS,
            &[ValType::I64, ValType::I64],
            &[ValType::I64, ValType::I64],
        )
    }

    fn visit_i64_mul_wide_u(&mut self) -> A::Output {
        self.numbers(
            Proposal::WideArithmetic,
            false,
            NumericOperator::I64MulWideU,
            &[ValType::I64, ValType::I64],
            &[ValType::I64, ValType::I64],
        )
    }
}
