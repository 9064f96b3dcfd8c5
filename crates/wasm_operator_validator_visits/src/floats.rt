//! Visits of operators on floats, and of what makes them of integers or integers of them.

use crate::{AnswerAs, ValidatingVisitor};
use wasm_operator_validator_control::{Proposal, WasmModuleResources};
use wasm_operators_visit::NumericOperator;
use wasm_operators_visit_operator::VisitFloats;
use wasm_types::ValType;

impl<'a, 'v, 'r, R: WasmModuleResources, A: AnswerAs> VisitFloats<'a>
    for ValidatingVisitor<'v, 'r, R, A> {
    fn visit_f32_eq(&mut self) -> A::Output {
        self.float_of_two(NumericOperator::F32Eq, &ValType::F32, &ValType::I32)
    }

    fn visit_f32_ne(&mut self) -> A::Output {
        self.float_of_two(NumericOperator::F32Ne, &ValType::F32, &ValType::I32)
    }

    fn visit_f32_lt(&mut self) -> A::Output {
        self.float_of_two(NumericOperator::F32Lt, &ValType::F32, &ValType::I32)
    }

    fn visit_f32_gt(&mut self) -> A::Output {
        self.float_of_two(NumericOperator::F32Gt, &ValType::F32, &ValType::I32)
    }

    fn visit_f32_le(&mut self) -> A::Output {
        self.float_of_two(NumericOperator::F32Le, &ValType::F32, &ValType::I32)
    }

    fn visit_f32_ge(&mut self) -> A::Output {
        self.float_of_two(NumericOperator::F32Ge, &ValType::F32, &ValType::I32)
    }

    fn visit_f64_eq(&mut self) -> A::Output {
        self.float_of_two(NumericOperator::F64Eq, &ValType::F64, &ValType::I32)
    }

    fn visit_f64_ne(&mut self) -> A::Output {
        self.float_of_two(NumericOperator::F64Ne, &ValType::F64, &ValType::I32)
    }

    fn visit_f64_lt(&mut self) -> A::Output {
        self.float_of_two(NumericOperator::F64Lt, &ValType::F64, &ValType::I32)
    }

    fn visit_f64_gt(&mut self) -> A::Output {
        self.float_of_two(NumericOperator::F64Gt, &ValType::F64, &ValType::I32)
    }

    fn visit_f64_le(&mut self) -> A::Output {
        self.float_of_two(NumericOperator::F64Le, &ValType::F64, &ValType::I32)
    }

    fn visit_f64_ge(&mut self) -> A::Output {
        self.float_of_two(NumericOperator::F64Ge, &ValType::F64, &ValType::I32)
    }

    fn visit_f32_abs(&mut self) -> A::Output {
        self.float_of_one(NumericOperator::F32Abs, &ValType::F32, &ValType::F32)
    }

    fn visit_f32_neg(&mut self) -> A::Output {
        self.float_of_one(NumericOperator::F32Neg, &ValType::F32, &ValType::F32)
    }

    fn visit_f32_ceil(&mut self) -> A::Output {
        self.float_of_one(NumericOperator::F32Ceil, &ValType::F32, &ValType::F32)
    }

    fn visit_f32_floor(&mut self) -> A::Output {
        self.float_of_one(NumericOperator::F32Floor, &ValType::F32, &ValType::F32)
    }

    fn visit_f32_trunc(&mut self) -> A::Output {
        self.float_of_one(NumericOperator::F32Trunc, &ValType::F32, &ValType::F32)
    }

    fn visit_f32_nearest(&mut self) -> A::Output {
        self.float_of_one(NumericOperator::F32Nearest, &ValType::F32, &ValType::F32)
    }

    fn visit_f32_sqrt(&mut self) -> A::Output {
        self.float_of_one(NumericOperator::F32Sqrt, &ValType::F32, &ValType::F32)
    }

    fn visit_f32_add(&mut self) -> A::Output {
        self.float_of_two(NumericOperator::F32Add, &ValType::F32, &ValType::F32)
    }

    fn visit_f32_sub(&mut self) -> A::Output {
        self.float_of_two(NumericOperator::F32Sub, &ValType::F32, &ValType::F32)
    }

    fn visit_f32_mul(&mut self) -> A::Output {
        self.float_of_two(NumericOperator::F32Mul, &ValType::F32, &ValType::F32)
    }

    fn visit_f32_div(&mut self) -> A::Output {
        self.float_of_two(NumericOperator::F32Div, &ValType::F32, &ValType::F32)
    }

    fn visit_f32_min(&mut self) -> A::Output {
        self.float_of_two(NumericOperator::F32Min, &ValType::F32, &ValType::F32)
    }

    fn visit_f32_max(&mut self) -> A::Output {
        self.float_of_two(NumericOperator::F32Max, &ValType::F32, &ValType::F32)
    }

    fn visit_f32_copysign(&mut self) -> A::Output {
        self.float_of_two(NumericOperator::F32Copysign, &ValType::F32, &ValType::F32)
    }

    fn visit_f64_abs(&mut self) -> A::Output {
        self.float_of_one(NumericOperator::F64Abs, &ValType::F64, &ValType::F64)
    }

    fn visit_f64_neg(&mut self) -> A::Output {
        self.float_of_one(NumericOperator::F64Neg, &ValType::F64, &ValType::F64)
    }

    fn visit_f64_ceil(&mut self) -> A::Output {
        self.float_of_one(NumericOperator::F64Ceil, &ValType::F64, &ValType::F64)
    }

    fn visit_f64_floor(&mut self) -> A::Output {
        self.float_of_one(NumericOperator::F64Floor, &ValType::F64, &ValType::F64)
    }

    fn visit_f64_trunc(&mut self) -> A::Output {
        self.float_of_one(NumericOperator::F64Trunc, &ValType::F64, &ValType::F64)
    }

    fn visit_f64_nearest(&mut self) -> A::Output {
        self.float_of_one(NumericOperator::F64Nearest, &ValType::F64, &ValType::F64)
    }

    fn visit_f64_sqrt(&mut self) -> A::Output {
        self.float_of_one(NumericOperator::F64Sqrt, &ValType::F64, &ValType::F64)
    }

    fn visit_f64_add(&mut self) -> A::Output {
        self.float_of_two(NumericOperator::F64Add, &ValType::F64, &ValType::F64)
    }

    fn visit_f64_sub(&mut self) -> A::Output {
        self.float_of_two(NumericOperator::F64Sub, &ValType::F64, &ValType::F64)
    }

    fn visit_f64_mul(&mut self) -> A::Output {
        self.float_of_two(NumericOperator::F64Mul, &ValType::F64, &ValType::F64)
    }

    fn visit_f64_div(&mut self) -> A::Output {
        self.float_of_two(NumericOperator::F64Div, &ValType::F64, &ValType::F64)
    }

    fn visit_f64_min(&mut self) -> A::Output {
        self.float_of_two(NumericOperator::F64Min, &ValType::F64, &ValType::F64)
    }

    fn visit_f64_max(&mut self) -> A::Output {
        self.float_of_two(NumericOperator::F64Max, &ValType::F64, &ValType::F64)
    }

    fn visit_f64_copysign(&mut self) -> A::Output {
        self.float_of_two(NumericOperator::F64Copysign, &ValType::F64, &ValType::F64)
    }

    fn visit_i32_trunc_f32_s(&mut self) -> A::Output {
        self.float_of_one(NumericOperator::I32TruncF32S, &ValType::F32, &ValType::I32)
    }

    fn visit_i32_trunc_f32_u(&mut self) -> A::Output {
        self.float_of_one(NumericOperator::I32TruncF32U, &ValType::F32, &ValType::I32)
    }

    fn visit_i32_trunc_f64_s(&mut self) -> A::Output {
        self.float_of_one(NumericOperator::I32TruncF64S, &ValType::F64, &ValType::I32)
    }

    fn visit_i32_trunc_f64_u(&mut self) -> A::Output {
        self.float_of_one(NumericOperator::I32TruncF64U, &ValType::F64, &ValType::I32)
    }

    fn visit_i64_trunc_f32_s(&mut self) -> A::Output {
        self.float_of_one(NumericOperator::I64TruncF32S, &ValType::F32, &ValType::I64)
    }

    fn visit_i64_trunc_f32_u(&mut self) -> A::Output {
        self.float_of_one(NumericOperator::I64TruncF32U, &ValType::F32, &ValType::I64)
    }

    fn visit_i64_trunc_f64_s(&mut self) -> A::Output {
        self.float_of_one(NumericOperator::I64TruncF64S, &ValType::F64, &ValType::I64)
    }

    fn visit_i64_trunc_f64_u(&mut self) -> A::Output {
        self.float_of_one(NumericOperator::I64TruncF64U, &ValType::F64, &ValType::I64)
    }

    fn visit_f32_convert_i32_s(&mut self) -> A::Output {
        self.float_of_one(
            NumericOperator::F32ConvertI32S,
            &ValType::I32,
            &ValType::F32,
        )
    }

    fn visit_f32_convert_i32_u(&mut self) -> A::Output {
        self.float_of_one(
            NumericOperator::F32ConvertI32U,
            &ValType::I32,
            &ValType::F32,
        )
    }

    fn visit_f32_convert_i64_s(&mut self) -> A::Output {
        self.float_of_one(
            NumericOperator::F32ConvertI64S,
            &ValType::I64,
            &ValType::F32,
        )
    }

    fn visit_f32_convert_i64_u(&mut self) -> A::Output {
        self.float_of_one(
            NumericOperator::F32ConvertI64U,
            &ValType::I64,
            &ValType::F32,
        )
    }

    fn visit_f32_demote_f64(&mut self) -> A::Output {
        self.float_of_one(NumericOperator::F32DemoteF64, &ValType::F64, &ValType::F32)
    }

    fn visit_f64_convert_i32_s(&mut self) -> A::Output {
        self.float_of_one(
            NumericOperator::F64ConvertI32S,
            &ValType::I32,
            &ValType::F64,
        )
    }

    fn visit_f64_convert_i32_u(&mut self) -> A::Output {
        self.float_of_one(
            NumericOperator::F64ConvertI32U,
            &ValType::I32,
            &ValType::F64,
        )
    }

    fn visit_f64_convert_i64_s(&mut self) -> A::Output {
        self.float_of_one(
            NumericOperator::F64ConvertI64S,
            &ValType::I64,
            &ValType::F64,
        )
    }

    fn visit_f64_convert_i64_u(&mut self) -> A::Output {
        self.float_of_one(
            NumericOperator::F64ConvertI64U,
            &ValType::I64,
            &ValType::F64,
        )
    }

    fn visit_f64_promote_f32(&mut self) -> A::Output {
        self.float_of_one(NumericOperator::F64PromoteF32, &ValType::F32, &ValType::F64)
    }

    fn visit_i32_reinterpret_f32(&mut self) -> A::Output {
        self.float_of_one(
            NumericOperator::I32ReinterpretF32,
            &ValType::F32,
            &ValType::I32,
        )
    }

    fn visit_i64_reinterpret_f64(&mut self) -> A::Output {
        self.float_of_one(
            NumericOperator::I64ReinterpretF64,
            &ValType::F64,
            &ValType::I64,
        )
    }

    fn visit_f32_reinterpret_i32(&mut self) -> A::Output {
        self.float_of_one(
            NumericOperator::F32ReinterpretI32,
            &ValType::I32,
            &ValType::F32,
        )
    }

    fn visit_f64_reinterpret_i64(&mut self) -> A::Output {
        self.float_of_one(
            NumericOperator::F64ReinterpretI64,
            &ValType::I64,
            &ValType::F64,
        )
    }

    fn visit_i32_trunc_sat_f32_s(&mut self) -> A::Output {
        self.numbers(
            Proposal::SaturatingFloatToInt,
            true,
            NumericOperator::I32TruncSatF32S,
            &[ValType::F32],
            &[ValType::I32],
        )
    }

    fn visit_i32_trunc_sat_f32_u(&mut self) -> A::Output {
        self.numbers(
            Proposal::SaturatingFloatToInt,
            true,
            NumericOperator::I32TruncSatF32U,
            &[ValType::F32],
            &[ValType::I32],
        )
    }

    fn visit_i32_trunc_sat_f64_s(&mut self) -> A::Output {
        self.numbers(
            Proposal::SaturatingFloatToInt,
            true,
            NumericOperator::I32TruncSatF64S,
            &[ValType::F64],
            &[ValType::I32],
        )
    }

    fn visit_i32_trunc_sat_f64_u(&mut self) -> A::Output {
        self.numbers(
            Proposal::SaturatingFloatToInt,
            true,
            NumericOperator::I32TruncSatF64U,
            &[ValType::F64],
            &[ValType::I32],
        )
    }

    fn visit_i64_trunc_sat_f32_s(&mut self) -> A::Output {
        self.numbers(
            Proposal::SaturatingFloatToInt,
            true,
            NumericOperator::I64TruncSatF32S,
            &[ValType::F32],
            &[ValType::I64],
        )
    }

    fn visit_i64_trunc_sat_f32_u(&mut self) -> A::Output {
        self.numbers(
            Proposal::SaturatingFloatToInt,
            true,
            NumericOperator::I64TruncSatF32U,
            &[ValType::F32],
            &[ValType::I64],
        )
    }

    fn visit_i64_trunc_sat_f64_s(&mut self) -> A::Output {
        self.numbers(
            Proposal::SaturatingFloatToInt,
            true,
            NumericOperator::I64TruncSatF64S,
            &[ValType::F64],
            &[ValType::I64],
        )
    }

    fn visit_i64_trunc_sat_f64_u(&mut self) -> A::Output {
        self.numbers(
            Proposal::SaturatingFloatToInt,
            true,
            NumericOperator::I64TruncSatF64U,
            &[ValType::F64],
            &[ValType::I64],
        )
    }
}
