//! Visits of operators on vectors: lanes of floats.

use crate::{AnswerAs, ValidatingSimdVisitor, WasmModuleResources};
use wasm_operators_visit::SimdNumericOperator;
use wasm_operators_visit_simd::VisitSimdFloats;

impl<'a, 'v, 'r, R: WasmModuleResources, A: AnswerAs> VisitSimdFloats<'a>
    for ValidatingSimdVisitor<'v, 'r, R, A> {
    fn visit_f32x4_splat(&mut self) -> A::Output {
        self.visitor.simd_numeric(SimdNumericOperator::F32x4Splat)
    }

    fn visit_f64x2_splat(&mut self) -> A::Output {
        self.visitor.simd_numeric(SimdNumericOperator::F64x2Splat)
    }

    fn visit_f32x4_eq(&mut self) -> A::Output {
        self.visitor.simd_numeric(SimdNumericOperator::F32x4Eq)
    }

    fn visit_f32x4_ne(&mut self) -> A::Output {
        self.visitor.simd_numeric(SimdNumericOperator::F32x4Ne)
    }

    fn visit_f32x4_lt(&mut self) -> A::Output {
        self.visitor.simd_numeric(SimdNumericOperator::F32x4Lt)
    }

    fn visit_f32x4_gt(&mut self) -> A::Output {
        self.visitor.simd_numeric(SimdNumericOperator::F32x4Gt)
    }

    fn visit_f32x4_le(&mut self) -> A::Output {
        self.visitor.simd_numeric(SimdNumericOperator::F32x4Le)
    }

    fn visit_f32x4_ge(&mut self) -> A::Output {
        self.visitor.simd_numeric(SimdNumericOperator::F32x4Ge)
    }

    fn visit_f64x2_eq(&mut self) -> A::Output {
        self.visitor.simd_numeric(SimdNumericOperator::F64x2Eq)
    }

    fn visit_f64x2_ne(&mut self) -> A::Output {
        self.visitor.simd_numeric(SimdNumericOperator::F64x2Ne)
    }

    fn visit_f64x2_lt(&mut self) -> A::Output {
        self.visitor.simd_numeric(SimdNumericOperator::F64x2Lt)
    }

    fn visit_f64x2_gt(&mut self) -> A::Output {
        self.visitor.simd_numeric(SimdNumericOperator::F64x2Gt)
    }

    fn visit_f64x2_le(&mut self) -> A::Output {
        self.visitor.simd_numeric(SimdNumericOperator::F64x2Le)
    }

    fn visit_f64x2_ge(&mut self) -> A::Output {
        self.visitor.simd_numeric(SimdNumericOperator::F64x2Ge)
    }

    fn visit_f32x4_demote_f64x2_zero(&mut self) -> A::Output {
        self.visitor
            .simd_numeric(SimdNumericOperator::F32x4DemoteF64x2Zero)
    }

    fn visit_f64x2_promote_low_f32x4(&mut self) -> A::Output {
        self.visitor
            .simd_numeric(SimdNumericOperator::F64x2PromoteLowF32x4)
    }

    fn visit_f32x4_ceil(&mut self) -> A::Output {
        self.visitor.simd_numeric(SimdNumericOperator::F32x4Ceil)
    }

    fn visit_f32x4_floor(&mut self) -> A::Output {
        self.visitor.simd_numeric(SimdNumericOperator::F32x4Floor)
    }

    fn visit_f32x4_trunc(&mut self) -> A::Output {
        self.visitor.simd_numeric(SimdNumericOperator::F32x4Trunc)
    }

    fn visit_f32x4_nearest(&mut self) -> A::Output {
        self.visitor.simd_numeric(SimdNumericOperator::F32x4Nearest)
    }

    fn visit_f64x2_ceil(&mut self) -> A::Output {
        self.visitor.simd_numeric(SimdNumericOperator::F64x2Ceil)
    }

    fn visit_f64x2_floor(&mut self) -> A::Output {
        self.visitor.simd_numeric(SimdNumericOperator::F64x2Floor)
    }

    fn visit_f64x2_trunc(&mut self) -> A::Output {
        self.visitor.simd_numeric(SimdNumericOperator::F64x2Trunc)
    }

    fn visit_f64x2_nearest(&mut self) -> A::Output {
        self.visitor.simd_numeric(SimdNumericOperator::F64x2Nearest)
    }

    fn visit_f32x4_abs(&mut self) -> A::Output {
        self.visitor.simd_numeric(SimdNumericOperator::F32x4Abs)
    }

    fn visit_f32x4_neg(&mut self) -> A::Output {
        self.visitor.simd_numeric(SimdNumericOperator::F32x4Neg)
    }

    fn visit_f32x4_sqrt(&mut self) -> A::Output {
        self.visitor.simd_numeric(SimdNumericOperator::F32x4Sqrt)
    }

    fn visit_f32x4_add(&mut self) -> A::Output {
        self.visitor.simd_numeric(SimdNumericOperator::F32x4Add)
    }

    fn visit_f32x4_sub(&mut self) -> A::Output {
        self.visitor.simd_numeric(SimdNumericOperator::F32x4Sub)
    }

    fn visit_f32x4_mul(&mut self) -> A::Output {
        self.visitor.simd_numeric(SimdNumericOperator::F32x4Mul)
    }

    fn visit_f32x4_div(&mut self) -> A::Output {
        self.visitor.simd_numeric(SimdNumericOperator::F32x4Div)
    }

    fn visit_f32x4_min(&mut self) -> A::Output {
        self.visitor.simd_numeric(SimdNumericOperator::F32x4Min)
    }

    fn visit_f32x4_max(&mut self) -> A::Output {
        self.visitor.simd_numeric(SimdNumericOperator::F32x4Max)
    }

    fn visit_f32x4_pmin(&mut self) -> A::Output {
        self.visitor.simd_numeric(SimdNumericOperator::F32x4PMin)
    }

    fn visit_f32x4_pmax(&mut self) -> A::Output {
        self.visitor.simd_numeric(SimdNumericOperator::F32x4PMax)
    }

    fn visit_f64x2_abs(&mut self) -> A::Output {
        self.visitor.simd_numeric(SimdNumericOperator::F64x2Abs)
    }

    fn visit_f64x2_neg(&mut self) -> A::Output {
        self.visitor.simd_numeric(SimdNumericOperator::F64x2Neg)
    }

    fn visit_f64x2_sqrt(&mut self) -> A::Output {
        self.visitor.simd_numeric(SimdNumericOperator::F64x2Sqrt)
    }

    fn visit_f64x2_add(&mut self) -> A::Output {
        self.visitor.simd_numeric(SimdNumericOperator::F64x2Add)
    }

    fn visit_f64x2_sub(&mut self) -> A::Output {
        self.visitor.simd_numeric(SimdNumericOperator::F64x2Sub)
    }

    fn visit_f64x2_mul(&mut self) -> A::Output {
        self.visitor.simd_numeric(SimdNumericOperator::F64x2Mul)
    }

    fn visit_f64x2_div(&mut self) -> A::Output {
        self.visitor.simd_numeric(SimdNumericOperator::F64x2Div)
    }

    fn visit_f64x2_min(&mut self) -> A::Output {
        self.visitor.simd_numeric(SimdNumericOperator::F64x2Min)
    }

    fn visit_f64x2_max(&mut self) -> A::Output {
        self.visitor.simd_numeric(SimdNumericOperator::F64x2Max)
    }

    fn visit_f64x2_pmin(&mut self) -> A::Output {
        self.visitor.simd_numeric(SimdNumericOperator::F64x2PMin)
    }

    fn visit_f64x2_pmax(&mut self) -> A::Output {
        self.visitor.simd_numeric(SimdNumericOperator::F64x2PMax)
    }

    fn visit_f32x4_convert_i32x4_s(&mut self) -> A::Output {
        self.visitor
            .simd_numeric(SimdNumericOperator::F32x4ConvertI32x4S)
    }

    fn visit_f32x4_convert_i32x4_u(&mut self) -> A::Output {
        self.visitor
            .simd_numeric(SimdNumericOperator::F32x4ConvertI32x4U)
    }

    fn visit_f64x2_convert_low_i32x4_s(&mut self) -> A::Output {
        self.visitor
            .simd_numeric(SimdNumericOperator::F64x2ConvertLowI32x4S)
    }

    fn visit_f64x2_convert_low_i32x4_u(&mut self) -> A::Output {
        self.visitor
            .simd_numeric(SimdNumericOperator::F64x2ConvertLowI32x4U)
    }

    fn visit_f32x4_relaxed_madd(&mut self) -> A::Output {
        self.visitor
            .simd_numeric(SimdNumericOperator::F32x4RelaxedMadd)
    }

    fn visit_f32x4_relaxed_nmadd(&mut self) -> A::Output {
        self.visitor
            .simd_numeric(SimdNumericOperator::F32x4RelaxedNmadd)
    }

    fn visit_f64x2_relaxed_madd(&mut self) -> A::Output {
        self.visitor
            .simd_numeric(SimdNumericOperator::F64x2RelaxedMadd)
    }

    fn visit_f64x2_relaxed_nmadd(&mut self) -> A::Output {
        self.visitor
            .simd_numeric(SimdNumericOperator::F64x2RelaxedNmadd)
    }

    fn visit_f32x4_relaxed_min(&mut self) -> A::Output {
        self.visitor
            .simd_numeric(SimdNumericOperator::F32x4RelaxedMin)
    }

    fn visit_f32x4_relaxed_max(&mut self) -> A::Output {
        self.visitor
            .simd_numeric(SimdNumericOperator::F32x4RelaxedMax)
    }

    fn visit_f64x2_relaxed_min(&mut self) -> A::Output {
        self.visitor
            .simd_numeric(SimdNumericOperator::F64x2RelaxedMin)
    }

    fn visit_f64x2_relaxed_max(&mut self) -> A::Output {
        self.visitor
            .simd_numeric(SimdNumericOperator::F64x2RelaxedMax)
    }
}
