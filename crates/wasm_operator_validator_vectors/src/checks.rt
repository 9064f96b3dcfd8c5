//! The checks of operators on vectors: one for those that carry something, and one for the others.

ghost use Rattle.wasm_operators_enums.specs.Op.{Op};
ghost use Rattle.wasm_operator_validator_state.specs.State.{Checks};
ghost use Rattle.wasm_operator_validator_state.specs.Refusals.{refused};

use crate::accesses::{check_load, check_load_lane, check_store};
use crate::forms::{Form, form_of, has_float};
use crate::lanes::{check_lanes, check_numeric};
use wasm_operator_validator_memory::{OperatorValidator, Refusal, WasmModuleResources};
use wasm_operators_visit::{SimdNumericOperator, SimdOperator};
use wasm_types::ValType;

/// An operator on vectors that carries nothing (WebAssembly 3.0, validation, vector instructions).
pub fn check_simd_numeric<R: WasmModuleResources>(
    validator: &mut OperatorValidator,
    resources: &R,
    op: SimdNumericOperator,
) -> Result<(), Refusal>
    ensures { Checks (R.meaning resources.now) validator.old (Op.SimdNumeric op) (refused result) validator.new }
{
    let proposal = op.info().proposal;
    let floats = has_float(op);
    match form_of(op) {
        Form::Unary => check_numeric(
            validator,
            resources,
            op,
            proposal,
            floats,
            &[ValType::V128],
            &[ValType::V128],
        ),
        Form::Binary => check_numeric(
            validator,
            resources,
            op,
            proposal,
            floats,
            &[ValType::V128, ValType::V128],
            &[ValType::V128],
        ),
        Form::Ternary => check_numeric(
            validator,
            resources,
            op,
            proposal,
            floats,
            &[ValType::V128, ValType::V128, ValType::V128],
            &[ValType::V128],
        ),
        Form::Test => check_numeric(
            validator,
            resources,
            op,
            proposal,
            floats,
            &[ValType::V128],
            &[ValType::I32],
        ),
        Form::Shift => check_numeric(
            validator,
            resources,
            op,
            proposal,
            floats,
            &[ValType::V128, ValType::I32],
            &[ValType::V128],
        ),
        Form::SplatI32 => check_numeric(
            validator,
            resources,
            op,
            proposal,
            floats,
            &[ValType::I32],
            &[ValType::V128],
        ),
        Form::SplatI64 => check_numeric(
            validator,
            resources,
            op,
            proposal,
            floats,
            &[ValType::I64],
            &[ValType::V128],
        ),
        Form::SplatF32 => check_numeric(
            validator,
            resources,
            op,
            proposal,
            floats,
            &[ValType::F32],
            &[ValType::V128],
        ),
        Form::SplatF64 => check_numeric(
            validator,
            resources,
            op,
            proposal,
            floats,
            &[ValType::F64],
            &[ValType::V128],
        ),
    }
}

/// An operator on vectors that carries a memory argument, a lane, lanes or a vector (WebAssembly 3.0, validation, vector instructions and memory
/// instructions).
pub fn check_simd<R: WasmModuleResources>(
    validator: &mut OperatorValidator,
    resources: &R,
    op: SimdOperator,
) -> Result<(), Refusal>
    ensures { Checks (R.meaning resources.now) validator.old (Op.Simd op) (refused result) validator.new }
{
    match op {
        SimdOperator::V128Load { memarg } => check_load(validator, resources, op, &memarg),
        SimdOperator::V128Load8x8S { memarg } => check_load(validator, resources, op, &memarg),
        SimdOperator::V128Load8x8U { memarg } => check_load(validator, resources, op, &memarg),
        SimdOperator::V128Load16x4S { memarg } => check_load(validator, resources, op, &memarg),
        SimdOperator::V128Load16x4U { memarg } => check_load(validator, resources, op, &memarg),
        SimdOperator::V128Load32x2S { memarg } => check_load(validator, resources, op, &memarg),
        SimdOperator::V128Load32x2U { memarg } => check_load(validator, resources, op, &memarg),
        SimdOperator::V128Load8Splat { memarg } => check_load(validator, resources, op, &memarg),
        SimdOperator::V128Load16Splat { memarg } => check_load(validator, resources, op, &memarg),
        SimdOperator::V128Load32Splat { memarg } => check_load(validator, resources, op, &memarg),
        SimdOperator::V128Load64Splat { memarg } => check_load(validator, resources, op, &memarg),
        SimdOperator::V128Store { memarg } => check_store(validator, resources, op, &memarg),
        SimdOperator::V128Const { value: _ } => check_lanes(
            validator,
            resources,
            op,
            false,
            &[],
            &[ValType::V128],
        ),
        SimdOperator::I8x16Shuffle { lanes: _ } => check_lanes(
            validator,
            resources,
            op,
            false,
            &[ValType::V128, ValType::V128],
            &[ValType::V128],
        ),
        SimdOperator::I8x16ExtractLaneS { lane: _ } => check_lanes(
            validator,
            resources,
            op,
            false,
            &[ValType::V128],
            &[ValType::I32],
        ),
        SimdOperator::I8x16ExtractLaneU { lane: _ } => check_lanes(
            validator,
            resources,
            op,
            false,
            &[ValType::V128],
            &[ValType::I32],
        ),
        SimdOperator::I8x16ReplaceLane { lane: _ } => check_lanes(
            validator,
            resources,
            op,
            false,
            &[ValType::V128, ValType::I32],
            &[ValType::V128],
        ),
        SimdOperator::I16x8ExtractLaneS { lane: _ } => check_lanes(
            validator,
            resources,
            op,
            false,
            &[ValType::V128],
            &[ValType::I32],
        ),
        SimdOperator::I16x8ExtractLaneU { lane: _ } => check_lanes(
            validator,
            resources,
            op,
            false,
            &[ValType::V128],
            &[ValType::I32],
        ),
        SimdOperator::I16x8ReplaceLane { lane: _ } => check_lanes(
            validator,
            resources,
            op,
            false,
            &[ValType::V128, ValType::I32],
            &[ValType::V128],
        ),
        SimdOperator::I32x4ExtractLane { lane: _ } => check_lanes(
            validator,
            resources,
            op,
            false,
            &[ValType::V128],
            &[ValType::I32],
        ),
        SimdOperator::I32x4ReplaceLane { lane: _ } => check_lanes(
            validator,
            resources,
            op,
            false,
            &[ValType::V128, ValType::I32],
            &[ValType::V128],
        ),
        SimdOperator::I64x2ExtractLane { lane: _ } => check_lanes(
            validator,
            resources,
            op,
            false,
            &[ValType::V128],
            &[ValType::I64],
        ),
        SimdOperator::I64x2ReplaceLane { lane: _ } => check_lanes(
            validator,
            resources,
            op,
            false,
            &[ValType::V128, ValType::I64],
            &[ValType::V128],
        ),
        SimdOperator::F32x4ExtractLane { lane: _ } => check_lanes(
            validator,
            resources,
            op,
            true,
            &[ValType::V128],
            &[ValType::F32],
        ),
        SimdOperator::F32x4ReplaceLane { lane: _ } => check_lanes(
            validator,
            resources,
            op,
            true,
            &[ValType::V128, ValType::F32],
            &[ValType::V128],
        ),
        SimdOperator::F64x2ExtractLane { lane: _ } => check_lanes(
            validator,
            resources,
            op,
            true,
            &[ValType::V128],
            &[ValType::F64],
        ),
        SimdOperator::F64x2ReplaceLane { lane: _ } => check_lanes(
            validator,
            resources,
            op,
            true,
            &[ValType::V128, ValType::F64],
            &[ValType::V128],
        ),
        SimdOperator::V128Load8Lane { memarg, lane: _ } => check_load_lane(
            validator, resources, op, &memarg,
        ),
        SimdOperator::V128Load16Lane { memarg, lane: _ } => check_load_lane(
            validator, resources, op, &memarg,
        ),
        SimdOperator::V128Load32Lane { memarg, lane: _ } => check_load_lane(
            validator, resources, op, &memarg,
        ),
        SimdOperator::V128Load64Lane { memarg, lane: _ } => check_load_lane(
            validator, resources, op, &memarg,
        ),
        SimdOperator::V128Store8Lane { memarg, lane: _ } => check_store(
            validator, resources, op, &memarg,
        ),
        SimdOperator::V128Store16Lane { memarg, lane: _ } => check_store(
            validator, resources, op, &memarg,
        ),
        SimdOperator::V128Store32Lane { memarg, lane: _ } => check_store(
            validator, resources, op, &memarg,
        ),
        SimdOperator::V128Store64Lane { memarg, lane: _ } => check_store(
            validator, resources, op, &memarg,
        ),
        SimdOperator::V128Load32Zero { memarg } => check_load(validator, resources, op, &memarg),
        SimdOperator::V128Load64Zero { memarg } => check_load(validator, resources, op, &memarg),
    }
}
