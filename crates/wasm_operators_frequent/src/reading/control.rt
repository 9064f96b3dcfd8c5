//! Control and parametric operators.

ghost use Rattle.std.specs.Prelude.{◌≡◌, IfSome};
ghost use Rattle.wasm_operators_enums.specs.Op.{op_of};
ghost use Rattle.wasm_operators_frequent.specs.Short.{Begins, IsTold};

use crate::{block_type_at, zero_at};
use wasm_operators_visit::{ControlOperator, Operator, ParametricOperator};
use wasm_types::WasmFeatures;
use wasm_types_decoding::short_u32_at;

/// An operator that carries nothing.
#[inline(always)]
pub(crate) fn control_alone<'a>(
    bytes: &'a [u8],
    at: usize,
    code: u8,
    features: WasmFeatures,
) -> Option<(Operator<'a>, usize)>
    requires { Begins bytes.now at code }
    ensures { IfSome result (λ r. IsTold features.0 bytes.now at r.1 (λ o. o ≡ op_of r.0)) }
{
    match code {
        0x00 => Some((Operator::Control(ControlOperator::Unreachable), at + 1)),
        0x01 => Some((Operator::Control(ControlOperator::Nop), at + 1)),
        0x05 => Some((Operator::Control(ControlOperator::Else), at + 1)),
        0x0b => Some((Operator::Control(ControlOperator::End), at + 1)),
        0x0f => Some((Operator::Control(ControlOperator::Return), at + 1)),
        0x1a => Some((Operator::Parametric(ParametricOperator::Drop), at + 1)),
        0x1b => Some((Operator::Parametric(ParametricOperator::Select), at + 1)),
        _ => None,
    }
}

/// An operator that carries a block type.
#[inline(always)]
pub(crate) fn control_block<'a>(
    bytes: &'a [u8],
    at: usize,
    code: u8,
    features: WasmFeatures,
) -> Option<(Operator<'a>, usize)>
    requires { Begins bytes.now at code }
    ensures { IfSome result (λ r. IsTold features.0 bytes.now at r.1 (λ o. o ≡ op_of r.0)) }
{
    let Some((ty, end)) = block_type_at(bytes, at + 1) else {
        return None;
    };
    match code {
        0x02 => Some((
            Operator::Control(ControlOperator::Block { blockty: ty }),
            end,
        )),
        0x03 => Some((
            Operator::Control(ControlOperator::Loop { blockty: ty }),
            end,
        )),
        0x04 => Some((Operator::Control(ControlOperator::If { blockty: ty }), end)),
        _ => None,
    }
}

/// An operator that carries a label or the index of a function.
#[inline(always)]
pub(crate) fn control_index<'a>(
    bytes: &'a [u8],
    at: usize,
    code: u8,
    features: WasmFeatures,
) -> Option<(Operator<'a>, usize)>
    requires { Begins bytes.now at code }
    ensures { IfSome result (λ r. IsTold features.0 bytes.now at r.1 (λ o. o ≡ op_of r.0)) }
{
    let Some((index, end)) = short_u32_at(bytes, at + 1) else {
        return None;
    };
    match code {
        0x0c => Some((
            Operator::Control(ControlOperator::Br {
                relative_depth: index,
            }),
            end,
        )),
        0x0d => Some((
            Operator::Control(ControlOperator::BrIf {
                relative_depth: index,
            }),
            end,
        )),
        0x10 => Some((
            Operator::Control(ControlOperator::Call {
                function_index: index,
            }),
            end,
        )),
        _ => None,
    }
}

/// A call through a table, which carries the index of a type and that of the table.
#[inline(always)]
pub(crate) fn control_indirect<'a>(
    bytes: &'a [u8],
    at: usize,
    code: u8,
    features: WasmFeatures,
) -> Option<(Operator<'a>, usize)>
    requires { Begins bytes.now at code }
    ensures { IfSome result (λ r. IsTold features.0 bytes.now at r.1 (λ o. o ≡ op_of r.0)) }
{
    let Some((type_index, middle)) = short_u32_at(bytes, at + 1) else {
        return None;
    };
    let Some((table_index, end)) = zero_at(bytes, middle) else {
        return None;
    };
    match code {
        0x11 => Some((
            Operator::Control(ControlOperator::CallIndirect {
                type_index,
                table_index,
            }),
            end,
        )),
        _ => None,
    }
}
