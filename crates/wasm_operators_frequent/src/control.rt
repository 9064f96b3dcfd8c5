//! Control and parametric operators.

ghost use Rattle.std.specs.Prelude.{◌≡◌, IfSome, IfNone};
ghost use Rattle.wasm_operators_frequent.specs.Short.{Begins, IsTold};

use crate::immediates::{block_type_at, zero_at};
use wasm_operators_visit_operator::VisitControl;
use wasm_types::WasmFeatures;
use wasm_types_decoding::short_u32_at;

/// An operator that carries nothing.
#[inline(always)]
pub fn short_alone<'a, V: VisitControl<'a>>(
    bytes: &'a [u8],
    at: usize,
    code: u8,
    features: WasmFeatures,
    visitor: &mut V,
) -> Option<(V::Output, usize)>
    requires { Begins bytes.now at code }
    ensures told { IfSome result (λ r. IsTold features.0 bytes.now at r.1
        (λ o. V.visits visitor.old o r.0 visitor.new)) }
    ensures none { IfNone result (visitor.new ≡ visitor.old) }
{
    match code {
        0x00 => Some((visitor.visit_unreachable(), at + 1)),
        0x01 => Some((visitor.visit_nop(), at + 1)),
        0x05 => Some((visitor.visit_else(), at + 1)),
        0x0b => Some((visitor.visit_end(), at + 1)),
        0x0f => Some((visitor.visit_return(), at + 1)),
        0x1a => Some((visitor.visit_drop(), at + 1)),
        0x1b => Some((visitor.visit_select(), at + 1)),
        _ => None,
    }
}

/// An operator that carries a block type.
#[inline(always)]
pub fn short_block<'a, V: VisitControl<'a>>(
    bytes: &'a [u8],
    at: usize,
    code: u8,
    features: WasmFeatures,
    visitor: &mut V,
) -> Option<(V::Output, usize)>
    requires { Begins bytes.now at code }
    ensures told { IfSome result (λ r. IsTold features.0 bytes.now at r.1
        (λ o. V.visits visitor.old o r.0 visitor.new)) }
    ensures none { IfNone result (visitor.new ≡ visitor.old) }
{
    let Some((ty, end)) = block_type_at(bytes, at + 1) else {
        return None;
    };
    match code {
        0x02 => Some((visitor.visit_block(ty), end)),
        0x03 => Some((visitor.visit_loop(ty), end)),
        0x04 => Some((visitor.visit_if(ty), end)),
        _ => None,
    }
}

/// An operator that carries a label or the index of a function.
#[inline(always)]
pub fn short_index<'a, V: VisitControl<'a>>(
    bytes: &'a [u8],
    at: usize,
    code: u8,
    features: WasmFeatures,
    visitor: &mut V,
) -> Option<(V::Output, usize)>
    requires { Begins bytes.now at code }
    ensures told { IfSome result (λ r. IsTold features.0 bytes.now at r.1
        (λ o. V.visits visitor.old o r.0 visitor.new)) }
    ensures none { IfNone result (visitor.new ≡ visitor.old) }
{
    let Some((index, end)) = short_u32_at(bytes, at + 1) else {
        return None;
    };
    match code {
        0x0c => Some((visitor.visit_br(index), end)),
        0x0d => Some((visitor.visit_br_if(index), end)),
        0x10 => Some((visitor.visit_call(index), end)),
        _ => None,
    }
}

/// A call through a table, which carries the index of a type and that of the table.
#[inline(always)]
pub fn short_indirect<'a, V: VisitControl<'a>>(
    bytes: &'a [u8],
    at: usize,
    code: u8,
    features: WasmFeatures,
    visitor: &mut V,
) -> Option<(V::Output, usize)>
    requires { Begins bytes.now at code }
    ensures told { IfSome result (λ r. IsTold features.0 bytes.now at r.1
        (λ o. V.visits visitor.old o r.0 visitor.new)) }
    ensures none { IfNone result (visitor.new ≡ visitor.old) }
{
    let Some((type_index, middle)) = short_u32_at(bytes, at + 1) else {
        return None;
    };
    let Some((table_index, end)) = zero_at(bytes, middle) else {
        return None;
    };
    match code {
        0x11 => Some((visitor.visit_call_indirect(type_index, table_index), end)),
        _ => None,
    }
}
