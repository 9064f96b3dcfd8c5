//! Operators on whole memories.

ghost use Rattle.std.specs.Prelude.{◌≡◌, IfSome, IfNone};
ghost use Rattle.wasm_operators_frequent.specs.Short.{BeginsPrefixed, IsTold};

use wasm_operators_visit_operator::VisitMemory;
use wasm_types::WasmFeatures;
use wasm_types_decoding::short_u32_at;

/// The copy of bytes between memories, behind the prefix `fc`; its code ends at `middle`.
#[inline(always)]
pub(crate) fn memory_copy<'a, V: VisitMemory<'a>>(
    bytes: &'a [u8],
    at: usize,
    code: u32,
    middle: usize,
    features: WasmFeatures,
    visitor: &mut V,
) -> Option<(V::Output, usize)>
    requires { BeginsPrefixed bytes.now at 0xfc code middle }
    ensures told { IfSome result (λ r. IsTold features.0 bytes.now at r.1
        (λ o. V.visits visitor.old o r.0 visitor.new)) }
    ensures none { IfNone result (visitor.new ≡ visitor.old) }
{
    let Some((dst_mem, next)) = short_u32_at(bytes, middle) else {
        return None;
    };
    let Some((src_mem, end)) = short_u32_at(bytes, next) else {
        return None;
    };
    match code {
        0x0a => Some((visitor.visit_memory_copy(dst_mem, src_mem), end)),
        _ => None,
    }
}

/// The filling of a memory with a byte, behind the prefix `fc`; its code ends at `middle`.
#[inline(always)]
pub(crate) fn memory_fill<'a, V: VisitMemory<'a>>(
    bytes: &'a [u8],
    at: usize,
    code: u32,
    middle: usize,
    features: WasmFeatures,
    visitor: &mut V,
) -> Option<(V::Output, usize)>
    requires { BeginsPrefixed bytes.now at 0xfc code middle }
    ensures told { IfSome result (λ r. IsTold features.0 bytes.now at r.1
        (λ o. V.visits visitor.old o r.0 visitor.new)) }
    ensures none { IfNone result (visitor.new ≡ visitor.old) }
{
    let Some((mem, end)) = short_u32_at(bytes, middle) else {
        return None;
    };
    match code {
        0x0b => Some((visitor.visit_memory_fill(mem), end)),
        _ => None,
    }
}
