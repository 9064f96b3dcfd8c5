//! Operators on numbers.

ghost use Rattle.std.specs.Prelude.{◌≡◌, ◌<◌, IfSome, IfNone};
ghost use Rattle.wasm_operators_frequent.specs.Short.{Begins, BeginsPrefixed, IsTold};

use wasm_operators_decode_memory::{numeric_of, numeric_prefixed_of};
use wasm_operators_visit_operator::{VisitFloats, VisitIntegers, visit_numeric};
use wasm_types::WasmFeatures;

/// An operator on numbers, of one byte.
#[inline(always)]
pub fn short_number<'a, V: VisitIntegers<'a> + VisitFloats<'a>>(
    bytes: &'a [u8],
    at: usize,
    code: u8,
    features: WasmFeatures,
    visitor: &mut V,
) -> Option<(V::Output, usize)>
    requires begins { Begins bytes.now at code }
    requires low { code < 0xfb }
    ensures told { IfSome result (λ r. IsTold features.0 bytes.now at r.1
        (λ o. V.visits visitor.old o r.0 visitor.new)) }
    ensures none { IfNone result (visitor.new ≡ visitor.old) }
{
    let Some(op) = numeric_of(code as u32) else {
        return None;
    };
    let answer = visit_numeric(visitor, op);
    Some((answer, at + 1))
}

/// An operator on numbers behind the prefix `fc`, the code of which ends at `end`.
#[inline(always)]
pub(crate) fn numeric_prefixed<'a, V: VisitIntegers<'a> + VisitFloats<'a>>(
    bytes: &'a [u8],
    at: usize,
    code: u32,
    end: usize,
    features: WasmFeatures,
    visitor: &mut V,
) -> Option<(V::Output, usize)>
    requires { BeginsPrefixed bytes.now at 0xfc code end }
    ensures told { IfSome result (λ r. IsTold features.0 bytes.now at r.1
        (λ o. V.visits visitor.old o r.0 visitor.new)) }
    ensures none { IfNone result (visitor.new ≡ visitor.old) }
{
    let Some(op) = numeric_prefixed_of(code) else {
        return None;
    };
    let answer = visit_numeric(visitor, op);
    Some((answer, end))
}
