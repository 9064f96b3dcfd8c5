//! Operators on numbers.

ghost use Rattle.std.specs.Prelude.{◌≡◌, ◌<◌, IfSome};
ghost use Rattle.wasm_operators_enums.specs.Op.{op_of};
ghost use Rattle.wasm_operators_frequent.specs.Short.{Begins, BeginsPrefixed, IsTold};

use wasm_operators_decode_memory::{numeric_of, numeric_prefixed_of};
use wasm_operators_visit::Operator;
use wasm_types::WasmFeatures;

/// An operator on numbers, of one byte.
#[inline(always)]
pub(crate) fn numeric<'a>(
    bytes: &'a [u8],
    at: usize,
    code: u8,
    features: WasmFeatures,
) -> Option<(Operator<'a>, usize)>
    requires begins { Begins bytes.now at code }
    requires low { code < 0xfb }
    ensures { IfSome result (λ r. IsTold features.0 bytes.now at r.1 (λ o. o ≡ op_of r.0)) }
{
    let Some(op) = numeric_of(code as u32) else {
        return None;
    };
    Some((Operator::Numeric(op), at + 1))
}

/// An operator on numbers behind the prefix `fc`, the code of which ends at `end`.
#[inline(always)]
pub(crate) fn numeric_prefixed<'a>(
    bytes: &'a [u8],
    at: usize,
    code: u32,
    end: usize,
    features: WasmFeatures,
) -> Option<(Operator<'a>, usize)>
    requires { BeginsPrefixed bytes.now at 0xfc code end }
    ensures { IfSome result (λ r. IsTold features.0 bytes.now at r.1 (λ o. o ≡ op_of r.0)) }
{
    let Some(op) = numeric_prefixed_of(code) else {
        return None;
    };
    Some((Operator::Numeric(op), end))
}
