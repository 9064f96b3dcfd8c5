//! Which operators are on vectors.

ghost use Rattle.std.specs.Prelude.{◌≡◌};
ghost use Rattle.wasm_operators_enums.specs.Op.{op_of};
ghost use Rattle.wasm_operators_enums.specs.Vectors.{is_simd};

use crate::Operator;

/// Whether an operator is one on vectors (WebAssembly 3.0, structure, vector instructions).
#[inline]
pub fn is_simd(op: &Operator) -> bool
    ensures { result ≡ is_simd (op_of op.now) }
{
    matches!(op, Operator::Simd(_) | Operator::SimdNumeric(_))
}
