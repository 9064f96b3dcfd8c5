//! Types copied into lists of operands.

ghost use Rattle.std.specs.Prelude.{◌≡◌};

use wasm_types::ValType;

/// The same type, where it is wanted more than once.
#[inline]
pub const fn copied(ty: &ValType) -> ValType
    ensures { result ≡ ty.now }
{
    *ty
}
