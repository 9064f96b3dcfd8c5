//! What is known of an operand.

use wasm_types::{AbstractHeapType, RefType, ValType};

/// What is known of an operand: nothing, that it is a reference (and perhaps of which abstract type), or its type.
#[derive(Clone, Copy, Debug, PartialEq, Eq)]
pub enum MaybeType {
    /// Nothing: it fits every type.
    Bottom,
    /// That it is a reference that is not null, to this abstract type, shared or not, if one is named.
    UnknownRef(Option<AbstractHeapType>),
    /// Its type.
    Known(ValType),
}

impl From<ValType> for MaybeType {
    ghost use Rattle.std.specs.Prelude.{◌≡◌};
    ghost use Rattle.wasm_operator_validator_state.specs.declared.operand.MaybeType.TheVariants.{Known};

    ghost from_gives = { λ t m. m ≡ Known t };

    fn from(ty: ValType) -> MaybeType {
        MaybeType::Known(ty)
    }
}

impl From<RefType> for MaybeType {
    ghost use Rattle.std.specs.Prelude.{◌≡◌};
    ghost use Rattle.wasm_types.specs.values.declared.value.ValType.TheVariants.{Ref};
    ghost use Rattle.wasm_operator_validator_state.specs.declared.operand.MaybeType.TheVariants.{Known};

    ghost from_gives = { λ r m. m ≡ Known (Ref r) };

    fn from(ty: RefType) -> MaybeType {
        MaybeType::Known(ValType::Ref(ty))
    }
}
