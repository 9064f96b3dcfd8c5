//! What is known of an operand, in eight bytes.

ghost use Rattle.std.specs.Prelude.{◌≡◌, Option};
ghost use Rattle.wasm_operator_validator_state.specs.declared.operand.MaybeType.TheVariants.{Known, UnknownRef};
ghost use Rattle.wasm_operator_validator_state.specs.Packed.{known_of};

use crate::MaybeType;
use std::marker::Model;
use wasm_types::{AbstractHeapType, RefType, ValType};

/// What is known of an operand, as stacks hold it: one byte tells the type of a number, so one comparison does. A contract sees the
/// [`MaybeType`].
#[derive(Clone, Copy)]
pub struct Operand {
    kind: Kind,
}

// The same as one enum: the types first, in the order of `ValType`. Only a reference whose type is known carries something.
#[derive(Clone, Copy)]
pub(crate) enum Kind {
    I32,
    I64,
    F32,
    F64,
    V128,
    Ref(RefType),
    Bottom,
    Unknown,
    UnknownFunc,
    UnknownExtern,
    UnknownAny,
    UnknownNone,
    UnknownNoExtern,
    UnknownNoFunc,
    UnknownEq,
    UnknownStruct,
    UnknownArray,
    UnknownI31,
    UnknownExn,
    UnknownNoExn,
    UnknownCont,
    UnknownNoCont,
}

impl Model for Operand {
    ghost use Rattle.std.proofs.Common.{ap};
    ghost use Rattle.wasm_operator_validator_state.specs.declared.operand.MaybeType.{MaybeType as TheMaybeType};
    ghost use Rattle.wasm_operator_validator_state.specs.declared.packed.Kind.{Kind as TheKind};
    ghost use Rattle.wasm_operator_validator_state.specs.Packed.{kind_of, known_of};
    ghost use Rattle.wasm_operator_validator_state.specs.PackedLaws.{same_kind};

    ghost Value = { TheMaybeType };

    ghost view = { λ o. known_of o.kind };

    ghost inverse = { λ m. record { kind = kind_of m } };

    ghost inverse_ok = { λ o h. ap (λ (k : TheKind). record { kind = k }) (same_kind o.kind) };
}

impl Operand {
    /// The same in eight bytes.
    #[inline(always)]
    pub fn new(known: MaybeType) -> Operand
        ensures { result ≡ known }
    {
        match known {
            MaybeType::Bottom => Operand { kind: Kind::Bottom },
            MaybeType::UnknownRef(ty) => unknown(ty),
            MaybeType::Known(ty) => of_type(ty),
        }
    }

    /// What is known.
    #[inline(always)]
    pub fn get(self) -> MaybeType
        ensures { result ≡ self }
    {
        known_kind(self.kind)
    }
}

// What this kind says. It stands apart: a pattern that takes a `RefType` out of a field of `self` meets a fault of the kit.
#[inline(always)]
fn known_kind(kind: Kind) -> MaybeType
    ensures { result ≡ known_of kind }
{
    match kind {
        Kind::I32 => MaybeType::Known(ValType::I32),
        Kind::I64 => MaybeType::Known(ValType::I64),
        Kind::F32 => MaybeType::Known(ValType::F32),
        Kind::F64 => MaybeType::Known(ValType::F64),
        Kind::V128 => MaybeType::Known(ValType::V128),
        Kind::Ref(ty) => MaybeType::Known(ValType::Ref(ty)),
        Kind::Bottom => MaybeType::Bottom,
        Kind::Unknown => MaybeType::UnknownRef(None),
        Kind::UnknownFunc => MaybeType::UnknownRef(Some(AbstractHeapType::Func)),
        Kind::UnknownExtern => MaybeType::UnknownRef(Some(AbstractHeapType::Extern)),
        Kind::UnknownAny => MaybeType::UnknownRef(Some(AbstractHeapType::Any)),
        Kind::UnknownNone => MaybeType::UnknownRef(Some(AbstractHeapType::None)),
        Kind::UnknownNoExtern => MaybeType::UnknownRef(Some(AbstractHeapType::NoExtern)),
        Kind::UnknownNoFunc => MaybeType::UnknownRef(Some(AbstractHeapType::NoFunc)),
        Kind::UnknownEq => MaybeType::UnknownRef(Some(AbstractHeapType::Eq)),
        Kind::UnknownStruct => MaybeType::UnknownRef(Some(AbstractHeapType::Struct)),
        Kind::UnknownArray => MaybeType::UnknownRef(Some(AbstractHeapType::Array)),
        Kind::UnknownI31 => MaybeType::UnknownRef(Some(AbstractHeapType::I31)),
        Kind::UnknownExn => MaybeType::UnknownRef(Some(AbstractHeapType::Exn)),
        Kind::UnknownNoExn => MaybeType::UnknownRef(Some(AbstractHeapType::NoExn)),
        Kind::UnknownCont => MaybeType::UnknownRef(Some(AbstractHeapType::Cont)),
        Kind::UnknownNoCont => MaybeType::UnknownRef(Some(AbstractHeapType::NoCont)),
    }
}

// An operand of this type.
#[inline(always)]
fn of_type(ty: ValType) -> Operand
    ensures { result ≡ Known ty }
{
    match ty {
        ValType::I32 => Operand { kind: Kind::I32 },
        ValType::I64 => Operand { kind: Kind::I64 },
        ValType::F32 => Operand { kind: Kind::F32 },
        ValType::F64 => Operand { kind: Kind::F64 },
        ValType::V128 => Operand { kind: Kind::V128 },
        ValType::Ref(ty) => Operand {
            kind: Kind::Ref(ty),
        },
    }
}

// A reference of which no more is known than this abstract type, if one is named.
fn unknown(ty: Option<AbstractHeapType>) -> Operand
    ensures { result ≡ UnknownRef ty }
{
    match ty {
        None => Operand {
            kind: Kind::Unknown,
        },
        Some(ty) => unknown_of(ty),
    }
}

// The same where one is named.
fn unknown_of(ty: AbstractHeapType) -> Operand
    ensures { result ≡ UnknownRef (Option.Some ty) }
{
    match ty {
        AbstractHeapType::Func => Operand {
            kind: Kind::UnknownFunc,
        },
        AbstractHeapType::Extern => Operand {
            kind: Kind::UnknownExtern,
        },
        AbstractHeapType::Any => Operand {
            kind: Kind::UnknownAny,
        },
        AbstractHeapType::None => Operand {
            kind: Kind::UnknownNone,
        },
        AbstractHeapType::NoExtern => Operand {
            kind: Kind::UnknownNoExtern,
        },
        AbstractHeapType::NoFunc => Operand {
            kind: Kind::UnknownNoFunc,
        },
        AbstractHeapType::Eq => Operand {
            kind: Kind::UnknownEq,
        },
        AbstractHeapType::Struct => Operand {
            kind: Kind::UnknownStruct,
        },
        AbstractHeapType::Array => Operand {
            kind: Kind::UnknownArray,
        },
        AbstractHeapType::I31 => Operand {
            kind: Kind::UnknownI31,
        },
        AbstractHeapType::Exn => Operand {
            kind: Kind::UnknownExn,
        },
        AbstractHeapType::NoExn => Operand {
            kind: Kind::UnknownNoExn,
        },
        AbstractHeapType::Cont => Operand {
            kind: Kind::UnknownCont,
        },
        AbstractHeapType::NoCont => Operand {
            kind: Kind::UnknownNoCont,
        },
    }
}
