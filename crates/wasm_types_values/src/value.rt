//! Value types, and what a field or an element stores.
use crate::reference::RefType;
use std::fmt::{self, Display};

/// A value type (WebAssembly 3.0, structure, value types).
#[derive(Clone, Copy, Debug, PartialEq, Eq, PartialOrd, Ord, Hash)]
pub enum ValType {
    /// A 32-bit integer.
    I32,
    /// A 64-bit integer.
    I64,
    /// A 32-bit float.
    F32,
    /// A 64-bit float.
    F64,
    /// A vector of 128 bits.
    V128,
    /// A reference.
    Ref(RefType),
}

impl ValType {
    ghost use Rattle.std.specs.Prelude.{◌≡◌};
    ghost use Rattle.wasm_types_values.specs.ValueKinds.{is_reference, reference_in, is_defaultable_type};

    /// `(ref null func)`.
    pub const FUNCREF: Self = ValType::Ref(RefType::FUNCREF);
    /// `(ref null extern)`.
    pub const EXTERNREF: Self = ValType::Ref(RefType::EXTERNREF);
    /// `(ref null exn)`.
    pub const EXNREF: Self = ValType::Ref(RefType::EXNREF);
    /// `(ref null cont)`.
    pub const CONTREF: Self = ValType::Ref(RefType::CONTREF);

    /// Whether it is a reference type.
    pub const fn is_reference_type(&self) -> bool
        ensures { result ≡ is_reference self.now }
    {
        matches!(self, ValType::Ref(_))
    }

    /// The reference type, if it is one.
    pub const fn as_reference_type(&self) -> Option<RefType>
        ensures { result ≡ reference_in self.now }
    {
        match *self {
            ValType::Ref(ty) => Some(ty),
            ValType::I32 | ValType::I64 | ValType::F32 | ValType::F64 | ValType::V128 => None,
        }
    }

    /// Whether it has a default value: each but a reference that is not null (WebAssembly 3.0, validation,
    /// defaultability).
    pub const fn is_defaultable(&self) -> bool
        ensures { result ≡ is_defaultable_type self.now }
    {
        match *self {
            ValType::Ref(ty) => ty.is_nullable(),
            ValType::I32 | ValType::I64 | ValType::F32 | ValType::F64 | ValType::V128 => true,
        }
    }
}

impl From<RefType> for ValType {
    ghost use Rattle.std.specs.Prelude.{◌≡◌};
    ghost use Rattle.wasm_types_values.specs.declared.value.ValType.{ValType};
    ghost use Rattle.wasm_types_values.specs.declared.value.ValType.TheVariants.{Ref};

    ghost from_gives = { λ r v. v ≡ Ref r };

    fn from(reference: RefType) -> ValType {
        ValType::Ref(reference)
    }
}

impl Display for ValType {
    ghost use Rattle.std.specs.Prelude.{Some};
    ghost use Rattle.wasm_types_values.specs.ValueText.{value_text};

    ghost output = { λ v. Some (value_text v) };

    fn fmt<W: fmt::Write>(&self, f: &mut fmt::Formatter<W>) -> fmt::Result {
        match self {
            ValType::I32 => f.write_str("i32"),
            ValType::I64 => f.write_str("i64"),
            ValType::F32 => f.write_str("f32"),
            ValType::F64 => f.write_str("f64"),
            ValType::V128 => f.write_str("v128"),
            ValType::Ref(ty) => ty.fmt(f),
        }
    }
}

/// What a field or an element stores (WebAssembly 3.0, structure, aggregate types).
#[derive(Clone, Copy, Debug, PartialEq, Eq, PartialOrd, Ord, Hash)]
pub enum StorageType {
    /// An 8-bit integer, read as `i32`.
    I8,
    /// A 16-bit integer, read as `i32`.
    I16,
    /// A value.
    Val(ValType),
}

impl StorageType {
    ghost use Rattle.std.specs.Prelude.{◌≡◌};
    ghost use Rattle.wasm_types_values.specs.ValueKinds.{is_packed_type, unpacked_type};

    /// Whether it is an integer of fewer bits than a value has.
    pub const fn is_packed(&self) -> bool
        ensures { result ≡ is_packed_type self.now }
    {
        match self {
            StorageType::I8 | StorageType::I16 => true,
            StorageType::Val(_) => false,
        }
    }

    /// The type of the value that is read (WebAssembly 3.0, structure, unpacking).
    pub const fn unpack(&self) -> ValType
        ensures { result ≡ unpacked_type self.now }
    {
        match *self {
            StorageType::I8 | StorageType::I16 => ValType::I32,
            StorageType::Val(ty) => ty,
        }
    }
}

impl Display for StorageType {
    ghost use Rattle.std.specs.Prelude.{Some};
    ghost use Rattle.wasm_types_values.specs.ValueText.{storage_text};

    ghost output = { λ v. Some (storage_text v) };

    fn fmt<W: fmt::Write>(&self, f: &mut fmt::Formatter<W>) -> fmt::Result {
        match self {
            StorageType::I8 => f.write_str("i8"),
            StorageType::I16 => f.write_str("i16"),
            StorageType::Val(ty) => ty.fmt(f),
        }
    }
}
