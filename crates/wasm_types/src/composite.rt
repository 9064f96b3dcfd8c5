//! Composite types.

ghost use Rattle.std.specs.Prelude.{Some};
ghost use Rattle.std.specs.Fmt.{DisplaysOnOk};
ghost use Rattle.wasm_types.specs.Text.{prefix_text, described_text};

use std::fmt::{self, Display};
use wasm_types_fields::{ArrayType, ContType, FuncType, PackedIndex, StructType};

/// A composite type by its constructor (WebAssembly 3.0, structure, composite types).
#[derive(Clone, Debug, Drop, PartialEq, Eq, PartialOrd, Ord, Hash)]
pub enum CompositeInnerType {
    /// A function.
    Func(FuncType),
    /// An array.
    Array(ArrayType),
    /// A struct.
    Struct(StructType),
    /// A continuation.
    Cont(ContType),
}

impl Display for CompositeInnerType {
    ghost use Rattle.std.specs.Prelude.{Some};
    ghost use Rattle.wasm_types.specs.Text.{inner_text};

    ghost output = { λ t. Some (inner_text t) };

    fn fmt<W: fmt::Write>(&self, f: &mut fmt::Formatter<W>) -> fmt::Result {
        match self {
            CompositeInnerType::Func(ty) => ty.fmt(f),
            CompositeInnerType::Array(ty) => ty.fmt(f),
            CompositeInnerType::Struct(ty) => ty.fmt(f),
            CompositeInnerType::Cont(ty) => ty.fmt(f),
        }
    }
}

/// A composite type, with what the proposals on shared everything and on custom descriptors put before it.
#[derive(Clone, Debug, Drop, PartialEq, Eq, PartialOrd, Ord, Hash)]
pub struct CompositeType {
    /// The type itself.
    pub inner: CompositeInnerType,
    /// Whether its values are shared between threads.
    pub shared: bool,
    /// The type that describes this one, if any.
    pub descriptor_idx: Option<PackedIndex>,
    /// The type that this one describes, if any.
    pub describes_idx: Option<PackedIndex>,
}

impl CompositeType {
    ghost use Rattle.std.specs.Prelude.{◌≡◌, Some, IsSome};
    ghost use Rattle.wasm_types.specs.Kinds.{func_in, array_in, struct_in, cont_in};

    /// The function type that it is.
    pub fn unwrap_func(&self) -> &FuncType
        requires { IsSome (func_in self.now.inner) }
        ensures { func_in self.now.inner ≡ Some result.now }
    {
        match &self.inner {
            CompositeInnerType::Func(ty) => ty,
            _ => unreachable!(),
        }
    }

    /// The array type that it is.
    pub fn unwrap_array(&self) -> &ArrayType
        requires { IsSome (array_in self.now.inner) }
        ensures { array_in self.now.inner ≡ Some result.now }
    {
        match &self.inner {
            CompositeInnerType::Array(ty) => ty,
            _ => unreachable!(),
        }
    }

    /// The struct type that it is.
    pub fn unwrap_struct(&self) -> &StructType
        requires { IsSome (struct_in self.now.inner) }
        ensures { struct_in self.now.inner ≡ Some result.now }
    {
        match &self.inner {
            CompositeInnerType::Struct(ty) => ty,
            _ => unreachable!(),
        }
    }

    /// The continuation type that it is.
    pub fn unwrap_cont(&self) -> &ContType
        requires { IsSome (cont_in self.now.inner) }
        ensures { cont_in self.now.inner ≡ Some result.now }
    {
        match &self.inner {
            CompositeInnerType::Cont(ty) => ty,
            _ => unreachable!(),
        }
    }
}

// A word and an index, if there is one.
fn write_prefix<W: fmt::Write>(
    f: &mut fmt::Formatter<W>,
    word: &str,
    index: Option<PackedIndex>,
) -> fmt::Result
    ensures { DisplaysOnOk W.write_str_gives f.old result (Some (prefix_text word.now index)) f.new }
{
    match index {
        Some(index) => write!(f, "({word} {index}) "),
        None => Ok(()),
    }
}

// The type with what it describes and its descriptor.
fn write_described<W: fmt::Write>(f: &mut fmt::Formatter<W>, ty: &CompositeType) -> fmt::Result
    ensures { DisplaysOnOk W.write_str_gives f.old result (Some (described_text ty.now)) f.new }
{
    write_prefix(f, "describes", ty.describes_idx)?;
    write_prefix(f, "descriptor", ty.descriptor_idx)?;
    ty.inner.fmt(f)
}

impl Display for CompositeType {
    ghost use Rattle.std.specs.Prelude.{Some};
    ghost use Rattle.wasm_types.specs.Text.{composite_text};

    ghost output = { λ t. Some (composite_text t) };

    fn fmt<W: fmt::Write>(&self, f: &mut fmt::Formatter<W>) -> fmt::Result {
        if !self.shared {
            return write_described(f, self);
        }
        f.write_str("(shared ")?;
        write_described(f, self)?;
        f.write_str(")")
    }
}
