//! Subtypes.

ghost use Rattle.std.specs.Prelude.{Some};
ghost use Rattle.std.specs.Fmt.{DisplaysOnOk};
ghost use Rattle.std.specs.List.{flat_map};
ghost use Rattle.wasm_types.specs.Text.{supertype_text};

use crate::{CompositeInnerType, CompositeType};
use std::alloc::Global;
use std::fmt::{self, Display};
use wasm_types_fields::{ArrayType, ContType, FuncType, PackedIndex, StructType};

/// A composite type in the order of types (WebAssembly 3.0, structure, recursive types).
#[derive(Clone, Debug, Drop, PartialEq, Eq, PartialOrd, Ord, Hash)]
pub struct SubType {
    /// Whether no type may be declared below it.
    pub is_final: bool,
    /// The types that it is declared below. A valid type has at most one.
    pub supertype_idxs: Vec<PackedIndex>,
    /// The type itself.
    pub composite_type: CompositeType,
}

impl SubType {
    ghost use Rattle.std.specs.Prelude.{◌≡◌, [], true, Some, None, IsSome};
    ghost use Rattle.wasm_types.specs.Kinds.{func_in, array_in, struct_in, cont_in};

    /// A function type alone: final, and without a supertype. It takes no memory.
    pub fn func(alloc: Global, signature: FuncType, shared: bool) -> SubType
        ensures is_final { result.is_final ≡ true }
        ensures supertypes { result.supertype_idxs.items ≡ [] }
        ensures signature { result.composite_type.inner ≡ CompositeInnerType.Func signature }
        ensures shared { result.composite_type.shared ≡ shared }
        ensures descriptor { result.composite_type.descriptor_idx ≡ None }
        ensures describes { result.composite_type.describes_idx ≡ None }
    {
        SubType {
            is_final: true,
            supertype_idxs: Vec::new(alloc),
            composite_type: CompositeType {
                inner: CompositeInnerType::Func(signature),
                shared,
                descriptor_idx: None,
                describes_idx: None,
            },
        }
    }

    /// The function type that it is.
    pub fn unwrap_func(&self) -> &FuncType
        requires { IsSome (func_in self.now.composite_type.inner) }
        ensures { func_in self.now.composite_type.inner ≡ Some result.now }
    {
        self.composite_type.unwrap_func()
    }

    /// The array type that it is.
    pub fn unwrap_array(&self) -> &ArrayType
        requires { IsSome (array_in self.now.composite_type.inner) }
        ensures { array_in self.now.composite_type.inner ≡ Some result.now }
    {
        self.composite_type.unwrap_array()
    }

    /// The struct type that it is.
    pub fn unwrap_struct(&self) -> &StructType
        requires { IsSome (struct_in self.now.composite_type.inner) }
        ensures { struct_in self.now.composite_type.inner ≡ Some result.now }
    {
        self.composite_type.unwrap_struct()
    }

    /// The continuation type that it is.
    pub fn unwrap_cont(&self) -> &ContType
        requires { IsSome (cont_in self.now.composite_type.inner) }
        ensures { cont_in self.now.composite_type.inner ≡ Some result.now }
    {
        self.composite_type.unwrap_cont()
    }
}

impl Display for SubType {
    ghost use Rattle.std.specs.Prelude.{Some};
    ghost use Rattle.wasm_types.specs.Text.{sub_text};

    ghost output = { λ t. Some (sub_text t) };

    fn fmt<W: fmt::Write>(&self, f: &mut fmt::Formatter<W>) -> fmt::Result {
        let composite_type = &self.composite_type;
        let supertypes = self.supertype_idxs.as_slice();
        if self.is_final && supertypes.is_empty() {
            return composite_type.fmt(f);
        }
        if self.is_final {
            f.write_str("(sub final ")?;
        } else {
            f.write_str("(sub ")?;
        }
        write_supertypes(f, supertypes)?;
        write!(f, "{composite_type})")
    }
}

// The supertypes, each with a space behind it.
fn write_supertypes<W: fmt::Write>(
    f: &mut fmt::Formatter<W>,
    supertypes: &[PackedIndex],
) -> fmt::Result
    ensures { DisplaysOnOk W.write_str_gives f.old result (Some (flat_map supertype_text supertypes.now)) f.new }
{
    for index in supertypes {
        write!(f, "{index} ")?;
    }
    Ok(())
}
