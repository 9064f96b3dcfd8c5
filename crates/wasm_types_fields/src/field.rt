//! Fields, and the types that are made of them.

use std::fmt::{self, Display};
use wasm_types_values::StorageType;

/// A field of a struct, or the element of an array (WebAssembly 3.0, structure, aggregate types).
#[derive(Clone, Copy, Debug, PartialEq, Eq, PartialOrd, Ord, Hash)]
pub struct FieldType {
    /// What it stores.
    pub element_type: StorageType,
    /// Whether it may be written.
    pub mutable: bool,
}

/// An array, by its element.
#[derive(Clone, Copy, Debug, PartialEq, Eq, PartialOrd, Ord, Hash)]
pub struct ArrayType(pub FieldType);

/// A struct, by its fields.
#[derive(Clone, Debug, Drop, PartialEq, Eq, PartialOrd, Ord, Hash)]
pub struct StructType {
    /// The fields, in order.
    pub fields: Vec<FieldType>,
}

impl Display for FieldType {
    ghost use Rattle.std.specs.Prelude.{Some};
    ghost use Rattle.wasm_types_fields.specs.Text.{field_text};

    ghost output = { λ x. Some (field_text x) };

    fn fmt<W: fmt::Write>(&self, f: &mut fmt::Formatter<W>) -> fmt::Result {
        let element = self.element_type;
        if self.mutable {
            write!(f, "(mut {element})")
        } else {
            element.fmt(f)
        }
    }
}

impl Display for ArrayType {
    ghost use Rattle.std.specs.Prelude.{Some};
    ghost use Rattle.wasm_types_fields.specs.Text.{array_text};

    ghost output = { λ a. Some (array_text a) };

    fn fmt<W: fmt::Write>(&self, f: &mut fmt::Formatter<W>) -> fmt::Result {
        let element = self.0;
        write!(f, "(array {element})")
    }
}

impl Display for StructType {
    ghost use Rattle.std.specs.Prelude.{Some};
    ghost use Rattle.wasm_types_fields.specs.Text.{struct_text};

    ghost output = { λ s. Some (struct_text s.fields.items) };

    fn fmt<W: fmt::Write>(&self, f: &mut fmt::Formatter<W>) -> fmt::Result {
        f.write_str("(struct")?;
        for field in self.fields.as_slice() {
            write!(f, " {field}")?;
        }
        f.write_str(")")
    }
}
