//! Continuation types.

use std::fmt::{self, Display};
use wasm_types_values::PackedIndex;

/// A continuation, by its function type (the proposal on stack switching).
#[derive(Clone, Copy, Debug, PartialEq, Eq, PartialOrd, Ord, Hash)]
pub struct ContType(pub PackedIndex);

impl Display for ContType {
    ghost use Rattle.std.specs.Prelude.{Some};
    ghost use Rattle.wasm_types_fields.specs.Text.{cont_text};

    ghost output = { λ c. Some (cont_text c) };

    fn fmt<W: fmt::Write>(&self, f: &mut fmt::Formatter<W>) -> fmt::Result {
        let index = self.0;
        write!(f, "(cont {index})")
    }
}
