//! Table types.

ghost use Rattle.std.specs.Prelude.{◌≡◌};
ghost use Rattle.wasm_types_externs.specs.Addresses.{address_type};

use wasm_types_values::{RefType, ValType};

/// A table (WebAssembly 3.0, structure, table types; `shared` by the proposal on shared everything).
#[derive(Clone, Copy, Debug, PartialEq, Eq, Hash)]
pub struct TableType {
    /// The type of its elements.
    pub element_type: RefType,
    /// Whether its indices are numbers of 64 bits.
    pub table64: bool,
    /// How many elements it has at first.
    pub initial: u64,
    /// How many it may have, if that is limited.
    pub maximum: Option<u64>,
    /// Whether it is shared between threads.
    pub shared: bool,
}

impl TableType {
    /// The type of its indices.
    pub const fn index_type(&self) -> ValType
        ensures { result ≡ address_type self.now.table64 }
    {
        if self.table64 {
            ValType::I64
        } else {
            ValType::I32
        }
    }
}
