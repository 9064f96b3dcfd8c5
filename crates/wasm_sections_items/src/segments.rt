//! What a module holds together with constant expressions: globals, tables and data segments (WebAssembly 3.0, binary
//! format, modules).
//!
//! The rules and the readers here are generic in what a constant expression is. `specs/Spells.antt` says which bytes spell
//! each.

mod global;
pub mod laws;
mod segment;
mod table;

pub use global::GlobalOf;
pub use segment::{DataKindOf, DataOf};
pub use table::{TableInitOf, TableOf};
