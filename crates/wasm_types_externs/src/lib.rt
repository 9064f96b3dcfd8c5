//! The types of tables, memories, globals and tags (WebAssembly 3.0, structure, external types).
//!
//! Each is a struct of its parts, such as a [`TableType`] of its element type and its limits. `specs/Addresses.antt`
//! defines the type of an address and the bytes of a page, which the functions here answer; `specs/Spells.antt` defines the
//! bytes of each type, under whatever features. Which limits are valid is a rule of `wasm_module_validator_rules`
//! (`specs/Valid.antt`).
#![tactic(auto)]

mod global;
pub mod laws;
mod limits;
mod memory;
mod read;
mod table;
mod tag;

pub use global::GlobalType;
pub use memory::MemoryType;
pub use table::TableType;
pub use tag::{TagKind, TagType};
