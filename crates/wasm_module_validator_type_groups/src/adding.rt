//! Groups of types added to a module: put into canonical form, interned, and checked where they are new (WebAssembly 3.0,
//! validation, types and modules).
//!
//! `specs/Interned.antt` says what a list of types and a module then hold. A group is accepted exactly if it is valid by
//! the rules over trees (`IsValidGroup` of `wasm_types_trees`) and the list has room.

mod interning;
pub mod laws;
mod module;
mod written;

pub use interning::canonicalize_and_intern_rec_group;
pub use module::Module;
