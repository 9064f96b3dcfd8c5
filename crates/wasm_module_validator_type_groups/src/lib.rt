//! Types of groups checked by the rules, one by one, once their group is interned (WebAssembly 3.0, validation, types, sub
//! types and recursive types).
//!
//! The contracts speak of ids (`specs/ValidTypes.antt`); where all groups are in canonical form, that is what the rules say of
//! the types that the ids stand for (`types_are_valid_as_trees`). These checks take no memory.
//!
//! [`composites`] checks what a type is made of, and [`adding`] takes a whole group into a module: into canonical form, interned, and
//! checked where it is new.
#![tactic(auto)]

pub mod adding;
mod check;
pub mod composites;
mod descriptors;
pub mod laws;
mod supertypes;

pub use check::{check_type, check_types};
