//! A module as far as it was read: its index spaces, by the indices and ids of its types (WebAssembly 3.0, structure, modules,
//! indices).
//!
//! What is added was checked before; here it is held against its limit alone. `specs/Spaces.antt` says what a contract sees of a
//! module: one space grows, and all else stays.
//!
//! [`view`] has what is looked up in a module that was read, with its list of types.
#![tactic(auto)]

mod adding;
mod importing;
mod lookups;
mod module;
pub mod view;

pub use module::{Function, Module};
