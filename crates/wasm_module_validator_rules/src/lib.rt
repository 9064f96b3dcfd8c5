//! The rules of modules: which bytes spell a module, and which modules are valid (WebAssembly 3.0, structure, binary format and
//! validation, modules).
//!
//! There is no code here but laws and worked modules, each on the contract of a function that does nothing. `specs/` is read in the
//! order of its `Lib.antt`: the module as a tree, the bytes that spell it, its index spaces, valid modules, and what is accepted. The
//! rules of constant expressions, which these cite, stand in `wasm_operator_validator_rules`.
#![tactic(auto)]

mod laws;
mod worked;

pub use laws::{accepted_is_valid_outside_bodies, modules_are_spelled_once};
pub use worked::{
    bounds_are_worked, bytes_are_worked, functions_are_worked, items_are_worked,
    modules_are_worked, releases_are_worked,
};
