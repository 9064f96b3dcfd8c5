//! A module's items checked and added, one by one (WebAssembly 3.0, validation, modules).
//!
//! [`ModuleState`] holds a module as far as it was read. Each call that adds an item is Ok exactly if the rule of modules
//! holds of it in the context so far and there is room for it by the limits, out of memory aside; the context is then the
//! one before with the item (`specs/Contexts.antt`), and a refusal leaves the state as it was. Each call takes the list that
//! has the module's types, and is called with the list that it was read over alone. Globals, tables and segments are added
//! after their constants were checked, in `wasm_module_validator_initialisers`.
//!
//! [`invariant`] says what the state stands for: the tree of all that was read.
#![tactic(auto)]

mod counts;
mod exports;
mod functions;
mod imports;
pub mod invariant;
pub mod laws;
mod numbers;
mod own;
mod pushing;
mod state;
mod types;

pub use state::ModuleState;
