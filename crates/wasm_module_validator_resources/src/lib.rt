//! What operators ask of a module, answered by the module as it was read so far and the list that has its types.
//!
//! `specs/Reading.antt` says what a module means: the context of the rules, over the types that its ids stand for. Each
//! answer is what `WasmModuleResources` promises of that meaning. [`referring`] has which functions the constants of a
//! module refer to, since code may name those alone by `ref.func`.
#![tactic(auto)]

mod named;
pub mod referring;
mod resources;
mod subtypes;
mod types;

pub use resources::OperatorValidatorResources;
pub use wasm_module_validator_index_spaces::{Function, Module};
pub use wasm_operator_validator_resources::WasmModuleResources;
