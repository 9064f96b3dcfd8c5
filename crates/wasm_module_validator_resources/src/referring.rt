//! Constants and the functions that they refer to (WebAssembly 3.0, validation, modules).
//!
//! The rules let a constant name a function by `ref.func` where the function is among those that the whole module refers to; the
//! constant itself makes it one of them. So a constant that is judged where it stands, before all of the module is known, is judged in
//! the context in which each function may be referred to (`wasm_module_validator_rules_in_order` proves that both are the same).
//! [`ReferringToAll`] is this context over any module; [`name_references`] tells which functions an expression names, so that code may
//! refer to them.

pub mod laws;
mod naming;
mod referring;

pub use naming::name_references;
pub use referring::ReferringToAll;
pub use wasm_operator_validator_resources::WasmModuleResources;
