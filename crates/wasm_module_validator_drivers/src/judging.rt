//! The bodies of a module whose sections were read, judged (WebAssembly 3.0, validation, functions).
//!
//! [`judge`] is Ok exactly if each body spells a valid function of its type, in the module that was read and by the features and limits
//! that it was read by, out of memory aside. [`judge_part`] says so of one body in so many, so that parts are judged side by side.

mod judging;
mod parts;

pub use judging::judge;
pub use parts::judge_part;
pub use wasm_module_validator_function_bodies::code::judge_bodies;
pub use wasm_module_validator_function_bodies::{
    FuncToValidate, FuncValidator, FuncValidatorAllocations,
};
pub use wasm_module_validator_payloads::{
    Body, HeldSettings, InProgress, ModuleState, OperatorValidatorAllocations, SectionItem,
    SharedModule, TypeList, check_data_with, check_header, check_short_data_item,
};
