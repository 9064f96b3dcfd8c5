//! Items with constant expressions checked by the rules: globals, tables and data segments (WebAssembly 3.0, validation, modules).
//!
//! Each check is Ok exactly if the bytes of the item's expressions spell code with which the item is valid, in the module so far,
//! out of memory aside (`specs/segments/Judged.antt`); `specs/segments/Refusals.antt` says why an item is refused, and where. Expressions are read by the
//! features and limits that the module is judged by. A check changes nothing of the module: whoever calls it adds the item afterwards,
//! by the type that the check gives. A constant may refer to the functions that the module says are referenced. The rules judge it
//! where each function is, so a module that is being read is passed as `ReferringToAll` of `wasm_module_validator_resources::referring` has it.

mod constants;
mod data;
mod globals;
pub mod laws;
mod short;
mod tables;

pub use constants::{check_constant, reader_by, refers_to_none};
pub use data::check_data;
pub use globals::check_global;
pub use short::check_short_data;
pub use tables::check_table;
pub use wasm_module_validator_checks::externs::{Settings, check_value_type, require};
pub use wasm_operator_validator_constants::{
    ConstExpr, OperatorValidatorAllocations, WasmModuleResources,
};
pub use wasm_sections_items::segments::{DataKindOf, DataOf, GlobalOf, TableInitOf, TableOf};
