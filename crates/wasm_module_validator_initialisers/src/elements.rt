//! Element segments checked by the rules (WebAssembly 3.0, validation, modules, element segments).
//!
//! The check is Ok exactly if the bytes of the segment's expressions spell code with which the segment is valid, in the module so
//! far, out of memory aside (`specs/elements/Judged.antt`); `specs/elements/Refusals.antt` says why a segment is refused, and where. It names the
//! functions that the segment refers to on the way (`specs/elements/Naming.antt`): code of the module may refer to these. Expressions are read
//! by the features and limits that the module is judged by. A constant may refer to the functions that the module says are
//! referenced. The rules judge it where each function is, so a module that is being read is passed as `ReferringToAll` of
//! `wasm_module_validator_resources::referring` has it.

mod elements;
mod items;
pub mod laws;
mod modes;
mod naming;
mod short;

pub use crate::segments::{
    ConstExpr, DataOf, GlobalOf, OperatorValidatorAllocations, Settings, TableInitOf, TableOf,
    WasmModuleResources, check_data, check_global, check_short_data, check_table, reader_by,
    refers_to_none,
};
pub use elements::check_element;
pub use wasm_module_validator_resources::referring::{ReferringToAll, name_references};
pub use wasm_sections_items::elements::{ElementItemsOf, ElementKindOf, ElementOf};
