//! The entries of a module's import and export sections (WebAssembly 3.0, binary format, import and export sections), as places in its
//! bytes: who had a module accepted asks here what it imports and exports, and takes the names out of the bytes that it has.
//!
//! The promise is about bytes that spell a module, by whatever settings (`SpelledModule` of `wasm_module_validator_rules`): the entries
//! are the module's, in their order. Of other bytes nothing is promised but an end.
#![tactic(auto)]

mod entries;
mod exports;
mod imports;
mod names;
mod rows;
mod sections;
mod start;

pub use exports::list_exports;
pub use imports::list_imports;
pub use rows::{ExportRow, ImportRow};
pub use start::start_of;
