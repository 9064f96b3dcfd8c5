//! Imports and exports checked by the rules (WebAssembly 3.0, validation, modules, imports and exports).
//!
//! Each check is Ok exactly if the rule of modules holds under the settings. The sizes of their types are added one by one, as
//! the rule adds them.
//!
//! [`names`] keeps them by their names.
#![tactic(auto)]

mod exports;
mod imports;
pub mod laws;
pub mod names;
mod sizes;

pub use crate::names::{Exports, Imports, NamedExport, NamedExports, NamedImports, Place, Tried};
pub use exports::check_export;
pub use imports::check_import;
pub use sizes::{
    combine_export_size, combine_import_size, exported_function_size, imported_function_size,
};
