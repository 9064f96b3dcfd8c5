//! What is kept of a module's imports and exports: their names, and what stands at which index of which space (WebAssembly 3.0, structure,
//! modules, imports and exports).
//!
//! [`Exports`] has the exports in their order, no two by one name. [`Imports`] has the imports by their two names, each pair of names once
//! and in the order in which they came first, as those who link modules ask for them.

mod exports;
mod imports;
mod kept;
pub mod laws;
mod pairs;
mod slots;

pub use exports::{Exports, NamedExport, NamedExports};
pub use imports::{Imports, NamedImports, Place};
pub use slots::Tried;
