//! The items of a section, checked and added one by one to what was read before them (WebAssembly 3.0, validation, modules).
//!
//! A state that stands for what was read implements [`AddItem`] for each kind of item, and [`add_items`] reads a section and adds each
//! item. It succeeds exactly if the contents spell as many items as are counted and no byte behind them, and each may be added
//! behind those before it (`specs/items/Adding.antt`), out of memory aside.
//!
//! [`AddLent`] and [`add_lent_items`] are the same of items that are lent, and need not be moved: the prover does not cover a function that
//! takes an import by value.
//!
//! Bodies of functions are no items that are added: each is kept as a [`Body`], and judged after all sections.

mod add;
mod bodies;
mod lent;

pub use add::{AddItem, add_items};
pub use bodies::Body;
pub use lent::{AddLent, add_lent_items};
