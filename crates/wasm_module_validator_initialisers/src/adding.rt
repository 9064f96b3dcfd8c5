//! Globals, tables and segments checked over their constants, and added to a module that is being read (WebAssembly 3.0, validation,
//! modules).
//!
//! Where the state stands for the tree of what was read (`wasm_module_validator_state::invariant`), each call is Ok exactly if the item that
//! was read may be added to the tree, out of memory aside; the state then stands for every tree with the item more, whichever code its
//! constants spell. A constant is judged where it stands: it sees the globals that were read, and may refer to each function. A
//! refusal leaves the state as it was; `specs/adding/Refusals.antt` says why and where it comes. Each call takes the list that the module's
//! types stand in, and is called with the list that it was read over alone.

mod accepted;
mod data;
mod elements;
mod globals;
pub mod laws;
mod marking;
mod naming;
mod short;
mod tables;

pub use crate::elements::OperatorValidatorAllocations;
pub use data::{check_data_item, check_data_with, check_short_data_item};
pub use elements::add_element;
pub use globals::add_global;
pub use short::add_short_global;
pub use tables::add_table;
