//! Globals, tables, data and element segments: checked over their constants, and added.
//!
//! A check is Ok exactly if the bytes of the item's expressions spell code with which the item is valid, in the module so
//! far, out of memory aside; it changes nothing ([`segments`] for globals, tables and data segments, [`elements`] for
//! element segments). [`adding`] checks an item and adds it to the module that is being read. A constant is judged at its
//! own place: it sees the globals before it, and may refer to each function. `wasm_module_validator_fast_constants` judges most
//! constants in one pass over their bytes.
#![tactic(auto)]

pub mod adding;
pub mod elements;
pub mod segments;
