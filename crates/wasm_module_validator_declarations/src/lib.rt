//! Items without constants, checked and added while the state of a module stands for the tree of what was read (WebAssembly 3.0,
//! validation, modules).
//!
//! Each call is Ok exactly if the rules allow the item behind the tree that was read, out of memory aside, whichever tree that is that
//! the state stands for; then the state stands for each tree with the item more. A refusal leaves the state as it was. What a state
//! stands for says `Standing.antt` of `wasm_module_validator_state::invariant`. Items with constants are added above.
#![tactic(auto)]

mod counts;
mod exports;
mod groups;
mod imports;
mod laws;
mod numbers;
mod own;
mod short;

pub use counts::{
    begin_data, begin_elements, begin_exports, begin_functions, begin_globals, begin_imports,
    begin_memories, begin_tables, begin_tags, begin_types,
};
pub use exports::add_export_item;
pub use groups::add_group;
pub use imports::add_import_item;
pub use laws::groups_are_read_alike;
pub use numbers::{take_data_count, take_start};
pub use own::{add_function_item, add_memory_item, add_tag_item};
pub use short::{add_short_export, add_short_function, add_short_import};
