//! The types of tables, memories, globals and tags checked by the rules (WebAssembly 3.0, validation, types).
//!
//! Each check is Ok exactly if the rule of modules holds of the type under the settings, and leaves types that are named by
//! their ids in place of those that the module writes; `specs/Refusals.antt` says of which kind each refusal is. Types of
//! functions and references are looked up through `WasmModuleResources`. Nothing here takes memory.

mod functions;
mod memory;
mod sizes;
mod table;
mod tag;
mod values;

pub use crate::limits::{Settings, check_max, combine_type_sizes, too_many};
pub use functions::func_type_at;
pub use memory::check_memory_type;
pub use sizes::{check_limits, require};
pub use table::check_table_type;
pub use tag::check_tag_type;
pub use values::{check_global_type, check_value_type};
pub use wasm_operator_validator_state::WasmModuleResources;
pub use wasm_operator_validator_state::blocks::function_of;
