//! Checks of operators on memories, tables, segments, references and variables, and of `drop` and the three forms of
//! `select`; of atomic accesses to memories ([`atomics`]).
//!
//! Each check decides its operator: it is not refused exactly if the operator may come, out of memory aside, and leaves
//! what may follow (`Checks` of `wasm_operator_validator_state`). `specs/Reaching.antt` says which accesses a memory allows,
//! `specs/Choices.antt` what a choice between two operands gives.
#![tactic(auto)]

mod accesses;
pub mod atomics;
mod choosing;
mod copies;
mod finding;
mod functions;
mod globals;
mod laws;
mod locals;
mod memories;
mod naming;
mod nulls;
mod parametric;
mod reaching;
mod references;
mod tables;
mod typed;

pub use accesses::{check_load, check_store};
pub use copies::{check_elem_drop, check_table_copy, check_table_init};
pub use functions::check_ref_func;
pub use globals::{check_global_get, check_global_set};
pub use laws::{locals_start_by_types, room_is_wanted_by_types};
pub use locals::{check_local_get, check_local_set, check_local_tee};
pub use memories::{
    check_data_drop, check_memory_copy, check_memory_discard, check_memory_fill, check_memory_grow,
    check_memory_init, check_memory_size,
};
pub use nulls::check_ref_null;
pub use parametric::{check_drop, check_select};
pub use reaching::{has_alignment, reach};
pub use references::check_ref_is_null;
pub use tables::{
    check_table_fill, check_table_get, check_table_grow, check_table_set, check_table_size,
};
pub use typed::{check_typed_select, check_typed_select_multi};
pub use wasm_operator_validator_stacks::determined::{
    BlockType, BrTable, BrTableTargets, BulkOperator, ConstOperator, Frame, FrameKind, MaybeType,
    MemArg, MemArgTarget, MemoryOperator, OperatorValidator, Proposal, Reason, Refusal, Space,
    WasmModuleResources, check_value_type_features, copied, is_abstract_fit, is_fit, may_use,
    may_use_type, refusal_of,
};
