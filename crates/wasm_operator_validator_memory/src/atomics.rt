//! Atomic accesses to memories (the proposal on threads).
//!
//! Each check decides its operator: it is not refused exactly if the operator may come, out of memory aside, and leaves what may
//! follow (`Checks` of `wasm_operator_validator_state`). Whether the memory is shared makes no difference.

mod accesses;
mod reaching;
mod waiting;

pub use crate::{
    check_data_drop, check_load, check_memory_copy, check_memory_discard, check_memory_fill,
    check_memory_grow, check_memory_init, check_memory_size, check_store,
};
pub use accesses::{
    check_atomic_compare_exchange, check_atomic_load, check_atomic_modify, check_atomic_store,
};
pub use waiting::{check_atomic_fence, check_atomic_notify, check_atomic_wait};
