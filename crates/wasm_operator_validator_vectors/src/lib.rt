//! Operators on vectors, which are judged if the features have the switch for them.
//!
//! Each check decides its operator: it is not refused exactly if the operator may come, out of memory aside, and leaves what may
//! follow (`Checks` of `wasm_operator_validator_state`). While the switch is off each is refused.
#![tactic(auto)]

mod accesses;
mod checks;
mod entering;
mod forms;
mod lanes;

pub use checks::{check_simd, check_simd_numeric};
