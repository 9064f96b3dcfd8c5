//! Operators on numbers, and constants.
//!
//! Each check decides its operator: it is not refused exactly if the operator may come, out of memory aside, and leaves what may
//! follow (`Decides` of `wasm_operator_validator_state`).

mod check;

pub use check::{check_constant, check_numbers, check_two};
