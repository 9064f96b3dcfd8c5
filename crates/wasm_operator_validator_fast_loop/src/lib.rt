//! Whole bodies judged in one loop.
//!
//! [`Room::accepts`] goes over the bytes of a body once, by the steps of `wasm_operator_validator_fast_steps` and
//! `wasm_operator_validator_fast_objects`, and says yes or nothing: whatever it does not know, it leaves to the validator of operators.
#![tactic(auto)]

mod judge;

pub use judge::Room;
