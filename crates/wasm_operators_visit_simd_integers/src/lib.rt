//! Visits of operators on vectors of integers: of 8 and 16 bits ([`narrow`]), of 32 and 64 bits ([`wide`]).
//!
//! Each visit promises the one relation of its visitor (`Visitor` of `wasm_operators_visit`) for its own operator.
#![tactic(auto)]

pub mod narrow;
pub mod wide;
