//! Visits of atomic accesses: to memories ([`atomic`]), to globals, tables, structs and arrays ([`shared`]), and which one
//! belongs to an operator ([`dispatch`]).
//!
//! Each visit promises the one relation of its visitor (`Visitor` of `wasm_operators_visit`) for its own operator.
#![tactic(auto)]

pub mod atomic;
pub mod dispatch;
pub mod shared;
