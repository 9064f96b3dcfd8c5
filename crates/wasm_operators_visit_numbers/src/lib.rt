//! Visits of operators on numbers: of integers ([`integers`]), of floats ([`floats`]), and which one belongs to an operator
//! ([`dispatch`]).
//!
//! Each visit promises the one relation of its visitor (`Visitor` of `wasm_operators_visit`) for its own operator.
#![tactic(auto)]

pub mod dispatch;
pub mod floats;
pub mod integers;
