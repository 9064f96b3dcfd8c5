//! Worked rows of what public calls of this layer promise: for each relation one that holds and one that does not. The crate has no code.
//!
//! Rows of the rules themselves, of operands, of the kinds of refusals and of whole bodies stand with their definitions
//! (`counts_are_worked`, `operands_are_worked`, `refusals_are_worked`, `first_operators_are_worked`).
#![tactic(auto)]

pub mod laws;
