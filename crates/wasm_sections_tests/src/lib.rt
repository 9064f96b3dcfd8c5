//! Worked rows of this layer, as contracts of functions that do nothing: what is kept of the items of sections, frames and calls of
//! a parser, and calls of the parser of payloads. The crate has no code of its own.
//!
//! Other rows stand with their definitions (`_are_worked` laws of the crates of this layer).
#![tactic(auto)]

pub mod laws;
