//! Worked rows of this layer, as contracts of functions that do nothing: numbers in LEB128 at the edges of their widths, sets
//! of features as fields, what answers tell of a fact, what
//! readers promise, types as trees, as bits and in words, types whose indices are replaced, and
//! what subtypes and groups declare. The crate has no code of its own.
//!
//! Other rows stand with their definitions (`worked_` and `_are_worked` laws of the crates of this layer).
//! What no contract promises of reading them, the messages of refusals, is judged by `tests/run` (`tests/worked`).
#![tactic(auto)]

pub mod laws;
