//! Worked rows of what public calls of this layer promise: for each relation one that holds and one that does not. The crate has no code.
//!
//! Rows of the rules themselves stand with their definitions (`modules_are_worked`, `bytes_are_worked`, `steps_are_worked`), and so do those
//! of names, types, groups and constants (`names_are_worked`, `canonical_worked`, `adding_worked`, `initialising_is_worked`).
#![tactic(auto)]

pub mod laws;
