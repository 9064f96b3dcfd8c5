//! Steps of the fast loop on references and what holds or has them (tables, structures, arrays, casts and exceptions), on vectors, and of atomic
//! accesses.
//!
//! Branches on references are here: `br_on_null` and `br_on_non_null` in `references`, `br_on_cast` in `casts`, `try_table` in `exceptions`. A step
//! is what `wasm_operator_validator_fast_steps` says.
#![tactic(auto)]

pub mod arrays;
pub mod atomics;
pub mod casts;
pub mod exceptions;
pub mod references;
pub mod structs;
pub mod tables;
mod vector_memory;
mod vector_shape;
pub mod vectors;
