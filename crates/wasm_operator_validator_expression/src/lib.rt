//! Expressions that are validated as they are read.
//!
//! [`validate_operators`] drives a visitor that validates ([`Validating`]) along an expression. `specs/Validating.antt` defines which
//! bytes are accepted, and why others are refused.
#![tactic(auto)]

pub mod laws;
mod validating;

pub use validating::{Refused, Validating, validate_operators};
pub use wasm_operators_reader::walks::{TellOperator, TellSimdOperator};
