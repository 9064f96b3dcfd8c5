//! The frequent operators, read from their first byte.
//!
//! [`short_operator_at`] takes bytes and an offset in them, and answers the operator that begins there with the offset behind
//! it, where it is a frequent one in a frequent form: no reader moves, and no error is made. Where it answers none,
//! `read_operator` reads whatever stands there, or says why it is refused. Its contract is in the terms of
//! `wasm_operators_frequent`: what is told is which operator this is.

mod bulk;
mod control;
mod memory;
mod numbers;
mod short;

pub use crate::{LentVisitor, TellOperator};
pub use short::{short_control_at, short_operator_at};
