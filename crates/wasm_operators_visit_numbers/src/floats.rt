//! Visits of floats.
//!
//! [`VisitFloats`] has one visit for each operator. Each visit promises the one relation of its visitor (`Visitor` of
//! `wasm_operators_visit`) for its own operator. So do the visits of what lends a visitor (`&mut V`, `Box<V>`).
//! `wasm_operators_visit_numbers::dispatch` chooses the visit that belongs to an operator.

mod lent;
mod visits;

pub use visits::VisitFloats;
pub use wasm_operators_visit::NumericOperator;
