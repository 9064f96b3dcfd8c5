//! Visits of atomic accesses to memories.
//!
//! [`VisitAtomic`] has one visit for each operator. Each visit promises the one relation of its visitor (`Visitor` of
//! `wasm_operators_visit`) for its own operator. So do the visits of what lends a visitor (`&mut V`, `Box<V>`).
//! `wasm_operators_visit_atomics::dispatch` chooses the visit that belongs to an operator.

mod lent;
mod visits;

pub use visits::VisitAtomic;
pub use wasm_operators_visit::{AtomicOperator, SharedOperator};
