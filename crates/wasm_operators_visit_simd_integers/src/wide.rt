//! Visits of vectors of 32-bit and 64-bit integers.
//!
//! [`VisitSimdWide`] has one visit for each operator. Each visit promises the one relation of its visitor (`Visitor` of
//! `wasm_operators_visit`) for its own operator. So do the visits of what lends a visitor (`&mut V`, `Box<V>`).
//! `wasm_operators_visit_simd` chooses the visit that belongs to an operator.

mod lent;
mod visits;

pub use visits::VisitSimdWide;
