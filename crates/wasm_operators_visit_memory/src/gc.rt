//! Visits of structs, arrays, casts and descriptors.
//!
//! [`VisitGc`] has one visit for each operator. Each visit promises the one relation of its visitor (`Visitor` of
//! `wasm_operators_visit`) for its own operator. So do the visits of what lends a visitor (`&mut V`, `Box<V>`). The
//! functions [`visit_gc`] and [`visit_descriptor`] choose the visit that belongs to an operator.

mod dispatch;
mod lent;
mod visits;

pub use dispatch::{visit_descriptor, visit_gc};
pub use visits::VisitGc;
pub use wasm_operators_visit::{DescriptorOperator, GcOperator, Visitor};
