//! Visits of variables, memories, tables, references and constants, and of structs, arrays, casts and descriptors ([`gc`]).
//!
//! [`VisitMemory`] has one visit for each operator. Each promises the one relation of its visitor (`Visitor` of
//! `wasm_operators_visit`) for its own operator, and so do the visits of what lends a visitor (`&mut V`, `Box<V>`). The
//! functions [`visit_memory`], [`visit_const`] and [`visit_bulk`] choose the visit that belongs to an operator.
#![tactic(auto)]

mod dispatch;
pub mod gc;
mod lent;
mod visits;

pub use dispatch::{visit_bulk, visit_const, visit_memory};
pub use visits::VisitMemory;
