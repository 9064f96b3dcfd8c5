//! Visits of operators of control, of those that take operands of any type, of exceptions and of continuations.
//!
//! [`VisitControl`] has one visit for each operator. Each visit promises the one relation of its visitor (`Visitor` of
//! `wasm_operators_visit`) for its own operator. So do the visits of what lends a visitor (`&mut V`, `Box<V>`). The
//! functions [`visit_control`], [`visit_parametric`], [`visit_exception`] and [`visit_continuation`] choose the visit
//! that belongs to an operator.

mod dispatch;
mod lent;
mod visits;

pub use crate::Operator;
pub use dispatch::{visit_continuation, visit_control, visit_exception, visit_parametric};
pub use visits::VisitControl;
