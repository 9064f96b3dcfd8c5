//! The visits that belong to atomic accesses.
//!
//! [`visit_atomic`] and [`visit_shared`] take an operator and call its own visit, of `VisitAtomic` and of
//! `VisitShared`. Each promises the relation of the visitor for that operator. They stand in a crate of their own,
//! above both traits.

mod atomic;
mod shared;

pub use crate::atomic::VisitAtomic;
pub use crate::shared::VisitShared;
pub use atomic::visit_atomic;
pub use shared::visit_shared;
