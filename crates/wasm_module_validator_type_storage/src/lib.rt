//! What lists of types are made of: a list that is shared as it is, numbers in an order that the caller tells, and interned
//! types as plain trees.
//!
//! A [`snapshots`] list can be committed: what is committed never changes and may be shared, and what is added after it is
//! the list's own. [`displays`] is such a list of supertypes that tells at once whether one type is declared below another.
//! [`ordered`] finds a number by an order that is asked of the caller, so that keys are not kept twice.
//! [`trees`] says which plain tree an interned type stands for, and what it means that a list holds each group once.
#![tactic(auto)]

pub mod displays;
pub mod ordered;
pub mod snapshots;
pub mod trees;
