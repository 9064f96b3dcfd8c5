//! The state of a module that is being read stands for the tree of what was read (WebAssembly 3.0, validation, modules).
//!
//! `specs/invariant/Standing.antt` says when it does. What a call of the state decides of an item is then what the rules ask of the tree with that
//! item, and what the call leaves stands for every tree that has the item. There is no code here: each law is the contract of a function
//! that does nothing.
//!
//! [`so_far`] says when index spaces alone are those of a tree, and what its context is then.

mod laws;
pub mod so_far;

pub use crate::ModuleState;
pub use laws::{
    constants_see_the_tree, items_are_decided_alike, items_stand,
    items_with_constants_are_decided_alike, items_with_constants_stand, sections_begin,
    sections_fit_alike, states_are_worked,
};
