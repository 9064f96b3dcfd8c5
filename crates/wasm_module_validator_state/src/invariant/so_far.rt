//! A module that is being read stands for the tree of what was read (WebAssembly 3.0, structure, modules, indices).
//!
//! `specs/SoFar.antt` says when the spaces of a module are those of a tree. Its context then is the tree's, but for the functions that
//! code may refer to, and each item that is added is added to both. `specs/Referring.antt` says when the functions that are marked are
//! those that the tree refers to: then bodies are judged by it as by the tree. There is no code here: each law is the contract of a function that
//! does nothing.

mod laws;

pub use laws::{
    bodies_are_judged_alike, contexts_are_of_trees, functions_are_referred_to, imports_are_added,
    items_are_added, limits_are_of_spaces, marks_are_worked, types_are_kept_as_written,
    types_are_kept_by_ids,
};
