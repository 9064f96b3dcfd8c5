//! Modules judged as they are read: each item in the context of what was read before it (WebAssembly 3.0, validation, modules).
//!
//! The rules of modules judge each item in the context of the whole module; a validator that reads a module once has only what stands
//! before. `specs/InOrder.antt` defines the second judgement, and [`modules_are_judged_in_order`] promises that it is the first. The
//! other laws say what each judgement looks at of a context (`specs/Agreement.antt`). There is no code here: each law is the contract
//! of a function that does nothing.

mod laws;

pub use laws::{
    bodies_look_at, constants_look_at, items_look_at, modules_are_judged_in_order, types_look_at,
};
