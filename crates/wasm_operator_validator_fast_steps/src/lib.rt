//! Steps of the fast loop: operators on numbers, variables and memory, blocks, branches and calls.
//!
//! A *step* takes one operator, with the operands as codes and the open frames at hand, and says at which offset the next one begins, or nothing:
//! whatever it does not know is left to the validator of operators. Its promise is `Leads`: whatever may come from the next offset on may come
//! from the operator on. Each group of operators has a module.
#![tactic(auto)]

pub mod blocks;
pub mod branches;
pub mod calls;
pub mod constants;
pub mod indices;
mod labels;
pub mod late;
pub mod memory;
pub mod numbers;
pub mod parametric;
pub mod shape;
pub mod unreached;
pub mod variables;
