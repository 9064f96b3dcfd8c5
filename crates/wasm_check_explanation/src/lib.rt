//! What a person or a program needs to find the fault in a module that was refused: where it is, and what the validator knew there.
//!
//! [`explain`] walks over the module by payloads, as far as the one that has the offset of the fault, and gives a [`Place`]: the section
//! and the item, or the function with its operator, and the chapter of the standard that has the rule. If the fault is in a body, a
//! validator is told of all that comes before the operator there, so that the place has the type of the function, what the operator takes
//! and what is on the stack. No verdict rests on a place: `explain` answers for all bytes and errors, also for those that no validator gave.
//! It promises that the offset is in the section that is told, and that the operator begins no later.
#![tactic(auto)]

mod bodies;
mod given;
mod known;
mod modules;
mod numbers;
mod operands;
mod stack;
mod taken;
mod types;

pub use modules::explain;
pub use wasm_check_places::{
    Function, Item, Note, Offsets, OpenFrame, Operands, OperatorAt, Part, Place, Signature, told,
};
