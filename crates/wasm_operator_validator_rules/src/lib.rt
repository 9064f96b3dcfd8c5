//! The rules of operators: which code is well typed (WebAssembly 3.0, validation, instructions).
//!
//! There is no code here but the laws, each on the contract of a function that does nothing. `specs/` is read in the order of
//! its `Lib.antt`: what the rules know of operands, the context, the classes of operators, the table of instruction types,
//! the rows of all other operators, and the typing of code.
//!
//! [`arity`] has how many operands each operator takes and gives, and [`constants`] which expressions are constant.
#![tactic(auto)]

pub mod arity;
pub mod constants;
mod laws;
mod worked;

pub use laws::{constants_are_named, floats_are_named};
pub use wasm_operators_encoding::expressions::{
    BlockType, BrTable, BrTableTargets, BulkOperator, ConstOperator, FrameKind, MemArg,
    MemArgTarget, MemoryOperator, Proposal,
};
pub use worked::{
    clauses_are_worked, code_is_worked, continuations_are_worked, descriptors_are_worked,
    exceptions_are_worked, instruction_types_are_worked, objects_are_worked, references_are_worked,
    rows_are_worked, shared_accesses_are_worked, shared_kinds_are_worked, vectors_are_worked,
};
