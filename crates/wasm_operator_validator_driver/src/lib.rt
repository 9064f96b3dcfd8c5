//! Expressions that are validated, at the validator of operators and a module.
//!
//! [`validate_expression`] drives the visitor that validates (`wasm_operator_validator_visits`) along an expression, by the walk of
//! `wasm_operator_validator_expression`. `specs/Validating.antt` there defines which bytes are accepted, and why others are refused.
#![tactic(auto)]

mod objects;
mod operators;
mod short;
mod walk;

pub use walk::{ValidatingWalk, validate_expression};
pub use wasm_operator_validator_stacks::{
    BlockType, Frame, FrameKind, LocalInits, Locals, MaybeType, OperatorValidator,
    OperatorValidatorAllocations, WasmModuleResources,
};
pub use wasm_operator_validator_visits::{AsRefusal, ValidatingVisitor};
