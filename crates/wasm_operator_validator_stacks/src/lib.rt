//! The stacks of a validator of operators: operands, open frames and locals that were set, each with what is done to it.
//!
//! A contract sees the state of `wasm_operator_validator_state`: each open frame with operands of its own. In memory all
//! operands lie in one place, and a frame knows how many lay below it at its beginning (`specs/Layout.antt`).
//!
//! A body begins with [`new_func`]. From there exactly the operators of well-typed bodies may come (`specs/Functions.antt`,
//! `bodies_are_accepted` of `wasm_operator_validator_state`).
//!
//! [`determined`] has the checks of operators whose types the module determines, as `i32.add`, and how such a check is
//! proved: the row is looked up in the table of instruction types, so no operator needs a proof of its own.
#![tactic(auto)]

mod allocations;
mod attempts;
mod defining;
pub mod determined;
mod entering;
mod fitting;
mod frames;
mod functions;
mod heights;
pub mod laws;
mod peeking;
mod validator;

pub use allocations::OperatorValidatorAllocations;
pub use fitting::{is_abstract_fit, is_fit};
pub use functions::new_func;
pub use heights::heights_are_worked;
pub use validator::OperatorValidator;
pub use wasm_operator_validator_locals::Locals;
pub use wasm_operator_validator_locals::inits::LocalInits;
pub use wasm_operator_validator_state::{
    BlockType, BrTable, BrTableTargets, BulkOperator, ConstOperator, Frame, FrameKind, MaybeType,
    MemArg, MemArgTarget, MemoryOperator, Proposal, Reason, Refusal, Space, WasmModuleResources,
    check_value_type_features,
};
