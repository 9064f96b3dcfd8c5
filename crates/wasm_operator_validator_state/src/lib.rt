//! What a validator of operators knows at a place in a body, and what it stands for.
//!
//! `specs/State.antt` says what is known and which operators may still come; `specs/Steps.antt` what the steps of a
//! validator do, by the stacks that its operands stand for; `specs/Refusals.antt` what refusals of a few bytes are;
//! `specs/laws/` how a visit's promise follows from what its steps did.
//!
//! [`attempts`] keeps what one attempt did to the stacks, so that it can be taken back. [`blocks`] has the types of blocks
//! and functions, as slices of what the module has.
#![tactic(auto)]

pub mod attempts;
pub mod blocks;
mod frame;
pub mod laws;
mod operand;
mod packed;
mod refusal;
mod texts;
mod type_names;

pub use frame::Frame;
pub use operand::MaybeType;
pub use packed::Operand;
pub use refusal::{Reason, Refusal, Space};
pub use type_names::ty_to_str;
pub use wasm_operator_validator_resources::{
    BlockType, BrTable, BrTableTargets, BulkOperator, ConstOperator, FrameKind, MemArg,
    MemArgTarget, MemoryOperator, Proposal, WasmModuleResources, check_ref_type_features,
    check_value_type_features,
};
