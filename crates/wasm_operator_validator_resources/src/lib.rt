//! What a validator of operators asks of a module: a trait of nineteen look-ups and one test, whose meaning is the module of
//! the rules.
//!
//! `specs/Meaning.antt` says what names in code stand for, and `specs/Answers.antt` what each look-up answers.
#![tactic(auto)]

mod forwarding;
mod gates;
pub mod laws;
mod resources;

pub use gates::{check_ref_type_features, check_value_type_features};
pub use resources::WasmModuleResources;
pub use wasm_operator_validator_rules::{
    BlockType, BrTable, BrTableTargets, BulkOperator, ConstOperator, FrameKind, MemArg,
    MemArgTarget, MemoryOperator, Proposal,
};
