//! How a check is proved where the module determines the operator's type, and what checks share.
//!
//! `specs/laws/Determined.antt` says how the promise of a check (`Checks` of `wasm_operator_validator_state`) follows from its steps and
//! an equation of the table of instruction types. An operator owes that equation alone.
//!
//! [`numbers`] checks the operators on numbers so, and constants.

mod copying;
pub mod numbers;
mod refusals;
mod shared;

pub use crate::{
    BlockType, BrTable, BrTableTargets, BulkOperator, ConstOperator, Frame, FrameKind, MaybeType,
    MemArg, MemArgTarget, MemoryOperator, OperatorValidator, Proposal, Reason, Refusal, Space,
    WasmModuleResources, check_value_type_features, is_abstract_fit, is_fit,
};
pub use copying::copied;
pub use refusals::refusal_of;
pub use shared::{may_use, may_use_type};
