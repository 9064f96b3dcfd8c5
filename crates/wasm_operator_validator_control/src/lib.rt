//! Checks of the operators of control (WebAssembly 3.0, validation, control instructions): blocks, branches, returns, branches by a table
//! of labels, and calls: to a function by its index, through a table, and those that take the place of their caller; references without
//! null; exceptions that are thrown, `try_table`, and the older `try` with its clauses.
//!
//! Each check decides its operator, and leaves the validator so that what may follow the operator may come
//! (`Checks` of `wasm_operator_validator_state`).
//!
//! Where a table of labels is branched by, the operands are held against one label after the other, where they lie. What is known of an
//! operand may stand for a shared and for an unshared reference: then labels that it fits one by one may still agree on neither, which is
//! asked at the end. A label that takes many types is asked once, however often a table names it.
#![tactic(auto)]

mod br_table;
mod branches;
mod callees;
mod calls;
mod catches;
mod clauses;
mod exceptions;
mod frames;
mod labels;
mod leaving;
mod matching;
mod references;
mod sharing;
mod tables;
mod tails;

pub use br_table::check_br_table;
pub use branches::{check_br, check_br_if, check_nop, check_return, check_unreachable};
pub use calls::{check_call, check_call_indirect, check_call_ref};
pub use catches::check_try_table;
pub use clauses::{check_catch, check_catch_all, check_delegate, check_try};
pub use exceptions::{check_rethrow, check_throw, check_throw_ref, exception_tag, exception_type};
pub use frames::{check_block, check_else, check_end, check_if, check_loop};
pub use leaving::jump_with;
pub use references::{check_br_on_non_null, check_br_on_null, check_ref_as_non_null};
pub use tails::{check_return_call, check_return_call_indirect, check_return_call_ref};
pub use wasm_operator_validator_stacks::determined::{
    BlockType, BrTable, BrTableTargets, BulkOperator, ConstOperator, Frame, FrameKind, MaybeType,
    MemArg, MemArgTarget, MemoryOperator, OperatorValidator, Proposal, Reason, Refusal, Space,
    WasmModuleResources, check_value_type_features, copied, is_abstract_fit, is_fit, may_use,
    may_use_type, refusal_of,
};
pub use wasm_operator_validator_state::blocks::{
    are_below, block_params, block_results, check_block_type, function_at, function_of, label_types,
};
