//! The visitor that validates operators, one visit for each.
//!
//! Each visit decides its operator: it is not refused exactly if the operator may come, out of memory aside, and leaves what may
//! follow (`Visits` of `wasm_operator_validator_state`); where it is refused, the validator has failed. A visit answers by a refusal in
//! few bytes ([`AsRefusal`]), or by an error with a text, at the offset that its caller names ([`AsError`], `specs/Told.antt`).
#![tactic(auto)]

mod accesses;
mod answer;
mod arity;
mod atomics;
mod control;
mod floats;
mod gc;
mod integers;
mod memory;
mod numbers;
mod shared;
mod vectors;
mod visitor;

pub use answer::{AnswerAs, AsError, AsRefusal};
pub use visitor::{ValidatingVisitor, WasmProposalValidator};
pub use wasm_operator_validator_control::{OperatorValidator, Refusal, WasmModuleResources};
