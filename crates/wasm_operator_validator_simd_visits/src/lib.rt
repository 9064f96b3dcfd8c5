//! The visitor that validates operators on vectors, one visit for each.
//!
//! The validator is told of an operator on vectors by one call (`simd` and `simd_numeric` of `ValidatingVisitor`), so nothing below needs these
//! 256 visits: they are for who visits. Each decides its operator as the visits of other operators do, and refuses it where operators
//! on vectors are not judged (`WasmFeatures::VECTOR_OPERATORS`).
#![tactic(auto)]

mod floats;
mod immediates;
mod narrow;
mod visitor;
mod wide;

pub use visitor::ValidatingSimdVisitor;
pub use wasm_operator_validator_visits::{
    AnswerAs, AsError, AsRefusal, ValidatingVisitor, WasmModuleResources,
};
