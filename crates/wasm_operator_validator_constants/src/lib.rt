//! Constant expressions: the values of globals and tables, offsets of segments, elements (WebAssembly 3.0, validation, instructions,
//! constant expressions).
//!
//! [`new_const_expr`] makes a validator that stands where a constant begins. [`is_constant_operator`] is the test of one operator, and a
//! [`ConstantWalk`] tests each operator before it tells the validator. [`check_const_expr`] judges a whole constant: Ok exactly if
//! its bytes spell one by the rules (`IsConstant` of `wasm_operator_validator_rules`), out of memory aside.
//! `specs/Tested.antt` says this of any test of operators, `specs/Checked.antt` of constants, and `specs/Operators.antt` why an operator
//! is refused.
#![tactic(auto)]

mod beginning;
mod checking;
mod globals;
mod operators;
mod refusal;
mod validating;
mod walk;

pub use beginning::new_const_expr;
pub use checking::check_const_expr;
pub use operators::is_constant_operator;
pub use refusal::ConstantRefusal;
pub use walk::ConstantWalk;
pub use wasm_operator_validator_stacks::{OperatorValidatorAllocations, WasmModuleResources};
pub use wasm_operators_bodies::{ConstExpr, ShortConstant};
