//! The validator of operators: whether the operators of an expression may come, one after the other.
//!
//! An [`OperatorValidator`] knows what may lie on the stack of operands at a place in a body, which frames are open, and which
//! locals hold a value. What it asks of the module, as the type of a global, is a [`WasmModuleResources`]: a trait, so that a module
//! may be validated while it is still read. [`new_func`] makes the validator of a function, [`OperatorValidator::define_locals`] adds
//! its locals, and [`validate_expression`] tells it of each operator of the body. It answers `Ok` exactly if the bytes
//! spell a body that is well typed, out of memory aside (WebAssembly 3.0, validation, instructions); a refusal has the offset of the
//! operator that may not come.
//!
//! ```text
//! let allocs = OperatorValidatorAllocations::new(alloc);
//! let mut validator = new_func(type_index, body.start, &features, limits, &module, allocs)?;
//! validator.define_locals(limits, offset, 2, ValType::I32, &module)?;
//! validate_expression(alloc, operators, &mut validator, &module)?;
//! let allocs = validator.into_allocations();
//! ```
//!
//! A caller that reads the operators itself tells a [`WasmProposalValidator`] of each: the validator and the module, and the offset of
//! the operator, at which it answers an error where the operator may not come.
//!
//! ```text
//! let mut visitor = WasmProposalValidator { inner: &mut validator, resources: &module, answer: AsError { offset } };
//! visitor.visit_i32_const(42)?;
//! ```
//!
//! It is a [`ValidatingVisitor`], whose visits answer as their `answer` says: [`AsRefusal`] answers in few bytes, without a text. Operators on
//! vectors it is told by `simd` and `simd_numeric`, or, visit by visit, in a [`ValidatingSimdVisitor`].
//!
//! [`check_const_expr`] judges a whole constant expression, and [`new_const_expr`] makes the validator of one.
//!
//! [`OperatorArity::operator_arity`] tells how many operands an operator takes and gives there; a [`ModuleArity`] is what it asks, and
//! the visitor is one.
//!
//! An operator may be tried and taken back: between `begin_try_op` and `rollback` the validator keeps what it undoes, and `commit`
//! lets it stand. A [`Transaction`] with its [`RollbackLog`] does the same for stacks that a caller keeps itself.
//!
//! This crate has no code of its own. The rules stand in the crates below: what each operator takes and gives, and the typing of
//! code, in `wasm_operator_validator_rules`; what a validator knows, and which operators it accepts, in
//! `wasm_operator_validator_state`; which bytes it accepts, in `wasm_operator_validator_expression`. What is accepted as a body is
//! never stuck within one activation: [`accepted_bodies_are_sound`]. No run of a valid program is stuck, over all its activations, and at
//! each place of it each value fits what the rules know of it: [`programs_are_sound`], [`steps_are_sound`], [`constants_are_sound`],
//! [`ancestors_are_sound`].
#![tactic(auto)]

pub use wasm_operator_validator_arity::{ModuleArity, OperatorArity};
pub use wasm_operator_validator_constants::{ConstExpr, check_const_expr, new_const_expr};
pub use wasm_operator_validator_driver::{
    BlockType, Frame, FrameKind, LocalInits, Locals, MaybeType, OperatorValidator,
    OperatorValidatorAllocations, WasmModuleResources, validate_expression,
};
pub use wasm_operator_validator_simd_visits::ValidatingSimdVisitor;
pub use wasm_operator_validator_soundness::accepted::accepted_bodies_are_sound;
pub use wasm_operator_validator_soundness::runs::{
    ancestors_are_sound, constants_are_sound, programs_are_sound, steps_are_sound,
};
pub use wasm_operator_validator_stacks::new_func;
pub use wasm_operator_validator_state::attempts::{
    RollbackLog, RollbackLogAllocations, Transaction, ty_to_str,
};
pub use wasm_operator_validator_state::{check_ref_type_features, check_value_type_features};
pub use wasm_operator_validator_visits::{
    AnswerAs, AsError, AsRefusal, ValidatingVisitor, WasmProposalValidator,
};
