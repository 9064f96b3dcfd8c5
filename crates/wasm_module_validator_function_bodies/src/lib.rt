//! The validator of one function's body, in its module (WebAssembly 3.0, validation, modules, functions and locals).
//!
//! A [`FuncToValidate`] says which function is to be judged, and [`FuncToValidate::into_validator`] makes its [`FuncValidator`]:
//! [`FuncValidator::validate`] judges a whole [`FunctionBody`]. It is Ok exactly if the bytes spell a valid function of the type,
//! read by the validator's own features and limits, out of memory aside. Or its parts are called one by one, locals first, then operators.
//! A [`PlainJudge`] of one module judges most valid bodies faster, in one loop, and leaves others open. [`judge_function`] tries it first.
//!
//! ```text
//! let allocs = FuncValidatorAllocations::new(alloc);
//! let mut validator = FuncToValidate { resources, index, ty, features, limits }.into_validator(allocs)?;
//! validator.validate(&body)?;
//! let allocs = validator.into_allocations();
//! ```
//!
//! The bodies of a module, one after the other, are [`code`].
//!
//! `specs/Locals.antt` defines which bytes spell locals that a function may have, and `specs/Functions.antt` which spell a function
//! that is valid, and why others are refused.
#![tactic(auto)]

mod arity;
mod beginning;
pub mod code;
mod heights;
mod held;
pub mod laws;
mod locals;
mod operators;
mod plain;
mod validator;
mod visiting;
mod ways;

pub use beginning::{FuncToValidate, FuncValidatorAllocations};
pub use plain::{PlainJudge, entries_for};
pub use validator::FuncValidator;
pub use wasm_operator_validator_driver::{
    BlockType, Frame, FrameKind, OperatorValidator, WasmModuleResources,
};
pub use wasm_operators_bodies::FunctionBody;
pub use ways::judge_function;
