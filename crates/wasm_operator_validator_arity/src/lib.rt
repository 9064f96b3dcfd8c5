//! How many operands an operator takes and gives, as far as a module and the open frames know.
//!
//! [`OperatorArity::operator_arity`] answers by what a [`ModuleArity`] looks up: types, tags, and the open frames.
//! `wasm_operator_validator_rules` has the table that it answers, and what the rules of typing say of it;
//! [`laws::arities_are_those_of_the_rules`] joins the two.
//! Where the number is the same in every module, [`fixed`] has it.
#![tactic(auto)]

mod answering;
mod continuations;
mod counting;
pub mod fixed;
pub mod laws;
mod looking_up;
mod module_arity;
mod operator_arity;

pub use crate::fixed::in_u32;
pub use answering::{func_type_of_cont_type, sub_type_named, sub_type_of_ref_type, tag_type_arity};
pub use module_arity::ModuleArity;
pub use operator_arity::OperatorArity;
