//! How many operands each operator takes and gives: the rules.
//!
//! `specs/Arity.antt` is the table, by operator; where the module or the open frames determine a number, it is looked up.
//! `specs/Exchanges.antt` says what the rules of typing say of it: the lengths of the shortest row, or of the signature of the frame that
//! is opened, turned or closed. [`counts_are_exact`] promises that the table has these numbers wherever the rules give any. [`counts_are_worked`]
//! has rows of it worked by hand. This crate has no code.

ghost use Rattle.wasm_operator_validator_rules.specs.arity.Exchanges.{CountsAreExact};
ghost use Rattle.wasm_operator_validator_rules.specs.arity.Worked.{CountsWorked};

/// Where the rules let an operator take and give so many operands, the table has these numbers.
#[tactic(auto, using(crate::specs::arity::laws::Groups::counts_are_exact))]
pub const fn counts_are_exact()
    ensures { CountsAreExact }
{}

/// Rows of the table worked by hand.
#[tactic(auto, using(crate::proofs::WorkedCounts::counts_worked))]
pub const fn counts_are_worked()
    ensures { CountsWorked }
{}
