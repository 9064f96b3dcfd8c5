//! The laws, each on the contract of a function that does nothing.

ghost use Rattle.wasm_operator_validator_state.specs.Bodies.{BodiesAreAccepted, EndIsLast, NothingFollows, NothingAfterRefusal};
ghost use Rattle.wasm_operator_validator_resources.specs.Meaning.{Meaning};
ghost use Rattle.wasm_operator_validator_state.specs.worked.Bodies.{BodiesWorked};
ghost use Rattle.wasm_operator_validator_state.specs.worked.Operands.{OperandsWorked};
ghost use Rattle.wasm_operator_validator_state.specs.worked.Refusals.{RefusalsWorked};

/// Which stacks operands stand for, and which not.
pub const fn operands_are_worked()
    ensures { OperandsWorked }
{}

/// The kinds of refusals.
pub const fn refusals_are_worked()
    ensures { RefusalsWorked }
{}

/// Where a body begins, exactly the operators of a well-typed body may come: those of the tree's walk.
pub const fn bodies_are_accepted()
    ensures { BodiesAreAccepted }
{}

/// Behind the end of the outermost frame nothing may come, and nothing else ends.
#[tactic(auto, using(crate::specs::laws::Accepting::accepts_nothing, crate::specs::laws::Accepting::accepts_no_more))]
pub const fn ends_are_last()
    ensures last { EndIsLast }
    ensures nothing_follows { NothingFollows }
{}

/// After a refused operator nothing may come.
#[tactic(auto, using(crate::specs::laws::Accepting::accepts_not_failed))]
pub const fn refusals_are_last()
    ensures { NothingAfterRefusal }
{}

/// Which operators may come where a body begins, and which not.
pub const fn first_operators_are_worked()
    ensures { (m : Meaning) → BodiesWorked m }
{}
