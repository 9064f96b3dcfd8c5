//! What the answers have to do with the rules, on the contract of a function that does nothing.

ghost use Rattle.wasm_operator_validator_arity.specs.laws.Answers.{AnswersAreExact};

/// If the rules let an operator take and give so many operands, the answer for it is these numbers, as far as 32 bits hold them.
#[tactic(auto, using(crate::specs::laws::Answers::answers_are_exact))]
pub const fn arities_are_those_of_the_rules()
    ensures { AnswersAreExact }
{}
