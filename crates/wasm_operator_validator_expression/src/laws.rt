//! The laws, each on the contract of a function that does nothing.

ghost use Rattle.wasm_operator_validator_expression.specs.Validating.{BodiesAreExpressions};
ghost use Rattle.wasm_operator_validator_expression.specs.Unasked.{BodiesHaveNoVectors, AcceptedHaveNoVectors};

/// Where a body begins, the bytes that are accepted as an expression are those that spell a well-typed body.
pub const fn bodies_are_expressions()
    ensures { BodiesAreExpressions }
{}

/// By no set of the 28 features alone code that is accepted has an operator on vectors.
#[tactic(auto, using(crate::specs::laws::Vectors::bodies_have_no_vectors, crate::specs::laws::Vectors::accepted_have_no_vectors))]
pub const fn vectors_are_asked_for()
    ensures bodies { BodiesHaveNoVectors }
    ensures accepted { AcceptedHaveNoVectors }
{}
