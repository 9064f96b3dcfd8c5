//! Laws of the rules of operators, each the contract of a function that does nothing.

ghost use Rattle.wasm_operator_validator_rules.specs.NameLaws.{FloatsAreNamed, ConstantsAreNamed};

/// The operators that need the feature `FLOATS` are exactly those with `f32` or `f64` in their names (WebAssembly 3.0, appendix,
/// index of instructions).
#[tactic(auto, using(crate::proofs::FloatNames::floats_are_named))]
pub const fn floats_are_named()
    ensures { FloatsAreNamed }
{}

/// No operators but 26 are constant, by their names (WebAssembly 3.0, validation, instructions, constant expressions; two of them by
/// the proposal on custom descriptors, and one by that on shared everything).
#[tactic(auto, using(crate::proofs::ConstantNames::constants_are_named))]
pub const fn constants_are_named()
    ensures { ConstantsAreNamed }
{}
