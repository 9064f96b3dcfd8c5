//! The rules of constant expressions: which operators are constant, and which expressions (WebAssembly 3.0, validation,
//! instructions, constant expressions).
//!
//! There is no code here but worked operators, on the contract of a function that does nothing. `specs/Constants.antt` is read behind
//! the rules of operators (`wasm_operator_validator_rules`); the rules of modules cite it for the values of globals and tables, for
//! offsets and for elements, and their worked modules pin it too.

ghost use Rattle.std.specs.Prelude.{ℤ};
ghost use Rattle.wasm_operators_immediates.specs.declared.vector.V128.{V128};
ghost use Rattle.wasm_operator_validator_rules.specs.constants.Worked.{OperatorsWorked, GlobalsWorked, VectorsWorked};

/// Operators that are constant and operators that are not: a changed definition of the rules breaks one.
#[tactic(auto, unfolding(crate::specs::constants::Worked::has))]
pub fn constant_operators_are_worked()
    ensures operators { (x : ℤ) → OperatorsWorked x }
    ensures globals { GlobalsWorked }
    ensures vectors { (value : V128) → VectorsWorked value }
{}
