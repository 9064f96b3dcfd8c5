//! The laws of matching over ids, each on the contract of a function that does nothing.

ghost use Rattle.wasm_module_validator_canonical_types.specs.matches.laws.Statements.{TypesHaveKnownIds, IdsMatchAsTypes};
ghost use Rattle.wasm_module_validator_canonical_types.specs.matches.Worked.{MatchesWorked};

/// In a list of groups in canonical form each type refers to ids of the list alone, and one id matches another exactly
/// where its type does.
pub fn ids_match_as_types()
    ensures known { TypesHaveKnownIds }
    ensures matches { IdsMatchAsTypes }
{}

/// Worked types that match one another and types that don't.
pub fn matching_worked()
    ensures { MatchesWorked }
{}
