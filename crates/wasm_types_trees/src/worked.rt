//! Worked types, each on the contract of a function that does nothing: a changed definition of the rules breaks one.

ghost use Rattle.wasm_types_trees.specs.worked.Gates.{Gated};
ghost use Rattle.wasm_types_trees.specs.worked.Subtypes.{SubtypesWorked};
ghost use Rattle.wasm_types_trees.specs.worked.Matches.{MatchesWorked};
ghost use Rattle.wasm_types_trees.specs.worked.Groups.{GroupsWorked};

/// Value types that features allow and refuse.
pub fn features_gate_worked_types()
    ensures { Gated }
{}

/// Types that are below one another and types that are not, among them a function type that declares a struct.
pub fn subtyping_of_worked_types()
    ensures { SubtypesWorked }
{}

/// Composite types that match one another and composite types that don't.
pub fn matching_of_worked_types()
    ensures { MatchesWorked }
{}

/// Groups that are valid and groups that are not.
pub fn validity_of_worked_groups()
    ensures { GroupsWorked }
{}
