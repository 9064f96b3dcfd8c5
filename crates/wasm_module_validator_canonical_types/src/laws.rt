//! The laws of canonical forms, each on the contract of a function that does nothing.

ghost use Rattle.wasm_module_validator_canonical_types.specs.laws.Statements.{AllowedIsWellReferenced, CanonicalGroupsUnfold, CanonicalGroupsAreFormed};
ghost use Rattle.wasm_module_validator_canonical_types.specs.laws.Statements.{GroupsReadHaveModuleIndices, ReadGroupsHaveModuleIndices};
ghost use Rattle.wasm_module_validator_canonical_types.specs.Worked.{CanonicalWorked};

/// A group as a module writes it has allowed indices exactly if it is well referenced by the rules of valid groups. Its
/// canonical form then is formed, and stands for the types that the group stands for behind those of its module.
pub fn canonical_forms_unfold()
    ensures allowed { AllowedIsWellReferenced }
    ensures unfold { CanonicalGroupsUnfold }
    ensures formed { CanonicalGroupsAreFormed }
{}

/// A group that was read has indices of its module alone: so what bytes spell meets the premise of the laws of canonical forms,
/// and what the reader of groups answers may be added to a module.
pub fn groups_read_have_module_indices()
    ensures spelled { GroupsReadHaveModuleIndices }
    ensures read { ReadGroupsHaveModuleIndices }
{}

/// Worked groups with their canonical forms, and groups with an index that they may not have.
pub fn canonical_worked()
    ensures { CanonicalWorked }
{}
