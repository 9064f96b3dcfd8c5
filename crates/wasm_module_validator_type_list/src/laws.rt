//! Worked rows, on the contract of a function that does nothing.

ghost use Rattle.wasm_module_validator_type_list.specs.Worked.{ListsWorked};

/// Room for groups, which groups are added and which are known, how they are kept, the places of groups, and depths.
pub fn lists_worked()
    ensures { ListsWorked }
{}
