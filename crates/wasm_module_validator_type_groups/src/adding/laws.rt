//! The laws of groups that are added one by one, each on the contract of a function that does nothing.

ghost use Rattle.wasm_module_validator_type_groups.specs.adding.Modules.{GroupsAreAddedOneByOne, NothingIsChecked};
ghost use Rattle.wasm_module_validator_type_groups.specs.adding.Worked.{AddingWorked};

/// A run of groups is valid, by the rules of whole modules, exactly if each of them is as it is added: so a module to which
/// groups were added one after the other holds the types of a valid run.
pub fn groups_are_added_one_by_one()
    ensures { GroupsAreAddedOneByOne }
{}

/// A new list and a new module are what the first group may be added to.
pub fn nothing_is_checked()
    ensures { NothingIsChecked }
{}

/// Worked groups: what a list keeps of them, and what adding one leaves.
pub fn adding_worked()
    ensures { AddingWorked }
{}
