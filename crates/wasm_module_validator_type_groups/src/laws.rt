//! The law of valid types over ids, on the contract of a function that does nothing.

ghost use Rattle.wasm_module_validator_type_groups.specs.laws.Statements.{TypesAreValidAsTrees, GroupsAreValidAsTrees};

/// The type of an id is valid exactly if the type that the id stands for is, and the types of a group where those of its
/// tree are.
pub fn types_are_valid_as_trees()
    ensures types { TypesAreValidAsTrees }
    ensures groups { GroupsAreValidAsTrees }
{}
