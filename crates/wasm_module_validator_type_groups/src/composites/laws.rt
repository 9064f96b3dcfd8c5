//! The law of composite types over ids, on the contract of a function that does nothing.

ghost use Rattle.wasm_module_validator_type_groups.specs.composites.laws.Statements.{CompositesAreValidAsTypes};

/// A composite type over ids is valid exactly if it is over the types that the ids stand for.
pub fn composites_are_valid_as_types()
    ensures { CompositesAreValidAsTypes }
{}
