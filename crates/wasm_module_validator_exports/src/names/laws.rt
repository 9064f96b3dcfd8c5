//! Worked rows, on the contract of a function that does nothing.

ghost use Rattle.wasm_module_validator_exports.specs.names.laws.Names.{ImportRows, NameRows};

/// Imports by their names, and which names are new, worked.
#[tactic(auto, using(crate::specs::names::laws::Names::import_rows, crate::specs::names::laws::Names::name_rows))]
pub const fn names_are_worked()
    ensures imports { ImportRows }
    ensures names { NameRows }
{}
