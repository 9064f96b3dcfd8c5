//! Worked segments, on the contract of a function that does nothing.

ghost use Rattle.wasm_types.specs.trees.Trees.{TypeTree};
ghost use Rattle.wasm_module_validator_initialisers.specs.elements.Worked.{ElementsWorked, NamesWorked};

/// Segments that are valid and segments that are not, and what they name: a changed definition breaks one.
pub fn elements_are_worked()
    ensures segments { (t : TypeTree) → ElementsWorked t }
    ensures names { NamesWorked }
{}
