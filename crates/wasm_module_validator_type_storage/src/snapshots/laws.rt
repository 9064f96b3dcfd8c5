//! Worked rows, on the contract of a function that does nothing.

ghost use Rattle.wasm_module_validator_type_storage.specs.snapshots.Worked.{PiecesWorked};

/// A list in pieces, and where each piece begins.
pub fn pieces_worked()
    ensures { PiecesWorked }
{}
