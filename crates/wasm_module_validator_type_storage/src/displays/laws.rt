//! Worked rows, on the contract of a function that does nothing.

ghost use Rattle.wasm_module_validator_type_storage.specs.displays.Worked.{ChainsWorked, DisplaysWorked};
ghost use Rattle.wasm_module_validator_type_storage.specs.declared.displays.Display.{Display};

/// Types declared below one another, and their depths.
pub fn chains_worked()
    ensures { ChainsWorked }
{}

/// Which types have displays, and for which there is room.
pub fn displays_worked()
    ensures { (d : Display) → DisplaysWorked d }
{}
