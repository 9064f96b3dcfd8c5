//! Worked items, on the contract of a function that does nothing.

ghost use Rattle.wasm_module_validator_initialisers.specs.segments.Worked.{GlobalsWorked, TablesWorked, DataWorked};

/// Items that are valid and items that are not: a changed definition breaks one.
pub fn items_are_worked()
    ensures globals { GlobalsWorked }
    ensures tables { TablesWorked }
    ensures data_segments { DataWorked }
{}
