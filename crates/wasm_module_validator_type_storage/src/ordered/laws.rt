//! Worked rows, on the contracts of functions that do nothing.

ghost use Rattle.wasm_module_validator_type_storage.specs.ordered.Worked.{OrderWorked, FindingWorked, PuttingWorked};

/// Lists in order and out of order.
pub fn order_worked()
    ensures { OrderWorked }
{}

/// What is found, and what is not.
pub fn finding_worked()
    ensures { FindingWorked }
{}

/// Where a number is put, and where not.
pub fn putting_worked()
    ensures { PuttingWorked }
{}
