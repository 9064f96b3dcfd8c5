//! Worked rows, on the contract of a function that does nothing.

ghost use Rattle.wasm_module_validator_type_alloc.specs.Worked.{IndicesWorked, SizesWorked};

/// Sizes of types and of groups.
pub fn sizes_worked()
    ensures { SizesWorked }
{}

/// What indices of groups mean in a list.
pub fn indices_worked()
    ensures { IndicesWorked }
{}
