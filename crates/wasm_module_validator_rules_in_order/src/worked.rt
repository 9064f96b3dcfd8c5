//! Worked items, sections and frames, on the contract of a function that does nothing: a changed definition breaks a row.

ghost use Rattle.std.specs.Prelude.{ℤ};
ghost use Rattle.wasm_module_validator_rules_in_order.specs.Worked.{TypesWorked, SpacesWorked, SegmentsWorked, ReadWorked, FramesWorked};

/// For each kind of section items that are added and items that are not; and frames, those that come and those that do not.
pub fn steps_are_worked()
    ensures types { TypesWorked }
    ensures spaces { (x : ℤ) → SpacesWorked x }
    ensures segments { (x : ℤ) → SegmentsWorked x }
    ensures read { (x : ℤ) → ReadWorked x }
    ensures frames { FramesWorked }
{}
