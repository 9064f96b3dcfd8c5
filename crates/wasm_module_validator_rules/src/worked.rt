//! Worked modules, each on the contract of a function that does nothing: a changed definition of the rules breaks one.

ghost use Rattle.std.specs.Prelude.{ℤ};
ghost use Rattle.wasm_module_validator_rules.specs.worked.Modules.{FunctionsWorked, SpacesWorked, GlobalsWorked, SegmentsWorked, LimitsWorked, ContextWorked};
ghost use Rattle.wasm_module_validator_rules.specs.worked.Releases.{ReleasesWorked};
ghost use Rattle.wasm_module_validator_rules.specs.worked.Bounds.{BoundsWorked, SizesWorked};
ghost use Rattle.wasm_module_validator_rules.specs.worked.Items.{ImportsWorked, TypesWorked, SharedWorked, ElementsWorked, IndicesWorked};
ghost use Rattle.wasm_module_validator_rules.specs.worked.Functions.{BlocksWorked, LocalsWorked, ElseWorked};
ghost use Rattle.wasm_module_validator_rules.specs.worked.Bytes.{BytesWorked};

/// Modules that are valid and modules that are not.
pub fn modules_are_worked()
    ensures functions { (x : ℤ) → FunctionsWorked x }
    ensures spaces { SpacesWorked }
    ensures globals { (x : ℤ) → GlobalsWorked x }
    ensures segments { (x : ℤ) → SegmentsWorked x }
    ensures limits { LimitsWorked }
    ensures context { ContextWorked }
{}

/// Modules that are valid by the features of the first release alone, and modules that are not.
pub fn releases_are_worked()
    ensures { (x : ℤ) → ReleasesWorked x }
{}

/// Tables and memories at their bounds and past them, and the sizes of what is imported and exported.
pub fn bounds_are_worked()
    ensures bounds { BoundsWorked }
    ensures sizes { SizesWorked }
{}

/// Imports, types, shared items, segments of expressions, and items that are not the first of their space.
pub fn items_are_worked()
    ensures imports { ImportsWorked }
    ensures types { TypesWorked }
    ensures shared { SharedWorked }
    ensures elements { (x : ℤ) → ElementsWorked x }
    ensures indices { (x : ℤ) → IndicesWorked x }
{}

/// Functions whose code is typed and functions whose code is not.
pub fn functions_are_worked()
    ensures blocks { (x : ℤ) → BlocksWorked x }
    ensures locals { (x : ℤ) → LocalsWorked x }
    ensures others { (x : ℤ) → ElseWorked x }
{}

/// Bytes that are accepted and bytes that are not.
pub fn bytes_are_worked()
    ensures { BytesWorked }
{}
