//! When memory may be wanted, and which locals have a value from the start, on the contracts of functions that do nothing.

ghost use Rattle.wasm_operator_validator_memory.specs.DeclaredLaws.{DeclaredLaws};
ghost use Rattle.wasm_operator_validator_memory.specs.RoomLaws.{RoomLaws};

/// Memory may be wanted for `drop`, and not for a local that is not there or has no value, nor behind the end.
pub const fn room_is_wanted_by_types()
    ensures { RoomLaws }
{}

/// Of the locals that a body declares those of types with a default value have a value from the start, and it changes no others.
pub const fn locals_start_by_types()
    ensures { DeclaredLaws }
{}
