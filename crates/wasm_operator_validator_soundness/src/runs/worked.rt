//! Worked runs and stuck states.

ghost use Rattle.std.specs.Prelude.{ℤ};
ghost use Rattle.wasm_operators_immediates.specs.declared.vector.V128.{V128};
ghost use Rattle.wasm_operator_validator_soundness.specs.runs.worked.Answered.{AnsweredWorked};
ghost use Rattle.wasm_operator_validator_soundness.specs.runs.worked.Branching.{BranchingWorked};
ghost use Rattle.wasm_operator_validator_soundness.specs.runs.worked.Caught.{CaughtWorked};
ghost use Rattle.wasm_operator_validator_soundness.specs.runs.worked.Objects.{ObjectsWorked};
ghost use Rattle.wasm_operator_validator_soundness.specs.runs.worked.Older.{OlderWorked};
ghost use Rattle.wasm_operator_validator_soundness.specs.runs.worked.Placed.{PlacedWorked};
ghost use Rattle.wasm_operator_validator_soundness.specs.runs.worked.Runs.{RunsWorked};
ghost use Rattle.wasm_operator_validator_soundness.specs.runs.worked.Segments.{SegmentsWorked};
ghost use Rattle.wasm_operator_validator_soundness.specs.runs.worked.Stuck.{PlacesWorked, StuckWorked};
ghost use Rattle.wasm_operator_validator_soundness.specs.runs.worked.Sums.{SumsWorked};
ghost use Rattle.wasm_operator_validator_soundness.specs.runs.worked.Vectors.{VectorsWorked};

/// What some code comes to: it returns, throws or traps, after calls, tail calls and exceptions that callers catch.
pub fn runs_are_worked()
    ensures { (x : ℤ) → RunsWorked x }
{}

/// States that are stuck, one for each way to be so, and steps that tell whose place is meant.
pub fn stuck_states_are_worked()
    ensures stuck { (x : ℤ) → StuckWorked x }
    ensures places { (x : ℤ) → PlacesWorked x }
{}

/// Types without values, operators that may trap, and states for which something is an answer, or nothing.
pub fn answers_are_worked()
    ensures { (x : ℤ) → AnsweredWorked x }
{}

/// What a derivation has at its places, whichever it is, and that it has nothing at others.
pub fn places_are_worked()
    ensures { PlacedWorked }
{}

/// Runs of a program that is valid: it adds two numbers, calls an import, and calls that and a function of its own through a table.
pub fn sums_are_worked()
    ensures { (x : ℤ) → SumsWorked x }
{}

/// A run of a program that is valid: a call through a table finds a function of a subtype, and what that throws is caught two calls
/// further out.
pub fn caught_is_worked()
    ensures { (x : ℤ) → CaughtWorked x }
{}

/// Runs of a program that is valid with structs and arrays, and which of them are of which types.
pub fn objects_are_worked()
    ensures { (x : ℤ) → ObjectsWorked x }
{}

/// Runs of a program that is valid, with a host that returns, traps and throws, a clause of an older `try`, tail calls, references to
/// functions, a local, a global and a constant.
pub fn older_is_worked()
    ensures { (x : ℤ) → OlderWorked x }
{}

/// Runs of a valid program with a loop that a table of labels decides, a cast that decides a branch, and an exception that is thrown
/// again, by a reference and by an older clause.
pub fn branching_is_worked()
    ensures { (x : ℤ) → BranchingWorked x }
{}

/// Runs of a valid program with a memory and segments, from which bytes and references come, and copies between arrays.
pub fn segments_are_worked()
    ensures { (x : ℤ) → SegmentsWorked x }
{}

/// Runs of a valid program with vectors, by features that have the switch for them.
pub fn vectors_are_worked()
    ensures { (x : ℤ) (c : V128) → VectorsWorked x c }
{}
