//! Worked values, runs and stuck configurations, each on the contract of a function that does nothing: a changed definition
//! breaks one.

ghost use Rattle.std.specs.Prelude.{ℤ};
ghost use Rattle.wasm_operator_validator_soundness.specs.worked.Values.{ValuesWorked};
ghost use Rattle.wasm_operator_validator_soundness.specs.worked.Runs.{RunsWorked};
ghost use Rattle.wasm_operator_validator_soundness.specs.worked.Stuck.{StuckWorked};
ghost use Rattle.wasm_operator_validator_soundness.specs.worked.Answered.{AnsweredWorked};

/// Values that are of a type and values that are not.
pub fn values_are_worked()
    ensures { ValuesWorked }
{}

/// Runs to an end, to a trap, out of blocks, round a loop, and operators one by one.
pub fn runs_are_worked()
    ensures { (x : ℤ) → RunsWorked x }
{}

/// Configurations that are stuck and configurations that are not; answers that fit and answers that do not.
pub fn stuck_configurations_are_worked()
    ensures { (x : ℤ) → StuckWorked x }
{}

/// For operators of each kind, an answer that fits, by which they go on; what is no answer to operators that run by their rows.
pub fn operators_are_answered()
    ensures { (x : ℤ) → AnsweredWorked x }
{}
