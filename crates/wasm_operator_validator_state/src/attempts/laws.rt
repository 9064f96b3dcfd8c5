//! What logs give back, on the contracts of functions that do nothing.

ghost use Rattle.wasm_operator_validator_state.specs.attempts.Worked.{LogRows, SetLocalsAreForgotten, KeepsNoMore};

/// Logs worked by hand, that locals which an attempt sets need no note, and that a log keeps no more than stood where its attempt began.
#[tactic(auto, using(crate::specs::attempts::WorkedLaws::log_rows, crate::specs::attempts::WorkedLaws::set_locals_are_forgotten, crate::specs::attempts::WorkedLaws::keeps_no_more))]
pub const fn logs_are_worked()
    ensures rows { LogRows }
    ensures forgotten { SetLocalsAreForgotten }
    ensures no_more { KeepsNoMore }
{}
