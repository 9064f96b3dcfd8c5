//! The program `wasm-check`, except for its judge and for `main`.
//!
//! [`check_by`] has inputs judged one after another and writes a line for each. [`run_by`] reads the words of a command line,
//! opens the files that they name, has them judged by [`check_by`] and gives the exit status. Both are handed a [`Judge`], which
//! says of bytes whether they are valid, of all at once or of what a reader gives piece by piece: `wasm_check_program` hands over the validator of
//! modules. `specs/` defines the files, the words and the statuses; what it says of verdicts takes the judge's `accepts`. The texts of lines are
//! those of `wasm_check_lines`; lists of features and limits, and what is told of faults, are in `wasm_check_faults`.
#![tactic(auto)]

mod arguments;
mod built;
mod command;
mod files;
mod going;
mod judging;
mod large;
mod listing;
mod names;
mod needs;
mod pieces;
mod steady;
mod tables;
mod telling;

pub use built::VERSION;
pub use command::{reads_worked_words, run_by};
pub use judging::{Input, Judge, MAX_BYTES, Mode, Status, Unjudged, check_by};
pub use names::word_text;
