//! The program `wasm-check`, except for `main`: its calls, over the validator of modules.
//!
//! [`check`] judges inputs one after another and writes a line for each. [`run`] reads the words of a command line,
//! opens the files that they name, judges them as [`check`] does and gives the exit status; [`run_at`] also helps a person at a terminal. Each is one call of
//! `wasm_check_command`, whose `specs/` defines the files, the words and the statuses over whatever says which bytes
//! are valid by which features and limits: here `AcceptsUnder` does. [`words`] reads the words of the command line. [`Watched`] notices that a module was refused for its vectors. `main`, which hands over these and the streams of the process, stands
//! alone in `wasm_check`.
#![tactic(auto)]

mod arguments;
mod command;
mod judging;
mod watched;

pub use arguments::words;
pub use command::{run, run_at};
pub use judging::check;
pub use wasm_check_command::{Input, MAX_BYTES, Mode, Status, VERSION, reads_worked_words};
pub use wasm_check_faults::{
    CheckError, LimitFault, UnknownFeature, faults_stay_in_line, parse_features, parse_limits,
    parses_worked_features, parses_worked_limits,
};
pub use wasm_check_lines::{lines_end_once, texts_are_shown_apart};
pub use watched::Watched;
