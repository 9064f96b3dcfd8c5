//! The lines that `wasm-check` writes of its files.
//!
//! Of each file a [`Form`] makes one text: of a file that is valid [`valid_text`], of one that was refused [`refused_text`]. Whatever
//! a file's name, the reason of a refusal and an explanation hold, no byte of them ends a line: [`Shown`] writes them in lines, and
//! [`Quoted`] in strings of JSON. For example a file called `a` and a line feed, if it is valid, is told as `a\u{a}: valid`. `specs/`
//! defines the texts.
//!
//! An error has a kind, and a message for people. [`cause_of`] reads both once, so that nothing else compares messages: the lines, their
//! hints, explanations, and the fault that C gets all ask for the [`Cause`]. For example a body with too many locals has the cause
//! [`Limit::Locals`].
#![tactic(auto)]

mod causes;
mod forms;
mod hints;
mod json;
mod limit;
mod notes;
mod shown;
mod words;

pub use causes::{Cause, cause_of};
pub use forms::{Form, Refusal, refused_text, valid_text};
pub use hints::write_framed;
pub use json::Quoted;
pub use limit::Limit;
pub use notes::{Explanation, Member, Value};
pub use shown::{Shown, lines_end_once, texts_are_shown_apart};
pub use words::word_for;
