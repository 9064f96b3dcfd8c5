//! Sections that are one number checked by the rules, and whose turn it is (WebAssembly 3.0, validation, modules).
//!
//! The order of sections and the counts of code and data are the parser's to check; what is asked here is that calls come in turn:
//! a header, sections, the code section, its end (`specs/Turns.antt`). Nothing here takes memory.

pub mod laws;
mod numbers;
mod state;

pub use numbers::{check_data_count, check_start, get_func_type};
pub use state::{Call, State};
