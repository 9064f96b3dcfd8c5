//! A module as its frames, one at a time (WebAssembly 3.0, binary format, modules): the header, whole sections, the code
//! section as its start and then body by body, the end.
//!
//! A parser is given the bytes that are there, and whether more may come. `specs/Steps.antt` says what comes next at the
//! place of a parser, and `specs/Parsing.antt` what a call of `parse` answers: a frame and how many bytes it took, or how
//! many bytes are needed at least, or a refusal. [`runs`] says that the frames that such calls give are those that the
//! bytes spell, however they were cut.
#![tactic(auto)]

mod bodies;
mod customs;
mod frame;
pub mod laws;
mod needs;
mod numbers;
mod parser;
mod progress;
pub mod runs;
mod sections;

pub use frame::{CustomSectionReader, Encoding, Frame};
pub use parser::{Chunk, Parser};
pub use progress::{Progress, Stage};
