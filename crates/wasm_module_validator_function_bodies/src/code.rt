//! The bodies of a module's functions, judged one after the other (WebAssembly 3.0, validation, modules, functions).
//!
//! [`judge_bodies`] is Ok exactly if each body's bytes spell a function that is valid as one of its type, by the rules of a module
//! (`specs/Code.antt`), out of memory aside. Most bodies are valid: each is judged first in the loop (`PlainJudge`), in memory that the next uses again.

mod bodies;
mod laws;

pub use bodies::judge_bodies;
pub use laws::bodies_are_worked;
