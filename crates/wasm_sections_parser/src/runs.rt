//! What a parser gives of a module is what its bytes spell (WebAssembly 3.0, binary format, modules). No code.
//!
//! [`steps`] says what each frame that is given is in the bytes, [`calls`] what one call of a parser after the other takes, [`hints`] how
//! many bytes it asks for, and [`laws`] what whole runs give.

pub mod calls;
pub mod hints;
pub mod laws;
pub mod steps;
