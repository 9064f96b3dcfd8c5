//! What each frame that a parser gives is in the bytes (WebAssembly 3.0, binary format, modules), one step at a time. No code.

pub mod laws;
