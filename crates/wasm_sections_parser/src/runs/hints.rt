//! How many bytes a parser asks for (WebAssembly 3.0, binary format, modules): the least that can bring something else. No code.

pub mod laws;
