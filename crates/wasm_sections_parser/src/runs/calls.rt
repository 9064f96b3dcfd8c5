//! Calls of a parser, one after the other (WebAssembly 3.0, binary format, modules): what each takes, and where it leaves the parser. No
//! code.

pub mod laws;
