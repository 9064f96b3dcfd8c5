//! Modules as frames: a header, and sections as ids and contents, as definitions (WebAssembly 3.0, binary format, modules).
//!
//! `specs/frames/Outer.antt` is the outer spelling of a module: its header, its sections in order, custom sections anywhere, and
//! each entry of the code section as a string of bytes. `specs/frames/Decode.antt` has the decoders of a header and of a section;
//! the laws here promise that the two agree. There is no code: `wasm_sections_parser` reads frames.

pub mod laws;
