//! The limits of an implementation that no caller chooses, by the names that tools share (WebAssembly 3.0, appendix,
//! implementation limitations). The others are fields of `Limits`.

/// The most supertypes that a type declares.
pub const MAX_WASM_SUPERTYPES: usize = 1;
