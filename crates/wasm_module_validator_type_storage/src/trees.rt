//! Interned types as plain data: the groups of a list in canonical form, the tree that each id stands for, and which
//! lists are formed (WebAssembly 3.0, validation, types).
//!
//! The rules stand in `specs/trees/Groups.antt`, `specs/trees/Formed.antt` and `specs/trees/ByIds.antt`; `specs/trees/Worked.antt` has worked
//! lists, and `specs/trees/laws` the laws with their proofs. The tree of a type is that of `wasm_types_trees`. This crate has no
//! code but the functions that promise the laws and the worked lists.

pub mod laws;
