//! The types of blocks.

use wasm_types::ValType;

/// The type of a block (WebAssembly 3.0, structure, control instructions).
#[derive(Clone, Copy, Debug, PartialEq, Eq)]
pub enum BlockType {
    /// No parameter and no result.
    Empty,
    /// One result of this type.
    Val(ValType),
    /// The function type with this index.
    FuncType(u32),
}
