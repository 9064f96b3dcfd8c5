//! Global types.

use wasm_types_values::ValType;

/// A global (WebAssembly 3.0, structure, global types; `shared` by the proposal on shared everything).
#[derive(Clone, Copy, Debug, PartialEq, Eq, Hash)]
pub struct GlobalType {
    /// The type of its value.
    pub content_type: ValType,
    /// Whether it may be written.
    pub mutable: bool,
    /// Whether it is shared between threads.
    pub shared: bool,
}
