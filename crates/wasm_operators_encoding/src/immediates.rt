//! What operators of WebAssembly carry besides their opcode, from bytes (WebAssembly 3.0, binary format, instructions).
//!
//! There is a function for each kind of immediate that has no `FromReader` of its own. Where a spelling depends on the
//! features, it goes by those of its reader. `specs/immediates/Immediates.antt` has all kinds as one decoder and one grammar, by
//! features; `laws` promises that the two agree.

mod bytes;
mod cast;
pub mod laws;
mod memory_argument;

pub use bytes::{
    read_lane, read_memory_or_zero, read_ordering, read_select_types, read_shuffle,
    read_table_or_zero, read_vector, read_zero_byte,
};
pub use cast::{CastBranch, read_cast_branch};
pub use memory_argument::{Access, read_memarg};
pub use wasm_operators_immediates::{
    BlockType, BrTable, BrTableTargets, Catch, FrameKind, FrameStack, Handle, MemArg,
    MemArgOrdering, MemArgTarget, Ordering, ResumeTable, TryTable, V128,
};
