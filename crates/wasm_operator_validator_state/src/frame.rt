//! An open frame.

use wasm_operator_validator_resources::{BlockType, FrameKind};

/// An open frame, over the operands and the set locals of those around it (WebAssembly 3.0, validation algorithm).
#[derive(Clone, Copy, Debug, PartialEq, Eq)]
pub struct Frame {
    /// What opened it, or began its last part.
    pub kind: FrameKind,
    /// Its type.
    pub block_type: BlockType,
    /// How many operands lay below it where it began.
    pub height: usize,
    /// Whether the code here cannot be reached.
    pub unreachable: bool,
    /// How many locals were set where it began.
    pub init_height: usize,
}
