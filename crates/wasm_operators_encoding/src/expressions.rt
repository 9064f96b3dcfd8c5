//! Expressions of WebAssembly: operators in frames, as trees and as bytes (WebAssembly 3.0, binary format,
//! expressions).
//!
//! A frame is a block that is open. `specs/expressions/Code.antt` has instructions as a tree, where each operator may stand in it,
//! and the order of its walk; `specs/expressions/Spelling.antt` has which bytes spell an expression. A reader needs less: the list
//! of open frames, which `specs/expressions/Frames.antt` relates to the tree and a [`ControlStack`] keeps.

mod control_stack;
pub mod laws;

pub use crate::{
    BlockType, BrTable, BrTableTargets, BulkOperator, Catch, ConstOperator, ContinuationOperator,
    ControlOperator, DescriptorOperator, ExceptionOperator, FrameKind, FrameStack, GcOperator,
    Handle, MemArg, MemArgOrdering, MemArgTarget, MemoryOperator, Operator, OperatorInfo, Ordering,
    ParametricOperator, Proposal, ResumeTable, Role, TryTable, V128,
};
pub use control_stack::ControlStack;
