//! Readers of operators in frames, and of expressions (WebAssembly 3.0, binary format, expressions).
//!
//! An [`OperatorsReader`] reads one operator after the other and keeps the list of open frames; it refuses an operator
//! that may not come next. [`read_expression`] reads a whole expression, exactly if all the bytes spell one.
//! `specs/Standing.antt` defines what is read from where a reader stands and why it refuses, `specs/Iterating.antt`
//! what the iterators give, and `specs/Visiting.antt` what a visitor is told. The visits themselves are not named here: whoever reads
//! operators would pass on all of them (`wasm_operators` has what visits).
//!
//! Its parts beside these:
//!
//! - [`walks`]: operators from a reader of bytes whose frames the caller keeps, and expressions whose operators a visitor is told of.
#![tactic(auto)]

mod cursor;
mod expression;
mod frequent;
mod iterators;
pub mod laws;
mod operators_reader;
mod taker;
mod visiting;
pub mod walks;

pub use expression::read_expression;
pub use iterators::{OperatorsIterator, OperatorsIteratorWithOffsets};
pub use operators_reader::{OperatorsReader, OperatorsReaderAllocations, misplaced};
pub use visiting::unexpected_vector;
pub use wasm_operators_decode::{
    AtomicOperator, NumericOperator, SharedOperator, SimdNumericOperator, SimdOperator,
    read_operator,
};
pub use wasm_operators_encoding::expressions::{
    BlockType, BrTable, BrTableTargets, BulkOperator, Catch, ConstOperator, ContinuationOperator,
    ControlOperator, ControlStack, DescriptorOperator, ExceptionOperator, FrameKind, FrameStack,
    GcOperator, Handle, MemArg, MemArgOrdering, MemArgTarget, MemoryOperator, Operator,
    OperatorInfo, Ordering, ParametricOperator, Proposal, ResumeTable, Role, TryTable, V128,
};
pub use wasm_operators_frequent::reading::TellOperator;
pub use wasm_operators_visit_simd_operator::Visitor;
