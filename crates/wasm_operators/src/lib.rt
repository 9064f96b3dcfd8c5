//! Operators of WebAssembly: readers and visitors of them. The public crate of this layer.
//!
//! `OperatorsReader` reads operators from bytes, one after the other, and knows which frames are open (`ControlStack`);
//! `read_expression` reads a whole expression, and [`visit_expression`] visits one. With frames of your own
//! (`FrameStack`), `ReadOperators`, [`ReadToVisitor`] and [`ReadToSimdVisitor`] look at, read and visit one operator of a
//! `BinaryReader`; [`VisitNext`] and [`VisitNextSimd`] do so of a reader of operators. `FunctionBody` has the groups of
//! locals of a body (`LocalsReader`) and finds the place at which its operators begin; `ConstExpr` is a constant
//! expression. `Operator::info` tells an operator's proposal, name, prefix and code (`OperatorInfo`).
//!
//! A visitor implements the traits of groups (`VisitControl`, `VisitMemory` and so on), one visit for each operator, under
//! the relation that its `Visitor` states. With all of them except those of vectors it is a `VisitOperator`; with
//! `VisitSimd`, `VisitSimdNarrow`, `VisitSimdWide` and `VisitSimdFloats` too it is a `VisitSimdOperator`. Calls at one type
//! with hundreds of visits are made by `TellOperator`, which has three methods, and with vectors by `TellSimdOperator`,
//! which has one.
//!
//! The rules are in the crates below: the tables of opcodes and of immediates in `wasm_operators_enums`, which bytes spell
//! an operator in `wasm_operators_encoding`, and which spell an expression in `wasm_operators_encoding::expressions`.
#![tactic(auto)]

mod expressions;
mod read_operators;
mod visits;

pub use expressions::{visit_expression, visit_expression_with_offset};
pub use read_operators::{ReadToSimdVisitor, ReadToVisitor};
pub use visits::{VisitNext, VisitNextSimd};
pub use wasm_operators_bodies::{ConstExpr, FunctionBody, LocalsIterator, LocalsReader};
pub use wasm_operators_enums::is_simd;
pub use wasm_operators_frequent::reading::LentVisitor;
pub use wasm_operators_reader::walks::{
    ReadOperators, TellSimdOperator, laws, tell_expression_with_offset,
    tell_operator_in_frame_simd, tell_operator_simd, tell_whole_with_offset,
};
pub use wasm_operators_reader::{
    AtomicOperator, BlockType, BrTable, BrTableTargets, BulkOperator, Catch, ConstOperator,
    ContinuationOperator, ControlOperator, ControlStack, DescriptorOperator, ExceptionOperator,
    FrameKind, FrameStack, GcOperator, Handle, MemArg, MemArgOrdering, MemArgTarget,
    MemoryOperator, NumericOperator, Operator, OperatorInfo, OperatorsIterator,
    OperatorsIteratorWithOffsets, OperatorsReader, OperatorsReaderAllocations, Ordering,
    ParametricOperator, Proposal, ResumeTable, SharedOperator, SimdNumericOperator, SimdOperator,
    TellOperator, TryTable, V128, Visitor, read_expression, read_operator,
};
pub use wasm_operators_visit_simd_operator::{
    VisitAtomic, VisitControl, VisitFloats, VisitGc, VisitIntegers, VisitMemory, VisitOperator,
    VisitShared, VisitSimd, VisitSimdFloats, VisitSimdNarrow, VisitSimdOperator, VisitSimdWide,
};
