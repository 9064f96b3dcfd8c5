//! Operators of WebAssembly, one variant for each, in enums by what they do.
//!
//! There are groups of control, parametric operators, exceptions and continuations; of variables, memories, constants,
//! tables and references; of numbers; of aggregates, casts and descriptors; of atomic accesses; and two of vectors, since
//! an enum has at most 256 variants: [`SimdOperator`] has those that carry something, [`SimdNumericOperator`] those that
//! do not. [`Operator`] is one of any group. An operator has its immediates as fields.
//!
//! A contract sees an operator as the tree `Op` of `specs/Op.antt`, which has the same groups and variants, with plain
//! lists in place of what lies in memory. The rules are the table of opcodes (`specs/Table.antt`), which `info` is proved
//! to answer, what each operator carries (`specs/Immediates.antt`), what it does to the frame in which it is
//! (`specs/Roles.antt`), and which operators are on vectors (`specs/Vectors.antt`). [`laws`] promises that codes tell operators apart, and that `==` is equality of trees.
#![tactic(auto)]

mod atomic;
mod bulk;
mod constant;
mod continuation;
mod control;
mod exceptions;
mod gc;
pub mod laws;
mod memory;
mod numeric;
mod operator;
mod role;
mod simd;
mod vector;
mod vector_numeric;

pub use atomic::{AtomicOperator, SharedOperator};
pub use bulk::BulkOperator;
pub use constant::ConstOperator;
pub use continuation::ContinuationOperator;
pub use control::{ControlOperator, ParametricOperator};
pub use exceptions::ExceptionOperator;
pub use gc::{DescriptorOperator, GcOperator};
pub use memory::MemoryOperator;
pub use numeric::NumericOperator;
pub use operator::Operator;
pub use role::{Effect, Role};
pub use simd::is_simd;
pub use vector::SimdOperator;
pub use vector_numeric::SimdNumericOperator;
pub use wasm_operators_immediates::{
    BlockType, BrTable, FrameKind, MemArg, OperatorInfo, Ordering, Proposal, ResumeTable, TryTable,
    V128, equality_is_identity,
};
