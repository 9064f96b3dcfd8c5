//! Operators.

ghost use Rattle.std.specs.Prelude.{◌≡◌};
ghost use Rattle.wasm_operators_immediates.specs.Info.{told};

use crate::role::Role;
use crate::{
    AtomicOperator, BulkOperator, ConstOperator, ContinuationOperator, ControlOperator,
    DescriptorOperator, ExceptionOperator, FrameKind, GcOperator, MemoryOperator, NumericOperator,
    OperatorInfo, ParametricOperator, SharedOperator, SimdNumericOperator, SimdOperator,
};

/// An operator, by its group (WebAssembly 3.0, structure, instructions). A body is a list of them, in which `end` closes
/// what `block` and its like open.
#[derive(Clone, Drop, PartialEq, Eq)]
pub enum Operator<'a> {
    /// Blocks, branches and calls.
    Control(ControlOperator<'a>),
    /// What takes operands of any type.
    Parametric(ParametricOperator),
    /// Exceptions.
    Exception(ExceptionOperator),
    /// Variables and memories.
    Memory(MemoryOperator),
    /// Constants.
    Const(ConstOperator),
    /// Numbers.
    Numeric(NumericOperator),
    /// Ranges of memories and tables, tables and references.
    Bulk(BulkOperator),
    /// Structs, arrays, casts and `i31`.
    Gc(GcOperator),
    /// Structs with descriptors.
    Descriptor(DescriptorOperator),
    /// Vectors, with what they carry.
    Simd(SimdOperator),
    /// Vectors, without.
    SimdNumeric(SimdNumericOperator),
    /// Atomic accesses to memories.
    Atomic(AtomicOperator),
    /// Atomic accesses to globals, tables, structs and arrays.
    Shared(SharedOperator),
    /// Continuations.
    Continuation(ContinuationOperator),
}

impl<'a> Operator<'a> {
    ghost use Rattle.wasm_operators_enums.specs.Op.{op_of};
    ghost use Rattle.wasm_operators_enums.specs.Table.{info_of};
    ghost use Rattle.wasm_operators_enums.specs.Roles.{fits};

    /// What is told of it apart from what it carries: its proposal, name, prefix and code.
    pub fn info(&self) -> OperatorInfo
        ensures { told result ≡ info_of (op_of self.now) }
    {
        match self {
            Operator::Control(op) => op.info(),
            Operator::Parametric(op) => op.info(),
            Operator::Exception(op) => op.info(),
            Operator::Memory(op) => op.info(),
            Operator::Const(op) => op.info(),
            Operator::Numeric(op) => op.info(),
            Operator::Bulk(op) => op.info(),
            Operator::Gc(op) => op.info(),
            Operator::Descriptor(op) => op.info(),
            Operator::Simd(op) => op.info(),
            Operator::SimdNumeric(op) => op.info(),
            Operator::Atomic(op) => op.info(),
            Operator::Shared(op) => op.info(),
            Operator::Continuation(op) => op.info(),
        }
    }

    /// Whether it may come next where `frame` is the innermost that is open: `else` in an `if` alone, `catch` and
    /// `catch_all` in the older `try` and `catch`, `delegate` in the older `try`, any other operator in any frame, and
    /// nothing where none is open.
    #[inline]
    pub fn fits_frame(&self, frame: Option<FrameKind>) -> bool
        ensures { result ≡ fits (op_of self.now) frame }
    {
        let Some(frame) = frame else {
            return false;
        };
        Role::of(self).effect(frame).is_some()
    }
}
