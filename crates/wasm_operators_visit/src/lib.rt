//! What a visitor of operators is, and the visits of operators of control.
//!
//! A visitor is told each operator by a visit of its own, a method of one of the traits of groups. All visits of a
//! [`Visitor`] promise one relation, which the visitor names: of itself before, the operator, the answer, and itself
//! after. So whoever drives a visitor needs one clause for all operators. What lends a visitor ([`Lender`]), as a reference
//! or a box does, is a visitor too. `specs/Memory.antt` defines which operators keep a list, so that a copy of one takes
//! memory.
//!
//! [`control`] has the first of these traits: operators of control, those that take operands of any type, exceptions and
//! continuations. The other groups have crates of their own.
#![tactic(auto)]

ghost use Rattle.std.specs.Prelude.{◌≡◌};
ghost use Rattle.wasm_operators_enums.specs.Op.{Op};

pub mod control;
mod lender;

pub use lender::Lender;
pub use wasm_operators_enums::{
    AtomicOperator, BlockType, BrTable, BulkOperator, ConstOperator, ContinuationOperator,
    ControlOperator, DescriptorOperator, ExceptionOperator, GcOperator, MemArg, MemoryOperator,
    NumericOperator, Operator, Ordering, ParametricOperator, ResumeTable, SharedOperator,
    SimdNumericOperator, SimdOperator, TryTable, V128,
};

/// What a visitor answers, and what its visits promise.
pub trait Visitor<'a> {
    /// What each visit answers.
    type Output;

    /// The visitor before, the operator, the answer and the visitor after.
    ghost visits: { Self → Op → Self.Output → Self → Type 0 };
}

/// What lends a visitor is a visitor: it visits what it lends, and stays what it is otherwise.
impl<'a, P: Lender> Visitor<'a> for P
where
    P::Lent: Visitor<'a>,
{
    type Output = <P::Lent as Visitor<'a>>::Output;

    ghost visits = { λ before op answer after. P.Lent.visits (P.lent before) op answer (P.lent after)
        × after ≡ P.put before (P.lent after) };
}
