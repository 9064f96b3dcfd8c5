//! Visits of all operators.
//!
//! [`VisitSimdOperator`] is one name for all traits of visits: `VisitOperator` and the four of vectors. Whatever has
//! these has it too. Its own two functions call the visit that belongs to an operator, vectors included, and promise
//! the relation of the visitor for that operator.
#![tactic(auto)]

ghost use Rattle.std.specs.Prelude.{◌≡◌, IsTrue, IfOk, IfErr, OnErr};
ghost use Rattle.wasm_operators_visit_operator.specs.visit.Memory.{keeps_list};
ghost use Rattle.wasm_operators_enums.specs.Op.{op_of};

use std::alloc::AllocError;
use wasm_operators_visit_operator::{
    copy, visit_atomic, visit_bulk, visit_const, visit_continuation, visit_control,
    visit_descriptor, visit_exception, visit_gc, visit_memory, visit_numeric, visit_parametric,
    visit_shared,
};
pub use wasm_operators_visit_operator::{
    VisitAtomic, VisitControl, VisitFloats, VisitGc, VisitIntegers, VisitMemory, VisitOperator,
    VisitShared,
};
use wasm_operators_visit_simd::{Operator, visit_simd, visit_simd_numeric};
pub use wasm_operators_visit_simd::{
    VisitSimd, VisitSimdFloats, VisitSimdNarrow, VisitSimdWide, Visitor,
};

/// A visitor of all operators, those on vectors too.
pub trait VisitSimdOperator<'a>: VisitOperator<'a>
    + VisitSimd<'a>
    + VisitSimdNarrow<'a>
    + VisitSimdWide<'a>
    + VisitSimdFloats<'a> {
    /// Calls the visit that belongs to any operator, and hands the operator over. It takes no memory.
    fn visit_simd_owned(&mut self, op: Operator<'a>) -> Self::Output
        ensures { Self.visits self.old (op_of op.entry) result self.new };

    /// Calls the visit that belongs to any operator, which gets a copy of the operator's tables.
    ///
    /// # Errors
    ///
    /// Where the operator keeps a list, and there is no memory for the copy. The visitor is then told nothing.
    fn visit_simd_operator(&mut self, op: &Operator<'a>) -> Result<Self::Output, AllocError>
        ensures visited { IfOk result (λ answer. Self.visits self.old (op_of op.now) answer self.new) }
        ensures kept { IfErr result (λ _. self.new ≡ self.old) }
        ensures memory { OnErr result (IsTrue (keeps_list (op_of op.now))) };
}

impl<'a, V> VisitSimdOperator<'a> for V
where
    V: VisitOperator<'a>
        + VisitSimd<'a>
        + VisitSimdNarrow<'a>
        + VisitSimdWide<'a>
        + VisitSimdFloats<'a>,
{
    fn visit_simd_owned(&mut self, op: Operator<'a>) -> Self::Output {
        match op {
            Operator::Control(op) => visit_control(self, op),
            Operator::Parametric(op) => visit_parametric(self, op),
            Operator::Exception(op) => visit_exception(self, op),
            Operator::Memory(op) => visit_memory(self, op),
            Operator::Const(op) => visit_const(self, op),
            Operator::Numeric(op) => visit_numeric(self, op),
            Operator::Bulk(op) => visit_bulk(self, op),
            Operator::Gc(op) => visit_gc(self, op),
            Operator::Descriptor(op) => visit_descriptor(self, op),
            Operator::Simd(op) => visit_simd(self, op),
            Operator::SimdNumeric(op) => visit_simd_numeric(self, op),
            Operator::Atomic(op) => visit_atomic(self, op),
            Operator::Shared(op) => visit_shared(self, op),
            Operator::Continuation(op) => visit_continuation(self, op),
        }
    }

    fn visit_simd_operator(&mut self, op: &Operator<'a>) -> Result<Self::Output, AllocError> {
        let Ok(op) = copy(op) else {
            return Err(AllocError);
        };
        Ok(self.visit_simd_owned(op))
    }
}
