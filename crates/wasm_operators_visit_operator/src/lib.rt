//! Visits of all operators but those on vectors.
//!
//! [`VisitOperator`] is one name for the seven traits of visits that are not of vectors: whatever has these seven has
//! it too. Its own two functions call the visit that belongs to an operator, and promise the relation of the visitor
//! for that operator. Which operators are on vectors, `is_simd` of `wasm_operators_enums` says.
#![tactic(auto)]

ghost use Rattle.std.specs.Prelude.{◌≡◌, false, IsTrue, IfOk, IfErr, OnErr};
ghost use Rattle.wasm_operators_visit.specs.Memory.{keeps_list};
ghost use Rattle.wasm_operators_enums.specs.Vectors.{is_simd};
ghost use Rattle.wasm_operators_enums.specs.Op.{op_of};

use std::alloc::AllocError;
use wasm_operators_visit::control::Operator;
pub use wasm_operators_visit::control::{
    VisitControl, visit_continuation, visit_control, visit_exception, visit_parametric,
};
pub use wasm_operators_visit_atomics::dispatch::{
    VisitAtomic, VisitShared, visit_atomic, visit_shared,
};
pub use wasm_operators_visit_memory::gc::{VisitGc, visit_descriptor, visit_gc};
pub use wasm_operators_visit_memory::{VisitMemory, visit_bulk, visit_const, visit_memory};
pub use wasm_operators_visit_numbers::dispatch::{VisitFloats, VisitIntegers, visit_numeric};

/// A visitor of all operators but those on vectors.
pub trait VisitOperator<'a>: VisitControl<'a>
    + VisitMemory<'a>
    + VisitGc<'a>
    + VisitIntegers<'a>
    + VisitFloats<'a>
    + VisitAtomic<'a>
    + VisitShared<'a> {
    /// Calls the visit that belongs to this operator, and hands the operator over. It takes no memory.
    fn visit_owned(&mut self, op: Operator<'a>) -> Self::Output
        requires { is_simd (op_of op) ≡ false }
        ensures { Self.visits self.old (op_of op.entry) result self.new };

    /// Calls the visit that belongs to this operator, which gets a copy of the operator's tables.
    ///
    /// # Errors
    ///
    /// Where the operator keeps a list, and there is no memory for the copy. The visitor is then told nothing.
    fn visit_operator(&mut self, op: &Operator<'a>) -> Result<Self::Output, AllocError>
        requires { is_simd (op_of op.now) ≡ false }
        ensures visited { IfOk result (λ answer. Self.visits self.old (op_of op.now) answer self.new) }
        ensures kept { IfErr result (λ _. self.new ≡ self.old) }
        ensures memory { OnErr result (IsTrue (keeps_list (op_of op.now))) };
}

impl<'a, V> VisitOperator<'a> for V
where
    V: VisitControl<'a>
        + VisitMemory<'a>
        + VisitGc<'a>
        + VisitIntegers<'a>
        + VisitFloats<'a>
        + VisitAtomic<'a>
        + VisitShared<'a>,
{
    fn visit_owned(&mut self, op: Operator<'a>) -> Self::Output {
        match op {
            Operator::Control(op) => visit_control(self, op),
            Operator::Parametric(op) => visit_parametric(self, op),
            Operator::Exception(op) => visit_exception(self, op),
            Operator::Memory(op) => visit_memory(self, op),
            Operator::Const(op) => visit_const(self, op),
            Operator::Numeric(op) => visit_numeric(self, op),
            Operator::Bulk(op) => visit_bulk(self, op),
            Operator::Gc(op) => visit_gc(self, op),
            Operator::Descriptor(op) => visit_descriptor(self, op),
            Operator::Simd(_) => unreachable!(),
            Operator::SimdNumeric(_) => unreachable!(),
            Operator::Atomic(op) => visit_atomic(self, op),
            Operator::Shared(op) => visit_shared(self, op),
            Operator::Continuation(op) => visit_continuation(self, op),
        }
    }

    fn visit_operator(&mut self, op: &Operator<'a>) -> Result<Self::Output, AllocError> {
        let Ok(op) = copy(op) else {
            return Err(AllocError);
        };
        Ok(self.visit_owned(op))
    }
}

/// An operator with the same tables.
///
/// # Errors
///
/// Where the operator keeps a list, and there is no memory for it.
pub fn copy<'a>(op: &Operator<'a>) -> Result<Operator<'a>, AllocError>
    ensures copied { IfOk result (λ copy. op_of copy ≡ op_of op.now) }
    ensures memory { OnErr result (IsTrue (keeps_list (op_of op.now))) }
{
    op.clone()
}
