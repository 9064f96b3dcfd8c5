//! Visits of accesses to memories, by what they do.

ghost use Rattle.std.specs.Prelude.{◌≡◌};
ghost use Rattle.wasm_operators_enums.specs.Op.{Op};
ghost use Rattle.wasm_operator_validator_rules.specs.Accesses.{load, store, modify, compare_exchange, wait};
ghost use Rattle.wasm_operator_validator_memory.specs.Reaching.{IsAccess};
ghost use Rattle.wasm_operator_validator_memory.specs.atomics.Atomics.{IsAtomic};

use crate::{AnswerAs, ValidatingVisitor};
use wasm_operator_validator_control::{MemArg, MemoryOperator, WasmModuleResources};
use wasm_operator_validator_memory::atomics::{
    check_atomic_compare_exchange, check_atomic_load, check_atomic_modify, check_atomic_store,
    check_atomic_wait, check_load, check_store,
};
use wasm_operators_visit::AtomicOperator;
use wasm_types::ValType;

impl<'v, 'r, R: WasmModuleResources, A: AnswerAs> ValidatingVisitor<'v, 'r, R, A> {
    /// A load of this type by this argument; the type is a float or not.
    #[inline(always)]
    pub fn load(
        &mut self,
        op: MemoryOperator,
        memarg: &MemArg,
        floats: bool,
        ty: &ValType,
    ) -> A::Output
        requires { IsAccess load op memarg.now floats ty.now }
        ensures tells { A.tells (R.meaning self.old.resources.now) self.old.inner.now self.old.answer
            (Op.Memory op) result self.new.inner.now self.new.answer }
        ensures lent { self.new.inner.ghost_name ≡ self.old.inner.ghost_name }
        ensures resources { self.new.resources.now ≡ self.old.resources.now }
    {
        let checked = check_load(self.inner, self.resources, op, memarg, floats, ty);
        self.tell(checked)
    }

    /// A store of this type by this argument; the type is a float or not.
    #[inline(always)]
    pub fn store(
        &mut self,
        op: MemoryOperator,
        memarg: &MemArg,
        floats: bool,
        ty: &ValType,
    ) -> A::Output
        requires { IsAccess store op memarg.now floats ty.now }
        ensures tells { A.tells (R.meaning self.old.resources.now) self.old.inner.now self.old.answer
            (Op.Memory op) result self.new.inner.now self.new.answer }
        ensures lent { self.new.inner.ghost_name ≡ self.old.inner.ghost_name }
        ensures resources { self.new.resources.now ≡ self.old.resources.now }
    {
        let checked = check_store(self.inner, self.resources, op, memarg, floats, ty);
        self.tell(checked)
    }

    /// An atomic load of this type by this argument.
    #[inline]
    pub(crate) fn atomic_load(
        &mut self,
        op: AtomicOperator,
        memarg: &MemArg,
        ty: &ValType,
    ) -> A::Output
        requires { IsAtomic load op memarg.now ty.now }
        ensures tells { A.tells (R.meaning self.old.resources.now) self.old.inner.now self.old.answer
            (Op.Atomic op) result self.new.inner.now self.new.answer }
        ensures lent { self.new.inner.ghost_name ≡ self.old.inner.ghost_name }
        ensures resources { self.new.resources.now ≡ self.old.resources.now }
    {
        let checked = check_atomic_load(self.inner, self.resources, op, memarg, ty);
        self.tell(checked)
    }

    /// An atomic store of this type by this argument.
    #[inline]
    pub(crate) fn atomic_store(
        &mut self,
        op: AtomicOperator,
        memarg: &MemArg,
        ty: &ValType,
    ) -> A::Output
        requires { IsAtomic store op memarg.now ty.now }
        ensures tells { A.tells (R.meaning self.old.resources.now) self.old.inner.now self.old.answer
            (Op.Atomic op) result self.new.inner.now self.new.answer }
        ensures lent { self.new.inner.ghost_name ≡ self.old.inner.ghost_name }
        ensures resources { self.new.resources.now ≡ self.old.resources.now }
    {
        let checked = check_atomic_store(self.inner, self.resources, op, memarg, ty);
        self.tell(checked)
    }

    /// An atomic change of a number of this type by another.
    #[inline]
    pub(crate) fn atomic_modify(
        &mut self,
        op: AtomicOperator,
        memarg: &MemArg,
        ty: &ValType,
    ) -> A::Output
        requires { IsAtomic modify op memarg.now ty.now }
        ensures tells { A.tells (R.meaning self.old.resources.now) self.old.inner.now self.old.answer
            (Op.Atomic op) result self.new.inner.now self.new.answer }
        ensures lent { self.new.inner.ghost_name ≡ self.old.inner.ghost_name }
        ensures resources { self.new.resources.now ≡ self.old.resources.now }
    {
        let checked = check_atomic_modify(self.inner, self.resources, op, memarg, ty);
        self.tell(checked)
    }

    /// An atomic exchange of a number of this type where it is as expected.
    #[inline]
    pub(crate) fn atomic_compare_exchange(
        &mut self,
        op: AtomicOperator,
        memarg: &MemArg,
        ty: &ValType,
    ) -> A::Output
        requires { IsAtomic compare_exchange op memarg.now ty.now }
        ensures tells { A.tells (R.meaning self.old.resources.now) self.old.inner.now self.old.answer
            (Op.Atomic op) result self.new.inner.now self.new.answer }
        ensures lent { self.new.inner.ghost_name ≡ self.old.inner.ghost_name }
        ensures resources { self.new.resources.now ≡ self.old.resources.now }
    {
        let checked = check_atomic_compare_exchange(self.inner, self.resources, op, memarg, ty);
        self.tell(checked)
    }

    /// A thread waits while a number of this type is as expected.
    #[inline]
    pub(crate) fn atomic_wait(
        &mut self,
        op: AtomicOperator,
        memarg: &MemArg,
        ty: &ValType,
    ) -> A::Output
        requires { IsAtomic wait op memarg.now ty.now }
        ensures tells { A.tells (R.meaning self.old.resources.now) self.old.inner.now self.old.answer
            (Op.Atomic op) result self.new.inner.now self.new.answer }
        ensures lent { self.new.inner.ghost_name ≡ self.old.inner.ghost_name }
        ensures resources { self.new.resources.now ≡ self.old.resources.now }
    {
        let checked = check_atomic_wait(self.inner, self.resources, op, memarg, ty);
        self.tell(checked)
    }
}
