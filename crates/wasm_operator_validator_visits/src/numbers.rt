//! Visits of operators on numbers, by what they take and give.

ghost use Rattle.std.specs.Prelude.{◌≡◌, ◌∷◌, [], true, false};
ghost use Rattle.wasm_operators_immediates.specs.declared.proposal.Proposal.TheVariants.{Mvp};
ghost use Rattle.wasm_operators_enums.specs.Op.{Op};
ghost use Rattle.wasm_operator_validator_stacks.specs.determined.numbers.Numbers.{IsNumeric};

use crate::{AnswerAs, ValidatingVisitor};
use wasm_operator_validator_control::{Proposal, WasmModuleResources, copied};
use wasm_operator_validator_stacks::determined::numbers::{check_numbers, check_two};
use wasm_operators_visit::NumericOperator;
use wasm_types::ValType;

impl<'v, 'r, R: WasmModuleResources, A: AnswerAs> ValidatingVisitor<'v, 'r, R, A> {
    /// An operator of this proposal on numbers that takes and gives these types, with a float among them or not.
    #[inline(always)]
    pub(crate) fn numbers(
        &mut self,
        proposal: Proposal,
        floats: bool,
        op: NumericOperator,
        takes: &[ValType],
        gives: &[ValType],
    ) -> A::Output
        requires { IsNumeric op proposal floats takes.now gives.now }
        ensures tells { A.tells (R.meaning self.old.resources.now) self.old.inner.now self.old.answer
            (Op.Numeric op) result self.new.inner.now self.new.answer }
        ensures lent { self.new.inner.ghost_name ≡ self.old.inner.ghost_name }
        ensures resources { self.new.resources.now ≡ self.old.resources.now }
    {
        let checked = check_numbers(
            self.inner,
            self.resources,
            op,
            proposal,
            floats,
            takes,
            gives,
        );
        self.tell(checked)
    }

    /// One that makes a number of two of one type.
    #[inline(always)]
    pub(crate) fn two(
        &mut self,
        floats: bool,
        op: NumericOperator,
        takes: &ValType,
        gives: &ValType,
    ) -> A::Output
        requires { IsNumeric op Mvp floats (takes.now ∷ takes.now ∷ []) (gives.now ∷ []) }
        ensures tells { A.tells (R.meaning self.old.resources.now) self.old.inner.now self.old.answer
            (Op.Numeric op) result self.new.inner.now self.new.answer }
        ensures lent { self.new.inner.ghost_name ≡ self.old.inner.ghost_name }
        ensures resources { self.new.resources.now ≡ self.old.resources.now }
    {
        let checked = check_two(self.inner, self.resources, op, floats, takes, gives);
        self.tell(checked)
    }

    /// One that makes a number of another, both integers.
    #[inline(always)]
    pub(crate) fn of_one(
        &mut self,
        op: NumericOperator,
        takes: &ValType,
        gives: &ValType,
    ) -> A::Output
        requires { IsNumeric op Mvp false (takes.now ∷ []) (gives.now ∷ []) }
        ensures tells { A.tells (R.meaning self.old.resources.now) self.old.inner.now self.old.answer
            (Op.Numeric op) result self.new.inner.now self.new.answer }
        ensures lent { self.new.inner.ghost_name ≡ self.old.inner.ghost_name }
        ensures resources { self.new.resources.now ≡ self.old.resources.now }
    {
        self.numbers(Proposal::Mvp, false, op, &[copied(takes)], &[copied(gives)])
    }

    /// One that makes a number of two of one type, all integers.
    #[inline(always)]
    pub(crate) fn of_two(
        &mut self,
        op: NumericOperator,
        takes: &ValType,
        gives: &ValType,
    ) -> A::Output
        requires { IsNumeric op Mvp false (takes.now ∷ takes.now ∷ []) (gives.now ∷ []) }
        ensures tells { A.tells (R.meaning self.old.resources.now) self.old.inner.now self.old.answer
            (Op.Numeric op) result self.new.inner.now self.new.answer }
        ensures lent { self.new.inner.ghost_name ≡ self.old.inner.ghost_name }
        ensures resources { self.new.resources.now ≡ self.old.resources.now }
    {
        self.two(false, op, takes, gives)
    }

    /// One that makes a number of another, where one of them is a float.
    #[inline(always)]
    pub(crate) fn float_of_one(
        &mut self,
        op: NumericOperator,
        takes: &ValType,
        gives: &ValType,
    ) -> A::Output
        requires { IsNumeric op Mvp true (takes.now ∷ []) (gives.now ∷ []) }
        ensures tells { A.tells (R.meaning self.old.resources.now) self.old.inner.now self.old.answer
            (Op.Numeric op) result self.new.inner.now self.new.answer }
        ensures lent { self.new.inner.ghost_name ≡ self.old.inner.ghost_name }
        ensures resources { self.new.resources.now ≡ self.old.resources.now }
    {
        self.numbers(Proposal::Mvp, true, op, &[copied(takes)], &[copied(gives)])
    }

    /// One that makes a number of two floats of one type.
    #[inline(always)]
    pub(crate) fn float_of_two(
        &mut self,
        op: NumericOperator,
        takes: &ValType,
        gives: &ValType,
    ) -> A::Output
        requires { IsNumeric op Mvp true (takes.now ∷ takes.now ∷ []) (gives.now ∷ []) }
        ensures tells { A.tells (R.meaning self.old.resources.now) self.old.inner.now self.old.answer
            (Op.Numeric op) result self.new.inner.now self.new.answer }
        ensures lent { self.new.inner.ghost_name ≡ self.old.inner.ghost_name }
        ensures resources { self.new.resources.now ≡ self.old.resources.now }
    {
        self.two(true, op, takes, gives)
    }
}
