//! Operators, one by one.

ghost use Rattle.std.specs.Prelude.{◌≡◌, Some, true, false};
ghost use Rattle.wasm_types.specs.decoding.Denials.{RefusedAt};
ghost use Rattle.wasm_operators_enums.specs.Op.{Op, op_of};
ghost use Rattle.wasm_operator_validator_state.specs.Refusals.{kind_of, refused, refused_by};
ghost use Rattle.wasm_operator_validator_state.specs.State.{Visits};
ghost use Rattle.wasm_module_validator_function_bodies.specs.Trying.{Tries};

use crate::FuncValidator;
use wasm_operator_validator_driver::{AsRefusal, ValidatingVisitor, ValidatingWalk};
use wasm_operator_validator_expression::TellSimdOperator;
use wasm_operator_validator_stacks::{OperatorValidator, Refusal, WasmModuleResources};
use wasm_operators_visit::Operator;
use wasm_types::Result;

impl<R: WasmModuleResources> FuncValidator<R> {
    /// Judges the next operator of the body, which stands at `offset`: it is not refused exactly if it may come, out of memory aside,
    /// and then what may follow is what may follow behind it (WebAssembly 3.0, validation, instructions). One on vectors may
    /// come only if the features ask that such be judged (`WasmFeatures::VECTOR_OPERATORS`).
    ///
    /// # Errors
    ///
    /// Something was refused before; or the operator may not come, or there is no memory. The validator has failed then, and each
    /// later call is refused.
    pub fn op(&mut self, offset: u64, operator: Operator<'_>) -> Result<()>
        ensures visits { Visits (R.meaning self.old.resources) self.old.validator (op_of operator.entry)
            (refused_by result) self.new.validator }
        ensures at { RefusedAt offset result }
        ensures resources { self.new.resources ≡ self.old.resources }
        ensures index { self.new.index ≡ self.old.index }
        ensures limits { self.new.limits ≡ self.old.limits }
    {
        match judge(&mut self.validator, &self.resources, operator) {
            Ok(()) => Ok(()),
            Err(refusal) => Err(refusal.error(offset)),
        }
    }

    /// Tries whether an operator may come next: not refused it is judged as by `op`, and refused it leaves no trace (WebAssembly 3.0,
    /// validation, instructions).
    ///
    /// # Errors
    ///
    /// Something was refused before; or the operator may not come, or there is no memory. The validator is as it was.
    pub fn try_op(&mut self, offset: u64, operator: Operator<'_>) -> Result<()>
        ensures tries { Tries (R.meaning self.old.resources) self.old.validator (op_of operator.entry)
            (refused_by result) self.new.validator }
        ensures at { RefusedAt offset result }
        ensures resources { self.new.resources ≡ self.old.resources }
        ensures index { self.new.index ≡ self.old.index }
        ensures limits { self.new.limits ≡ self.old.limits }
    {
        self.validator.begin_try_op();
        match judge(&mut self.validator, &self.resources, operator) {
            Ok(()) => {
                self.validator.commit();
                Ok(())
            }
            Err(refusal) => {
                self.validator.rollback();
                Err(refusal.error(offset))
            }
        }
    }
}

/// The answer of a validator to an operator, in few bytes.
fn judge<R: WasmModuleResources>(
    validator: &mut OperatorValidator,
    resources: &R,
    operator: Operator<'_>,
) -> std::result::Result<(), Refusal>
    ensures visits { Visits (R.meaning resources.now) validator.old (op_of operator.entry)
        (refused result) validator.new }
{
    let mut walk = ValidatingWalk {
        visitor: ValidatingVisitor {
            inner: validator,
            resources,
            answer: AsRefusal,
        },
    };
    let answer = tell(&mut walk, operator);
    let _validator = lent_validator(walk);
    answer
}

/// The same at a walk: it keeps the validator that it was lent, and the module.
fn tell<R: WasmModuleResources>(
    walk: &mut ValidatingWalk<'_, '_, R>,
    operator: Operator<'_>,
) -> std::result::Result<(), Refusal>
    ensures visits { Visits (R.meaning walk.old.visitor.resources.now) walk.old.visitor.inner.now (op_of operator.entry)
        (refused result) walk.new.visitor.inner.now }
    ensures lent { walk.new.visitor.inner.ghost_name ≡ walk.old.visitor.inner.ghost_name }
    ensures resources { walk.new.visitor.resources.now ≡ walk.old.visitor.resources.now }
{
    walk.tell_simd(operator)
}

/// The validator that a walk was lent. A walk ends here: taken apart in the function that made it, it would not tell the proof what the
/// validator is now.
fn lent_validator<'v, 'r, R: WasmModuleResources>(
    walk: ValidatingWalk<'v, 'r, R>,
) -> &'v mut OperatorValidator
    ensures same { result ≡ walk.entry.visitor.inner }
{
    let ValidatingWalk { visitor } = walk;
    let ValidatingVisitor {
        inner,
        resources: _resources,
        answer: _answer,
    } = visitor;
    inner
}
