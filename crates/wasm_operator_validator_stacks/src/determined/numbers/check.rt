//! Operators on numbers by their types.

ghost use Rattle.std.specs.Prelude.{◌∷◌, []};
ghost use Rattle.wasm_operators_enums.specs.Op.{Op};
ghost use Rattle.wasm_operators_immediates.specs.declared.proposal.Proposal.TheVariants.{Mvp};
ghost use Rattle.wasm_operator_validator_state.specs.State.{Checks};
ghost use Rattle.wasm_operator_validator_state.specs.Refusals.{refused};
ghost use Rattle.wasm_operator_validator_stacks.specs.determined.numbers.Numbers.{IsNumeric, IsConstant};

use crate::determined::{ConstOperator, OperatorValidator, Proposal, Refusal, WasmModuleResources};
use wasm_operators_visit::NumericOperator;
use wasm_types::ValType;

/// An operator on numbers, which takes and gives these types; it is of this proposal, and has a float in its name or not (WebAssembly
/// 3.0, validation, numeric instructions).
#[inline(always)]
pub fn check_numbers<R: WasmModuleResources>(
    validator: &mut OperatorValidator,
    resources: &R,
    op: NumericOperator,
    proposal: Proposal,
    floats: bool,
    takes: &[ValType],
    gives: &[ValType],
) -> Result<(), Refusal>
    requires { IsNumeric op proposal floats takes.now gives.now }
    ensures { Checks (R.meaning resources.now) validator.old (Op.Numeric op) (refused result) validator.new }
{
    let _op = op;
    match validator.begin(proposal, floats) {
        Ok(()) => (),
        Err(refusal) => return Err(refusal),
    }
    validator.exchange(resources, takes, gives)
}

/// One that makes a number of two of one type, of the first proposal.
#[inline(always)]
pub fn check_two<R: WasmModuleResources>(
    validator: &mut OperatorValidator,
    resources: &R,
    op: NumericOperator,
    floats: bool,
    takes: &ValType,
    gives: &ValType,
) -> Result<(), Refusal>
    requires { IsNumeric op Mvp floats (takes.now ∷ takes.now ∷ []) (gives.now ∷ []) }
    ensures { Checks (R.meaning resources.now) validator.old (Op.Numeric op) (refused result) validator.new }
{
    let _op = op;
    match validator.begin(Proposal::Mvp, floats) {
        Ok(()) => (),
        Err(refusal) => return Err(refusal),
    }
    validator.combine(resources, takes, gives)
}

/// A constant, which gives this type (WebAssembly 3.0, validation, numeric instructions).
#[inline(always)]
pub fn check_constant<R: WasmModuleResources>(
    validator: &mut OperatorValidator,
    resources: &R,
    op: ConstOperator,
    floats: bool,
    ty: &ValType,
) -> Result<(), Refusal>
    requires { IsConstant op floats ty.now }
    ensures { Checks (R.meaning resources.now) validator.old (Op.Const op) (refused result) validator.new }
{
    let _op = op;
    match validator.begin(Proposal::Mvp, floats) {
        Ok(()) => (),
        Err(refusal) => return Err(refusal),
    }
    validator.push_operands(resources, &[*ty])
}
