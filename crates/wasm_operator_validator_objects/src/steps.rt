//! What the checks share.

ghost use Rattle.std.specs.Prelude.{MatchResult, Some, false};
ghost use Rattle.wasm_operators_immediates.specs.declared.proposal.Proposal.TheVariants.{Gc};
ghost use Rattle.wasm_operators_enums.specs.Op.{Op};
ghost use Rattle.wasm_operator_validator_state.specs.Entering.{MayBegin};
ghost use Rattle.wasm_operator_validator_state.specs.Refusals.{kind_of, refused};
ghost use Rattle.wasm_operator_validator_state.specs.State.{Checks, types_in};
ghost use Rattle.wasm_operator_validator_objects.specs.Rows.{IsRow};

use wasm_operator_validator_stacks::determined::{
    OperatorValidator, Proposal, Refusal, WasmModuleResources,
};
use wasm_operators_visit::GcOperator;
use wasm_types::ValType;

/// The test at the entry.
#[inline(always)]
pub(crate) fn begin<R: WasmModuleResources>(
    validator: &OperatorValidator,
    resources: &R,
    op: &GcOperator,
) -> Result<(), Refusal>
    ensures { MatchResult result (λ _. MayBegin validator.now Gc false)
        (λ r. Checks (R.meaning resources.now) validator.now (Op.Gc op.now) (Some (kind_of r)) validator.now) }
{
    let _resources = resources;
    let _op = op;
    match validator.begin(Proposal::Gc, false) {
        Ok(()) => Ok(()),
        Err(refusal) => Err(refusal),
    }
}

/// The operands of the operator's row are exchanged.
#[inline(always)]
pub(crate) fn exchange<R: WasmModuleResources>(
    validator: &mut OperatorValidator,
    resources: &R,
    op: &GcOperator,
    takes: &[ValType],
    gives: &[ValType],
) -> Result<(), Refusal>
    requires begun { MayBegin validator.old Gc false }
    requires row { IsRow (R.meaning resources.now) validator.old op.now (types_in (R.meaning resources.now) takes.now)
        (types_in (R.meaning resources.now) gives.now) }
    ensures { Checks (R.meaning resources.now) validator.old (Op.Gc op.now) (refused result) validator.new }
{
    let _op = op;
    validator.exchange(resources, takes, gives)
}
