//! The test at the entry of operators on vectors.

ghost use Rattle.std.specs.Prelude.{◌≡◌, true, Some, IfOk, IfErr};
ghost use Rattle.wasm_operators_enums.specs.Op.{Op};
ghost use Rattle.wasm_types.specs.settings.Features.{judges_vectors};
ghost use Rattle.wasm_operator_validator_state.specs.resources.Meaning.{Meaning};
ghost use Rattle.wasm_operator_validator_state.specs.Entering.{MayBegin};
ghost use Rattle.wasm_operator_validator_state.specs.Refusals.{kind_of};
ghost use Rattle.wasm_operator_validator_state.specs.State.{Checks};
ghost use Rattle.wasm_operator_validator_vectors.specs.Vectors.{IsOnVectors};

use wasm_operator_validator_memory::{OperatorValidator, Proposal, Reason, Refusal};

/// Whether an operator on vectors may begin that this proposal brought, with a float in its name or not: nothing was refused before, the
/// switch is on, a frame is open, and the features allow it.
pub(crate) fn begin_vector(
    validator: &OperatorValidator,
    proposal: Proposal,
    floats: bool,
) -> Result<(), Refusal>
    ensures begins { IfOk result (λ _. MayBegin validator.now proposal floats
        × (judges_vectors validator.now.given.bits ≡ true)) }
    ensures stops { IfErr result (λ r. (m : Meaning) (o : Op) → IsOnVectors o proposal floats
        → Checks m validator.now o (Some (kind_of r)) validator.now) }
{
    if validator.has_failed() {
        return Err(Refusal::AfterRefusal);
    }
    if !validator.features().vector_operators() {
        return Err(Refusal::Because(Reason::Vectors));
    }
    match validator.begin(proposal, floats) {
        Ok(()) => Ok(()),
        Err(refusal) => Err(refusal),
    }
}
