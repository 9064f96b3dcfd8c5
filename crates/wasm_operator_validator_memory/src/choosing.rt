//! What a choice between two operands gives.

ghost use Rattle.std.specs.Prelude.{◌≡◌, true, MatchResult};
ghost use Rattle.wasm_operator_validator_state.specs.declared.operand.MaybeType.{MaybeType};
ghost use Rattle.wasm_operator_validator_memory.specs.Choices.{may_choose, Chooses};

use wasm_operator_validator_stacks::determined::{MaybeType, Reason, Refusal};
use wasm_types::equality_is_identity;

/// What a choice without a type gives between these: it is for numbers and vectors of one type.
pub(crate) fn chosen(first: &MaybeType, second: &MaybeType) -> Result<MaybeType, Refusal>
    ensures { MatchResult result (λ t. Chooses first.now second.now t) (λ r. (t : MaybeType)
        → Chooses first.now second.now t → ⊥) }
{
    if !is_choosable(first) {
        return Err(Refusal::Because(Reason::SelectOfReferences));
    }
    if !is_choosable(second) {
        return Err(Refusal::Because(Reason::SelectOfReferences));
    }
    agreed(first, second)
}

// Whether a choice without a type may have such an operand.
fn is_choosable(operand: &MaybeType) -> bool
    ensures { result ≡ may_choose operand.now }
{
    match operand {
        MaybeType::Bottom => true,
        MaybeType::UnknownRef(_) => false,
        MaybeType::Known(ty) => !ty.is_reference_type(),
    }
}

// The type of both, where they agree.
fn agreed(first: &MaybeType, second: &MaybeType) -> Result<MaybeType, Refusal>
    requires first_may { may_choose first.now ≡ true }
    requires second_may { may_choose second.now ≡ true }
    ensures { MatchResult result (λ t. Chooses first.now second.now t) (λ r. (t : MaybeType)
        → Chooses first.now second.now t → ⊥) }
{
    equality_is_identity();
    match first {
        MaybeType::Bottom => Ok(*second),
        MaybeType::UnknownRef(_) => unreachable!(),
        MaybeType::Known(one) => match second {
            MaybeType::Bottom => Ok(*first),
            MaybeType::UnknownRef(_) => unreachable!(),
            MaybeType::Known(other) => {
                if one == other {
                    return Ok(*first);
                }
                Err(Refusal::Because(Reason::SelectOfTypes))
            }
        },
    }
}
