//! The test at the entry of each operator, and what a refusal leaves.

ghost use Rattle.std.specs.Prelude.{◌≡◌, ◌==◌, true, bit_and, IfErr};
ghost use Rattle.wasm_operators_immediates.specs.Info.{features_of};
ghost use Rattle.wasm_operator_validator_state.specs.Refusals.{Does, refused};
ghost use Rattle.wasm_operator_validator_state.specs.Entering.{MayBegin, StopsWith};

use crate::OperatorValidator;
use bitflags::Flags;
use wasm_operator_validator_state::{Proposal, Refusal};
use wasm_types::WasmFeatures;

impl OperatorValidator {
    /// Whether an operator may begin that this proposal brought, with a float in its name or not: nothing was refused before, a
    /// frame is open, and the features allow it, asked in this order.
    #[inline(always)]
    pub fn begin(&self, proposal: Proposal, floats: bool) -> Result<(), Refusal>
        ensures begins { Does (refused result) (MayBegin self.now proposal floats) (MayBegin self.now proposal floats) }
        ensures stops { IfErr result (λ r. StopsWith self.now proposal floats r) }
    {
        if self.failed {
            return Err(Refusal::AfterRefusal);
        }
        if self.is_done() {
            return Err(Refusal::AfterEnd);
        }
        if !is_enabled(self.features, proposal) {
            return Err(Refusal::NotEnabled {
                feature: proposal.feature(),
            });
        }
        if floats && !self.features.floats() {
            return Err(Refusal::NotEnabled {
                feature: WasmFeatures::FLOATS,
            });
        }
        Ok(())
    }

    /// Notes that an operator was refused: nothing more may come, until a rollback of the attempt in which it was.
    #[inline]
    pub fn fail(&mut self)
        ensures { self.new ≡ record self.old { failed = true } }
    {
        self.failed = true;
    }

    /// Whether an operator was refused.
    #[inline]
    pub fn has_failed(&self) -> bool
        ensures { result ≡ self.now.failed }
    {
        self.failed
    }
}

/// Whether these features allow what a proposal brought.
fn is_enabled(features: WasmFeatures, proposal: Proposal) -> bool
    ensures { result ≡ (bit_and features.0 (features_of proposal) == features_of proposal) }
{
    features.contains(proposal.feature())
}
