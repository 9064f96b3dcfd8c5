//! Operands under others.

ghost use Rattle.std.specs.Prelude.{◌≡◌, None};
ghost use Rattle.wasm_operator_validator_stacks.specs.Peeking.{operand_at, or_any};

use crate::OperatorValidator;
use wasm_operator_validator_state::MaybeType;

impl OperatorValidator {
    /// What is known of the operand of the innermost frame that lies under `depth` others, if there is one. Nothing is taken off.
    pub fn peek(&self, depth: usize) -> Option<MaybeType>
        ensures { result ≡ operand_at self.now.opens depth }
    {
        let Some(frame) = self.control.as_slice().last().copied() else {
            return None;
        };
        let operands = self.operands.as_slice();
        if depth >= operands.len() {
            return below_all(frame.unreachable);
        }
        if operands.len() - 1 - depth < frame.height {
            return below_all(frame.unreachable);
        }
        Some(operands[operands.len() - 1 - depth].get())
    }
}

/// What is known below all operands of a frame.
fn below_all(unreachable: bool) -> Option<MaybeType>
    ensures { result ≡ or_any unreachable None }
{
    if unreachable {
        return Some(MaybeType::Bottom);
    }
    None
}
