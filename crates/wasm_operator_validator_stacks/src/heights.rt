//! How many operands there are, what they are, and how the open frames lie over one another.

ghost use Rattle.std.specs.Prelude.{◌≡◌, Some, None, MatchOption, length, slice_get, option_map};
ghost use Rattle.wasm_operator_validator_stacks.specs.Heights.{operands_in, frame_at, known_type};
ghost use Rattle.wasm_operator_validator_stacks.specs.Worked.{HeightRows};

use crate::OperatorValidator;
use wasm_operator_validator_state::{Frame, MaybeType};
use wasm_types::ValType;

impl OperatorValidator {
    /// How many operands all open frames have, as far as they are known. There is none where every frame has ended.
    pub fn operand_stack_height(&self) -> usize
        ensures { result ≡ length (operands_in self.now.opens) }
    {
        self.operands.as_slice().len()
    }

    /// The type of the operand that lies under `depth` others, whichever frames they belong to, if there is one: none where it is
    /// not known, as in code that cannot be reached.
    pub fn peek_operand_at(&self, depth: usize) -> Option<Option<ValType>>
        ensures { result ≡ option_map known_type (slice_get (operands_in self.now.opens) depth) }
    {
        let operands = self.operands.as_slice();
        if depth >= operands.len() {
            return None;
        }
        Some(known_type(operands[operands.len() - 1 - depth].get()))
    }

    /// The frame that a label names, which counts outwards from the innermost, if there is one.
    pub fn get_frame(&self, depth: usize) -> Option<&Frame>
        ensures { MatchOption result (frame_at self.now.opens depth ≡ None)
            (λ f. frame_at self.now.opens depth ≡ Some f.now) }
    {
        let frames = self.control.as_slice();
        if depth >= frames.len() {
            return None;
        }
        Some(&frames[frames.len() - 1 - depth])
    }
}

/// The type of an operand, if it is known.
fn known_type(operand: MaybeType) -> Option<ValType>
    ensures { result ≡ known_type operand }
{
    match operand {
        MaybeType::Bottom => None,
        MaybeType::UnknownRef(_) => None,
        MaybeType::Known(ty) => Some(ty),
    }
}

/// Two open frames worked by hand: their operands, and how they lie over one another.
#[tactic(auto, using(crate::specs::WorkedLaws::height_rows))]
pub const fn heights_are_worked()
    ensures { HeightRows }
{}
