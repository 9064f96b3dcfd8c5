//! What is known of a body so far.

ghost use Rattle.std.specs.Prelude.{◌≡◌, min, Some, None, MatchOption, length, slice_get, option_map};
ghost use Rattle.wasm_types.specs.settings.Limits.{IsWithinCeilings};
ghost use Rattle.wasm_operator_validator_stacks.specs.Heights.{operands_in, frame_at, known_type};

use crate::FuncValidator;
use wasm_operator_validator_driver::{Frame, WasmModuleResources};
use wasm_types::{Limits, ValType, WasmFeatures};

impl<R: WasmModuleResources> FuncValidator<R> {
    /// The features by which the body is judged.
    #[inline]
    pub fn features(&self) -> WasmFeatures
        ensures { result.0 ≡ self.now.validator.given.bits }
    {
        self.validator.features()
    }

    /// The limits by which the body is judged.
    #[inline]
    pub fn limits(&self) -> Limits
        ensures value { result ≡ self.now.limits }
        ensures within { IsWithinCeilings result }
    {
        self.limits.get()
    }

    /// The module.
    #[inline]
    pub fn resources(&self) -> &R
        ensures { result.now ≡ self.now.resources }
    {
        &self.resources
    }

    /// The index of the function in its module.
    #[inline]
    pub fn index(&self) -> u32
        ensures { result ≡ self.now.index }
    {
        self.index
    }

    /// How many locals there are, parameters among them, and no more than `u32::MAX`.
    pub fn len_locals(&self) -> u32
        ensures { result ≡ min (length self.now.validator.given.locals) u32.MAX }
    {
        let mut low = 0;
        let mut high = u32::MAX;
        'search: while low < high {
            let middle = low + (high - low) / 2;
            if self.validator.local(middle).is_some() {
                low = middle + 1;
            } else {
                high = middle;
            }
        }
        low
    }

    /// The type of the local at an index, if there is one.
    #[inline]
    pub fn get_local_type(&self, index: u32) -> Option<ValType>
        ensures { result ≡ slice_get self.now.validator.given.locals index }
    {
        self.validator.local(index)
    }

    /// How many operands all open frames have, as far as they are known, and no more than `u32::MAX`.
    pub fn operand_stack_height(&self) -> u32
        ensures { result ≡ min (length (operands_in self.now.validator.opens)) u32.MAX }
    {
        at_most_u32(self.validator.operand_stack_height())
    }

    /// The type of the operand that lies under `depth` others, whichever frames they belong to, if there is one: none where it is
    /// not known, as in code that cannot be reached.
    pub fn get_operand_type(&self, depth: usize) -> Option<Option<ValType>>
        ensures { result ≡ option_map known_type (slice_get (operands_in self.now.validator.opens) depth) }
    {
        self.validator.peek_operand_at(depth)
    }

    /// How many frames are open, and no more than `u32::MAX`.
    pub fn control_stack_height(&self) -> u32
        ensures { result ≡ min (length self.now.validator.opens) u32.MAX }
    {
        at_most_u32(self.validator.control_stack_height())
    }

    /// The frame that a label names, which counts outwards from the innermost, if there is one.
    pub fn get_control_frame(&self, depth: usize) -> Option<&Frame>
        ensures { MatchOption result (frame_at self.now.validator.opens depth ≡ None)
            (λ f. frame_at self.now.validator.opens depth ≡ Some f.now) }
    {
        self.validator.get_frame(depth)
    }
}

/// A height, and no more than `u32::MAX`.
fn at_most_u32(height: usize) -> u32
    ensures { result ≡ min height u32.MAX }
{
    if height > u32::MAX as usize {
        return u32::MAX;
    }
    height as u32
}
