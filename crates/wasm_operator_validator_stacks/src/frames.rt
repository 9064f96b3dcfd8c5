//! Open frames.

ghost use Rattle.std.specs.Prelude.{◌≡◌, ◌∷◌, ◌<◌, ◌-◌, not, OnOk, IfErr, MatchResult, option_map, slice_get, length};
ghost use Rattle.wasm_operator_validator_state.specs.resources.Meaning.{Meaning};
ghost use Rattle.wasm_types.specs.decoding.Denials.{Denies};
ghost use Rattle.wasm_operator_validator_state.specs.Refusals.{kind_of};
ghost use Rattle.wasm_operator_validator_state.specs.State.{Open, initialised};
ghost use Rattle.wasm_operator_validator_state.specs.Steps.{IsOpen, begun, Leaves, IsBare, with_init};
ghost use Rattle.wasm_operator_validator_state.specs.declared.refusal.Refusal.TheVariants.{OutOfMemory};

use crate::OperatorValidator;
use wasm_operator_validator_state::{BlockType, Frame, FrameKind, Refusal};
use wasm_types::ValType;

impl OperatorValidator {
    /// How many frames are open.
    #[inline]
    pub fn control_stack_height(&self) -> usize
        ensures { result ≡ length self.now.opens }
    {
        self.control.as_slice().len()
    }

    /// The type and the kind of the frame that a label names, which counts outwards from the innermost.
    pub fn jump(&self, depth: u32) -> Option<(BlockType, FrameKind)>
        ensures { result ≡ option_map (λ o. (o.block, o.kind)) (slice_get self.now.opens depth) }
    {
        let frames = self.control.as_slice();
        let depth = depth as usize;
        if depth >= frames.len() {
            return None;
        }
        let frame = frames[frames.len() - 1 - depth];
        Some((frame.block_type, frame.kind))
    }

    /// The type and the kind of the outermost frame, that of the body.
    pub fn outermost(&self) -> Option<(BlockType, FrameKind)>
        ensures { result ≡ option_map (λ o. (o.block, o.kind)) (slice_get self.now.opens (length self.now.opens - 1)) }
    {
        let frames = self.control.as_slice();
        if frames.is_empty() {
            return None;
        }
        let outermost = frames[0];
        Some((outermost.block_type, outermost.kind))
    }

    /// Opens a frame. Its parameters are not on the operands yet. It is refused for memory alone, and nothing changes then.
    pub fn enter(&mut self, kind: FrameKind, block_type: BlockType) -> Result<(), Refusal>
        ensures entered { OnOk result (self.new ≡ record self.old
            { opens = begun kind block_type self.old.inits ∷ self.old.opens }) }
        ensures refused { IfErr result (λ r. (r ≡ OutOfMemory) × (self.new ≡ self.old)) }
    {
        let frame = Frame {
            kind,
            block_type,
            height: self.operands.as_slice().len(),
            unreachable: false,
            init_height: self.inits.height(),
        };
        let Ok(()) = self.control.push(frame) else {
            return Err(Refusal::OutOfMemory);
        };
        Ok(())
    }

    /// Leaves the innermost frame, which may have no operands of its own any more; what was set in it is not set any more.
    #[inline(always)]
    pub fn leave(&mut self) -> Result<Frame, Refusal>
        requires { IsOpen self.old.opens }
        ensures left { MatchResult result (λ frame. Leaves self.old frame self.new)
            (λ r. Denies (kind_of r) (IsBare self.old.opens)) }
        ensures given { self.new.given ≡ self.old.given }
        ensures failed { self.new.failed ≡ self.old.failed }
        ensures saved { self.new.saved ≡ self.old.saved }
    {
        let Some(frame) = self.control.as_slice().last().copied() else {
            return Err(Refusal::AfterEnd);
        };
        if self.operands.as_slice().len() != frame.height {
            return Err(Refusal::ValuesRemain);
        }
        let Ok(()) = self.inits.pop_ctrl(frame.init_height) else {
            return Err(Refusal::OutOfMemory);
        };
        let Ok(_) = self.control.pop() else {
            return Err(Refusal::OutOfMemory);
        };
        Ok(frame)
    }

    /// Whether a local has no value yet.
    #[inline(always)]
    pub fn is_uninit(&self, local_index: u32) -> bool
        requires { local_index < length self.now.given.locals }
        ensures { (m : Meaning) → result ≡ not (initialised m self.now.given self.now.inits local_index) }
    {
        self.inits.is_uninit(local_index)
    }

    /// Gives a local a value, which is noted where it has none yet. It is refused for memory alone, and nothing changes then.
    #[inline(always)]
    pub fn set_init(&mut self, local_index: u32) -> Result<(), Refusal>
        requires { local_index < length self.old.given.locals }
        ensures set { (m : Meaning) → OnOk result (self.new ≡ with_init m self.old local_index) }
        ensures refused { IfErr result (λ r. (r ≡ OutOfMemory) × (self.new ≡ self.old)) }
    {
        let Ok(()) = self.inits.set_init(local_index) else {
            return Err(Refusal::OutOfMemory);
        };
        Ok(())
    }

    /// The type of a local, by its index. The first ones are found without a search.
    #[inline(always)]
    pub fn local(&self, local_index: u32) -> Option<ValType>
        ensures { result ≡ slice_get self.now.given.locals local_index }
    {
        if let Some(first) = self.locals.get_first(local_index) {
            return Some(first);
        }
        self.locals.get(local_index)
    }
    /// Whether the function is shared: then it may use what is shared alone (the proposal on shared everything).
    #[inline]
    pub fn is_shared(&self) -> bool
        ensures { result ≡ self.now.given.shared }
    {
        self.shared
    }
}
