//! The frames that are open.

ghost use Rattle.std.specs.Prelude.{◌≡◌, ◌+◌, ◌<◌, ◌≤◌, ◌∷◌, [], List, length, is_ok, if◌then◌else◌, IsOk, OnOk, OnErr, IfOk, IsFalse, Some, None, ◌==◌};
ghost use Rattle.wasm_operators_immediates.specs.declared.frames.FrameKind.{FrameKind as Kind};
ghost use Rattle.wasm_operators_enums.specs.Op.{op_of};
ghost use Rattle.wasm_operators_encoding.specs.expressions.Frames.{behind, after};
ghost use Rattle.wasm_operators_encoding.specs.expressions.Stack.{innermost, around};

use crate::{Effect, FrameKind, FrameStack, Operator, Role};
use std::alloc::{AllocError, Global};
use std::marker::Model;

/// The frames that are open, the innermost first, and room for more. Closing a frame gives no room back.
#[derive(Drop)]
pub struct ControlStack {
    innermost: Option<FrameKind>,
    around: Vec<FrameKind>,
}

impl Model for ControlStack {
    ghost use Rattle.std.specs.Prelude.{◌+◌};
    ghost use Rattle.std.specs.Vec.{vec_capacity};
    ghost use Rattle.wasm_operators_encoding.specs.expressions.Stack.{OpenFrames, frames_in, IsStack};

    ghost Value = { OpenFrames };

    ghost view = { λ s. record {
      frames = frames_in s.innermost s.around.items;
      capacity = vec_capacity s.around + 1;
    } };

    ghost invariant = { λ s. IsStack s.innermost s.around.items };
}

impl ControlStack {
    /// No frame, and room for one. It takes no memory.
    pub fn new(alloc: Global) -> ControlStack
        ensures frames { result.frames ≡ [] }
        ensures room { 0 < result.capacity }
    {
        ControlStack {
            innermost: None,
            around: Vec::new(alloc),
        }
    }

    /// No frame from now on. The room stays.
    pub fn clear(&mut self)
        ensures frames { self.new.frames ≡ [] }
        ensures capacity { self.new.capacity ≡ self.old.capacity }
    {
        self.innermost = None;
        self.around.clear();
    }

    /// Whether no frame is open.
    #[inline]
    pub fn is_empty(&self) -> bool
        ensures { result ≡ (length self.now.frames == 0) }
    {
        self.innermost.is_none()
    }

    /// The innermost frame, if any is open.
    #[inline]
    pub fn last(&self) -> Option<FrameKind>
        ensures { result ≡ innermost self.now.frames }
    {
        self.innermost
    }

    /// Opens a frame inside all others.
    ///
    /// # Errors
    /// There is no room, and no memory to make any. The frames stay as they were. The first frame is never refused.
    #[inline]
    pub fn push(&mut self, frame: FrameKind) -> Result<(), AllocError>
        ensures frames { self.new.frames ≡ (if is_ok result then frame ∷ self.old.frames else self.old.frames) }
        ensures capacity { self.old.capacity ≤ self.new.capacity }
        ensures first { self.old.frames ≡ [] → IsOk result }
        ensures succeeds { length self.old.frames < self.old.capacity → IsOk result }
    {
        if let Some(outer) = self.innermost {
            self.around.push(outer)?;
        }
        self.innermost = Some(frame);
        Ok(())
    }

    /// Closes the innermost frame, if any is open. The room stays.
    #[inline]
    pub fn pop(&mut self) -> Option<FrameKind>
        ensures value { result ≡ innermost self.old.frames }
        ensures frames { self.new.frames ≡ around self.old.frames }
        ensures capacity { self.new.capacity ≡ self.old.capacity }
    {
        let closed = self.innermost?;
        self.innermost = self.around.pop();
        Some(closed)
    }

    /// The innermost frame is one of this kind from now on, as `else` makes it; where none is open it is the first. The others and the
    /// room stay.
    #[inline]
    pub fn turn(&mut self, frame: FrameKind)
        ensures frames { self.new.frames ≡ frame ∷ around self.old.frames }
        ensures capacity { self.new.capacity ≡ self.old.capacity }
    {
        self.innermost = Some(frame);
    }

    /// Makes room for so many frames more than are open.
    ///
    /// # Errors
    /// That room is missing, and there is no memory for it. The room stays as it was.
    pub fn reserve(&mut self, additional: usize) -> Result<(), AllocError>
        ensures frames { self.new.frames ≡ self.old.frames }
        ensures room { OnOk result (length self.new.frames + additional ≤ self.new.capacity) }
        ensures capacity { self.old.capacity ≤ self.new.capacity }
        ensures succeeds { length self.old.frames + additional ≤ self.old.capacity → IsOk result }
        ensures refused { OnErr result (self.new ≡ self.old) }
    {
        // the innermost frame has room of its own
        let around = match self.innermost {
            Some(_) => additional,
            None => additional.saturating_sub(1),
        };
        self.around.reserve(around)
    }

    /// The same frames once more.
    ///
    /// # Errors
    /// There is no memory.
    pub fn clone(&self) -> Result<ControlStack, AllocError>
        ensures { IfOk result (λ copy. copy.frames ≡ self.now.frames) }
    {
        let around = self.around.clone()?;
        Ok(ControlStack {
            innermost: self.innermost,
            around,
        })
    }

    /// What an operator makes of the frames, if it may come next: it may leave them, open a frame, close the innermost, or
    /// turn it, as `else` does. Where it may not it answers false, and the frames stay as they were. The room never shrinks.
    ///
    /// # Errors
    /// The operator opens a frame, there is no room for it, and no memory to make any. The frames stay as they were.
    #[inline]
    pub fn advance(&mut self, op: &Operator) -> Result<bool, AllocError>
        ensures fits { IfOk result (λ fits. after (op_of op.now) self.old.frames ≡
            (if fits then Some self.new.frames else None)) }
        ensures stays { IfOk result (λ fits. IsFalse fits → self.new ≡ self.old) }
        ensures refused { OnErr result (self.new.frames ≡ self.old.frames) }
        ensures memory { OnErr result ((frame : Kind) × (after (op_of op.now) self.old.frames ≡ Some
            (frame ∷ self.old.frames))) }
        ensures capacity { self.old.capacity ≤ self.new.capacity }
        ensures succeeds { length self.old.frames < self.old.capacity → IsOk result }
    {
        self.follow(Role::of(op))
    }

    /// What an operator of this role makes of the frames, if it may come next.
    fn follow(&mut self, role: Role) -> Result<bool, AllocError>
        ensures fits { IfOk result (λ fits. behind role self.old.frames ≡
            (if fits then Some self.new.frames else None)) }
        ensures stays { IfOk result (λ fits. IsFalse fits → self.new ≡ self.old) }
        ensures refused { OnErr result (self.new.frames ≡ self.old.frames) }
        ensures memory { OnErr result ((frame : Kind) × (behind role self.old.frames ≡ Some
            (frame ∷ self.old.frames))) }
        ensures capacity { self.old.capacity ≤ self.new.capacity }
        ensures succeeds { length self.old.frames < self.old.capacity → IsOk result }
    {
        let Some(frame) = self.innermost else {
            return Ok(false);
        };
        let Some(effect) = role.effect(frame) else {
            return Ok(false);
        };
        match effect {
            Effect::Stays => {}
            Effect::Nests(opened) => self.push(opened)?,
            Effect::Closes => {
                self.pop();
            }
            Effect::Turns(next) => self.innermost = Some(next),
        }
        Ok(true)
    }
}

impl FrameStack for ControlStack {
    ghost use Rattle.wasm_operators_encoding.specs.expressions.Stack.{innermost};

    ghost frame = { λ s. innermost s.frames };

    fn current_frame(&self) -> Option<FrameKind> {
        self.last()
    }
}
