//! The log of an attempt.

ghost use Rattle.std.specs.Prelude.{◌≡◌, ◌++◌, ◌∷◌, [], false, length, min, reverse, take, OnOk, IfErr};
ghost use Rattle.wasm_operator_validator_state.specs.attempts.Log.{Stacks, begun, undone, Notes, reached, unreached, with_operand, with_frame, with_set, lost};
ghost use Rattle.wasm_operator_validator_state.specs.declared.frame.Frame.{Frame as TheFrame};
ghost use Rattle.wasm_operator_validator_state.specs.declared.operand.MaybeType.{MaybeType as TheOperand};

use crate::{Frame, MaybeType};
use std::alloc::{AllocError, Global};
use std::marker::Model;

/// The memory of a log that is done, for another to use.
#[derive(Drop)]
pub struct RollbackLogAllocations {
    operands: Vec<MaybeType>,
    control: Vec<Frame>,
    inits: Vec<u32>,
}

impl RollbackLogAllocations {
    /// None yet. It takes no memory.
    pub fn new(alloc: Global) -> RollbackLogAllocations {
        RollbackLogAllocations {
            operands: Vec::new(alloc),
            control: Vec::new(alloc),
            inits: Vec::new(alloc),
        }
    }

    /// The allocator that the memory is of.
    pub(crate) fn allocator(&self) -> Global {
        *self.operands.allocator()
    }
}

/// What one attempt did to the stacks of a validator: operands, open frames, and locals that were set. It is told of each step, in
/// order; where a step is refused for memory, the log is as before. It keeps of what stood where the attempt began no more than was
/// taken off since, so at most as many operands and frames as there were (`KeepsNoMore` of `specs/attempts/Worked.antt`).
#[derive(Drop)]
pub struct RollbackLog {
    pushed: usize,
    popped: Vec<MaybeType>,
    opened: usize,
    closed: Vec<Frame>,
    marked: bool,
    kept: usize,
    unset: Vec<u32>,
}

impl Model for RollbackLog {
    ghost use Rattle.std.specs.Prelude.{reverse};
    ghost use Rattle.wasm_operator_validator_state.specs.attempts.Log.{Log};

    ghost Value = { Log };

    ghost view = { λ l. record {
      pushed = l.pushed;
      popped = l.popped.items;
      opened = l.opened;
      closed = l.closed.items;
      marked = l.marked;
      kept = l.kept;
      unset = reverse l.unset.items;
    } };
}

impl RollbackLog {
    /// The log of an attempt that begins where so many locals are set. It takes no memory.
    pub fn new(init_height: usize, allocs: RollbackLogAllocations) -> RollbackLog
        ensures begins { result ≡ begun init_height }
        ensures nothing { (s : Stacks) → length s.set ≡ init_height → undone result s ≡ s }
    {
        let RollbackLogAllocations {
            operands: mut popped,
            control: mut closed,
            inits: mut unset,
        } = allocs;
        popped.clear();
        closed.clear();
        unset.clear();
        RollbackLog {
            pushed: 0,
            popped,
            opened: 0,
            closed,
            marked: false,
            kept: init_height,
            unset,
        }
    }

    /// Notes that an operand was put on. It takes no memory.
    pub fn record_push(&mut self)
        ensures { (s : Stacks) (x : TheOperand) → Notes self.old s self.new (with_operand x s) }
    {
        self.pushed = self.pushed.saturating_add(1);
    }

    /// Notes that an operand was taken off, of which this was known.
    pub fn record_pop(&mut self, ty: MaybeType) -> Result<(), AllocError>
        ensures noted { (s : Stacks) → OnOk result (Notes self.old (with_operand ty s) self.new s) }
        ensures refused { IfErr result (λ _. self.new ≡ self.old) }
    {
        if self.pushed > 0 {
            self.pushed -= 1;
            return Ok(());
        }
        put(&mut self.popped, ty)
    }

    /// Notes that a frame was opened. It takes no memory.
    pub fn push_ctrl(&mut self)
        ensures { (s : Stacks) (f : TheFrame) → Notes self.old s self.new (with_frame f s) }
    {
        self.opened = self.opened.saturating_add(1);
    }

    /// Notes that a frame was closed, and that these locals, which were set in it, are not set any more.
    pub fn pop_ctrl(&mut self, frame: Frame, inits: &[u32]) -> Result<(), AllocError>
        ensures noted { (s : Stacks) → length s.set ≡ frame.init_height
            → OnOk result (Notes self.old (with_frame frame (with_set inits.now s)) self.new s) }
        ensures refused { IfErr result (λ _. self.new ≡ self.old) }
    {
        let held = self.unset.as_slice().len();
        let height = frame.init_height;
        let kept = self.kept;
        put_below(&mut self.unset, lost(kept, height, inits))?;
        if self.opened > 0 {
            self.opened -= 1;
            self.kept = least(kept, height);
            return Ok(());
        }
        let marked = self.marked;
        let stood = reached(marked, frame);
        if let Err(refused) = put(&mut self.closed, stood) {
            self.unset.truncate(held);
            return Err(refused);
        }
        self.marked = false;
        self.kept = least(kept, height);
        Ok(())
    }

    /// Notes that nothing is reached any more in the innermost frame, where that was reached until now. It takes no memory.
    pub fn set_unreachable(&mut self)
        ensures { (s : Stacks) (f : TheFrame) → f.unreachable ≡ false
            → Notes self.old (with_frame f s) self.new (with_frame (unreached f) s) }
    {
        if self.opened == 0 {
            self.marked = true;
        }
    }

    /// The allocator that its memory is of.
    pub(crate) fn allocator(&self) -> Global {
        *self.popped.allocator()
    }

    /// The memory of this log, emptied.
    pub fn into_allocations(self) -> RollbackLogAllocations {
        let RollbackLog {
            pushed: _,
            popped: operands,
            opened: _,
            closed: control,
            marked: _,
            kept: _,
            unset: inits,
        } = self;
        RollbackLogAllocations {
            operands,
            control,
            inits,
        }
    }
}

/// Puts an item at the end.
fn put<T: Copy + Drop>(items: &mut Vec<T>, item: T) -> Result<(), AllocError>
    ensures done { OnOk result (items.new.items ≡ items.old.items ++ item ∷ []) }
    ensures refused { IfErr result (λ _. items.new.items ≡ items.old.items) }
{
    items.push(item)?;
    Ok(())
}

/// The frame as it was where the attempt began.
fn reached(marked: bool, frame: Frame) -> Frame
    ensures { result ≡ reached marked frame }
{
    let mut frame = frame;
    if marked {
        frame.unreachable = false;
    }
    frame
}

/// Of these locals, which were set on top of so many, those that are among the first `kept`.
fn lost(kept: usize, height: usize, inits: &[u32]) -> &[u32]
    ensures { result.now ≡ lost kept height inits.now }
{
    let count = least(kept.saturating_sub(height), inits.len());
    &inits[..count]
}

/// The smaller one.
fn least(kept: usize, height: usize) -> usize
    ensures { result ≡ min kept height }
{
    if kept < height { kept } else { height }
}

/// Puts these locals below those that stand in reverse.
fn put_below(unset: &mut Vec<u32>, inits: &[u32]) -> Result<(), AllocError>
    ensures done { OnOk result (reverse unset.new.items ≡ inits.now ++ reverse unset.old.items) }
    ensures kept { take (length unset.old.items) unset.new.items ≡ unset.old.items }
    ensures refused { IfErr result (λ _. unset.new.items ≡ unset.old.items) }
{
    let held = unset.as_slice().len();
    let mut left = inits;
    while let Some((last, below)) = left.split_last() {
        left = below;
        if let Err(_) = unset.push(*last) {
            unset.truncate(held);
            return Err(AllocError);
        }
    }
    Ok(())
}
