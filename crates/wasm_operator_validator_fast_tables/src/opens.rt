//! The open frames of a body.

ghost use Rattle.std.specs.Prelude.{◌≡◌, ◌∷◌, [], true, IfSome, Some, slice_get};
ghost use Rattle.wasm_operator_validator_fast_tables.specs.Loop.{set_before};

use crate::pile::Pile;
use crate::tables::Open;
use std::marker::Model;

/// The open frames, of which there is at least one. A contract sees the innermost, and those around it, the next first.
#[derive(Drop)]
pub struct Opens {
    frames: Pile<Open>,
}

impl Model for Opens {
    ghost use Rattle.std.specs.Prelude.{◌<◌, length};
    ghost use Rattle.wasm_operator_validator_fast_tables.specs.Nested.{Nested, nested};

    ghost Value = { Nested };

    ghost view = { λ r. nested r.frames };

    ghost invariant = { λ r. 0 < length r.frames };
}

impl Opens {
    /// This frame alone, in the memory of others that are no longer open. None if there is no memory.
    pub fn begin(others: Pile<Open>, frame: Open) -> Option<Opens>
        ensures { IfSome result (λ o. o ≡ record { inner = frame; outer = [] }) }
    {
        let mut frames = others;
        if !frames.begin(0, frame) || !frames.push(frame) {
            return None;
        }
        Some(Opens { frames })
    }

    /// Their memory.
    pub fn into_memory(self) -> Pile<Open> {
        self.frames
    }

    /// The innermost.
    #[inline(always)]
    pub fn inner(&self) -> Open
        ensures { result ≡ self.now.inner }
    {
        self.frames.under(0)
    }

    /// The one behind so many.
    #[inline(always)]
    pub fn behind(&self, depth: usize) -> Option<Open>
        ensures { IfSome result (λ o. slice_get (self.now.inner ∷ self.now.outer) depth ≡ Some o) }
    {
        if depth >= self.frames.len() {
            return None;
        }
        Some(self.frames.under(depth))
    }

    /// The locals that had values where the innermost began.
    #[inline(always)]
    pub fn set_before(&self) -> u64
        ensures { result ≡ set_before self.now.outer }
    {
        if self.frames.len() <= 1 {
            return 0;
        }
        self.frames.under(1).set
    }

    /// Whether the innermost is the only one.
    #[inline(always)]
    pub fn is_last(&self) -> bool
        ensures { result ≡ true → self.now.outer ≡ [] }
    {
        if self.frames.len() > 1 {
            return false;
        }
        true
    }

    /// A frame begins in the innermost. It does not if there is no memory.
    #[inline(always)]
    pub fn nest(&mut self, frame: Open) -> bool
        ensures { result ≡ true → self.new ≡ record { inner = frame; outer = self.old.inner ∷ self.old.outer } }
    {
        self.frames.push(frame)
    }

    /// The innermost ends, if it is not the only one.
    #[inline(always)]
    pub fn close(&mut self) -> bool
        ensures { result ≡ true → self.old.outer ≡ self.new.inner ∷ self.new.outer }
    {
        if self.frames.len() <= 1 {
            return false;
        }
        self.frames.shorten();
        true
    }

    /// This frame is in the place of the innermost.
    #[inline(always)]
    pub fn turn(&mut self, frame: Open)
        ensures { self.new ≡ record { inner = frame; outer = self.old.outer } }
    {
        self.frames.replace(frame);
    }
}
