//! What catches exceptions and handles suspensions.

ghost use Rattle.std.specs.Prelude.{◌≡◌, length};

use crate::BlockType;

/// A clause of `try_table` (WebAssembly 3.0, structure, control instructions). Labels count frames outwards, from the
/// frame around the `try_table`.
#[derive(Clone, Copy, Debug, PartialEq, Eq)]
pub enum Catch {
    /// `catch`: exceptions of this tag, whose values go to the label.
    One { tag: u32, label: u32 },
    /// `catch_ref`: the same, and a reference to the exception.
    OneRef { tag: u32, label: u32 },
    /// `catch_all`: each exception.
    All { label: u32 },
    /// `catch_all_ref`: each exception, and a reference to it.
    AllRef { label: u32 },
}

/// The type and the clauses of `try_table`.
#[derive(Clone, Debug, Drop, PartialEq, Eq)]
pub struct TryTable {
    /// The type of the block.
    pub ty: BlockType,
    /// The clauses, of which the first that fits is taken.
    pub catches: Vec<Catch>,
}

/// A handler of `resume` (the proposal on stack switching).
#[derive(Clone, Copy, Debug, PartialEq, Eq)]
pub enum Handle {
    /// `on` a tag: a suspension by it goes to the label.
    OnLabel { tag: u32, label: u32 },
    /// `on` a tag, `switch`: a switch by it goes on to another continuation.
    OnSwitch { tag: u32 },
}

/// The handlers of `resume`.
#[derive(Clone, Debug, Drop, PartialEq, Eq)]
pub struct ResumeTable {
    /// The handlers, of which the first that fits is taken.
    pub handlers: Vec<Handle>,
}

impl ResumeTable {
    /// How many handlers there are.
    #[inline]
    pub fn len(&self) -> usize
        ensures { result ≡ length self.now.handlers.items }
    {
        self.handlers.len()
    }
}
