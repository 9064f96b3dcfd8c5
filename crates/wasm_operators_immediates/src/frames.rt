//! The frames that operators open and close.

ghost use Rattle.std.specs.Prelude.{◌≡◌};

/// What opened a frame, or what its last part began with.
#[derive(Clone, Copy, Debug, PartialEq, Eq)]
pub enum FrameKind {
    /// `block`, or the body of a function or the whole of an expression.
    Block,
    /// `if`, up to its `else` or `end`.
    If,
    /// `else`.
    Else,
    /// `loop`.
    Loop,
    /// `try_table`.
    TryTable,
    /// `try` of the older exceptions, up to its first `catch`, `catch_all`, `delegate` or `end`.
    LegacyTry,
    /// `catch` of the older exceptions.
    LegacyCatch,
    /// `catch_all` of the older exceptions.
    LegacyCatchAll,
}

/// What knows which frames are open.
pub trait FrameStack {
    ghost use Rattle.std.specs.Prelude.{Option};
    ghost use Rattle.wasm_operators_immediates.specs.declared.frames.FrameKind.{FrameKind as Kind};

    /// The innermost open frame, if any is open.
    ghost frame: { Self → Option Kind };

    /// The innermost open frame, if any is open.
    fn current_frame(&self) -> Option<FrameKind>
        ensures { result ≡ frame self.now };
}
