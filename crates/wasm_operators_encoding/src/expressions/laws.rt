//! Laws of expressions and of frames, each the contract of a function that does nothing.

ghost use Rattle.std.specs.Prelude.{◌≡◌, ◌↔◌, ◌+◌, ◌≤◌, ◌<◌, IsTrue, ℕ, List, [], ◌∷◌, length, Some};
ghost use Rattle.wasm_types.specs.settings.Settings.{Settings};
ghost use Rattle.wasm_operators_immediates.specs.declared.frames.FrameKind.{FrameKind as Kind};
ghost use Rattle.wasm_operators_immediates.specs.declared.frames.FrameKind.TheVariants.{Block};
ghost use Rattle.wasm_types.specs.decoding.Decoder.{State, Done};
ghost use Rattle.wasm_operators_enums.specs.Op.{Op};
ghost use Rattle.wasm_operators_enums.specs.Immediates.{is_canonical};
ghost use Rattle.wasm_operators_encoding.specs.Coded.{Coded, operator};
ghost use Rattle.wasm_operators_encoding.specs.Operators.{coded_of};
ghost use Rattle.wasm_operators_enums.specs.declared.role.Role.TheVariants.{Opens};
ghost use Rattle.wasm_operators_enums.specs.Roles.{role_of, fits};
ghost use Rattle.wasm_operators_encoding.specs.expressions.Code.{Code};
ghost use Rattle.wasm_operators_encoding.specs.expressions.Spelling.{SpelledExpression};
ghost use Rattle.wasm_operators_encoding.specs.expressions.Frames.{Closes, after, BytesClose};

/// Bytes spell one expression at most, whatever features are allowed and limits hold.
pub const fn expressions_have_one_tree()
    ensures { (settings : Settings) (c d : Code) (text : List ℕ) → SpelledExpression settings c text
        → SpelledExpression settings d text → c ≡ d }
{}

/// The open frames determine which operator fits: the structural order allows one exactly if there are frames behind it.
/// An operator adds one frame at most, and only where it opens one.
pub const fn frames_tell_what_fits()
    ensures fits { (o : Op) (k : Kind) (ks : List Kind) → IsTrue (fits o (Some k))
        ↔ ((js : List Kind) × (after o (k ∷ ks) ≡ Some js)) }
    ensures bounded { (o : Op) (ks js : List Kind) → after o ks ≡ Some js → length js ≤ length ks + 1 }
    ensures opened { (o : Op) (ks js : List Kind) → after o ks ≡ Some js → length ks < length js
        → (j : Kind) × (role_of o ≡ Opens j) × (js ≡ j ∷ ks) }
{}

/// Frames are closed operator by operator. Operators close the open frames exactly if the first may stand in the
/// innermost frame and the others close the frames behind it. With a frame open there is a first operator, else there is none.
pub const fn frames_close_step_by_step()
    ensures step { (o : Op) (k : Kind) (ks : List Kind) (os : List Op)
        → Closes (k ∷ ks) (o ∷ os) ↔ ((js : List Kind) × (after o (k ∷ ks) ≡ Some js) × Closes js os) }
    ensures more { (k : Kind) (ks : List Kind) → Closes (k ∷ ks) [] → ⊥ }
    ensures ended { (os : List Op) → Closes [] os ↔ (os ≡ []) }
{}

/// The same of bytes, whatever features are allowed and limits hold. Where the frame of an expression is open, bytes close it exactly if
/// they spell an expression. An operator that was read is a step. Where none can be read, the bytes close no frame.
pub const fn bytes_close_step_by_step()
    ensures whole { (settings : Settings) (text : List ℕ) → BytesClose settings (Block ∷ []) text
        ↔ ((c : Code) × SpelledExpression settings c text) }
    ensures step { (settings : Settings) (s t : State) (o : Op) → operator settings s ≡ Done (coded_of o) t
        → IsTrue (is_canonical o) → (k : Kind) (ks : List Kind)
        → BytesClose settings (k ∷ ks) s.rest ↔ ((js : List Kind) × (after o (k ∷ ks) ≡ Some js)
        × BytesClose settings js t.rest) }
    ensures stuck { (settings : Settings) (s : State) → ((c : Coded) (t : State) → operator settings s ≡ Done c t → ⊥)
        → (k : Kind) (ks : List Kind) → BytesClose settings (k ∷ ks) s.rest → ⊥ }
    ensures ended { (settings : Settings) (text : List ℕ) → BytesClose settings [] text ↔ (text ≡ []) }
{}
