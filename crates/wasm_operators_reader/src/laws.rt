//! Laws of readers of operators, each the contract of a function that does nothing.

ghost use Rattle.std.specs.Prelude.{◌≡◌, List, []};
ghost use Rattle.wasm_types.specs.decoding.Decoder.{State};
ghost use Rattle.wasm_types.specs.decoding.ErrorValue.{ErrorValue};
ghost use Rattle.wasm_types.specs.reader.Reading.{IsNotMemory};
ghost use Rattle.wasm_operators_enums.specs.Op.{Op};
ghost use Rattle.wasm_operators_encoding.specs.expressions.Code.{Code, walk};
ghost use Rattle.wasm_operators_encoding.specs.expressions.Spelling.{SpelledExpression};
ghost use Rattle.wasm_operators_reader.specs.Standing.{Standing, at_start, IsFinished, Reads, Refuses, Runs};

/// From where a reader stands at most one operator can be read, and it leads to one standing. Where a reader refuses,
/// nothing can be read, unless memory ran out.
pub const fn readings_are_steps()
    ensures one { (s : Standing) (o p : Op) (t u : Standing) → Reads s o t → Reads s p u → (o ≡ p) × (t ≡ u) }
    ensures none { (s : Standing) (e : ErrorValue) → Refuses s e → IsNotMemory e.kind → (o : Op) (t : Standing)
        → Reads s o t → ⊥ }
{}

/// What is read from the start to the end is an expression in the order of its walk, which all of the bytes spell. Each
/// expression that they spell is read that way.
pub const fn runs_are_expressions()
    ensures sound { (s : State) (os : List Op) (t : Standing) → Runs (at_start s) os t → IsFinished t
        → (c : Code) × (walk c ≡ os) × SpelledExpression s.settings c s.rest }
    ensures complete { (s : State) (c : Code) → SpelledExpression s.settings c s.rest
        → (t : Standing) × Runs (at_start s) (walk c) t × IsFinished t }
{}

/// Where a reader refuses on the way, out of memory aside, or where its bytes end while a frame is open, all of the bytes
/// together spell no expression.
pub const fn refusals_deny_expressions()
    ensures refused { (s : State) (os : List Op) (t : Standing) → Runs (at_start s) os t → (IsFinished t → ⊥)
        → (e : ErrorValue) → Refuses t e → IsNotMemory e.kind → (c : Code) → SpelledExpression s.settings c s.rest → ⊥ }
    ensures ended { (s : State) (os : List Op) (t : Standing) → Runs (at_start s) os t → t.bytes.rest ≡ []
        → (t.frames ≡ [] → ⊥) → (c : Code) → SpelledExpression s.settings c s.rest → ⊥ }
{}
