//! Laws of calls, each the contract of a function that does nothing.

ghost use Rattle.std.specs.Prelude.{◌≡◌, ◌+◌, ◌<◌, ◌≤◌, ℕ, Bool, List, length, false, Ok, Err};
ghost use Rattle.wasm_types.specs.decoding.ErrorValue.{ErrorValue};
ghost use Rattle.wasm_sections_parser.specs.declared.frame.Frame.{Frame};
ghost use Rattle.wasm_sections_parser.specs.Parsers.{Parser};
ghost use Rattle.wasm_sections_parser.specs.declared.parser.Chunk.TheVariants.{Parsed};
ghost use Rattle.wasm_sections_parser.specs.Parsing.{Parses};
ghost use Rattle.wasm_sections_parser.specs.Steps.{is_over};
ghost use Rattle.wasm_sections_parser.specs.runs.calls.Advance.{is_end};

/// A call that gives a frame takes bytes that are there, one at least but for the end, and leaves the parser behind them; it is over
/// exactly behind the end. A refused call leaves the parser at its offset.
pub const fn calls_move_on()
    ensures within { (p : Parser) (text : List ℕ) (eof : Bool) (n : ℕ) (f : Frame) (q : Parser)
        → Parses p text eof (Ok (Parsed n f)) q
        → (n ≤ length text) × (is_end f ≡ false → 0 < n) × (q.offset ≡ p.offset + n) }
    ensures over { (p : Parser) (text : List ℕ) (eof : Bool) (n : ℕ) (f : Frame) (q : Parser)
        → Parses p text eof (Ok (Parsed n f)) q → is_over q.progress ≡ is_end f }
    ensures refused { (p : Parser) (text : List ℕ) (eof : Bool) (e : ErrorValue) (q : Parser)
        → Parses p text eof (Err e) q → q.offset ≡ p.offset }
{}
