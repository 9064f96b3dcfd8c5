//! Laws of frames, each the contract of a function that does nothing.

ghost use Rattle.std.specs.Prelude.{◌≡◌, ◌+◌, ◌<◌, ◌^◌, ◌++◌, ℕ, List, [], length, false, Ok, Err};
ghost use Rattle.wasm_types.specs.settings.Settings.{Settings};
ghost use Rattle.wasm_types.specs.decoding.ErrorValue.{ErrorValue};
ghost use Rattle.wasm_sections_parser.specs.declared.frame.Frame.{Frame};
ghost use Rattle.wasm_sections_parser.specs.declared.frame.Frame.TheVariants.{End};
ghost use Rattle.wasm_sections_parser.specs.Parsers.{Parser};
ghost use Rattle.wasm_sections_parser.specs.declared.parser.Chunk.TheVariants.{NeedMoreData, Parsed};
ghost use Rattle.wasm_sections_parser.specs.Parsing.{reads, Parses};
ghost use Rattle.wasm_sections_parser.specs.Steps.{Shape, is_over};
ghost use Rattle.wasm_sections_items.specs.frames.Outer.{Outer, SpelledOuter};
ghost use Rattle.wasm_sections_parser.specs.runs.calls.Runs.{fresh, Frames};
ghost use Rattle.wasm_sections_parser.specs.runs.calls.Calls.{shapes_of, stands, Called, Calls};
ghost use Rattle.wasm_sections_parser.specs.runs.Modules.{IsModule, IsFront, IsStart};
ghost use Rattle.wasm_sections_parser.specs.runs.Worked.{RunRows, CutRows, FitRows};

/// The frames of a module are those of its spelling: bytes have frames exactly if they are the frames of a module.
pub const fn frames_are_of_modules()
    ensures spelled { (z : Settings) (m : Outer) (text : List ℕ) (xs : List Shape) → Frames z m text xs
        → SpelledOuter z m text }
    ensures framed { (z : Settings) (m : Outer) (text : List ℕ) → SpelledOuter z m text
        → (xs : List Shape) × Frames z m text xs }
{}

/// What calls of a parser give from the start of a module, however the bytes are cut into pieces. The end comes only behind a whole
/// module, in order and with readable counts that agree, and what came before it are its frames. Such a module is not refused.
/// Before the end and before a refusal the frames are those of a front that the bytes spell: whole sections, whose counts agree as far as
/// they are there, and behind them nothing or a code section of as many bodies as functions, as far as it is there, body by body; and before a refusal come those of every such front, whose sections
/// end by their sizes below 2^64. They come too before a call that is handed all the bytes that are left and asks for more.
pub const fn calls_give_modules()
    ensures end { (p q r : Parser) (text rest : List ℕ) (fs : List Frame) (n place : ℕ) → p.progress ≡ fresh
        → Calls p text fs q rest → Called q rest (Ok (Parsed n (End place))) r
        → IsModule p.settings text (shapes_of fs) × (rest ≡ []) × (place ≡ p.offset + length text) }
    ensures accepted { (p q r : Parser) (text rest : List ℕ) (fs : List Frame) (e : ErrorValue) (xs : List Shape)
        → p.progress ≡ fresh → p.offset + length text < 2 ^ 64
        → IsModule p.settings text xs → Calls p text fs q rest → is_over q.progress ≡ false
        → Called q rest (Err e) r → ⊥ }
    ensures before { (p q : Parser) (text rest : List ℕ) (fs : List Frame) → p.progress ≡ fresh → Calls p text fs q rest
        → is_over q.progress ≡ false
        → IsFront p.settings (reads p text) (shapes_of fs) q.progress (stands q rest p.offset) }
    ensures spelled { (p q : Parser) (text rest : List ℕ) (fs : List Frame) → p.progress ≡ fresh
        → Calls p text fs q rest → is_over q.progress ≡ false → (front : List ℕ)
        × (long : ℕ) × (text ≡ front ++ rest) × IsStart p.settings front (shapes_of fs) long }
    ensures refused { (p q r : Parser) (text rest front back : List ℕ) (fs : List Frame) (e : ErrorValue)
        (xs : List Shape) (long : ℕ) → p.progress ≡ fresh → text ≡ front ++ back
        → IsStart p.settings front xs long → p.offset + long < 2 ^ 64 → Calls p text fs q rest
        → is_over q.progress ≡ false → Called q rest (Err e) r → (zs : List Shape)
        × (shapes_of fs ≡ xs ++ zs) }
    ensures asked { (p q r : Parser) (text rest front back : List ℕ) (fs : List Frame) (n : ℕ) (xs : List Shape)
        (long : ℕ) → p.progress ≡ fresh → text ≡ front ++ back
        → IsStart p.settings front xs long → p.offset + long < 2 ^ 64 → Calls p text fs q rest
        → is_over q.progress ≡ false → Parses q rest false (Ok (NeedMoreData n)) r
        → (zs : List Shape) × (shapes_of fs ≡ xs ++ zs) }
{}

/// Worked runs: what they give, and where they end or are refused.
#[tactic(auto, using(crate::specs::runs::Worked::run_rows, crate::specs::runs::Worked::cut_rows, crate::specs::runs::Worked::fit_rows))]
pub const fn runs_are_worked()
    ensures runs { RunRows }
    ensures cuts { CutRows }
    ensures fits { FitRows }
{}
