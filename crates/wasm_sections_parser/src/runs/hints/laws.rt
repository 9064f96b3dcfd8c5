//! Laws of what is asked for, each the contract of a function that does nothing.

ghost use Rattle.std.specs.Prelude.{◌≡◌, ℕ, List, true, false, Ok};
ghost use Rattle.wasm_sections_parser.specs.Parsers.{Parser};
ghost use Rattle.wasm_sections_parser.specs.declared.parser.Chunk.TheVariants.{NeedMoreData};
ghost use Rattle.wasm_sections_parser.specs.Parsing.{Parses};
ghost use Rattle.wasm_sections_parser.specs.runs.hints.Hints.{IsLeast};
ghost use Rattle.wasm_sections_parser.specs.runs.hints.Worked.{HeaderRows, CutRows};

/// A call that asks for more bytes leaves the parser, and as many as it asks for are the least that can bring a frame or a refusal:
/// some so many do, and with fewer it asks for more again, no less than those that are still missing. Where no bytes follow, none are
/// asked for.
pub const fn hints_are_least()
    ensures least { (p q : Parser) (text : List ℕ) (n : ℕ) → Parses p text false (Ok (NeedMoreData n)) q
        → (q ≡ p) × IsLeast p text n }
    ensures ended { (p q : Parser) (text : List ℕ) (n : ℕ) → Parses p text true (Ok (NeedMoreData n)) q → ⊥ }
{}

/// Worked bytes that end too early.
#[tactic(auto, using(crate::specs::runs::hints::Worked::header_rows, crate::specs::runs::hints::Worked::cut_rows))]
pub const fn hints_are_worked()
    ensures headers { HeaderRows }
    ensures cuts { CutRows }
{}
