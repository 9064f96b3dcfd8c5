//! Laws of frames, each the contract of a function that does nothing.

ghost use Rattle.std.specs.Prelude.{◌≡◌, ℕ, List};
ghost use Rattle.wasm_types.specs.settings.Settings.{Settings};
ghost use Rattle.wasm_types.specs.decoding.Decoder.{IsLawful, Decides};
ghost use Rattle.wasm_sections_items.specs.frames.Outer.{Header, Part, Outer, SpelledHeader, SpelledPart, SpelledOuter};
ghost use Rattle.wasm_sections_items.specs.frames.Decode.{header, part};
ghost use Rattle.wasm_sections_items.specs.frames.Worked.{HeaderRows, PartRows, OrderRows, CountRows, OuterRows};

/// A header and a section: a value and a fault stay whatever bytes follow, an end of data needs exactly as many bytes as
/// are missing, and a value is read exactly if a front of the bytes spells it.
pub const fn frames_are_lawful()
    ensures headers { IsLawful header × Decides header SpelledHeader }
    ensures sections { (z : Settings) → IsLawful (part z) × Decides (part z) (SpelledPart z) }
{}

/// Bytes are the frames of at most one module.
pub const fn frames_are_unique()
    ensures { (z : Settings) (m n : Outer) (text : List ℕ) → SpelledOuter z m text → SpelledOuter z n text → m ≡ n }
{}

/// Worked headers, sections and modules, each with a yes or a no.
#[tactic(auto, using(crate::specs::frames::Worked::header_rows, crate::specs::frames::Worked::part_rows, crate::specs::frames::Worked::order_rows, crate::specs::frames::Worked::count_rows, crate::specs::frames::Worked::outer_rows))]
pub const fn frames_are_worked()
    ensures headers { HeaderRows }
    ensures sections { PartRows }
    ensures order { OrderRows }
    ensures counts { CountRows }
    ensures modules { OuterRows }
{}
