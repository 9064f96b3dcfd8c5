//! Laws of what a parser reads, each the contract of a function that does nothing.

ghost use Rattle.wasm_types.specs.settings.Settings.{Settings};
ghost use Rattle.wasm_types.specs.decoding.Decoder.{IsLawful};
ghost use Rattle.wasm_sections_parser.specs.declared.progress.Progress.{Progress};
ghost use Rattle.wasm_sections_parser.specs.Steps.{step};
ghost use Rattle.wasm_sections_parser.specs.Worked.{SectionRows, CodeRows, CountRows, PlaceRows, NeedRows};

/// Wherever a parser stands: a frame and a fault stay whatever bytes follow, and an end of data needs exactly as many bytes as
/// are missing.
pub const fn steps_are_lawful()
    ensures { (z : Settings) (p : Progress) → IsLawful (step z p) }
{}

/// Worked steps, each with a yes or a no.
#[tactic(auto, using(crate::specs::Worked::section_rows, crate::specs::Worked::code_rows, crate::specs::Worked::count_rows, crate::specs::Worked::place_rows, crate::specs::Worked::need_rows))]
pub const fn steps_are_worked()
    ensures sections { SectionRows }
    ensures code { CodeRows }
    ensures counts { CountRows }
    ensures places { PlaceRows }
    ensures needs { NeedRows }
{}
