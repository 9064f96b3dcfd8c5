//! Laws of single frames, each the contract of a function that does nothing.

ghost use Rattle.std.specs.Prelude.{◌≡◌, ◌≤◌, ℕ, List};
ghost use Rattle.wasm_types.specs.settings.Settings.{Settings};
ghost use Rattle.wasm_types.specs.decoding.Decoder.{State, Done, Takes};
ghost use Rattle.wasm_sections_parser.specs.declared.progress.Progress.{Progress};
ghost use Rattle.wasm_sections_parser.specs.Steps.{version, section, custom, entry, next_header, next_section, next_entry};
ghost use Rattle.wasm_sections_items.specs.frames.Outer.{Header, SpelledHeader, SpelledPart, SpelledEntry, section as outer_section, custom as outer_custom};

/// The header, each whole section and each body that a parser gives is spelled by exactly the bytes that it took; a body's lie
/// within the code section.
pub const fn frames_are_spelled()
    ensures headers { (p q : Progress) (s t : State) (h : Header) → next_header p s ≡ Done (version h, q) t
        → (text : List ℕ) × Takes s text t × SpelledHeader h text }
    ensures sections { (z : Settings) (p q : Progress) (s t : State) (id : ℕ) (c : List ℕ)
        → next_section z p s ≡ Done (section id c, q) t → (text : List ℕ) × Takes s text t
        × SpelledPart z (outer_section id c) text }
    ensures customs { (z : Settings) (p q : Progress) (s t : State) (n c : List ℕ)
        → next_section z p s ≡ Done (custom n c, q) t → (text : List ℕ) × Takes s text t
        × SpelledPart z (outer_custom n c) text }
    ensures bodies { (p q : Progress) (left end : ℕ) (s t : State) (c : List ℕ)
        → next_entry p left end s ≡ Done (entry c, q) t → (text : List ℕ) × Takes s text t
        × SpelledEntry c text × (t.place ≤ end) }
{}
