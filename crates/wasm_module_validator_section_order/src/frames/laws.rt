//! Laws of frames and walks, each on the contract of a function that does nothing.

ghost use Rattle.std.specs.Prelude.{◌≡◌, ◌+◌, ◌<◌, ◌^◌, ◌∷◌, ◌++◌, ℕ, List, [], length, drop, true, false, Some, Ok, Err};
ghost use Rattle.wasm_types.specs.settings.Settings.{Settings};
ghost use Rattle.wasm_types.specs.decoding.ErrorValue.{ErrorValue};
ghost use Rattle.wasm_sections_parser.specs.declared.frame.Frame.{Frame};
ghost use Rattle.wasm_sections_parser.specs.Parsers.{Parser};
ghost use Rattle.wasm_sections_parser.specs.declared.parser.Chunk.TheVariants.{Parsed};
ghost use Rattle.wasm_sections_parser.specs.Parsing.{shape_of};
ghost use Rattle.wasm_sections_parser.specs.Steps.{Shape, the_end, is_over};
ghost use Rattle.wasm_sections_parser.specs.runs.calls.Runs.{fresh};
ghost use Rattle.wasm_sections_parser.specs.runs.calls.Calls.{shapes_of, Called, Calls};
ghost use Rattle.wasm_sections_parser.specs.runs.Modules.{IsModule};
ghost use Rattle.wasm_sections.specs.declared.payload.Payload.{Payload};
ghost use Rattle.wasm_sections.specs.Payloads.{IsPayloadOf};
ghost use Rattle.wasm_sections.specs.Walking.{Standing, IsFrameOf, NextPayload};
ghost use Rattle.wasm_module_validator_rules_in_order.specs.Steps.{SoFar, nothing, JudgesShape, JudgesShapes};
ghost use Rattle.wasm_module_validator_section_order.specs.frames.Walks.{HasSettings, IsBehind, RefusesNext};
ghost use Rattle.wasm_module_validator_section_order.specs.frames.Worked.{WalkRows};

/// A text is a module of one list of frames. Those that calls of a parser gave so far come first among them, and where the parser is
/// over they are all, and the end. A call more gives a frame more. Each frame is read by the settings of the parser that began.
pub const fn fronts_are_of_modules()
    ensures one { (z : Settings) (text : List ℕ) (xs ys : List Shape) → length text < 2 ^ 64 → IsModule z text xs
        → IsModule z text ys → xs ≡ ys }
    ensures front { (p q : Parser) (text rest : List ℕ) (fs : List Frame) (ys : List Shape) → p.progress ≡ fresh
        → p.offset + length text < 2 ^ 64
        → IsModule p.settings text ys → Calls p text fs q rest → is_over q.progress ≡ false
        → (zs : List Shape) × (ys ≡ shapes_of fs ++ zs) }
    ensures ended { (p q : Parser) (text rest : List ℕ) (fs : List Frame) → p.progress ≡ fresh → Calls p text fs q rest
        → is_over q.progress ≡ true
        → (ys : List Shape) × (shapes_of fs ≡ ys ++ the_end ∷ []) × IsModule p.settings text ys }
    ensures joined { (fs : List Frame) (p q r : Parser) (text rest : List ℕ) (n : ℕ) (f : Frame)
        → Calls p text fs q rest → Called q rest (Ok (Parsed n f)) r
        → Calls p text (fs ++ f ∷ []) r (drop n rest) }
    ensures shapes { (fs : List Frame) (f : Frame) → shapes_of (fs ++ f ∷ []) ≡ shapes_of fs ++ shape_of f ∷ [] }
    ensures kept { (fs : List Frame) (p q : Parser) (text rest : List ℕ) → Calls p text fs q rest
        → q.settings ≡ p.settings }
    ensures settings { (p q r : Parser) (text rest : List ℕ) (fs : List Frame) (n : ℕ) (f : Frame)
        → Calls p text fs q rest → Called q rest (Ok (Parsed n f)) r
        → HasSettings p.settings f }
{}

/// A walk over all bytes of a module stands behind no frames as it begins, and then behind one frame more with each payload, which is
/// that frame's. Behind the end the bytes are a module, and the frames are its own and the end. Where the bytes are a module, the frames
/// so far come first among its own and the end, wherever the walk stands; and nothing is refused but a section that comes next and is no
/// payload.
pub const fn walks_go_along_modules()
    ensures called { (p : Parser) (text : List ℕ) (f : Frame) (q : Parser) (rest : List ℕ) → IsFrameOf p text f q rest
        → (n : ℕ) × Called p text (Ok (Parsed n f)) q × (rest ≡ drop n text) }
    ensures begins { (p : Parser) (text : List ℕ) (s : Standing) → p.progress ≡ fresh
        → s ≡ record { parser = p; rest = text; over = false } → IsBehind p text [] s }
    ensures next { (p : Parser) (text : List ℕ) (fs : List Frame) (s t : Standing) (x : Payload) → IsBehind p text fs s
        → NextPayload s (Some (Ok x)) t
        → (f : Frame) × IsPayloadOf f x × HasSettings p.settings f × IsBehind p text (fs ++ f ∷ []) t }
    ensures ended { (p : Parser) (text : List ℕ) (fs : List Frame) (s : Standing) → p.progress ≡ fresh
        → IsBehind p text fs s → s.over ≡ true
        → (ys : List Shape) × (shapes_of fs ≡ ys ++ the_end ∷ []) × IsModule p.settings text ys }
    ensures front { (p : Parser) (text : List ℕ) (fs : List Frame) (ys : List Shape) (s : Standing) → p.progress ≡ fresh
        → p.offset + length text < 2 ^ 64
        → IsModule p.settings text ys → IsBehind p text fs s → (zs : List Shape)
        × (ys ++ the_end ∷ [] ≡ shapes_of fs ++ zs) }
    ensures refused { (p : Parser) (text : List ℕ) (fs : List Frame) (ys : List Shape) (s t : Standing) (e : ErrorValue)
        → p.progress ≡ fresh
        → p.offset + length text < 2 ^ 64 → IsModule p.settings text ys → IsBehind p text fs s
        → NextPayload s (Some (Err e)) t → RefusesNext p fs ys e }
{}

/// What was judged behind a frame more is what that frame does behind those before it. Where the bytes are a module whose frames are judged,
/// so is each frame that a walk gave behind those before it, the end too, and nothing is refused. Behind the end of any walk, what was
/// judged are the frames of the module that the bytes are.
pub const fn walks_are_judged()
    ensures more { (z : Settings) (fs : List Frame) (f : Frame) (q r : SoFar) → JudgesShapes z nothing (shapes_of fs) q
        → JudgesShape z q (shape_of f) r
        → JudgesShapes z nothing (shapes_of (fs ++ f ∷ [])) r }
    ensures less { (z : Settings) (fs : List Frame) (f : Frame) (r : SoFar)
        → JudgesShapes z nothing (shapes_of (fs ++ f ∷ [])) r
        → (q : SoFar) × JudgesShapes z nothing (shapes_of fs) q × JudgesShape z q (shape_of f) r }
    ensures next { (p : Parser) (text : List ℕ) (fs : List Frame) (f : Frame) (ys : List Shape) (t : Standing)
        (r : SoFar) → p.progress ≡ fresh
        → p.offset + length text < 2 ^ 64 → IsModule p.settings text ys → JudgesShapes p.settings nothing ys r
        → IsBehind p text (fs ++ f ∷ []) t
        → (q s : SoFar) × JudgesShapes p.settings nothing (shapes_of fs) q × JudgesShape p.settings q (shape_of f) s }
    ensures accepted { (p : Parser) (text : List ℕ) (fs : List Frame) (ys : List Shape) (s t : Standing) (r : SoFar)
        (e : ErrorValue) → p.progress ≡ fresh
        → p.offset + length text < 2 ^ 64 → IsModule p.settings text ys → JudgesShapes p.settings nothing ys r
        → IsBehind p text fs s
        → NextPayload s (Some (Err e)) t → ⊥ }
    ensures ended { (p : Parser) (text : List ℕ) (fs : List Frame) (s : Standing) (q : SoFar) → p.progress ≡ fresh
        → IsBehind p text fs s → s.over ≡ true
        → JudgesShapes p.settings nothing (shapes_of fs) q → (ys : List Shape) × IsModule p.settings text ys
        × JudgesShapes p.settings nothing ys q }
{}

/// Worked settings and walks, each with a yes and a no.
#[tactic(auto, using(crate::specs::frames::Worked::walk_rows))]
pub const fn walks_are_worked()
    ensures { WalkRows }
{}
