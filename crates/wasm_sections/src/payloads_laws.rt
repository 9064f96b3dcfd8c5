//! Laws of payloads, each the contract of a function that does nothing.

ghost use Rattle.std.specs.Prelude.{◌≡◌, ◌⊎◌, ◌+◌, ◌<◌, ◌^◌, ℕ, Bool, List, [], length, true, false, Some, Result, Ok, Err};
ghost use Rattle.wasm_types.specs.decoding.ErrorValue.{ErrorValue};
ghost use Rattle.wasm_types.specs.reader.Reading.{IsNotMemory};
ghost use Rattle.wasm_sections_parser.specs.declared.frame.Frame.{Frame};
ghost use Rattle.wasm_sections_parser.specs.Parsers.{Parser};
ghost use Rattle.wasm_sections_parser.specs.declared.parser.Chunk.TheVariants.{Parsed as FrameParsed};
ghost use Rattle.wasm_sections_parser.specs.Steps.{Shape, is_over};
ghost use Rattle.wasm_sections_parser.specs.runs.calls.Runs.{fresh};
ghost use Rattle.wasm_sections_parser.specs.runs.calls.Calls.{shapes_of, Called, Calls};
ghost use Rattle.wasm_sections_parser.specs.runs.Modules.{IsModule};
ghost use Rattle.wasm_sections.specs.declared.payload.Payload.{Payload};
ghost use Rattle.wasm_sections.specs.declared.payload.Payload.TheVariants.{End};
ghost use Rattle.wasm_sections.specs.declared.parser.Chunk.{Chunk};
ghost use Rattle.wasm_sections.specs.declared.parser.Chunk.TheVariants.{Parsed};
ghost use Rattle.wasm_sections.specs.Payloads.{IsRefusedAs};
ghost use Rattle.wasm_sections.specs.Parsing.{ParsesPayload, FailedBefore, CalledPayload, PayloadCalls, EndIsLast};
ghost use Rattle.wasm_sections.specs.Walking.{Standing, IsFrameOf, NextPayload, Walks, ArePayloads};
ghost use Rattle.wasm_sections.specs.Worked.{PayloadRows, RefusedRows, CallRows, WalkRows};

/// What comes of `parse_all` is the payloads of the frames that calls of the parser give. Where nothing comes behind a payload,
/// that is the end, and those before it are the payloads of the frames of the module that the bytes spell. A whole module is
/// refused only at a frame that is no payload.
pub const fn payloads_are_of_modules()
    ensures calls { (ps : List Payload) (s t : Standing) → Walks s ps t
        → (fs : List Frame) × ArePayloads fs ps × Calls s.parser s.rest fs t.parser t.rest }
    ensures ends { (ps : List Payload) (p : Payload) (s u t : Standing) → s.parser.progress ≡ fresh → Walks s ps u
        → NextPayload u (Some (Ok p)) t → t.over ≡ true
        → (fs : List Frame) × ArePayloads fs ps × IsModule s.parser.settings s.rest (shapes_of fs)
        × (p ≡ End (s.parser.offset + length s.rest)) }
    ensures accepted { (ps : List Payload) (e : ErrorValue) (ys : List Shape) (s u t : Standing)
        → s.parser.progress ≡ fresh → s.parser.offset + length s.rest < 2 ^ 64
        → IsModule s.parser.settings s.rest ys → Walks s ps u → NextPayload u (Some (Err e)) t
        → (f : Frame) × IsFrameOf u.parser u.rest f t.parser t.rest × IsRefusedAs f e }
{}

/// What calls of `Parser::parse` give, however the bytes are cut into pieces: the payloads of the frames that calls of the parser of
/// frames give, and so what its laws say (`calls_give_modules`) holds of payloads. The end comes only behind a whole module, and
/// what came before it are the payloads of its frames. A whole module is refused only at a frame that is no payload, or behind its
/// end. No refusal is for memory. A refused parser has failed, and where it has failed or given the end nothing comes but an error of
/// its own kind.
pub const fn calls_are_of_modules()
    ensures frames { (xs : List Payload) (p q : Parser) (text rest : List ℕ) → PayloadCalls p text xs q rest
        → (fs : List Frame) × ArePayloads fs xs × Calls p text fs q rest }
    ensures payloads { (fs : List Frame) (xs : List Payload) (p q : Parser) (text rest : List ℕ)
        → Calls p text fs q rest → ArePayloads fs xs → PayloadCalls p text xs q rest }
    ensures end { (p q r : Parser) (text rest : List ℕ) (xs : List Payload) (n place : ℕ) → p.progress ≡ fresh
        → PayloadCalls p text xs q rest
        → CalledPayload q rest (Ok (Parsed n (End place))) r → (fs : List Frame) × ArePayloads fs xs
        × IsModule p.settings text (shapes_of fs) × (rest ≡ []) × (place ≡ p.offset + length text) }
    ensures accepted { (p q r : Parser) (text rest : List ℕ) (xs : List Payload) (ys : List Shape) (e : ErrorValue)
        → p.progress ≡ fresh → p.offset + length text < 2 ^ 64
        → IsModule p.settings text ys → PayloadCalls p text xs q rest → CalledPayload q rest (Err e) r → EndIsLast xs
        ⊎ ((n : ℕ) × (f : Frame) × (v : Parser) × Called q rest (Ok (FrameParsed n f)) v × IsRefusedAs f e) }
    ensures refused { (p : Parser) (text : List ℕ) (eof : Bool) (e : ErrorValue) (q : Parser)
        → ParsesPayload p text eof (Err e) q → is_over q.progress ≡ true }
    ensures memory { (p : Parser) (text : List ℕ) (eof : Bool) (e : ErrorValue) (q : Parser)
        → ParsesPayload p text eof (Err e) q → IsNotMemory e.kind }
    ensures over { (p : Parser) (text : List ℕ) (eof : Bool) (r : Result Chunk ErrorValue) (q : Parser)
        → is_over p.progress ≡ true → ParsesPayload p text eof r q → FailedBefore p r q }
{}

/// Worked frames, calls and walks, each with a yes or a no.
#[tactic(auto, using(crate::specs::Worked::payload_rows, crate::specs::Worked::refused_rows, crate::specs::Worked::call_rows, crate::specs::Worked::walk_rows))]
pub const fn payloads_are_worked()
    ensures payloads { PayloadRows }
    ensures refused { RefusedRows }
    ensures calls { CallRows }
    ensures walks { WalkRows }
{}
