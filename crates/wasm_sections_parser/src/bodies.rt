//! A body in a few steps: what a parser gives most often.

ghost use Rattle.std.specs.Prelude.{◌≡◌, ◌==◌, ◌+◌, ◌<◌, ◌^◌, length, Bool, false, Ok, IfSome, IfNone};
ghost use Rattle.wasm_types.specs.decoding.Decoder.{Done, Reaches};
ghost use Rattle.wasm_sections_parser.specs.declared.frame.Frame.TheVariants.{CodeEntry};
ghost use Rattle.wasm_sections_parser.specs.declared.parser.Chunk.TheVariants.{Parsed};
ghost use Rattle.wasm_sections_parser.specs.declared.progress.Stage.TheVariants.{Code};
ghost use Rattle.wasm_sections_parser.specs.Steps.{entry, next_entry, one_less};
ghost use Rattle.wasm_sections_parser.specs.Parsing.{Parses};

use crate::progress::one_less;
use crate::{Parser, Progress, Stage};
use wasm_types::BinaryReader;

impl Parser {
    /// The next body, where a body comes next and its bytes are all at the front of these, and how many bytes it takes with its size: what
    /// `parse` gives then, in few bytes. Else none: the parser stays as it is, and `parse` tells what comes.
    #[inline(always)]
    pub fn next_body<'d>(&mut self, data: &'d [u8]) -> Option<(BinaryReader<'d>, usize)>
        requires { self.old.offset + length data.now < 2 ^ 64 }
        ensures body { IfSome result (λ x. (eof : Bool) → Parses self.old data.now eof
            (Ok (Parsed x.1 (CodeEntry x.0))) self.new) }
        ensures stays { IfNone result (self.new ≡ self.old) }
    {
        let progress = self.progress;
        let Some((left, end)) = bodies_left(&progress) else {
            return None;
        };
        let mut reader = BinaryReader::new_limited(data, self.offset, self.features, self.limits);
        let Some(part) = short_entry(progress, left, end, &mut reader) else {
            return None;
        };
        self.offset = reader.original_position();
        self.progress = one_less(progress, left, end);
        Some((part, reader.current_position()))
    }
}

/// How many bodies are left, and where the code section ends, where a body comes next.
#[inline(always)]
fn bodies_left(progress: &Progress) -> Option<(u32, u64)>
    ensures { IfSome result (λ x. (progress.now.stage ≡ Code x.0 x.1) × (x.0 == 0 ≡ false)) }
{
    match progress.stage {
        Stage::Header => None,
        Stage::Sections => None,
        Stage::Code { left, end } => {
            if left == 0 {
                return None;
            }
            Some((left, end))
        }
        Stage::Ended => None,
        Stage::Failed => None,
    }
}

/// The bytes of a body with its size before it, one of `left` in a code section that ends at `end`, where they are all there. The size is
/// most often one or two bytes.
#[inline(always)]
#[tactic(auto, using(wasm_types::specs::Laws::reaches_self, wasm_types::specs::Laws::reaches_then), unfolding(crate::specs::Steps::next_entry, crate::specs::Steps::number_before))]
fn short_entry<'a>(
    progress: Progress,
    left: u32,
    end: u64,
    reader: &mut BinaryReader<'a>,
) -> Option<BinaryReader<'a>>
    ensures read { IfSome result (λ r. next_entry progress left end reader.old ≡ Done
        (entry r.rest, one_less progress left end) reader.new) }
    ensures placed { IfSome result (λ r. (r.start ≡ r.place) × (r.place + length r.rest ≡ reader.new.place)
        × (r.settings ≡ reader.old.settings)) }
    ensures forward { Reaches reader.old reader.new }
{
    let Some(size) = reader.short_u32() else {
        return None;
    };
    let place = reader.original_position();
    if place > end {
        return None;
    }
    if u64::from(size) > end.saturating_sub(place) {
        return None;
    }
    if reader.bytes_remaining() < size as usize {
        return None;
    }
    let Ok(text) = reader.read_bytes(size as usize) else {
        return None;
    };
    Some(BinaryReader::new_limited(text, place, reader.features(), reader.limits()))
}
