//! A custom section in a few steps: a module may be made of a great many.

ghost use Rattle.std.specs.Prelude.{◌≡◌, ◌+◌, ◌<◌, ◌^◌, length, Bool, Ok, IfSome, IfNone, true};
ghost use Rattle.wasm_types.specs.decoding.Decoder.{State, Done, Reaches};
ghost use Rattle.wasm_types.specs.decoding.Text.{name, text_of};
ghost use Rattle.wasm_types.specs.reader.Parts.{next_part};
ghost use Rattle.wasm_sections_parser.specs.declared.frame.Frame.TheVariants.{Custom};
ghost use Rattle.wasm_sections_parser.specs.declared.parser.Chunk.TheVariants.{Parsed};
ghost use Rattle.wasm_sections_parser.specs.declared.progress.Progress.{Progress as TheProgress};
ghost use Rattle.wasm_sections_parser.specs.declared.progress.Stage.TheVariants.{Sections};
ghost use Rattle.wasm_sections_parser.specs.Steps.{counted, custom, custom_next, in_part, next_section};
ghost use Rattle.wasm_sections_parser.specs.Parsing.{Parses};
ghost use Rattle.wasm_sections_parser.specs.Places.{IsPlaced};

use crate::progress::counted;
use crate::sections::part_between;
use crate::{CustomSectionReader, Parser, Progress, Stage};
use std::str;
use wasm_types::BinaryReader;

impl Parser {
    /// The next custom section, where one comes next and its bytes are all at the front of these, and how many bytes it takes with its id and
    /// its size: what `parse` gives then, in few bytes. Else none: the parser stays as it is, and `parse` tells what comes.
    #[inline(always)]
    pub fn next_custom<'d>(&mut self, data: &'d [u8]) -> Option<(CustomSectionReader<'d>, usize)>
        requires { self.old.offset + length data.now < 2 ^ 64 }
        ensures section { IfSome result (λ x. (eof : Bool) → Parses self.old data.now eof
            (Ok (Parsed x.1 (Custom x.0))) self.new) }
        ensures stays { IfNone result (self.new ≡ self.old) }
    {
        let progress = self.progress;
        if data.len() == 0 {
            return None;
        }
        if !is_before_section(&progress) {
            return None;
        }
        let mut reader = BinaryReader::new_limited(data, self.offset, self.features, self.limits);
        let Some(section) = short_section(progress, &mut reader) else {
            return None;
        };
        self.offset = reader.original_position();
        self.progress = counted(progress, 0, 0);
        Some((section, reader.current_position()))
    }

    /// The offset where it stands.
    pub fn offset(&self) -> u64
        ensures { result ≡ self.now.offset }
    {
        self.offset
    }

    /// Goes past a section of this id, which counts so many items, and which takes so many bytes with its id and its size: if the caller has
    /// read it, or does without its contents. Nothing is checked of it, neither that it is there nor that it is in order.
    pub fn pass_section(&mut self, id: u8, count: u32, bytes: u64)
        requires { self.old.offset + bytes < 2 ^ 64 }
        ensures { self.new ≡ record {
          offset = self.old.offset + bytes;
          settings = self.old.settings;
          progress = counted self.old.progress id count;
        } }
    {
        self.offset += bytes;
        self.progress = counted(self.progress, id, count);
    }
}

/// Whether a section may come next.
#[inline(always)]
fn is_before_section(progress: &Progress) -> bool
    ensures { result ≡ true → progress.now.stage ≡ Sections }
{
    match progress.stage {
        Stage::Header => false,
        Stage::Sections => true,
        Stage::Code { left: _, end: _ } => false,
        Stage::Ended => false,
        Stage::Failed => false,
    }
}

/// A custom section with its id and its size before it, where its bytes are all there.
#[inline(always)]
#[tactic(auto, using(wasm_types::specs::Laws::reaches_self, wasm_types::specs::Laws::reaches_then), unfolding(crate::specs::Steps::next_section, crate::specs::Steps::contents))]
fn short_section<'a>(
    progress: Progress,
    reader: &mut BinaryReader<'a>,
) -> Option<CustomSectionReader<'a>>
    ensures read { IfSome result (λ c. next_section reader.old.settings progress reader.old
        ≡ Done (custom c.name.now c.«data».now, counted progress 0 0) reader.new) }
    ensures placed { IfSome result (λ c. IsPlaced (Custom c) (counted progress 0 0) reader.old reader.new.place) }
    ensures forward { Reaches reader.old reader.new }
{
    let Some(id) = reader.short_u8() else {
        return None;
    };
    if id != 0 {
        return None;
    }
    let Some(size) = reader.short_u32() else {
        return None;
    };
    let Some(part) = short_part(size, reader) else {
        return None;
    };
    let Some(section) = short_contents(part) else {
        return None;
    };
    Some(section)
}

/// The next `size` bytes, where they are all there, as a reader of their own.
#[inline(always)]
#[tactic(auto, using(wasm_types::specs::Laws::reaches_self, wasm_types::specs::Laws::reaches_then))]
fn short_part<'a>(size: u32, reader: &mut BinaryReader<'a>) -> Option<BinaryReader<'a>>
    ensures read { IfSome result (λ r. next_part size reader.old ≡ Done r reader.new) }
    ensures ends { IfSome result (λ r. r.place + length r.rest ≡ reader.new.place) }
    ensures begins { IfSome result (λ r. r.start ≡ reader.old.place) }
    ensures settings { IfSome result (λ r. r.settings ≡ reader.old.settings) }
    ensures forward { Reaches reader.old reader.new }
{
    let place = reader.original_position();
    if reader.bytes_remaining() < size as usize {
        return None;
    }
    let Ok(text) = reader.read_bytes(size as usize) else {
        return None;
    };
    let end = reader.original_position();
    Some(part_between(text, place, end, reader))
}

/// A custom section of these contents, where they begin with a name.
#[inline(always)]
fn short_contents<'a>(part: BinaryReader<'a>) -> Option<CustomSectionReader<'a>>
    ensures read { IfSome result (λ c. (p : TheProgress) (t : State)
        → in_part (name part.entry.settings.limits.string_bytes) (custom_next p) part.entry t
        ≡ Done (custom c.name.now c.«data».now, counted p 0 0) t) }
    ensures starts { IfSome result (λ c. c.range.start ≡ part.entry.start) }
    ensures ends { IfSome result (λ c. c.range.end ≡ part.entry.place + length part.entry.rest) }
    ensures all { IfSome result (λ c. c.data_offset + length c.«data».now ≡ part.entry.place + length part.entry.rest) }
{
    let mut part = part;
    let range = part.range();
    let Some(name) = short_name(&mut part) else {
        return None;
    };
    let data_offset = part.original_position();
    let Ok(data) = part.read_bytes(part.bytes_remaining()) else {
        return None;
    };
    Some(CustomSectionReader {
        name,
        data,
        data_offset,
        range,
    })
}

/// A name, where its bytes are all there.
#[inline(always)]
#[tactic(auto, using(wasm_types::specs::Laws::reaches_self, wasm_types::specs::Laws::reaches_then), unfolding(crate::specs::Names::counted_within))]
fn short_name<'a>(part: &mut BinaryReader<'a>) -> Option<&'a str>
    ensures read { IfSome result (λ s. name part.old.settings.limits.string_bytes part.old ≡ Done s.now part.new) }
    ensures forward { Reaches part.old part.new }
{
    let most = part.limits().string_bytes;
    let Some(count) = part.short_u32() else {
        return None;
    };
    if count > most {
        return None;
    }
    short_text(count, part)
}

/// The next `count` bytes, where they are all there and UTF-8.
#[inline(always)]
#[tactic(auto, using(wasm_types::specs::Laws::reaches_self, wasm_types::specs::Laws::reaches_then), unfolding(crate::specs::Names::text_of))]
fn short_text<'a>(count: u32, part: &mut BinaryReader<'a>) -> Option<&'a str>
    ensures read { IfSome result (λ s. text_of count part.old ≡ Done s.now part.new) }
    ensures forward { Reaches part.old part.new }
{
    if part.bytes_remaining() < count as usize {
        return None;
    }
    let Ok(bytes) = part.read_bytes(count as usize) else {
        return None;
    };
    match str::from_utf8(bytes) {
        Ok(text) => Some(text),
        Err(_) => None,
    }
}
