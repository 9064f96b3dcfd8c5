//! The parser of a module as payloads.

ghost use Rattle.std.specs.Prelude.{◌≡◌, ◌+◌, ◌<◌, ◌≤◌, ◌^◌, length, Bool, false, Ok, IfNone, IfSome};
ghost use Rattle.wasm_types.specs.settings.Sets.{bits_of, default_features};
ghost use Rattle.wasm_types.specs.settings.Limits.{default_limits, IsWithinCeilings};
ghost use Rattle.wasm_types.specs.reader.Reading.{NeedsNoMemory};
ghost use Rattle.wasm_sections_parser.specs.Parsing.{between};
ghost use Rattle.wasm_sections_parser.specs.Steps.{counted};
ghost use Rattle.wasm_sections_parser.specs.runs.calls.Runs.{fresh};
ghost use Rattle.wasm_sections.specs.declared.parser.Chunk.TheVariants.{Parsed};
ghost use Rattle.wasm_sections.specs.declared.payload.Payload.TheVariants.{CodeSectionEntry, CustomSection};
ghost use Rattle.wasm_sections.specs.Parsing.{taken, ParsesPayload};

use crate::walk::walk_from;
use crate::{ParseAll, Payload};
use std::alloc::Global;
use wasm_operators_bodies::FunctionBody;
use wasm_sections_parser::{Chunk as FrameChunk, CustomSectionReader, Parser as FrameParser};
use wasm_types::{Limits, Result, WasmFeatures};

/// What a call of a parser gives.
#[derive(Drop)]
pub enum Chunk<'a> {
    /// So many more bytes than were given are needed, and no fewer: with fewer the call is answered so again, and some so many bring a
    /// payload or a refusal. The parser is as it was: the next call is given the same bytes again, with more behind them. Where `eof`
    /// was said this never comes.
    NeedMoreData(usize),
    /// A payload of so many bytes.
    Parsed {
        /// The bytes of the payload.
        consumed: usize,
        /// The payload.
        payload: Payload<'a>,
    },
}

/// Reads a module from its bytes, in pieces, by the features that are allowed and the limits that hold (WebAssembly 3.0, binary format,
/// modules).
#[derive(Clone, Copy)]
pub struct Parser {
    frames: FrameParser,
    alloc: Global,
}

impl Parser {
    /// A parser of a module that begins at this offset of the input, with the default features and the default limits. What is read
    /// of its payloads takes memory of `alloc`; the parser takes none.
    pub fn new(alloc: Global, offset: u64) -> Parser
        ensures offset { result.frames.offset ≡ offset }
        ensures settings { result.frames.settings ≡ record {
          features = bits_of default_features;
          limits = default_limits;
        } }
        ensures fresh { result.frames.progress ≡ fresh }
    {
        Parser {
            frames: FrameParser::new(offset),
            alloc,
        }
    }

    /// The features that are allowed.
    pub fn features(&self) -> WasmFeatures
        ensures { result.0 ≡ self.now.frames.settings.features }
    {
        self.frames.features()
    }

    /// Allows these features from here on.
    pub fn set_features(&mut self, features: WasmFeatures)
        ensures { self.new.frames ≡ record self.old.frames {
          settings = record
              { features = features.0; limits = self.old.frames.settings.limits };
        } }
    {
        self.frames.set_features(features);
    }

    /// The limits that hold.
    pub fn limits(&self) -> Limits
        ensures value { result ≡ self.now.frames.settings.limits }
        ensures within { IsWithinCeilings result }
    {
        self.frames.limits()
    }

    /// Holds to these limits from here on.
    pub fn set_limits(&mut self, limits: Limits)
        requires within { IsWithinCeilings limits }
        ensures { self.new.frames ≡ record self.old.frames {
          settings = record
              { features = self.old.frames.settings.features; limits = limits };
        } }
    {
        self.frames.set_limits(limits);
    }

    /// What comes next of the module, at the front of these bytes; `eof` says that none follow them. Where more bytes are needed
    /// the parser stays as it is. A payload is of `consumed` bytes, and the parser stands behind them. It is refused where the
    /// bytes are no frame of a module, and where a section's contents don't begin with its count, or a start section or a data
    /// count section is not one number. Then the parser stays at the offset where it stood, the start of the section, and has
    /// failed; behind that and behind the end each call is refused with kind 4. It takes no memory.
    pub fn parse<'d>(&mut self, data: &'d [u8], eof: bool) -> Result<Chunk<'d>>
        requires { self.old.frames.offset + length data.now < 2 ^ 64 }
        ensures answer { ParsesPayload self.old.frames data.now eof result self.new.frames }
        ensures within { taken result ≤ length data.now }
        ensures moves { self.new.frames.offset ≡ self.old.frames.offset + taken result }
        ensures no_memory { NeedsNoMemory result }
    {
        let before = self.frames;
        let (consumed, frame) = match self.frames.parse(data, eof) {
            Ok(FrameChunk::Parsed { consumed, frame }) => (consumed, frame),
            Ok(FrameChunk::NeedMoreData(needed)) => return Ok(Chunk::NeedMoreData(needed)),
            Err(error) => return Err(error),
        };
        match Payload::from_frame(self.alloc, frame) {
            Ok(payload) => Ok(Chunk::Parsed { consumed, payload }),
            Err(error) => {
                self.frames = before;
                self.frames.fail();
                Err(error)
            }
        }
    }

    /// The next body, if a body comes next and its bytes are all at the front of these, and how many bytes it takes with its size: what `parse`
    /// gives then, in few steps. Else none: the parser stays as it is, and `parse` tells what comes.
    #[inline(always)]
    pub fn next_body<'d>(&mut self, data: &'d [u8]) -> Option<(FunctionBody<'d>, usize)>
        requires { self.old.frames.offset + length data.now < 2 ^ 64 }
        ensures body { IfSome result (λ x. (eof : Bool) → ParsesPayload self.old.frames data.now eof
            (Ok (Parsed x.1 (CodeSectionEntry x.0))) self.new.frames) }
        ensures stays { IfNone result (self.new.frames ≡ self.old.frames) }
    {
        let Some((part, consumed)) = self.frames.next_body(data) else {
            return None;
        };
        Some((FunctionBody::new(self.alloc, part), consumed))
    }

    /// The next custom section, if one comes next and its bytes are all at the front of these, and how many bytes it takes with its id and its
    /// size: what `parse` gives then, in few steps. Else none: the parser stays as it is, and `parse` tells what comes.
    #[inline(always)]
    pub fn next_custom<'d>(&mut self, data: &'d [u8]) -> Option<(CustomSectionReader<'d>, usize)>
        requires { self.old.frames.offset + length data.now < 2 ^ 64 }
        ensures section { IfSome result (λ x. (eof : Bool) → ParsesPayload self.old.frames data.now eof
            (Ok (Parsed x.1 (CustomSection x.0))) self.new.frames) }
        ensures stays { IfNone result (self.new.frames ≡ self.old.frames) }
    {
        let Some((section, consumed)) = self.frames.next_custom(data) else {
            return None;
        };
        Some((section, consumed))
    }

    /// The offset where it stands.
    pub fn offset(&self) -> u64
        ensures { result ≡ self.now.frames.offset }
    {
        self.frames.offset()
    }

    /// Whether a section, or the end, may come here.
    pub fn is_between(&self) -> bool
        ensures { result ≡ between self.now.frames.progress.stage self.now.frames.offset }
    {
        self.frames.is_between()
    }

    /// Goes past a section of this id, which counts so many items, and which takes so many bytes with its id and its size: if the caller has
    /// read it, or does without its contents. Nothing is checked of it, neither that it is there nor that it is in order.
    pub fn pass_section(&mut self, id: u8, count: u32, bytes: u64)
        requires { self.old.frames.offset + bytes < 2 ^ 64 }
        ensures { self.new.frames ≡ record {
          offset = self.old.frames.offset + bytes;
          settings = self.old.frames.settings;
          progress = counted self.old.frames.progress id count;
        } }
    {
        self.frames.pass_section(id, count, bytes);
    }

    /// The payloads of these bytes, which are all that is left of the module.
    pub fn parse_all(self, data: &[u8]) -> ParseAll<'_>
        requires { self.frames.offset + length data.now < 2 ^ 64 }
        ensures { result ≡ record { parser = self.frames; rest = data.now; over = false } }
    {
        walk_from(self.alloc, self.frames, data)
    }
}
