//! All payloads of a module.

ghost use Rattle.std.specs.Prelude.{◌≡◌, ◌+◌, ◌<◌, ◌≤◌, ◌^◌, length, false, Some, Ok, IfSome, IfNone, MatchResult};
ghost use Rattle.std.specs.Iterator.{at_most};
ghost use Rattle.wasm_types.specs.reader.Reading.{NeedsNoMemory};
ghost use Rattle.wasm_sections_parser.specs.declared.frame.Frame.TheVariants.{CodeEntry, Custom};
ghost use Rattle.wasm_sections.specs.Walking.{IsFrameOf, IsFaultOf, is_end, NextPayload, payloads_left};

use crate::Payload;
use std::alloc::Global;
use std::marker::Model;
use wasm_operators_bodies::FunctionBody;
use wasm_sections_parser::{Chunk, CustomSectionReader, Frame, Parser};
use wasm_types::{BinaryReader, Result};

/// The payloads of a module that is all there, one by one. Nothing comes behind the end and behind an error.
#[derive(Drop)]
pub struct ParseAll<'a> {
    parser: Parser,
    bytes: &'a [u8],
    over: bool,
    alloc: Global,
}

impl<'a> Model for ParseAll<'a> {
    ghost use Rattle.std.specs.Prelude.{◌+◌, ◌<◌, ◌^◌, length};
    ghost use Rattle.wasm_sections.specs.Walking.{Standing};

    ghost Value = { Standing };

    ghost view = { λ s. record { parser = s.parser; rest = s.bytes.now; over = s.over } };

    ghost invariant = { λ s. s.parser.offset + length s.bytes.now < 2 ^ 64 };
}

/// The payloads of these bytes, as `parser` gives them. What is read of them takes memory of `alloc`.
pub(crate) fn walk_from<'a>(alloc: Global, parser: Parser, bytes: &'a [u8]) -> ParseAll<'a>
    requires { parser.offset + length bytes.now < 2 ^ 64 }
    ensures { result ≡ record { parser = parser; rest = bytes.now; over = false } }
{
    ParseAll {
        parser,
        bytes,
        over: false,
        alloc,
    }
}

// Whether it is the end.
fn is_end(frame: &Frame<'_>) -> bool
    ensures { result ≡ is_end frame.now }
{
    match frame {
        Frame::End(_) => true,
        Frame::Version {
            num: _,
            encoding: _,
            range: _,
        } => false,
        Frame::Custom(_) => false,
        Frame::Section { id: _, reader: _ } => false,
        Frame::CodeStart {
            count: _,
            range: _,
            size: _,
        } => false,
        Frame::CodeEntry(_) => false,
    }
}

// The next frame, which is taken from the bytes.
fn next_frame<'a>(parser: &mut Parser, bytes: &'a [u8]) -> Result<(Frame<'a>, &'a [u8])>
    requires { parser.old.offset + length bytes.now < 2 ^ 64 }
    ensures answer { MatchResult result (λ x. IsFrameOf parser.old bytes.now x.0 parser.new x.1.now)
        (λ e. IsFaultOf parser.old bytes.now e parser.new) }
    ensures no_memory { NeedsNoMemory result }
    ensures fits { MatchResult result (λ x. parser.new.offset + length x.1.now ≡ parser.old.offset + length bytes.now)
        (λ e. parser.new.offset ≡ parser.old.offset) }
{
    match parser.parse(bytes, true) {
        Ok(Chunk::Parsed { consumed, frame }) => Ok((frame, &bytes[consumed..])),
        Ok(Chunk::NeedMoreData(_)) => unreachable!(),
        Err(error) => Err(error),
    }
}

// The next body, where it is all there, which is taken from the bytes.
#[inline(always)]
fn next_body<'a>(parser: &mut Parser, bytes: &'a [u8]) -> Option<(BinaryReader<'a>, &'a [u8])>
    requires { parser.old.offset + length bytes.now < 2 ^ 64 }
    ensures answer { IfSome result (λ x. IsFrameOf parser.old bytes.now (CodeEntry x.0) parser.new x.1.now) }
    ensures fits { IfSome result (λ x. parser.new.offset + length x.1.now ≡ parser.old.offset + length bytes.now) }
    ensures stays { IfNone result (parser.new ≡ parser.old) }
{
    let Some((part, consumed)) = parser.next_body(bytes) else {
        return None;
    };
    Some((part, &bytes[consumed..]))
}

// The next custom section, where it is all there, which is taken from the bytes.
#[inline(always)]
fn next_custom<'a>(
    parser: &mut Parser,
    bytes: &'a [u8],
) -> Option<(CustomSectionReader<'a>, &'a [u8])>
    requires { parser.old.offset + length bytes.now < 2 ^ 64 }
    ensures answer { IfSome result (λ x. IsFrameOf parser.old bytes.now (Custom x.0) parser.new x.1.now) }
    ensures fits { IfSome result (λ x. parser.new.offset + length x.1.now ≡ parser.old.offset + length bytes.now) }
    ensures stays { IfNone result (parser.new ≡ parser.old) }
{
    let Some((section, consumed)) = parser.next_custom(bytes) else {
        return None;
    };
    Some((section, &bytes[consumed..]))
}

impl<'a> ParseAll<'a> {
    // The next body, where it is all there: what comes most often.
    #[inline(always)]
    fn short_body(&mut self) -> Option<Payload<'a>>
        requires { self.old.over ≡ false }
        ensures answer { IfSome result (λ p. NextPayload self.old (Some (Ok p)) self.new) }
        ensures fewer { IfSome result (λ p. payloads_left self.new.over self.new.rest + 1
            ≤ payloads_left self.old.over self.old.rest) }
        ensures stays { IfNone result (self.new ≡ self.old) }
    {
        let Some((part, rest)) = next_body(&mut self.parser, self.bytes) else {
            return None;
        };
        self.bytes = rest;
        Some(Payload::CodeSectionEntry(FunctionBody::new(self.alloc, part)))
    }

    // The next custom section, where it is all there: a module may be made of a great many.
    #[inline(always)]
    fn short_custom(&mut self) -> Option<Payload<'a>>
        requires { self.old.over ≡ false }
        ensures answer { IfSome result (λ p. NextPayload self.old (Some (Ok p)) self.new) }
        ensures fewer { IfSome result (λ p. payloads_left self.new.over self.new.rest + 1
            ≤ payloads_left self.old.over self.old.rest) }
        ensures stays { IfNone result (self.new ≡ self.old) }
    {
        let Some((section, rest)) = next_custom(&mut self.parser, self.bytes) else {
            return None;
        };
        self.bytes = rest;
        Some(Payload::CustomSection(section))
    }

    // The payload that the next frame is: `step`, with a place of its own for the answer, so that none is made ready before.
    #[inline(always)]
    fn step_other(&mut self) -> Result<Payload<'a>>
        requires { self.old.over ≡ false }
        ensures answer { NextPayload self.old (Some result) self.new }
        ensures fewer { payloads_left self.new.over self.new.rest + 1 ≤ payloads_left self.old.over self.old.rest }
    {
        match self.step() {
            Ok(payload) => Ok(payload),
            Err(error) => Err(error),
        }
    }

    // The payload that the next frame is.
    #[inline(never)]
    fn step(&mut self) -> Result<Payload<'a>>
        requires { self.old.over ≡ false }
        ensures answer { NextPayload self.old (Some result) self.new }
        ensures fewer { payloads_left self.new.over self.new.rest + 1 ≤ payloads_left self.old.over self.old.rest }
    {
        let frame = match next_frame(&mut self.parser, self.bytes) {
            Ok((frame, rest)) => {
                self.bytes = rest;
                frame
            }
            Err(error) => {
                self.over = true;
                return Err(error);
            }
        };
        self.over = is_end(&frame);
        match Payload::from_frame(self.alloc, frame) {
            Ok(payload) => Ok(payload),
            Err(error) => {
                self.over = true;
                Err(error)
            }
        }
    }
}

impl<'a> Iterator for ParseAll<'a> {
    type Item = Result<Payload<'a>>;

    ghost next_gives = { NextPayload };

    ghost remaining = { λ s. at_most (payloads_left s.over s.rest) };

    fn next(&mut self) -> Option<Result<Payload<'a>>> {
        if self.over {
            return None;
        }
        if let Some(body) = self.short_body() {
            return Some(Ok(body));
        }
        if let Some(section) = self.short_custom() {
            return Some(Ok(section));
        }
        Some(self.step_other())
    }
}
