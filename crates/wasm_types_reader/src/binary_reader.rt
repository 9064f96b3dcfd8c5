//! The reader of bytes.

ghost use Rattle.wasm_types_decoding.specs.Words.{words_text};
ghost use Rattle.std.specs.Prelude.{◌≡◌, ℕ, ◌+◌, ◌-◌, ◌<◌, ◌≤◌, ◌^◌, ◌==◌, ◌↔◌, [], ◌∷◌, ◌++◌, codes, IsTrue, length, take, Ok, Err, IfOk, IfErr, ⊤};
ghost use Rattle.std.specs.Fn.{FnOnceReturnsAtMut};
ghost use Rattle.wasm_types_decoding.specs.Decoder.{State, byte, bytes, look, pure, Reaches};
ghost use Rattle.wasm_types_decoding.specs.Leb.{u32 as u32_decoder};
ghost use Rattle.wasm_types_decoding.specs.Lists.{size_within};
ghost use Rattle.wasm_types_decoding.specs.declared.error.ErrorKind.TheVariants.{EndOfData, Other};
ghost use Rattle.wasm_types_decoding.specs.ErrorText.{IsWrittenMessage};
ghost use Rattle.wasm_types_decoding.specs.settings.Sets.{bits_of, default_features};
ghost use Rattle.wasm_types_decoding.specs.settings.Limits.{default_limits, IsWithinCeilings};
ghost use Rattle.wasm_types_reader.specs.Reading.{Answers, Gives, NeedsNoMemory, MemoryOnlyIf};
ghost use Rattle.wasm_types_reader.specs.Messages.{is_above, SaysIf};
ghost use Rattle.wasm_types_reader.specs.Parts.{part_at, counted_part, IsPassed};
ghost use Rattle.wasm_types_decoding.specs.Numbers.{behind};

use crate::{Error, FromReader, Result, Text, Words};
use std::alloc::{AllocError, Global};
use std::marker::Model;
use std::ops::Range;
use wasm_types_decoding::{Limits, WasmFeatures};

/// A reader over bytes, which knows their offset in the input, the features that are allowed and the limits that
/// hold.
#[derive(Debug, Drop)]
pub struct BinaryReader<'a> {
    buffer: &'a [u8],
    position: usize,
    original_offset: u64,
    features: WasmFeatures,
    limits: Limits,
}

impl<'a> Model for BinaryReader<'a> {
    ghost use Rattle.std.specs.Prelude.{◌+◌, ◌≤◌, ◌<◌, ◌^◌, length, drop};
    ghost use Rattle.wasm_types_decoding.specs.Decoder.{State};
    ghost use Rattle.wasm_types_decoding.specs.settings.Limits.{IsWithinCeilings};

    ghost Value = { State };

    ghost view = { λ r. record {
      rest = drop r.position r.buffer.now;
      place = r.original_offset + r.position;
      settings = record { features = r.features.0; limits = r.limits };
      start = r.original_offset;
    } };

    ghost invariant = { λ r. (r.position ≤ length r.buffer.now) × (r.original_offset + length r.buffer.now < 2 ^ 64)
        × IsWithinCeilings r.limits };
}

impl<'a> Clone for BinaryReader<'a> {
    ghost is_clone = { λ r s. s ≡ r };

    ghost is_infallible = { λ _. ⊤ };

    fn clone(&self) -> std::result::Result<BinaryReader<'a>, AllocError> {
        Ok(self.clone())
    }
}

impl<'a> BinaryReader<'a> {
    /// A reader over `buffer`, the first byte of which stands at `original_offset` of the input, with the default features
    /// and the default limits.
    #[inline]
    pub fn new(buffer: &'a [u8], original_offset: u64) -> BinaryReader<'a>
        requires { original_offset + length buffer.now < 2 ^ 64 }
        ensures rest { result.rest ≡ buffer.now }
        ensures place { result.place ≡ original_offset }
        ensures start { result.start ≡ original_offset }
        ensures settings { result.settings ≡ record { features = bits_of default_features; limits = default_limits } }
    {
        BinaryReader::new_features(buffer, original_offset, WasmFeatures::default())
    }

    /// A reader over `buffer`, the first byte of which stands at `original_offset` of the input, with the default limits.
    #[inline]
    #[tactic(auto, using(wasm_types_decoding::specs::NumbersLaws::default_within))]
    pub fn new_features(
        buffer: &'a [u8],
        original_offset: u64,
        features: WasmFeatures,
    ) -> BinaryReader<'a>
        requires { original_offset + length buffer.now < 2 ^ 64 }
        ensures { result ≡ record {
          rest = buffer.now;
          place = original_offset;
          settings = record
              { features = features.0; limits = default_limits };
          start = original_offset;
        } }
    {
        BinaryReader::new_limited(buffer, original_offset, features, Limits::default())
    }

    /// A reader over `buffer`, the first byte of which stands at `original_offset` of the input, within these limits.
    #[inline]
    pub fn new_limited(
        buffer: &'a [u8],
        original_offset: u64,
        features: WasmFeatures,
        limits: Limits,
    ) -> BinaryReader<'a>
        requires places { original_offset + length buffer.now < 2 ^ 64 }
        requires within { IsWithinCeilings limits }
        ensures { result ≡ record {
          rest = buffer.now;
          place = original_offset;
          settings = record
              { features = features.0; limits = limits };
          start = original_offset;
        } }
    {
        BinaryReader {
            buffer,
            position: 0,
            original_offset,
            features,
            limits,
        }
    }

    /// How many bytes a reader may have that begins at `original_offset`: each offset in it, its end too, is below 2^64.
    #[inline]
    pub fn max_data_len(original_offset: u64) -> usize
        ensures { original_offset + result + 1 ≡ 2 ^ 64 }
    {
        (u64::MAX - original_offset) as usize
    }

    /// A second reader at the same offset, over the same bytes.
    #[inline]
    pub fn clone(&self) -> BinaryReader<'a>
        ensures { result ≡ self.now }
    {
        BinaryReader {
            buffer: self.buffer,
            position: self.position,
            original_offset: self.original_offset,
            features: self.features,
            limits: self.limits,
        }
    }

    /// Back to where the reader stood, under the same features and limits, which are not written again.
    #[inline]
    pub fn return_to(&mut self, start: BinaryReader<'a>)
        requires kept { start.settings ≡ self.old.settings }
        ensures { self.new ≡ start.entry }
    {
        self.buffer = start.buffer;
        self.position = start.position;
        self.original_offset = start.original_offset;
    }

    /// Where the next byte stands in the input.
    #[inline]
    pub fn original_position(&self) -> u64
        ensures { result ≡ self.now.place }
    {
        self.original_offset + self.position as u64
    }

    /// How many bytes were read since the reader's first.
    #[inline]
    pub fn current_position(&self) -> usize
        ensures { self.now.start + result ≡ self.now.place }
    {
        self.position
    }

    /// How many bytes are left.
    #[inline]
    pub fn bytes_remaining(&self) -> usize
        ensures { result ≡ length self.now.rest }
    {
        self.buffer.len() - self.position
    }

    /// Whether no byte is left.
    #[inline]
    pub fn eof(&self) -> bool
        ensures { result ≡ (length self.now.rest == 0) }
    {
        self.position == self.buffer.len()
    }

    /// The features that are allowed.
    #[inline]
    pub fn features(&self) -> WasmFeatures
        ensures { result.0 ≡ self.now.settings.features }
    {
        self.features
    }

    /// Allows these features from here on.
    #[inline]
    pub fn set_features(&mut self, features: WasmFeatures)
        ensures { self.new ≡ record {
          rest = self.old.rest;
          place = self.old.place;
          settings = record
              { features = features.0; limits = self.old.settings.limits };
          start = self.old.start;
        } }
    {
        self.features = features;
    }

    /// The limits that hold.
    #[inline]
    pub fn limits(&self) -> Limits
        ensures value { result ≡ self.now.settings.limits }
        ensures within { IsWithinCeilings result }
    {
        self.limits
    }

    /// Holds to these limits from here on.
    #[inline]
    pub fn set_limits(&mut self, limits: Limits)
        requires within { IsWithinCeilings limits }
        ensures { self.new ≡ record {
          rest = self.old.rest;
          place = self.old.place;
          settings = record
              { features = self.old.settings.features; limits = limits };
          start = self.old.start;
        } }
    {
        self.limits = limits;
    }

    /// The offsets of all of the reader's bytes, those that were read too.
    #[inline]
    pub fn range(&self) -> Range<u64>
        ensures { result ≡ record { start = self.now.start; end = self.now.place + length self.now.rest } }
    {
        Range {
            start: self.original_offset,
            end: self.original_offset + self.buffer.len() as u64,
        }
    }

    /// The offsets of the bytes that are left.
    #[inline]
    pub fn remaining_range(&self) -> Range<u64>
        ensures { result ≡ record { start = self.now.place; end = self.now.place + length self.now.rest } }
    {
        Range {
            start: self.original_position(),
            end: self.original_offset + self.buffer.len() as u64,
        }
    }

    /// Whether `end`, the byte `0b`, is all that is left.
    #[inline]
    pub fn is_end_then_eof(&self) -> bool
        ensures { IsTrue result ↔ (self.now.rest ≡ 0x0b ∷ []) }
    {
        self.buffer.len() - self.position == 1 && self.buffer[self.position] == 0x0b
    }

    /// A reader over what is left, which begins at this offset.
    #[inline]
    pub fn shrink(&self) -> BinaryReader<'a>
        ensures { result ≡ record {
          rest = self.now.rest;
          place = self.now.place;
          settings = self.now.settings;
          start = self.now.place;
        } }
    {
        BinaryReader {
            buffer: &self.buffer[self.position..],
            position: 0,
            original_offset: self.original_position(),
            features: self.features,
            limits: self.limits,
        }
    }

    /// The bytes that are left.
    #[inline]
    pub(crate) fn rest(&self) -> &'a [u8]
        ensures rest { result.now ≡ self.now.rest }
        ensures places { self.now.place + length result.now < 2 ^ 64 }
    {
        let buffer = self.buffer;
        &buffer[self.position..]
    }

    /// Goes on by `n` of the bytes that are left.
    #[inline]
    pub(crate) fn advance(&mut self, n: usize)
        requires { n ≤ length self.old.rest }
        ensures { self.new ≡ behind n self.old }
    {
        self.position += n;
    }

    /// The next byte.
    #[inline]
    pub fn read_u8(&mut self) -> Result<u8>
        ensures answer { Answers (λ b. b) result self.old self.new (byte self.old) }
        ensures no_memory { NeedsNoMemory result }
        ensures forward { Reaches self.old self.new }
    {
        if self.position == self.buffer.len() {
            return Err(self.eof_error(1));
        }
        let b = self.buffer[self.position];
        self.position += 1;
        Ok(b)
    }

    /// That the data end too early, and so many bytes more are needed.
    #[cold]
    fn eof_error(&self, needed_hint: usize) -> Error
        ensures kind { result.kind ≡ EndOfData needed_hint }
        ensures offset { result.offset ≡ self.now.place }
    {
        Error::eof(self.original_position(), needed_hint)
    }

    /// The next `n` bytes.
    #[inline]
    #[tactic(auto, using(crate::proofs::Passed::goes_by))]
    pub fn read_bytes(&mut self, n: usize) -> Result<&'a [u8]>
        ensures answer { Answers (λ s. s.now) result self.old self.new (bytes n self.old) }
        ensures no_memory { NeedsNoMemory result }
        ensures forward { Reaches self.old self.new }
    {
        let rest = self.rest();
        let left = rest.len();
        if left < n {
            return Err(self.eof_error(n - left));
        }
        let text = &rest[..n];
        self.advance(n);
        Ok(text)
    }

    /// The next byte, which stays.
    #[inline]
    pub fn peek(&self) -> Result<u8>
        ensures answer { Gives (λ b. b) result self.now (look pure self.now) }
        ensures no_memory { NeedsNoMemory result }
    {
        if self.position == self.buffer.len() {
            return Err(self.eof_error(1));
        }
        Ok(self.buffer[self.position])
    }

    /// A number in LEB128 of at most `limit`, where 2^32 - 1 is the most that is read. A larger one is refused at its own
    /// offset, as `desc`.
    #[inline]
    pub fn read_size(&mut self, limit: usize, desc: Words) -> Result<usize>
        ensures answer { Answers (λ n. n) result self.old self.new (size_within limit self.old) }
        ensures no_memory { NeedsNoMemory result }
        ensures message { SaysIf (is_above limit (u32_decoder self.old))
            (IsWrittenMessage (words_text desc ++ codes " size is out of bounds")) result }
        ensures forward { Reaches self.old self.new }
    {
        let mut ahead = self.clone();
        let size = ahead.read_var_u32()? as usize;
        if size > limit {
            return Err(size_error(desc, self.original_position()));
        }
        *self = ahead;
        Ok(size)
    }

    /// A count in LEB128, and a reader over as many bytes, which begins at its own offset.
    #[inline]
    #[tactic(auto, using(wasm_types_decoding::specs::NumbersLaws::reaches_self, wasm_types_decoding::specs::NumbersLaws::reaches_then))]
    pub fn read_reader(&mut self) -> Result<BinaryReader<'a>>
        ensures answer { Answers (λ r. r) result self.old self.new (counted_part self.old) }
        ensures no_memory { NeedsNoMemory result }
        ensures forward { Reaches self.old self.new }
    {
        let mut ahead = self.clone();
        let count = ahead.read_var_u32()?;
        let place = ahead.original_position();
        let text = ahead.read_bytes(count as usize)?;
        *self = ahead;
        Ok(BinaryReader::new_limited(text, place, self.features, self.limits))
    }

    /// Runs `f` on the reader, and gives a reader over the bytes that it passed, which begins where they do.
    #[inline]
    pub fn skip<F: FnOnce(&mut BinaryReader<'a>) -> Result<()>>(
        &mut self,
        f: F,
    ) -> Result<BinaryReader<'a>>
        requires callable { F.IsAlwaysCallable f }
        requires goes_on { (after : State) → FnOnceReturnsAtMut F.FnOnce f self.old (Ok tt) after
            → Reaches self.old after }
        ensures passed { IfOk result (λ passed. FnOnceReturnsAtMut F.FnOnce f self.old (Ok tt) self.new
            × IsPassed self.old self.new passed) }
        ensures refused { IfErr result (λ e. ((after : State) × FnOnceReturnsAtMut F.FnOnce f self.old (Err e) after)
            × (self.new ≡ self.old)) }
    {
        let start = self.clone();
        let run = f(self);
        if let Err(error) = run {
            *self = start;
            return Err(error);
        }
        let passed = start.bytes_remaining() - self.bytes_remaining();
        Ok(start.front(passed))
    }

    /// A reader over the next `n` bytes.
    #[inline]
    fn front(&self, n: usize) -> BinaryReader<'a>
        requires { n ≤ length self.now.rest }
        ensures { result ≡ part_at self.now (take n self.now.rest) }
    {
        BinaryReader {
            buffer: &self.buffer[self.position..self.position + n],
            position: 0,
            original_offset: self.original_position(),
            features: self.features,
            limits: self.limits,
        }
    }

    /// The next value of a type.
    #[inline]
    pub fn read<T: FromReader<'a>>(&mut self, alloc: Global) -> Result<T>
        ensures answer { Answers T.view result self.old self.new (T.decoder self.old.settings self.old) }
        ensures memory { MemoryOnlyIf T.takes_memory result }
        ensures forward { Reaches self.old self.new }
    {
        let start = self.clone();
        let value = match T::from_reader(alloc, self) {
            Ok(value) => value,
            Err(error) => {
                self.return_to(start);
                return Err(error);
            }
        };
        Ok(value)
    }
}

/// That a size is above its limit.
#[cold]
fn size_error(desc: Words, offset: u64) -> Error
    ensures kind { result.kind ≡ Other }
    ensures offset { result.offset ≡ offset }
    ensures message { IsWrittenMessage (words_text desc ++ codes " size is out of bounds") result.message }
{
    Error::with(Text::SizeOf(desc), offset)
}
