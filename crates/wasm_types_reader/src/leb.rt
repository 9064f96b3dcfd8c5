//! Numbers in LEB128 (WebAssembly 3.0, binary format, values, integers), with the error where the bytes spell none: groups
//! of seven bits, the lowest first, in a byte each, whose highest bit says that more follow.
//!
//! `wasm_types_decoding` reads them from the bytes at hand, so a reader moves only behind a number that it has.

ghost use Rattle.std.specs.Prelude.{◌≡◌, ℕ, ◌+◌, ◌*◌, ◌<◌, ◌≤◌, ◌^◌};
ghost use Rattle.wasm_types_decoding.specs.Decoder.{Reaches, IsLawful, Decides};
ghost use Rattle.wasm_types_decoding.specs.Leb.{IsUnsigned, IsSigned, unsigned, signed, u32 as u32_decoder, u64 as u64_decoder, s32, s33, s64};
ghost use Rattle.wasm_types_decoding.specs.Numbers.{flaw_offset};
ghost use Rattle.wasm_types_reader.specs.Flaws.{flaw_kind};
ghost use Rattle.wasm_types_reader.specs.Reading.{Answers, NeedsNoMemory};

use crate::{BinaryReader, Error, Result, Words};
use wasm_types_decoding::{Flaw, long_i32_at, long_i64_at, long_s33_at, long_u32_at, long_u64_at};

/// What holds of numbers of any width, by their decoders: a value and a fault stay, whatever bytes follow; the hint of an end of data is
/// exact; and a number is read exactly where a front of the bytes is one of its spellings.
pub fn numbers_are_lawful()
    ensures unsigned { (k r : ℕ) → 0 < r → r ≤ 7 → IsLawful (unsigned k r)
        × Decides (unsigned k r) (IsUnsigned (7 * k + r)) }
    ensures signed { (k r : ℕ) → 0 < r → r ≤ 7 → IsLawful (signed k r) × Decides (signed k r) (IsSigned (7 * k + r)) }
{}

impl<'a> BinaryReader<'a> {
    /// The next unsigned number of 32 bits, in at most five bytes.
    #[inline]
    #[tactic(auto, using(crate::proofs::AtOnce::given, crate::proofs::AtOnce::goes_forward, crate::proofs::AtOnce::flawed))]
    pub fn read_var_u32(&mut self) -> Result<u32>
        ensures answer { Answers (λ v. v) result self.old self.new (u32_decoder self.old) }
        ensures no_memory { NeedsNoMemory result }
        ensures forward { Reaches self.old self.new }
    {
        if let Some(value) = self.short_u32() {
            return Ok(value);
        }
        self.long_var_u32()
    }

    /// The same of a number of any length, out of line.
    #[inline(never)]
    #[tactic(auto, using(crate::proofs::AtOnce::given, crate::proofs::AtOnce::goes_forward, crate::proofs::AtOnce::flawed))]
    fn long_var_u32(&mut self) -> Result<u32>
        ensures answer { Answers (λ v. v) result self.old self.new (u32_decoder self.old) }
        ensures no_memory { NeedsNoMemory result }
        ensures forward { Reaches self.old self.new }
    {
        match long_u32_at(self.rest(), 0) {
            Ok((value, length)) => {
                self.advance(length);
                Ok(value)
            }
            Err(flaw) => Err(flaw_error(
                flaw,
                self.original_position(),
                Words::InvalidVarU32IntegerRepresentationTooLong,
                Words::InvalidVarU32IntegerTooLarge,
            )),
        }
    }

    /// The next unsigned number of 64 bits, in at most ten bytes.
    #[inline]
    #[tactic(auto, using(crate::proofs::AtOnce::given, crate::proofs::AtOnce::goes_forward, crate::proofs::AtOnce::flawed))]
    pub fn read_var_u64(&mut self) -> Result<u64>
        ensures answer { Answers (λ v. v) result self.old self.new (u64_decoder self.old) }
        ensures no_memory { NeedsNoMemory result }
        ensures forward { Reaches self.old self.new }
    {
        if let Some(value) = self.short_u64() {
            return Ok(value);
        }
        match long_u64_at(self.rest(), 0) {
            Ok((value, length)) => {
                self.advance(length);
                Ok(value)
            }
            Err(flaw) => Err(flaw_error(
                flaw,
                self.original_position(),
                Words::InvalidVarU64IntegerRepresentationTooLong,
                Words::InvalidVarU64IntegerTooLarge,
            )),
        }
    }

    /// The next signed number of 32 bits, in at most five bytes.
    #[inline]
    #[tactic(auto, using(crate::proofs::AtOnce::given, crate::proofs::AtOnce::goes_forward, crate::proofs::AtOnce::flawed))]
    pub fn read_var_i32(&mut self) -> Result<i32>
        ensures answer { Answers (λ v. v) result self.old self.new (s32 self.old) }
        ensures no_memory { NeedsNoMemory result }
        ensures forward { Reaches self.old self.new }
    {
        if let Some(value) = self.short_i32() {
            return Ok(value);
        }
        match long_i32_at(self.rest(), 0) {
            Ok((value, length)) => {
                self.advance(length);
                Ok(value)
            }
            Err(flaw) => Err(flaw_error(
                flaw,
                self.original_position(),
                Words::InvalidVarI32IntegerRepresentationTooLong,
                Words::InvalidVarI32IntegerTooLarge,
            )),
        }
    }

    /// The next signed number of 33 bits, in at most five bytes. A bad fifth byte is called too long whatever is wrong with it.
    #[inline]
    #[tactic(auto, using(crate::proofs::AtOnce::given, crate::proofs::AtOnce::goes_forward, crate::proofs::AtOnce::flawed))]
    pub fn read_var_s33(&mut self) -> Result<i64>
        ensures answer { Answers (λ v. v) result self.old self.new (s33 self.old) }
        ensures no_memory { NeedsNoMemory result }
        ensures forward { Reaches self.old self.new }
    {
        if let Some(value) = self.short_s33() {
            return Ok(value);
        }
        match long_s33_at(self.rest(), 0) {
            Ok((value, length)) => {
                self.advance(length);
                Ok(value)
            }
            Err(flaw) => Err(flaw_error(
                flaw,
                self.original_position(),
                Words::InvalidVarS33IntegerRepresentationTooLong,
                Words::InvalidVarS33IntegerRepresentationTooLong,
            )),
        }
    }

    /// The next signed number of 64 bits, in at most ten bytes.
    #[inline]
    #[tactic(auto, using(crate::proofs::AtOnce::given, crate::proofs::AtOnce::goes_forward, crate::proofs::AtOnce::flawed))]
    pub fn read_var_i64(&mut self) -> Result<i64>
        ensures answer { Answers (λ v. v) result self.old self.new (s64 self.old) }
        ensures no_memory { NeedsNoMemory result }
        ensures forward { Reaches self.old self.new }
    {
        if let Some(value) = self.short_i64() {
            return Ok(value);
        }
        match long_i64_at(self.rest(), 0) {
            Ok((value, length)) => {
                self.advance(length);
                Ok(value)
            }
            Err(flaw) => Err(flaw_error(
                flaw,
                self.original_position(),
                Words::InvalidVarI64IntegerRepresentationTooLong,
                Words::InvalidVarI64IntegerTooLarge,
            )),
        }
    }
}

/// The error of a flaw in the bytes from an offset of the input on, of a number with these messages: where the last byte
/// says that more follow the number is too long, and else too large.
#[cold]
fn flaw_error(flaw: Flaw, start: u64, too_long: Words, too_large: Words) -> Error
    requires { start + flaw_offset flaw < 2 ^ 64 }
    ensures kind { result.kind ≡ flaw_kind flaw }
    ensures offset { result.offset ≡ start + flaw_offset flaw }
{
    match flaw {
        Flaw::Ended(offset) => Error::eof(start + offset as u64, 1),
        Flaw::NoRoom { offset, byte } => {
            let message = if byte < 0x80 { too_large } else { too_long };
            Error::new(message, start + offset as u64)
        }
    }
}
