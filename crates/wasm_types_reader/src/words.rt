//! Numbers of a fixed length.

ghost use Rattle.std.specs.Prelude.{◌≡◌};
ghost use Rattle.wasm_types_decoding.specs.Decoder.{Reaches};
ghost use Rattle.wasm_types_decoding.specs.Text.{word};
ghost use Rattle.wasm_types_reader.specs.Reading.{Answers, Gives, NeedsNoMemory};
ghost use Rattle.wasm_types_reader.specs.Words.{u7};

use crate::{BinaryReader, Error, Result, Words};

/// The bits of a float of 32 bits, as they stand in the input.
#[derive(Clone, Copy, Debug, PartialEq, Eq, Hash)]
pub struct Ieee32(u32);

impl Ieee32 {
    /// The float of these bits.
    #[inline]
    pub fn from_bits(bits: u32) -> Ieee32
        ensures { result.0 ≡ bits }
    {
        Ieee32(bits)
    }

    /// The bits.
    #[inline]
    pub fn bits(self) -> u32
        ensures { result ≡ self.0 }
    {
        self.0
    }
}

/// The bits of a float of 64 bits, as they stand in the input.
#[derive(Clone, Copy, Debug, PartialEq, Eq, Hash)]
pub struct Ieee64(u64);

impl Ieee64 {
    /// The float of these bits.
    #[inline]
    pub fn from_bits(bits: u64) -> Ieee64
        ensures { result.0 ≡ bits }
    {
        Ieee64(bits)
    }

    /// The bits.
    #[inline]
    pub fn bits(self) -> u64
        ensures { result ≡ self.0 }
    {
        self.0
    }
}

impl<'a> BinaryReader<'a> {
    /// The next byte, which is below 128.
    #[inline]
    #[tactic(auto, using(wasm_types_decoding::specs::NumbersLaws::reaches_self, wasm_types_decoding::specs::NumbersLaws::reaches_then), unfolding(crate::specs::Words::u7))]
    pub fn read_u7(&mut self) -> Result<u8>
        ensures answer { Answers (λ b. b) result self.old self.new (u7 self.old) }
        ensures no_memory { NeedsNoMemory result }
        ensures forward { Reaches self.old self.new }
    {
        let mut ahead = self.clone();
        let b = ahead.read_u8()?;
        if b >= 0x80 {
            return Err(Error::new(Words::InvalidU7, self.original_position()));
        }
        *self = ahead;
        Ok(b)
    }

    /// The next four bytes as a number, the lowest byte first.
    #[inline]
    #[tactic(auto, using(wasm_types_decoding::specs::NumbersLaws::reaches_self, wasm_types_decoding::specs::NumbersLaws::reaches_then), unfolding(wasm_types_decoding::specs::NumbersLaws::word))]
    pub fn read_u32(&mut self) -> Result<u32>
        ensures answer { Answers (λ n. n) result self.old self.new (word 4 self.old) }
        ensures no_memory { NeedsNoMemory result }
        ensures forward { Reaches self.old self.new }
    {
        let text = self.read_bytes(4)?;
        Ok(u32::from_le_bytes([text[0], text[1], text[2], text[3]]))
    }

    /// The next eight bytes as a number, the lowest byte first.
    #[inline]
    #[tactic(auto, using(wasm_types_decoding::specs::NumbersLaws::reaches_self, wasm_types_decoding::specs::NumbersLaws::reaches_then), unfolding(wasm_types_decoding::specs::NumbersLaws::word))]
    pub fn read_u64(&mut self) -> Result<u64>
        ensures answer { Answers (λ n. n) result self.old self.new (word 8 self.old) }
        ensures no_memory { NeedsNoMemory result }
        ensures forward { Reaches self.old self.new }
    {
        let text = self.read_bytes(8)?;
        Ok(u64::from_le_bytes([
            text[0], text[1], text[2], text[3], text[4], text[5], text[6], text[7],
        ]))
    }

    /// The next four bytes as the bits of a float, the lowest byte first.
    #[inline]
    pub fn read_f32(&mut self) -> Result<Ieee32>
        ensures answer { Answers (λ f. f.0) result self.old self.new (word 4 self.old) }
        ensures no_memory { NeedsNoMemory result }
        ensures forward { Reaches self.old self.new }
    {
        let bits = self.read_u32()?;
        Ok(Ieee32(bits))
    }

    /// The next eight bytes as the bits of a float, the lowest byte first.
    #[inline]
    pub fn read_f64(&mut self) -> Result<Ieee64>
        ensures answer { Answers (λ f. f.0) result self.old self.new (word 8 self.old) }
        ensures no_memory { NeedsNoMemory result }
        ensures forward { Reaches self.old self.new }
    {
        let bits = self.read_u64()?;
        Ok(Ieee64(bits))
    }
}
