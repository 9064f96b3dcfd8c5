//! Texts (WebAssembly 3.0, binary format, names).

ghost use Rattle.wasm_types_decoding.specs.Words.{words_text};
ghost use Rattle.std.specs.Prelude.{◌≡◌, ◌-◌, codes};
ghost use Rattle.wasm_types_decoding.specs.Decoder.{Reaches, bytes};
ghost use Rattle.wasm_types_decoding.specs.Leb.{u32 as u32_decoder};
ghost use Rattle.wasm_types_decoding.specs.Text.{counted_within, text_of, skipped, name, any_name, skipped_name};
ghost use Rattle.wasm_types_decoding.specs.declared.error.ErrorKind.TheVariants.{Other};
ghost use Rattle.wasm_types_decoding.specs.ErrorText.{message_of};
ghost use Rattle.wasm_types_reader.specs.Reading.{Answers, Gives, NeedsNoMemory, is_read};
ghost use Rattle.wasm_types_reader.specs.Messages.{is_above, is_whole, is_whole_within, SaysIf};

use crate::{BinaryReader, Error, Result, Words};
use std::str;

impl<'a> BinaryReader<'a> {
    /// A count in LEB128 of at most the limit of a string's bytes, and as many bytes of UTF-8. A larger count is refused at its last byte, and other
    /// bytes at the last of them.
    #[inline]
    pub fn read_string(&mut self) -> Result<&'a str>
        ensures answer { Answers (λ s. s.now) result self.old self.new
            (name self.old.settings.limits.string_bytes self.old) }
        ensures no_memory { NeedsNoMemory result }
        ensures too_long { SaysIf (is_above self.old.settings.limits.string_bytes (u32_decoder self.old))
            (λ m. m ≡ codes "string size out of bounds") result }
        ensures malformed { SaysIf (is_whole_within self.old.settings.limits.string_bytes (u32_decoder self.old))
            (λ m. m ≡ codes "malformed UTF-8 encoding") result }
        ensures forward { Reaches self.old self.new }
    {
        let start = self.clone();
        let text = match self.limited_text() {
            Ok(text) => text,
            Err(error) => {
                self.return_to(start);
                return Err(error);
            }
        };
        Ok(text)
    }

    /// A count in LEB128, and as many bytes of UTF-8. Other bytes are refused at the last of them.
    #[inline]
    pub fn read_unlimited_string(&mut self) -> Result<&'a str>
        ensures answer { Answers (λ s. s.now) result self.old self.new (any_name self.old) }
        ensures no_memory { NeedsNoMemory result }
        ensures malformed { SaysIf (is_whole (u32_decoder self.old))
            (λ m. m ≡ codes "malformed UTF-8 encoding") result }
        ensures forward { Reaches self.old self.new }
    {
        let before = self.clone();
        let text = match self.counted_text() {
            Ok(text) => text,
            Err(error) => {
                self.return_to(before);
                return Err(error);
            }
        };
        Ok(text)
    }

    /// Goes on behind a count in LEB128 of at most the limit of a string's bytes and as many bytes, whatever they are.
    #[inline]
    pub fn skip_string(&mut self) -> Result<()>
        ensures answer { Answers (λ u. u) result self.old self.new
            (skipped_name self.old.settings.limits.string_bytes self.old) }
        ensures no_memory { NeedsNoMemory result }
        ensures too_long { SaysIf (is_above self.old.settings.limits.string_bytes (u32_decoder self.old))
            (λ m. m ≡ codes "string size out of bounds") result }
        ensures forward { Reaches self.old self.new }
    {
        let here = self.clone();
        if let Err(error) = self.skip_text() {
            self.return_to(here);
            return Err(error);
        }
        Ok(())
    }

    #[tactic(auto, using(wasm_types_decoding::specs::NumbersLaws::reaches_self, wasm_types_decoding::specs::NumbersLaws::reaches_then), unfolding(wasm_types_decoding::specs::NumbersLaws::counted_within))]
    fn limited_text(&mut self) -> Result<&'a str>
        ensures answer { Gives (λ s. s.now) result self.new (name self.old.settings.limits.string_bytes self.old) }
        ensures no_memory { NeedsNoMemory result }
        ensures too_long { SaysIf (is_above self.old.settings.limits.string_bytes (u32_decoder self.old))
            (λ m. m ≡ codes "string size out of bounds") result }
        ensures malformed { SaysIf (is_whole_within self.old.settings.limits.string_bytes (u32_decoder self.old))
            (λ m. m ≡ codes "malformed UTF-8 encoding") result }
        ensures forward { Reaches self.old self.new }
    {
        let limit = self.limits().string_bytes as usize;
        let count = self.read_var_u32()? as usize;
        if count > limit {
            return Err(self.string_error(Words::StringSizeOutOfBounds));
        }
        self.text(count)
    }

    #[tactic(auto, using(wasm_types_decoding::specs::NumbersLaws::reaches_self, wasm_types_decoding::specs::NumbersLaws::reaches_then), unfolding(wasm_types_decoding::specs::NumbersLaws::any_name))]
    fn counted_text(&mut self) -> Result<&'a str>
        ensures answer { Gives (λ s. s.now) result self.new (any_name self.old) }
        ensures no_memory { NeedsNoMemory result }
        ensures malformed { SaysIf (is_whole (u32_decoder self.old))
            (λ m. m ≡ codes "malformed UTF-8 encoding") result }
        ensures forward { Reaches self.old self.new }
    {
        let count = self.read_var_u32()?;
        self.text(count as usize)
    }

    #[tactic(auto, using(wasm_types_decoding::specs::NumbersLaws::reaches_self, wasm_types_decoding::specs::NumbersLaws::reaches_then), unfolding(wasm_types_decoding::specs::NumbersLaws::counted_within, wasm_types_decoding::specs::NumbersLaws::skipped))]
    fn skip_text(&mut self) -> Result<()>
        ensures answer { Gives (λ u. u) result self.new (skipped_name self.old.settings.limits.string_bytes self.old) }
        ensures no_memory { NeedsNoMemory result }
        ensures too_long { SaysIf (is_above self.old.settings.limits.string_bytes (u32_decoder self.old))
            (λ m. m ≡ codes "string size out of bounds") result }
        ensures forward { Reaches self.old self.new }
    {
        let limit = self.limits().string_bytes as usize;
        let count = self.read_var_u32()? as usize;
        if count > limit {
            return Err(self.string_error(Words::StringSizeOutOfBounds));
        }
        let _ = self.read_bytes(count)?;
        Ok(())
    }

    /// The next `n` bytes, which are UTF-8.
    #[tactic(auto, using(wasm_types_decoding::specs::NumbersLaws::reaches_self, wasm_types_decoding::specs::NumbersLaws::reaches_then), unfolding(wasm_types_decoding::specs::NumbersLaws::text_of))]
    fn text(&mut self, n: usize) -> Result<&'a str>
        ensures answer { Gives (λ s. s.now) result self.new (text_of n self.old) }
        ensures no_memory { NeedsNoMemory result }
        ensures malformed { SaysIf (is_read (bytes n self.old)) (λ m. m ≡ codes "malformed UTF-8 encoding") result }
        ensures forward { Reaches self.old self.new }
    {
        let bytes = self.read_bytes(n)?;
        match str::from_utf8(bytes) {
            Ok(text) => Ok(text),
            Err(_) => Err(self.string_error(Words::MalformedUTF8Encoding)),
        }
    }

    /// A fault of the byte that was read last.
    #[cold]
    fn string_error(&self, message: Words) -> Error
        ensures kind { result.kind ≡ Other }
        ensures offset { result.offset ≡ self.now.place - 1 }
        ensures message { result.message ≡ message_of (words_text message) }
    {
        Error::new(message, self.original_position().saturating_sub(1))
    }
}
