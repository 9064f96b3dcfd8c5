//! The number that the contents of a section begin with.

ghost use Rattle.std.specs.Prelude.{◌≡◌, IfErr, MatchResult};
ghost use Rattle.wasm_types.specs.decoding.Decoder.{Done};
ghost use Rattle.wasm_types.specs.decoding.Leb.{u32 as u32_decoder};
ghost use Rattle.wasm_types.specs.reader.Reading.{Fails, IsNotMemory};
ghost use Rattle.wasm_sections_parser.specs.Settled.{settled};
ghost use Rattle.wasm_sections.specs.Payloads.{cut, only_number};

use std::alloc::Global;
use wasm_sections_items::limited::SectionLimited;
use wasm_types::{BinaryReader, Error, FromReader, Result, Words};

/// The same error, where no more bytes can come: an end of data is a fault.
#[cold]
fn settled(error: Error) -> Error
    ensures kind { result.kind ≡ settled error.kind }
    ensures offset { result.offset ≡ error.offset }
{
    if error.needed_hint().is_some() {
        return Error::new(Words::UnexpectedEndOfFile, error.offset());
    }
    error
}

/// The items behind a count, in contents that are all there.
pub(crate) fn read_items<'a, T: FromReader<'a>>(
    alloc: Global,
    reader: BinaryReader<'a>,
) -> Result<SectionLimited<'a, T>>
    ensures answer { MatchResult result (λ s. u32_decoder reader.entry ≡ Done s.count s.reader)
        (λ e. Fails e (cut (u32_decoder reader.entry))) }
    ensures no_memory { IfErr result (λ e. IsNotMemory e.kind) }
{
    match SectionLimited::new(alloc, reader) {
        Ok(section) => Ok(section),
        Err(error) => Err(settled(error)),
    }
}

/// A number that is the whole of the contents. What stands behind it is refused with this message.
pub(crate) fn read_only_number(reader: BinaryReader<'_>, message: Words) -> Result<u32>
    ensures answer { MatchResult result (λ n. only_number reader.entry ≡ Done n reader.entry)
        (λ e. Fails e (only_number reader.entry)) }
    ensures no_memory { IfErr result (λ e. IsNotMemory e.kind) }
{
    let mut reader = reader;
    let number = match reader.read_var_u32() {
        Ok(number) => number,
        Err(error) => return Err(settled(error)),
    };
    if !reader.eof() {
        return Err(Error::new(message, reader.original_position()));
    }
    Ok(number)
}
