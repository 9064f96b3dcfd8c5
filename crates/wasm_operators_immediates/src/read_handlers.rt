//! The clauses of `try_table` and the handlers of `resume` from their bytes.

ghost use Rattle.std.specs.Prelude.{◌≡◌};
ghost use Rattle.wasm_types.specs.decoding.Decoder.{Reaches};
ghost use Rattle.wasm_types.specs.decoding.declared.error.ErrorKind.TheVariants.{Other};
ghost use Rattle.wasm_types.specs.reader.Reading.{Gives, NeedsNoMemory};
ghost use Rattle.wasm_operators_immediates.specs.Handlers.{clause, handle, try_table, handlers};

use crate::{BlockType, Catch, Handle, ResumeTable, TryTable};
use std::alloc::Global;
use wasm_types::{BinaryReader, Error, FromReader, Result, Text, Words, read_list};

// The error of a byte that begins no clause or handler.
#[cold]
fn leading_byte_error(byte: u8, behind: Words, offset: u64) -> Error
    ensures kind { result.kind ≡ Other }
    ensures offset { result.offset ≡ offset }
{
    Error::with(
        Text::Hex(Words::InvalidLeadingByte0x, byte as u32, behind),
        offset,
    )
}

impl<'a> FromReader<'a> for Catch {
    ghost use Rattle.std.specs.Prelude.{false};
    ghost use Rattle.wasm_operators_immediates.specs.declared.handlers.Catch.{Catch as TheClause};
    ghost use Rattle.wasm_operators_immediates.specs.Handlers.{SpelledCatch};
    ghost use Rattle.wasm_operators_immediates.specs.HandlerLaws.{lawful-clause, decides-clause};

    ghost Value = { TheClause };

    ghost view = { λ c. c };

    ghost decoder = { λ z. clause };

    ghost grammar = { λ z. SpelledCatch };

    ghost takes_memory = { false };

    ghost lawful = { λ z. lawful-clause };

    ghost exact = { λ z. decides-clause };

    #[tactic(auto, using(wasm_types::specs::Laws::reaches_self, wasm_types::specs::Laws::reaches_then), unfolding(crate::specs::Handlers::clause, crate::specs::Handlers::clause_after))]
    fn from_reader(_alloc: Global, reader: &mut BinaryReader<'a>) -> Result<Catch>
        ensures answer { Gives (λ c. c) result reader.new (clause reader.old) }
        ensures forward { Reaches reader.old reader.new }
        ensures no_memory { NeedsNoMemory result }
    {
        let offset = reader.original_position();
        let byte = reader.read_u8()?;
        match byte {
            0x00 => {
                let tag = reader.read_var_u32()?;
                let label = reader.read_var_u32()?;
                Ok(Catch::One { tag, label })
            }
            0x01 => {
                let tag = reader.read_var_u32()?;
                let label = reader.read_var_u32()?;
                Ok(Catch::OneRef { tag, label })
            }
            0x02 => {
                let label = reader.read_var_u32()?;
                Ok(Catch::All { label })
            }
            0x03 => {
                let label = reader.read_var_u32()?;
                Ok(Catch::AllRef { label })
            }
            _ => Err(leading_byte_error(byte, Words::ForCatch, offset)),
        }
    }
}

impl<'a> FromReader<'a> for TryTable {
    ghost use Rattle.std.specs.Prelude.{true};
    ghost use Rattle.wasm_operators_immediates.specs.Tables.{CatchTable, catch_table_of};
    ghost use Rattle.wasm_operators_immediates.specs.Handlers.{SpelledTryTable};
    ghost use Rattle.wasm_operators_immediates.specs.HandlerLaws.{lawful-try_table, decides-try_table};

    ghost Value = { CatchTable };

    ghost view = { catch_table_of };

    ghost decoder = { try_table };

    ghost grammar = { SpelledTryTable };

    ghost takes_memory = { true };

    ghost lawful = { lawful-try_table };

    ghost exact = { decides-try_table };

    #[tactic(auto, using(wasm_types::specs::Laws::reaches_self, wasm_types::specs::Laws::reaches_then), unfolding(crate::specs::Handlers::try_table))]
    fn from_reader(alloc: Global, reader: &mut BinaryReader<'a>) -> Result<TryTable> {
        let limit = reader.limits().catches as usize;
        let ty = BlockType::from_reader(alloc, reader)?;
        let catches = read_list(alloc, limit, Words::Catches, reader)?;
        Ok(TryTable { ty, catches })
    }
}

impl<'a> FromReader<'a> for Handle {
    ghost use Rattle.std.specs.Prelude.{false};
    ghost use Rattle.wasm_operators_immediates.specs.declared.handlers.Handle.{Handle as TheHandler};
    ghost use Rattle.wasm_operators_immediates.specs.Handlers.{SpelledHandle};
    ghost use Rattle.wasm_operators_immediates.specs.HandlerLaws.{lawful-handle, decides-handle};

    ghost Value = { TheHandler };

    ghost view = { λ h. h };

    ghost decoder = { λ z. handle };

    ghost grammar = { λ z. SpelledHandle };

    ghost takes_memory = { false };

    ghost lawful = { λ z. lawful-handle };

    ghost exact = { λ z. decides-handle };

    #[tactic(auto, using(wasm_types::specs::Laws::reaches_self, wasm_types::specs::Laws::reaches_then), unfolding(crate::specs::Handlers::handle, crate::specs::Handlers::handle_after))]
    fn from_reader(_alloc: Global, reader: &mut BinaryReader<'a>) -> Result<Handle>
        ensures answer { Gives (λ h. h) result reader.new (handle reader.old) }
        ensures forward { Reaches reader.old reader.new }
        ensures no_memory { NeedsNoMemory result }
    {
        let offset = reader.original_position();
        let byte = reader.read_u8()?;
        match byte {
            0x00 => {
                let tag = reader.read_var_u32()?;
                let label = reader.read_var_u32()?;
                Ok(Handle::OnLabel { tag, label })
            }
            0x01 => {
                let tag = reader.read_var_u32()?;
                Ok(Handle::OnSwitch { tag })
            }
            _ => Err(leading_byte_error(byte, Words::ForOnClause, offset)),
        }
    }
}

impl<'a> FromReader<'a> for ResumeTable {
    ghost use Rattle.std.specs.Prelude.{List, true};
    ghost use Rattle.wasm_operators_immediates.specs.declared.handlers.Handle.{Handle as TheHandler};
    ghost use Rattle.wasm_operators_immediates.specs.Handlers.{SpelledHandlers};
    ghost use Rattle.wasm_operators_immediates.specs.HandlerLaws.{lawful-handlers, decides-handlers};

    ghost Value = { List TheHandler };

    ghost view = { λ t. t.handlers.items };

    ghost decoder = { handlers };

    ghost grammar = { SpelledHandlers };

    ghost takes_memory = { true };

    ghost lawful = { lawful-handlers };

    ghost exact = { decides-handlers };

    #[tactic(auto, using(wasm_types::specs::Laws::reaches_self, wasm_types::specs::Laws::reaches_then), unfolding(crate::specs::Handlers::handlers))]
    fn from_reader(alloc: Global, reader: &mut BinaryReader<'a>) -> Result<ResumeTable> {
        let limit = reader.limits().catches as usize;
        let handlers = read_list(alloc, limit, Words::ResumeTable, reader)?;
        Ok(ResumeTable { handlers })
    }
}
