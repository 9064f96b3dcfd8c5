//! The types of blocks from their bytes.

ghost use Rattle.std.specs.Prelude.{◌≡◌};
ghost use Rattle.wasm_types.specs.decoding.Decoder.{Reaches};
ghost use Rattle.wasm_types.specs.decoding.declared.error.ErrorKind.TheVariants.{Other};
ghost use Rattle.wasm_types.specs.reader.Reading.{Gives, NeedsNoMemory};
ghost use Rattle.wasm_operators_immediates.specs.Blocks.{begins_value, function_block, value_block, empty_block, block_type};

use crate::BlockType;
use std::alloc::Global;
use wasm_types::{BinaryReader, Error, FromReader, Result, ValType, Words};

// Whether a byte begins a value type, where it begins no index.
#[inline]
fn is_start_of_value(byte: u8) -> bool
    ensures { result ≡ begins_value byte }
{
    if byte < 0x63 {
        false
    } else if byte < 0x66 {
        true
    } else if byte < 0x68 {
        false
    } else if byte < 0x76 {
        true
    } else {
        byte > 0x7a
    }
}

// The error of what is no type of a block.
#[cold]
fn no_block_type(offset: u64) -> Error
    ensures kind { result.kind ≡ Other }
    ensures offset { result.offset ≡ offset }
{
    Error::new(Words::InvalidFunctionType, offset)
}

// A function type, by its index in a number with a sign.
#[tactic(auto, using(wasm_types::specs::Laws::reaches_self, wasm_types::specs::Laws::reaches_then), unfolding(crate::specs::Blocks::function_block))]
fn read_function<'a>(reader: &mut BinaryReader<'a>) -> Result<BlockType>
    ensures answer { Gives (λ ty. ty) result reader.new (function_block reader.old) }
    ensures no_memory { NeedsNoMemory result }
    ensures forward { Reaches reader.old reader.new }
{
    let index = reader.read_var_s33()?;
    if index < 0 {
        return Err(no_block_type(reader.original_position()));
    }
    if index > u32::MAX as i64 {
        return Err(no_block_type(reader.original_position()));
    }
    Ok(BlockType::FuncType(index as u32))
}

// A value type.
#[tactic(auto, using(wasm_types::specs::Laws::reaches_self, wasm_types::specs::Laws::reaches_then), unfolding(crate::specs::Blocks::value_block))]
fn read_value<'a>(alloc: Global, reader: &mut BinaryReader<'a>) -> Result<BlockType>
    ensures answer { Gives (λ ty. ty) result reader.new (value_block reader.old) }
    ensures no_memory { NeedsNoMemory result }
    ensures forward { Reaches reader.old reader.new }
{
    let ty = ValType::from_reader(alloc, reader)?;
    Ok(BlockType::Val(ty))
}

// The byte of the empty type.
#[tactic(auto, using(wasm_types::specs::Laws::reaches_self, wasm_types::specs::Laws::reaches_then), unfolding(crate::specs::Blocks::empty_block))]
fn read_empty<'a>(reader: &mut BinaryReader<'a>) -> Result<BlockType>
    ensures answer { Gives (λ ty. ty) result reader.new (empty_block reader.old) }
    ensures no_memory { NeedsNoMemory result }
    ensures forward { Reaches reader.old reader.new }
{
    let offset = reader.original_position();
    let byte = reader.read_u8()?;
    if byte == 0x40 {
        return Ok(BlockType::Empty);
    }
    Err(no_value_type(byte, offset))
}

// The error of a byte that is neither that of the empty type nor begins an index or a value type.
#[cold]
fn no_value_type(byte: u8, offset: u64) -> Error
    ensures kind { result.kind ≡ Other }
    ensures offset { result.offset ≡ offset }
{
    if byte == 0x62 {
        return Error::new(Words::UnexpectedExactType, offset);
    }
    Error::new(Words::InvalidValueType, offset)
}

impl<'a> FromReader<'a> for BlockType {
    ghost use Rattle.std.specs.Prelude.{false};
    ghost use Rattle.wasm_operators_immediates.specs.declared.block.BlockType.{BlockType as TheType};
    ghost use Rattle.wasm_operators_immediates.specs.Blocks.{SpelledBlock};
    ghost use Rattle.wasm_operators_immediates.specs.BlockLaws.{lawful-block_type, decides-block_type};

    ghost Value = { TheType };

    ghost view = { λ ty. ty };

    ghost decoder = { λ z. block_type };

    ghost grammar = { λ z. SpelledBlock };

    ghost takes_memory = { false };

    ghost lawful = { λ z. lawful-block_type };

    ghost exact = { λ z. decides-block_type };

    #[tactic(auto, using(wasm_types::specs::Laws::reaches_self, wasm_types::specs::Laws::reaches_then), unfolding(crate::specs::Blocks::block_type))]
    fn from_reader(alloc: Global, reader: &mut BinaryReader<'a>) -> Result<BlockType>
        ensures answer { Gives (λ ty. ty) result reader.new (block_type reader.old) }
        ensures forward { Reaches reader.old reader.new }
        ensures no_memory { NeedsNoMemory result }
    {
        let first = reader.peek()?;
        if first < 0x40 || first > 0x7f {
            return read_function(reader);
        }
        if is_start_of_value(first) {
            return read_value(alloc, reader);
        }
        read_empty(reader)
    }
}
