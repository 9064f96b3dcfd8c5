//! Reference types, value types and storage types from their bytes (WebAssembly 3.0, binary format, types).
ghost use Rattle.std.specs.Prelude.{◌≡◌, ◌<◌};
ghost use Rattle.wasm_types_reader.specs.decoding.Decoder.{Reaches};
ghost use Rattle.wasm_types_reader.specs.Reading.{Gives, NeedsNoMemory};
ghost use Rattle.wasm_types_values.specs.Decode.{long_reference, reference_after};
ghost use Rattle.wasm_types_values.specs.DecodeValues.{value_type_after};

use crate::read_heap::{abstract_type_of, read_abstract, read_heap_type};
use crate::reference::RefType;
use crate::value::{StorageType, ValType};
use std::alloc::Global;
use wasm_types_reader::{BinaryReader, Error, FromReader, Result, Words};

// The reference type that begins with a byte, which was read. What is none is refused with these messages.
#[tactic(auto, using(wasm_types_reader::specs::Laws::reaches_self, wasm_types_reader::specs::Laws::reaches_then), unfolding(crate::specs::Decode::reference_after))]
fn reference_after_byte<'a>(
    byte: u8,
    words: Wording,
    reader: &mut BinaryReader<'a>,
) -> Result<RefType>
    requires { 0 < reader.old.place }
    ensures answer { Gives (λ r. r) result reader.new (reference_after byte reader.old) }
    ensures no_memory { NeedsNoMemory result }
    ensures forward { Reaches reader.old reader.new }
{
    if byte == 0x64 {
        return read_long(false, words, reader);
    }
    if byte == 0x63 {
        return read_long(true, words, reader);
    }
    if byte == 0x65 {
        let ty = read_abstract(words.bare, reader)?;
        return Ok(RefType::abstract_type(true, true, ty));
    }
    if byte == 0x62 {
        return Err(Error::new(Words::UnexpectedExactType, reader.original_position() - 1));
    }
    match abstract_type_of(byte) {
        Some(ty) => Ok(RefType::abstract_type(true, false, ty)),
        None => Err(Error::new(words.bare, reader.original_position() - 1)),
    }
}

// The messages by which a reference is refused: where it begins, or behind the mark of a shared one; in the heap type of one in full; and
// behind the mark of a shared heap type there.
#[derive(Clone, Copy)]
struct Wording {
    bare: Words,
    heap: Words,
    shared: Words,
}

// Those of a reference that stands alone.
const REFERENCE: Wording = Wording {
    bare: Words::MalformedReferenceType,
    heap: Words::InvalidHeapType,
    shared: Words::InvalidAbstractHeapType,
};

// Those of a value type.
const VALUE: Wording = Wording {
    bare: Words::InvalidValueType,
    heap: Words::InvalidValueType,
    shared: Words::InvalidValueType,
};

// A reference to a heap type that stands next.
fn read_long<'a>(nullable: bool, words: Wording, reader: &mut BinaryReader<'a>) -> Result<RefType>
    ensures answer { Gives (λ r. r) result reader.new (long_reference nullable reader.old) }
    ensures no_memory { NeedsNoMemory result }
    ensures forward { Reaches reader.old reader.new }
{
    let heap_type = read_heap_type(words.heap, words.shared, reader)?;
    match RefType::new(nullable, heap_type) {
        Some(ty) => Ok(ty),
        None => unreachable!(),
    }
}

impl<'a> FromReader<'a> for RefType {
    ghost use Rattle.std.specs.Prelude.{false};
    ghost use Rattle.wasm_types_values.specs.Reference.{Reference};
    ghost use Rattle.wasm_types_values.specs.Decode.{reference_type};
    ghost use Rattle.wasm_types_values.specs.DecodeLaws.{lawful-reference_type};
    ghost use Rattle.wasm_types_values.specs.Spelled.{SpelledReference};
    ghost use Rattle.wasm_types_values.specs.ReferenceLaws.{decides-reference_type};

    ghost Value = { Reference };

    ghost view = { λ ty. ty };

    ghost decoder = { λ z. reference_type };

    ghost grammar = { λ z. SpelledReference };

    ghost takes_memory = { false };

    ghost lawful = { λ z. lawful-reference_type };

    ghost exact = { λ z. decides-reference_type };

    #[tactic(auto, using(wasm_types_reader::specs::Laws::reaches_self, wasm_types_reader::specs::Laws::reaches_then, crate::proofs::Places::beyond_0), unfolding(crate::specs::Decode::reference_type))]
    fn from_reader(_alloc: Global, reader: &mut BinaryReader<'a>) -> Result<RefType>
        ensures answer { Gives (λ ty. ty) result reader.new (reference_type reader.old) }
        ensures forward { Reaches reader.old reader.new }
        ensures no_memory { NeedsNoMemory result }
    {
        let byte = reader.read_u8()?;
        reference_after_byte(byte, REFERENCE, reader)
    }
}

// The value type that begins with a byte, which was read.
#[tactic(auto, using(wasm_types_reader::specs::Laws::reaches_self, wasm_types_reader::specs::Laws::reaches_then), unfolding(crate::specs::DecodeValues::value_type_after))]
fn value_after_byte<'a>(byte: u8, reader: &mut BinaryReader<'a>) -> Result<ValType>
    requires { 0 < reader.old.place }
    ensures answer { Gives (λ v. v) result reader.new (value_type_after byte reader.old) }
    ensures no_memory { NeedsNoMemory result }
    ensures forward { Reaches reader.old reader.new }
{
    match byte {
        0x7f => Ok(ValType::I32),
        0x7e => Ok(ValType::I64),
        0x7d => Ok(ValType::F32),
        0x7c => Ok(ValType::F64),
        0x7b => Ok(ValType::V128),
        _ => {
            let ty = reference_after_byte(byte, VALUE, reader)?;
            Ok(ValType::Ref(ty))
        }
    }
}

impl<'a> FromReader<'a> for ValType {
    ghost use Rattle.std.specs.Prelude.{false};
    ghost use Rattle.wasm_types_values.specs.declared.value.ValType.{ValType as TheType};
    ghost use Rattle.wasm_types_values.specs.DecodeValues.{value_type};
    ghost use Rattle.wasm_types_values.specs.DecodeLaws.{lawful-value_type};
    ghost use Rattle.wasm_types_values.specs.Spelled.{SpelledValue};
    ghost use Rattle.wasm_types_values.specs.ValueLaws.{decides-value_type};

    ghost Value = { TheType };

    ghost view = { λ ty. ty };

    ghost decoder = { λ z. value_type };

    ghost grammar = { λ z. SpelledValue };

    ghost takes_memory = { false };

    ghost lawful = { λ z. lawful-value_type };

    ghost exact = { λ z. decides-value_type };

    #[tactic(auto, using(wasm_types_reader::specs::Laws::reaches_self, wasm_types_reader::specs::Laws::reaches_then, crate::proofs::Places::beyond_0), unfolding(crate::specs::DecodeValues::value_type))]
    fn from_reader(_alloc: Global, reader: &mut BinaryReader<'a>) -> Result<ValType>
        ensures answer { Gives (λ ty. ty) result reader.new (value_type reader.old) }
        ensures forward { Reaches reader.old reader.new }
        ensures no_memory { NeedsNoMemory result }
    {
        let byte = reader.read_u8()?;
        value_after_byte(byte, reader)
    }
}

impl<'a> FromReader<'a> for StorageType {
    ghost use Rattle.std.specs.Prelude.{false};
    ghost use Rattle.wasm_types_values.specs.declared.value.StorageType.{StorageType as TheType};
    ghost use Rattle.wasm_types_values.specs.DecodeValues.{storage_type};
    ghost use Rattle.wasm_types_values.specs.DecodeLaws.{lawful-storage_type};
    ghost use Rattle.wasm_types_values.specs.Spelled.{SpelledStorage};
    ghost use Rattle.wasm_types_values.specs.ValueLaws.{decides-storage_type};

    ghost Value = { TheType };

    ghost view = { λ ty. ty };

    ghost decoder = { λ z. storage_type };

    ghost grammar = { λ z. SpelledStorage };

    ghost takes_memory = { false };

    ghost lawful = { λ z. lawful-storage_type };

    ghost exact = { λ z. decides-storage_type };

    #[tactic(auto, using(wasm_types_reader::specs::Laws::reaches_self, wasm_types_reader::specs::Laws::reaches_then, crate::proofs::Places::beyond_0), unfolding(crate::specs::DecodeValues::storage_type, crate::specs::DecodeValues::storage_type_after))]
    fn from_reader(_alloc: Global, reader: &mut BinaryReader<'a>) -> Result<StorageType>
        ensures answer { Gives (λ ty. ty) result reader.new (storage_type reader.old) }
        ensures forward { Reaches reader.old reader.new }
        ensures no_memory { NeedsNoMemory result }
    {
        let byte = reader.read_u8()?;
        if byte == 0x78 {
            return Ok(StorageType::I8);
        }
        if byte == 0x77 {
            return Ok(StorageType::I16);
        }
        let ty = value_after_byte(byte, reader)?;
        Ok(StorageType::Val(ty))
    }
}
