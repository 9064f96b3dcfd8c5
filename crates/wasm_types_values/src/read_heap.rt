//! Heap types from their bytes (WebAssembly 3.0, binary format, types).
ghost use Rattle.std.specs.Prelude.{◌≡◌, ◌<◌};
ghost use Rattle.wasm_types_reader.specs.decoding.Decoder.{Reaches};
ghost use Rattle.wasm_types_reader.specs.decoding.declared.error.ErrorKind.TheVariants.{Other};
ghost use Rattle.wasm_types_reader.specs.Reading.{Gives, NeedsNoMemory};
ghost use Rattle.wasm_types_values.specs.Decode.{type_of_byte, abstract_heap_type, heap_type, concrete_heap_type, exact_heap_type};

use crate::heap::{AbstractHeapType, HeapType};
use std::alloc::Global;
use wasm_types_reader::{BinaryReader, Error, FromReader, Result, Words};
use wasm_types_trees::UnpackedIndex;

// An index of a type is below this number.
const INDEX_LIMIT: u32 = 1 << 20;

// The abstract type that a byte stands for.
#[inline]
pub(crate) fn abstract_type_of(byte: u8) -> Option<AbstractHeapType>
    ensures { result ≡ type_of_byte byte }
{
    match byte {
        0x68 => Some(AbstractHeapType::Cont),
        0x69 => Some(AbstractHeapType::Exn),
        0x6a => Some(AbstractHeapType::Array),
        0x6b => Some(AbstractHeapType::Struct),
        0x6c => Some(AbstractHeapType::I31),
        0x6d => Some(AbstractHeapType::Eq),
        0x6e => Some(AbstractHeapType::Any),
        0x6f => Some(AbstractHeapType::Extern),
        0x70 => Some(AbstractHeapType::Func),
        0x71 => Some(AbstractHeapType::None),
        0x72 => Some(AbstractHeapType::NoExtern),
        0x73 => Some(AbstractHeapType::NoFunc),
        0x74 => Some(AbstractHeapType::NoExn),
        0x75 => Some(AbstractHeapType::NoCont),
        _ => None,
    }
}

impl<'a> FromReader<'a> for AbstractHeapType {
    ghost use Rattle.std.specs.Prelude.{false};
    ghost use Rattle.wasm_types_values.specs.declared.heap.AbstractHeapType.{AbstractHeapType as TheType};
    ghost use Rattle.wasm_types_values.specs.Decode.{abstract_heap_type};
    ghost use Rattle.wasm_types_values.specs.DecodeLaws.{lawful-abstract_heap_type};
    ghost use Rattle.wasm_types_values.specs.HeapLaws.{SpellsAbstract, decides-abstract_heap_type};

    ghost Value = { TheType };

    ghost view = { λ ty. ty };

    ghost decoder = { λ z. abstract_heap_type };

    ghost grammar = { λ z. SpellsAbstract };

    ghost takes_memory = { false };

    ghost lawful = { λ z. lawful-abstract_heap_type };

    ghost exact = { λ z. decides-abstract_heap_type };

    #[tactic(auto, using(wasm_types_reader::specs::Laws::reaches_self, wasm_types_reader::specs::Laws::reaches_then), unfolding(crate::specs::Decode::abstract_heap_type))]
    fn from_reader(_alloc: Global, reader: &mut BinaryReader<'a>) -> Result<AbstractHeapType>
        ensures answer { Gives (λ ty. ty) result reader.new (abstract_heap_type reader.old) }
        ensures forward { Reaches reader.old reader.new }
        ensures no_memory { NeedsNoMemory result }
    {
        read_abstract(Words::InvalidAbstractHeapType, reader)
    }
}

// An abstract type behind the mark of a shared one. Another byte is refused with this message.
#[tactic(auto, using(wasm_types_reader::specs::Laws::reaches_self, wasm_types_reader::specs::Laws::reaches_then), unfolding(crate::specs::Decode::abstract_heap_type))]
pub(crate) fn read_abstract<'a>(
    message: Words,
    reader: &mut BinaryReader<'a>,
) -> Result<AbstractHeapType>
    ensures answer { Gives (λ ty. ty) result reader.new (abstract_heap_type reader.old) }
    ensures forward { Reaches reader.old reader.new }
    ensures no_memory { NeedsNoMemory result }
{
    let byte = reader.read_u8()?;
    match abstract_type_of(byte) {
        Some(ty) => Ok(ty),
        None => Err(Error::new(message, reader.original_position() - 1)),
    }
}

/// The error of an index that is not below 2^20.
#[cold]
pub fn index_error(offset: u64) -> Error
    ensures kind { result.kind ≡ Other }
    ensures offset { result.offset ≡ offset }
{
    Error::new(Words::TypeIndexGreaterThanImplementationLimits, offset)
}

// A heap type that is an index in a number with a sign. A negative one is refused where it begins, with this message, and one past the limit
// behind it.
#[tactic(auto, using(wasm_types_reader::specs::Laws::reaches_self, wasm_types_reader::specs::Laws::reaches_then), unfolding(crate::specs::Decode::concrete_heap_type))]
fn read_concrete<'a>(message: Words, reader: &mut BinaryReader<'a>) -> Result<HeapType>
    ensures answer { Gives (λ h. h) result reader.new (concrete_heap_type reader.old) }
    ensures no_memory { NeedsNoMemory result }
    ensures forward { Reaches reader.old reader.new }
{
    let offset = reader.original_position();
    let index = reader.read_var_s33()?;
    if index < 0 {
        return Err(Error::new(message, offset));
    }
    if index >= INDEX_LIMIT as i64 {
        return Err(index_error(reader.original_position()));
    }
    Ok(HeapType::Concrete(UnpackedIndex::Module(index as u32)))
}

// A heap type that is exactly the type at an index.
#[tactic(auto, using(wasm_types_reader::specs::Laws::reaches_self, wasm_types_reader::specs::Laws::reaches_then), unfolding(crate::specs::Decode::exact_heap_type))]
fn read_exact<'a>(reader: &mut BinaryReader<'a>) -> Result<HeapType>
    ensures answer { Gives (λ h. h) result reader.new (exact_heap_type reader.old) }
    ensures no_memory { NeedsNoMemory result }
    ensures forward { Reaches reader.old reader.new }
{
    let offset = reader.original_position();
    let index = reader.read_var_u32()?;
    if index >= INDEX_LIMIT {
        return Err(index_error(offset));
    }
    Ok(HeapType::Exact(UnpackedIndex::Module(index)))
}

impl<'a> FromReader<'a> for HeapType {
    ghost use Rattle.std.specs.Prelude.{false};
    ghost use Rattle.wasm_types_values.specs.declared.heap.HeapType.{HeapType as TheType};
    ghost use Rattle.wasm_types_values.specs.Decode.{heap_type};
    ghost use Rattle.wasm_types_values.specs.DecodeLaws.{lawful-heap_type};
    ghost use Rattle.wasm_types_values.specs.Spelled.{Spelled};
    ghost use Rattle.wasm_types_values.specs.HeapLaws.{decides-heap_type};

    ghost Value = { TheType };

    ghost view = { λ ty. ty };

    ghost decoder = { λ z. heap_type };

    ghost grammar = { λ z. Spelled };

    ghost takes_memory = { false };

    ghost lawful = { λ z. lawful-heap_type };

    ghost exact = { λ z. decides-heap_type };

    fn from_reader(_alloc: Global, reader: &mut BinaryReader<'a>) -> Result<HeapType>
        ensures answer { Gives (λ ty. ty) result reader.new (heap_type reader.old) }
        ensures forward { Reaches reader.old reader.new }
        ensures no_memory { NeedsNoMemory result }
    {
        read_heap_type(
            Words::InvalidHeapType,
            Words::InvalidAbstractHeapType,
            reader,
        )
    }
}

// A heap type. What is none is refused with the first message, and behind the mark of a shared one with the second.
#[tactic(auto, using(wasm_types_reader::specs::Laws::reaches_self, wasm_types_reader::specs::Laws::reaches_then), unfolding(crate::specs::Decode::heap_type, crate::specs::Decode::heap_type_after))]
pub(crate) fn read_heap_type<'a>(
    message: Words,
    shared_message: Words,
    reader: &mut BinaryReader<'a>,
) -> Result<HeapType>
    ensures answer { Gives (λ ty. ty) result reader.new (heap_type reader.old) }
    ensures forward { Reaches reader.old reader.new }
    ensures no_memory { NeedsNoMemory result }
{
    let first = reader.peek()?;
    if first < 0x40 || first > 0x7f {
        return read_concrete(message, reader);
    }
    let byte = reader.read_u8()?;
    if byte == 0x65 {
        let ty = read_abstract(shared_message, reader)?;
        return Ok(HeapType::Abstract { shared: true, ty });
    }
    if byte == 0x62 {
        return read_exact(reader);
    }
    match abstract_type_of(byte) {
        Some(ty) => Ok(HeapType::Abstract { shared: false, ty }),
        None => Err(Error::new(message, reader.original_position() - 1)),
    }
}
