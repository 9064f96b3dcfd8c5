//! Composite types and subtypes from their bytes (WebAssembly 3.0, binary format, types).
//!
//! Each function reads what follows a byte that was read, and stands for one decoder of `specs/DecodeTypes.antt`.

ghost use Rattle.std.specs.Prelude.{◌≡◌, ◌<◌, Bool, true, false, Option, Some, None, IsTrue};
ghost use Rattle.std.specs.Option.{is_some};
ghost use Rattle.wasm_types_decoding.specs.Decoder.{Reaches, repeated};
ghost use Rattle.wasm_types_decoding.specs.declared.error.ErrorKind.TheVariants.{Other};
ghost use Rattle.wasm_types_reader.specs.Reading.{Gives};
ghost use Rattle.wasm_types.specs.SpellsTypes.{inner_value, composite_value, sub_value, marked};
ghost use Rattle.wasm_types_fields.specs.Decode.{module_index};
ghost use Rattle.wasm_types.specs.DecodeTypes.{inner_after, last_after, descriptor_after, describes_after, composite_after, sub_after, supertypes, declared_sub};

use crate::{CompositeInnerType, CompositeType, SubType};
use std::alloc::Global;
use wasm_types_fields::limits::MAX_WASM_SUPERTYPES;
use wasm_types_fields::{
    ArrayType, BinaryReader, ContType, Error, FromReader, FuncType, PackedIndex, Result,
    StructType, Text, Words, read_index,
};

// The error of a byte that begins no type.
#[cold]
fn leading_byte_error(byte: u8, offset: u64) -> Error
    ensures kind { result.kind ≡ Other }
    ensures offset { result.offset ≡ offset }
{
    Error::with(
        Text::Hex(Words::InvalidLeadingByte0x, byte as u32, Words::ForType),
        offset,
    )
}

// The type itself.
#[tactic(auto, using(wasm_types_fields::specs::Laws::reaches_self, wasm_types_fields::specs::Laws::reaches_then), unfolding(crate::specs::DecodeTypes::inner_after))]
fn inner_after_byte<'a>(
    byte: u8,
    alloc: Global,
    reader: &mut BinaryReader<'a>,
) -> Result<CompositeInnerType>
    requires { 0 < reader.old.place }
    ensures answer { Gives inner_value result reader.new (inner_after reader.old.settings byte reader.old) }
    ensures forward { Reaches reader.old reader.new }
{
    match byte {
        0x60 => {
            let ty = FuncType::from_reader(alloc, reader)?;
            Ok(CompositeInnerType::Func(ty))
        }
        0x5e => {
            let ty = ArrayType::from_reader(alloc, reader)?;
            Ok(CompositeInnerType::Array(ty))
        }
        0x5f => {
            let ty = StructType::from_reader(alloc, reader)?;
            Ok(CompositeInnerType::Struct(ty))
        }
        0x5d => {
            let ty = ContType::from_reader(alloc, reader)?;
            Ok(CompositeInnerType::Cont(ty))
        }
        _ => Err(leading_byte_error(byte, reader.original_position() - 1)),
    }
}

// The type, with what was read before it.
#[tactic(auto, using(wasm_types_fields::specs::Laws::reaches_self, wasm_types_fields::specs::Laws::reaches_then), unfolding(crate::specs::DecodeTypes::last_after))]
fn last_after_byte<'a>(
    shared: bool,
    describes_idx: Option<PackedIndex>,
    descriptor_idx: Option<PackedIndex>,
    byte: u8,
    alloc: Global,
    reader: &mut BinaryReader<'a>,
) -> Result<CompositeType>
    requires { 0 < reader.old.place }
    ensures answer { Gives composite_value result reader.new (last_after reader.old.settings
        (marked shared) describes_idx descriptor_idx byte reader.old) }
    ensures forward { Reaches reader.old reader.new }
{
    let inner = inner_after_byte(byte, alloc, reader)?;
    Ok(CompositeType {
        inner,
        shared,
        descriptor_idx,
        describes_idx,
    })
}

// Its descriptor, if one is named.
#[tactic(auto, using(wasm_types_fields::specs::Laws::reaches_self, wasm_types_fields::specs::Laws::reaches_then, wasm_types_fields::specs::Laws::beyond_0), unfolding(crate::specs::DecodeTypes::descriptor_after))]
fn descriptor_after_byte<'a>(
    shared: bool,
    describes_idx: Option<PackedIndex>,
    byte: u8,
    alloc: Global,
    reader: &mut BinaryReader<'a>,
) -> Result<CompositeType>
    requires { 0 < reader.old.place }
    ensures answer { Gives composite_value result reader.new (descriptor_after reader.old.settings
        (marked shared) describes_idx byte reader.old) }
    ensures forward { Reaches reader.old reader.new }
{
    if byte == 0x4d {
        let index = read_index(reader)?;
        let next = reader.read_u8()?;
        return last_after_byte(shared, describes_idx, Some(index), next, alloc, reader);
    }
    last_after_byte(shared, describes_idx, None, byte, alloc, reader)
}

// The type that it describes, if one is named.
#[tactic(auto, using(wasm_types_fields::specs::Laws::reaches_self, wasm_types_fields::specs::Laws::reaches_then, wasm_types_fields::specs::Laws::beyond_0), unfolding(crate::specs::DecodeTypes::describes_after))]
fn describes_after_byte<'a>(
    shared: bool,
    byte: u8,
    alloc: Global,
    reader: &mut BinaryReader<'a>,
) -> Result<CompositeType>
    requires { 0 < reader.old.place }
    ensures answer { Gives composite_value result reader.new (describes_after reader.old.settings
        (marked shared) byte reader.old) }
    ensures forward { Reaches reader.old reader.new }
{
    if byte == 0x4c {
        let index = read_index(reader)?;
        let next = reader.read_u8()?;
        return descriptor_after_byte(shared, Some(index), next, alloc, reader);
    }
    descriptor_after_byte(shared, None, byte, alloc, reader)
}

// What is said of it, and the type itself.
#[inline(always)]
#[tactic(auto, using(wasm_types_fields::specs::Laws::reaches_self, wasm_types_fields::specs::Laws::reaches_then, wasm_types_fields::specs::Laws::beyond_0), unfolding(crate::specs::DecodeTypes::composite_after, crate::specs::DecodeTypes::describes_after, crate::specs::DecodeTypes::descriptor_after))]
fn composite_after_byte<'a>(
    byte: u8,
    alloc: Global,
    reader: &mut BinaryReader<'a>,
) -> Result<CompositeType>
    requires { 0 < reader.old.place }
    ensures answer { Gives composite_value result reader.new (composite_after reader.old.settings byte reader.old) }
    ensures forward { Reaches reader.old reader.new }
{
    if is_marked(byte) {
        return marked_after_byte(byte, alloc, reader);
    }
    last_after_byte(false, None, None, byte, alloc, reader)
}

// Whether something is said of a type before it.
#[inline(always)]
fn is_marked(byte: u8) -> bool
    ensures { result ≡ false → (byte ≡ 0x65 → ⊥) × (byte ≡ 0x4c → ⊥) × (byte ≡ 0x4d → ⊥) }
{
    byte == 0x65 || byte == 0x4c || byte == 0x4d
}

// The same, if something is said of it.
#[inline(never)]
#[tactic(auto, using(wasm_types_fields::specs::Laws::reaches_self, wasm_types_fields::specs::Laws::reaches_then, wasm_types_fields::specs::Laws::beyond_0), unfolding(crate::specs::DecodeTypes::composite_after))]
fn marked_after_byte<'a>(
    byte: u8,
    alloc: Global,
    reader: &mut BinaryReader<'a>,
) -> Result<CompositeType>
    requires { 0 < reader.old.place }
    ensures answer { Gives composite_value result reader.new (composite_after reader.old.settings byte reader.old) }
    ensures forward { Reaches reader.old reader.new }
{
    if byte == 0x65 {
        let next = reader.read_u8()?;
        return describes_after_byte(true, next, alloc, reader);
    }
    describes_after_byte(false, byte, alloc, reader)
}

impl<'a> FromReader<'a> for CompositeType {
    ghost use Rattle.std.specs.Prelude.{true};
    ghost use Rattle.wasm_types.specs.SpellsTypes.{CompositeValue, SpelledComposite};
    ghost use Rattle.wasm_types.specs.DecodeTypes.{composite};
    ghost use Rattle.wasm_types.specs.TypeLaws.{lawful-composite, decides-composite};

    ghost Value = { CompositeValue };

    ghost view = { composite_value };

    ghost decoder = { composite };

    ghost grammar = { SpelledComposite };

    ghost takes_memory = { true };

    ghost lawful = { lawful-composite };

    ghost exact = { decides-composite };

    #[tactic(auto, using(wasm_types_fields::specs::Laws::reaches_self, wasm_types_fields::specs::Laws::reaches_then, wasm_types_fields::specs::Laws::beyond_0), unfolding(crate::specs::DecodeTypes::composite))]
    fn from_reader(alloc: Global, reader: &mut BinaryReader<'a>) -> Result<CompositeType> {
        let byte = reader.read_u8()?;
        composite_after_byte(byte, alloc, reader)
    }
}

// One index, as a list.
#[tactic(auto, using(wasm_types_fields::specs::Laws::reaches_self, wasm_types_fields::specs::Laws::reaches_then), unfolding(wasm_types_fields::specs::Laws::repeated))]
fn read_one<'a>(alloc: Global, reader: &mut BinaryReader<'a>) -> Result<Vec<PackedIndex>>
    ensures answer { Gives (λ v. v.items) result reader.new (repeated 1 module_index reader.old) }
    ensures forward { Reaches reader.old reader.new }
{
    let mut indices = Vec::new(alloc);
    let index = read_index(reader)?;
    indices.push(index)?;
    Ok(indices)
}

// The declared supertypes, of which there is at most one.
#[tactic(auto, using(wasm_types_fields::specs::Laws::reaches_self, wasm_types_fields::specs::Laws::reaches_then, crate::proofs::Counts::only_one), unfolding(crate::specs::DecodeTypes::supertypes, wasm_types_fields::specs::Laws::listed_within))]
fn read_supertypes<'a>(alloc: Global, reader: &mut BinaryReader<'a>) -> Result<Vec<PackedIndex>>
    ensures answer { Gives (λ v. v.items) result reader.new (supertypes reader.old) }
    ensures forward { Reaches reader.old reader.new }
{
    let count = reader.read_size(MAX_WASM_SUPERTYPES, Words::SupertypeIdxs)?;
    if count == 0 {
        return Ok(Vec::new(alloc));
    }
    read_one(alloc, reader)
}

// The supertypes and the composite type.
#[tactic(auto, using(wasm_types_fields::specs::Laws::reaches_self, wasm_types_fields::specs::Laws::reaches_then), unfolding(crate::specs::DecodeTypes::declared_sub))]
fn read_declared<'a>(
    is_final: bool,
    alloc: Global,
    reader: &mut BinaryReader<'a>,
) -> Result<SubType>
    ensures answer { Gives sub_value result reader.new (declared_sub reader.old.settings is_final reader.old) }
    ensures forward { Reaches reader.old reader.new }
{
    let supertype_idxs = read_supertypes(alloc, reader)?;
    let composite_type = CompositeType::from_reader(alloc, reader)?;
    Ok(SubType {
        is_final,
        supertype_idxs,
        composite_type,
    })
}

// A subtype.
#[tactic(auto, using(wasm_types_fields::specs::Laws::reaches_self, wasm_types_fields::specs::Laws::reaches_then), unfolding(crate::specs::DecodeTypes::sub_after))]
pub(crate) fn sub_after_byte<'a>(
    byte: u8,
    alloc: Global,
    reader: &mut BinaryReader<'a>,
) -> Result<SubType>
    requires { 0 < reader.old.place }
    ensures answer { Gives sub_value result reader.new (sub_after reader.old.settings byte reader.old) }
    ensures forward { Reaches reader.old reader.new }
{
    if byte == 0x50 {
        return read_declared(false, alloc, reader);
    }
    if byte == 0x4f {
        return read_declared(true, alloc, reader);
    }
    let composite_type = composite_after_byte(byte, alloc, reader)?;
    Ok(SubType {
        is_final: true,
        supertype_idxs: Vec::new(alloc),
        composite_type,
    })
}

impl<'a> FromReader<'a> for SubType {
    ghost use Rattle.std.specs.Prelude.{true};
    ghost use Rattle.wasm_types.specs.SpellsTypes.{SubValue, SpelledSub};
    ghost use Rattle.wasm_types.specs.DecodeTypes.{sub_type};
    ghost use Rattle.wasm_types.specs.TypeLaws.{lawful-sub_type, decides-sub_type};

    ghost Value = { SubValue };

    ghost view = { sub_value };

    ghost decoder = { sub_type };

    ghost grammar = { SpelledSub };

    ghost takes_memory = { true };

    ghost lawful = { lawful-sub_type };

    ghost exact = { decides-sub_type };

    #[tactic(auto, using(wasm_types_fields::specs::Laws::reaches_self, wasm_types_fields::specs::Laws::reaches_then, wasm_types_fields::specs::Laws::beyond_0), unfolding(crate::specs::DecodeTypes::sub_type))]
    fn from_reader(alloc: Global, reader: &mut BinaryReader<'a>) -> Result<SubType> {
        let byte = reader.read_u8()?;
        sub_after_byte(byte, alloc, reader)
    }
}
