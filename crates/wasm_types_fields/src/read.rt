//! Fields, functions and continuations from their bytes (WebAssembly 3.0, binary format, types).

ghost use Rattle.wasm_types_values.specs.decoding.Decoder.{Reaches};
ghost use Rattle.wasm_types_values.specs.reader.Reading.{Gives, NeedsNoMemory};
ghost use Rattle.wasm_types_fields.specs.Decode.{field_type, mutability, module_index};

use crate::{ArrayType, ContType, FieldType, FuncType, StructType};
use std::alloc::Global;
use wasm_types_values::{
    BinaryReader, Error, FromReader, PackedIndex, Result, StorageType, Words, index_error,
    read_list,
};

// Whether a field may be written.
#[tactic(auto, using(wasm_types_values::specs::Laws::reaches_self, wasm_types_values::specs::Laws::reaches_then), unfolding(crate::specs::Decode::mutability))]
fn read_mutability<'a>(reader: &mut BinaryReader<'a>) -> Result<bool>
    ensures answer { Gives (λ m. m) result reader.new (mutability reader.old) }
    ensures no_memory { NeedsNoMemory result }
    ensures forward { Reaches reader.old reader.new }
{
    match reader.read_u8()? {
        0x00 => Ok(false),
        0x01 => Ok(true),
        _ => Err(Error::new(
            Words::MalformedMutabilityByteForFieldType,
            reader.original_position(),
        )),
    }
}

impl<'a> FromReader<'a> for FieldType {
    ghost use Rattle.std.specs.Prelude.{false};
    ghost use Rattle.wasm_types_fields.specs.declared.field.FieldType.{FieldType as TheType};
    ghost use Rattle.wasm_types_fields.specs.Spells.{SpelledField};
    ghost use Rattle.wasm_types_fields.specs.DecodeLaws.{lawful-field_type, decides-field_type};

    ghost Value = { TheType };

    ghost view = { λ x. x };

    ghost decoder = { λ z. field_type };

    ghost grammar = { λ z. SpelledField };

    ghost takes_memory = { false };

    ghost lawful = { λ z. lawful-field_type };

    ghost exact = { λ z. decides-field_type };

    #[tactic(auto, using(wasm_types_values::specs::Laws::reaches_self, wasm_types_values::specs::Laws::reaches_then), unfolding(crate::specs::Decode::field_type))]
    fn from_reader(alloc: Global, reader: &mut BinaryReader<'a>) -> Result<FieldType>
        ensures answer { Gives (λ x. x) result reader.new (field_type reader.old) }
        ensures forward { Reaches reader.old reader.new }
        ensures no_memory { NeedsNoMemory result }
    {
        let element_type = StorageType::from_reader(alloc, reader)?;
        let mutable = read_mutability(reader)?;
        Ok(FieldType {
            element_type,
            mutable,
        })
    }
}

impl<'a> FromReader<'a> for ArrayType {
    ghost use Rattle.std.specs.Prelude.{false};
    ghost use Rattle.wasm_types_fields.specs.declared.field.FieldType.{FieldType as TheType};
    ghost use Rattle.wasm_types_fields.specs.Spells.{SpelledField};
    ghost use Rattle.wasm_types_fields.specs.DecodeLaws.{lawful-field_type, decides-field_type};

    ghost Value = { TheType };

    ghost view = { λ a. a.0 };

    ghost decoder = { λ z. field_type };

    ghost grammar = { λ z. SpelledField };

    ghost takes_memory = { false };

    ghost lawful = { λ z. lawful-field_type };

    ghost exact = { λ z. decides-field_type };

    fn from_reader(alloc: Global, reader: &mut BinaryReader<'a>) -> Result<ArrayType>
        ensures answer { Gives (λ a. a.0) result reader.new (field_type reader.old) }
        ensures forward { Reaches reader.old reader.new }
        ensures no_memory { NeedsNoMemory result }
    {
        let element = FieldType::from_reader(alloc, reader)?;
        Ok(ArrayType(element))
    }
}

impl<'a> FromReader<'a> for StructType {
    ghost use Rattle.std.specs.Prelude.{List, true};
    ghost use Rattle.wasm_types_fields.specs.declared.field.FieldType.{FieldType as TheField};
    ghost use Rattle.wasm_types_fields.specs.Decode.{fields};
    ghost use Rattle.wasm_types_fields.specs.Spells.{SpelledFields};
    ghost use Rattle.wasm_types_fields.specs.DecodeLaws.{lawful-fields, decides-fields};

    ghost Value = { List TheField };

    ghost view = { λ s. s.fields.items };

    ghost decoder = { fields };

    ghost grammar = { SpelledFields };

    ghost takes_memory = { true };

    ghost lawful = { lawful-fields };

    ghost exact = { decides-fields };

    #[tactic(auto, using(wasm_types_values::specs::Laws::reaches_self, wasm_types_values::specs::Laws::reaches_then), unfolding(crate::specs::Decode::fields))]
    fn from_reader(alloc: Global, reader: &mut BinaryReader<'a>) -> Result<StructType> {
        let limit = reader.limits().fields as usize;
        let fields = read_list(alloc, limit, Words::StructFields, reader)?;
        Ok(StructType { fields })
    }
}

impl<'a> FromReader<'a> for FuncType {
    ghost use Rattle.std.specs.Prelude.{true};
    ghost use Rattle.wasm_types_fields.specs.Decode.{signature};
    ghost use Rattle.wasm_types_fields.specs.Signatures.{Signature};
    ghost use Rattle.wasm_types_fields.specs.Spells.{SpelledSignature};
    ghost use Rattle.wasm_types_fields.specs.DecodeLaws.{lawful-signature, decides-signature};

    ghost Value = { Signature };

    ghost view = { λ f. f };

    ghost decoder = { signature };

    ghost grammar = { SpelledSignature };

    ghost takes_memory = { true };

    ghost lawful = { lawful-signature };

    ghost exact = { decides-signature };

    #[tactic(auto, using(wasm_types_values::specs::Laws::reaches_self, wasm_types_values::specs::Laws::reaches_then), unfolding(crate::specs::Decode::signature))]
    fn from_reader(alloc: Global, reader: &mut BinaryReader<'a>) -> Result<FuncType> {
        let limits = reader.limits();
        let params = read_list(alloc, limits.params as usize, Words::FunctionParams, reader)?;
        let results = read_list(
            alloc,
            limits.results as usize,
            Words::FunctionReturns,
            reader,
        )?;
        let function = FuncType::of_lists(alloc, params.as_slice(), results.as_slice())?;
        Ok(function)
    }
}

/// A type of the module by its index, which is below 2^20 (WebAssembly 3.0, binary format, indices). A larger one is refused
/// behind it.
#[tactic(auto, using(wasm_types_values::specs::Laws::reaches_self, wasm_types_values::specs::Laws::reaches_then), unfolding(crate::specs::Decode::module_index))]
pub fn read_index<'a>(reader: &mut BinaryReader<'a>) -> Result<PackedIndex>
    ensures answer { Gives (λ i. i) result reader.new (module_index reader.old) }
    ensures no_memory { NeedsNoMemory result }
    ensures forward { Reaches reader.old reader.new }
{
    let index = reader.read_var_u32()?;
    match PackedIndex::from_module_index(index) {
        Some(index) => Ok(index),
        None => Err(index_error(reader.original_position())),
    }
}

impl<'a> FromReader<'a> for ContType {
    ghost use Rattle.std.specs.Prelude.{false};
    ghost use Rattle.wasm_types_values.specs.types_trees.declared.index.UnpackedIndex.{UnpackedIndex};
    ghost use Rattle.wasm_types_fields.specs.Spells.{SpelledIndex};
    ghost use Rattle.wasm_types_fields.specs.DecodeLaws.{lawful-module_index, decides-module_index};

    ghost Value = { UnpackedIndex };

    ghost view = { λ c. c.0 };

    ghost decoder = { λ z. module_index };

    ghost grammar = { λ z. SpelledIndex };

    ghost takes_memory = { false };

    ghost lawful = { λ z. lawful-module_index };

    ghost exact = { λ z. decides-module_index };

    fn from_reader(_alloc: Global, reader: &mut BinaryReader<'a>) -> Result<ContType>
        ensures answer { Gives (λ c. c.0) result reader.new (module_index reader.old) }
        ensures forward { Reaches reader.old reader.new }
        ensures no_memory { NeedsNoMemory result }
    {
        let index = read_index(reader)?;
        Ok(ContType(index))
    }
}
