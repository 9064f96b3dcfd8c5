//! Recursion groups from their bytes (WebAssembly 3.0, binary format, types).

ghost use Rattle.std.specs.Prelude.{◌≡◌, ◌∷◌, [], length, map, true, IfOk};
ghost use Rattle.wasm_types_decoding.specs.Decoder.{Done, Reaches, repeated};
ghost use Rattle.wasm_types_reader.specs.Reading.{Gives};
ghost use Rattle.wasm_types.specs.SpellsTypes.{sub_value, group_value};
ghost use Rattle.wasm_types.specs.DecodeTypes.{sub_type, explicit_group};
ghost use Rattle.wasm_types.specs.Places.{place_of, places};

use crate::read_types::sub_after_byte;
use crate::{RecGroup, SubType};
use std::alloc::Global;
use wasm_types_fields::{BinaryReader, FromReader, Result, Words};

// As many subtypes as are asked for, and their offsets. The lists grow as they are read.
#[tactic(auto, using(wasm_types_fields::specs::Laws::reaches_self, wasm_types_fields::specs::Laws::reaches_then))]
fn read_subtypes<'a>(
    alloc: Global,
    count: usize,
    reader: &mut BinaryReader<'a>,
) -> Result<(Vec<SubType>, Vec<u64>)>
    ensures answer { Gives (λ p. map sub_value p.0.items) result reader.new
        (repeated count (sub_type reader.old.settings) reader.old) }
    ensures places { IfOk result (λ p. repeated count (place_of (sub_type reader.old.settings)) reader.old
        ≡ Done p.1.items reader.new) }
    ensures even { IfOk result (λ p. length p.0.items ≡ length p.1.items) }
    ensures forward { Reaches reader.old reader.new }
{
    let mut types = Vec::new(alloc);
    let mut offsets = Vec::new(alloc);
    for _ in 0..count {
        let offset = reader.original_position();
        let ty = reader.read::<SubType>(alloc)?;
        types.push(ty)?;
        offsets.push(offset)?;
    }
    Ok((types, offsets))
}

// The subtypes of a group that was written as one.
#[tactic(auto, using(wasm_types_fields::specs::Laws::reaches_self, wasm_types_fields::specs::Laws::reaches_then), unfolding(crate::specs::DecodeTypes::explicit_group, crate::specs::Places::places, wasm_types_fields::specs::Laws::listed_within))]
fn read_explicit<'a>(alloc: Global, reader: &mut BinaryReader<'a>) -> Result<RecGroup>
    ensures answer { Gives group_value result reader.new (explicit_group reader.old.settings reader.old) }
    ensures places { IfOk result (λ g. places reader.old.settings reader.old ≡ Done g.offsets.items reader.new) }
    ensures forward { Reaches reader.old reader.new }
{
    let count = reader.read_size(reader.limits().types as usize, Words::RecGroupTypes)?;
    let (types, offsets) = read_subtypes(alloc, count, reader)?;
    Ok(RecGroup::explicit(types, offsets))
}

impl<'a> FromReader<'a> for RecGroup {
    ghost use Rattle.std.specs.Prelude.{true};
    ghost use Rattle.wasm_types.specs.SpellsTypes.{GroupValue, SpelledGroup};
    ghost use Rattle.wasm_types.specs.DecodeTypes.{rec_group};
    ghost use Rattle.wasm_types.specs.Places.{group_places};
    ghost use Rattle.wasm_types.specs.TypeLaws.{lawful-rec_group, decides-rec_group};

    ghost Value = { GroupValue };

    ghost view = { group_value };

    ghost decoder = { rec_group };

    ghost grammar = { SpelledGroup };

    ghost takes_memory = { true };

    ghost lawful = { lawful-rec_group };

    ghost exact = { decides-rec_group };

    #[tactic(auto, using(wasm_types_fields::specs::Laws::reaches_self, wasm_types_fields::specs::Laws::reaches_then, wasm_types_fields::specs::Laws::beyond_0), unfolding(crate::specs::DecodeTypes::rec_group, crate::specs::DecodeTypes::group_after, crate::specs::Places::group_places))]
    fn from_reader(alloc: Global, reader: &mut BinaryReader<'a>) -> Result<RecGroup>
        ensures answer { Gives group_value result reader.new (rec_group reader.old.settings reader.old) }
        ensures forward { Reaches reader.old reader.new }
        ensures places { IfOk result (λ g. group_places reader.old.settings reader.old
            ≡ Done g.offsets.items reader.new) }
    {
        let offset = reader.original_position();
        let byte = reader.read_u8()?;
        if byte == 0x4e {
            return read_explicit(alloc, reader);
        }
        let ty = sub_after_byte(byte, alloc, reader)?;
        let group = RecGroup::implicit(alloc, offset, ty)?;
        Ok(group)
    }
}
