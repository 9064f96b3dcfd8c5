//! Reading element segments.

ghost use Rattle.std.specs.Prelude.{◌≡◌, ◌<◌, IfOk};
ghost use Rattle.wasm_types.specs.decoding.Decoder.{Reaches};
ghost use Rattle.wasm_types.specs.reader.Reading.{Gives, MemoryOnlyIf, NeedsNoMemory};
ghost use Rattle.wasm_sections_items.specs.elements.Decode.{mode_by, kind_by, type_by, functions_by, expressions_by, element, segment};
ghost use Rattle.wasm_sections_items.specs.elements.Elements.{mode_of, items_of, HoldsItems, tree_of};

use crate::elements::items::read_section;
use crate::elements::{ElementItemsOf, ElementKindOf, ElementOf};
use std::alloc::Global;
use std::ops::Range;
use wasm_types::{BinaryReader, Error, FromReader, RefType, Result, Words};

// How a segment is used, by the two low bits of its flag: for 0 an offset, for 2 a table and an offset.
#[tactic(auto, using(wasm_types::specs::Laws::reaches_self, wasm_types::specs::Laws::reaches_then), unfolding(crate::specs::elements::Decode::mode_by))]
fn read_kind<'a, E: FromReader<'a>>(
    bits: u32,
    alloc: Global,
    reader: &mut BinaryReader<'a>,
) -> Result<ElementKindOf<E>>
    ensures answer { Gives (mode_of E.view) result reader.new
        (mode_by (E.decoder reader.old.settings) bits reader.old) }
    ensures memory { MemoryOnlyIf E.takes_memory result }
    ensures forward { Reaches reader.old reader.new }
{
    if bits == 1 {
        return Ok(ElementKindOf::Passive);
    }
    if bits == 3 {
        return Ok(ElementKindOf::Declared);
    }
    if bits == 0 {
        let offset_expr = E::from_reader(alloc, reader)?;
        return Ok(ElementKindOf::Active {
            table_index: None,
            offset_expr,
        });
    }
    let table = reader.read_var_u32()?;
    let offset_expr = E::from_reader(alloc, reader)?;
    Ok(ElementKindOf::Active {
        table_index: Some(table),
        offset_expr,
    })
}

// The kind of the elements, which is not written where the bits are 0.
#[tactic(auto, using(wasm_types::specs::Laws::reaches_self, wasm_types::specs::Laws::reaches_then), unfolding(crate::specs::elements::Decode::kind_by))]
fn read_element_kind<'a>(bits: u32, reader: &mut BinaryReader<'a>) -> Result<()>
    ensures answer { Gives (λ u. u) result reader.new (kind_by bits reader.old) }
    ensures no_memory { NeedsNoMemory result }
    ensures forward { Reaches reader.old reader.new }
{
    if bits == 0 {
        return Ok(());
    }
    let offset = reader.original_position();
    let kind = reader.read_u8()?;
    if kind != 0 {
        return Err(Error::new(
            Words::OnlyTheFunctionExternalTypeIsSupportedInElemSegment,
            offset,
        ));
    }
    Ok(())
}

// The type of the elements, which is not written where the bits are 0.
#[tactic(auto, using(wasm_types::specs::Laws::reaches_self, wasm_types::specs::Laws::reaches_then), unfolding(crate::specs::elements::Decode::type_by))]
fn read_element_type<'a>(bits: u32, alloc: Global, reader: &mut BinaryReader<'a>) -> Result<RefType>
    ensures answer { Gives (λ r. r) result reader.new (type_by bits reader.old) }
    ensures no_memory { NeedsNoMemory result }
    ensures forward { Reaches reader.old reader.new }
{
    if bits == 0 {
        return Ok(RefType::FUNCREF);
    }
    RefType::from_reader(alloc, reader)
}

// The functions of a segment that is used so, and begins at `start`.
#[tactic(auto, using(wasm_types::specs::Laws::reaches_self, wasm_types::specs::Laws::reaches_then), unfolding(crate::specs::elements::Decode::functions_by))]
fn read_functions<'a, E: FromReader<'a>>(
    bits: u32,
    kind: ElementKindOf<E>,
    start: u64,
    alloc: Global,
    reader: &mut BinaryReader<'a>,
) -> Result<ElementOf<'a, E>>
    ensures answer { Gives (λ x. record { mode = mode_of E.view x.kind; items = items_of E.decoder x.items }) result
        reader.new (functions_by bits (mode_of E.view kind) reader.old) }
    ensures range { IfOk result (λ x. x.range ≡ record { start = start; end = reader.new.place }) }
    ensures items { IfOk result (λ x. HoldsItems E.decoder reader.new x.items) }
    ensures no_memory { NeedsNoMemory result }
    ensures forward { Reaches reader.old reader.new }
{
    read_element_kind(bits, reader)?;
    let functions = read_section::<u32>(alloc, reader)?;
    let range = Range {
        start,
        end: reader.original_position(),
    };
    Ok(ElementOf {
        kind,
        items: ElementItemsOf::Functions(functions),
        range,
    })
}

// The expressions of a segment that is used so, and begins at `start`.
#[tactic(auto, using(wasm_types::specs::Laws::reaches_self, wasm_types::specs::Laws::reaches_then), unfolding(crate::specs::elements::Decode::expressions_by))]
fn read_expressions<'a, E: FromReader<'a>>(
    bits: u32,
    kind: ElementKindOf<E>,
    start: u64,
    alloc: Global,
    reader: &mut BinaryReader<'a>,
) -> Result<ElementOf<'a, E>>
    ensures answer { Gives (λ x. record {
      mode = mode_of E.view x.kind;
      items =
          items_of E.decoder x.items;
    }) result reader.new (expressions_by (E.decoder reader.old.settings) bits (mode_of E.view kind) reader.old) }
    ensures range { IfOk result (λ x. x.range ≡ record { start = start; end = reader.new.place }) }
    ensures items { IfOk result (λ x. HoldsItems E.decoder reader.new x.items) }
    ensures memory { MemoryOnlyIf E.takes_memory result }
    ensures forward { Reaches reader.old reader.new }
{
    let ty = read_element_type(bits, alloc, reader)?;
    let expressions = read_section::<E>(alloc, reader)?;
    let range = Range {
        start,
        end: reader.original_position(),
    };
    Ok(ElementOf {
        kind,
        items: ElementItemsOf::Expressions(ty, expressions),
        range,
    })
}

// A flag and what follows it.
#[tactic(auto, using(wasm_types::specs::Laws::reaches_self, wasm_types::specs::Laws::reaches_then), unfolding(crate::specs::elements::Decode::element))]
fn read_element<'a, E: FromReader<'a>>(
    alloc: Global,
    reader: &mut BinaryReader<'a>,
) -> Result<ElementOf<'a, E>>
    ensures answer { Gives (λ x. record { mode = mode_of E.view x.kind; items = items_of E.decoder x.items }) result
        reader.new (element (E.decoder reader.old.settings) reader.old) }
    ensures memory { MemoryOnlyIf E.takes_memory result }
    ensures forward { Reaches reader.old reader.new }
    ensures range { IfOk result (λ x. x.range ≡ record { start = reader.old.place; end = reader.new.place }) }
    ensures items { IfOk result (λ x. HoldsItems E.decoder reader.new x.items) }
{
    let start = reader.original_position();
    let flag = reader.read_var_u32()?;
    if flag > 7 {
        let place = reader.original_position().saturating_sub(1);
        return Err(Error::new(Words::InvalidFlagsByteInElementSegment, place));
    }
    if flag < 4 {
        let kind = read_kind(flag, alloc, reader)?;
        return read_functions(flag, kind, start, alloc, reader);
    }
    let kind = read_kind(flag - 4, alloc, reader)?;
    read_expressions(flag - 4, kind, start, alloc, reader)
}

/// A flag; for 0, 2, 4 and 6 an offset, behind the index of a table for 2 and 6; but for 0 and 4 the kind of the elements, or
/// for 5 to 7 their type; the elements, which are expressions for 4 to 7. A flag above 7 is refused at its last byte. A walk over
/// the elements of a segment that was read gives them, and no error (`laws::elements_are_whole`).
impl<'a, E: FromReader<'a>> FromReader<'a> for ElementOf<'a, E> {
    ghost use Rattle.std.specs.Prelude.{Option};
    ghost use Rattle.wasm_sections_items.specs.elements.Spells.{ElementTree, SpelledSegment};
    ghost use Rattle.wasm_sections_items.specs.elements.DecodeLaws.{lawful-segment, decides-segment};

    ghost Value = { Option (ElementTree E.Value) };

    ghost view = { tree_of E.view E.decoder };

    ghost decoder = { λ z. segment (E.decoder z) };

    ghost grammar = { λ z. SpelledSegment (E.grammar z) };

    ghost takes_memory = { E.takes_memory };

    ghost lawful = { λ z. lawful-segment (E.decoder z) (E.lawful z) };

    ghost exact = { λ z. decides-segment (E.decoder z) (E.grammar z) (E.exact z) };

    fn from_reader(alloc: Global, reader: &mut BinaryReader<'a>) -> Result<ElementOf<'a, E>>
        ensures answer { Gives (tree_of E.view E.decoder) result reader.new
            (segment (E.decoder reader.old.settings) reader.old) }
        ensures memory { MemoryOnlyIf E.takes_memory result }
        ensures forward { Reaches reader.old reader.new }
        ensures range { IfOk result (λ x. x.range ≡ record { start = reader.old.place; end = reader.new.place }) }
        ensures items { IfOk result (λ x. HoldsItems E.decoder reader.new x.items) }
    {
        read_element(alloc, reader)
    }
}
