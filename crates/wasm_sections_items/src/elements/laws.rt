//! Laws of element segments, each the contract of a function that does nothing.

ghost use Rattle.std.specs.Prelude.{◌≡◌, Some};
ghost use Rattle.wasm_types.specs.settings.Settings.{Settings};
ghost use Rattle.wasm_types.specs.decoding.Decoder.{IsLawful, Decides};
ghost use Rattle.wasm_sections_items.specs.declared.elements.element.ElementOf.{ElementOf};
ghost use Rattle.wasm_sections_items.specs.elements.Spells.{ElementTree, SpelledElement};
ghost use Rattle.wasm_sections_items.specs.elements.Decode.{element};
ghost use Rattle.wasm_sections_items.specs.elements.Elements.{tree_of, GivesItems};
ghost use Rattle.wasm_sections_items.specs.elements.Worked.{ElementRows};

use wasm_types::FromReader;

/// Whatever constant expressions are read from bytes: a value and a fault stay whatever bytes follow, an end of data needs
/// exactly as many bytes as are missing, and a segment is read exactly if a front of the bytes spells it.
pub fn elements_are_lawful<'a, E: FromReader<'a>>()
    ensures { (z : Settings) → IsLawful (element (E.decoder z))
        × Decides (element (E.decoder z)) (SpelledElement (E.grammar z)) }
{}

/// Walks over the readers of a segment that has this tree give its elements and no error, out of memory aside.
pub fn elements_are_whole<'a, E: FromReader<'a>>()
    ensures { (x : ElementOf E) (t : ElementTree E.Value) → tree_of E.view E.decoder x ≡ Some t
        → GivesItems E.decoder x.items t.items }
{}

/// Worked bytes: each flag, and what is refused.
#[tactic(auto, using(crate::specs::elements::Worked::element_rows))]
pub const fn elements_are_worked()
    ensures { ElementRows }
{}
