//! Laws of globals, tables and data segments, each the contract of a function that does nothing.

ghost use Rattle.wasm_types.specs.settings.Settings.{Settings};
ghost use Rattle.wasm_types.specs.decoding.Decoder.{IsLawful, Decides};
ghost use Rattle.wasm_sections_items.specs.segments.Spells.{SpelledGlobalItem, SpelledData};
ghost use Rattle.wasm_sections_items.specs.segments.Decode.{global, data_segment};
ghost use Rattle.wasm_sections_items.specs.segments.Tables.{SpelledTableItem, table};
ghost use Rattle.wasm_sections_items.specs.segments.Worked.{GlobalRows, DataRows, TableRows};

use wasm_types::FromReader;

/// Whatever constant expressions are read from bytes: a value and a fault stay whatever bytes follow, an end of data needs
/// exactly as many bytes as are missing, and a value is read exactly if a front of the bytes spells one.
pub fn items_are_lawful<'a, E: FromReader<'a>>()
    ensures globals { (z : Settings) → IsLawful (global (E.decoder z))
        × Decides (global (E.decoder z)) (SpelledGlobalItem (E.grammar z)) }
    ensures tables { (z : Settings) → IsLawful (table (E.decoder z))
        × Decides (table (E.decoder z)) (SpelledTableItem (E.grammar z)) }
    ensures segments { (z : Settings) → IsLawful (data_segment (E.decoder z))
        × Decides (data_segment (E.decoder z)) (SpelledData (E.grammar z)) }
{}

/// Worked bytes: globals, tables, each flag of a data segment, and what is refused.
#[tactic(auto, using(crate::specs::segments::Worked::global_rows, crate::specs::segments::Worked::data_rows, crate::specs::segments::Worked::table_rows))]
pub const fn items_are_worked()
    ensures globals { GlobalRows }
    ensures tables { TableRows }
    ensures segments { DataRows }
{}
