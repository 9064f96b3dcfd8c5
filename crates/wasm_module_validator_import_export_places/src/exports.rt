//! All exports of a module.

ghost use Rattle.std.specs.Prelude.{◌≤◌, length, IfSome};
ghost use Rattle.wasm_module_validator_import_export_places.specs.Entries.{ExportWithin, First};
ghost use Rattle.wasm_module_validator_import_export_places.specs.Listing.{ListsExports, ListsFrom, AreExports, WritesExports};

use crate::entries::export_at;
use crate::names::number_at;
use crate::rows::{ExportRow, put_export};
use crate::sections::{Section, section_of};
use std::alloc::Global;

/// The id of the export section.
const EXPORTS: u8 = 7;

/// Writes the exports of the module that these bytes spell, as many as there are rows for, and answers how many there are. None only if
/// the bytes spell no module. Of whatever bytes, the names of the rows that were written lie in them.
pub fn list_exports(alloc: Global, bytes: &[u8], rows: &mut [ExportRow]) -> Option<u32>
    ensures listed { ListsExports bytes.now result rows.new }
    ensures within { IfSome result (λ n. First (ExportWithin bytes.now) n rows.new) }
{
    match section_of(bytes, EXPORTS) {
        Section::Broken => None,
        Section::Absent => Some(0),
        Section::At(start) => exports_from(alloc, bytes, start, rows),
    }
}

// The same, of the section's contents.
fn exports_from(alloc: Global, bytes: &[u8], start: usize, rows: &mut [ExportRow]) -> Option<u32>
    requires { start ≤ length bytes.now }
    ensures listed { ListsFrom AreExports WritesExports bytes.now start result rows.new }
    ensures within { IfSome result (λ n. First (ExportWithin bytes.now) n rows.new) }
{
    let Some((count, first)) = number_at(bytes, start) else {
        return None;
    };
    let mut at = first;
    for place in 0..count {
        let Some((row, end)) = export_at(alloc, bytes, at) else {
            return None;
        };
        put_export(rows, place as usize, row);
        at = end;
    }
    Some(count)
}
