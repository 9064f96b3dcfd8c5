//! All imports of a module.

ghost use Rattle.std.specs.Prelude.{◌≡◌, ◌+◌, ◌<◌, ◌≤◌, ◌^◌, length, slice_index_or, slice_set, IfSome};
ghost use Rattle.wasm_module_validator_import_export_places.specs.Entries.{ImportWithin, First};
ghost use Rattle.wasm_module_validator_import_export_places.specs.Listing.{ListsImports, ListsFrom, AreImports, WritesImports};

use crate::entries::import_at;
use crate::names::number_at;
use crate::rows::{ImportRow, put_import};
use crate::sections::{Section, section_of};
use std::alloc::Global;

/// The id of the import section.
const IMPORTS: u8 = 2;

/// Writes the imports of the module that these bytes spell, as many as there are rows for, and answers how many there are. None only if
/// the bytes spell no module. Of whatever bytes, the names of the rows that were written lie in them.
pub fn list_imports(alloc: Global, bytes: &[u8], rows: &mut [ImportRow]) -> Option<u32>
    ensures listed { ListsImports bytes.now result rows.new }
    ensures within { IfSome result (λ n. First (ImportWithin bytes.now) n rows.new) }
{
    match section_of(bytes, IMPORTS) {
        Section::Broken => None,
        Section::Absent => Some(0),
        Section::At(start) => imports_from(alloc, bytes, start, rows),
    }
}

// The index that the next of a kind gets: how many of its kind there were.
fn next_index(taken: &mut [u32; 5], kind: u32) -> u32
    requires known { kind < 5 }
    requires room { slice_index_or taken.old kind 0 + 1 < 2 ^ 32 }
    ensures index { result ≡ slice_index_or taken.old kind 0 }
    ensures more { taken.new ≡ slice_set taken.old kind (slice_index_or taken.old kind 0 + 1) }
{
    let index = taken[kind as usize];
    taken[kind as usize] = index + 1;
    index
}

// The same, of the section's contents.
fn imports_from(alloc: Global, bytes: &[u8], start: usize, rows: &mut [ImportRow]) -> Option<u32>
    requires { start ≤ length bytes.now }
    ensures listed { ListsFrom AreImports WritesImports bytes.now start result rows.new }
    ensures within { IfSome result (λ n. First (ImportWithin bytes.now) n rows.new) }
{
    let Some((count, first)) = number_at(bytes, start) else {
        return None;
    };
    let mut at = first;
    let mut taken = [0u32; 5];
    for place in 0..count {
        let Some((mut row, end)) = import_at(alloc, bytes, at) else {
            return None;
        };
        row.index = next_index(&mut taken, row.kind);
        put_import(rows, place as usize, row);
        at = end;
    }
    Some(count)
}
