//! The start function of a module.

ghost use Rattle.std.specs.Prelude.{◌≤◌, length};
ghost use Rattle.wasm_module_validator_import_export_places.specs.Listing.{TellsStart, NumberAt};

use crate::names::number_at;
use crate::sections::{Section, section_of};

/// The id of the start section.
const START: u8 = 8;

/// The index of the start function of the module that these bytes spell, or none if it has none. Of other bytes nothing is promised but an end.
pub fn start_of(bytes: &[u8]) -> Option<u32>
    ensures { TellsStart bytes.now result }
{
    match section_of(bytes, START) {
        Section::Broken => None,
        Section::Absent => None,
        Section::At(start) => number_of(bytes, start),
    }
}

// The number that stands there.
fn number_of(bytes: &[u8], start: usize) -> Option<u32>
    requires { start ≤ length bytes.now }
    ensures { NumberAt bytes.now start result }
{
    match number_at(bytes, start) {
        Some((number, _end)) => Some(number),
        None => None,
    }
}
