//! A module read from its first byte to its last.

ghost use Rattle.std.specs.Prelude.{◌≡◌, IfOk, OnOk};
ghost use Rattle.wasm_module_validator_payloads.specs.declarations.Total.{TellsWithinTotal};
ghost use Rattle.wasm_module_validator_section_order.specs.rules_in_order.Steps.{SoFar};
ghost use Rattle.wasm_module_validator_payloads.specs.Progress.{Grows, IsAt, nothing_over};
ghost use Rattle.wasm_module_validator_drivers.specs.reading.Reading.{HasGroupIn, IsReadAs};

use crate::judging::{Body, HeldSettings, InProgress};
use std::alloc::Global;
use wasm_sections::Parser;
use wasm_types::Result;

/// Reads a module that is all of these bytes, by these settings, and gives its bodies. Its types go into the list of what nothing was read of
/// yet, which may hold those of other modules.
///
/// # Errors
///
/// The bytes are no module; or a section is not valid behind those before it; or the list of types, which has 2^20 at most, has no room
/// for a group: the first of these. Or there is no memory.
pub fn read_module<'a>(
    alloc: Global,
    settings: &HeldSettings,
    progress: &mut InProgress,
    bytes: &'a [u8],
) -> Result<Vec<Body<'a>>>
    requires { progress.old ≡ nothing_over progress.old.kept.groups settings.now }
    ensures answer { TellsWithinTotal progress.old.kept.groups progress.old.kept.items
        (HasGroupIn settings.now bytes.now) result
        ((q : SoFar) × IsReadAs settings.now bytes.now q) }
    ensures stands { IfOk result (λ bodies. (q : SoFar) → IsReadAs settings.now bytes.now q
        → IsAt settings.now progress.new bodies.items q) }
    ensures grown { OnOk result (Grows progress.old.kept progress.new.kept) }
{
    let mut parser = Parser::new(alloc, 0);
    parser.set_features(settings.features());
    parser.set_limits(settings.limits());
    let mut bodies = Vec::new(alloc);
    for payload in parser.parse_all(bytes) {
        let payload = match payload {
            Ok(payload) => payload,
            Err(error) => return Err(error),
        };
        match progress.take_payload(payload, &mut bodies) {
            Ok(()) => (),
            Err(error) => return Err(error),
        }
    }
    Ok(bodies)
}
