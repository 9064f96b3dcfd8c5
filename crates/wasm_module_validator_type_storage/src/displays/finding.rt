//! How an ancestor is found by its depth.

ghost use Rattle.std.specs.Prelude.{◌≡◌, ◌↔◌, ◌+◌, ◌*◌, ◌<◌, slice_get, IsTrue, IsSome, IfSome, MatchOption, Some};
ghost use Rattle.wasm_module_validator_type_storage.specs.displays.Chains.{IsUnder, HasDepth};
ghost use Rattle.wasm_module_validator_type_storage.specs.displays.Entries.{HasDisplay, AreDisplays, IsDisplayed, AreEarlier, IsShallow, AreAllDisplayed};

use crate::displays::Display;
use crate::snapshots::SnapshotList;
use wasm_types::CoreTypeId;

/// The display of an id, where it has one.
pub(crate) fn display_of(
    displays: &SnapshotList<Option<Display>>,
    id: CoreTypeId,
) -> Option<Display>
    ensures { MatchOption result (IsDisplayed displays.now.items id → ⊥)
        (λ d. slice_get displays.now.items id.0 ≡ Some (Some d)) }
{
    match displays.get(id.number() as usize) {
        Some(display) => *display,
        None => None,
    }
}

// Whether an id is another or below it, which would be at this place of its own block.
fn is_below_near(
    supertypes: &SnapshotList<Option<CoreTypeId>>,
    entries: &SnapshotList<CoreTypeId>,
    a: CoreTypeId,
    lower: Display,
    b: CoreTypeId,
    place: u8,
) -> bool
    requires lower { HasDisplay supertypes.now.items entries.now.items a lower }
    requires depth { HasDepth supertypes.now.items b (16 * lower.blocks + place) }
    ensures { IsTrue result ↔ IsUnder supertypes.now.items a b }
{
    if place > lower.place {
        return false;
    }
    entries[lower.near as usize + place as usize] == b
}

// The ancestor that ends a block above the id's own.
fn end_of_block(
    supertypes: &SnapshotList<Option<CoreTypeId>>,
    entries: &SnapshotList<CoreTypeId>,
    a: CoreTypeId,
    lower: Display,
    block: u8,
) -> CoreTypeId
    requires lower { HasDisplay supertypes.now.items entries.now.items a lower }
    requires block { block < lower.blocks }
    ensures above { IsUnder supertypes.now.items a result }
    ensures depth { HasDepth supertypes.now.items result (16 * block + 15) }
{
    entries[lower.far as usize + block as usize]
}

/// Whether an id is another or is declared below it, where both have a display: by the ancestor of the other's depth, which is an
/// entry of its own display or of that of the ancestor which ends the other's block.
pub(crate) fn is_below(
    supertypes: &SnapshotList<Option<CoreTypeId>>,
    displays: &SnapshotList<Option<Display>>,
    entries: &SnapshotList<CoreTypeId>,
    a: CoreTypeId,
    b: CoreTypeId,
) -> Option<bool>
    requires { AreDisplays supertypes.now.items entries.now.items displays.now.items }
    ensures below { IfSome result (λ yes. IsTrue yes ↔ IsUnder supertypes.now.items a b) }
    ensures told { ((i : CoreTypeId) → IsShallow supertypes.now.items i → IsDisplayed displays.now.items i)
        → IsShallow supertypes.now.items a → IsShallow supertypes.now.items b → IsSome result }
{
    let Some(lower) = display_of(displays, a) else {
        return None;
    };
    let Some(upper) = display_of(displays, b) else {
        return None;
    };
    if upper.blocks > lower.blocks {
        return Some(false);
    }
    if upper.blocks == lower.blocks {
        return Some(is_below_near(supertypes, entries, a, lower, b, upper.place));
    }
    let end = end_of_block(supertypes, entries, a, lower, upper.blocks);
    let Some(whole) = display_of(displays, end) else {
        return None;
    };
    Some(is_below_near(supertypes, entries, end, whole, b, upper.place))
}
