//! How displays are made, each from that of the supertype, in room that is there.

ghost use Rattle.std.specs.Prelude.{◌≡◌, ◌∷◌, ◌++◌, ◌+◌, ◌*◌, ◌<◌, ◌≤◌, ◌^◌, [], ℕ, length, slice_get, MatchOption, Some};
ghost use Rattle.wasm_module_validator_type_storage.specs.displays.Entries.{HasDisplay, AreDisplays, IsDisplayed, LacksDisplay, Keeps, IsExtended, AreSoFar};

use crate::displays::Display;
use crate::displays::finding::display_of;
use crate::snapshots::SnapshotList;
use wasm_types::CoreTypeId;

/// How many entries a display takes at most: those of its own block, or the type itself and the ends of the blocks above it.
pub(crate) const MOST_ENTRIES: usize = 16;

// Adds an item, in room that is there.
fn push_in_room<X: Drop>(list: &mut SnapshotList<X>, item: X)
    requires room { 0 < list.old.room }
    requires short { length list.old.items + 1 < 2 ^ 64 }
    ensures items { list.new.items ≡ list.old.items ++ item ∷ [] }
    ensures room { list.old.room ≤ list.new.room + 1 }
{
    let _ = list.push(item);
}

// So many entries from this place on, and one more, at the place that is answered: where they are the last, the new one is added
// to them, and else they are copied.
fn extended(entries: &mut SnapshotList<CoreTypeId>, start: u32, count: u8, last: CoreTypeId) -> u32
    requires there { 0 < count → start + count ≤ length entries.old.items }
    requires room { count < entries.old.room }
    requires short { length entries.old.items + count < 2 ^ 32 }
    ensures keeps { Keeps entries.old.items entries.new.items }
    ensures extended { IsExtended entries.old.items entries.new.items start count last result }
    ensures long { length entries.new.items ≤ length entries.old.items + count + 1 }
    ensures room { entries.old.room ≤ entries.new.room + count + 1 }
{
    let end = entries.len();
    if start as usize + count as usize == end {
        push_in_room(entries, last);
        return start;
    }
    for j in 0..count {
        let entry = entries[start as usize + j as usize];
        push_in_room(entries, entry);
    }
    push_in_room(entries, last);
    end as u32
}

// The display of a type without a supertype.
fn display_alone(entries: &mut SnapshotList<CoreTypeId>, own: CoreTypeId) -> Display
    requires room { 16 ≤ entries.old.room }
    requires short { length entries.old.items + 16 ≤ 2 ^ 32 }
    ensures keeps { Keeps entries.old.items entries.new.items }
    ensures place { result.place ≡ 0 }
    ensures blocks { result.blocks ≡ 0 }
    ensures own { slice_get entries.new.items result.near ≡ Some own }
    ensures long { length entries.new.items ≤ length entries.old.items + 16 }
    ensures room { entries.old.room ≤ entries.new.room + 16 }
{
    let near = extended(entries, 0, 0, own);
    Display {
        near,
        far: 0,
        blocks: 0,
        place: 0,
    }
}

// The display of a type below another that does not end a block: it shares the ends of blocks.
fn display_within(
    entries: &mut SnapshotList<CoreTypeId>,
    own: CoreTypeId,
    upper: Display,
) -> Display
    requires place { upper.place < 15 }
    requires there { upper.near + upper.place < length entries.old.items }
    requires room { 16 ≤ entries.old.room }
    requires short { length entries.old.items + 16 ≤ 2 ^ 32 }
    ensures keeps { Keeps entries.old.items entries.new.items }
    ensures place { result.place ≡ upper.place + 1 }
    ensures blocks { result.blocks ≡ upper.blocks }
    ensures far { result.far ≡ upper.far }
    ensures near { IsExtended entries.old.items entries.new.items upper.near (upper.place + 1) own result.near }
    ensures long { length entries.new.items ≤ length entries.old.items + 16 }
    ensures room { entries.old.room ≤ entries.new.room + 16 }
{
    let place = upper.place + 1;
    let near = extended(entries, upper.near, place, own);
    Display {
        near,
        far: upper.far,
        blocks: upper.blocks,
        place,
    }
}

// The display of a type below another that ends a block: it is the first of the next.
fn display_behind(
    entries: &mut SnapshotList<CoreTypeId>,
    own: CoreTypeId,
    above: CoreTypeId,
    upper: Display,
) -> Display
    requires blocks { upper.blocks < 15 }
    requires there { 0 < upper.blocks → upper.far + upper.blocks ≤ length entries.old.items }
    requires room { 16 ≤ entries.old.room }
    requires short { length entries.old.items + 16 ≤ 2 ^ 32 }
    ensures keeps { Keeps entries.old.items entries.new.items }
    ensures place { result.place ≡ 0 }
    ensures blocks { result.blocks ≡ upper.blocks + 1 }
    ensures near { slice_get entries.new.items result.near ≡ Some own }
    ensures far { IsExtended entries.old.items entries.new.items upper.far upper.blocks above result.far }
    ensures long { length entries.new.items ≤ length entries.old.items + 16 }
    ensures room { entries.old.room ≤ entries.new.room + 16 }
{
    let far = extended(entries, upper.far, upper.blocks, above);
    let near = extended(entries, 0, 0, own);
    Display {
        near,
        far,
        blocks: upper.blocks + 1,
        place: 0,
    }
}

// The display of a type below another, where there are not 255 types above the other.
fn display_below(
    supertypes: &SnapshotList<Option<CoreTypeId>>,
    entries: &mut SnapshotList<CoreTypeId>,
    own: CoreTypeId,
    above: CoreTypeId,
    upper: Display,
) -> Option<Display>
    requires declared { slice_get supertypes.now.items own.0 ≡ Some (Some above) }
    requires upper { HasDisplay supertypes.now.items entries.old.items above upper }
    requires room { 16 ≤ entries.old.room }
    requires short { length entries.old.items + 16 ≤ 2 ^ 32 }
    ensures keeps { Keeps entries.old.items entries.new.items }
    ensures has { MatchOption result (255 ≤ 16 * upper.blocks + upper.place)
        (HasDisplay supertypes.now.items entries.new.items own) }
    ensures long { length entries.new.items ≤ length entries.old.items + 16 }
    ensures room { entries.old.room ≤ entries.new.room + 16 }
{
    if upper.place < 15 {
        return Some(display_within(entries, own, upper));
    }
    if upper.blocks >= 15 {
        return None;
    }
    Some(display_behind(entries, own, above, upper))
}

// The display of a type, by that of its supertype.
fn next_display(
    supertypes: &SnapshotList<Option<CoreTypeId>>,
    displays: &SnapshotList<Option<Display>>,
    entries: &mut SnapshotList<CoreTypeId>,
    own: CoreTypeId,
) -> Option<Display>
    requires right { AreDisplays supertypes.now.items entries.old.items displays.now.items }
    requires own { own.0 < length supertypes.now.items }
    requires room { 16 ≤ entries.old.room }
    requires short { length entries.old.items + 16 ≤ 2 ^ 32 }
    ensures keeps { Keeps entries.old.items entries.new.items }
    ensures has { MatchOption result (LacksDisplay supertypes.now.items displays.now.items own)
        (HasDisplay supertypes.now.items entries.new.items own) }
    ensures long { length entries.new.items ≤ length entries.old.items + 16 }
    ensures room { entries.old.room ≤ entries.new.room + 16 }
{
    let Some(above) = supertypes[own.number() as usize] else {
        return Some(display_alone(entries, own));
    };
    let Some(upper) = display_of(displays, above) else {
        return None;
    };
    display_below(supertypes, entries, own, above, upper)
}

/// Makes the displays of the types that were added since the last, in room that is there.
pub(crate) fn fill(
    supertypes: &SnapshotList<Option<CoreTypeId>>,
    displays: &mut SnapshotList<Option<Display>>,
    entries: &mut SnapshotList<CoreTypeId>,
)
    requires { AreSoFar supertypes.now.items displays.old entries.old 0 }
    ensures so_far { (further : ℕ) → AreSoFar supertypes.now.items displays.old entries.old further
        → AreSoFar supertypes.now.items displays.new entries.new further }
    ensures all { length displays.new.items ≡ length supertypes.now.items }
{
    'types: for number in displays.len()..supertypes.len() {
        let own = CoreTypeId::new(number as u32);
        let display = next_display(supertypes, displays, entries, own);
        push_in_room(displays, display);
    }
}
