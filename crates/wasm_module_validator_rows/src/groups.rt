//! The ids of a list of types, and of the group of each.

ghost use Rattle.std.specs.Prelude.{◌≡◌, ◌<◌, ◌≤◌, length};
ghost use Rattle.wasm_module_validator_type_storage.specs.trees.Groups.{count};
ghost use Rattle.wasm_module_validator_rows.specs.Types.{group_end, group_start, short};

use wasm_module_validator_index_spaces::view::TypesRef;
use wasm_types::CoreTypeId;

/// How many types the list has.
pub(crate) fn type_count(types: &TypesRef<'_>) -> u32
    ensures { result ≡ short (count types.now.groups) }
{
    let mut low: u32 = 0;
    let mut high: u32 = u32::MAX;
    while low < high {
        let middle = low + (high - low) / 2;
        if types.get(CoreTypeId::new(middle)).is_some() {
            low = middle + 1;
        } else {
            high = middle;
        }
    }
    low
}

/// The first id of the group of a type.
pub(crate) fn start_of_group(types: &TypesRef<'_>, id: u32) -> u32
    requires { id < count types.now.groups }
    ensures { result ≡ group_start types.now.groups id }
{
    let group = types.rec_group_id_of(CoreTypeId::new(id));
    match types.rec_group_elements(group).next() {
        Some(first) => first.number(),
        None => id,
    }
}

/// The id behind the last of the group of a type, in a list of so many types, where the group begins so.
pub(crate) fn end_of_group(types: &TypesRef<'_>, total: u32, start: u32, id: u32) -> u32
    requires counted { total ≡ short (count types.now.groups) }
    requires known { id < total }
    requires start { start ≡ group_start types.now.groups id }
    ensures { result ≡ short (group_end types.now.groups id) }
{
    let mut within = id;
    let mut behind = total;
    let mut step: u32 = 1;
    while behind - within > 1 {
        step = step.min((behind - within) / 2);
        let middle = within + step;
        if start_of_group(types, middle) == start {
            within = middle;
            step = step.saturating_mul(2);
        } else {
            behind = middle;
        }
    }
    behind
}
