//! Types as a list stores them: each place of the own group as an id.

ghost use Rattle.std.specs.Prelude.{◌≡◌, ◌+◌, ◌≤◌, ◌<◌, ◌^◌, map, replicate, length, IfOk, Ok};
ghost use Rattle.wasm_types.specs.Entries.{declared_of};
ghost use Rattle.wasm_types.specs.Remap.{declared_map};
ghost use Rattle.wasm_module_validator_type_storage.specs.trees.Groups.{supertype_id};
ghost use Rattle.wasm_module_validator_type_list.specs.Stored.{packed_by_id};

use std::alloc::{AllocError, Global};
use wasm_types::laws::clones_declare_the_same;
use wasm_types::{CoreTypeId, PackedIndex, Result as Reading, SubType};

// An index as an id, in a group whose first type has the id `start`.
fn index_by_id(start: u32, index: PackedIndex) -> PackedIndex
    ensures { result ≡ packed_by_id start index }
{
    match index.as_rec_group_index() {
        Some(place) => match PackedIndex::from_id(CoreTypeId::new(start.saturating_add(place))) {
            Some(id) => id,
            None => index,
        },
        None => index,
    }
}

// Each index of a type as an id.
fn type_by_ids(start: u32, ty: &mut SubType)
    ensures { declared_of ty.new ≡ declared_map (packed_by_id start) (declared_of ty.old) }
{
    let by_id = |index: PackedIndex| -> Reading<PackedIndex>
        ensures { result ≡ Ok (packed_by_id start index) }
    { Ok(index_by_id(start, index)) };
    let _ = ty.remap_indices(&by_id);
}

/// Copies of these types, each index as an id in a group whose first type has the id `start`.
pub(crate) fn stored_types(
    alloc: Global,
    start: u32,
    types: &[SubType],
) -> Result<Vec<SubType>, AllocError>
    ensures { IfOk result (λ v. map declared_of v.items ≡ map (declared_map (packed_by_id start))
        (map declared_of types.now)) }
{
    clones_declare_the_same();
    let mut stored = Vec::new(alloc);
    for ty in types {
        let mut copy = ty.clone()?;
        type_by_ids(start, &mut copy);
        stored.push(copy)?;
    }
    Ok(stored)
}

// The id of the supertype that a stored type declares.
fn supertype_in(ty: &SubType) -> Option<CoreTypeId>
    ensures { result ≡ supertype_id (declared_of ty.now) }
{
    match ty.supertype_idxs.as_slice().first() {
        Some(index) => index.as_core_type_id(),
        None => None,
    }
}

/// The ids of the supertypes that these stored types declare.
pub(crate) fn stored_supertypes(
    alloc: Global,
    types: &[SubType],
) -> Result<Vec<Option<CoreTypeId>>, AllocError>
    ensures { IfOk result (λ v. v.items ≡ map supertype_id (map declared_of types.now)) }
{
    let mut supertypes = Vec::new(alloc);
    for ty in types {
        supertypes.push(supertype_in(ty))?;
    }
    Ok(supertypes)
}

/// As many copies of a value as are asked for.
pub(crate) fn copies<X: Copy>(alloc: Global, value: X, count: usize) -> Result<Vec<X>, AllocError>
    ensures { IfOk result (λ v. v.items ≡ replicate count value) }
{
    let mut values = Vec::new(alloc);
    for i in 0..count {
        values.push(value)?;
    }
    Ok(values)
}
