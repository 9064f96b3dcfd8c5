//! Indices of groups in canonical form, as ids of a list.

ghost use Rattle.std.specs.Prelude.{◌≡◌, ◌<◌, true, IfErr, IfOk, length};
ghost use Rattle.wasm_types.specs.decoding.Denials.{Tells};
ghost use Rattle.wasm_types.specs.decoding.declared.error.ErrorKind.TheVariants.{Other};
ghost use Rattle.wasm_types.specs.trees.Indices.{is_canonical_index};
ghost use Rattle.wasm_module_validator_type_alloc.specs.Canonicalized.{IsNamed, IsIdOf};

use wasm_module_validator_type_list::{RecGroupId, TypeList};
use wasm_types::{CoreTypeId, PackedIndex, Result, UnpackedIndex};

/// The id that an index means in a group of a list: a place of the group is that of its type, and an id is itself. A place behind the
/// last of the group is refused.
pub fn at_canonicalized_unpacked_index(
    types: &TypeList,
    rec_group: RecGroupId,
    index: UnpackedIndex,
    offset: u64,
) -> Result<CoreTypeId>
    requires known { rec_group.0 < length types.now.groups }
    requires canonical { is_canonical_index index ≡ true }
    ensures answer { Tells result (IsNamed types.now.groups rec_group.0 index) }
    ensures value { IfOk result (IsIdOf types.now.groups rec_group.0 index) }
    ensures at { IfErr result (λ e. (e.kind ≡ Other) × (e.offset ≡ offset)) }
{
    match index {
        UnpackedIndex::Id(id) => Ok(id),
        UnpackedIndex::RecGroup(place) => types.rec_group_local_id(rec_group, place, offset),
        UnpackedIndex::Module(_) => unreachable!(),
    }
}

/// The same of a packed index.
pub fn at_canonicalized_packed_index(
    types: &TypeList,
    rec_group: RecGroupId,
    index: PackedIndex,
    offset: u64,
) -> Result<CoreTypeId>
    requires known { rec_group.0 < length types.now.groups }
    requires canonical { is_canonical_index index ≡ true }
    ensures answer { Tells result (IsNamed types.now.groups rec_group.0 index) }
    ensures value { IfOk result (IsIdOf types.now.groups rec_group.0 index) }
    ensures at { IfErr result (λ e. (e.kind ≡ Other) × (e.offset ≡ offset)) }
{
    at_canonicalized_unpacked_index(types, rec_group, index.unpack(), offset)
}
