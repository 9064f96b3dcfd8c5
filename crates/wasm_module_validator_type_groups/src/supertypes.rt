//! What is asked of a declared supertype.

ghost use Rattle.std.specs.Prelude.{◌≡◌, ◌↔◌, ◌<◌, IsTrue, IfSome, Some};
ghost use Rattle.wasm_types.specs.decoding.Denials.{Tells, RefusedAt};
ghost use Rattle.wasm_types.specs.decoding.declared.error.ErrorKind.TheVariants.{Other};
ghost use Rattle.wasm_types.specs.Entries.{declared_of, entry_of};
ghost use Rattle.wasm_types.specs.reader.Reading.{NeedsNoMemory};
ghost use Rattle.wasm_module_validator_type_storage.specs.trees.Groups.{count};
ghost use Rattle.wasm_module_validator_type_storage.specs.trees.BelowIds.{entry_by_id};
ghost use Rattle.wasm_module_validator_canonical_types.specs.matches.MatchesById.{HasKnownIds};
ghost use Rattle.wasm_module_validator_type_groups.specs.ValidTypes.{IsSubtypingAllowed, IsAboveValid, IsDepthWithin};

use crate::composites::require;
use wasm_module_validator_canonical_types::matches::{stored_type, types_match};
use wasm_module_validator_type_list::TypeList;
use wasm_types::{CoreTypeId, Error, ModuleWords, Result, SubType, Text, WasmFeatures, Words};

/// Refuses a type that is open or has a supertype, where garbage collection is not allowed.
pub(crate) fn check_subtyping(features: WasmFeatures, ty: &SubType, offset: u64) -> Result<()>
    ensures answer { Tells result (IsSubtypingAllowed features.0 (entry_of ty.now)) }
    ensures at { RefusedAt offset result }
    ensures memory { NeedsNoMemory result }
{
    require(
        features.gc() || (ty.is_final && ty.supertype_idxs.as_slice().is_empty()),
        WasmFeatures::GC,
        Words::Module(ModuleWords::GcProposalMustBeEnabledToUseSubtypes),
        offset,
    )
}

// Whether at most so many types are declared one above the other, from this one on, by the chain of supertypes.
fn is_within_depth_by_chain(types: &TypeList, above: Option<CoreTypeId>, most: u32) -> bool
    requires { IfSome above (λ u. u.0 < count types.now.groups) }
    ensures { IsTrue result ↔ IsDepthWithin types.now.groups most above }
{
    let mut at = above;
    let mut left = most;
    'chain: loop {
        let Some(up) = at else {
            return true;
        };
        if left == 0 {
            return false;
        }
        left -= 1;
        at = types.supertype_of(up);
    }
}

// The same from this type on. A type with at most 255 types above it tells how many they are.
#[tactic(auto, using(crate::proofs::Deep::depth_within))]
fn is_within_depth(types: &TypeList, above: CoreTypeId, most: u32) -> bool
    requires { above.0 < count types.now.groups }
    ensures { IsTrue result ↔ IsDepthWithin types.now.groups most (Some above) }
{
    match types.count_above(above) {
        Some(count) => count < most,
        None => is_within_depth_by_chain(types, Some(above), most),
    }
}

// The refusal of a type with too many supertypes one above the other. All types before it have at most so many.
#[cold]
fn too_deep(most: u32, offset: u64) -> Error
    ensures kind { result.kind ≡ Other }
    ensures offset { result.offset ≡ offset }
{
    let depth = u64::from(most) + 1;
    Error::with(Text::TooDeep(depth, most), offset)
}

/// Refuses a supertype that is final, one that the type does not match, and one with too many types above it.
pub(crate) fn check_supertype(
    types: &TypeList,
    id: CoreTypeId,
    above: CoreTypeId,
    most: u32,
    offset: u64,
) -> Result<()>
    requires id { id.0 < count types.now.groups }
    requires above { above.0 < count types.now.groups }
    requires id_ids { HasKnownIds types.now.groups (entry_by_id types.now.groups id) }
    requires above_ids { HasKnownIds types.now.groups (entry_by_id types.now.groups above) }
    ensures answer { Tells result (IsAboveValid types.now.groups (entry_by_id types.now.groups id) (Some above)
        × IsDepthWithin types.now.groups most (Some above)) }
    ensures at { RefusedAt offset result }
    ensures memory { NeedsNoMemory result }
{
    if stored_type(types, above).is_final {
        return Err(Error::new(
            Words::Module(ModuleWords::SubTypeCannotHaveAFinalSuperType),
            offset,
        ));
    }
    if !types_match(types, id, above) {
        return Err(Error::new(
            Words::Module(ModuleWords::SubTypeMustMatchSuperType),
            offset,
        ));
    }
    if !is_within_depth(types, above, most) {
        return Err(too_deep(most, offset));
    }
    Ok(())
}
