//! One type of a group checked.

ghost use Rattle.std.specs.Prelude.{◌≡◌, ◌<◌, ◌≤◌, ◌-◌, IsTrue, Some};
ghost use Rattle.wasm_types.specs.decoding.Denials.{Tells, RefusedAt};
ghost use Rattle.wasm_types.specs.reader.Reading.{NeedsNoMemory};
ghost use Rattle.wasm_module_validator_type_storage.specs.trees.Groups.{count};
ghost use Rattle.wasm_module_validator_type_storage.specs.trees.BelowIds.{entry_by_id};
ghost use Rattle.wasm_module_validator_type_groups.specs.composites.Composites.{WhereCanonical};
ghost use Rattle.wasm_module_validator_type_groups.specs.ValidTypes.{HaveKnownIds, IsAboveValid, IsDepthWithin, AreDescriptorsAllowed, GoAlong, DescriptorsGoAlong, IsTypeValid, AreTypesValid};

use crate::composites::check_composite_type;
use crate::descriptors::{Along, check_joined, check_joins};
use crate::supertypes::{check_subtyping, check_supertype};
use std::ops::Range;
use wasm_module_validator_canonical_types::matches::stored_type;
use wasm_module_validator_type_list::TypeList;
use wasm_types::{CoreTypeId, Error, ModuleWords, PackedIndex, Result, WasmFeatures, Words};

// Whether a type has a descriptor, and its supertype none.
fn lacks(types: &TypeList, own: Option<PackedIndex>, upper: Option<PackedIndex>) -> bool
    ensures { IsTrue result → ¬ (GoAlong types.now.groups own upper) }
{
    match own {
        Some(_) => upper.is_none(),
        None => false,
    }
}

// Refuses a type for what it declares of this supertype, and for its descriptors.
fn check_below(
    features: WasmFeatures,
    most: u32,
    id: CoreTypeId,
    above: CoreTypeId,
    types: &TypeList,
    offset: u64,
) -> Result<()>
    requires id { id.0 < count types.now.groups }
    requires above { above.0 < count types.now.groups }
    requires ids { HaveKnownIds types.now.groups }
    ensures above { Tells result (IsAboveValid types.now.groups (entry_by_id types.now.groups id) (Some above)
        × IsDepthWithin types.now.groups most (Some above)
        × AreDescriptorsAllowed features.0 (entry_by_id types.now.groups id)
        × DescriptorsGoAlong types.now.groups (entry_by_id types.now.groups id) (Some above)) }
    ensures at { RefusedAt offset result }
    ensures memory { NeedsNoMemory result }
{
    check_supertype(types, id, above, most, offset)?;
    let ty = stored_type(types, id);
    let upper = stored_type(types, above);
    let own = &ty.composite_type;
    let upper = &upper.composite_type;
    if lacks(types, own.descriptor_idx, upper.descriptor_idx) {
        return Err(Error::new(
            Words::Module(ModuleWords::SubTypeWithDescriptorMustHaveSuperTypeWithDescriptor),
            offset,
        ));
    }
    check_joined(features, ty, offset)?;
    let descriptors = Along {
        apart: Words::Module(
            ModuleWords::SupertypeOfDescribedTypeMustBeDescribedBySupertypeOfDescriptor,
        ),
        missing: Words::Module(ModuleWords::SupertypeOfTypeWithoutDescriptorCannotHaveDescriptor),
        added: Words::Module(ModuleWords::SubTypeWithDescriptorMustHaveSuperTypeWithDescriptor),
    };
    descriptors.check(types, own.descriptor_idx, upper.descriptor_idx, offset)?;
    let described = Along {
        apart: Words::Module(ModuleWords::SupertypeOfDescriptorDoesNotMatch),
        missing: Words::Module(ModuleWords::SupertypeOfNonDescriptorTypeCannotBeADescriptor),
        added: Words::Module(ModuleWords::SupertypeOfDescriptorMustBeADescriptor),
    };
    described.check(types, own.describes_idx, upper.describes_idx, offset)
}

/// Refuses the type of an id that is not valid under these features, with at most so many types declared one above the other
/// above it. Each refusal for what the type is stands at this offset.
pub fn check_type(
    features: WasmFeatures,
    most: u32,
    id: CoreTypeId,
    types: &TypeList,
    offset: u64,
) -> Result<()>
    requires id { id.0 < count types.now.groups }
    requires ids { WhereCanonical features.0 (HaveKnownIds types.now.groups) }
    ensures answer { Tells result (IsTypeValid types.now.groups features.0 most id) }
    ensures at { RefusedAt offset result }
    ensures memory { NeedsNoMemory result }
{
    let ty = stored_type(types, id);
    let own = &ty.composite_type;
    check_subtyping(features, ty, offset)?;
    check_composite_type(features, own, types, offset)?;
    let Some(above) = types.supertype_of(id) else {
        check_joined(features, ty, offset)?;
        return check_joins(types, id, own.descriptor_idx, own.describes_idx, offset);
    };
    check_below(features, most, id, above, types, offset)?;
    check_joins(types, id, own.descriptor_idx, own.describes_idx, offset)
}

/// Refuses the first of these types that is not valid, from the first id up to the end, as `check_type` does.
pub fn check_types(
    features: WasmFeatures,
    most: u32,
    ids: &Range<CoreTypeId>,
    types: &TypeList,
    offset: u64,
) -> Result<()>
    requires order { ids.now.start.0 ≤ ids.now.end.0 }
    requires end { ids.now.end.0 ≤ count types.now.groups }
    requires ids { WhereCanonical features.0 (HaveKnownIds types.now.groups) }
    ensures answer { Tells result (AreTypesValid types.now.groups features.0 most ids.now.start.0
        (ids.now.end.0 - ids.now.start.0)) }
    ensures at { RefusedAt offset result }
    ensures memory { NeedsNoMemory result }
{
    let end = ids.end.number();
    for number in ids.start.number()..end {
        check_type(features, most, CoreTypeId::new(number), types, offset)?;
    }
    Ok(())
}
