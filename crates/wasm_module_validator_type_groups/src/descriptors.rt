//! What is asked of descriptors (the proposal on custom descriptors).

ghost use Rattle.std.specs.Prelude.{◌≡◌, ◌↔◌, ◌<◌, IsTrue, Some};
ghost use Rattle.wasm_types.specs.decoding.Denials.{Tells, RefusedAt};
ghost use Rattle.wasm_types.specs.trees.declared.index.UnpackedIndex.TheVariants.{Id};
ghost use Rattle.wasm_types.specs.trees.Each.{EachOption};
ghost use Rattle.wasm_types.specs.Entries.{entry_of};
ghost use Rattle.wasm_types.specs.reader.Reading.{NeedsNoMemory};
ghost use Rattle.wasm_module_validator_type_storage.specs.trees.Groups.{count};
ghost use Rattle.wasm_module_validator_type_storage.specs.trees.BelowIds.{IsIdBelow, entry_by_id, id_named};
ghost use Rattle.wasm_module_validator_type_groups.specs.ValidTypes.{AreDescriptorsAllowed, GoAlong, IsDescribedBy, Describes};

use crate::composites::require;
use wasm_module_validator_canonical_types::matches::stored_type;
use wasm_module_validator_type_list::TypeList;
use wasm_types::{
    CompositeInnerType, CoreTypeId, Error, ModuleWords, PackedIndex, Result, SubType,
    UnpackedIndex, WasmFeatures, Words,
};

/// Refuses a type that has a descriptor or describes a type, where the feature is missing or the type is no struct.
pub(crate) fn check_joined(features: WasmFeatures, ty: &SubType, offset: u64) -> Result<()>
    ensures answer { Tells result (AreDescriptorsAllowed features.0 (entry_of ty.now)) }
    ensures at { RefusedAt offset result }
    ensures memory { NeedsNoMemory result }
{
    let has_descriptor = ty.composite_type.descriptor_idx.is_some();
    if !has_descriptor && ty.composite_type.describes_idx.is_none() {
        return Ok(());
    }
    require(
        features.custom_descriptors(),
        WasmFeatures::CUSTOM_DESCRIPTORS,
        Words::Module(
            ModuleWords::CustomDescriptorsProposalMustBeEnabledToUseDescriptorAndDescribes,
        ),
        offset,
    )?;
    if let CompositeInnerType::Struct(_) = &ty.composite_type.inner {
        return Ok(());
    }
    if has_descriptor {
        return Err(Error::new(
            Words::Module(ModuleWords::DescriptorClauseOnNonStructType),
            offset,
        ));
    }
    Err(Error::new(
        Words::Module(ModuleWords::DescribesClauseOnNonStructType),
        offset,
    ))
}

// The id that an index is.
fn id_in(index: PackedIndex, known: usize) -> CoreTypeId
    requires { IsIdBelow known index }
    ensures id { result ≡ id_named index }
    ensures known { result.0 < known }
{
    match index.unpack() {
        UnpackedIndex::Id(id) => id,
        UnpackedIndex::Module(_) => unreachable!(),
        UnpackedIndex::RecGroup(_) => unreachable!(),
    }
}

// Whether it is this id.
fn is_id(found: Option<CoreTypeId>, id: CoreTypeId) -> bool
    ensures { IsTrue result ↔ (found ≡ Some id) }
{
    match found {
        Some(found) => found.number() == id.number(),
        None => false,
    }
}

// Whether it is an index that names this id.
fn names(found: Option<PackedIndex>, id: CoreTypeId) -> bool
    ensures { IsTrue result ↔ (found ≡ Some (Id id)) }
{
    match found {
        Some(found) => is_id(found.as_core_type_id(), id),
        None => false,
    }
}

/// How the types differ that a type and its supertype are joined to: the first is not declared right below the second, or
/// only one of the two is there.
#[derive(Clone, Copy)]
pub(crate) struct Along {
    pub apart: Words,
    pub missing: Words,
    pub added: Words,
}

impl Along {
    /// Refuses types that are joined to a type and to its supertype and don't go along.
    pub(crate) fn check(
        &self,
        types: &TypeList,
        own: Option<PackedIndex>,
        upper: Option<PackedIndex>,
        offset: u64,
    ) -> Result<()>
        requires own { EachOption (IsIdBelow (count types.now.groups)) own }
        requires upper { EachOption (IsIdBelow (count types.now.groups)) upper }
        ensures answer { Tells result (GoAlong types.now.groups own upper) }
        ensures at { RefusedAt offset result }
        ensures memory { NeedsNoMemory result }
    {
        match own {
            Some(own) => match upper {
                Some(upper) => {
                    let above = types.supertype_of(id_in(own, types.type_count()));
                    if is_id(above, id_in(upper, types.type_count())) {
                        return Ok(());
                    }
                    Err(Error::new(self.apart, offset))
                }
                None => Err(Error::new(self.added, offset)),
            },
            None => match upper {
                Some(_) => Err(Error::new(self.missing, offset)),
                None => Ok(()),
            },
        }
    }
}

// Refuses a described type that does not have the type as its descriptor.
fn check_described(
    types: &TypeList,
    id: CoreTypeId,
    describes: Option<PackedIndex>,
    offset: u64,
) -> Result<()>
    requires { EachOption (IsIdBelow (count types.now.groups)) describes }
    ensures answer { Tells result (Describes types.now.groups id describes) }
    ensures at { RefusedAt offset result }
    ensures memory { NeedsNoMemory result }
{
    let Some(describes) = describes else {
        return Ok(());
    };
    let described = stored_type(types, id_in(describes, types.type_count()));
    if !names(described.composite_type.descriptor_idx, id) {
        return Err(Error::new(
            Words::Module(ModuleWords::DescribesWithNoMatchingDescriptor),
            offset,
        ));
    }
    Ok(())
}

/// Refuses a descriptor that does not describe the type, a described type that does not have it as its descriptor, and a
/// descriptor that is final where the type is not, or open where it is final.
pub(crate) fn check_joins(
    types: &TypeList,
    id: CoreTypeId,
    descriptor: Option<PackedIndex>,
    describes: Option<PackedIndex>,
    offset: u64,
) -> Result<()>
    requires id { id.0 < count types.now.groups }
    requires descriptor { EachOption (IsIdBelow (count types.now.groups)) descriptor }
    requires describes { EachOption (IsIdBelow (count types.now.groups)) describes }
    ensures answer { Tells result (IsDescribedBy types.now.groups id descriptor
        × Describes types.now.groups id describes) }
    ensures at { RefusedAt offset result }
    ensures memory { NeedsNoMemory result }
{
    let Some(descriptor) = descriptor else {
        return check_described(types, id, describes, offset);
    };
    let descriptor = stored_type(types, id_in(descriptor, types.type_count()));
    if !names(descriptor.composite_type.describes_idx, id) {
        return Err(Error::new(
            Words::Module(ModuleWords::DescriptorWithNoMatchingDescribes),
            offset,
        ));
    }
    check_described(types, id, describes, offset)?;
    if stored_type(types, id).is_final != descriptor.is_final {
        return Err(Error::new(
            Words::Module(ModuleWords::DescriptorAndDescribedTypeMustHaveTheSameFinality),
            offset,
        ));
    }
    Ok(())
}
