//! Groups added to a module.

ghost use Rattle.std.specs.Prelude.{◌≡◌, ◌⊎◌, ◌∷◌, ◌++◌, ◌+◌, ◌-◌, ◌<◌, ◌≤◌, ◌^◌, IsTrue, OnOk, OnErr, IfOk, length};
ghost use Rattle.wasm_types.specs.decoding.Denials.{Tells, RefusedAt};
ghost use Rattle.wasm_types.specs.Entries.{declared_types};
ghost use Rattle.wasm_types.specs.trees.ValidGroup.{IsValidGroup, types_of};
ghost use Rattle.wasm_module_validator_type_storage.specs.trees.Groups.{count};
ghost use Rattle.wasm_module_validator_type_list.specs.Lookups.{HasIds};
ghost use Rattle.wasm_module_validator_type_list.specs.List.{HasRoom};
ghost use Rattle.wasm_module_validator_type_groups.specs.composites.Composites.{WhereCanonical};
ghost use Rattle.wasm_module_validator_type_groups.specs.ValidTypes.{HaveKnownIds};
ghost use Rattle.wasm_module_validator_canonical_types.specs.Written.{AreModuleIndices};
ghost use Rattle.wasm_module_validator_type_groups.specs.adding.Interned.{space_of, AreIdsKnown, written_group, kept_group, IsChecked, ids_from, AddsGroup, AreGroupTypesValid};

use crate::adding::written::{check_written, put_in_form};
use crate::check_types;
use wasm_module_validator_canonical_types::InternRecGroup;
use wasm_module_validator_type_list::{RecGroupId, TypeList};
use wasm_types::{CoreTypeId, RecGroup, Result};

// Adds ids one after the other, from this number on, in room that is there.
fn add_type_ids<M: InternRecGroup>(target: &mut M, start: u32, end: u32)
    requires order { start ≤ end }
    requires room { end - start ≤ M.room target.old }
    requires short { length (M.ids target.old) + (end - start) < 2 ^ 32 }
    ensures ids { M.ids target.new ≡ M.ids target.old ++ ids_from start (end - start) }
    ensures settings { M.settings target.new ≡ M.settings target.old }
{
    for number in start..end {
        target.add_type_id(CoreTypeId::new(number));
    }
}

// Checks the types of a group that is new, and answers where its ids begin and end.
fn check_added<M: InternRecGroup>(
    target: &M,
    types: &TypeList,
    is_new: bool,
    number: RecGroupId,
    offset: u64,
) -> Result<(u32, u32)>
    requires number { number.0 < length types.now.groups }
    requires ids { WhereCanonical (M.settings target.now).features (HaveKnownIds types.now.groups) }
    ensures answer { Tells result (IsTrue is_new → AreGroupTypesValid
        (M.settings target.now) types.now.groups number.0) }
    ensures ids { IfOk result (λ r. HasIds types.now.groups number.0 r.0 r.1) }
    ensures at { RefusedAt offset result }
{
    let elements = types.rec_group_elements(number);
    if is_new {
        let most = target.limits().subtyping_depth;
        check_types(*target.features(), most, elements, types, offset)?;
    }
    Ok((elements.start.number(), elements.end.number()))
}

/// Adds a group of types to a module. Where the features ask for canonical forms, a group that the list has already keeps its
/// ids and changes no list; any other is added to the list, and each of its types is checked.
///
/// The group is accepted exactly if it is valid behind the types of the module, and the list has room for as many types,
/// new or known. The ids of the module then stand for the types that it had and those of the group.
///
/// # Errors
///
/// Refused are, in this order: a group that is written as one where garbage collection is not allowed, a type with more than
/// one supertype, an index that the group may not have, more types than a list has, and the first type that is not valid. A
/// refusal adds no id to the module. A group that is new and has a type that is not valid stays in the list, which may be
/// used for no other group; any other refusal, out of memory too, leaves the list as it was.
pub fn canonicalize_and_intern_rec_group<M: InternRecGroup>(
    target: &mut M,
    types: &mut TypeList,
    rec_group: RecGroup,
    offset: u64,
) -> Result<()>
    requires can_intern { IsTrue types.old.can_intern }
    requires checked { IsChecked (M.settings target.old) types.old.groups }
    requires known { AreIdsKnown types.old.groups (M.ids target.old) }
    requires short { length (M.ids target.old) + length (declared_types rec_group) < 2 ^ 32 }
    requires indices { AreModuleIndices (declared_types rec_group) }
    ensures answer { Tells result (IsValidGroup (M.settings target.old) (space_of types.old.groups (M.ids target.old))
        (written_group rec_group)
        × HasRoom types.old.groups (length (declared_types rec_group))) }
    ensures added { OnOk result (AddsGroup types.old.groups types.new.groups (M.ids target.old) (M.ids target.new)
        (kept_group (M.settings target.old).features (M.ids target.old) (declared_types rec_group))) }
    ensures space { OnOk result (space_of types.new.groups (M.ids target.new)
        ≡ space_of types.old.groups (M.ids target.old) ++ types_of (space_of types.old.groups (M.ids target.old)) (written_group rec_group)) }
    ensures checked { OnOk result (IsChecked (M.settings target.old) types.new.groups) }
    ensures known { OnOk result (AreIdsKnown types.new.groups (M.ids target.new)) }
    ensures refused { OnErr result (M.ids target.new ≡ M.ids target.old) }
    ensures list { OnErr result ((types.new.groups ≡ types.old.groups)
        ⊎ (types.new.groups ≡ kept_group (M.settings target.old).features (M.ids target.old)
        (declared_types rec_group) ∷ types.old.groups)) }
    ensures at { RefusedAt offset result }
    ensures settings { M.settings target.new ≡ M.settings target.old }
    ensures can_intern { IsTrue types.new.can_intern }
    ensures limits { types.new.limits ≡ types.old.limits }
{
    check_written(*target.features(), &rec_group, offset)?;
    let needs_canonical = target.features().needs_type_canonicalization();
    let _count = types.type_count();
    let mut group = rec_group;
    put_in_form(target, &mut group, offset)?;
    target.reserve_type_ids(group.types().len())?;
    let (is_new, number) = types.intern_canonical_rec_group(needs_canonical, group, offset)?;
    let (start, end) = check_added(target, types, is_new, number, offset)?;
    add_type_ids(target, start, end);
    Ok(())
}
