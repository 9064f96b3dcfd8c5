//! The list of interned types.

ghost use Rattle.std.specs.Prelude.{◌≡◌, ◌↔◌, ◌∷◌, ◌+◌, ◌≤◌, ◌<◌, [], length, map, true, false, IsTrue, OnOk, OnErr, IfOk, IfErr, IfSome, Some, None, MatchOption, slice_get, option_map};
ghost use Rattle.wasm_types.specs.decoding.Denials.{Tells, RefusedAt};
ghost use Rattle.wasm_types.specs.decoding.declared.error.ErrorKind.TheVariants.{OutOfMemory, Other};
ghost use Rattle.wasm_types.specs.Entries.{declared_of, declared_types};
ghost use Rattle.wasm_module_validator_type_storage.specs.trees.Groups.{count, group_at, group_numbers, group_ranges, declared_by_id};
ghost use Rattle.wasm_module_validator_type_storage.specs.trees.Formed.{IsGroupFormed, IsMissing, IsFormed};
ghost use Rattle.wasm_module_validator_type_storage.specs.trees.ByIds.{supertype_of, IdBelow};
ghost use Rattle.wasm_module_validator_type_list.specs.Known.{group_in};
ghost use Rattle.wasm_module_validator_type_list.specs.Depths.{depth_at, SetsDepth, KeepsDepths};
ghost use Rattle.wasm_module_validator_type_list.specs.Lookups.{HasIds, HasPlace, IsAtPlace};
ghost use Rattle.wasm_module_validator_type_list.specs.List.{max_types, HasRoom, IsAdded, Interns};

use crate::RecGroupId;
use crate::known::{Known, learn};
use crate::lists::{Lists, set_depth};
use crate::stored::{copies, stored_supertypes, stored_types};
use std::alloc::{AllocError, Global};
use std::marker::Model;
use std::ops::Range;
use wasm_module_validator_type_storage::ordered::SearchEnd;
use wasm_module_validator_type_storage::snapshots::SnapshotList;
use wasm_types::laws::order_is_of_types;
use wasm_types::{
    CoreTypeId, Error, Limits, ModuleWords, RecGroup, Result as Reading, SubType, Text, Words,
};

/// The most types that a list has: each id fits the 20 bits of an index.
pub const MAX_TYPES: usize = 1 << 20;

/// The interned types, each under an id of its own. A group in canonical form stands once.
#[derive(Drop)]
pub struct TypeList {
    pub(crate) alloc: Global,
    limits: Limits,
    pub(crate) lists: Lists,
    known: Option<Known>,
}

impl Model for TypeList {
    ghost use Rattle.std.specs.Option.{is_some};
    ghost use Rattle.wasm_module_validator_type_list.specs.List.{Types, groups_in, IsTypeList};

    ghost Value = { Types };

    ghost view = { λ l. record {
      groups = groups_in l.lists;
      can_intern = is_some l.known;
      depths = l.lists.depths.items;
      limits = l.limits;
    } };

    ghost invariant = { λ l. IsTypeList (groups_in l.lists) l.lists l.known };
}

// The refusal of a place that a group does not have.
#[cold]
fn unknown_place(index: u32, offset: u64) -> Error
    ensures kind { result.kind ≡ Other }
    ensures offset { result.offset ≡ offset }
{
    Error::with(
        Text::Number(
            Words::UnknownType,
            index,
            Words::Module(ModuleWords::TypeIndexOutOfRecGroupBounds),
        ),
        offset,
    )
}

impl TypeList {
    /// A list with no types, of a validator that judges by these limits. It takes no memory.
    pub fn new(alloc: Global, limits: Limits) -> TypeList
        ensures groups { result.groups ≡ [] }
        ensures can_intern { result.can_intern ≡ true }
        ensures depths { result.depths ≡ [] }
        ensures limits { result.limits ≡ limits }
    {
        TypeList {
            alloc,
            limits,
            lists: Lists::new(alloc),
            known: Some(Known::new(alloc)),
        }
    }

    /// The limits that its validator judges by.
    pub fn limits(&self) -> Limits
        ensures { result ≡ self.now.limits }
    {
        self.limits
    }

    /// Whether groups may be added: a committed list takes none.
    pub fn can_intern(&self) -> bool
        ensures { result ≡ self.now.can_intern }
    {
        self.known.is_some()
    }

    /// How many types there are. An id behind these has no depth.
    pub fn type_count(&self) -> usize
        ensures counted { result ≡ count self.now.groups }
        ensures small { count self.now.groups ≤ max_types }
        ensures formed { IsFormed self.now.groups }
        ensures depths { KeepsDepths self.now.groups self.now.depths self.now.depths }
    {
        self.lists.types.len()
    }

    /// How many groups there are.
    pub fn group_count(&self) -> usize
        ensures { result ≡ length self.now.groups }
    {
        self.lists.elements.len()
    }

    // The number of the next group, where there is room for one of this many types.
    fn next_id(&self, further: usize, offset: u64) -> Reading<RecGroupId>
        ensures answer { Tells result (HasRoom self.now.groups further) }
        ensures id { IfOk result (λ k. k.0 ≡ length self.now.groups) }
        ensures at { IfErr result (λ e. (e.kind ≡ Other) × (e.offset ≡ offset)) }
        ensures depths { KeepsDepths self.now.groups self.now.depths self.now.depths }
    {
        if further > MAX_TYPES - self.type_count() {
            return Err(Error::new(
                Words::Module(ModuleWords::ImplementationLimitTooManyCoreTypes),
                offset,
            ));
        }
        let Ok(number) = u32::try_from(self.group_count()) else {
            return Err(Error::new(
                Words::Module(ModuleWords::ImplementationLimitTooManyRecursionGroups),
                offset,
            ));
        };
        Ok(RecGroupId::new(number))
    }

    // The number of a group in canonical form, if the list has it, and where the search for its only type ended.
    fn find(&self, group: &RecGroup) -> (Option<RecGroupId>, SearchEnd)
        requires { IsTrue self.now.can_intern }
        ensures { MatchOption result.0 (IsMissing self.now.groups (group_in true group.now))
            (λ k. group_at self.now.groups k.0 ≡ Some (group_in true group.now)) }
    {
        match &self.known {
            Some(known) => {
                let (id, end) = known.id_of(&self.lists.types, group);
                match id {
                    Some(id) => (Some(self.rec_group_id_of(CoreTypeId::new(id))), end),
                    None => (known.number_of(group), end),
                }
            }
            None => unreachable!(),
        }
    }

    // Adds a group, for which a search ended at `end`. Where there is no memory, nothing changes.
    fn add(
        &mut self,
        is_canonical: bool,
        group: RecGroup,
        id: RecGroupId,
        end: SearchEnd,
    ) -> Result<(), AllocError>
        requires can_intern { IsTrue self.old.can_intern }
        requires formed { IsGroupFormed (count self.old.groups) (group_in is_canonical group) }
        requires added { IsAdded self.old.groups (group_in is_canonical group) }
        requires room { HasRoom self.old.groups (length (declared_types group)) }
        requires id { id.0 ≡ length self.old.groups }
        ensures ok { OnOk result (self.new.groups ≡ group_in is_canonical group ∷ self.old.groups) }
        ensures err { OnErr result (self.new.groups ≡ self.old.groups) }
        ensures can_intern { self.new.can_intern ≡ self.old.can_intern }
        ensures depths { KeepsDepths self.old.groups self.old.depths self.new.depths }
        ensures limits { self.new.limits ≡ self.old.limits }
    {
        order_is_of_types();
        let start = self.type_count() as u32;
        let further = group.types().len();
        let types = stored_types(self.alloc, start, group.types())?;
        let supertypes = stored_supertypes(self.alloc, types.as_slice())?;
        let homes = copies(self.alloc, id, further)?;
        self.lists.reserve(further)?;
        learn(
            &mut self.known,
            is_canonical,
            &self.lists.types,
            types.as_slice(),
            start,
            group,
            id,
            end,
        )?;
        let elements = Range {
            start: CoreTypeId::new(start),
            end: CoreTypeId::new(start + further as u32),
        };
        self.lists
            .append(is_canonical, types, homes, supertypes, elements);
        Ok(())
    }

    /// The number of a group, and whether the group is new. A group in canonical form that the list has keeps its number and
    /// changes nothing; any other is added, with the next ids for its types. Refused are, before all else, a group whose
    /// types would pass 2^20 and one that would be the 2^32nd behind the first; and where there is no memory, a group that
    /// would be added. A refusal changes no type and no id. Each type keeps its depth, and a new one has none.
    pub fn intern_canonical_rec_group(
        &mut self,
        needs_type_canonicalization: bool,
        rec_group: RecGroup,
        offset: u64,
    ) -> Reading<(bool, RecGroupId)>
        requires can_intern { IsTrue self.old.can_intern }
        requires formed { IsGroupFormed (count self.old.groups) (group_in needs_type_canonicalization rec_group) }
        ensures answer { Tells result (HasRoom self.old.groups (length (declared_types rec_group))) }
        ensures interned { IfOk result (λ r. Interns self.old.groups self.new.groups
            (group_in needs_type_canonicalization rec_group) r.0 r.1.0) }
        ensures refused { OnErr result (self.new.groups ≡ self.old.groups) }
        ensures at { RefusedAt offset result }
        ensures memory { IfErr result (λ e. e.kind ≡ OutOfMemory
            → IsAdded self.old.groups (group_in needs_type_canonicalization rec_group)) }
        ensures can_intern { self.new.can_intern ≡ true }
        ensures depths { KeepsDepths self.old.groups self.old.depths self.new.depths }
        ensures limits { self.new.limits ≡ self.old.limits }
    {
        let id = self.next_id(rec_group.types().len(), offset)?;
        let mut end = SearchEnd::of_none();
        if needs_type_canonicalization {
            let (known, ended) = self.find(&rec_group);
            if let Some(known) = known {
                return Ok((false, known));
            }
            end = ended;
        }
        self.add(needs_type_canonicalization, rec_group, id, end)?;
        Ok((true, id))
    }

    /// The type of an id, over ids, if the id has one.
    pub fn get(&self, id: CoreTypeId) -> Option<&SubType>
        ensures { option_map (λ t. declared_of t.now) result ≡ slice_get (declared_by_id self.now.groups) id.0 }
    {
        self.lists.types.get(id.number() as usize)
    }

    /// The types over ids, in the order of their ids.
    pub fn sub_types(&self) -> &SnapshotList<SubType>
        ensures { map declared_of result.now.items ≡ declared_by_id self.now.groups }
    {
        &self.lists.types
    }

    /// The ids of each group, from the first to that behind the last, in the order of the groups.
    pub fn group_elements(&self) -> &SnapshotList<Range<CoreTypeId>>
        ensures { map (λ r. (r.start.0, r.end.0)) result.now.items ≡ group_ranges self.now.groups }
    {
        &self.lists.elements
    }

    /// The group that the type of an id stands in.
    pub fn rec_group_id_of(&self, id: CoreTypeId) -> RecGroupId
        requires { id.0 < count self.now.groups }
        ensures { slice_get (group_numbers self.now.groups) id.0 ≡ Some result.0 }
    {
        self.lists.homes[id.number() as usize]
    }

    /// The ids of the types of a group, from the first to that behind the last.
    pub fn rec_group_elements(&self, rec_group: RecGroupId) -> &Range<CoreTypeId>
        requires { rec_group.0 < length self.now.groups }
        ensures { HasIds self.now.groups rec_group.0 result.now.start.0 result.now.end.0 }
    {
        &self.lists.elements[rec_group.number() as usize]
    }

    /// The id of the type at a place of a group. A place behind its last is refused.
    pub fn rec_group_local_id(
        &self,
        rec_group: RecGroupId,
        index: u32,
        offset: u64,
    ) -> Reading<CoreTypeId>
        requires { rec_group.0 < length self.now.groups }
        ensures answer { Tells result (HasPlace self.now.groups rec_group.0 index) }
        ensures value { IfOk result (IsAtPlace self.now.groups rec_group.0 index) }
        ensures at { IfErr result (λ e. (e.kind ≡ Other) × (e.offset ≡ offset)) }
    {
        let elements = self.rec_group_elements(rec_group);
        let end = elements.end.number();
        let Some(id) = elements.start.number().checked_add(index) else {
            return Err(unknown_place(index, offset));
        };
        if id >= end {
            return Err(unknown_place(index, offset));
        }
        Ok(CoreTypeId::new(id))
    }

    /// The supertype that the type of an id declares.
    pub fn supertype_of(&self, id: CoreTypeId) -> Option<CoreTypeId>
        requires { id.0 < count self.now.groups }
        ensures declared { result ≡ supertype_of self.now.groups id }
        ensures earlier { IfSome result (λ above. above.0 < id.0) }
    {
        self.lists.supertypes[id.number() as usize]
    }

    /// How far the type of an id stands below a type without a supertype, where that was set. A committed list knows of none.
    pub fn get_subtyping_depth(&self, id: CoreTypeId) -> Option<u8>
        ensures depth { result ≡ depth_at self.now.depths id.0 }
        ensures unknown { count self.now.groups ≤ id.0 → result ≡ None }
        ensures closed { self.now.can_intern ≡ false → result ≡ None }
    {
        match self.lists.depths.get(id.number() as usize) {
            Some(depth) => *depth,
            None => None,
        }
    }

    /// Sets how far the type of an id stands below a type without a supertype. It takes no memory.
    pub fn set_subtyping_depth(&mut self, id: CoreTypeId, depth: u8)
        requires can_intern { IsTrue self.old.can_intern }
        requires known { id.0 < count self.old.groups }
        ensures groups { self.new.groups ≡ self.old.groups }
        ensures depth { SetsDepth self.old.depths self.new.depths id.0 depth }
        ensures can_intern { self.new.can_intern ≡ true }
        ensures limits { self.new.limits ≡ self.old.limits }
    {
        set_depth(&mut self.lists.depths, id, depth);
    }

    /// A list of the same types, by the same limits, which are shared from now on, and which takes no more and holds no depths.
    /// This list keeps its types, their depths and its limits, whether there is memory for the other or not.
    pub fn commit(&mut self) -> Result<TypeList, AllocError>
        ensures stays { self.new.groups ≡ self.old.groups }
        ensures still { self.new.can_intern ≡ self.old.can_intern }
        ensures same { IfOk result (λ list. list.groups ≡ self.old.groups) }
        ensures closed { IfOk result (λ list. list.can_intern ≡ false) }
        ensures depths_stay { self.new.depths ≡ self.old.depths }
        ensures no_depths { IfOk result (λ list. list.depths ≡ []) }
        ensures limits_stay { self.new.limits ≡ self.old.limits }
        ensures same_limits { IfOk result (λ list. list.limits ≡ self.old.limits) }
    {
        let lists = self.lists.commit()?;
        Ok(TypeList {
            alloc: self.alloc,
            limits: self.limits,
            lists,
            known: None,
        })
    }
}
