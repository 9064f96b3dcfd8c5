//! The lists that a list of types keeps side by side.

ghost use Rattle.std.specs.Prelude.{◌≡◌, ◌∷◌, ◌++◌, ◌+◌, ◌≤◌, ◌<◌, [], length, replicate, OnOk, IfOk, None, Some, slice_set, vec_len, vec_capacity};
ghost use Rattle.wasm_module_validator_type_list.specs.Lists.{SameItems, HasRoomFor, AreShort};
ghost use Rattle.wasm_module_validator_type_list.specs.Uniform.{AreUniform};

use crate::RecGroupId;
use crate::uniform::fill;
use std::alloc::{AllocError, Global};
use std::ops::Range;
use wasm_module_validator_type_storage::displays::Displays;
use wasm_module_validator_type_storage::snapshots::SnapshotList;
use wasm_types::{CoreTypeId, SubType};

// As many ids more, without a depth, in room that is there.
fn add_places(depths: &mut Vec<Option<u8>>, further: usize)
    requires { vec_len depths.old + further ≤ vec_capacity depths.old }
    ensures { depths.new.items ≡ depths.old.items ++ replicate further None }
{
    let places = depths.len() + further;
    let _ = depths.resize(places, None);
}

/// Sets the depth of an id.
pub(crate) fn set_depth(depths: &mut Vec<Option<u8>>, id: CoreTypeId, depth: u8)
    requires { id.0 < length depths.old.items }
    ensures { depths.new.items ≡ slice_set depths.old.items id.0 (Some depth) }
{
    depths[id.number() as usize] = Some(depth);
}

/// For each group whether it is in canonical form, and its ids; for each id its type, its group, its supertype with all ancestors, whether
/// these are of one kind with it, and its depth.
///
/// A group is not kept beside its types over ids: they tell what it was (`specs/Rolled.antt`). Depths are set and never shared, so a committed list holds none.
#[derive(Drop)]
pub(crate) struct Lists {
    pub forms: SnapshotList<bool>,
    pub types: SnapshotList<SubType>,
    pub homes: SnapshotList<RecGroupId>,
    pub supertypes: Displays,
    pub elements: SnapshotList<Range<CoreTypeId>>,
    pub uniform: SnapshotList<bool>,
    pub depths: Vec<Option<u8>>,
}

impl Lists {
    pub(crate) fn new(alloc: Global) -> Lists
        ensures forms { result.forms.items ≡ [] }
        ensures types { result.types.items ≡ [] }
        ensures homes { result.homes.items ≡ [] }
        ensures supertypes { result.supertypes.items ≡ [] }
        ensures elements { result.elements.items ≡ [] }
        ensures uniform { result.uniform.items ≡ [] }
        ensures depths { result.depths.items ≡ [] }
    {
        Lists {
            forms: SnapshotList::new(alloc),
            types: SnapshotList::new(alloc),
            homes: SnapshotList::new(alloc),
            supertypes: Displays::new(alloc),
            elements: SnapshotList::new(alloc),
            uniform: SnapshotList::new(alloc),
            depths: Vec::new(alloc),
        }
    }

    /// Makes room for a group of this many types.
    pub(crate) fn reserve(&mut self, additional: usize) -> Result<(), AllocError>
        ensures same { SameItems self.old self.new }
        ensures depths { self.new.depths.items ≡ self.old.depths.items }
        ensures room { OnOk result (HasRoomFor self.new additional) }
    {
        self.forms.reserve(1)?;
        self.types.reserve(additional)?;
        self.homes.reserve(additional)?;
        self.supertypes.reserve(additional)?;
        self.elements.reserve(1)?;
        self.uniform.reserve(additional)?;
        self.depths.reserve(additional)
    }

    /// Appends a group, in room that is there.
    pub(crate) fn append(
        &mut self,
        is_canonical: bool,
        mut types: Vec<SubType>,
        mut homes: Vec<RecGroupId>,
        mut supertypes: Vec<Option<CoreTypeId>>,
        elements: Range<CoreTypeId>,
    )
        requires room { HasRoomFor self.old (length types.items) }
        requires short { AreShort self.old (length types.items) }
        requires homes { length homes.items ≡ length types.items }
        requires supertypes { length supertypes.items ≡ length types.items }
        requires uniform { AreUniform self.old.types.items self.old.supertypes.items self.old.uniform.items }
        ensures forms { self.new.forms.items ≡ self.old.forms.items ++ is_canonical ∷ [] }
        ensures types { self.new.types.items ≡ self.old.types.items ++ types.items }
        ensures homes { self.new.homes.items ≡ self.old.homes.items ++ homes.items }
        ensures supertypes { self.new.supertypes.items ≡ self.old.supertypes.items ++ supertypes.items }
        ensures elements { self.new.elements.items ≡ self.old.elements.items ++ elements ∷ [] }
        ensures depths { self.new.depths.items ≡ self.old.depths.items ++ replicate (length types.items) None }
        ensures uniform { AreUniform self.new.types.items self.new.supertypes.items self.new.uniform.items }
    {
        add_places(&mut self.depths, types.as_slice().len());
        let _ = self.forms.push(is_canonical);
        let _ = self.types.append(&mut types);
        let _ = self.homes.append(&mut homes);
        let _ = self.supertypes.append(&mut supertypes);
        let _ = self.elements.push(elements);
        fill(&self.types, &self.supertypes, &mut self.uniform);
    }

    /// The same lists, shared from now on, and no depths.
    pub(crate) fn commit(&mut self) -> Result<Lists, AllocError>
        ensures stays { SameItems self.old self.new }
        ensures same { IfOk result (SameItems self.old) }
        ensures depths_stay { self.new.depths.items ≡ self.old.depths.items }
        ensures no_depths { IfOk result (λ lists. lists.depths.items ≡ []) }
    {
        let forms = self.forms.commit()?;
        let types = self.types.commit()?;
        let homes = self.homes.commit()?;
        let supertypes = self.supertypes.commit()?;
        let elements = self.elements.commit()?;
        let uniform = self.uniform.commit()?;
        let depths = Vec::new(*self.depths.allocator());
        Ok(Lists {
            forms,
            types,
            homes,
            supertypes,
            elements,
            uniform,
            depths,
        })
    }
}
