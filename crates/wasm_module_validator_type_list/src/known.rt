//! What a list knows of its groups in canonical form: which it has, and their numbers.

ghost use Rattle.std.specs.Prelude.{◌≡◌, ◌∷◌, [], length, map, false, IsTrue, Some, MatchOption, AllPairs, IsOk, IfOk, OnOk, OnErr};
ghost use Rattle.wasm_types.specs.Entries.{declared_of, declared_types, subtypes};
ghost use Rattle.wasm_module_validator_type_list.specs.Beside.{Precedes};
ghost use Rattle.wasm_module_validator_type_list.specs.Known.{Numbers, number_in, Learns, FindsTheSame, Declares, NoneDeclares, CanLearn, Gains, StaysKnown, KnowsMore};

use crate::RecGroupId;
use crate::beside::Beside;
use std::alloc::{AllocError, Global};
use std::collections::BTreeMap;
use wasm_module_validator_type_storage::ordered::{Ordered, SearchEnd};
use wasm_module_validator_type_storage::snapshots::SnapshotList;
use wasm_types::laws::{equality_is_of_declarations, order_is_of_types};
use wasm_types::{RecGroup, SubType};

/// The groups in canonical form of a list.
///
/// Most groups are a type alone that names no place of its own group. What the list stores of such a type is what the group
/// says, so its id is kept in the order of the types, and no copy of it. Any other group is kept whole, with its number.
#[derive(Drop)]
pub(crate) struct Known {
    alone: Ordered,
    numbers: BTreeMap<RecGroup, RecGroupId>,
}

impl Known {
    /// No groups. It takes no memory.
    pub(crate) fn new(alloc: Global) -> Known
        ensures alone { result.alone ≡ [] }
        ensures numbers { result.numbers.entries ≡ [] }
    {
        Known {
            alone: Ordered::new(alloc),
            numbers: BTreeMap::new(alloc),
        }
    }

    /// The number of a group that is kept whole.
    pub(crate) fn number_of(&self, group: &RecGroup) -> Option<RecGroupId>
        ensures { result ≡ number_in self.now.numbers group.now }
    {
        self.numbers.get(group).copied()
    }

    /// The id of the only type of this group, if it is by that id that the group is kept, and where the search for it ended.
    pub(crate) fn id_of(
        &self,
        types: &SnapshotList<SubType>,
        group: &RecGroup,
    ) -> (Option<u32>, SearchEnd)
        requires { AllPairs (Precedes types.now.items) self.now.alone }
        ensures { MatchOption result.0 (NoneDeclares types.now.items self.now.alone (declared_types group.now))
            (λ n. Declares types.now.items self.now.alone (declared_types group.now) n) }
    {
        equality_is_of_declarations();
        if group.types().len() != 1 {
            return (None, SearchEnd::of_none());
        }
        let ty = &group.types()[0];
        self.alone.find(&Beside { types, ty })
    }

    // Keeps a group that is none of those which are kept: by the id of its only type, or whole.
    fn keep(
        &mut self,
        types: &SnapshotList<SubType>,
        stored: &[SubType],
        start: u32,
        group: RecGroup,
        id: RecGroupId,
        end: SearchEnd,
    ) -> Result<(), AllocError>
        requires ordered { AllPairs (Precedes types.now.items) self.old.alone }
        requires new { NoneDeclares types.now.items self.old.alone (declared_types group) }
        ensures ok { OnOk result (Gains types.now.items stored.now start group id self.old self.new) }
        ensures err { OnErr result (StaysKnown (Some self.old) (Some self.new)) }
    {
        equality_is_of_declarations();
        match only_type(group.types(), stored) {
            Some(ty) => self.alone.insert(&Beside { types, ty }, start, end),
            None => keep_whole(&mut self.numbers, group, id),
        }
    }
}

// The only type of a group, where what is stored of it is what the group says.
fn only_type<'a>(types: &[SubType], stored: &'a [SubType]) -> Option<&'a SubType>
    ensures { MatchOption result (length stored.now ≡ 1 → map declared_of types.now ≡ map declared_of stored.now → ⊥)
        (λ ty. (stored.now ≡ ty.now ∷ []) × (map declared_of types.now ≡ declared_of ty.now ∷ [])) }
{
    equality_is_of_declarations();
    if stored.len() != 1 || types.len() != 1 {
        return None;
    }
    let ty = &stored[0];
    if *ty == types[0] { Some(ty) } else { None }
}

// The same types as a group for the map, in no more memory than they need: lists that grew by `push` have room for up to four times
// their items. The map does not look at offsets.
fn cut(group: RecGroup) -> Result<RecGroup, AllocError>
    ensures { IfOk result (λ g. subtypes g ≡ subtypes group) }
{
    let mut types = group.into_types();
    types.shrink_to_fit();
    let mut offsets = Vec::new(*types.allocator());
    offsets.resize(types.len(), 0)?;
    Ok(RecGroup::explicit(types, offsets))
}

// Gives a group a number. The map takes its types.
fn keep_whole(
    numbers: &mut BTreeMap<RecGroup, RecGroupId>,
    group: RecGroup,
    id: RecGroupId,
) -> Result<(), AllocError>
    ensures ok { OnOk result (Learns numbers.old numbers.new group id) }
    ensures err { OnErr result (FindsTheSame numbers.old numbers.new) }
{
    order_is_of_types();
    let key = cut(group)?;
    numbers.insert(key, id)?;
    Ok(())
}

/// Keeps a group of this number, where it is in canonical form and anything is known. Its types are stored so from the id `start`
/// on, behind those of the list. A search for it ended at `end`.
pub(crate) fn learn(
    known: &mut Option<Known>,
    is_canonical: bool,
    types: &SnapshotList<SubType>,
    stored: &[SubType],
    start: u32,
    group: RecGroup,
    id: RecGroupId,
    end: SearchEnd,
) -> Result<(), AllocError>
    requires { CanLearn is_canonical types.now.items group known.old }
    ensures ok { OnOk result (KnowsMore is_canonical types.now.items stored.now start group id
        known.old known.new) }
    ensures err { OnErr result (StaysKnown known.old known.new) }
    ensures sure { (is_canonical ≡ false) → IsOk result }
{
    if !is_canonical {
        return Ok(());
    }
    match known {
        Some(known) => known.keep(types, stored, start, group, id, end),
        None => Ok(()),
    }
}
