//! The indices of a group's types, checked in the order in which they stand.

ghost use Rattle.std.specs.Prelude.{◌+◌, map};
ghost use Rattle.wasm_types.specs.decoding.Denials.{Tells};
ghost use Rattle.wasm_types.specs.trees.Each.{EachOption};
ghost use Rattle.wasm_types.specs.Entries.{declared_of};
ghost use Rattle.wasm_module_validator_canonical_types.specs.Canonical.{IsIndexBefore, EachIn, IsTypeAllowed, AreTypesAllowed};
ghost use Rattle.wasm_module_validator_canonical_types.specs.Refused.{FailsAt};

use crate::parts::{Bounds, reaches};
use wasm_types::{Error, ModuleWords, PackedIndex, Result, SubType, Words};

// Refuses a supertype that does not stand before its subtype, at this place of its group.
fn check_supertypes(start: u32, place: usize, supertypes: &[PackedIndex], offset: u64) -> Result<()>
    ensures answer { Tells result (EachIn (IsIndexBefore (start + place)) supertypes.now) }
    ensures at { FailsAt offset result }
{
    for i in 0..supertypes.len() {
        if let Some(index) = supertypes[i].as_module_index() {
            if reaches(start, place, index) {
                return Err(Error::new(
                    Words::Module(ModuleWords::SupertypesMustBeDefinedBeforeSubtypes),
                    offset,
                ));
            }
        }
    }
    Ok(())
}

// Refuses a type that describes one that does not stand before it.
fn check_describes(
    start: u32,
    place: usize,
    describes: Option<PackedIndex>,
    offset: u64,
) -> Result<()>
    ensures answer { Tells result (EachOption (IsIndexBefore (start + place)) describes) }
    ensures at { FailsAt offset result }
{
    let Some(index) = describes else {
        return Ok(());
    };
    match index.as_module_index() {
        Some(index) => {
            if reaches(start, place, index) {
                return Err(Error::new(
                    Words::Module(ModuleWords::ForwardDescribesReference),
                    offset,
                ));
            }
            Ok(())
        }
        None => Ok(()),
    }
}

impl Bounds {
    // Refuses a type, at this place of the group, for an index that it may not have.
    fn check_type(&self, place: usize, ty: &SubType) -> Result<()>
        ensures answer { Tells result (IsTypeAllowed self.now.allow_gc self.now.start (self.now.start + self.now.len)
            (self.now.start + place) (declared_of ty.now)) }
        ensures at { FailsAt self.now.offset result }
    {
        check_supertypes(self.start, place, ty.supertype_idxs.as_slice(), self.offset)?;
        check_describes(
            self.start,
            place,
            ty.composite_type.describes_idx,
            self.offset,
        )?;
        self.check_list(ty.supertype_idxs.as_slice())?;
        self.check_inner(&ty.composite_type.inner)?;
        self.check_option(ty.composite_type.descriptor_idx)?;
        self.check_option(ty.composite_type.describes_idx)
    }

    /// Refuses the first of these types that has an index that it may not have: a supertype, or a type that it describes,
    /// not before itself; an index past the group's end; or one of the group itself where garbage collection is not allowed.
    pub(crate) fn check_types(&self, types: &[SubType]) -> Result<()>
        ensures answer { Tells result (AreTypesAllowed self.now.allow_gc self.now.start
            (self.now.start + self.now.len) self.now.start (map declared_of types.now)) }
        ensures at { FailsAt self.now.offset result }
    {
        for i in 0..types.len() {
            self.check_type(i, &types[i])?;
        }
        Ok(())
    }
}
