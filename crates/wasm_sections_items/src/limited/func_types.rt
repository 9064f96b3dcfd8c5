//! The function types of a type section that has no others.

ghost use Rattle.std.specs.Prelude.{◌≡◌};
ghost use Rattle.std.specs.Iterator.{at_most};
ghost use Rattle.wasm_types.specs.decoding.declared.error.ErrorKind.TheVariants.{Other};
ghost use Rattle.wasm_types.specs.SpellsTypes.{group_value, inner_value, composite_value, sub_value};
ghost use Rattle.wasm_sections_items.specs.limited.Walking.{fresh, items_left};
ghost use Rattle.wasm_sections_items.specs.limited.Runs.{place_of_functions, told, plain, Steps};
ghost use Rattle.wasm_sections_items.specs.limited.Functions.{inner_function, composite_function, sub_function, only_function, function_alone};

use crate::limited::{SectionLimited, SectionLimitedIntoIterWithOffsets};
use wasm_types::{
    CompositeInnerType, CompositeType, Error, FuncType, RecGroup, Result, SubType, Words,
};

/// The function types of a type section, as many as its groups. A group that is not one function type, final, below no type,
/// not shared and without descriptors, is refused where it begins, and nothing comes behind an error.
#[derive(Drop)]
pub struct FuncTypesIntoIter<'a> {
    groups: SectionLimitedIntoIterWithOffsets<'a, RecGroup>,
}

// The function type that a type is by its constructor.
fn inner_function(ty: CompositeInnerType) -> Option<FuncType>
    ensures { result ≡ inner_function (inner_value ty) }
{
    match ty {
        CompositeInnerType::Func(ty) => Some(ty),
        CompositeInnerType::Array(_) => None,
        CompositeInnerType::Struct(_) => None,
        CompositeInnerType::Cont(_) => None,
    }
}

// The function type that a composite type is, and nothing else.
fn composite_function(ty: CompositeType) -> Option<FuncType>
    ensures { result ≡ composite_function (composite_value ty) }
{
    if ty.shared {
        return None;
    }
    if ty.descriptor_idx.is_some() {
        return None;
    }
    if ty.describes_idx.is_some() {
        return None;
    }
    inner_function(ty.inner)
}

// The function type that a subtype is, final and below no type.
fn sub_function(ty: SubType) -> Option<FuncType>
    ensures { result ≡ sub_function (sub_value ty) }
{
    if !ty.is_final {
        return None;
    }
    if !ty.supertype_idxs.is_empty() {
        return None;
    }
    composite_function(ty.composite_type)
}

// The function type that a group is.
fn only_function(group: RecGroup) -> Option<FuncType>
    ensures { result ≡ only_function (group_value group).types }
{
    let mut types = group.into_types();
    let Some(ty) = types.pop() else {
        return None;
    };
    if !types.is_empty() {
        return None;
    }
    sub_function(ty)
}

// The error of a group that is not one function type.
#[cold]
fn no_function(offset: u64) -> Error
    ensures kind { result.kind ≡ Other }
    ensures offset { result.offset ≡ offset }
{
    Error::new(Words::GcProposalNotSupported, offset)
}

impl<'a> Iterator for FuncTypesIntoIter<'a> {
    type Item = Result<FuncType>;

    ghost use Rattle.std.specs.Prelude.{true};

    ghost next_gives = { Steps function_alone place_of_functions (told true) (plain (λ f. f) function_alone) };

    ghost remaining = { λ s. at_most (items_left s.groups.end s.groups.remaining) };

    fn next(&mut self) -> Option<Result<FuncType>> {
        let (offset, group) = match self.groups.next() {
            None => return None,
            Some(Err(error)) => return Some(Err(error)),
            Some(Ok(item)) => item,
        };
        match only_function(group) {
            Some(ty) => Some(Ok(ty)),
            None => {
                self.groups.end = true;
                Some(Err(no_function(offset)))
            }
        }
    }
}

impl<'a> SectionLimited<'a, RecGroup> {
    /// The function types of a type section, one after the other, for those who know no other types.
    pub fn into_iter_err_on_gc_types(self) -> FuncTypesIntoIter<'a>
        ensures { place_of_functions result ≡ fresh self.entry.count self.entry.reader }
    {
        FuncTypesIntoIter {
            groups: self.into_iter_with_offsets(),
        }
    }
}
