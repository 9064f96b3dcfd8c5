//! Recursion groups.

ghost use Rattle.std.specs.Prelude.{◌≡◌, length};

use crate::SubType;
use crate::remap::remap_types;
use std::alloc::{AllocError, Global};
use std::iter::Zip;
use std::vec::IntoIter;
use wasm_types_fields::{PackedIndex, Result as Reading};

/// The types of a group, in order, each with its offset.
pub type TypesAndOffsets = Zip<IntoIter<u64>, IntoIter<SubType>>;

/// Types that may refer to one another (WebAssembly 3.0, structure, recursive types), each with its offset in the input.
///
/// Groups are equal, ordered and hashed as the lists of their types: neither the offsets nor whether the group was written
/// as one count.
#[derive(Debug, Drop)]
#[derive_where(PartialEq, Eq, PartialOrd, Ord, Hash)]
pub struct RecGroup {
    types: Vec<SubType>,
    #[derive_where(skip(EqHashOrd))]
    offsets: Vec<u64>,
    #[derive_where(skip(EqHashOrd))]
    is_explicit: bool,
    ghost even: { length types.items ≡ length offsets.items },
}

impl Clone for RecGroup {
    ghost use Rattle.wasm_types.specs.Copies.{IsCopy};

    ghost is_clone = { IsCopy };

    fn clone(&self) -> Result<RecGroup, AllocError> {
        let types = self.types.clone()?;
        let offsets = self.offsets.clone()?;
        Ok(RecGroup {
            types,
            offsets,
            is_explicit: self.is_explicit,
        })
    }
}

impl RecGroup {
    ghost use Rattle.std.specs.Prelude.{[], ◌∷◌, true, false, IfOk, map};
    ghost use Rattle.std.specs.List.{flat_map};
    ghost use Rattle.wasm_types_values.specs.Remap.{Remapped};
    ghost use Rattle.wasm_types.specs.Remap.{declared_shape, declared_indices};
    ghost use Rattle.std.specs.Iterator.Adapters.{zip_first, zip_second};
    ghost use Rattle.wasm_types.specs.Entries.{subtypes, declared_types};
    ghost use Rattle.std.specs.Vec.Iter.{into_iter_items, into_iter_len};

    /// A group that was written as one, of these types and their offsets.
    pub fn explicit(types: Vec<SubType>, offsets: Vec<u64>) -> RecGroup
        requires { length types.items ≡ length offsets.items }
        ensures types { subtypes result ≡ types.items }
        ensures offsets { result.offsets.items ≡ offsets.items }
        ensures explicit { result.is_explicit ≡ true }
    {
        RecGroup {
            types,
            offsets,
            is_explicit: true,
        }
    }

    /// A type that was written outside a group, and is one of its own.
    pub fn implicit(alloc: Global, offset: u64, ty: SubType) -> Result<RecGroup, AllocError>
        ensures types { IfOk result (λ g. subtypes g ≡ ty ∷ []) }
        ensures offsets { IfOk result (λ g. g.offsets.items ≡ offset ∷ []) }
        ensures explicit { IfOk result (λ g. g.is_explicit ≡ false) }
    {
        let mut types = Vec::new(alloc);
        types.push(ty)?;
        let mut offsets = Vec::new(alloc);
        offsets.push(offset)?;
        Ok(RecGroup {
            types,
            offsets,
            is_explicit: false,
        })
    }

    /// Whether it was written as a group.
    pub fn is_explicit_rec_group(&self) -> bool
        ensures { result ≡ self.now.is_explicit }
    {
        self.is_explicit
    }

    /// The types, in order.
    pub fn types(&self) -> &[SubType]
        ensures { result.now ≡ subtypes self.now }
    {
        self.types.as_slice()
    }

    /// The types, in order, without the group.
    pub fn into_types(self) -> Vec<SubType>
        ensures { result.items ≡ subtypes self }
    {
        self.types
    }

    /// The types, in order, each with its offset in the input.
    pub fn into_types_and_offsets(self) -> TypesAndOffsets
        ensures offsets { into_iter_items (zip_first result) ≡ self.offsets.items }
        ensures types { into_iter_items (zip_second result) ≡ subtypes self }
        ensures even { length self.offsets.items ≡ length (subtypes self) }
        ensures len { (into_iter_len (zip_first result) ≡ length (subtypes self))
            × (into_iter_len (zip_second result) ≡ length (subtypes self)) }
    {
        self.offsets.into_iter().zip(self.types)
    }

    /// Replaces each index of its types by what `f` makes of it, in order. Where `f` refuses one, so does the call: the indices
    /// before it are replaced, and it and those behind it stay.
    pub fn remap_indices<F: Fn(PackedIndex) -> Reading<PackedIndex>>(
        &mut self,
        f: &F,
    ) -> Reading<()>
        requires { F.IsAlwaysCallable f.now }
        ensures remapped { Remapped (map declared_shape) (flat_map declared_indices) (F.post f.now) result
            (declared_types self.old) (declared_types self.new) }
        ensures offsets { self.new.offsets.items ≡ self.old.offsets.items }
        ensures explicit { self.new.is_explicit ≡ self.old.is_explicit }
    {
        remap_types(self.types.as_mut_slice(), f)
    }
}
