//! Types with their indices replaced.

ghost use Rattle.std.specs.Prelude.{◌≡◌, ◌++◌, map};
ghost use Rattle.std.specs.List.{flat_map};
ghost use Rattle.wasm_types_values.specs.Remap.{Remapped, IsWalked};
ghost use Rattle.wasm_types_fields.specs.Remap.{inner_shape, inner_indices};
ghost use Rattle.wasm_types.specs.Entries.{inner_of, composite_of, declared_of};
ghost use Rattle.wasm_types.specs.Remap.{list_shape, entry_shape, entry_indices, declared_shape, declared_indices, OptionRemapped};

use crate::{CompositeInnerType, CompositeType, SubType};
use wasm_types_fields::{PackedIndex, Result};

// An index that may be absent, replaced.
fn remap_option<F: Fn(PackedIndex) -> Result<PackedIndex>>(
    index: Option<PackedIndex>,
    f: &F,
) -> Result<Option<PackedIndex>>
    requires { F.IsAlwaysCallable f.now }
    ensures remapped { OptionRemapped (F.post f.now) result index }
{
    match index {
        Some(index) => {
            let index = f(index)?;
            Ok(Some(index))
        }
        None => Ok(None),
    }
}

// Each of these indices replaced.
fn remap_list<F: Fn(PackedIndex) -> Result<PackedIndex>>(
    indices: &mut [PackedIndex],
    f: &F,
) -> Result<()>
    requires { F.IsAlwaysCallable f.now }
    ensures remapped { Remapped list_shape (λ is. is) (F.post f.now) result indices.old indices.new }
{
    for place in 0..indices.len() {
        indices[place] = f(indices[place])?;
    }
    Ok(())
}

// The supertypes and the composite type of a subtype, with each index replaced.
fn remap_declared<F: Fn(PackedIndex) -> Result<PackedIndex>>(
    supertypes: &mut [PackedIndex],
    composite: &mut CompositeType,
    f: &F,
) -> Result<()>
    requires { F.IsAlwaysCallable f.now }
    ensures supertypes { list_shape supertypes.new ≡ list_shape supertypes.old }
    ensures composite { entry_shape (composite_of composite.new) ≡ entry_shape (composite_of composite.old) }
    ensures walked { IsWalked (F.post f.now) result (supertypes.old ++ entry_indices (composite_of composite.old))
        (supertypes.new ++ entry_indices (composite_of composite.new)) }
{
    remap_list(supertypes, f)?;
    composite.remap_indices(f)
}

impl CompositeInnerType {
    /// Replaces each index by what `f` makes of it, in order. Where `f` refuses one, so does the call: the indices before it
    /// are replaced, and it and those behind it stay.
    pub fn remap_indices<F: Fn(PackedIndex) -> Result<PackedIndex>>(&mut self, f: &F) -> Result<()>
        requires { F.IsAlwaysCallable f.now }
        ensures remapped { Remapped inner_shape inner_indices (F.post f.now) result (inner_of self.old)
            (inner_of self.new) }
    {
        match self {
            CompositeInnerType::Func(ty) => ty.remap_indices(f),
            CompositeInnerType::Array(ty) => ty.remap_indices(f),
            CompositeInnerType::Struct(ty) => ty.remap_indices(f),
            CompositeInnerType::Cont(ty) => ty.remap_indices(f),
        }
    }
}

impl CompositeType {
    /// Replaces each index by what `f` makes of it, in order. Where `f` refuses one, so does the call: the indices before it
    /// are replaced, and it and those behind it stay.
    pub fn remap_indices<F: Fn(PackedIndex) -> Result<PackedIndex>>(&mut self, f: &F) -> Result<()>
        requires { F.IsAlwaysCallable f.now }
        ensures remapped { Remapped entry_shape entry_indices (F.post f.now) result (composite_of self.old)
            (composite_of self.new) }
    {
        self.inner.remap_indices(f)?;
        self.descriptor_idx = remap_option(self.descriptor_idx, f)?;
        self.describes_idx = remap_option(self.describes_idx, f)?;
        Ok(())
    }
}

impl SubType {
    /// Replaces each index by what `f` makes of it, in order. Where `f` refuses one, so does the call: the indices before it
    /// are replaced, and it and those behind it stay.
    #[tactic(auto, using(crate::proofs::Remapping::same_declared))]
    pub fn remap_indices<F: Fn(PackedIndex) -> Result<PackedIndex>>(&mut self, f: &F) -> Result<()>
        requires { F.IsAlwaysCallable f.now }
        ensures remapped { Remapped declared_shape declared_indices (F.post f.now) result (declared_of self.old)
            (declared_of self.new) }
    {
        let supertypes = self.supertype_idxs.as_mut_slice();
        remap_declared(supertypes, &mut self.composite_type, f)
    }
}

// Each of these types with its indices replaced.
pub(crate) fn remap_types<F: Fn(PackedIndex) -> Result<PackedIndex>>(
    types: &mut [SubType],
    f: &F,
) -> Result<()>
    requires { F.IsAlwaysCallable f.now }
    ensures remapped { Remapped (map declared_shape) (flat_map declared_indices) (F.post f.now) result
        (map declared_of types.old) (map declared_of types.new) }
{
    for place in 0..types.len() {
        types[place].remap_indices(f)?;
    }
    Ok(())
}
