//! Types with their indices replaced.

ghost use Rattle.std.specs.Prelude.{◌≡◌, OnErr};
ghost use Rattle.wasm_types_values.specs.Remap.{Remapped, value_shape, value_indices, storage_shape, storage_indices};
ghost use Rattle.wasm_types_values.specs.Values.{value_of, storage_of};

use crate::{RefType, StorageType, ValType};
use wasm_types_reader::Result;
use wasm_types_trees::PackedIndex;

impl ValType {
    /// Replaces its index, if it has one, by what `f` makes of it. Where `f` refuses, so does the call, and the type stays.
    #[tactic(auto, using(crate::proofs::Remapping::refused_value, crate::proofs::Remapping::replaced_exact, crate::proofs::Remapping::replaced_concrete))]
    pub fn remap_indices<F: Fn(PackedIndex) -> Result<PackedIndex>>(&mut self, f: &F) -> Result<()>
        requires { F.IsAlwaysCallable f.now }
        ensures remapped { Remapped value_shape value_indices (F.post f.now) result (value_of self.old)
            (value_of self.new) }
        ensures stays { OnErr result (self.new ≡ self.old) }
    {
        let Some(ty) = self.as_reference_type() else {
            return Ok(());
        };
        let Some(index) = ty.type_index() else {
            return Ok(());
        };
        let index = f(index)?;
        if ty.is_exact_type_ref() {
            *self = ValType::Ref(RefType::exact(ty.is_nullable(), index));
            return Ok(());
        }
        *self = ValType::Ref(RefType::concrete(ty.is_nullable(), index));
        Ok(())
    }
}

impl StorageType {
    /// Replaces its index, if it has one, by what `f` makes of it. Where `f` refuses, so does the call, and the type stays.
    pub fn remap_indices<F: Fn(PackedIndex) -> Result<PackedIndex>>(&mut self, f: &F) -> Result<()>
        requires { F.IsAlwaysCallable f.now }
        ensures remapped { Remapped storage_shape storage_indices (F.post f.now) result (storage_of self.old)
            (storage_of self.new) }
        ensures stays { OnErr result (self.new ≡ self.old) }
    {
        match self {
            StorageType::I8 | StorageType::I16 => Ok(()),
            StorageType::Val(ty) => ty.remap_indices(f),
        }
    }
}
