//! Types with their indices replaced.

ghost use Rattle.std.specs.Prelude.{◌≡◌, OnErr, map};
ghost use Rattle.std.specs.List.{flat_map};
ghost use Rattle.wasm_types_values.specs.Remap.{Remapped, value_shape, value_indices};
ghost use Rattle.wasm_types_values.specs.Values.{value_of};
ghost use Rattle.wasm_types_fields.specs.Fields.{field_of, array_tree, continuation_tree, struct_tree};
ghost use Rattle.wasm_types_fields.specs.Remap.{field_shape, field_indices, inner_shape, inner_indices};

use crate::{ArrayType, ContType, FieldType, StructType};
use wasm_types_values::{PackedIndex, Result, ValType};

// Each of these types with its index replaced.
pub(crate) fn remap_values<F: Fn(PackedIndex) -> Result<PackedIndex>>(
    types: &mut [ValType],
    f: &F,
) -> Result<()>
    requires { F.IsAlwaysCallable f.now }
    ensures remapped { Remapped (map value_shape) (flat_map value_indices) (F.post f.now) result
        (map value_of types.old) (map value_of types.new) }
{
    for place in 0..types.len() {
        types[place].remap_indices(f)?;
    }
    Ok(())
}

// Each of these fields with its index replaced.
fn remap_fields<F: Fn(PackedIndex) -> Result<PackedIndex>>(
    fields: &mut [FieldType],
    f: &F,
) -> Result<()>
    requires { F.IsAlwaysCallable f.now }
    ensures remapped { Remapped (map field_shape) (flat_map field_indices) (F.post f.now) result
        (map field_of fields.old) (map field_of fields.new) }
{
    for place in 0..fields.len() {
        fields[place].remap_indices(f)?;
    }
    Ok(())
}

impl FieldType {
    /// Replaces its index, if it has one, by what `f` makes of it. Where `f` refuses, so does the call, and the type stays.
    pub fn remap_indices<F: Fn(PackedIndex) -> Result<PackedIndex>>(&mut self, f: &F) -> Result<()>
        requires { F.IsAlwaysCallable f.now }
        ensures remapped { Remapped field_shape field_indices (F.post f.now) result (field_of self.old)
            (field_of self.new) }
        ensures stays { OnErr result (self.new ≡ self.old) }
    {
        self.element_type.remap_indices(f)
    }
}

impl ArrayType {
    /// Replaces its index, if it has one, by what `f` makes of it. Where `f` refuses, so does the call, and the type stays.
    pub fn remap_indices<F: Fn(PackedIndex) -> Result<PackedIndex>>(&mut self, f: &F) -> Result<()>
        requires { F.IsAlwaysCallable f.now }
        ensures remapped { Remapped inner_shape inner_indices (F.post f.now) result (array_tree self.old)
            (array_tree self.new) }
        ensures stays { OnErr result (self.new ≡ self.old) }
    {
        self.0.remap_indices(f)
    }
}

impl ContType {
    /// Replaces its index by what `f` makes of it. Where `f` refuses, so does the call, and the type stays.
    pub fn remap_indices<F: Fn(PackedIndex) -> Result<PackedIndex>>(&mut self, f: &F) -> Result<()>
        requires { F.IsAlwaysCallable f.now }
        ensures remapped { Remapped inner_shape inner_indices (F.post f.now) result (continuation_tree self.old)
            (continuation_tree self.new) }
        ensures stays { OnErr result (self.new ≡ self.old) }
    {
        self.0 = f(self.0)?;
        Ok(())
    }
}

impl StructType {
    /// Replaces each index by what `f` makes of it, in order. Where `f` refuses one, so does the call: the indices before it
    /// are replaced, and it and those behind it stay.
    pub fn remap_indices<F: Fn(PackedIndex) -> Result<PackedIndex>>(&mut self, f: &F) -> Result<()>
        requires { F.IsAlwaysCallable f.now }
        ensures remapped { Remapped inner_shape inner_indices (F.post f.now) result (struct_tree self.old)
            (struct_tree self.new) }
    {
        remap_fields(self.fields.as_mut_slice(), f)
    }
}
