//! The indices of types, checked one by one.

ghost use Rattle.std.specs.Prelude.{◌≡◌, ◌↔◌, ◌+◌, ◌≤◌, IsTrue, map};
ghost use Rattle.wasm_types.specs.decoding.Denials.{Tells};
ghost use Rattle.wasm_types.specs.decoding.declared.error.ErrorKind.TheVariants.{Other};
ghost use Rattle.wasm_types.specs.trees.Each.{EachOption, EachHeap, EachValue, EachStorage, EachValues, EachFields, EachInner};
ghost use Rattle.wasm_types.specs.values.Trees.{heap_of};
ghost use Rattle.wasm_types.specs.values.Values.{value_of, storage_of};
ghost use Rattle.wasm_types.specs.fields.Fields.{field_of};
ghost use Rattle.wasm_types.specs.Entries.{inner_of};
ghost use Rattle.wasm_module_validator_canonical_types.specs.Canonical.{IsIndexAllowed, EachIn};
ghost use Rattle.wasm_module_validator_canonical_types.specs.Refused.{FailsAt};

use wasm_types::{
    CompositeInnerType, Error, FieldType, HeapType, ModuleWords, PackedIndex, Result, StorageType,
    Text, UnpackedIndex, ValType, Words,
};

/// What is asked of the indices of a group: from `start` on as many as it has types are its own, which its types may refer to
/// only where garbage collection is allowed. The group stands at `offset`.
#[derive(Clone, Copy)]
pub(crate) struct Bounds {
    pub allow_gc: bool,
    pub start: u32,
    pub len: usize,
    pub offset: u64,
}

/// Whether an index is that of this place behind `start`, or a later one.
pub(crate) fn reaches(start: u32, place: usize, index: u32) -> bool
    ensures { IsTrue result ↔ (start + place ≤ index) }
{
    index >= start && (index - start) as usize >= place
}

// The refusal of an index past the end.
#[cold]
fn unknown_type(index: u32, offset: u64) -> Error
    ensures kind { result.kind ≡ Other }
    ensures offset { result.offset ≡ offset }
{
    Error::with(
        Text::Number(Words::UnknownType, index, Words::TypeIndexOutOfBounds),
        offset,
    )
}

// The refusal of an index of the group itself, where types may refer to earlier groups alone.
#[cold]
fn needs_gc(index: u32, offset: u64) -> Error
    ensures kind { result.kind ≡ Other }
    ensures offset { result.offset ≡ offset }
{
    Error::with(
        Text::Number(
            Words::UnknownType,
            index,
            Words::Module(ModuleWords::TypeIndexOutOfBoundsBecauseTheGCProposalIsDisabled),
        ),
        offset,
    )
}

impl Bounds {
    /// Refuses an index that the group may not have.
    pub(crate) fn check_index(&self, index: UnpackedIndex) -> Result<()>
        ensures answer { Tells result (IsIndexAllowed self.now.allow_gc self.now.start
            (self.now.start + self.now.len) index) }
        ensures at { FailsAt self.now.offset result }
    {
        let UnpackedIndex::Module(index) = index else {
            return Ok(());
        };
        if reaches(self.start, self.len, index) {
            return Err(unknown_type(index, self.offset));
        }
        if index >= self.start && !self.allow_gc {
            return Err(needs_gc(index, self.offset));
        }
        Ok(())
    }

    // The same of an index that may be absent.
    pub(crate) fn check_option(&self, index: Option<PackedIndex>) -> Result<()>
        ensures answer { Tells result (EachOption (IsIndexAllowed self.now.allow_gc self.now.start
            (self.now.start + self.now.len)) index) }
        ensures at { FailsAt self.now.offset result }
    {
        match index {
            Some(index) => self.check_index(index.unpack()),
            None => Ok(()),
        }
    }

    /// Refuses the first of these indices that the group may not have.
    pub(crate) fn check_list(&self, indices: &[PackedIndex]) -> Result<()>
        ensures answer { Tells result (EachIn (IsIndexAllowed self.now.allow_gc self.now.start
            (self.now.start + self.now.len)) indices.now) }
        ensures at { FailsAt self.now.offset result }
    {
        for i in 0..indices.len() {
            self.check_index(indices[i].unpack())?;
        }
        Ok(())
    }

    fn check_heap(&self, ty: HeapType) -> Result<()>
        ensures answer { Tells result (EachHeap (IsIndexAllowed self.now.allow_gc self.now.start
            (self.now.start + self.now.len)) (heap_of ty)) }
        ensures at { FailsAt self.now.offset result }
    {
        match ty {
            HeapType::Abstract { shared: _, ty: _ } => Ok(()),
            HeapType::Concrete(index) => self.check_index(index),
            HeapType::Exact(index) => self.check_index(index),
        }
    }

    fn check_value(&self, ty: &ValType) -> Result<()>
        ensures answer { Tells result (EachValue (IsIndexAllowed self.now.allow_gc self.now.start
            (self.now.start + self.now.len)) (value_of ty.now)) }
        ensures at { FailsAt self.now.offset result }
    {
        match ty {
            ValType::Ref(ty) => self.check_heap(ty.heap_type()),
            ValType::I32 => Ok(()),
            ValType::I64 => Ok(()),
            ValType::F32 => Ok(()),
            ValType::F64 => Ok(()),
            ValType::V128 => Ok(()),
        }
    }

    fn check_storage(&self, ty: &StorageType) -> Result<()>
        ensures answer { Tells result (EachStorage (IsIndexAllowed self.now.allow_gc self.now.start
            (self.now.start + self.now.len)) (storage_of ty.now)) }
        ensures at { FailsAt self.now.offset result }
    {
        match ty {
            StorageType::I8 => Ok(()),
            StorageType::I16 => Ok(()),
            StorageType::Val(ty) => self.check_value(ty),
        }
    }

    fn check_values(&self, types: &[ValType]) -> Result<()>
        ensures answer { Tells result (EachValues (IsIndexAllowed self.now.allow_gc self.now.start
            (self.now.start + self.now.len)) (map value_of types.now)) }
        ensures at { FailsAt self.now.offset result }
    {
        for i in 0..types.len() {
            self.check_value(&types[i])?;
        }
        Ok(())
    }

    fn check_fields(&self, fields: &[FieldType]) -> Result<()>
        ensures answer { Tells result (EachFields (IsIndexAllowed self.now.allow_gc self.now.start
            (self.now.start + self.now.len)) (map field_of fields.now)) }
        ensures at { FailsAt self.now.offset result }
    {
        for i in 0..fields.len() {
            self.check_storage(&fields[i].element_type)?;
        }
        Ok(())
    }

    /// Refuses the first index of a composite type that the group may not have.
    pub(crate) fn check_inner(&self, inner: &CompositeInnerType) -> Result<()>
        ensures answer { Tells result (EachInner (IsIndexAllowed self.now.allow_gc self.now.start
            (self.now.start + self.now.len)) (inner_of inner.now)) }
        ensures at { FailsAt self.now.offset result }
    {
        match inner {
            CompositeInnerType::Func(ty) => {
                self.check_values(ty.params())?;
                self.check_values(ty.results())
            }
            CompositeInnerType::Array(ty) => self.check_storage(&ty.0.element_type),
            CompositeInnerType::Struct(ty) => self.check_fields(ty.fields.as_slice()),
            CompositeInnerType::Cont(ty) => self.check_index(ty.0.unpack()),
        }
    }
}
