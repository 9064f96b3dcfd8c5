//! What stands in the index spaces of a module.

ghost use Rattle.std.specs.Prelude.{◌≡◌, ◌<◌, ◌^◌, ◌-◌, length, min, slice_get, Some};
ghost use Rattle.wasm_module_validator_index_spaces.specs.declared.module.Function.{Function};

use crate::view::TypesRef;
use wasm_types::{CoreTypeId, GlobalType, MemoryType, RefType, TableType};

// How many there are, by 32 bits.
fn counted<T>(items: &[T]) -> u32
    ensures { result ≡ min (length items.now) (2 ^ 32 - 1) }
{
    u32::try_from(items.len()).unwrap_or(u32::MAX)
}

// What stands at an index that is there.
fn known<T: Copy>(items: &[T], index: u32) -> T
    requires { index < length items.now }
    ensures { slice_get items.now index ≡ Some result }
{
    items[index as usize]
}

impl<'a> TypesRef<'a> {
    /// The id of the type at an index of the module.
    pub fn core_type_at_in_module(&self, index: u32) -> CoreTypeId
        requires { index < length self.now.spaces.types }
        ensures { slice_get self.now.spaces.types index ≡ Some result }
    {
        known(self.module.type_ids(), index)
    }

    /// How many types the module has, ending at the largest number of 32 bits.
    pub fn core_type_count_in_module(&self) -> u32
        ensures { result ≡ min (length self.now.spaces.types) (2 ^ 32 - 1) }
    {
        counted(self.module.type_ids())
    }

    /// The id of the type of the function at an index.
    pub fn core_function_at(&self, index: u32) -> CoreTypeId
        requires { index < length self.now.spaces.functions }
        ensures { (f : Function) → slice_get self.now.spaces.functions index ≡ Some f
            → slice_get self.now.spaces.types f.type_index ≡ Some result }
    {
        match self.module.function_at(index) {
            Some(function) => known(self.module.type_ids(), function.type_index),
            None => unreachable!(),
        }
    }

    /// How many functions the module has, with those that are imported.
    pub fn function_count(&self) -> u32
        ensures { result ≡ length self.now.spaces.functions }
    {
        self.module.function_count()
    }

    /// How many element segments the module has.
    pub fn element_count(&self) -> u32
        ensures { result ≡ length self.now.spaces.elements }
    {
        self.module.element_count()
    }

    /// The type of the elements of the segment at an index.
    pub fn element_at(&self, index: u32) -> RefType
        requires { index < length self.now.spaces.elements }
        ensures { slice_get self.now.spaces.elements index ≡ Some result }
    {
        known(self.module.element_types(), index)
    }

    /// The id of the type of the tag at an index.
    pub fn tag_at(&self, index: u32) -> CoreTypeId
        requires { index < length self.now.spaces.tags }
        ensures { slice_get self.now.spaces.tags index ≡ Some result }
    {
        known(self.module.tags(), index)
    }

    /// How many tags the module has, ending at the largest number of 32 bits.
    pub fn tag_count(&self) -> u32
        ensures { result ≡ min (length self.now.spaces.tags) (2 ^ 32 - 1) }
    {
        counted(self.module.tags())
    }

    /// The table at an index. Its type names types of the module by their ids.
    pub fn table_at(&self, index: u32) -> TableType
        requires { index < length self.now.spaces.tables }
        ensures { slice_get self.now.spaces.tables index ≡ Some result }
    {
        known(self.module.tables(), index)
    }

    /// How many tables the module has, with those that are imported, ending at the largest number of 32 bits.
    pub fn table_count(&self) -> u32
        ensures { result ≡ min (length self.now.spaces.tables) (2 ^ 32 - 1) }
    {
        counted(self.module.tables())
    }

    /// The memory at an index.
    pub fn memory_at(&self, index: u32) -> MemoryType
        requires { index < length self.now.spaces.memories }
        ensures { slice_get self.now.spaces.memories index ≡ Some result }
    {
        known(self.module.memories(), index)
    }

    /// How many memories the module has, with those that are imported, ending at the largest number of 32 bits.
    pub fn memory_count(&self) -> u32
        ensures { result ≡ min (length self.now.spaces.memories) (2 ^ 32 - 1) }
    {
        counted(self.module.memories())
    }

    /// The global at an index. Its type names types of the module by their ids.
    pub fn global_at(&self, index: u32) -> GlobalType
        requires { index < length self.now.spaces.globals }
        ensures { slice_get self.now.spaces.globals index ≡ Some result }
    {
        known(self.module.globals(), index)
    }

    /// How many globals the module has, with those that are imported, ending at the largest number of 32 bits.
    pub fn global_count(&self) -> u32
        ensures { result ≡ min (length self.now.spaces.globals) (2 ^ 32 - 1) }
    {
        counted(self.module.globals())
    }
}
