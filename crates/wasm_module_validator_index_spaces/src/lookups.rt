//! What stands at an index of a module.

ghost use Rattle.std.specs.Prelude.{◌≡◌, ◌<◌, IfSome, length, slice_get};

use crate::{Function, Module};
use wasm_module_validator_canonical_types::InternRecGroup;
use wasm_types::{CoreTypeId, GlobalType, Limits, MemoryType, RefType, TableType, WasmFeatures};

impl Module {
    /// The features that are allowed.
    pub fn features(&self) -> WasmFeatures
        ensures { result.0 ≡ self.now.settings.features }
    {
        *self.types.features()
    }

    /// The limits that hold.
    pub fn limits(&self) -> Limits
        ensures { result ≡ self.now.settings.limits }
    {
        *self.types.limits()
    }

    /// The ids of its types, in the order of their indices.
    pub fn type_ids(&self) -> &[CoreTypeId]
        ensures { result.now ≡ self.now.types }
    {
        self.types.type_ids()
    }

    /// The id of the type at an index.
    pub fn type_id(&self, index: u32) -> Option<CoreTypeId>
        ensures { result ≡ slice_get self.now.types index }
    {
        self.types.type_ids().get(index as usize).copied()
    }

    /// The function at an index. Its type is one of the module's.
    pub fn function_at(&self, at: u32) -> Option<Function>
        ensures value { result ≡ slice_get self.now.functions at }
        ensures typed { IfSome result (λ f. f.type_index < length self.now.types) }
    {
        self.functions.get(at as usize).copied()
    }

    /// How many functions there are.
    pub fn function_count(&self) -> u32
        ensures { result ≡ length self.now.functions }
    {
        self.functions.len() as u32
    }

    /// Its tables, in the order of their indices.
    pub fn tables(&self) -> &[TableType]
        ensures { result.now ≡ self.now.tables }
    {
        self.tables.as_slice()
    }

    /// Its memories, in the order of their indices.
    pub fn memories(&self) -> &[MemoryType]
        ensures { result.now ≡ self.now.memories }
    {
        self.memories.as_slice()
    }

    /// Its globals, in the order of their indices.
    pub fn globals(&self) -> &[GlobalType]
        ensures { result.now ≡ self.now.globals }
    {
        self.globals.as_slice()
    }

    /// The ids of the types of its tags, in the order of their indices.
    pub fn tags(&self) -> &[CoreTypeId]
        ensures { result.now ≡ self.now.tags }
    {
        self.tags.as_slice()
    }

    /// The types of the elements of its element segments, in the order of their indices.
    pub fn element_types(&self) -> &[RefType]
        ensures { result.now ≡ self.now.elements }
    {
        self.element_types.as_slice()
    }

    /// The table at an index.
    pub fn table_at(&self, at: u32) -> Option<TableType>
        ensures { result ≡ slice_get self.now.tables at }
    {
        self.tables.get(at as usize).copied()
    }

    /// The memory at an index.
    pub fn memory_at(&self, at: u32) -> Option<MemoryType>
        ensures { result ≡ slice_get self.now.memories at }
    {
        self.memories.get(at as usize).copied()
    }

    /// The global at an index.
    pub fn global_at(&self, at: u32) -> Option<GlobalType>
        ensures { result ≡ slice_get self.now.globals at }
    {
        self.globals.get(at as usize).copied()
    }

    /// The id of the type of the tag at an index.
    pub fn tag_at(&self, at: u32) -> Option<CoreTypeId>
        ensures { result ≡ slice_get self.now.tags at }
    {
        self.tags.get(at as usize).copied()
    }

    /// The type of the elements of the segment at an index.
    pub fn element_type_at(&self, at: u32) -> Option<RefType>
        ensures { result ≡ slice_get self.now.elements at }
    {
        self.element_types.get(at as usize).copied()
    }

    /// How many element segments there are.
    pub fn element_count(&self) -> u32
        ensures { result ≡ length self.now.elements }
    {
        self.element_types.len() as u32
    }

    /// How many data segments the data count section names, where it stands.
    pub fn data_count(&self) -> Option<u32>
        ensures { result ≡ self.now.data_count }
    {
        self.data_segments
    }

    /// How many functions are imported.
    pub fn imported_functions(&self) -> u32
        ensures { result ≡ self.now.imported_functions }
    {
        self.imported_functions
    }

    /// How many globals are imported.
    pub fn imported_globals(&self) -> u32
        ensures { result ≡ self.now.imported_globals }
    {
        self.imported_globals
    }
}
