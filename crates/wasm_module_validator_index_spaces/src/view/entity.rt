//! What imports and exports of a module are.

ghost use Rattle.std.specs.Prelude.{◌≡◌, slice_get, option_map};
ghost use Rattle.wasm_module_validator_index_spaces.specs.view.Entities.{function_entity, table_entity, memory_entity, global_entity, tag_entity, own_entity, imported_entity, exported_entity};

use crate::Module;
use crate::view::TypesRef;
use wasm_sections_items::imports::{Export, ExternalKind, Import, TypeRef};
use wasm_types::{CoreTypeId, GlobalType, MemoryType, TableType};

/// What is imported or exported, with its type: of a function or a tag the id of its type.
#[derive(Clone, Copy, Debug, PartialEq, Eq)]
pub enum EntityType {
    /// A function.
    Func(CoreTypeId),
    /// A table.
    Table(TableType),
    /// A memory.
    Memory(MemoryType),
    /// A global.
    Global(GlobalType),
    /// A tag.
    Tag(CoreTypeId),
    /// A function of exactly its type.
    FuncExact(CoreTypeId),
}

// A function whose type has this id, of exactly that type or not.
fn function_of(is_exact: bool, id: CoreTypeId) -> EntityType
    ensures { result ≡ function_entity is_exact id }
{
    if is_exact {
        EntityType::FuncExact(id)
    } else {
        EntityType::Func(id)
    }
}

// The function at an index.
fn exported_function(module: &Module, index: u32) -> Option<EntityType>
    ensures { result ≡ option_map (own_entity «module».now) (slice_get «module».now.functions index) }
{
    let function = match module.function_at(index) {
        Some(function) => function,
        None => return None,
    };
    let is_exact = module.features().custom_descriptors() && function.is_exact;
    match module.type_id(function.type_index) {
        Some(id) => Some(function_of(is_exact, id)),
        None => unreachable!(),
    }
}

// The table at an index.
fn exported_table(module: &Module, index: u32) -> Option<EntityType>
    ensures { result ≡ option_map table_entity (slice_get «module».now.tables index) }
{
    match module.table_at(index) {
        Some(ty) => Some(EntityType::Table(ty)),
        None => None,
    }
}

// The memory at an index.
fn exported_memory(module: &Module, index: u32) -> Option<EntityType>
    ensures { result ≡ option_map memory_entity (slice_get «module».now.memories index) }
{
    match module.memory_at(index) {
        Some(ty) => Some(EntityType::Memory(ty)),
        None => None,
    }
}

// The global at an index.
fn exported_global(module: &Module, index: u32) -> Option<EntityType>
    ensures { result ≡ option_map global_entity (slice_get «module».now.globals index) }
{
    match module.global_at(index) {
        Some(ty) => Some(EntityType::Global(ty)),
        None => None,
    }
}

// The tag at an index.
fn exported_tag(module: &Module, index: u32) -> Option<EntityType>
    ensures { result ≡ option_map tag_entity (slice_get «module».now.tags index) }
{
    match module.tag_at(index) {
        Some(id) => Some(EntityType::Tag(id)),
        None => None,
    }
}

/// What stands at an index of the space of a kind; none past its end.
pub(crate) fn entity_at(module: &Module, kind: ExternalKind, index: u32) -> Option<EntityType>
    ensures { result ≡ exported_entity «module».now kind index }
{
    match kind {
        ExternalKind::Func => exported_function(module, index),
        ExternalKind::FuncExact => exported_function(module, index),
        ExternalKind::Table => exported_table(module, index),
        ExternalKind::Memory => exported_memory(module, index),
        ExternalKind::Global => exported_global(module, index),
        ExternalKind::Tag => exported_tag(module, index),
    }
}

impl<'a> TypesRef<'a> {
    // A function whose type has this index.
    fn imported_function(&self, is_exact: bool, type_index: u32) -> Option<EntityType>
        ensures { result ≡ option_map (function_entity is_exact) (slice_get self.now.spaces.types type_index) }
    {
        match self.module.type_id(type_index) {
            Some(id) => Some(function_of(is_exact, id)),
            None => None,
        }
    }

    // A tag whose type has this index.
    fn imported_tag(&self, type_index: u32) -> Option<EntityType>
        ensures { result ≡ option_map tag_entity (slice_get self.now.spaces.types type_index) }
    {
        match self.module.type_id(type_index) {
            Some(id) => Some(EntityType::Tag(id)),
            None => None,
        }
    }

    /// What an import is. A table or a global has its type as the import has it; none where the module has no type of the index by which
    /// the import names that of a function or a tag.
    pub fn entity_type_from_import(&self, import: &Import<'_>) -> Option<EntityType>
        ensures { result ≡ imported_entity self.now.spaces.types import.now.ty }
    {
        match &import.ty {
            TypeRef::Func(type_index) => self.imported_function(false, *type_index),
            TypeRef::FuncExact(type_index) => self.imported_function(true, *type_index),
            TypeRef::Table(ty) => Some(EntityType::Table(*ty)),
            TypeRef::Memory(ty) => Some(EntityType::Memory(*ty)),
            TypeRef::Global(ty) => Some(EntityType::Global(*ty)),
            TypeRef::Tag(ty) => self.imported_tag(ty.func_type_idx),
        }
    }

    /// What an export is; none where nothing stands at its index. Its types are by ids. Where the features have custom descriptors, a
    /// function that is known to have exactly its type is told as such.
    pub fn entity_type_from_export(&self, export: &Export<'_>) -> Option<EntityType>
        ensures { result ≡ exported_entity self.now.spaces export.now.kind export.now.index }
    {
        entity_at(self.module, export.kind, export.index)
    }
}
