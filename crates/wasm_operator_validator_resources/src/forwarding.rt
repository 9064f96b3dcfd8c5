//! Modules behind a reference, and behind a counted pointer.

use crate::WasmModuleResources;
use std::rc::Rc;
use wasm_types::{
    CoreTypeId, FuncType, GlobalType, HeapType, MemoryType, RefType, Result, SubType, TableType,
    ValType, WasmFeatures,
};

impl<T: WasmModuleResources> WasmModuleResources for &T {
    ghost meaning = { λ r. T.meaning r.now };

    fn table_at(&self, at: u32) -> Option<TableType> {
        (**self).table_at(at)
    }

    fn memory_at(&self, at: u32) -> Option<MemoryType> {
        (**self).memory_at(at)
    }

    fn tag_at(&self, at: u32) -> Option<&FuncType> {
        (**self).tag_at(at)
    }

    fn global_at(&self, at: u32) -> Option<GlobalType> {
        (**self).global_at(at)
    }

    fn sub_type_at(&self, type_index: u32) -> Option<&SubType> {
        (**self).sub_type_at(type_index)
    }

    fn knows_id(&self, id: CoreTypeId) -> bool {
        (**self).knows_id(id)
    }

    fn sub_type_at_id(&self, id: CoreTypeId) -> &SubType {
        (**self).sub_type_at_id(id)
    }

    fn type_id_of_function(&self, function_index: u32) -> Option<CoreTypeId> {
        (**self).type_id_of_function(function_index)
    }

    fn type_index_of_function(&self, function_index: u32) -> Option<u32> {
        (**self).type_index_of_function(function_index)
    }

    fn element_type_at(&self, at: u32) -> Option<RefType> {
        (**self).element_type_at(at)
    }

    fn element_count(&self) -> u32 {
        (**self).element_count()
    }

    fn data_count(&self) -> Option<u32> {
        (**self).data_count()
    }

    fn is_subtype(&self, a: ValType, b: ValType) -> bool {
        (**self).is_subtype(a, b)
    }

    fn is_shared(&self, ty: RefType) -> bool {
        (**self).is_shared(ty)
    }

    fn top_type(&self, heap_type: &HeapType) -> HeapType {
        (**self).top_type(heap_type)
    }

    fn is_function_referenced(&self, function_index: u32) -> bool {
        (**self).is_function_referenced(function_index)
    }

    fn has_function_exact_type(&self, function_index: u32) -> bool {
        (**self).has_function_exact_type(function_index)
    }

    fn check_value_type(
        &self,
        ty: &mut ValType,
        features: &WasmFeatures,
        offset: u64,
    ) -> Result<()> {
        (**self).check_value_type(ty, features, offset)
    }

    fn check_ref_type(&self, ty: &mut RefType, offset: u64) -> Result<()> {
        (**self).check_ref_type(ty, offset)
    }

    fn check_heap_type(&self, ty: &mut HeapType, offset: u64) -> Result<()> {
        (**self).check_heap_type(ty, offset)
    }

    ghost types_sound = { λ r. T.types_sound r.now };

    ghost ids_sound = { λ r. T.ids_sound r.now };
}

impl<T: WasmModuleResources> WasmModuleResources for Rc<T> {
    ghost meaning = { λ r. T.meaning r.value };

    fn table_at(&self, at: u32) -> Option<TableType> {
        (**self).table_at(at)
    }

    fn memory_at(&self, at: u32) -> Option<MemoryType> {
        (**self).memory_at(at)
    }

    fn tag_at(&self, at: u32) -> Option<&FuncType> {
        (**self).tag_at(at)
    }

    fn global_at(&self, at: u32) -> Option<GlobalType> {
        (**self).global_at(at)
    }

    fn sub_type_at(&self, type_index: u32) -> Option<&SubType> {
        (**self).sub_type_at(type_index)
    }

    fn knows_id(&self, id: CoreTypeId) -> bool {
        (**self).knows_id(id)
    }

    fn sub_type_at_id(&self, id: CoreTypeId) -> &SubType {
        (**self).sub_type_at_id(id)
    }

    fn type_id_of_function(&self, function_index: u32) -> Option<CoreTypeId> {
        (**self).type_id_of_function(function_index)
    }

    fn type_index_of_function(&self, function_index: u32) -> Option<u32> {
        (**self).type_index_of_function(function_index)
    }

    fn element_type_at(&self, at: u32) -> Option<RefType> {
        (**self).element_type_at(at)
    }

    fn element_count(&self) -> u32 {
        (**self).element_count()
    }

    fn data_count(&self) -> Option<u32> {
        (**self).data_count()
    }

    fn is_subtype(&self, a: ValType, b: ValType) -> bool {
        (**self).is_subtype(a, b)
    }

    fn is_shared(&self, ty: RefType) -> bool {
        (**self).is_shared(ty)
    }

    fn top_type(&self, heap_type: &HeapType) -> HeapType {
        (**self).top_type(heap_type)
    }

    fn is_function_referenced(&self, function_index: u32) -> bool {
        (**self).is_function_referenced(function_index)
    }

    fn has_function_exact_type(&self, function_index: u32) -> bool {
        (**self).has_function_exact_type(function_index)
    }

    fn check_value_type(
        &self,
        ty: &mut ValType,
        features: &WasmFeatures,
        offset: u64,
    ) -> Result<()> {
        (**self).check_value_type(ty, features, offset)
    }

    fn check_ref_type(&self, ty: &mut RefType, offset: u64) -> Result<()> {
        (**self).check_ref_type(ty, offset)
    }

    fn check_heap_type(&self, ty: &mut HeapType, offset: u64) -> Result<()> {
        (**self).check_heap_type(ty, offset)
    }

    ghost types_sound = { λ r. T.types_sound r.value };

    ghost ids_sound = { λ r. T.ids_sound r.value };
}
