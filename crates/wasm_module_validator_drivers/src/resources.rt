//! What functions look up in a module that is shared.

ghost use Rattle.std.specs.Prelude.{◌≡◌, ◌<◌, option_map, slice_get};
ghost use Rattle.wasm_types.specs.trees.Trees.{opened};
ghost use Rattle.wasm_operator_validator_resources.specs.Meaning.{entry_in, table_in};
ghost use Rattle.wasm_module_validator_type_storage.specs.trees.Groups.{count, tree_of};
ghost use Rattle.wasm_module_validator_resources.specs.Reading.{names_in, meaning_of};
ghost use Rattle.wasm_module_validator_resources.specs.Named.{IsSettledIn};

use crate::reading::SharedModule;
use std::rc::Rc;
use wasm_operator_validator_resources::WasmModuleResources;
use wasm_types::{
    CompositeInnerType, CoreTypeId, FuncType, GlobalType, HeapType, MemoryType, RefType, Result,
    SubType, TableType, ValType,
};

/// What functions look up in their module. It is shared with what reads the module, and outlives it.
#[derive(Drop)]
pub struct ValidatorResources {
    shared: Rc<SharedModule>,
    ghost settled: { IsSettledIn shared.value.groups shared.value.items.spaces },
}

impl ValidatorResources {
    /// What is looked up in this module.
    pub(crate) fn new(shared: Rc<SharedModule>) -> ValidatorResources
        ensures { result.shared.value ≡ shared.value }
    {
        let _count = shared.types().type_count();
        ValidatorResources { shared }
    }

    // The type of an id.
    fn stored(&self, id: CoreTypeId) -> &SubType
        requires { id.0 < count self.now.shared.value.groups }
        ensures { entry_in (names_in self.now.shared.value.groups self.now.shared.value.items.spaces.types) result.now
            ≡ opened (tree_of self.now.shared.value.groups id.0) }
    {
        let types = self.shared.types();
        let _count = types.type_count();
        match types.get(id) {
            Some(ty) => ty,
            None => unreachable!(),
        }
    }
}

impl WasmModuleResources for ValidatorResources {
    ghost use Rattle.wasm_module_validator_resources.specs.Reading.{meaning_of};
    ghost use Rattle.wasm_module_validator_resources.specs.laws.Settled.{sound_space, sound_list};

    ghost meaning = { λ r. meaning_of r.shared.value.groups r.shared.value.items.spaces };

    fn table_at(&self, at: u32) -> Option<TableType>
        ensures meaning { option_map (table_in (meaning_of self.now.shared.value.groups
            self.now.shared.value.items.spaces)) result
            ≡ slice_get (meaning_of self.now.shared.value.groups self.now.shared.value.items.spaces).«module».tables
            at }
        ensures exact { result ≡ slice_get self.now.shared.value.items.spaces.tables at }
    {
        self.shared.state().module().table_at(at)
    }

    fn memory_at(&self, at: u32) -> Option<MemoryType> {
        self.shared.resources().memory_at(at)
    }

    fn tag_at(&self, at: u32) -> Option<&FuncType> {
        match self.shared.state().module().tag_at(at) {
            Some(id) => match &self.stored(id).composite_type.inner {
                CompositeInnerType::Func(function) => Some(function),
                CompositeInnerType::Array(_) => unreachable!(),
                CompositeInnerType::Struct(_) => unreachable!(),
                CompositeInnerType::Cont(_) => unreachable!(),
            },
            None => None,
        }
    }

    fn global_at(&self, at: u32) -> Option<GlobalType> {
        self.shared.resources().global_at(at)
    }

    fn sub_type_at(&self, type_index: u32) -> Option<&SubType> {
        match self.shared.state().module().type_id(type_index) {
            Some(id) => Some(self.stored(id)),
            None => None,
        }
    }

    fn knows_id(&self, id: CoreTypeId) -> bool {
        self.shared.resources().knows_id(id)
    }

    fn sub_type_at_id(&self, id: CoreTypeId) -> &SubType {
        self.stored(id)
    }

    fn type_id_of_function(&self, function_index: u32) -> Option<CoreTypeId> {
        self.shared.resources().type_id_of_function(function_index)
    }

    fn type_index_of_function(&self, function_index: u32) -> Option<u32> {
        self.shared
            .resources()
            .type_index_of_function(function_index)
    }

    fn element_type_at(&self, at: u32) -> Option<RefType> {
        self.shared.resources().element_type_at(at)
    }

    fn element_count(&self) -> u32 {
        self.shared.resources().element_count()
    }

    fn data_count(&self) -> Option<u32> {
        self.shared.resources().data_count()
    }

    fn is_subtype(&self, a: ValType, b: ValType) -> bool {
        self.shared.resources().is_subtype(a, b)
    }

    fn is_shared(&self, ty: RefType) -> bool {
        self.shared.resources().is_shared(ty)
    }

    fn top_type(&self, heap_type: &HeapType) -> HeapType {
        self.shared.resources().top_type(heap_type)
    }

    fn is_function_referenced(&self, function_index: u32) -> bool {
        self.shared
            .resources()
            .is_function_referenced(function_index)
    }

    fn has_function_exact_type(&self, function_index: u32) -> bool {
        self.shared
            .resources()
            .has_function_exact_type(function_index)
    }

    fn check_heap_type(&self, ty: &mut HeapType, offset: u64) -> Result<()> {
        self.shared.resources().check_heap_type(ty, offset)
    }

    ghost types_sound = { λ r. sound_space r.shared.value.items.spaces.settings.features r.shared.value.groups
        r.settled.settled r.shared.value.items.spaces.types r.settled.known };

    ghost ids_sound = { λ r. sound_list r.shared.value.items.spaces.settings.features r.shared.value.groups
        r.settled.settled };
}
