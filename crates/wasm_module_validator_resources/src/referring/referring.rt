//! A module, and the same with each function referred to.

ghost use Rattle.std.specs.Prelude.{◌≡◌};
ghost use Rattle.wasm_module_validator_resources.specs.referring.Referring.{meaning_with_all};

use wasm_operator_validator_resources::WasmModuleResources;
use wasm_types::{
    CoreTypeId, FuncType, GlobalType, HeapType, MemoryType, RefType, Result, SubType, TableType,
    ValType,
};

/// A module in whose code each function may be referred to; all else is what the module answers.
#[derive(Clone, Copy)]
pub struct ReferringToAll<'r, R: WasmModuleResources> {
    pub(crate) resources: &'r R,
}

impl<'r, R: WasmModuleResources> ReferringToAll<'r, R> {
    /// The module that `resources` answers for, with each of its functions referred to.
    pub fn new(resources: &'r R) -> ReferringToAll<'r, R>
        ensures { meaning_with_all (R.meaning result.resources.now) ≡ meaning_with_all (R.meaning resources.now) }
    {
        ReferringToAll { resources }
    }
}

impl<'r, R: WasmModuleResources> WasmModuleResources for ReferringToAll<'r, R> {
    ghost use Rattle.wasm_module_validator_resources.specs.referring.Referring.{meaning_with_all};

    ghost meaning = { λ r. meaning_with_all (R.meaning r.resources.now) };

    fn table_at(&self, at: u32) -> Option<TableType> {
        self.resources.table_at(at)
    }

    fn memory_at(&self, at: u32) -> Option<MemoryType> {
        self.resources.memory_at(at)
    }

    fn tag_at(&self, at: u32) -> Option<&FuncType> {
        self.resources.tag_at(at)
    }

    #[tactic(auto, unfolding(crate::specs::referring::Referring::type_in))]
    fn global_at(&self, at: u32) -> Option<GlobalType> {
        self.resources.global_at(at)
    }

    fn sub_type_at(&self, type_index: u32) -> Option<&SubType> {
        self.resources.sub_type_at(type_index)
    }

    fn knows_id(&self, id: CoreTypeId) -> bool {
        self.resources.knows_id(id)
    }

    fn sub_type_at_id(&self, id: CoreTypeId) -> &SubType {
        self.resources.sub_type_at_id(id)
    }

    fn type_id_of_function(&self, function_index: u32) -> Option<CoreTypeId> {
        self.resources.type_id_of_function(function_index)
    }

    fn type_index_of_function(&self, function_index: u32) -> Option<u32> {
        self.resources.type_index_of_function(function_index)
    }

    fn element_type_at(&self, at: u32) -> Option<RefType> {
        self.resources.element_type_at(at)
    }

    fn element_count(&self) -> u32 {
        self.resources.element_count()
    }

    fn data_count(&self) -> Option<u32> {
        self.resources.data_count()
    }

    #[tactic(auto, unfolding(crate::specs::referring::Referring::type_in))]
    fn is_subtype(&self, a: ValType, b: ValType) -> bool {
        self.resources.is_subtype(a, b)
    }

    fn is_shared(&self, ty: RefType) -> bool {
        self.resources.is_shared(ty)
    }

    fn top_type(&self, heap_type: &HeapType) -> HeapType {
        self.resources.top_type(heap_type)
    }

    #[tactic(auto, using(crate::specs::referring::ReferringLaws::typed_is_placed, crate::specs::referring::ReferringLaws::untyped_is_not))]
    fn is_function_referenced(&self, function_index: u32) -> bool {
        match self.resources.type_index_of_function(function_index) {
            Some(_) => true,
            None => false,
        }
    }

    fn has_function_exact_type(&self, function_index: u32) -> bool {
        self.resources.has_function_exact_type(function_index)
    }

    fn check_heap_type(&self, ty: &mut HeapType, offset: u64) -> Result<()> {
        self.resources.check_heap_type(ty, offset)
    }

    ghost types_sound = { λ r. R.types_sound r.resources.now };

    ghost ids_sound = { λ r. R.ids_sound r.resources.now };
}
