//! What operators ask of a module.

ghost use Rattle.std.specs.Prelude.{◌≡◌, Some, option_map, slice_get};
ghost use Rattle.wasm_operator_validator_resources.specs.Meaning.{table_in};
ghost use Rattle.wasm_module_validator_resources.specs.Named.{IsReadOver, IsSettledIn};
ghost use Rattle.wasm_module_validator_resources.specs.Reading.{meaning_of};

use wasm_module_validator_index_spaces::Module;
use wasm_module_validator_type_list::TypeList;
use wasm_operator_validator_resources::WasmModuleResources;
use wasm_types::{
    CompositeInnerType, CoreTypeId, FuncType, GlobalType, HeapType, MemoryType, RefType, Result,
    SubType, TableType, UnpackedIndex, ValType,
};

/// A module as it was read so far, and the list that its types stand in: all that operators ask of it.
#[derive(Clone, Copy)]
pub struct OperatorValidatorResources<'a> {
    pub(crate) module: &'a Module,
    pub(crate) types: &'a TypeList,
    ghost settled: { IsSettledIn types.now.groups «module».now },
}

impl<'a> OperatorValidatorResources<'a> {
    /// The module and the list that it was read over.
    pub fn new(module: &'a Module, types: &'a TypeList) -> Self
        requires { IsReadOver types.now.groups «module».now }
        ensures same_module { result.«module».now ≡ «module».now }
        ensures same_types { result.types.now ≡ types.now }
    {
        let _count = types.type_count();
        OperatorValidatorResources { module, types }
    }
}

impl<'a> WasmModuleResources for OperatorValidatorResources<'a> {
    ghost use Rattle.wasm_module_validator_resources.specs.Reading.{meaning_of};
    ghost use Rattle.wasm_module_validator_resources.specs.laws.Settled.{sound_space, sound_list};

    ghost meaning = { λ r. meaning_of r.types.now.groups r.«module».now };

    fn table_at(&self, at: u32) -> Option<TableType>
        ensures meaning { option_map (table_in (meaning_of self.now.types.now.groups self.now.«module».now)) result
            ≡ slice_get (meaning_of self.now.types.now.groups self.now.«module».now).«module».tables at }
        ensures exact { result ≡ slice_get self.now.«module».now.tables at }
    {
        self.module.table_at(at)
    }

    fn memory_at(&self, at: u32) -> Option<MemoryType> {
        self.module.memory_at(at)
    }

    fn tag_at(&self, at: u32) -> Option<&FuncType> {
        match self.module.tag_at(at) {
            Some(id) => match &self.stored(id).composite_type.inner {
                CompositeInnerType::Func(function) => Some(function),
                CompositeInnerType::Array(_) => unreachable!(),
                CompositeInnerType::Struct(_) => unreachable!(),
                CompositeInnerType::Cont(_) => unreachable!(),
            },
            None => None,
        }
    }

    fn global_at(&self, at: u32) -> Option<GlobalType> {
        self.module.global_at(at)
    }

    fn sub_type_at(&self, type_index: u32) -> Option<&SubType> {
        match self.module.type_id(type_index) {
            Some(id) => Some(self.stored(id)),
            None => None,
        }
    }

    fn knows_id(&self, id: CoreTypeId) -> bool {
        (id.number() as usize) < self.types.type_count()
    }

    fn sub_type_at_id(&self, id: CoreTypeId) -> &SubType {
        self.stored(id)
    }

    fn type_id_of_function(&self, function_index: u32) -> Option<CoreTypeId> {
        match self.module.function_at(function_index) {
            Some(function) => self.module.type_id(function.type_index),
            None => None,
        }
    }

    fn type_index_of_function(&self, function_index: u32) -> Option<u32> {
        match self.module.function_at(function_index) {
            Some(function) => Some(function.type_index),
            None => None,
        }
    }

    fn element_type_at(&self, at: u32) -> Option<RefType> {
        self.module.element_type_at(at)
    }

    fn element_count(&self) -> u32 {
        self.module.element_count()
    }

    fn data_count(&self) -> Option<u32> {
        self.module.data_count()
    }

    fn is_subtype(&self, a: ValType, b: ValType) -> bool {
        self.value_is_below(a, b)
    }

    fn is_shared(&self, ty: RefType) -> bool {
        self.heap_type_is_shared(ty.heap_type())
    }

    fn top_type(&self, heap_type: &HeapType) -> HeapType {
        self.top_heap_type(heap_type)
    }

    fn is_function_referenced(&self, function_index: u32) -> bool {
        match self.module.function_at(function_index) {
            Some(function) => function.is_referenced,
            None => false,
        }
    }

    fn has_function_exact_type(&self, function_index: u32) -> bool {
        match self.module.function_at(function_index) {
            Some(function) => function.is_exact,
            None => false,
        }
    }

    fn check_heap_type(&self, ty: &mut HeapType, offset: u64) -> Result<()> {
        match *ty {
            HeapType::Abstract { .. } => Ok(()),
            HeapType::Concrete(index) => {
                let id = self.id_of(index, offset)?;
                *ty = HeapType::Concrete(UnpackedIndex::Id(id));
                Ok(())
            }
            HeapType::Exact(index) => {
                let id = self.id_of(index, offset)?;
                *ty = HeapType::Exact(UnpackedIndex::Id(id));
                Ok(())
            }
        }
    }

    ghost types_sound = { λ r. sound_space r.«module».now.settings.features r.types.now.groups r.settled.settled
        r.«module».now.types r.settled.known };

    ghost ids_sound = { λ r. sound_list r.«module».now.settings.features r.types.now.groups r.settled.settled };
}
