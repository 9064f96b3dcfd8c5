//! The types of a module by their indices and ids.

ghost use Rattle.std.specs.Prelude.{◌≡◌, ◌↔◌, ◌+◌, ◌-◌, ◌<◌, ◌≤◌, ◌^◌, IsTrue, IfOk, IfErr, get_or};
ghost use Rattle.wasm_types.specs.decoding.Denials.{Tells};
ghost use Rattle.wasm_types.specs.decoding.declared.error.ErrorKind.TheVariants.{Other};
ghost use Rattle.wasm_types.specs.trees.Types.{entry_map};
ghost use Rattle.wasm_types.specs.trees.Trees.{opened};
ghost use Rattle.wasm_types.specs.trees.Below.{is_shared, expanded, abstract_above, DeclaredBelow};
ghost use Rattle.wasm_types.specs.values.Trees.{abstract_of as abstract_in};
ghost use Rattle.wasm_types.specs.Entries.{inner_of, declared_of};
ghost use Rattle.wasm_operator_validator_rules.specs.Context.{IsTypeIndex, written_type};
ghost use Rattle.wasm_operator_validator_resources.specs.Meaning.{named_type, entry_in};
ghost use Rattle.wasm_module_validator_type_storage.specs.trees.Groups.{count, tree_of, declared_by_id};
ghost use Rattle.wasm_module_validator_type_storage.specs.trees.BelowIds.{undeclared};
ghost use Rattle.wasm_module_validator_resources.specs.Reading.{names_in, context_of};
ghost use Rattle.wasm_module_validator_resources.specs.Named.{tree_meant, IsInList, IsNamedSo, AreStoredAlike, IsIdOf};

use crate::named::{Named, Shape};
use crate::resources::OperatorValidatorResources;
use wasm_module_validator_type_list::TypeList;
use wasm_types::{
    AbstractHeapType, CompositeInnerType, CoreTypeId, Error, ModuleWords, Result, SubType, Text,
    UnpackedIndex, Words,
};

// The refusal of an index that is none of a module.
#[cold]
fn foreign_index(offset: u64) -> Error
    ensures kind { result.kind ≡ Other }
    ensures at { result.offset ≡ offset }
{
    Error::new(
        Words::Module(ModuleWords::AModuleWritesIndicesOfItsOwnTypesAlone),
        offset,
    )
}

// The abstract type of a constructor.
fn kind_of(inner: &CompositeInnerType) -> AbstractHeapType
    ensures { abstract_in result ≡ abstract_above (inner_of inner.now) }
{
    match inner {
        CompositeInnerType::Func(_) => AbstractHeapType::Func,
        CompositeInnerType::Array(_) => AbstractHeapType::Array,
        CompositeInnerType::Struct(_) => AbstractHeapType::Struct,
        CompositeInnerType::Cont(_) => AbstractHeapType::Cont,
    }
}

/// The type of an id, as the list stores it.
pub(crate) fn stored_type(types: &TypeList, id: CoreTypeId) -> &SubType
    requires { id.0 < count types.now.groups }
    ensures { get_or (declared_by_id types.now.groups) id.0 undeclared ≡ declared_of result.now }
{
    match types.get(id) {
        Some(ty) => ty,
        None => unreachable!(),
    }
}

impl<'a> OperatorValidatorResources<'a> {
    // What an index of the module's types names.
    fn type_at(&self, index: u32) -> Named
        ensures meant { named_type (names_in self.now.types.now.groups self.now.«module».now.types)
            (UnpackedIndex.Module index)
            ≡ tree_meant self.now.types.now.groups result }
        ensures known { IsInList self.now.types.now.groups result }
    {
        match self.module.type_id(index) {
            Some(id) => Named::Known(id),
            None => Named::Unknown(index),
        }
    }

    /// What an index names.
    pub(crate) fn named(&self, index: UnpackedIndex) -> Named
        ensures { IsNamedSo self.now.types.now.groups (names_in self.now.types.now.groups
            self.now.«module».now.types) index result }
    {
        match index {
            UnpackedIndex::Module(number) => self.type_at(number),
            UnpackedIndex::RecGroup(number) => self.type_at(number),
            UnpackedIndex::Id(id) => {
                if (id.number() as usize) < self.types.type_count() {
                    Named::Known(id)
                } else {
                    Named::Unknown(id.number())
                }
            }
        }
    }

    // The id of the module's type with an index.
    fn id_at(&self, number: u32, offset: u64) -> Result<CoreTypeId>
        ensures answer { Tells result (IsTypeIndex (context_of self.now.types.now.groups self.now.«module».now)
            (UnpackedIndex.Module number)) }
        ensures id { IfOk result (IsIdOf self.now.types.now.groups self.now.«module».now
            (UnpackedIndex.Module number)) }
        ensures refused { IfErr result (λ e. (e.kind ≡ Other) × (e.offset ≡ offset)) }
    {
        let _count = self.types.type_count();
        match self.module.type_id(number) {
            Some(id) => Ok(id),
            None => Err(Error::with(
                Text::Number(Words::UnknownType, number, Words::TypeIndexOutOfBounds),
                offset,
            )),
        }
    }

    /// The id of the type with an index that the module writes.
    pub(crate) fn id_of(&self, index: UnpackedIndex, offset: u64) -> Result<CoreTypeId>
        ensures answer { Tells result (IsTypeIndex (context_of self.now.types.now.groups self.now.«module».now) index) }
        ensures id { IfOk result (IsIdOf self.now.types.now.groups self.now.«module».now index) }
        ensures refused { IfErr result (λ e. (e.kind ≡ Other) × (e.offset ≡ offset)) }
    {
        match index {
            UnpackedIndex::Module(number) => self.id_at(number, offset),
            UnpackedIndex::RecGroup(_) => Err(foreign_index(offset)),
            UnpackedIndex::Id(_) => Err(foreign_index(offset)),
        }
    }

    /// The type of an id.
    pub(crate) fn stored(&self, id: CoreTypeId) -> &SubType
        requires { id.0 < count self.now.types.now.groups }
        ensures { entry_in (names_in self.now.types.now.groups self.now.«module».now.types) result.now ≡ opened
            (tree_of self.now.types.now.groups id.0) }
    {
        let _count = self.types.type_count();
        stored_type(self.types, id)
    }

    /// The sharedness and the constructor of a type.
    pub(crate) fn shape(&self, name: Named) -> Shape
        requires { IsInList self.now.types.now.groups name }
        ensures shared { result.shared ≡ is_shared (tree_meant self.now.types.now.groups name) }
        ensures kind { abstract_in result.kind ≡ abstract_above (expanded (tree_meant self.now.types.now.groups name)) }
    {
        match name {
            Named::Known(id) => {
                let ty = self.stored(id);
                Shape {
                    shared: ty.composite_type.shared,
                    kind: kind_of(&ty.composite_type.inner),
                }
            }
            Named::Unknown(_) => Shape {
                shared: false,
                kind: AbstractHeapType::Func,
            },
        }
    }
}
