//! Composite types by their constructors.

ghost use Rattle.std.specs.Prelude.{◌≡◌, ◌↔◌, ◌<◌, IsTrue};
ghost use Rattle.wasm_types.specs.decoding.Denials.{Tells, RefusedAt};
ghost use Rattle.wasm_types.specs.settings.Features.{Gc, GcTypes};
ghost use Rattle.wasm_types.specs.trees.Gates.{Has};
ghost use Rattle.wasm_types.specs.Entries.{inner_of, composite_of};
ghost use Rattle.wasm_types.specs.fields.Fields.{function_tree, continuation_tree};
ghost use Rattle.wasm_types.specs.decoding.declared.error.ErrorKind.TheVariants.{Other};
ghost use Rattle.wasm_types.specs.reader.Reading.{NeedsNoMemory};
ghost use Rattle.wasm_module_validator_type_storage.specs.trees.Groups.{count};
ghost use Rattle.wasm_module_validator_type_storage.specs.trees.BelowIds.{entry_by_id};
ghost use Rattle.wasm_module_validator_type_groups.specs.composites.Composites.{HasIds, IsFunction, IsInnerValid, IsCompositeValid};

use crate::composites::parts::{Check, require};
use wasm_module_validator_canonical_types::matches::stored_type;
use wasm_module_validator_type_list::TypeList;
use wasm_types::{
    CompositeInnerType, CompositeType, ContType, CoreTypeId, Error, FuncType, ModuleWords, Result,
    Text, UnpackedIndex, WasmFeatures, Words,
};

// Whether the type of an id is a function type.
fn is_function(types: &TypeList, id: CoreTypeId) -> bool
    requires { id.0 < count types.now.groups }
    ensures { IsTrue result ↔ IsFunction (entry_by_id types.now.groups id).inner }
{
    match &stored_type(types, id).composite_type.inner {
        CompositeInnerType::Func(_) => true,
        CompositeInnerType::Array(_) => false,
        CompositeInnerType::Struct(_) => false,
        CompositeInnerType::Cont(_) => false,
    }
}

// The refusal of a continuation that is made of another type than a function.
#[cold]
fn no_function(number: u32, offset: u64) -> Error
    ensures kind { result.kind ≡ Other }
    ensures offset { result.offset ≡ offset }
{
    Error::with(
        Text::Number(
            Words::Module(ModuleWords::NonFunctionType),
            number,
            Words::Nothing,
        ),
        offset,
    )
}

impl<'a> Check<'a> {
    // The parts of a function, and the feature of several results.
    fn check_function(&self, shared: bool, ty: &FuncType) -> Result<()>
        requires { HasIds self.now.types.now.groups self.now.features.0 (function_tree ty.now) }
        ensures answer { Tells result (IsInnerValid self.now.types.now.groups self.now.features.0 shared
            (function_tree ty.now)) }
        ensures at { RefusedAt self.now.offset result }
        ensures memory { NeedsNoMemory result }
    {
        self.check_parts(shared, ty.params())?;
        self.check_parts(shared, ty.results())?;
        require(
            ty.results().len() <= 1 || self.features.multi_value(),
            WasmFeatures::MULTI_VALUE,
            Words::Module(
                ModuleWords::FuncTypeReturnsMultipleValuesButTheMultiValueFeatureIsNotEnabled,
            ),
            self.offset,
        )
    }

    // The features of arrays and structs.
    fn check_collected(&self, needs_gc: Words, needs_gc_types: Words) -> Result<()>
        ensures answer { Tells result (Has self.now.features.0 Gc × Has self.now.features.0 GcTypes) }
        ensures at { RefusedAt self.now.offset result }
        ensures memory { NeedsNoMemory result }
    {
        require(self.features.gc(), WasmFeatures::GC, needs_gc, self.offset)?;
        require(
            self.features.gc_types(),
            WasmFeatures::GC_TYPES,
            needs_gc_types,
            self.offset,
        )
    }

    // The features of continuations, and that one is made of a function type.
    fn check_continuation(&self, shared: bool, ty: &ContType) -> Result<()>
        requires { HasIds self.now.types.now.groups self.now.features.0 (continuation_tree ty.now) }
        ensures answer { Tells result (IsInnerValid self.now.types.now.groups self.now.features.0 shared
            (continuation_tree ty.now)) }
        ensures at { RefusedAt self.now.offset result }
        ensures memory { NeedsNoMemory result }
    {
        require(
            self.features.stack_switching(),
            WasmFeatures::STACK_SWITCHING,
            Words::Module(ModuleWords::CannotDefineContinuationTypesWhenStackSwitchingIsDisabled),
            self.offset,
        )?;
        require(
            self.features.gc_types(),
            WasmFeatures::GC_TYPES,
            Words::Module(ModuleWords::CannotDefineContinuationTypesWhenGcTypesAreDisabled),
            self.offset,
        )?;
        let UnpackedIndex::Id(id) = ty.0.unpack() else {
            unreachable!()
        };
        if is_function(self.types, id) {
            return Ok(());
        }
        Err(no_function(id.number(), self.offset))
    }

    // A composite type by its constructor.
    fn check_inner(&self, shared: bool, inner: &CompositeInnerType) -> Result<()>
        requires { HasIds self.now.types.now.groups self.now.features.0 (inner_of inner.now) }
        ensures answer { Tells result (IsInnerValid self.now.types.now.groups self.now.features.0 shared
            (inner_of inner.now)) }
        ensures at { RefusedAt self.now.offset result }
        ensures memory { NeedsNoMemory result }
    {
        match inner {
            CompositeInnerType::Func(ty) => self.check_function(shared, ty),
            CompositeInnerType::Array(ty) => {
                self.check_collected(
                    Words::Module(ModuleWords::ArrayIndexedTypesNotSupportedWithoutTheGcFeature),
                    Words::Module(ModuleWords::CannotDefineArrayTypesWhenGcTypesAreDisabled),
                )?;
                self.check_storage(shared, &ty.0.element_type)
            }
            CompositeInnerType::Struct(ty) => {
                self.check_collected(
                    Words::Module(ModuleWords::StructIndexedTypesNotSupportedWithoutTheGcFeature),
                    Words::Module(ModuleWords::CannotDefineStructTypesWhenGcTypesAreDisabled),
                )?;
                self.check_fields(shared, ty.fields.as_slice())
            }
            CompositeInnerType::Cont(ty) => self.check_continuation(shared, ty),
        }
    }
}

/// Refuses a composite type that is not valid under these features: one whose parts they don't allow, a shared one with a
/// part that is not shared, a continuation that is not made of a function type, and one that a feature is missing for.
pub fn check_composite_type(
    features: WasmFeatures,
    ty: &CompositeType,
    types: &TypeList,
    offset: u64,
) -> Result<()>
    requires { HasIds types.now.groups features.0 (inner_of ty.now.inner) }
    ensures answer { Tells result (IsCompositeValid types.now.groups features.0 (composite_of ty.now)) }
    ensures at { RefusedAt offset result }
    ensures memory { NeedsNoMemory result }
{
    require(
        !ty.shared || features.shared_everything_threads(),
        WasmFeatures::SHARED_EVERYTHING_THREADS,
        Words::Module(ModuleWords::SharedCompositeTypesRequireTheSharedEverythingThreadsProposal),
        offset,
    )?;
    let check = Check {
        features,
        types,
        offset,
    };
    check.check_inner(ty.shared, &ty.inner)
}
