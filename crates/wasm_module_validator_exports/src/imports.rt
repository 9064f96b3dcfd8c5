//! Imports.

ghost use Rattle.std.specs.Prelude.{◌≡◌, IsTrue, IfErr, OnOk, OnErr};
ghost use Rattle.wasm_types.specs.decoding.Denials.{Tells};
ghost use Rattle.wasm_types.specs.decoding.declared.error.ErrorKind.TheVariants.{Other};
ghost use Rattle.wasm_module_validator_checks.specs.rules.Valid.{IsValidImport, IsFunctionIndex, IsValidGlobalType, IsValidTagType, MayCross};
ghost use Rattle.wasm_module_validator_checks.specs.rules.Spaces.{global_in as global_written};
ghost use Rattle.wasm_module_validator_checks.specs.operator_resources.Meaning.{global_in};
ghost use Rattle.wasm_types.specs.settings.Features.{CustomDescriptors};
ghost use Rattle.wasm_types.specs.trees.Gates.{Has};
ghost use Rattle.wasm_module_validator_checks.specs.externs.Refusals.{IsRefusal, IsNeeded, allowing};
ghost use Rattle.wasm_module_validator_exports.specs.Imports.{IsNamedImport};

use wasm_module_validator_checks::externs::{
    Settings, WasmModuleResources, check_global_type, check_memory_type, check_table_type,
    check_tag_type, func_type_at, function_of, require,
};
use wasm_sections_items::imports::TypeRef;
use wasm_types::{GlobalType, ModuleWords, Result, TagType, WasmFeatures, Words};

// Whether a function type stands at an index: nearly always, so no error is thought of here.
#[inline]
fn is_function<R: WasmModuleResources>(resources: &R, type_index: u32) -> bool
    ensures { IsTrue result → IsFunctionIndex (R.meaning resources.now).«module» type_index }
{
    let Some(sub_type) = resources.sub_type_at(type_index) else {
        return false;
    };
    function_of(sub_type).is_some()
}

// A function, asked for with the reason of a refusal.
#[cold]
#[inline(never)]
fn check_function_named<R: WasmModuleResources>(
    resources: &R,
    type_index: u32,
    offset: u64,
) -> Result<()>
    ensures answer { Tells result (IsFunctionIndex (R.meaning resources.now).«module» type_index) }
    ensures refused { IfErr result (λ e. (e.kind ≡ Other) × (e.offset ≡ offset)) }
{
    func_type_at(resources, type_index, offset)?;
    Ok(())
}

// A function that is imported.
#[inline]
fn check_function<R: WasmModuleResources>(resources: &R, type_index: u32, offset: u64) -> Result<()>
    ensures answer { Tells result (IsFunctionIndex (R.meaning resources.now).«module» type_index) }
    ensures refused { IfErr result (λ e. (e.kind ≡ Other) × (e.offset ≡ offset)) }
{
    if is_function(resources, type_index) {
        return Ok(());
    }
    check_function_named(resources, type_index, offset)
}

// A function that is imported exactly, by a feature.
#[inline(never)]
#[tactic(auto, unfolding(crate::specs::Imports::has))]
fn check_exact_function<R: WasmModuleResources>(
    resources: &R,
    type_index: u32,
    settings: &Settings,
    offset: u64,
) -> Result<()>
    ensures answer { Tells result (Has settings.now.features CustomDescriptors
        × IsFunctionIndex (R.meaning resources.now).«module» type_index) }
    ensures refused { IfErr result (λ e. IsRefusal settings.now.features (λ b. Has b CustomDescriptors
        × IsFunctionIndex (R.meaning resources.now).«module» type_index) e.kind) }
    ensures at { IfErr result (λ e. e.offset ≡ offset) }
{
    require(
        settings.features().custom_descriptors(),
        WasmFeatures::CUSTOM_DESCRIPTORS,
        Words::Module(ModuleWords::CustomDescriptorsRequiredForExactFunctionImports),
        offset,
    )?;
    func_type_at(resources, type_index, offset)?;
    Ok(())
}

// A global that is imported, a mutable one by a feature.
#[inline(never)]
#[tactic(auto, unfolding(crate::specs::Imports::has))]
fn check_global<R: WasmModuleResources>(
    resources: &R,
    ty: &mut GlobalType,
    settings: &Settings,
    offset: u64,
) -> Result<()>
    ensures answer { Tells result (IsValidGlobalType settings.now (R.meaning resources.now).«module» ty.old
        × MayCross settings.now ty.old.mutable) }
    ensures named { OnOk result (global_in (R.meaning resources.now) ty.new ≡ global_written
        (R.meaning resources.now).«module».types ty.old) }
    ensures refused { IfErr result (λ e. IsRefusal settings.now.features
        (λ b. IsValidGlobalType (allowing b settings.now) (R.meaning resources.now).«module» ty.old
        × MayCross (allowing b settings.now) ty.old.mutable) e.kind) }
    ensures at { IfErr result (λ e. e.offset ≡ offset) }
{
    match check_global_type(resources, ty, settings, offset) {
        Ok(()) => (),
        Err(error) => return Err(error),
    }
    require(
        !ty.mutable || settings.features().mutable_global(),
        WasmFeatures::MUTABLE_GLOBAL,
        Words::Module(ModuleWords::MutableGlobalSupportIsNotEnabled),
        offset,
    )
}

// A tag, of which the function type is not asked for here.
#[inline(never)]
fn check_tag<R: WasmModuleResources>(
    resources: &R,
    ty: &TagType,
    settings: &Settings,
    offset: u64,
) -> Result<()>
    ensures answer { Tells result (IsValidTagType settings.now (R.meaning resources.now).«module» ty.now) }
    ensures refused { IfErr result (λ e. IsNeeded settings.now.features
        (λ b. IsValidTagType (allowing b settings.now) (R.meaning resources.now).«module» ty.now) e.kind) }
    ensures at { IfErr result (λ e. e.offset ≡ offset) }
{
    match check_tag_type(resources, ty, settings, offset) {
        Ok(_) => Ok(()),
        Err(error) => Err(error),
    }
}

/// Refuses the type of an import that is not valid, and a mutable global where none may be imported; else it names types by their
/// ids.
///
/// # Errors
///
/// The type is not valid under these settings: what its own check answers, or a missing feature for an exact function or a mutable
/// global; at `offset`.
pub fn check_import<R: WasmModuleResources>(
    resources: &R,
    ty: &mut TypeRef,
    settings: &Settings,
    offset: u64,
) -> Result<()>
    ensures answer { Tells result (IsValidImport settings.now (R.meaning resources.now).«module» ty.old) }
    ensures named { OnOk result (IsNamedImport (R.meaning resources.now) ty.old ty.new) }
    ensures refused { IfErr result (λ e. IsRefusal settings.now.features
        (λ b. IsValidImport (allowing b settings.now) (R.meaning resources.now).«module» ty.old) e.kind) }
    ensures at { IfErr result (λ e. e.offset ≡ offset) }
{
    match ty {
        TypeRef::Func(type_index) => check_function(resources, *type_index, offset),
        TypeRef::FuncExact(type_index) => {
            check_exact_function(resources, *type_index, settings, offset)
        }
        TypeRef::Table(ty) => check_table_type(resources, ty, settings, offset),
        TypeRef::Memory(ty) => check_memory_type(ty, settings, offset),
        TypeRef::Tag(ty) => check_tag(resources, ty, settings, offset),
        TypeRef::Global(ty) => check_global(resources, ty, settings, offset),
    }
}
