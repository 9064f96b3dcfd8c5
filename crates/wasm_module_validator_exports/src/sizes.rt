//! The sizes of types of imports and exports.
//!
//! A size is added to a sum without an error; where the sum is not below the limit, one function makes it.

ghost use Rattle.std.specs.Prelude.{◌≡◌, ◌+◌, ◌<◌, IfErr, IfOk, IfSome, length, slice_get};
ghost use Rattle.wasm_types.specs.decoding.Denials.{Tells};
ghost use Rattle.wasm_types.specs.decoding.declared.error.ErrorKind.TheVariants.{Other};
ghost use Rattle.wasm_module_validator_checks.specs.rules.Valid.{IsFunctionIndex, size_at, import_size, export_size};
ghost use Rattle.wasm_module_validator_exports.specs.Sizes.{IsAllBelow, IsSumBelow};

use wasm_module_validator_checks::externs::{Settings, WasmModuleResources, function_of};
use wasm_sections_items::imports::{ExternalKind, TypeRef};
use wasm_types::{Error, FuncType, ModuleWords, Result, Text, Words};

// The refusal of a sum that is not below the limit.
#[cold]
#[inline(never)]
fn too_large(limit: u32, offset: u64) -> Error
    ensures kind { result.kind ≡ Other }
    ensures at { result.offset ≡ offset }
{
    Error::with(
        Text::Number(
            Words::Module(ModuleWords::EffectiveTypeSizeExceedsTheLimitOf),
            limit,
            Words::Nothing,
        ),
        offset,
    )
}

// A size behind a sum, where the new sum is below the limit.
#[inline(always)]
fn sum_below(sum: u32, size: usize, limit: u32) -> Option<u32>
    ensures { IsSumBelow limit (sum + size) result }
{
    if sum < limit && size < (limit - sum) as usize {
        return Some(sum + size as u32);
    }
    None
}

// The size of a function type behind a sum: two, and one for each parameter and each result.
#[inline]
fn function_below(sum: u32, ty: &FuncType, limit: u32) -> Option<u32>
    ensures { IsSumBelow limit (sum + (2 + (length ty.now.params + length ty.now.results))) result }
{
    let Some(begun) = sum_below(sum, 2, limit) else {
        return None;
    };
    let Some(with_params) = sum_below(begun, ty.params().len(), limit) else {
        return None;
    };
    sum_below(with_params, ty.results().len(), limit)
}

// The size of the type at an index of the module's types behind a sum, 0 where there is none.
#[inline]
fn type_below<R: WasmModuleResources>(
    resources: &R,
    sum: u32,
    type_index: u32,
    limit: u32,
) -> Option<u32>
    ensures { IsSumBelow limit (sum + size_at (slice_get (R.meaning resources.now).«module».types type_index)) result }
{
    let Some(sub_type) = resources.sub_type_at(type_index) else {
        return sum_below(sum, 0, limit);
    };
    let Some(function) = function_of(sub_type) else {
        return sum_below(sum, 2, limit);
    };
    function_below(sum, function, limit)
}

/// The size of an imported function's type behind the sum of those before it, where it is a function type and the sum stays below the
/// limit. It makes no error.
#[inline]
pub fn imported_function_size<R: WasmModuleResources>(
    resources: &R,
    sum: u32,
    type_index: u32,
    limit: u32,
) -> Option<u32>
    ensures function { IfSome result (λ _. IsFunctionIndex (R.meaning resources.now).«module» type_index) }
    ensures sum { IfSome result (IsAllBelow limit (sum + size_at (slice_get
        (R.meaning resources.now).«module».types type_index))) }
{
    let Some(sub_type) = resources.sub_type_at(type_index) else {
        return None;
    };
    let Some(function) = function_of(sub_type) else {
        return None;
    };
    let Some(all) = function_below(sum, function, limit) else {
        return None;
    };
    Some(all)
}

// The size of an import's type behind the sum of those before it, where the new sum is below the limit.
#[inline]
fn import_below<R: WasmModuleResources>(
    resources: &R,
    sum: u32,
    ty: &TypeRef,
    limit: u32,
) -> Option<u32>
    ensures { IsSumBelow limit (sum + import_size (R.meaning resources.now).«module» ty.now) result }
{
    match ty {
        TypeRef::Func(type_index) => type_below(resources, sum, *type_index, limit),
        TypeRef::FuncExact(type_index) => type_below(resources, sum, *type_index, limit),
        TypeRef::Tag(ty) => type_below(resources, sum, ty.func_type_idx, limit),
        TypeRef::Table(_) => sum_below(sum, 1, limit),
        TypeRef::Memory(_) => sum_below(sum, 1, limit),
        TypeRef::Global(_) => sum_below(sum, 1, limit),
    }
}

/// The size of an import's type behind the sum of those before it, where the sum stays below the limit.
///
/// # Errors
///
/// The sum does not: an error of kind `Other`, at `offset`.
#[inline]
pub fn combine_import_size<R: WasmModuleResources>(
    resources: &R,
    sum: u32,
    ty: &TypeRef,
    settings: &Settings,
    offset: u64,
) -> Result<u32>
    ensures answer { Tells result (sum + import_size (R.meaning resources.now).«module» ty.now
        < settings.now.limits.type_size) }
    ensures sum { IfOk result (λ all. all ≡ sum + import_size (R.meaning resources.now).«module» ty.now) }
    ensures refused { IfErr result (λ e. (e.kind ≡ Other) × (e.offset ≡ offset)) }
{
    let limit = settings.limits().type_size;
    match import_below(resources, sum, ty, limit) {
        Some(all) => Ok(all),
        None => Err(too_large(limit, offset)),
    }
}

// The size of an exported function's type behind a sum.
#[inline]
fn exported_function_below<R: WasmModuleResources>(
    resources: &R,
    sum: u32,
    index: u32,
    limit: u32,
) -> Option<u32>
    ensures { IsSumBelow limit (sum + size_at (slice_get (R.meaning resources.now).«module».functions index)) result }
{
    let Some(type_index) = resources.type_index_of_function(index) else {
        return sum_below(sum, 0, limit);
    };
    type_below(resources, sum, type_index, limit)
}

/// The size of an exported function's type behind the sum of those before it, where there is such a function and the sum stays below the
/// limit. It makes no error.
#[inline]
pub fn exported_function_size<R: WasmModuleResources>(
    resources: &R,
    sum: u32,
    index: u32,
    limit: u32,
) -> Option<u32>
    ensures there { IfSome result (λ _. index < length (R.meaning resources.now).«module».functions) }
    ensures sum { IfSome result (IsAllBelow limit (sum + size_at (slice_get
        (R.meaning resources.now).«module».functions index))) }
{
    let Some(type_index) = resources.type_index_of_function(index) else {
        return None;
    };
    let Some(all) = type_below(resources, sum, type_index, limit) else {
        return None;
    };
    Some(all)
}

// The size of an exported tag's type behind a sum.
fn exported_tag_below<R: WasmModuleResources>(
    resources: &R,
    sum: u32,
    index: u32,
    limit: u32,
) -> Option<u32>
    ensures { IsSumBelow limit (sum + size_at (slice_get (R.meaning resources.now).«module».tags index)) result }
{
    let Some(function) = resources.tag_at(index) else {
        return sum_below(sum, 0, limit);
    };
    function_below(sum, function, limit)
}

// The size of an export's type behind the sum of those before it, where the new sum is below the limit.
#[inline]
fn export_below<R: WasmModuleResources>(
    resources: &R,
    sum: u32,
    kind: ExternalKind,
    index: u32,
    limit: u32,
) -> Option<u32>
    ensures { IsSumBelow limit (sum + export_size (R.meaning resources.now).«module» kind index) result }
{
    match kind {
        ExternalKind::Func => exported_function_below(resources, sum, index, limit),
        ExternalKind::FuncExact => exported_function_below(resources, sum, index, limit),
        ExternalKind::Tag => exported_tag_below(resources, sum, index, limit),
        ExternalKind::Table => sum_below(sum, 1, limit),
        ExternalKind::Memory => sum_below(sum, 1, limit),
        ExternalKind::Global => sum_below(sum, 1, limit),
    }
}

/// The size of an export's type behind the sum of those before it, where the sum stays below the limit.
///
/// # Errors
///
/// The sum does not: an error of kind `Other`, at `offset`.
#[inline]
pub fn combine_export_size<R: WasmModuleResources>(
    resources: &R,
    sum: u32,
    kind: ExternalKind,
    index: u32,
    settings: &Settings,
    offset: u64,
) -> Result<u32>
    ensures answer { Tells result (sum + export_size (R.meaning resources.now).«module» kind index
        < settings.now.limits.type_size) }
    ensures sum { IfOk result (λ all. all ≡ sum + export_size (R.meaning resources.now).«module» kind index) }
    ensures refused { IfErr result (λ e. (e.kind ≡ Other) × (e.offset ≡ offset)) }
{
    let limit = settings.limits().type_size;
    match export_below(resources, sum, kind, index, limit) {
        Some(all) => Ok(all),
        None => Err(too_large(limit, offset)),
    }
}
