//! Element segments.

ghost use Rattle.std.specs.Prelude.{◌≡◌, IfErr, IfOk};
ghost use Rattle.wasm_types.specs.decoding.Denials.{Tells, UnlessMemory};
ghost use Rattle.wasm_types.specs.settings.Limits.{IsWithinCeilings};
ghost use Rattle.wasm_types.specs.values.declared.value.ValType.TheVariants as value;
ghost use Rattle.wasm_operator_validator_state.specs.resources.Meaning.{reference_in};
ghost use Rattle.wasm_module_validator_checks.specs.rules.Spaces.{value_in};
ghost use Rattle.wasm_module_validator_checks.specs.rules.Valid.{IsValidValueType};
ghost use Rattle.wasm_module_validator_initialisers.specs.segments.Refusals.{IsTypeRefusal};
ghost use Rattle.wasm_module_validator_initialisers.specs.elements.Trees.{element_read};
ghost use Rattle.wasm_module_validator_initialisers.specs.elements.Judged.{IsElementThere};
ghost use Rattle.wasm_module_validator_initialisers.specs.elements.Items.{item_type, IsItemType};
ghost use Rattle.wasm_module_validator_initialisers.specs.elements.Naming.{NamesElement};
ghost use Rattle.wasm_module_validator_initialisers.specs.elements.Refusals.{RefusesElement};

use crate::elements::items::check_items;
use crate::elements::modes::check_mode;
use crate::segments::{
    ConstExpr, OperatorValidatorAllocations, Settings, WasmModuleResources, check_value_type,
};
use std::alloc::Global;
use wasm_sections_items::elements::{ElementItemsOf, ElementOf};
use wasm_types::{RefType, Result, ValType};

// A reference type that the module writes, over ids.
fn check_reference<R: WasmModuleResources>(
    ty: RefType,
    resources: &R,
    settings: &Settings,
    offset: u64,
) -> Result<RefType>
    ensures answer { Tells result (IsValidValueType settings.now (R.meaning resources.now).«module» (value.Ref ty)) }
    ensures named { IfOk result (λ t. reference_in (R.meaning resources.now) t ≡ value_in
        (R.meaning resources.now).«module».types (value.Ref ty)) }
    ensures refused { IfErr result (IsTypeRefusal settings.now
        (λ y. IsValidValueType y (R.meaning resources.now).«module» (value.Ref ty)) offset) }
{
    let mut named = ValType::Ref(ty);
    match check_value_type(resources, &mut named, settings, offset) {
        Ok(()) => (),
        Err(error) => return Err(error),
    }
    match named.as_reference_type() {
        Some(reference) => Ok(reference),
        None => unreachable!(),
    }
}

// The type of the elements, over ids: references to functions where none is written, which need no feature.
fn check_item_type<'a, R: WasmModuleResources>(
    items: &ElementItemsOf<'a, ConstExpr<'a>>,
    resources: &R,
    settings: &Settings,
    offset: u64,
) -> Result<RefType>
    ensures answer { Tells result (IsItemType settings.now (R.meaning resources.now).«module» items.now) }
    ensures named { IfOk result (λ t. reference_in (R.meaning resources.now) t ≡ item_type
        (R.meaning resources.now).«module».types items.now) }
    ensures refused { IfErr result (IsTypeRefusal settings.now
        (λ y. IsItemType y (R.meaning resources.now).«module» items.now) offset) }
{
    match items {
        ElementItemsOf::Functions(_) => Ok(RefType::FUNC),
        ElementItemsOf::Expressions(ty, _) => check_reference(*ty, resources, settings, offset),
    }
}

/// Checks an element segment, and gives the type of its elements, over ids: Ok exactly if it is valid in the module so far, of
/// whose globals the first so many are imported, out of memory aside (WebAssembly 3.0, validation, modules, element segments). The
/// functions that the segment refers to stand behind the other `names` then, in their order. The memory of `allocs` is used.
///
/// # Errors
///
/// The type of its elements is not valid; it is passive or declared, and no feature allows that; it is active, and the module has no
/// such table, or one of other elements, or the bytes of its offset spell no constant of the type of that table's indices; there are
/// more elements than the limit; or an element is no function of the module, or the bytes of its expression spell no constant of the
/// type: the first of these, a constant inside its bytes, the index of a function where it stands, the others at `offset`; or there
/// is no memory. Some names may be there then.
pub fn check_element<'a, R: WasmModuleResources>(
    alloc: Global,
    element: ElementOf<'a, ConstExpr<'a>>,
    resources: &R,
    settings: &Settings,
    imported_globals: u32,
    allocs: &mut OperatorValidatorAllocations,
    names: &mut Vec<u32>,
    offset: u64,
) -> Result<RefType>
    requires within { IsWithinCeilings settings.now.limits }
    ensures answer { Tells result (IsElementThere settings.now (R.meaning resources.now).«module» imported_globals
        (element_read element.entry)) }
    ensures named { IfOk result (λ t. reference_in (R.meaning resources.now) t ≡ item_type
        (R.meaning resources.now).«module».types element.entry.items) }
    ensures names { IfOk result (λ _. NamesElement settings.now
        (element_read element.entry) names.old.items names.new.items) }
    ensures refused { IfErr result (λ e. UnlessMemory e.kind (RefusesElement settings.now
        (R.meaning resources.now) imported_globals offset element.entry e)) }
{
    let ElementOf {
        kind,
        items,
        range: _,
    } = element;
    let ty = match check_item_type(&items, resources, settings, offset) {
        Ok(ty) => ty,
        Err(error) => return Err(error),
    };
    match check_mode(
        alloc,
        &kind,
        ty,
        resources,
        settings,
        imported_globals,
        allocs,
        names,
        offset,
    ) {
        Ok(()) => (),
        Err(error) => return Err(error),
    }
    match check_items(
        alloc,
        items,
        ValType::Ref(ty),
        resources,
        settings,
        imported_globals,
        allocs,
        names,
        offset,
    ) {
        Ok(()) => (),
        Err(error) => return Err(error),
    }
    Ok(ty)
}
