//! The elements of a segment, one by one.

ghost use Rattle.std.specs.Prelude.{◌≡◌, ◌≤◌, ◌<◌, ◌+◌, IfErr, IfOk, length};
ghost use Rattle.wasm_types.specs.decoding.Denials.{Tells, UnlessMemory};
ghost use Rattle.wasm_types.specs.settings.Limits.{IsWithinCeilings};
ghost use Rattle.wasm_operators_encoding.specs.ConstantDecoder.{constant};
ghost use Rattle.wasm_sections_items.specs.limited.Walking.{fresh};
ghost use Rattle.wasm_operator_validator_state.specs.resources.Meaning.{type_in};
ghost use Rattle.wasm_module_validator_initialisers.specs.segments.Judged.{IsConstantText};
ghost use Rattle.wasm_module_validator_initialisers.specs.segments.Refusals.{IsFault};
ghost use Rattle.wasm_module_validator_resources.specs.referring.Naming.{NamesMore};
ghost use Rattle.wasm_module_validator_initialisers.specs.elements.Items.{AllLeft, AreItems, IsFunction, StopsAmong, function_index};
ghost use Rattle.wasm_module_validator_initialisers.specs.elements.Naming.{NamesFunction, NamesLeft, NamesItems};
ghost use Rattle.wasm_module_validator_initialisers.specs.elements.Refusals.{RefusesConstant, RefusesFunction, RefusesItems};

use crate::elements::naming::{take_constant, take_function};
use crate::elements::short::take_short_elements;
use crate::segments::{ConstExpr, OperatorValidatorAllocations, Settings, WasmModuleResources};
use std::alloc::Global;
use wasm_sections_items::elements::ElementItemsOf;
use wasm_sections_items::limited::SectionLimited;
use wasm_types::{BinaryReader, Error, ModuleWords, Result, ValType, Words};

// Refuses more elements than the limit.
fn check_count(count: u32, settings: &Settings, offset: u64) -> Result<()>
    ensures answer { Tells result (count ≤ settings.now.limits.segment_items) }
    ensures refused { IfErr result (λ e. (settings.now.limits.segment_items < count) × IsFault offset e) }
{
    if count > settings.limits().segment_items {
        return Err(Error::new(
            Words::Module(ModuleWords::NumberOfElementsIsOutOfBounds),
            offset,
        ));
    }
    Ok(())
}

// The functions, by their indices.
fn check_functions<R: WasmModuleResources>(
    functions: SectionLimited<'_, u32>,
    resources: &R,
    names: &mut Vec<u32>,
) -> Result<()>
    ensures answer { Tells result (AllLeft (IsFunction (R.meaning resources.now).«module») function_index
        (fresh functions.entry.count functions.entry.reader)) }
    ensures named { IfOk result (λ _. NamesLeft NamesFunction function_index
        (fresh functions.entry.count functions.entry.reader) names.old.items names.new.items) }
    ensures refused { IfErr result (λ e. UnlessMemory e.kind (StopsAmong
        (IsFunction (R.meaning resources.now).«module») function_index
        (RefusesFunction (R.meaning resources.now).«module») (fresh functions.entry.count functions.entry.reader) e)) }
{
    for found in functions.into_iter_with_offsets() {
        let function = match found {
            Ok(function) => function,
            Err(error) => return Err(error),
        };
        match take_function(resources, function.1, names, function.0) {
            Ok(()) => (),
            Err(error) => return Err(error),
        }
    }
    Ok(())
}

// The same expression, whose first byte stands at this offset of the input.
fn standing_at<'a>(alloc: Global, expr: &ConstExpr<'a>, offset: u64, end: u64) -> ConstExpr<'a>
    requires { offset + length expr.now.rest ≤ end }
    ensures rest { result.rest ≡ expr.now.rest }
    ensures place { result.place ≡ offset }
{
    let mut reader = expr.get_binary_reader();
    let features = reader.features();
    let limits = reader.limits();
    let Ok(bytes) = reader.read_bytes(reader.bytes_remaining()) else {
        unreachable!()
    };
    ConstExpr::new(
        alloc,
        BinaryReader::new_limited(bytes, offset, features, limits),
    )
}

// The constants, by their expressions.
fn check_constants<'a, R: WasmModuleResources>(
    alloc: Global,
    constants: SectionLimited<'a, ConstExpr<'a>>,
    ty: &ValType,
    resources: &R,
    settings: &Settings,
    imported_globals: u32,
    allocs: &mut OperatorValidatorAllocations,
    names: &mut Vec<u32>,
) -> Result<()>
    requires within { IsWithinCeilings settings.now.limits }
    ensures answer { Tells result (AllLeft (IsConstantText settings.now
        (R.meaning resources.now).«module» imported_globals (type_in (R.meaning resources.now) ty.now)) constant
        (fresh constants.entry.count constants.entry.reader)) }
    ensures named { IfOk result (λ _. NamesLeft (NamesMore settings.now) constant
        (fresh constants.entry.count constants.entry.reader) names.old.items names.new.items) }
    ensures refused { IfErr result (λ e. UnlessMemory e.kind (StopsAmong
        (IsConstantText settings.now (R.meaning resources.now).«module» imported_globals
        (type_in (R.meaning resources.now) ty.now)) constant
        (RefusesConstant settings.now (R.meaning resources.now) imported_globals
        (type_in (R.meaning resources.now) ty.now)) (fresh constants.entry.count constants.entry.reader) e)) }
{
    let end = constants.range().end;
    let mut elements = constants.into_iter_with_offsets();
    'elements: loop {
        let mut lacks = false;
        take_short_elements(&mut elements, ty, resources, settings, names, &mut lacks);
        if lacks {
            return Err(Error::out_of_memory(0));
        }
        let item = match elements.next() {
            None => return Ok(()),
            Some(Ok(item)) => item,
            Some(Err(error)) => return Err(error),
        };
        let expr = standing_at(alloc, &item.1, item.0, end);
        match take_constant(
            alloc,
            &expr,
            *ty,
            resources,
            settings,
            imported_globals,
            allocs,
            names,
        ) {
            Ok(()) => (),
            Err(error) => return Err(error),
        }
    }
}

/// Checks the elements of a segment, which are of this type, over ids: as many as are counted, and no more than the limit; each is a
/// function of the module, or a constant. It names the functions, and those that constants refer to.
pub(crate) fn check_items<'a, R: WasmModuleResources>(
    alloc: Global,
    items: ElementItemsOf<'a, ConstExpr<'a>>,
    ty: ValType,
    resources: &R,
    settings: &Settings,
    imported_globals: u32,
    allocs: &mut OperatorValidatorAllocations,
    names: &mut Vec<u32>,
    offset: u64,
) -> Result<()>
    requires within { IsWithinCeilings settings.now.limits }
    ensures answer { Tells result (AreItems settings.now (R.meaning resources.now).«module» imported_globals
        (type_in (R.meaning resources.now) ty) items.entry) }
    ensures named { IfOk result (λ _. NamesItems settings.now items.entry names.old.items names.new.items) }
    ensures refused { IfErr result (λ e. UnlessMemory e.kind (RefusesItems settings.now
        (R.meaning resources.now) imported_globals offset (type_in (R.meaning resources.now) ty) items.entry e)) }
{
    match items {
        ElementItemsOf::Functions(section) => {
            match check_count(section.count(), settings, offset) {
                Ok(()) => (),
                Err(error) => return Err(error),
            }
            check_functions(section, resources, names)
        }
        ElementItemsOf::Expressions(_, section) => {
            match check_count(section.count(), settings, offset) {
                Ok(()) => (),
                Err(error) => return Err(error),
            }
            check_constants(
                alloc,
                section,
                &ty,
                resources,
                settings,
                imported_globals,
                allocs,
                names,
            )
        }
    }
}
