//! Functions and constants that are checked, and the functions that they name.

ghost use Rattle.std.specs.Prelude.{◌≡◌, ◌++◌, ◌∷◌, [], IfErr, IfOk, length};
ghost use Rattle.wasm_types.specs.decoding.Denials.{Tells, UnlessMemory};
ghost use Rattle.wasm_types.specs.decoding.declared.error.ErrorKind.TheVariants.{OutOfMemory, Other};
ghost use Rattle.wasm_types.specs.settings.Limits.{IsWithinCeilings};
ghost use Rattle.wasm_types.specs.reader.Reading.{IsNotMemory};
ghost use Rattle.wasm_operators_encoding.specs.expressions.Code.{Code};
ghost use Rattle.wasm_operators_encoding.specs.expressions.Spelling.{SpelledExpression};
ghost use Rattle.wasm_operator_validator_state.specs.resources.Meaning.{type_in};
ghost use Rattle.wasm_module_validator_initialisers.specs.segments.Judged.{IsConstantText};
ghost use Rattle.wasm_module_validator_initialisers.specs.segments.Refusals.{IsFault, StopsText};
ghost use Rattle.wasm_module_validator_resources.specs.referring.Naming.{NamesMore};
ghost use Rattle.wasm_module_validator_initialisers.specs.elements.Items.{IsFunction};
ghost use Rattle.wasm_module_validator_initialisers.specs.elements.Naming.{NamesFunction};

use crate::segments::{
    ConstExpr, OperatorValidatorAllocations, Settings, WasmModuleResources, check_constant,
    reader_by, refers_to_none,
};
use std::alloc::Global;
use wasm_module_validator_resources::referring::name_references;
use wasm_types::{Error, ModuleWords, Result, Text, ValType, Words};

// The refusal of an index past the end of the functions.
#[cold]
fn unknown_function(index: u32, offset: u64) -> Error
    ensures kind { result.kind ≡ Other }
    ensures at { result.offset ≡ offset }
{
    Error::with(
        Text::Number(
            Words::UnknownFunction,
            index,
            Words::Module(ModuleWords::FuncIndexOutOfBounds),
        ),
        offset,
    )
}

// Refuses an index past the end of the functions.
fn check_function<R: WasmModuleResources>(resources: &R, index: u32, offset: u64) -> Result<()>
    ensures answer { Tells result (IsFunction (R.meaning resources.now).«module» index) }
    ensures refused { IfErr result (IsFault offset) }
{
    if resources.type_index_of_function(index).is_none() {
        return Err(unknown_function(index, offset));
    }
    Ok(())
}

// One name more.
fn push_name(index: u32, names: &mut Vec<u32>) -> Result<()>
    ensures named { IfOk result (λ _. NamesFunction index names.old.items names.new.items) }
    ensures refused { IfErr result (λ e. e.kind ≡ OutOfMemory) }
{
    names.push(index)?;
    Ok(())
}

/// Checks an index of a function, which stands at this offset, and names the function.
pub(crate) fn take_function<R: WasmModuleResources>(
    resources: &R,
    index: u32,
    names: &mut Vec<u32>,
    offset: u64,
) -> Result<()>
    ensures answer { Tells result (IsFunction (R.meaning resources.now).«module» index) }
    ensures named { IfOk result (λ _. NamesFunction index names.old.items names.new.items) }
    ensures refused { IfErr result (λ e. UnlessMemory e.kind ((IsFunction (R.meaning resources.now).«module» index → ⊥)
        × IsFault offset e)) }
{
    match check_function(resources, index, offset) {
        Ok(()) => (),
        Err(error) => return Err(error),
    }
    push_name(index, names)
}

// Names the functions that an expression refers to, by the settings that the module is judged by.
fn name_constant(
    alloc: Global,
    expr: &ConstExpr<'_>,
    settings: &Settings,
    names: &mut Vec<u32>,
) -> Result<()>
    requires within { IsWithinCeilings settings.now.limits }
    ensures named { IfOk result (λ _. NamesMore settings.now expr.now.rest names.old.items names.new.items) }
    ensures refused { IfErr result (λ e. IsNotMemory e.kind → (c : Code)
        → SpelledExpression settings.now c expr.now.rest → ⊥) }
{
    if refers_to_none(expr) {
        return Ok(());
    }
    name_references(alloc, reader_by(expr, settings), names)
}

/// Checks a constant of this type, which is named as the module names it for itself, and names the functions that it refers to.
pub(crate) fn take_constant<R: WasmModuleResources>(
    alloc: Global,
    expr: &ConstExpr<'_>,
    ty: ValType,
    resources: &R,
    settings: &Settings,
    imported_globals: u32,
    allocs: &mut OperatorValidatorAllocations,
    names: &mut Vec<u32>,
) -> Result<()>
    requires within { IsWithinCeilings settings.now.limits }
    ensures answer { Tells result (IsConstantText settings.now (R.meaning resources.now).«module» imported_globals
        (type_in (R.meaning resources.now) ty) expr.now.rest) }
    ensures named { IfOk result (λ _. NamesMore settings.now expr.now.rest names.old.items names.new.items) }
    ensures refused { IfErr result (λ e. UnlessMemory e.kind (StopsText settings.now
        (R.meaning resources.now) imported_globals (type_in (R.meaning resources.now) ty) expr.now e)) }
{
    match check_constant(
        alloc,
        expr,
        ty,
        resources,
        settings,
        imported_globals,
        allocs,
    ) {
        Ok(()) => (),
        Err(error) => return Err(error),
    }
    name_constant(alloc, expr, settings, names)
}
