//! Constant expressions of items.

ghost use Rattle.std.specs.Prelude.{◌≡◌, ℕ, List, IfErr, IsTrue};
ghost use Rattle.wasm_types.specs.decoding.Denials.{Tells, UnlessMemory};
ghost use Rattle.wasm_types.specs.settings.Limits.{IsWithinCeilings};
ghost use Rattle.wasm_types.specs.settings.Settings.{Settings as Given};
ghost use Rattle.wasm_operator_validator_state.specs.resources.Meaning.{Meaning, type_in};
ghost use Rattle.wasm_module_validator_resources.specs.referring.Naming.{NamesMore};
ghost use Rattle.wasm_module_validator_initialisers.specs.segments.Judged.{IsConstantText};
ghost use Rattle.wasm_module_validator_initialisers.specs.segments.Refusals.{StopsText, read_by};

use std::alloc::Global;
use wasm_module_validator_checks::externs::Settings;
use wasm_module_validator_fast_constants::accepts_constant;
use wasm_operator_validator_constants::{
    ConstExpr, OperatorValidatorAllocations, ShortConstant, WasmModuleResources, check_const_expr,
};
use wasm_types::{BinaryReader, Error, Result, ValType};

/// A reader of the bytes of an expression, by the settings that the module is judged by, whatever they were read by.
pub fn reader_by<'a>(expr: &ConstExpr<'a>, settings: &Settings) -> BinaryReader<'a>
    requires within { IsWithinCeilings settings.now.limits }
    ensures { result ≡ read_by settings.now expr.now }
{
    let mut reader = expr.get_binary_reader();
    reader.set_features(settings.features());
    reader.set_limits(settings.limits());
    reader
}

/// Whether an expression is a number of this type, as its bytes alone tell.
#[inline(always)]
fn is_number(expr: &ConstExpr<'_>, ty: &ValType) -> bool
    ensures { IsTrue result → (z : Given) (m : Meaning) (count : ℕ)
        → IsConstantText z m.«module» count (type_in m ty.now) expr.now.rest }
{
    match expr.as_short() {
        Some(ShortConstant::I32) => matches!(ty, ValType::I32),
        Some(ShortConstant::I64) => matches!(ty, ValType::I64),
        _ => false,
    }
}

// The bytes of an expression.
fn bytes_of<'a>(expr: &ConstExpr<'a>) -> &'a [u8]
    ensures { result.now ≡ expr.now.rest }
{
    let mut reader = expr.get_binary_reader();
    let Ok(bytes) = reader.read_bytes(reader.bytes_remaining()) else {
        unreachable!()
    };
    bytes
}

// Whether one pass over the bytes tells that an expression is a constant of this type. If a growth is refused, `lacks` is set.
fn is_accepted<R: WasmModuleResources>(
    alloc: Global,
    expr: &ConstExpr<'_>,
    ty: &ValType,
    resources: &R,
    settings: &Settings,
    lacks: &mut bool,
) -> bool
    ensures { IsTrue result → (count : ℕ) → IsConstantText settings.now (R.meaning resources.now).«module» count
        (type_in (R.meaning resources.now) ty.now) expr.now.rest }
{
    let bytes = bytes_of(expr);
    let features = settings.features();
    let mut stack = Vec::new(alloc);
    let Some(end) = accepts_constant(bytes, 0, ty, resources, &features, &mut stack, lacks) else {
        return false;
    };
    end == bytes.len()
}

/// Checks the bytes of an expression, by the settings that the module is judged by: Ok exactly if they spell a constant of this
/// type in the module so far, of whose globals the first so many are imported, out of memory aside (WebAssembly 3.0, validation,
/// instructions, constant expressions). The type is named as the module names it for itself. The memory of `allocs` is used.
///
/// # Errors
///
/// The bytes spell no constant of the type, inside its bytes; or there is no memory.
pub fn check_constant<R: WasmModuleResources>(
    alloc: Global,
    expr: &ConstExpr<'_>,
    ty: ValType,
    resources: &R,
    settings: &Settings,
    imported_globals: u32,
    allocs: &mut OperatorValidatorAllocations,
) -> Result<()>
    requires within { IsWithinCeilings settings.now.limits }
    ensures answer { Tells result (IsConstantText settings.now (R.meaning resources.now).«module» imported_globals
        (type_in (R.meaning resources.now) ty) expr.now.rest) }
    ensures refused { IfErr result (λ e. UnlessMemory e.kind (StopsText settings.now
        (R.meaning resources.now) imported_globals (type_in (R.meaning resources.now) ty) expr.now e)) }
{
    if is_number(expr, &ty) {
        return Ok(());
    }
    let mut lacks = false;
    if is_accepted(alloc, expr, &ty, resources, settings, &mut lacks) {
        return Ok(());
    }
    if lacks {
        return Err(Error::out_of_memory(0));
    }
    let judged = ConstExpr::new(alloc, reader_by(expr, settings));
    check_const_expr(
        alloc,
        &judged,
        ty,
        resources,
        settings.features(),
        imported_globals,
        allocs,
    )
}

/// Whether the bytes alone tell that an expression refers to no function: the opcode by which one does is not among them.
pub fn refers_to_none(expr: &ConstExpr<'_>) -> bool
    ensures { IsTrue result → (z : Given) (names : List ℕ) → NamesMore z expr.now.rest names names }
{
    if bytes_of(expr).contains(&0xd2) {
        return false;
    }
    true
}
