//! The two ways in which a function's body is judged, one after the other.
//!
//! The loop (`PlainJudge`) is fast, and leaves open what it does not know. The complete way (`FuncValidator`) decides.

ghost use Rattle.std.specs.Prelude.{◌≡◌};
ghost use Rattle.wasm_types.specs.decoding.Denials.{Tells};
ghost use Rattle.wasm_types.specs.settings.Limits.{IsWithinCeilings};
ghost use Rattle.wasm_types.specs.settings.Settings.{Settings};
ghost use Rattle.wasm_module_validator_section_order.specs.items.Bodies.{IsReadBy};
ghost use Rattle.wasm_module_validator_function_bodies.specs.Plain.{IsJudgeOf};
ghost use Rattle.wasm_module_validator_function_bodies.specs.code.Code.{IsFunctionOf};

use crate::plain::PlainJudge;
use crate::{FuncToValidate, FuncValidatorAllocations, FunctionBody, WasmModuleResources};
use std::alloc::Global;
use std::mem::replace;
use wasm_types::{Error, Result};

/// Judges the body of a function, which is usually valid: first in the loop, and if that does not accept it by a validator of its own, which
/// says why it is refused. The loop's tables are those of the function's module. If the loop was refused memory, that is the answer, at the
/// offset of the body's locals.
///
/// # Errors
///
/// The module has no function type at the function's index, or the body spells no valid function of it, by the function's features and
/// limits; or there is no memory.
#[inline(always)]
pub fn judge_function<R: WasmModuleResources + Drop>(
    alloc: Global,
    in_loop: &mut PlainJudge,
    complete: &mut FuncValidatorAllocations,
    function: FuncToValidate<R>,
    body: &FunctionBody<'_>,
) -> Result<()>
    requires within { IsWithinCeilings function.limits }
    requires tables { IsJudgeOf (R.meaning function.resources).«module» function.features.0 in_loop.old }
    ensures told { (z : Settings) → z.limits ≡ function.limits → IsReadBy z function.features.0 body.now
        → Tells result (IsFunctionOf z (R.meaning function.resources).«module» function.ty body.now.rest) }
    ensures stays { IsJudgeOf (R.meaning function.resources).«module» function.features.0 in_loop.new }
{
    let (features, limits) = (function.features, function.limits);
    if in_loop.accepts(&function.resources, function.ty, features, limits, body) {
        return Ok(());
    }
    if in_loop.lacks_memory() {
        return Err(Error::out_of_memory(locals_of(body)));
    }
    judge_with_reason(alloc, complete, function, body)
}

/// The offset of a body's locals.
#[inline(never)]
fn locals_of(body: &FunctionBody<'_>) -> u64 {
    body.get_binary_reader().original_position()
}

/// Judges a body completely, by a validator of its own, in memory that the next uses again. That its function has more parameters than locals are
/// allowed is told at the offset of the body's locals.
#[inline(never)]
fn judge_with_reason<R: WasmModuleResources + Drop>(
    alloc: Global,
    memory: &mut FuncValidatorAllocations,
    function: FuncToValidate<R>,
    body: &FunctionBody<'_>,
) -> Result<()>
    requires within { IsWithinCeilings function.limits }
    ensures { (z : Settings) → z.limits ≡ function.limits → IsReadBy z function.features.0 body.now
        → Tells result (IsFunctionOf z (R.meaning function.resources).«module» function.ty body.now.rest) }
{
    let locals = locals_of(body);
    let allocs = replace(memory, FuncValidatorAllocations::new(alloc));
    let mut validator = match function.begin_at(locals, allocs) {
        Ok(validator) => validator,
        Err(error) => return Err(error),
    };
    let judged = validator.validate(body);
    *memory = validator.into_allocations();
    judged
}
