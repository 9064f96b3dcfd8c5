//! A function's body judged as soon as it is whole.

ghost use Rattle.std.specs.Prelude.{◌≡◌};
ghost use Rattle.wasm_types.specs.decoding.Denials.{Tells};
ghost use Rattle.wasm_types.specs.settings.Limits.{IsWithinCeilings};
ghost use Rattle.wasm_types.specs.settings.Settings.{Settings};
ghost use Rattle.wasm_module_validator_function_bodies.specs.code.Code.{IsFunctionOf};
ghost use Rattle.wasm_module_validator_section_order.specs.items.Bodies.{IsReadBy};
ghost use Rattle.wasm_module_validator_streaming.specs.Judges.{IsJudgeKept};

use std::alloc::Global;
use wasm_module_validator_function_bodies::{
    FuncToValidate, FuncValidatorAllocations, FunctionBody, PlainJudge, WasmModuleResources,
    judge_function,
};
use wasm_types::Result;

/// Judges a body as [`judge_function`] does. The first body of a module makes the loop's tables, of so many entries at most, and the others
/// find them.
///
/// # Errors
///
/// Those of [`judge_function`].
#[inline(always)]
pub(crate) fn judge_next<R: WasmModuleResources + Drop>(
    alloc: Global,
    in_loop: &mut Option<PlainJudge>,
    entries: u32,
    complete: &mut FuncValidatorAllocations,
    function: FuncToValidate<R>,
    body: &FunctionBody<'_>,
) -> Result<()>
    requires within { IsWithinCeilings function.limits }
    requires tables { IsJudgeKept (R.meaning function.resources).«module» function.features.0 in_loop.old }
    ensures told { (z : Settings) → z.limits ≡ function.limits → IsReadBy z function.features.0 body.now
        → Tells result (IsFunctionOf z (R.meaning function.resources).«module» function.ty body.now.rest) }
    ensures stays { IsJudgeKept (R.meaning function.resources).«module» function.features.0 in_loop.new }
{
    if let Some(judge) = in_loop {
        return judge_function(alloc, judge, complete, function, body);
    }
    judge_first(alloc, in_loop, entries, complete, function, body)
}

/// The same of the first body of a module.
#[inline(never)]
fn judge_first<R: WasmModuleResources + Drop>(
    alloc: Global,
    in_loop: &mut Option<PlainJudge>,
    entries: u32,
    complete: &mut FuncValidatorAllocations,
    function: FuncToValidate<R>,
    body: &FunctionBody<'_>,
) -> Result<()>
    requires within { IsWithinCeilings function.limits }
    ensures told { (z : Settings) → z.limits ≡ function.limits → IsReadBy z function.features.0 body.now
        → Tells result (IsFunctionOf z (R.meaning function.resources).«module» function.ty body.now.rest) }
    ensures stays { IsJudgeKept (R.meaning function.resources).«module» function.features.0 in_loop.new }
{
    let mut judge = PlainJudge::new(alloc, &function.resources, function.features, entries);
    let judged = judge_function(alloc, &mut judge, complete, function, body);
    *in_loop = Some(judge);
    judged
}
