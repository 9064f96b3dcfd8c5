//! Bodies judged in turn.

ghost use Rattle.std.specs.Prelude.{◌≡◌};
ghost use Rattle.wasm_types.specs.settings.Limits.{IsWithinCeilings};
ghost use Rattle.wasm_types.specs.settings.Settings.{Settings};
ghost use Rattle.wasm_types.specs.decoding.Denials.{Tells};
ghost use Rattle.wasm_module_validator_section_order.specs.rules.Valid.{Each};
ghost use Rattle.wasm_module_validator_section_order.specs.items.Bodies.{IsReadBy};
ghost use Rattle.wasm_module_validator_function_bodies.specs.code.Code.{IsFunctionOf};

use crate::plain::{PlainJudge, entries_for};
use crate::{FuncToValidate, FuncValidatorAllocations, WasmModuleResources, judge_function};
use std::alloc::Global;
use wasm_module_validator_section_order::items::Body;
use wasm_types::{Limits, Result, WasmFeatures};

/// Judges bodies of functions in order, by these features and limits. If they were read by the settings of a module, with these features
/// and limits, and each has no more bytes than a body may have, it is Ok exactly if each spells a valid function of its type, out of
/// memory aside (WebAssembly 3.0, validation, modules, functions).
///
/// # Errors
///
/// The module has no function type at a body's index, or one with more parameters than a function may have locals; a body spells no
/// valid function; or there is no memory: the first of these.
pub fn judge_bodies<R: WasmModuleResources>(
    alloc: Global,
    resources: &R,
    features: WasmFeatures,
    limits: Limits,
    bodies: &[Body<'_>],
) -> Result<()>
    requires within { IsWithinCeilings limits }
    ensures { (z : Settings) → z.limits ≡ limits → Each (λ b. IsReadBy z features.0 b.body) bodies.now
        → Tells result (Each (λ b. IsFunctionOf z (R.meaning resources.now).«module» b.type_index
        b.body.rest) bodies.now) }
{
    let mut memory = FuncValidatorAllocations::new(alloc);
    let entries = entries_for(bodies.len() as u64, bytes_of(bodies));
    let mut plain = PlainJudge::new(alloc, resources, features, entries);
    for i in 0..bodies.len() {
        let body = &bodies[i];
        let function = FuncToValidate {
            resources,
            index: body.index,
            ty: body.type_index,
            features,
            limits,
        };
        match judge_function(alloc, &mut plain, &mut memory, function, &body.body) {
            Ok(()) => (),
            Err(error) => return Err(error),
        }
    }
    Ok(())
}

/// How many bytes bodies have in all.
fn bytes_of(bodies: &[Body<'_>]) -> u64 {
    let mut bytes: u64 = 0;
    for body in bodies {
        bytes = bytes.saturating_add(body.body.as_bytes().len() as u64);
    }
    bytes
}
