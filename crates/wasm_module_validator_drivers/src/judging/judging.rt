//! The bodies that were kept, judged over all that was read.

ghost use Rattle.std.specs.Prelude.{◌≡◌, length};
ghost use Rattle.wasm_types.specs.decoding.Denials.{Tells};
ghost use Rattle.wasm_types.specs.settings.Settings.{Settings};
ghost use Rattle.wasm_module_validator_section_order.specs.rules_in_order.Steps.{SoFar};
ghost use Rattle.wasm_module_validator_payloads.specs.Progress.{IsAt};
ghost use Rattle.wasm_module_validator_drivers.specs.judging.Bodies.{AreBodies};

use std::alloc::Global;
use wasm_module_validator_function_bodies::code::judge_bodies;
use wasm_module_validator_payloads::{Body, InProgress};
use wasm_types::Result;

/// Judges the bodies of a module whose sections were read, by the settings that they were read by.
///
/// # Errors
///
/// A body spells no function, or one that is not valid: the first of these; or there is no memory.
pub fn judge(alloc: Global, progress: &InProgress, bodies: &[Body<'_>]) -> Result<()>
    ensures { (z : Settings) (q : SoFar) → IsAt z progress.now bodies.now q → length q.bodies ≡ length q.tree.functions
        → Tells result (AreBodies z q) }
{
    let features = progress.features();
    let limits = progress.limits();
    let resources = progress.resources();
    judge_bodies(alloc, &resources, features, limits, bodies)
}
