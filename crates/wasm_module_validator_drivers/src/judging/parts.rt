//! The bodies of one part of a module, so that parts may be judged side by side.

ghost use Rattle.std.specs.Prelude.{◌≡◌, ◌<◌, ◌++◌, ◌∷◌, [], if◌then◌else◌, IfOk, IfErr, OnOk, length};
ghost use Rattle.wasm_types.specs.decoding.Denials.{Tells};
ghost use Rattle.wasm_types.specs.decoding.declared.error.ErrorKind.TheVariants.{OutOfMemory};
ghost use Rattle.wasm_types.specs.settings.Settings.{Settings};
ghost use Rattle.wasm_module_validator_section_order.specs.rules_in_order.Steps.{SoFar};
ghost use Rattle.wasm_module_validator_payloads.specs.Progress.{IsAt};
ghost use Rattle.wasm_module_validator_drivers.specs.judging.Bodies.{is_of, of_part, ArePartBodies};

use std::alloc::Global;
use wasm_module_validator_function_bodies::code::judge_bodies;
use wasm_module_validator_payloads::{Body, InProgress};
use wasm_types::Result;

// Puts a body of this number to those of the part, if it is one of them.
fn keep_of_part<'a>(
    mine: &mut Vec<Body<'a>>,
    body: Body<'a>,
    number: usize,
    part: u32,
    parts: u32,
) -> Result<()>
    requires some { 0 < parts }
    ensures ok { OnOk result (mine.new.items
        ≡ mine.old.items ++ (if is_of part parts number then body.entry ∷ [] else [])) }
    ensures memory { IfErr result (λ e. e.kind ≡ OutOfMemory) }
{
    if number % parts as usize == part as usize {
        mine.push(body)?;
    }
    Ok(())
}

// Those of these bodies whose number is `part` modulo `parts`.
fn bodies_of_part<'a>(
    alloc: Global,
    bodies: Vec<Body<'a>>,
    part: u32,
    parts: u32,
) -> Result<Vec<Body<'a>>>
    requires some { 0 < parts }
    ensures ok { IfOk result (λ mine. mine.items ≡ of_part part parts 0 bodies.entry.items) }
    ensures memory { IfErr result (λ e. e.kind ≡ OutOfMemory) }
{
    let mut mine = Vec::new(alloc);
    let mut number = 0;
    for body in bodies {
        match keep_of_part(&mut mine, body, number, part, parts) {
            Ok(()) => (),
            Err(error) => return Err(error),
        }
        number += 1;
    }
    Ok(mine)
}

/// Judges those bodies of a module whose sections were read that are of a part: each whose number is `part` modulo `parts`, by the settings
/// that the sections were read by.
///
/// # Errors
///
/// A body of the part spells no function, or one that is not valid: the first of these; or there is no memory.
pub fn judge_part(
    alloc: Global,
    progress: &InProgress,
    bodies: Vec<Body<'_>>,
    part: u32,
    parts: u32,
) -> Result<()>
    requires some { 0 < parts }
    ensures { (z : Settings) (q : SoFar) → IsAt z progress.now bodies.entry.items q → length q.bodies ≡ length q.tree.functions
        → Tells result (ArePartBodies z part parts q) }
{
    let mine = match bodies_of_part(alloc, bodies, part, parts) {
        Ok(mine) => mine,
        Err(error) => return Err(error),
    };
    let features = progress.features();
    let limits = progress.limits();
    let resources = progress.resources();
    judge_bodies(alloc, &resources, features, limits, mine.as_slice())
}
