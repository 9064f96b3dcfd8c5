//! Handlers of a continuation that is resumed (the proposal on stack switching).

ghost use Rattle.wasm_operator_validator_rules.specs.Continuations.{EachHandles, Handles, IsCaught, IsSwitched};
ghost use Rattle.wasm_operator_validator_state.specs.State.{types_in};
ghost use Rattle.wasm_operator_validator_control.specs.Fitting.{Answers};
ghost use Rattle.wasm_operator_validator_objects.specs.Rows.{here};

use crate::naming::{continuation_in, tag_at};
use wasm_operator_validator_control::{are_below, label_types};
use wasm_operator_validator_objects::split_label;
use wasm_operator_validator_stacks::determined::{
    OperatorValidator, Reason, Refusal, WasmModuleResources,
};
use wasm_operators_immediates::Handle;
use wasm_types::ValType;

/// Whether each of these may handle what a continuation does that gives such results.
pub(crate) fn check_handlers<R: WasmModuleResources>(
    validator: &OperatorValidator,
    resources: &R,
    results: &[ValType],
    handlers: &[Handle],
) -> Result<(), Refusal>
    ensures { Answers result (EachHandles (here (R.meaning resources.now) validator.now)
        (types_in (R.meaning resources.now) results.now) handlers.now) }
{
    for place in 0..handlers.len() {
        match check_handler(validator, resources, results, handlers[place]) {
            Ok(()) => {}
            Err(refusal) => return Err(refusal),
        }
    }
    Ok(())
}

// Whether a handler may do so.
fn check_handler<R: WasmModuleResources>(
    validator: &OperatorValidator,
    resources: &R,
    results: &[ValType],
    handler: Handle,
) -> Result<(), Refusal>
    ensures { Answers result (Handles (here (R.meaning resources.now) validator.now)
        (types_in (R.meaning resources.now) results.now) handler) }
{
    match handler {
        Handle::OnLabel { tag, label } => check_on_label(validator, resources, results, tag, label),
        Handle::OnSwitch { tag } => check_on_switch(validator, resources, results, tag),
    }
}

// What a suspension carries fits the label, and on top of it what is left of the continuation, of the type that the label names.
fn check_on_label<R: WasmModuleResources>(
    validator: &OperatorValidator,
    resources: &R,
    results: &[ValType],
    tag_index: u32,
    label: u32,
) -> Result<(), Refusal>
    ensures { Answers result (IsCaught (here (R.meaning resources.now) validator.now)
        (types_in (R.meaning resources.now) results.now) tag_index label) }
{
    let tag = match tag_at(resources, tag_index) {
        Ok(tag) => tag,
        Err(refusal) => return Err(refusal),
    };
    let (block_type, kind) = match validator.jump(label) {
        Some(frame) => frame,
        None => return Err(Refusal::UnknownLabel),
    };
    let types = label_types(resources, &block_type, kind);
    let (last, carried) = match split_label(types) {
        Some(split) => split,
        None => return Err(Refusal::Because(Reason::HandlerLabel)),
    };
    let (takes, gives) = match continuation_in(resources, &last) {
        Some(found) => found,
        None => return Err(Refusal::Because(Reason::HandlerLabel)),
    };
    if !are_below(resources, tag.params(), carried) {
        return Err(Refusal::Because(Reason::HandlerCarries));
    }
    if !are_below(resources, takes, tag.results()) {
        return Err(Refusal::Because(Reason::HandlerContinues));
    }
    if !are_below(resources, results, gives) {
        return Err(Refusal::Because(Reason::HandlerContinues));
    }
    Ok(())
}

// A switch carries nothing, and what the tag gives is what the continuation gives.
fn check_on_switch<R: WasmModuleResources>(
    validator: &OperatorValidator,
    resources: &R,
    results: &[ValType],
    tag_index: u32,
) -> Result<(), Refusal>
    ensures { Answers result (IsSwitched (here (R.meaning resources.now) validator.now)
        (types_in (R.meaning resources.now) results.now) tag_index) }
{
    let _validator = validator;
    let tag = match tag_at(resources, tag_index) {
        Ok(tag) => tag,
        Err(refusal) => return Err(refusal),
    };
    if !tag.params().is_empty() {
        return Err(Refusal::Because(Reason::SwitchCarries));
    }
    if !are_below(resources, tag.results(), results) {
        return Err(Refusal::Because(Reason::SwitchResults));
    }
    if !are_below(resources, results, tag.results()) {
        return Err(Refusal::Because(Reason::SwitchResults));
    }
    Ok(())
}
