//! Operators on continuations (the proposal on stack switching).

ghost use Rattle.std.specs.Prelude.{◌≡◌, ◌<◌, ◌++◌, MatchOption, length};
ghost use Rattle.wasm_operators_enums.specs.Op.{Op, ContinuationTree};
ghost use Rattle.wasm_operator_validator_state.specs.Refusals.{refused};
ghost use Rattle.wasm_operator_validator_state.specs.State.{Checks};

use crate::handlers::check_handlers;
use crate::naming::{
    continuation_at, continuation_in, continued_at, function_named, reference_to, tag_at,
};
use crate::steps::exchange_above;
use wasm_operator_validator_control::{are_below, exception_tag, exception_type};
use wasm_operator_validator_objects::{reference_at, split_label};
use wasm_operator_validator_stacks::determined::{
    OperatorValidator, Proposal, Reason, Refusal, Space, WasmModuleResources,
};
use wasm_operators_immediates::ResumeTable;
use wasm_types::ValType;

/// `cont.new`: the continuation of a function.
pub fn check_cont_new<R: WasmModuleResources>(
    validator: &mut OperatorValidator,
    resources: &R,
    type_index: u32,
) -> Result<(), Refusal>
    ensures { Checks (R.meaning resources.now) validator.old (Op.Continuation (ContinuationTree.ContNew type_index))
        (refused result) validator.new }
{
    match validator.begin(Proposal::StackSwitching, false) {
        Ok(()) => (),
        Err(refusal) => return Err(refusal),
    }
    let function = match continued_at(validator, resources, type_index) {
        Ok(function) => function,
        Err(refusal) => return Err(refusal),
    };
    match function_named(resources, function.unpack()) {
        Some(_) => (),
        None => {
            return Err(Refusal::Unknown {
                space: Space::ContinuationType,
                index: type_index,
            });
        }
    }
    let of = reference_to(true, false, function);
    let made = reference_at(resources, type_index, false, false);
    validator.exchange(resources, &[of], &[made])
}

/// `cont.bind`: the first parameters of a continuation are bound, and the others are those of the new type.
pub fn check_cont_bind<R: WasmModuleResources>(
    validator: &mut OperatorValidator,
    resources: &R,
    argument_index: u32,
    result_index: u32,
) -> Result<(), Refusal>
    ensures { Checks (R.meaning resources.now) validator.old
        (Op.Continuation (ContinuationTree.ContBind argument_index result_index)) (refused result) validator.new }
{
    match validator.begin(Proposal::StackSwitching, false) {
        Ok(()) => (),
        Err(refusal) => return Err(refusal),
    }
    let (old_takes, old_gives) = match continuation_at(validator, resources, argument_index) {
        Ok(found) => found,
        Err(refusal) => return Err(refusal),
    };
    let (new_takes, new_gives) = match continuation_at(validator, resources, result_index) {
        Ok(found) => found,
        Err(refusal) => return Err(refusal),
    };
    let (bound, rest) = match split_at_end(old_takes, new_takes.len()) {
        Some(split) => split,
        None => return Err(Refusal::Because(Reason::BindParameters)),
    };
    if !are_below(resources, new_takes, rest) {
        return Err(Refusal::Because(Reason::BindParameters));
    }
    if !are_below(resources, old_gives, new_gives) {
        return Err(Refusal::Because(Reason::BindResults));
    }
    let old = reference_at(resources, argument_index, true, false);
    let new = reference_at(resources, result_index, false, false);
    exchange_above(validator, resources, bound, &[old], &[new])
}

// The last so many of these types, and those before them.
fn split_at_end(types: &[ValType], count: usize) -> Option<(&[ValType], &[ValType])>
    ensures { MatchOption result (length types.now < count) (λ p. (types.now ≡ p.0.now ++ p.1.now)
        × (length p.1.now ≡ count)) }
{
    if types.len() < count {
        return None;
    }
    let at = types.len() - count;
    Some(types.split_at(at))
}

/// `suspend`: what the tag carries is exchanged for what it gives back.
pub fn check_suspend<R: WasmModuleResources>(
    validator: &mut OperatorValidator,
    resources: &R,
    tag_index: u32,
) -> Result<(), Refusal>
    ensures { Checks (R.meaning resources.now) validator.old (Op.Continuation (ContinuationTree.Suspend tag_index))
        (refused result) validator.new }
{
    match validator.begin(Proposal::StackSwitching, false) {
        Ok(()) => (),
        Err(refusal) => return Err(refusal),
    }
    let tag = match tag_at(resources, tag_index) {
        Ok(tag) => tag,
        Err(refusal) => return Err(refusal),
    };
    validator.exchange(resources, tag.params(), tag.results())
}

/// `resume`, with handlers.
pub fn check_resume<R: WasmModuleResources>(
    validator: &mut OperatorValidator,
    resources: &R,
    type_index: u32,
    table: &ResumeTable,
) -> Result<(), Refusal>
    ensures { Checks (R.meaning resources.now) validator.old
        (Op.Continuation (ContinuationTree.Resume type_index table.now.handlers.items)) (refused result) validator.new }
{
    match validator.begin(Proposal::StackSwitching, false) {
        Ok(()) => (),
        Err(refusal) => return Err(refusal),
    }
    let (takes, gives) = match continuation_at(validator, resources, type_index) {
        Ok(found) => found,
        Err(refusal) => return Err(refusal),
    };
    match check_handlers(validator, resources, gives, table.handlers.as_slice()) {
        Ok(()) => (),
        Err(refusal) => return Err(refusal),
    }
    let resumed = reference_at(resources, type_index, true, false);
    exchange_above(validator, resources, takes, &[resumed], gives)
}

/// `resume_throw`: the continuation goes on with an exception of this tag.
pub fn check_resume_throw<R: WasmModuleResources>(
    validator: &mut OperatorValidator,
    resources: &R,
    type_index: u32,
    tag_index: u32,
    table: &ResumeTable,
) -> Result<(), Refusal>
    ensures { Checks (R.meaning resources.now) validator.old
        (Op.Continuation (ContinuationTree.ResumeThrow type_index tag_index table.now.handlers.items))
        (refused result) validator.new }
{
    match validator.begin(Proposal::StackSwitching, false) {
        Ok(()) => (),
        Err(refusal) => return Err(refusal),
    }
    let (_takes, gives) = match continuation_at(validator, resources, type_index) {
        Ok(found) => found,
        Err(refusal) => return Err(refusal),
    };
    let tag = match exception_tag(resources, tag_index) {
        Ok(tag) => tag,
        Err(refusal) => return Err(refusal),
    };
    match check_handlers(validator, resources, gives, table.handlers.as_slice()) {
        Ok(()) => (),
        Err(refusal) => return Err(refusal),
    }
    let resumed = reference_at(resources, type_index, true, false);
    exchange_above(validator, resources, tag.params(), &[resumed], gives)
}

/// `resume_throw_ref`: the same with an exception that a reference is to.
pub fn check_resume_throw_ref<R: WasmModuleResources>(
    validator: &mut OperatorValidator,
    resources: &R,
    type_index: u32,
    table: &ResumeTable,
) -> Result<(), Refusal>
    ensures { Checks (R.meaning resources.now) validator.old
        (Op.Continuation (ContinuationTree.ResumeThrowRef type_index table.now.handlers.items))
        (refused result) validator.new }
{
    match validator.begin(Proposal::StackSwitching, false) {
        Ok(()) => (),
        Err(refusal) => return Err(refusal),
    }
    let (_takes, gives) = match continuation_at(validator, resources, type_index) {
        Ok(found) => found,
        Err(refusal) => return Err(refusal),
    };
    match check_handlers(validator, resources, gives, table.handlers.as_slice()) {
        Ok(()) => (),
        Err(refusal) => return Err(refusal),
    }
    let thrown = exception_type(true);
    let resumed = reference_at(resources, type_index, true, false);
    validator.exchange(resources, &[thrown, resumed], gives)
}

/// `switch`: to a continuation that takes the one that is left.
pub fn check_switch<R: WasmModuleResources>(
    validator: &mut OperatorValidator,
    resources: &R,
    type_index: u32,
    tag_index: u32,
) -> Result<(), Refusal>
    ensures { Checks (R.meaning resources.now) validator.old
        (Op.Continuation (ContinuationTree.Switch type_index tag_index)) (refused result) validator.new }
{
    match validator.begin(Proposal::StackSwitching, false) {
        Ok(()) => (),
        Err(refusal) => return Err(refusal),
    }
    let (takes, gives) = match continuation_at(validator, resources, type_index) {
        Ok(found) => found,
        Err(refusal) => return Err(refusal),
    };
    let (last, carried) = match split_label(takes) {
        Some(split) => split,
        None => return Err(Refusal::Because(Reason::SwitchParameter)),
    };
    let (left_takes, left_gives) = match continuation_in(resources, &last) {
        Some(found) => found,
        None => return Err(Refusal::Because(Reason::SwitchParameter)),
    };
    let tag = match tag_at(resources, tag_index) {
        Ok(tag) => tag,
        Err(refusal) => return Err(refusal),
    };
    if !tag.params().is_empty() {
        return Err(Refusal::Because(Reason::SwitchCarries));
    }
    if !are_below(resources, gives, tag.results()) {
        return Err(Refusal::Because(Reason::SwitchResults));
    }
    if !are_below(resources, tag.results(), left_gives) {
        return Err(Refusal::Because(Reason::SwitchResults));
    }
    let resumed = reference_at(resources, type_index, true, false);
    exchange_above(validator, resources, carried, &[resumed], left_takes)
}
