//! Exceptions that are thrown (WebAssembly 3.0, validation, control instructions; `rethrow` by the older form of the proposal on
//! exceptions).

ghost use Rattle.std.specs.Prelude.{◌≡◌, ◌↔◌, IsTrue, MatchResult, true, List};
ghost use Rattle.wasm_operators_enums.specs.Op.{Op, ExceptionTree};
ghost use Rattle.wasm_operator_validator_rules.specs.Context.{is_catch};
ghost use Rattle.wasm_operator_validator_rules.specs.Exceptions.{exception};
ghost use Rattle.wasm_operator_validator_rules.specs.Operands.{ValueType};
ghost use Rattle.wasm_operator_validator_state.specs.resources.Meaning.{Meaning, type_in};
ghost use Rattle.wasm_operator_validator_state.specs.Refusals.{refused};
ghost use Rattle.wasm_operator_validator_state.specs.State.{Checks, types_in};
ghost use Rattle.wasm_operator_validator_control.specs.Clauses.{IsTagIn};

use crate::{
    FrameKind, OperatorValidator, Proposal, Reason, Refusal, Space, WasmModuleResources, jump_with,
};
use wasm_types::{AbstractHeapType, FuncType, HeapType, RefType, ValType};

/// Checks `throw`.
pub fn check_throw<R: WasmModuleResources>(
    validator: &mut OperatorValidator,
    resources: &R,
    tag_index: u32,
) -> Result<(), Refusal>
    ensures { Checks (R.meaning resources.now) validator.old (Op.Exception (ExceptionTree.Throw tag_index))
        (refused result) validator.new }
{
    match validator.begin(Proposal::Exceptions, false) {
        Ok(()) => {}
        Err(refusal) => return Err(refusal),
    }
    let tag = match exception_tag(resources, tag_index) {
        Ok(tag) => tag,
        Err(refusal) => return Err(refusal),
    };
    jump_with(validator, resources, tag.params())
}

/// Checks `throw_ref`.
pub fn check_throw_ref<R: WasmModuleResources>(
    validator: &mut OperatorValidator,
    resources: &R,
) -> Result<(), Refusal>
    ensures { Checks (R.meaning resources.now) validator.old (Op.Exception ExceptionTree.ThrowRef)
        (refused result) validator.new }
{
    match validator.begin(Proposal::Exceptions, false) {
        Ok(()) => {}
        Err(refusal) => return Err(refusal),
    }
    let thrown = exception_type(true);
    jump_with(validator, resources, &[thrown])
}

/// Checks `rethrow`.
pub fn check_rethrow<R: WasmModuleResources>(
    validator: &mut OperatorValidator,
    resources: &R,
    relative_depth: u32,
) -> Result<(), Refusal>
    ensures { Checks (R.meaning resources.now) validator.old (Op.Exception (ExceptionTree.Rethrow relative_depth))
        (refused result) validator.new }
{
    match validator.begin(Proposal::LegacyExceptions, false) {
        Ok(()) => {}
        Err(refusal) => return Err(refusal),
    }
    let Some((_, kind)) = validator.jump(relative_depth) else {
        return Err(Refusal::UnknownLabel);
    };
    if !catches(kind) {
        return Err(Refusal::Because(Reason::RethrowOutsideCatch));
    }
    jump_with(validator, resources, &[])
}

/// The type of the tag at an index, which gives nothing back.
pub fn exception_tag<R: WasmModuleResources>(
    resources: &R,
    tag_index: u32,
) -> Result<&FuncType, Refusal>
    ensures { MatchResult result (λ f. IsTagIn (R.meaning resources.now) tag_index
        (types_in (R.meaning resources.now) f.now.params)) (λ r. (ts : List ValueType)
        → IsTagIn (R.meaning resources.now) tag_index ts → ⊥) }
{
    let Some(tag) = resources.tag_at(tag_index) else {
        return Err(Refusal::Unknown {
            space: Space::Tag,
            index: tag_index,
        });
    };
    if !tag.results().is_empty() {
        return Err(Refusal::Because(Reason::TagResults));
    }
    Ok(tag)
}

/// The type of references to exceptions, which may be null or may not.
pub fn exception_type(nullable: bool) -> ValType
    ensures { (m : Meaning) → type_in m result ≡ exception nullable }
{
    let any = HeapType::Abstract {
        shared: false,
        ty: AbstractHeapType::Exn,
    };
    match RefType::new(nullable, any) {
        Some(reference) => ValType::Ref(reference),
        None => unreachable!(),
    }
}

/// Whether a frame has an exception to throw again.
fn catches(kind: FrameKind) -> bool
    ensures { result ≡ is_catch kind }
{
    match kind {
        FrameKind::LegacyCatch => true,
        FrameKind::LegacyCatchAll => true,
        FrameKind::Block => false,
        FrameKind::If => false,
        FrameKind::Else => false,
        FrameKind::Loop => false,
        FrameKind::TryTable => false,
        FrameKind::LegacyTry => false,
    }
}
