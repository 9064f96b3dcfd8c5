//! `try` with its clauses, and `delegate` (the older form of the proposal on exceptions).

ghost use Rattle.std.specs.Prelude.{◌≡◌, ◌↔◌, IsTrue};
ghost use Rattle.wasm_operators_immediates.specs.declared.frames.FrameKind.TheVariants.{LegacyTry};
ghost use Rattle.wasm_operators_enums.specs.Op.{Op, ExceptionTree};
ghost use Rattle.wasm_operator_validator_state.specs.Refusals.{kind_of, refused};
ghost use Rattle.wasm_operator_validator_state.specs.State.{Checks};
ghost use Rattle.wasm_operator_validator_state.specs.laws.Clauses.{IsTry};

use crate::exceptions::exception_tag;
use crate::frames::{finish_frame, open_frame};
use crate::{
    BlockType, FrameKind, OperatorValidator, Proposal, Reason, Refusal, WasmModuleResources,
    block_results, check_block_type,
};

/// Checks `try`.
pub fn check_try<R: WasmModuleResources>(
    validator: &mut OperatorValidator,
    resources: &R,
    blockty: BlockType,
) -> Result<(), Refusal>
    ensures { Checks (R.meaning resources.now) validator.old (Op.Exception (ExceptionTree.Try blockty))
        (refused result) validator.new }
{
    match validator.begin(Proposal::LegacyExceptions, false) {
        Ok(()) => {}
        Err(refusal) => return Err(unallowed_try(refusal)),
    }
    let block_type = match check_block_type(resources, validator.features(), blockty) {
        Ok(block_type) => block_type,
        Err(refusal) => return Err(refusal),
    };
    open_frame(validator, resources, FrameKind::LegacyTry, &block_type)
}

/// Why `try` may not begin, for a reason for which no legacy operator may.
#[cold]
fn unallowed_try(refusal: Refusal) -> Refusal
    ensures { kind_of result ≡ kind_of refusal }
{
    match refusal {
        Refusal::NotEnabled { feature } => Refusal::TryNotEnabled { feature },
        _ => refusal,
    }
}

/// Checks `catch`.
pub fn check_catch<R: WasmModuleResources>(
    validator: &mut OperatorValidator,
    resources: &R,
    tag_index: u32,
) -> Result<(), Refusal>
    ensures { Checks (R.meaning resources.now) validator.old (Op.Exception (ExceptionTree.Catch tag_index))
        (refused result) validator.new }
{
    match validator.begin(Proposal::LegacyExceptions, false) {
        Ok(()) => {}
        Err(refusal) => return Err(refusal),
    }
    let Some((block_type, kind)) = validator.jump(0) else {
        return Err(Refusal::AfterEnd);
    };
    if !is_try(kind) {
        return Err(Refusal::Because(Reason::CatchOutsideTry));
    }
    let tag = match exception_tag(resources, tag_index) {
        Ok(tag) => tag,
        Err(refusal) => return Err(refusal),
    };
    match finish_frame(validator, resources, &block_type) {
        Ok(()) => {}
        Err(refusal) => return Err(refusal),
    }
    match validator.enter(FrameKind::LegacyCatch, block_type) {
        Ok(()) => {}
        Err(refusal) => return Err(refusal),
    }
    validator.push_operands(resources, tag.params())
}

/// Checks `catch_all`.
pub fn check_catch_all<R: WasmModuleResources>(
    validator: &mut OperatorValidator,
    resources: &R,
) -> Result<(), Refusal>
    ensures { Checks (R.meaning resources.now) validator.old (Op.Exception ExceptionTree.CatchAll)
        (refused result) validator.new }
{
    match validator.begin(Proposal::LegacyExceptions, false) {
        Ok(()) => {}
        Err(refusal) => return Err(refusal),
    }
    let Some((block_type, kind)) = validator.jump(0) else {
        return Err(Refusal::AfterEnd);
    };
    if !is_try(kind) {
        return Err(Refusal::Because(Reason::CatchAllOutsideTry));
    }
    match finish_frame(validator, resources, &block_type) {
        Ok(()) => {}
        Err(refusal) => return Err(refusal),
    }
    match validator.enter(FrameKind::LegacyCatchAll, block_type) {
        Ok(()) => {}
        Err(refusal) => return Err(refusal),
    }
    validator.push_operands(resources, &[])
}

/// Checks `delegate`.
pub fn check_delegate<R: WasmModuleResources>(
    validator: &mut OperatorValidator,
    resources: &R,
    relative_depth: u32,
) -> Result<(), Refusal>
    ensures { Checks (R.meaning resources.now) validator.old (Op.Exception (ExceptionTree.Delegate relative_depth))
        (refused result) validator.new }
{
    match validator.begin(Proposal::LegacyExceptions, false) {
        Ok(()) => {}
        Err(refusal) => return Err(refusal),
    }
    let Some((block_type, kind)) = validator.jump(0) else {
        return Err(Refusal::AfterEnd);
    };
    if !is_bare_try(kind) {
        return Err(Refusal::Because(Reason::DelegateOutsideTry));
    }
    match finish_frame(validator, resources, &block_type) {
        Ok(()) => {}
        Err(refusal) => return Err(refusal),
    }
    let Some((_, _)) = validator.jump(relative_depth) else {
        return Err(Refusal::UnknownLabel);
    };
    validator.push_operands(resources, block_results(resources, &block_type))
}

/// Whether a clause may turn a frame: a `try`, or the clause of a tag.
fn is_try(kind: FrameKind) -> bool
    ensures { IsTrue result ↔ IsTry kind }
{
    match kind {
        FrameKind::LegacyTry => true,
        FrameKind::LegacyCatch => true,
        FrameKind::Block => false,
        FrameKind::If => false,
        FrameKind::Else => false,
        FrameKind::Loop => false,
        FrameKind::TryTable => false,
        FrameKind::LegacyCatchAll => false,
    }
}

/// Whether `delegate` may end a frame: a `try` without clauses.
fn is_bare_try(kind: FrameKind) -> bool
    ensures { IsTrue result ↔ (kind ≡ LegacyTry) }
{
    match kind {
        FrameKind::LegacyTry => true,
        FrameKind::Block => false,
        FrameKind::If => false,
        FrameKind::Else => false,
        FrameKind::Loop => false,
        FrameKind::TryTable => false,
        FrameKind::LegacyCatch => false,
        FrameKind::LegacyCatchAll => false,
    }
}
