//! Operators that open, turn or end a frame.

ghost use Rattle.std.specs.Prelude.{◌≡◌, ◌↔◌, IsTrue};
ghost use Rattle.wasm_types.specs.decoding.declared.error.ErrorKind.TheVariants.{Other};
ghost use Rattle.wasm_operators_immediates.specs.declared.frames.FrameKind.TheVariants.{If};
ghost use Rattle.wasm_operator_validator_rules.specs.Operands.{stack};
ghost use Rattle.wasm_operator_validator_rules.specs.Typed.{MayClose};
ghost use Rattle.wasm_operators_enums.specs.declared.control.ControlOperator.{ControlOperator};
ghost use Rattle.wasm_operators_enums.specs.Op.{Op};
ghost use Rattle.wasm_operator_validator_state.specs.Refusals.{Does, kind_of, refused};
ghost use Rattle.wasm_operator_validator_state.specs.State.{Checks, signature_of};
ghost use Rattle.wasm_operator_validator_state.specs.Steps.{IsOpen, MayPop};
ghost use Rattle.wasm_operator_validator_control.specs.Opening.{Opened};
ghost use Rattle.wasm_operator_validator_control.specs.Ending.{Finishes, MayFinish};

use wasm_operator_validator_stacks::determined::{
    BlockType, FrameKind, MaybeType, OperatorValidator, Proposal, Reason, Refusal,
    WasmModuleResources,
};
use wasm_operator_validator_state::blocks::{
    are_below, block_params, block_results, check_block_type,
};
use wasm_types::ValType;

/// Checks `block`.
pub fn check_block<R: WasmModuleResources>(
    validator: &mut OperatorValidator,
    resources: &R,
    blockty: BlockType,
) -> Result<(), Refusal>
    ensures { Checks (R.meaning resources.now) validator.old (Op.Control (ControlOperator.Block blockty))
        (refused result) validator.new }
{
    match validator.begin(Proposal::Mvp, false) {
        Ok(()) => {}
        Err(refusal) => return Err(refusal),
    }
    let block_type = match check_block_type(resources, validator.features(), blockty) {
        Ok(block_type) => block_type,
        Err(refusal) => return Err(refusal),
    };
    open_frame(validator, resources, FrameKind::Block, &block_type)
}

/// Checks `loop`.
pub fn check_loop<R: WasmModuleResources>(
    validator: &mut OperatorValidator,
    resources: &R,
    blockty: BlockType,
) -> Result<(), Refusal>
    ensures { Checks (R.meaning resources.now) validator.old (Op.Control (ControlOperator.Loop blockty))
        (refused result) validator.new }
{
    match validator.begin(Proposal::Mvp, false) {
        Ok(()) => {}
        Err(refusal) => return Err(refusal),
    }
    let block_type = match check_block_type(resources, validator.features(), blockty) {
        Ok(block_type) => block_type,
        Err(refusal) => return Err(refusal),
    };
    open_frame(validator, resources, FrameKind::Loop, &block_type)
}

/// Checks `if`.
pub fn check_if<R: WasmModuleResources>(
    validator: &mut OperatorValidator,
    resources: &R,
    blockty: BlockType,
) -> Result<(), Refusal>
    ensures { Checks (R.meaning resources.now) validator.old (Op.Control (ControlOperator.If blockty))
        (refused result) validator.new }
{
    match validator.begin(Proposal::Mvp, false) {
        Ok(()) => {}
        Err(refusal) => return Err(refusal),
    }
    let block_type = match check_block_type(resources, validator.features(), blockty) {
        Ok(block_type) => block_type,
        Err(refusal) => return Err(refusal),
    };
    match validator.pop_operand(resources, &ValType::I32) {
        Ok(()) => {}
        Err(refusal) => return Err(refusal),
    }
    open_frame(validator, resources, FrameKind::If, &block_type)
}

/// Takes the parameters of a block off, and opens its frame with them on it.
#[inline(always)]
pub(crate) fn open_frame<R: WasmModuleResources>(
    validator: &mut OperatorValidator,
    resources: &R,
    kind: FrameKind,
    block_type: &BlockType,
) -> Result<(), Refusal>
    requires { IsOpen validator.old.opens }
    ensures does { Does (refused result) (Opened (R.meaning resources.now) validator.old kind
        block_type.now validator.new)
        (MayPop (R.meaning resources.now) validator.old (stack
        (signature_of (R.meaning resources.now) block_type.now).params)) }
    ensures given { validator.new.given ≡ validator.old.given }
    ensures failed { validator.new.failed ≡ validator.old.failed }
    ensures saved { validator.new.saved ≡ validator.old.saved }
{
    let params = block_params(resources, block_type);
    match validator.pop_operands(resources, params) {
        Ok(()) => {}
        Err(refusal) => return Err(refusal),
    }
    match validator.enter(kind, *block_type) {
        Ok(()) => {}
        Err(refusal) => return Err(refusal),
    }
    validator.push_operands(resources, params)
}

/// Checks `else`.
pub fn check_else<R: WasmModuleResources>(
    validator: &mut OperatorValidator,
    resources: &R,
) -> Result<(), Refusal>
    ensures { Checks (R.meaning resources.now) validator.old (Op.Control ControlOperator.Else)
        (refused result) validator.new }
{
    match validator.begin(Proposal::Mvp, false) {
        Ok(()) => {}
        Err(refusal) => return Err(refusal),
    }
    let Some((block_type, kind)) = validator.jump(0) else {
        return Err(Refusal::AfterEnd);
    };
    if !is_if(kind) {
        return Err(Refusal::Because(Reason::ElseOutsideIf));
    }
    match finish_frame(validator, resources, &block_type) {
        Ok(()) => {}
        Err(refusal) => return Err(refusal),
    }
    match validator.enter(FrameKind::Else, block_type) {
        Ok(()) => {}
        Err(refusal) => return Err(refusal),
    }
    validator.push_operands(resources, block_params(resources, &block_type))
}

/// Checks `end`.
pub fn check_end<R: WasmModuleResources>(
    validator: &mut OperatorValidator,
    resources: &R,
) -> Result<(), Refusal>
    ensures { Checks (R.meaning resources.now) validator.old (Op.Control ControlOperator.End)
        (refused result) validator.new }
{
    match validator.begin(Proposal::Mvp, false) {
        Ok(()) => {}
        Err(refusal) => return Err(refusal),
    }
    let Some((block_type, kind)) = validator.jump(0) else {
        return Err(Refusal::AfterEnd);
    };
    match finish_frame(validator, resources, &block_type) {
        Ok(()) => {}
        Err(refusal) => return Err(refusal),
    }
    if !may_close(resources, &block_type, kind) {
        return Err(no_else(
            resources,
            block_params(resources, &block_type),
            block_results(resources, &block_type),
        ));
    }
    if validator.is_done() {
        return Ok(());
    }
    validator.push_operands(resources, block_results(resources, &block_type))
}

/// Takes the results of the innermost frame off, which must be all that it has, and leaves it.
#[inline(always)]
pub(crate) fn finish_frame<R: WasmModuleResources>(
    validator: &mut OperatorValidator,
    resources: &R,
    block_type: &BlockType,
) -> Result<(), Refusal>
    requires { IsOpen validator.old.opens }
    ensures does { Does (refused result) (Finishes (R.meaning resources.now) validator.old block_type.now validator.new)
        (MayFinish (R.meaning resources.now) validator.old block_type.now) }
    ensures given { validator.new.given ≡ validator.old.given }
    ensures failed { validator.new.failed ≡ validator.old.failed }
    ensures saved { validator.new.saved ≡ validator.old.saved }
{
    match validator.pop_operands(resources, block_results(resources, block_type)) {
        Ok(()) => {}
        Err(refusal) => return Err(refusal),
    }
    match validator.leave() {
        Ok(_) => Ok(()),
        Err(refusal) => Err(refusal),
    }
}

/// Why an `if` that takes these may not give those without an `else`: the last that does not fit, or is missing, or what is left over.
#[cold]
fn no_else<R: WasmModuleResources>(resources: &R, takes: &[ValType], gives: &[ValType]) -> Refusal
    ensures { kind_of result ≡ Other }
{
    for i in 0..gives.len() {
        let last = gives.len() - 1 - i;
        if takes.len() <= i {
            return Refusal::EmptyStack {
                expected: gives[last],
            };
        }
        let found = takes.len() - 1 - i;
        if !resources.is_subtype(takes[found], gives[last]) {
            return Refusal::TypeMismatch {
                expected: gives[last],
                found: MaybeType::Known(takes[found]),
            };
        }
    }
    if takes.len() <= gives.len() {
        return Refusal::Because(Reason::NoElse);
    }
    Refusal::ValuesRemain
}

/// Whether a frame may end without an `else`: an `if` must give what it takes.
fn may_close<R: WasmModuleResources>(resources: &R, block_type: &BlockType, kind: FrameKind) -> bool
    ensures { IsTrue result ↔ MayClose kind (signature_of (R.meaning resources.now) block_type.now) }
{
    match kind {
        FrameKind::If => are_below(
            resources,
            block_params(resources, block_type),
            block_results(resources, block_type),
        ),
        FrameKind::Block => true,
        FrameKind::Else => true,
        FrameKind::Loop => true,
        FrameKind::TryTable => true,
        FrameKind::LegacyTry => true,
        FrameKind::LegacyCatch => true,
        FrameKind::LegacyCatchAll => true,
    }
}

fn is_if(kind: FrameKind) -> bool
    ensures { IsTrue result ↔ (kind ≡ If) }
{
    match kind {
        FrameKind::If => true,
        FrameKind::Block => false,
        FrameKind::Else => false,
        FrameKind::Loop => false,
        FrameKind::TryTable => false,
        FrameKind::LegacyTry => false,
        FrameKind::LegacyCatch => false,
        FrameKind::LegacyCatchAll => false,
    }
}
