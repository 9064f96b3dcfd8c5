//! Operands of many fields and elements taken off, with no list of their types made.

ghost use Rattle.std.specs.Prelude.{◌≡◌, ◌↔◌, IsTrue, replicate};
ghost use Rattle.wasm_operator_validator_rules.specs.Operands.{stack};
ghost use Rattle.wasm_operator_validator_resources.specs.Meaning.{type_in};
ghost use Rattle.wasm_operator_validator_state.specs.Refusals.{Does, refused};
ghost use Rattle.wasm_operator_validator_state.specs.State.{types_in};
ghost use Rattle.wasm_operator_validator_state.specs.Steps.{IsOpen, MayPop, Popped};
ghost use Rattle.wasm_operator_validator_objects.specs.Found.{unpacked_fields, LiesOnAnything};

use wasm_operator_validator_stacks::determined::{OperatorValidator, Refusal, WasmModuleResources};
use wasm_types::{FieldType, ValType};

/// Takes an operand off for each field, the last first.
pub fn pop_fields<R: WasmModuleResources>(
    validator: &mut OperatorValidator,
    resources: &R,
    fields: &[FieldType],
) -> Result<(), Refusal>
    requires { IsOpen validator.old.opens }
    ensures does { Does (refused result) (Popped (R.meaning resources.now) validator.old
        (stack (types_in (R.meaning resources.now) (unpacked_fields fields.now))) validator.new)
        (MayPop (R.meaning resources.now) validator.old (stack
        (types_in (R.meaning resources.now) (unpacked_fields fields.now)))) }
    ensures given { validator.new.given ≡ validator.old.given }
    ensures failed { validator.new.failed ≡ validator.old.failed }
    ensures saved { validator.new.saved ≡ validator.old.saved }
{
    let mut left = fields;
    while let Some((last, rest)) = left.split_last() {
        left = rest;
        match validator.pop_operand(resources, &last.element_type.unpack()) {
            Ok(()) => (),
            Err(refusal) => return Err(refusal),
        }
    }
    Ok(())
}

/// Takes this many operands of one type off. In unreachable code without operands of its own all of them are there: so the number in the
/// bytes may be as large as it likes.
pub(crate) fn pop_same<R: WasmModuleResources>(
    validator: &mut OperatorValidator,
    resources: &R,
    ty: &ValType,
    count: u32,
) -> Result<(), Refusal>
    requires { IsOpen validator.old.opens }
    ensures does { Does (refused result) (Popped (R.meaning resources.now) validator.old
        (stack (replicate count (type_in (R.meaning resources.now) ty.now))) validator.new)
        (MayPop (R.meaning resources.now) validator.old (stack
        (replicate count (type_in (R.meaning resources.now) ty.now)))) }
    ensures given { validator.new.given ≡ validator.old.given }
    ensures failed { validator.new.failed ≡ validator.old.failed }
    ensures saved { validator.new.saved ≡ validator.old.saved }
{
    let mut left = count;
    while left > 0 {
        if lies_on_anything(validator) {
            return Ok(());
        }
        left -= 1;
        match validator.pop_operand(resources, ty) {
            Ok(()) => (),
            Err(refusal) => return Err(refusal),
        }
    }
    Ok(())
}

// Whether the innermost frame is unreachable, and has no operands of its own.
fn lies_on_anything(validator: &OperatorValidator) -> bool
    ensures { IsTrue result ↔ LiesOnAnything validator.now.opens }
{
    let frame = match validator.get_frame(0) {
        Some(frame) => frame,
        None => return false,
    };
    if !frame.unreachable {
        return false;
    }
    validator.operand_stack_height() == frame.height
}
