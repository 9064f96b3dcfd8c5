//! Operands of known types exchanged, some of them above others.

ghost use Rattle.std.specs.Prelude.{◌≡◌, ◌++◌, ◌∷◌, []};
ghost use Rattle.wasm_operator_validator_rules.specs.Operands.{stack};
ghost use Rattle.wasm_operator_validator_resources.specs.Meaning.{type_in};
ghost use Rattle.wasm_operator_validator_state.specs.Refusals.{Does, refused};
ghost use Rattle.wasm_operator_validator_state.specs.State.{types_in};
ghost use Rattle.wasm_operator_validator_state.specs.Steps.{Exchanged, IsOpen, MayPop};
ghost use Rattle.wasm_operator_validator_objects.specs.Found.{unpacked_fields};

use wasm_operator_validator_objects::pop_fields;
use wasm_operator_validator_stacks::determined::{OperatorValidator, Refusal, WasmModuleResources};
use wasm_types::{FieldType, ValType};

/// Takes operands of the first types, and above them of the second, and gives operands of the third.
pub(crate) fn exchange_above<R: WasmModuleResources>(
    validator: &mut OperatorValidator,
    resources: &R,
    under: &[ValType],
    above: &[ValType],
    gives: &[ValType],
) -> Result<(), Refusal>
    requires { IsOpen validator.old.opens }
    ensures does { Does (refused result) (Exchanged (R.meaning resources.now) validator.old
        (types_in (R.meaning resources.now) under.now ++ types_in (R.meaning resources.now) above.now)
        (types_in (R.meaning resources.now) gives.now) validator.new)
        (MayPop (R.meaning resources.now) validator.old (stack
        (types_in (R.meaning resources.now) under.now ++ types_in (R.meaning resources.now) above.now))) }
    ensures given { validator.new.given ≡ validator.old.given }
    ensures failed { validator.new.failed ≡ validator.old.failed }
    ensures saved { validator.new.saved ≡ validator.old.saved }
{
    match validator.pop_operands(resources, above) {
        Ok(()) => (),
        Err(refusal) => return Err(refusal),
    }
    validator.exchange(resources, under, gives)
}

/// Takes an operand for each field, and above them one of this type, and gives one of the other.
pub(crate) fn exchange_fields<R: WasmModuleResources>(
    validator: &mut OperatorValidator,
    resources: &R,
    fields: &[FieldType],
    above: &ValType,
    made: &ValType,
) -> Result<(), Refusal>
    requires { IsOpen validator.old.opens }
    ensures does { Does (refused result) (Exchanged (R.meaning resources.now) validator.old
        (types_in (R.meaning resources.now) (unpacked_fields fields.now) ++ type_in (R.meaning resources.now) above.now ∷ [])
        (types_in (R.meaning resources.now) (made.now ∷ [])) validator.new)
        (MayPop (R.meaning resources.now) validator.old (stack
        (types_in (R.meaning resources.now) (unpacked_fields fields.now)
        ++ type_in (R.meaning resources.now) above.now ∷ []))) }
    ensures given { validator.new.given ≡ validator.old.given }
    ensures failed { validator.new.failed ≡ validator.old.failed }
    ensures saved { validator.new.saved ≡ validator.old.saved }
{
    match validator.pop_operand(resources, above) {
        Ok(()) => (),
        Err(refusal) => return Err(refusal),
    }
    match pop_fields(validator, resources, fields) {
        Ok(()) => (),
        Err(refusal) => return Err(refusal),
    }
    validator.push_operands(resources, &[*made])
}

/// Takes operands of the first types, and above them of the second, and gives those of the first again, and above them one of this type.
pub(crate) fn exchange_last<R: WasmModuleResources>(
    validator: &mut OperatorValidator,
    resources: &R,
    others: &[ValType],
    above: &[ValType],
    left: &ValType,
) -> Result<(), Refusal>
    requires { IsOpen validator.old.opens }
    ensures does { Does (refused result) (Exchanged (R.meaning resources.now) validator.old
        (types_in (R.meaning resources.now) others.now ++ types_in (R.meaning resources.now) above.now)
        (types_in (R.meaning resources.now) others.now ++ type_in (R.meaning resources.now) left.now ∷ []) validator.new)
        (MayPop (R.meaning resources.now) validator.old (stack
        (types_in (R.meaning resources.now) others.now ++ types_in (R.meaning resources.now) above.now))) }
    ensures given { validator.new.given ≡ validator.old.given }
    ensures failed { validator.new.failed ≡ validator.old.failed }
    ensures saved { validator.new.saved ≡ validator.old.saved }
{
    match exchange_above(validator, resources, others, above, others) {
        Ok(()) => (),
        Err(refusal) => return Err(refusal),
    }
    validator.push_operands(resources, &[*left])
}
