//! Arrays.

ghost use Rattle.std.specs.Prelude.{◌∷◌, [], false, replicate};
ghost use Rattle.wasm_operators_immediates.specs.declared.proposal.Proposal.TheVariants.{Gc};
ghost use Rattle.wasm_operators_enums.specs.Op.{Op};
ghost use Rattle.wasm_operator_validator_resources.specs.Meaning.{type_in};
ghost use Rattle.wasm_operator_validator_state.specs.Entering.{MayBegin};
ghost use Rattle.wasm_operator_validator_state.specs.Refusals.{refused};
ghost use Rattle.wasm_operator_validator_state.specs.State.{Checks, types_in};
ghost use Rattle.wasm_operator_validator_objects.specs.Rows.{IsRow, ReadsElement};

use crate::naming::{allocated, array_at, element_at, reference_at};
use crate::popping::pop_same;
use crate::steps::{begin, exchange};
use crate::storage::{is_defaultable, is_read_so, unread};
use wasm_operator_validator_stacks::determined::{
    OperatorValidator, Reason, Refusal, WasmModuleResources,
};
use wasm_operators_visit::GcOperator;
use wasm_types::ValType;

/// `array.new`.
pub fn check_array_new<R: WasmModuleResources>(
    validator: &mut OperatorValidator,
    resources: &R,
    type_index: u32,
) -> Result<(), Refusal>
    ensures { Checks (R.meaning resources.now) validator.old (Op.Gc (GcOperator.ArrayNew type_index))
        (refused result) validator.new }
{
    let op = GcOperator::ArrayNew {
        array_type_index: type_index,
    };
    match begin(validator, resources, &op) {
        Ok(()) => (),
        Err(refusal) => return Err(refusal),
    }
    let field = match array_at(validator, resources, type_index) {
        Ok(found) => found,
        Err(refusal) => return Err(refusal),
    };
    let made = allocated(validator, resources, type_index);
    let element = field.element_type.unpack();
    exchange(validator, resources, &op, &[element, ValType::I32], &[made])
}

/// `array.new_default`, of an element that has a default value.
pub fn check_array_new_default<R: WasmModuleResources>(
    validator: &mut OperatorValidator,
    resources: &R,
    type_index: u32,
) -> Result<(), Refusal>
    ensures { Checks (R.meaning resources.now) validator.old (Op.Gc (GcOperator.ArrayNewDefault type_index))
        (refused result) validator.new }
{
    let op = GcOperator::ArrayNewDefault {
        array_type_index: type_index,
    };
    match begin(validator, resources, &op) {
        Ok(()) => (),
        Err(refusal) => return Err(refusal),
    }
    let field = match array_at(validator, resources, type_index) {
        Ok(found) => found,
        Err(refusal) => return Err(refusal),
    };
    if !is_defaultable(&field) {
        return Err(Refusal::Because(Reason::NotDefaultable));
    }
    let made = allocated(validator, resources, type_index);
    exchange(validator, resources, &op, &[ValType::I32], &[made])
}

/// `array.new_fixed`, of this many operands.
pub fn check_array_new_fixed<R: WasmModuleResources>(
    validator: &mut OperatorValidator,
    resources: &R,
    type_index: u32,
    count: u32,
) -> Result<(), Refusal>
    ensures { Checks (R.meaning resources.now) validator.old (Op.Gc (GcOperator.ArrayNewFixed type_index count))
        (refused result) validator.new }
{
    let op = GcOperator::ArrayNewFixed {
        array_type_index: type_index,
        array_size: count,
    };
    match begin(validator, resources, &op) {
        Ok(()) => (),
        Err(refusal) => return Err(refusal),
    }
    let field = match array_at(validator, resources, type_index) {
        Ok(found) => found,
        Err(refusal) => return Err(refusal),
    };
    let made = allocated(validator, resources, type_index);
    let element = field.element_type.unpack();
    make(validator, resources, &op, &element, count, &made)
}

// This many operands of one type are exchanged for the array.
fn make<R: WasmModuleResources>(
    validator: &mut OperatorValidator,
    resources: &R,
    op: &GcOperator,
    element: &ValType,
    count: u32,
    made: &ValType,
) -> Result<(), Refusal>
    requires begun { MayBegin validator.old Gc false }
    requires row { IsRow (R.meaning resources.now) validator.old op.now
        (replicate count (type_in (R.meaning resources.now) element.now))
        (types_in (R.meaning resources.now) (made.now ∷ [])) }
    ensures { Checks (R.meaning resources.now) validator.old (Op.Gc op.now) (refused result) validator.new }
{
    let _op = op;
    match pop_same(validator, resources, element, count) {
        Ok(()) => (),
        Err(refusal) => return Err(refusal),
    }
    validator.push_operands(resources, &[*made])
}

/// `array.get`, and its two forms that extend a packed element.
pub fn check_array_get<R: WasmModuleResources>(
    validator: &mut OperatorValidator,
    resources: &R,
    op: GcOperator,
    type_index: u32,
    packed: bool,
) -> Result<(), Refusal>
    requires { ReadsElement op type_index packed }
    ensures { Checks (R.meaning resources.now) validator.old (Op.Gc op) (refused result) validator.new }
{
    match begin(validator, resources, &op) {
        Ok(()) => (),
        Err(refusal) => return Err(refusal),
    }
    let (reference, field) = match element_at(validator, resources, type_index) {
        Ok(found) => found,
        Err(refusal) => return Err(refusal),
    };
    if !is_read_so(&field.element_type, packed) {
        return Err(Refusal::Because(unread(&op)));
    }
    let read = field.element_type.unpack();
    exchange(
        validator,
        resources,
        &op,
        &[reference, ValType::I32],
        &[read],
    )
}

/// `array.set`, of a mutable element.
pub fn check_array_set<R: WasmModuleResources>(
    validator: &mut OperatorValidator,
    resources: &R,
    type_index: u32,
) -> Result<(), Refusal>
    ensures { Checks (R.meaning resources.now) validator.old (Op.Gc (GcOperator.ArraySet type_index))
        (refused result) validator.new }
{
    let op = GcOperator::ArraySet {
        array_type_index: type_index,
    };
    match begin(validator, resources, &op) {
        Ok(()) => (),
        Err(refusal) => return Err(refusal),
    }
    let (reference, field) = match element_at(validator, resources, type_index) {
        Ok(found) => found,
        Err(refusal) => return Err(refusal),
    };
    if !field.mutable {
        return Err(Refusal::Because(Reason::ImmutableArray));
    }
    let element = field.element_type.unpack();
    exchange(
        validator,
        resources,
        &op,
        &[reference, ValType::I32, element],
        &[],
    )
}

/// `array.fill`, of a mutable element.
pub fn check_array_fill<R: WasmModuleResources>(
    validator: &mut OperatorValidator,
    resources: &R,
    type_index: u32,
) -> Result<(), Refusal>
    ensures { Checks (R.meaning resources.now) validator.old (Op.Gc (GcOperator.ArrayFill type_index))
        (refused result) validator.new }
{
    let op = GcOperator::ArrayFill {
        array_type_index: type_index,
    };
    match begin(validator, resources, &op) {
        Ok(()) => (),
        Err(refusal) => return Err(refusal),
    }
    let field = match array_at(validator, resources, type_index) {
        Ok(found) => found,
        Err(refusal) => return Err(refusal),
    };
    if !field.mutable {
        return Err(Refusal::Because(Reason::ImmutableArray));
    }
    let reference = reference_at(resources, type_index, true, false);
    let element = field.element_type.unpack();
    exchange(
        validator,
        resources,
        &op,
        &[reference, ValType::I32, element, ValType::I32],
        &[],
    )
}
