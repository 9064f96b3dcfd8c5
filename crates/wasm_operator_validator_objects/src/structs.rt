//! Structs.

ghost use Rattle.wasm_operators_immediates.specs.declared.proposal.Proposal.TheVariants.{Gc};
ghost use Rattle.wasm_operators_enums.specs.Op.{Op};
ghost use Rattle.wasm_operator_validator_state.specs.Refusals.{refused};
ghost use Rattle.wasm_operator_validator_state.specs.State.{Checks};
ghost use Rattle.std.specs.Prelude.{◌∷◌, [], false};
ghost use Rattle.wasm_operator_validator_state.specs.Entering.{MayBegin};
ghost use Rattle.wasm_operator_validator_state.specs.State.{types_in};
ghost use Rattle.wasm_operator_validator_objects.specs.Found.{unpacked_fields};
ghost use Rattle.wasm_operator_validator_objects.specs.Rows.{IsRow, ReadsField};

use crate::naming::{allocated, field_at, struct_at};
use crate::popping::pop_fields;
use crate::steps::{begin, exchange};
use crate::storage::{are_defaultable, is_read_so, unread};
use wasm_operator_validator_stacks::determined::{
    OperatorValidator, Reason, Refusal, WasmModuleResources,
};
use wasm_operators_visit::GcOperator;
use wasm_types::{FieldType, ValType};

/// `struct.new`, of a struct without a descriptor.
pub fn check_struct_new<R: WasmModuleResources>(
    validator: &mut OperatorValidator,
    resources: &R,
    type_index: u32,
) -> Result<(), Refusal>
    ensures { Checks (R.meaning resources.now) validator.old (Op.Gc (GcOperator.StructNew type_index))
        (refused result) validator.new }
{
    let op = GcOperator::StructNew {
        struct_type_index: type_index,
    };
    match begin(validator, resources, &op) {
        Ok(()) => (),
        Err(refusal) => return Err(refusal),
    }
    let (fields, described) = match struct_at(validator, resources, type_index) {
        Ok(found) => found,
        Err(refusal) => return Err(refusal),
    };
    if described {
        return Err(Refusal::Because(Reason::NeedsDescriptor));
    }
    let made = allocated(validator, resources, type_index);
    make(validator, resources, &op, fields, &made)
}

// Operands for these fields are exchanged for the struct.
fn make<R: WasmModuleResources>(
    validator: &mut OperatorValidator,
    resources: &R,
    op: &GcOperator,
    fields: &[FieldType],
    made: &ValType,
) -> Result<(), Refusal>
    requires begun { MayBegin validator.old Gc false }
    requires row { IsRow (R.meaning resources.now) validator.old op.now
        (types_in (R.meaning resources.now) (unpacked_fields fields.now))
        (types_in (R.meaning resources.now) (made.now ∷ [])) }
    ensures { Checks (R.meaning resources.now) validator.old (Op.Gc op.now) (refused result) validator.new }
{
    let _op = op;
    match pop_fields(validator, resources, fields) {
        Ok(()) => (),
        Err(refusal) => return Err(refusal),
    }
    validator.push_operands(resources, &[*made])
}

/// `struct.new_default`, of fields that all have default values.
pub fn check_struct_new_default<R: WasmModuleResources>(
    validator: &mut OperatorValidator,
    resources: &R,
    type_index: u32,
) -> Result<(), Refusal>
    ensures { Checks (R.meaning resources.now) validator.old (Op.Gc (GcOperator.StructNewDefault type_index))
        (refused result) validator.new }
{
    let op = GcOperator::StructNewDefault {
        struct_type_index: type_index,
    };
    match begin(validator, resources, &op) {
        Ok(()) => (),
        Err(refusal) => return Err(refusal),
    }
    let (fields, described) = match struct_at(validator, resources, type_index) {
        Ok(found) => found,
        Err(refusal) => return Err(refusal),
    };
    if described {
        return Err(Refusal::Because(Reason::NeedsDescriptor));
    }
    if !are_defaultable(fields) {
        return Err(Refusal::Because(Reason::NotDefaultable));
    }
    let made = allocated(validator, resources, type_index);
    exchange(validator, resources, &op, &[], &[made])
}

/// `struct.get`, and its two forms that extend a packed field.
pub fn check_struct_get<R: WasmModuleResources>(
    validator: &mut OperatorValidator,
    resources: &R,
    op: GcOperator,
    type_index: u32,
    field_index: u32,
    packed: bool,
) -> Result<(), Refusal>
    requires { ReadsField op type_index field_index packed }
    ensures { Checks (R.meaning resources.now) validator.old (Op.Gc op) (refused result) validator.new }
{
    match begin(validator, resources, &op) {
        Ok(()) => (),
        Err(refusal) => return Err(refusal),
    }
    let (reference, field) = match field_at(validator, resources, type_index, field_index) {
        Ok(found) => found,
        Err(refusal) => return Err(refusal),
    };
    if !is_read_so(&field.element_type, packed) {
        return Err(Refusal::Because(unread(&op)));
    }
    let read = field.element_type.unpack();
    exchange(validator, resources, &op, &[reference], &[read])
}

/// `struct.set`, of a mutable field.
pub fn check_struct_set<R: WasmModuleResources>(
    validator: &mut OperatorValidator,
    resources: &R,
    type_index: u32,
    field_index: u32,
) -> Result<(), Refusal>
    ensures { Checks (R.meaning resources.now) validator.old (Op.Gc (GcOperator.StructSet type_index field_index))
        (refused result) validator.new }
{
    let op = GcOperator::StructSet {
        struct_type_index: type_index,
        field_index,
    };
    match begin(validator, resources, &op) {
        Ok(()) => (),
        Err(refusal) => return Err(refusal),
    }
    let (reference, field) = match field_at(validator, resources, type_index, field_index) {
        Ok(found) => found,
        Err(refusal) => return Err(refusal),
    };
    if !field.mutable {
        return Err(Refusal::Because(Reason::ImmutableField));
    }
    let written = field.element_type.unpack();
    exchange(validator, resources, &op, &[reference, written], &[])
}
