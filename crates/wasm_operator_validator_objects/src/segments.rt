//! Arrays of what segments hold, and copies into arrays.

ghost use Rattle.std.specs.Prelude.{◌≡◌, ◌↔◌, IsTrue, MatchResult, None, Some, slice_get, true, false};
ghost use Rattle.wasm_operators_enums.specs.Op.{Op};
ghost use Rattle.wasm_operator_validator_resources.specs.Meaning.{reference_in};
ghost use Rattle.wasm_operator_validator_rules.specs.InstructionTypes.{names_data};
ghost use Rattle.wasm_operator_validator_state.specs.Refusals.{refused};
ghost use Rattle.wasm_operator_validator_state.specs.State.{Checks};
ghost use Rattle.wasm_operator_validator_objects.specs.Found.{MayStore};

use crate::naming::{allocated, array_at, reference_at};
use crate::steps::{begin, exchange};
use crate::storage::{is_of_references, storage_fits};
use wasm_operator_validator_stacks::determined::{
    OperatorValidator, Reason, Refusal, Space, WasmModuleResources,
};
use wasm_operators_visit::GcOperator;
use wasm_types::{RefType, StorageType, ValType};

/// `array.new_data`, of numbers, vectors or packed elements.
pub fn check_array_new_data<R: WasmModuleResources>(
    validator: &mut OperatorValidator,
    resources: &R,
    type_index: u32,
    data_index: u32,
) -> Result<(), Refusal>
    ensures { Checks (R.meaning resources.now) validator.old (Op.Gc (GcOperator.ArrayNewData type_index data_index))
        (refused result) validator.new }
{
    let op = GcOperator::ArrayNewData {
        array_type_index: type_index,
        array_data_index: data_index,
    };
    match begin(validator, resources, &op) {
        Ok(()) => (),
        Err(refusal) => return Err(refusal),
    }
    let field = match array_at(validator, resources, type_index) {
        Ok(found) => found,
        Err(refusal) => return Err(refusal),
    };
    if is_of_references(&field.element_type) {
        return Err(Refusal::Because(Reason::ElementsOfReferences));
    }
    match find_data(resources, data_index) {
        Ok(()) => (),
        Err(refusal) => return Err(refusal),
    }
    let made = allocated(validator, resources, type_index);
    exchange(
        validator,
        resources,
        &op,
        &[ValType::I32, ValType::I32],
        &[made],
    )
}

/// `array.new_elem`, from an element segment that fits.
pub fn check_array_new_elem<R: WasmModuleResources>(
    validator: &mut OperatorValidator,
    resources: &R,
    type_index: u32,
    elem_index: u32,
) -> Result<(), Refusal>
    ensures { Checks (R.meaning resources.now) validator.old (Op.Gc (GcOperator.ArrayNewElem type_index elem_index))
        (refused result) validator.new }
{
    let op = GcOperator::ArrayNewElem {
        array_type_index: type_index,
        array_elem_index: elem_index,
    };
    match begin(validator, resources, &op) {
        Ok(()) => (),
        Err(refusal) => return Err(refusal),
    }
    let field = match array_at(validator, resources, type_index) {
        Ok(found) => found,
        Err(refusal) => return Err(refusal),
    };
    let segment = match find_elements(resources, elem_index) {
        Ok(found) => found,
        Err(refusal) => return Err(refusal),
    };
    if !may_hold(resources, &segment, &field.element_type) {
        return Err(Refusal::Because(Reason::ElementTypes));
    }
    let made = allocated(validator, resources, type_index);
    exchange(
        validator,
        resources,
        &op,
        &[ValType::I32, ValType::I32],
        &[made],
    )
}

/// `array.init_data`, of mutable numbers, vectors or packed elements.
pub fn check_array_init_data<R: WasmModuleResources>(
    validator: &mut OperatorValidator,
    resources: &R,
    type_index: u32,
    data_index: u32,
) -> Result<(), Refusal>
    ensures { Checks (R.meaning resources.now) validator.old (Op.Gc (GcOperator.ArrayInitData type_index data_index))
        (refused result) validator.new }
{
    let op = GcOperator::ArrayInitData {
        array_type_index: type_index,
        array_data_index: data_index,
    };
    match begin(validator, resources, &op) {
        Ok(()) => (),
        Err(refusal) => return Err(refusal),
    }
    let field = match array_at(validator, resources, type_index) {
        Ok(found) => found,
        Err(refusal) => return Err(refusal),
    };
    if !field.mutable {
        return Err(Refusal::Because(Reason::ImmutableArray));
    }
    if is_of_references(&field.element_type) {
        return Err(Refusal::Because(Reason::ElementsOfReferencesFilled));
    }
    match find_data(resources, data_index) {
        Ok(()) => (),
        Err(refusal) => return Err(refusal),
    }
    let reference = reference_at(resources, type_index, true, false);
    exchange(
        validator,
        resources,
        &op,
        &[reference, ValType::I32, ValType::I32, ValType::I32],
        &[],
    )
}

/// `array.init_elem`, from an element segment that fits.
pub fn check_array_init_elem<R: WasmModuleResources>(
    validator: &mut OperatorValidator,
    resources: &R,
    type_index: u32,
    elem_index: u32,
) -> Result<(), Refusal>
    ensures { Checks (R.meaning resources.now) validator.old (Op.Gc (GcOperator.ArrayInitElem type_index elem_index))
        (refused result) validator.new }
{
    let op = GcOperator::ArrayInitElem {
        array_type_index: type_index,
        array_elem_index: elem_index,
    };
    match begin(validator, resources, &op) {
        Ok(()) => (),
        Err(refusal) => return Err(refusal),
    }
    let field = match array_at(validator, resources, type_index) {
        Ok(found) => found,
        Err(refusal) => return Err(refusal),
    };
    if !field.mutable {
        return Err(Refusal::Because(Reason::ImmutableArray));
    }
    let segment = match find_elements(resources, elem_index) {
        Ok(found) => found,
        Err(refusal) => return Err(refusal),
    };
    if !may_hold(resources, &segment, &field.element_type) {
        return Err(Refusal::Because(Reason::ElementTypes));
    }
    let reference = reference_at(resources, type_index, true, false);
    exchange(
        validator,
        resources,
        &op,
        &[reference, ValType::I32, ValType::I32, ValType::I32],
        &[],
    )
}

/// `array.copy`, of elements that fit.
pub fn check_array_copy<R: WasmModuleResources>(
    validator: &mut OperatorValidator,
    resources: &R,
    dst_type_index: u32,
    src_type_index: u32,
) -> Result<(), Refusal>
    ensures { Checks (R.meaning resources.now) validator.old (Op.Gc
        (GcOperator.ArrayCopy dst_type_index src_type_index)) (refused result) validator.new }
{
    let op = GcOperator::ArrayCopy {
        array_type_index_dst: dst_type_index,
        array_type_index_src: src_type_index,
    };
    match begin(validator, resources, &op) {
        Ok(()) => (),
        Err(refusal) => return Err(refusal),
    }
    let to = match array_at(validator, resources, dst_type_index) {
        Ok(found) => found,
        Err(refusal) => return Err(refusal),
    };
    if !to.mutable {
        return Err(Refusal::Because(Reason::ImmutableArray));
    }
    let from = match array_at(validator, resources, src_type_index) {
        Ok(found) => found,
        Err(refusal) => return Err(refusal),
    };
    if !storage_fits(resources, &from.element_type, &to.element_type) {
        return Err(Refusal::Because(Reason::ElementTypes));
    }
    let into = reference_at(resources, dst_type_index, true, false);
    let out_of = reference_at(resources, src_type_index, true, false);
    exchange(
        validator,
        resources,
        &op,
        &[into, ValType::I32, out_of, ValType::I32, ValType::I32],
        &[],
    )
}

// The type of the element segment at an index.
fn find_elements<R: WasmModuleResources>(resources: &R, at: u32) -> Result<RefType, Refusal>
    ensures { MatchResult result (λ t. slice_get (R.meaning resources.now).«module».elements at ≡ Some
        (reference_in (R.meaning resources.now) t)) (λ r. slice_get
        (R.meaning resources.now).«module».elements at ≡ None) }
{
    match resources.element_type_at(at) {
        Some(ty) => Ok(ty),
        None => Err(Refusal::Unknown {
            space: Space::Element,
            index: at,
        }),
    }
}

// Whether the data count section names a segment.
fn find_data<R: WasmModuleResources>(resources: &R, at: u32) -> Result<(), Refusal>
    ensures { MatchResult result (λ _. names_data (R.meaning resources.now).«module».data_count at ≡ true)
        (λ r. names_data (R.meaning resources.now).«module».data_count at ≡ false) }
{
    let count = match resources.data_count() {
        Some(count) => count,
        None => return Err(Refusal::Because(Reason::NoDataCount)),
    };
    if at < count {
        return Ok(());
    }
    Err(Refusal::Unknown {
        space: Space::Data,
        index: at,
    })
}

// Whether what a segment holds may be stored.
fn may_hold<R: WasmModuleResources>(resources: &R, segment: &RefType, storage: &StorageType) -> bool
    ensures { IsTrue result ↔ MayStore (R.meaning resources.now) segment.now storage.now }
{
    match storage {
        StorageType::I8 => false,
        StorageType::I16 => false,
        StorageType::Val(ty) => resources.is_subtype(ValType::Ref(*segment), *ty),
    }
}
