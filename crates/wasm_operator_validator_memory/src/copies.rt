//! Copies into tables, and element segments.

ghost use Rattle.std.specs.Prelude.{IfErr};
ghost use Rattle.wasm_operators_enums.specs.Op.{Op};
ghost use Rattle.wasm_operator_validator_state.specs.State.{Checks};
ghost use Rattle.wasm_operator_validator_state.specs.Refusals.{refused};
ghost use Rattle.wasm_operator_validator_stacks.specs.determined.Operators.{IsOfContent};

use crate::finding::{find_elements, length_type, usable_table};
use wasm_operator_validator_stacks::determined::{
    BulkOperator, OperatorValidator, Proposal, Reason, Refusal, WasmModuleResources,
};
use wasm_types::ValType;

/// `table.copy`, of elements that fit, and of a length that fits both tables (WebAssembly 3.0, validation, table instructions).
pub fn check_table_copy<R: WasmModuleResources>(
    validator: &mut OperatorValidator,
    resources: &R,
    dst_table: u32,
    src_table: u32,
) -> Result<(), Refusal>
    ensures { Checks (R.meaning resources.now) validator.old (Op.Bulk (BulkOperator.TableCopy dst_table src_table))
        (refused result) validator.new }
{
    match validator.begin(Proposal::BulkMemory, false) {
        Ok(()) => (),
        Err(refusal) => return Err(refusal),
    }
    let from = match usable_table(validator, resources, src_table) {
        Ok(from) => from,
        Err(refusal) => return Err(refusal),
    };
    let to = match usable_table(validator, resources, dst_table) {
        Ok(to) => to,
        Err(refusal) => return Err(refusal),
    };
    let fits = resources.is_subtype(
        ValType::Ref(from.element_type),
        ValType::Ref(to.element_type),
    );
    if !fits {
        return Err(Refusal::Because(Reason::ElementTypes));
    }
    validator.pop_operands(
        resources,
        &[
            to.index_type(),
            from.index_type(),
            length_type(to.table64, from.table64),
        ],
    )
}

/// `table.init`, from an element segment that fits (WebAssembly 3.0, validation, table instructions).
pub fn check_table_init<R: WasmModuleResources>(
    validator: &mut OperatorValidator,
    resources: &R,
    elem_index: u32,
    table: u32,
) -> Result<(), Refusal>
    ensures { Checks (R.meaning resources.now) validator.old (Op.Bulk (BulkOperator.TableInit elem_index table))
        (refused result) validator.new }
{
    match validator.begin(Proposal::BulkMemory, false) {
        Ok(()) => (),
        Err(refusal) => return Err(refusal),
    }
    let to = match usable_table(validator, resources, table) {
        Ok(to) => to,
        Err(refusal) => return Err(refusal),
    };
    let segment = match find_elements(resources, elem_index) {
        Ok(segment) => segment,
        Err(refusal) => return Err(refusal),
    };
    let fits = resources.is_subtype(ValType::Ref(segment), ValType::Ref(to.element_type));
    if !fits {
        return Err(Refusal::Because(Reason::ElementTypes));
    }
    validator.pop_operands(resources, &[to.index_type(), ValType::I32, ValType::I32])
}

/// `elem.drop` (WebAssembly 3.0, validation, table instructions).
pub fn check_elem_drop<R: WasmModuleResources>(
    validator: &mut OperatorValidator,
    resources: &R,
    elem_index: u32,
) -> Result<(), Refusal>
    ensures checks { Checks (R.meaning resources.now) validator.old (Op.Bulk (BulkOperator.ElemDrop elem_index))
        (refused result) validator.new }
    ensures memory { IfErr result IsOfContent }
{
    match validator.begin(Proposal::BulkMemory, false) {
        Ok(()) => (),
        Err(refusal) => return Err(refusal),
    }
    let _segment = match find_elements(resources, elem_index) {
        Ok(segment) => segment,
        Err(refusal) => return Err(refusal),
    };
    Ok(())
}
