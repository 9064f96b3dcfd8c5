//! Tables.

ghost use Rattle.wasm_operators_enums.specs.Op.{Op};
ghost use Rattle.wasm_operator_validator_state.specs.State.{Checks};
ghost use Rattle.wasm_operator_validator_state.specs.Refusals.{refused};

use crate::finding::usable_table;
use wasm_operator_validator_stacks::determined::{
    BulkOperator, OperatorValidator, Proposal, Refusal, WasmModuleResources,
};
use wasm_types::ValType;

/// `table.get` (WebAssembly 3.0, validation, table instructions).
pub fn check_table_get<R: WasmModuleResources>(
    validator: &mut OperatorValidator,
    resources: &R,
    table: u32,
) -> Result<(), Refusal>
    ensures { Checks (R.meaning resources.now) validator.old (Op.Bulk (BulkOperator.TableGet table))
        (refused result) validator.new }
{
    match validator.begin(Proposal::ReferenceTypes, false) {
        Ok(()) => (),
        Err(refusal) => return Err(refusal),
    }
    let found = match usable_table(validator, resources, table) {
        Ok(found) => found,
        Err(refusal) => return Err(refusal),
    };
    validator.exchange(
        resources,
        &[found.index_type()],
        &[ValType::Ref(found.element_type)],
    )
}

/// `table.set` (WebAssembly 3.0, validation, table instructions).
pub fn check_table_set<R: WasmModuleResources>(
    validator: &mut OperatorValidator,
    resources: &R,
    table: u32,
) -> Result<(), Refusal>
    ensures { Checks (R.meaning resources.now) validator.old (Op.Bulk (BulkOperator.TableSet table))
        (refused result) validator.new }
{
    match validator.begin(Proposal::ReferenceTypes, false) {
        Ok(()) => (),
        Err(refusal) => return Err(refusal),
    }
    let found = match usable_table(validator, resources, table) {
        Ok(found) => found,
        Err(refusal) => return Err(refusal),
    };
    validator.pop_operands(
        resources,
        &[found.index_type(), ValType::Ref(found.element_type)],
    )
}

/// `table.grow` (WebAssembly 3.0, validation, table instructions).
pub fn check_table_grow<R: WasmModuleResources>(
    validator: &mut OperatorValidator,
    resources: &R,
    table: u32,
) -> Result<(), Refusal>
    ensures { Checks (R.meaning resources.now) validator.old (Op.Bulk (BulkOperator.TableGrow table))
        (refused result) validator.new }
{
    match validator.begin(Proposal::ReferenceTypes, false) {
        Ok(()) => (),
        Err(refusal) => return Err(refusal),
    }
    let found = match usable_table(validator, resources, table) {
        Ok(found) => found,
        Err(refusal) => return Err(refusal),
    };
    validator.exchange(
        resources,
        &[ValType::Ref(found.element_type), found.index_type()],
        &[found.index_type()],
    )
}

/// `table.size` (WebAssembly 3.0, validation, table instructions).
pub fn check_table_size<R: WasmModuleResources>(
    validator: &mut OperatorValidator,
    resources: &R,
    table: u32,
) -> Result<(), Refusal>
    ensures { Checks (R.meaning resources.now) validator.old (Op.Bulk (BulkOperator.TableSize table))
        (refused result) validator.new }
{
    match validator.begin(Proposal::ReferenceTypes, false) {
        Ok(()) => (),
        Err(refusal) => return Err(refusal),
    }
    let found = match usable_table(validator, resources, table) {
        Ok(found) => found,
        Err(refusal) => return Err(refusal),
    };
    validator.push_operands(resources, &[found.index_type()])
}

/// `table.fill` (WebAssembly 3.0, validation, table instructions).
pub fn check_table_fill<R: WasmModuleResources>(
    validator: &mut OperatorValidator,
    resources: &R,
    table: u32,
) -> Result<(), Refusal>
    ensures { Checks (R.meaning resources.now) validator.old (Op.Bulk (BulkOperator.TableFill table))
        (refused result) validator.new }
{
    match validator.begin(Proposal::ReferenceTypes, false) {
        Ok(()) => (),
        Err(refusal) => return Err(refusal),
    }
    let found = match usable_table(validator, resources, table) {
        Ok(found) => found,
        Err(refusal) => return Err(refusal),
    };
    validator.pop_operands(
        resources,
        &[
            found.index_type(),
            ValType::Ref(found.element_type),
            found.index_type(),
        ],
    )
}
