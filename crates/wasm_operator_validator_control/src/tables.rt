//! The table that a call goes through.

ghost use Rattle.std.specs.Prelude.{◌↔◌, IsTrue, MatchResult, true};
ghost use Rattle.wasm_types.specs.trees.Types.{ref, abstract, func};
ghost use Rattle.wasm_types.specs.trees.Below.{Below};
ghost use Rattle.wasm_operator_validator_rules.specs.Context.{Table};
ghost use Rattle.wasm_operator_validator_state.specs.resources.Meaning.{table_in, reference_in};
ghost use Rattle.wasm_operator_validator_control.specs.Callees.{IsFunctionTable};

use crate::{OperatorValidator, Reason, Refusal, Space, WasmModuleResources, may_use};
use wasm_types::{AbstractHeapType, HeapType, RefType, TableType, ValType};

/// The table at an index, where it is of functions and the function that is validated may use it.
pub(crate) fn function_table<R: WasmModuleResources>(
    validator: &OperatorValidator,
    resources: &R,
    table_index: u32,
) -> Result<TableType, Refusal>
    ensures { MatchResult result (λ t. IsFunctionTable (R.meaning resources.now) validator.now table_index
        (table_in (R.meaning resources.now) t)) (λ r. (t : Table)
        → IsFunctionTable (R.meaning resources.now) validator.now table_index t → ⊥) }
{
    let table = match resources.table_at(table_index) {
        Some(table) => table,
        None => {
            return Err(Refusal::Unknown {
                space: Space::Table,
                index: table_index,
            });
        }
    };
    if !may_use(validator, table.shared) {
        return Err(Refusal::Because(Reason::NotShared));
    }
    if is_of_functions(resources, table.element_type, false) {
        return Ok(table);
    }
    if is_of_functions(resources, table.element_type, true) {
        return Ok(table);
    }
    Err(Refusal::Because(Reason::NotFunctions))
}

// Whether references of a type are references to functions, shared or not.
fn is_of_functions<R: WasmModuleResources>(resources: &R, element: RefType, shared: bool) -> bool
    ensures { IsTrue result ↔ Below (reference_in (R.meaning resources.now) element) (ref true (abstract shared func)) }
{
    let functions = HeapType::Abstract {
        shared,
        ty: AbstractHeapType::Func,
    };
    match RefType::new(true, functions) {
        Some(functions) => { resources.is_subtype(ValType::Ref(element), ValType::Ref(functions)) }
        None => unreachable!(),
    }
}
