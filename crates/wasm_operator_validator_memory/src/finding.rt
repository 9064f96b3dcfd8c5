//! Tables and element segments by their indices.

ghost use Rattle.std.specs.Prelude.{◌≡◌, ◌&&◌, None, Some, slice_get, IfErr, MatchResult};
ghost use Rattle.wasm_types.specs.externs.Addresses.{address_type};
ghost use Rattle.wasm_operator_validator_rules.specs.Context.{Table};
ghost use Rattle.wasm_operator_validator_state.specs.resources.Meaning.{table_in, reference_in};
ghost use Rattle.wasm_operator_validator_stacks.specs.determined.Operators.{IsUsable, IsOfContent};
ghost use Rattle.wasm_operator_validator_memory.specs.Tables.{table_is_shared};

use wasm_operator_validator_stacks::determined::{
    OperatorValidator, Reason, Refusal, Space, WasmModuleResources, may_use,
};
use wasm_types::{RefType, TableType, ValType};

/// The table at an index, where the function may use it.
pub(crate) fn usable_table<R: WasmModuleResources>(
    validator: &OperatorValidator,
    resources: &R,
    at: u32,
) -> Result<TableType, Refusal>
    ensures { MatchResult result (λ t. IsUsable validator.now table_is_shared
        (slice_get (R.meaning resources.now).«module».tables at) (table_in (R.meaning resources.now) t))
        (λ r. (t : Table) → IsUsable validator.now table_is_shared
        (slice_get (R.meaning resources.now).«module».tables at) t → ⊥) }
{
    let table = match resources.table_at(at) {
        Some(table) => table,
        None => {
            return Err(Refusal::Unknown {
                space: Space::Table,
                index: at,
            });
        }
    };
    if !may_use(validator, table.shared) {
        return Err(Refusal::Because(Reason::NotShared));
    }
    Ok(table)
}

/// The type of the element segment at an index.
pub(crate) fn find_elements<R: WasmModuleResources>(
    resources: &R,
    at: u32,
) -> Result<RefType, Refusal>
    ensures found { MatchResult result (λ t. slice_get (R.meaning resources.now).«module».elements at ≡ Some
        (reference_in (R.meaning resources.now) t)) (λ r. slice_get
        (R.meaning resources.now).«module».elements at ≡ None) }
    ensures content { IfErr result IsOfContent }
{
    match resources.element_type_at(at) {
        Some(ty) => Ok(ty),
        None => Err(Refusal::Unknown {
            space: Space::Element,
            index: at,
        }),
    }
}

/// The type of a length that fits both tables.
pub(crate) const fn length_type(to64: bool, from64: bool) -> ValType
    ensures { result ≡ address_type (to64 && from64) }
{
    if to64 && from64 {
        ValType::I64
    } else {
        ValType::I32
    }
}
