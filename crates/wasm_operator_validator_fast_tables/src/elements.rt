//! Tables, element segments and memories, by codes.

ghost use Rattle.std.specs.Prelude.{◌≡◌, ◌<◌, ℕ};
ghost use Rattle.wasm_operator_validator_state.specs.resources.Meaning.{Meaning, reference_in};
ghost use Rattle.wasm_operator_validator_fast_tables.specs.Values.{type_of, address_of};
ghost use Rattle.wasm_operator_validator_fast_tables.specs.Tables.{no_code};
ghost use Rattle.wasm_operator_validator_fast_tables.specs.Known.{AreTablesIn, AreElementsIn, AreMemoriesIn};

use crate::codes::code_of_reference;
use crate::tables::Indexed;
use std::alloc::Global;
use wasm_operator_validator_state::WasmModuleResources;
use wasm_types::TableType;

/// The code of addresses, or of indices, of 64 bits or of 32.
pub(crate) fn address_of(wide: bool) -> u32
    ensures { result ≡ address_of wide }
{
    if wide { 1 } else { 0 }
}

// A table by codes.
fn indexed_of(table: TableType) -> Indexed
    ensures index { result.index ≡ address_of table.table64 }
    ensures code { result.ty < no_code → (m : Meaning) → reference_in m table.element_type ≡ type_of m.ids result.ty }
{
    Indexed {
        ty: code_of_reference(table.element_type),
        index: address_of(table.table64),
    }
}

/// The tables, in order, as far as there is memory.
pub(crate) fn tables_of<R: WasmModuleResources>(
    alloc: Global,
    resources: &R,
    most: u32,
    lacks: &mut bool,
) -> Vec<Indexed>
    ensures { let m = R.meaning resources.now in AreTablesIn m.ids m.«module» result.items }
{
    let mut tables = Vec::new(alloc);
    for at in 0..most {
        let Some(table) = resources.table_at(at) else {
            return tables;
        };
        let Ok(()) = tables.push(indexed_of(table)) else {
            *lacks = true;
            return tables;
        };
    }
    tables
}

/// The element segments, in order, as far as there is memory.
pub(crate) fn elements_of<R: WasmModuleResources>(
    alloc: Global,
    resources: &R,
    most: u32,
    lacks: &mut bool,
) -> Vec<u32>
    ensures { let m = R.meaning resources.now in AreElementsIn m.ids m.«module» result.items }
{
    let mut elements = Vec::new(alloc);
    for at in 0..most {
        let Some(ty) = resources.element_type_at(at) else {
            return elements;
        };
        let Ok(()) = elements.push(code_of_reference(ty)) else {
            *lacks = true;
            return elements;
        };
    }
    elements
}

/// The memories, in order, as far as there is memory.
pub(crate) fn memories_of<R: WasmModuleResources>(
    alloc: Global,
    resources: &R,
    most: u32,
    lacks: &mut bool,
) -> Vec<u32>
    ensures { AreMemoriesIn (R.meaning resources.now).«module» result.items }
{
    let mut memories = Vec::new(alloc);
    for at in 0..most {
        let Some(memory) = resources.memory_at(at) else {
            return memories;
        };
        let Ok(()) = memories.push(address_of(memory.memory64)) else {
            *lacks = true;
            return memories;
        };
    }
    memories
}
