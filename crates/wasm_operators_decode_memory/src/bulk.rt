//! Ranges of memories and tables, and tables, from their bytes.

ghost use Rattle.std.specs.Prelude.{◌≡◌, IfOk, option_map, Some, [], ◌∷◌};
ghost use Rattle.wasm_types.specs.reader.Reading.{Gives, NeedsNoMemory};
ghost use Rattle.wasm_operators_immediates.specs.Info.{Info};
ghost use Rattle.wasm_operators_immediates.specs.Kinds.{DataSegments, Elements, Memories, Tables};
ghost use Rattle.wasm_operators_immediates.specs.Immediates.{Index};
ghost use Rattle.wasm_operators_enums.specs.memory.Immediates.{bulk_immediates};
ghost use Rattle.wasm_operators_enums.specs.memory.Table.{bulk_info};
ghost use Rattle.wasm_operators_encoding.specs.Groups.{bulk_kinds};
ghost use Rattle.wasm_operators_encoding.specs.Sequences.{immediates};
ghost use Rattle.wasm_operators_decode_memory.specs.declared.bulk.BulkShape.TheVariants as BulkShape;
ghost use Rattle.wasm_operators_decode_memory.specs.Bulk.{bulk_shape_kinds};

use wasm_operators_encoding::BulkOperator;
use wasm_types::{BinaryReader, Result};

/// What stands behind an opcode of the group.
#[derive(Clone, Copy, Debug, PartialEq, Eq)]
pub enum BulkShape {
    /// The index of a data segment and the index of a memory.
    DataMemory,
    /// The index of a data segment.
    Data,
    /// The indices of two memories.
    MemoryMemory,
    /// The index of a memory.
    Memory,
    /// The index of an element segment and the index of a table.
    ElementTable,
    /// The index of an element segment.
    Element,
    /// The indices of two tables.
    TableTable,
    /// The index of a table.
    Table,
}

/// The shape of what stands behind `fc` and this code, if the code is one of the group's.
pub fn bulk_shape(code: u32) -> Option<BulkShape>
    ensures { bulk_kinds code ≡ option_map bulk_shape_kinds result }
{
    Some(match code {
        0x08 => BulkShape::DataMemory,
        0x09 => BulkShape::Data,
        0x0a => BulkShape::MemoryMemory,
        0x0b | 0x12 => BulkShape::Memory,
        0x0c => BulkShape::ElementTable,
        0x0d => BulkShape::Element,
        0x0e => BulkShape::TableTable,
        0x0f | 0x10 | 0x11 => BulkShape::Table,
        _ => return None,
    })
}

// The operator with this code, which carries this.
fn of_data_memory(code: u32, data_index: u32, mem: u32) -> BulkOperator
    requires { bulk_kinds code ≡ Some (bulk_shape_kinds BulkShape.DataMemory) }
    ensures immediates { bulk_immediates result ≡ Index DataSegments data_index ∷ Index Memories mem ∷ [] }
    ensures code { (bulk_info result).code ≡ code }
    ensures prefix { (bulk_info result).prefix ≡ Some 0xfc }
{
    match code {
        0x08 => BulkOperator::MemoryInit { data_index, mem },
        _ => unreachable!(),
    }
}

// The operator with this code, which carries this.
fn of_data(code: u32, data_index: u32) -> BulkOperator
    requires { bulk_kinds code ≡ Some (bulk_shape_kinds BulkShape.Data) }
    ensures immediates { bulk_immediates result ≡ Index DataSegments data_index ∷ [] }
    ensures code { (bulk_info result).code ≡ code }
    ensures prefix { (bulk_info result).prefix ≡ Some 0xfc }
{
    match code {
        0x09 => BulkOperator::DataDrop { data_index },
        _ => unreachable!(),
    }
}

// The operator with this code, which carries this.
fn of_memory_memory(code: u32, dst_mem: u32, src_mem: u32) -> BulkOperator
    requires { bulk_kinds code ≡ Some (bulk_shape_kinds BulkShape.MemoryMemory) }
    ensures immediates { bulk_immediates result ≡ Index Memories dst_mem ∷ Index Memories src_mem ∷ [] }
    ensures code { (bulk_info result).code ≡ code }
    ensures prefix { (bulk_info result).prefix ≡ Some 0xfc }
{
    match code {
        0x0a => BulkOperator::MemoryCopy { dst_mem, src_mem },
        _ => unreachable!(),
    }
}

// The operator with this code, which carries this.
fn of_memory(code: u32, mem: u32) -> BulkOperator
    requires { bulk_kinds code ≡ Some (bulk_shape_kinds BulkShape.Memory) }
    ensures immediates { bulk_immediates result ≡ Index Memories mem ∷ [] }
    ensures code { (bulk_info result).code ≡ code }
    ensures prefix { (bulk_info result).prefix ≡ Some 0xfc }
{
    match code {
        0x0b => BulkOperator::MemoryFill { mem },
        0x12 => BulkOperator::MemoryDiscard { mem },
        _ => unreachable!(),
    }
}

// The operator with this code, which carries this.
fn of_element_table(code: u32, elem_index: u32, table: u32) -> BulkOperator
    requires { bulk_kinds code ≡ Some (bulk_shape_kinds BulkShape.ElementTable) }
    ensures immediates { bulk_immediates result ≡ Index Elements elem_index ∷ Index Tables table ∷ [] }
    ensures code { (bulk_info result).code ≡ code }
    ensures prefix { (bulk_info result).prefix ≡ Some 0xfc }
{
    match code {
        0x0c => BulkOperator::TableInit { elem_index, table },
        _ => unreachable!(),
    }
}

// The operator with this code, which carries this.
fn of_element(code: u32, elem_index: u32) -> BulkOperator
    requires { bulk_kinds code ≡ Some (bulk_shape_kinds BulkShape.Element) }
    ensures immediates { bulk_immediates result ≡ Index Elements elem_index ∷ [] }
    ensures code { (bulk_info result).code ≡ code }
    ensures prefix { (bulk_info result).prefix ≡ Some 0xfc }
{
    match code {
        0x0d => BulkOperator::ElemDrop { elem_index },
        _ => unreachable!(),
    }
}

// The operator with this code, which carries this.
fn of_table_table(code: u32, dst_table: u32, src_table: u32) -> BulkOperator
    requires { bulk_kinds code ≡ Some (bulk_shape_kinds BulkShape.TableTable) }
    ensures immediates { bulk_immediates result ≡ Index Tables dst_table ∷ Index Tables src_table ∷ [] }
    ensures code { (bulk_info result).code ≡ code }
    ensures prefix { (bulk_info result).prefix ≡ Some 0xfc }
{
    match code {
        0x0e => BulkOperator::TableCopy {
            dst_table,
            src_table,
        },
        _ => unreachable!(),
    }
}

// The operator with this code, which carries this.
fn of_table(code: u32, table: u32) -> BulkOperator
    requires { bulk_kinds code ≡ Some (bulk_shape_kinds BulkShape.Table) }
    ensures immediates { bulk_immediates result ≡ Index Tables table ∷ [] }
    ensures code { (bulk_info result).code ≡ code }
    ensures prefix { (bulk_info result).prefix ≡ Some 0xfc }
{
    match code {
        0x0f => BulkOperator::TableGrow { table },
        0x10 => BulkOperator::TableSize { table },
        0x11 => BulkOperator::TableFill { table },
        _ => unreachable!(),
    }
}

/// Reads what stands behind this code, of this shape, and answers the operator.
///
/// # Errors
///
/// Where the bytes spell no such immediates. The reader may then stand behind some of them.
#[tactic(auto, unfolding(wasm_operators_encoding::specs::immediates::Immediates::immediate))]
pub fn read_bulk<'a>(
    code: u32,
    shape: BulkShape,
    reader: &mut BinaryReader<'a>,
) -> Result<BulkOperator>
    requires { bulk_kinds code ≡ Some (bulk_shape_kinds shape) }
    ensures answer { Gives bulk_immediates result reader.new (immediates reader.old.settings
        (bulk_shape_kinds shape) reader.old) }
    ensures code { IfOk result (λ o. (bulk_info o).code ≡ code) }
    ensures prefix { IfOk result (λ o. (bulk_info o).prefix ≡ Some 0xfc) }
    ensures no_memory { NeedsNoMemory result }
{
    match shape {
        BulkShape::DataMemory => {
            let data_index = reader.read_var_u32()?;
            let mem = reader.read_var_u32()?;
            Ok(of_data_memory(code, data_index, mem))
        }
        BulkShape::Data => {
            let data_index = reader.read_var_u32()?;
            Ok(of_data(code, data_index))
        }
        BulkShape::MemoryMemory => {
            let dst_mem = reader.read_var_u32()?;
            let src_mem = reader.read_var_u32()?;
            Ok(of_memory_memory(code, dst_mem, src_mem))
        }
        BulkShape::Memory => {
            let mem = reader.read_var_u32()?;
            Ok(of_memory(code, mem))
        }
        BulkShape::ElementTable => {
            let elem_index = reader.read_var_u32()?;
            let table = reader.read_var_u32()?;
            Ok(of_element_table(code, elem_index, table))
        }
        BulkShape::Element => {
            let elem_index = reader.read_var_u32()?;
            Ok(of_element(code, elem_index))
        }
        BulkShape::TableTable => {
            let dst_table = reader.read_var_u32()?;
            let src_table = reader.read_var_u32()?;
            Ok(of_table_table(code, dst_table, src_table))
        }
        BulkShape::Table => {
            let table = reader.read_var_u32()?;
            Ok(of_table(code, table))
        }
    }
}
