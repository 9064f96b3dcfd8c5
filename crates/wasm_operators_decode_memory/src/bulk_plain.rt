//! Elements of tables, and references, from their bytes.

ghost use Rattle.std.specs.Prelude.{◌≡◌, IfOk, option_map, Some, None, [], ◌∷◌};
ghost use Rattle.wasm_types.specs.reader.Reading.{Gives, NeedsNoMemory};
ghost use Rattle.wasm_operators_immediates.specs.Info.{Info};
ghost use Rattle.wasm_operators_immediates.specs.Kinds.{Functions, Tables};
ghost use Rattle.wasm_operators_immediates.specs.Immediates.{Heap, Index};
ghost use Rattle.wasm_operators_enums.specs.memory.Immediates.{bulk_immediates};
ghost use Rattle.wasm_operators_enums.specs.memory.Table.{bulk_info};
ghost use Rattle.wasm_operators_encoding.specs.Groups.{bulk_plain_kinds};
ghost use Rattle.wasm_operators_encoding.specs.Sequences.{immediates};
ghost use Rattle.wasm_operators_decode_memory.specs.declared.bulk_plain.BulkPlainShape.TheVariants as BulkPlainShape;
ghost use Rattle.wasm_operators_decode_memory.specs.BulkPlain.{bulk_plain_shape_kinds};

use std::alloc::Global;
use wasm_operators_encoding::BulkOperator;
use wasm_types::{BinaryReader, FromReader, HeapType, Result};

/// What stands behind an opcode of the group.
#[derive(Clone, Copy, Debug, PartialEq, Eq)]
pub enum BulkPlainShape {
    /// The index of a table.
    Table,
    /// A heap type.
    Heap,
    /// Nothing.
    Nothing,
    /// The index of a function.
    Function,
}

/// The shape of what stands behind this code, if the code is one of the group's.
pub fn bulk_plain_shape(code: u32) -> Option<BulkPlainShape>
    ensures { bulk_plain_kinds code ≡ option_map bulk_plain_shape_kinds result }
{
    Some(match code {
        0x25 | 0x26 => BulkPlainShape::Table,
        0xd0 => BulkPlainShape::Heap,
        0xd1 => BulkPlainShape::Nothing,
        0xd2 => BulkPlainShape::Function,
        _ => return None,
    })
}

// The operator with this code, which carries this.
fn of_table(code: u32, table: u32) -> BulkOperator
    requires { bulk_plain_kinds code ≡ Some (bulk_plain_shape_kinds BulkPlainShape.Table) }
    ensures immediates { bulk_immediates result ≡ Index Tables table ∷ [] }
    ensures code { (bulk_info result).code ≡ code }
    ensures prefix { (bulk_info result).prefix ≡ None }
{
    match code {
        0x25 => BulkOperator::TableGet { table },
        0x26 => BulkOperator::TableSet { table },
        _ => unreachable!(),
    }
}

// The operator with this code, which carries this.
fn of_heap(code: u32, hty: HeapType) -> BulkOperator
    requires { bulk_plain_kinds code ≡ Some (bulk_plain_shape_kinds BulkPlainShape.Heap) }
    ensures immediates { bulk_immediates result ≡ Heap hty ∷ [] }
    ensures code { (bulk_info result).code ≡ code }
    ensures prefix { (bulk_info result).prefix ≡ None }
{
    match code {
        0xd0 => BulkOperator::RefNull { hty },
        _ => unreachable!(),
    }
}

// The operator with this code.
fn of_nothing(code: u32) -> BulkOperator
    requires { bulk_plain_kinds code ≡ Some (bulk_plain_shape_kinds BulkPlainShape.Nothing) }
    ensures immediates { bulk_immediates result ≡ [] }
    ensures code { (bulk_info result).code ≡ code }
    ensures prefix { (bulk_info result).prefix ≡ None }
{
    match code {
        0xd1 => BulkOperator::RefIsNull,
        _ => unreachable!(),
    }
}

// The operator with this code, which carries this.
fn of_function(code: u32, function_index: u32) -> BulkOperator
    requires { bulk_plain_kinds code ≡ Some (bulk_plain_shape_kinds BulkPlainShape.Function) }
    ensures immediates { bulk_immediates result ≡ Index Functions function_index ∷ [] }
    ensures code { (bulk_info result).code ≡ code }
    ensures prefix { (bulk_info result).prefix ≡ None }
{
    match code {
        0xd2 => BulkOperator::RefFunc { function_index },
        _ => unreachable!(),
    }
}

/// Reads what stands behind this code, of this shape, and answers the operator.
///
/// # Errors
///
/// Where the bytes spell no such immediates. The reader may then stand behind some of them.
#[tactic(auto, unfolding(wasm_operators_encoding::specs::immediates::Immediates::immediate))]
pub fn read_bulk_plain<'a>(
    alloc: Global,
    code: u32,
    shape: BulkPlainShape,
    reader: &mut BinaryReader<'a>,
) -> Result<BulkOperator>
    requires { bulk_plain_kinds code ≡ Some (bulk_plain_shape_kinds shape) }
    ensures answer { Gives bulk_immediates result reader.new (immediates reader.old.settings
        (bulk_plain_shape_kinds shape) reader.old) }
    ensures code { IfOk result (λ o. (bulk_info o).code ≡ code) }
    ensures prefix { IfOk result (λ o. (bulk_info o).prefix ≡ None) }
    ensures no_memory { NeedsNoMemory result }
{
    match shape {
        BulkPlainShape::Table => {
            let table = reader.read_var_u32()?;
            Ok(of_table(code, table))
        }
        BulkPlainShape::Heap => {
            let hty = HeapType::from_reader(alloc, reader)?;
            Ok(of_heap(code, hty))
        }
        BulkPlainShape::Nothing => Ok(of_nothing(code)),
        BulkPlainShape::Function => {
            let function_index = reader.read_var_u32()?;
            Ok(of_function(code, function_index))
        }
    }
}
