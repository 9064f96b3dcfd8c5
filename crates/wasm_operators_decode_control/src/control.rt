//! Blocks, branches and calls from their bytes.

ghost use Rattle.std.specs.Prelude.{◌≡◌, IfOk, option_map, Some, None, [], ◌∷◌};
ghost use Rattle.wasm_types.specs.reader.Reading.{Gives, NeedsNoMemory};
ghost use Rattle.wasm_operators_immediates.specs.Info.{Info};
ghost use Rattle.wasm_operators_immediates.specs.Kinds.{Functions, Tables, Types};
ghost use Rattle.wasm_operators_immediates.specs.Immediates.{Block, BranchTable, Index, IndexOrZero, Label};
ghost use Rattle.wasm_operators_enums.specs.control.Immediates.{control_immediates};
ghost use Rattle.wasm_operators_enums.specs.control.Table.{control_info};
ghost use Rattle.wasm_operators_encoding.specs.Groups.{control_kinds};
ghost use Rattle.wasm_operators_encoding.specs.Sequences.{immediates};
ghost use Rattle.wasm_operators_decode_control.specs.declared.control.ControlShape.TheVariants as ControlShape;
ghost use Rattle.wasm_operators_decode_control.specs.Control.{control_shape_kinds};

use std::alloc::Global;
use wasm_operators_encoding::ControlOperator;
use wasm_operators_encoding::immediates::{BlockType, BrTable, read_table_or_zero};
use wasm_types::{BinaryReader, FromReader, Result};

/// What stands behind an opcode of the group.
#[derive(Clone, Copy, Debug, PartialEq, Eq)]
pub enum ControlShape {
    /// Nothing.
    Nothing,
    /// The type of a block.
    Block,
    /// A label.
    Label,
    /// A table of labels.
    Labels,
    /// The index of a function.
    Function,
    /// The index of a type and the index of a table.
    TypeTable,
    /// The index of a type and the index of a table, which is the single byte zero where it may not be another.
    TypeTableOrZero,
    /// The index of a type.
    Type,
}

/// The shape of what stands behind this opcode, if it is one of the group's.
pub fn control_shape(code: u32) -> Option<ControlShape>
    ensures { control_kinds code ≡ option_map control_shape_kinds result }
{
    Some(match code {
        0x00 | 0x01 | 0x05 | 0x0b | 0x0f | 0xd4 => ControlShape::Nothing,
        0x02 | 0x03 | 0x04 => ControlShape::Block,
        0x0c | 0x0d | 0xd5 | 0xd6 => ControlShape::Label,
        0x0e => ControlShape::Labels,
        0x10 | 0x12 => ControlShape::Function,
        0x11 => ControlShape::TypeTableOrZero,
        0x13 => ControlShape::TypeTable,
        0x14 | 0x15 => ControlShape::Type,
        _ => return None,
    })
}

// The operator with this code.
fn of_nothing<'a>(code: u32) -> ControlOperator<'a>
    requires { control_kinds code ≡ Some (control_shape_kinds ControlShape.Nothing) }
    ensures immediates { control_immediates result ≡ [] }
    ensures code { (control_info result).code ≡ code }
    ensures prefix { (control_info result).prefix ≡ None }
{
    match code {
        0x00 => ControlOperator::Unreachable,
        0x01 => ControlOperator::Nop,
        0x05 => ControlOperator::Else,
        0x0b => ControlOperator::End,
        0x0f => ControlOperator::Return,
        0xd4 => ControlOperator::RefAsNonNull,
        _ => unreachable!(),
    }
}

// The operator with this code, which carries this.
fn of_block<'a>(code: u32, blockty: BlockType) -> ControlOperator<'a>
    requires { control_kinds code ≡ Some (control_shape_kinds ControlShape.Block) }
    ensures immediates { control_immediates result ≡ Block blockty ∷ [] }
    ensures code { (control_info result).code ≡ code }
    ensures prefix { (control_info result).prefix ≡ None }
{
    match code {
        0x02 => ControlOperator::Block { blockty },
        0x03 => ControlOperator::Loop { blockty },
        0x04 => ControlOperator::If { blockty },
        _ => unreachable!(),
    }
}

// The operator with this code, which carries this.
fn of_label<'a>(code: u32, relative_depth: u32) -> ControlOperator<'a>
    requires { control_kinds code ≡ Some (control_shape_kinds ControlShape.Label) }
    ensures immediates { control_immediates result ≡ Label relative_depth ∷ [] }
    ensures code { (control_info result).code ≡ code }
    ensures prefix { (control_info result).prefix ≡ None }
{
    match code {
        0x0c => ControlOperator::Br { relative_depth },
        0x0d => ControlOperator::BrIf { relative_depth },
        0xd5 => ControlOperator::BrOnNull { relative_depth },
        0xd6 => ControlOperator::BrOnNonNull { relative_depth },
        _ => unreachable!(),
    }
}

// The operator with this code, which carries this.
fn of_labels<'a>(code: u32, targets: BrTable<'a>) -> ControlOperator<'a>
    requires { control_kinds code ≡ Some (control_shape_kinds ControlShape.Labels) }
    ensures immediates { control_immediates result ≡ BranchTable targets.entry ∷ [] }
    ensures code { (control_info result).code ≡ code }
    ensures prefix { (control_info result).prefix ≡ None }
{
    match code {
        0x0e => ControlOperator::BrTable { targets },
        _ => unreachable!(),
    }
}

// The operator with this code, which carries this.
fn of_function<'a>(code: u32, function_index: u32) -> ControlOperator<'a>
    requires { control_kinds code ≡ Some (control_shape_kinds ControlShape.Function) }
    ensures immediates { control_immediates result ≡ Index Functions function_index ∷ [] }
    ensures code { (control_info result).code ≡ code }
    ensures prefix { (control_info result).prefix ≡ None }
{
    match code {
        0x10 => ControlOperator::Call { function_index },
        0x12 => ControlOperator::ReturnCall { function_index },
        _ => unreachable!(),
    }
}

// The operator with this code, which carries this.
fn of_type_table<'a>(code: u32, type_index: u32, table_index: u32) -> ControlOperator<'a>
    requires { control_kinds code ≡ Some (control_shape_kinds ControlShape.TypeTable) }
    ensures immediates { control_immediates result ≡ Index Types type_index ∷ Index Tables table_index ∷ [] }
    ensures code { (control_info result).code ≡ code }
    ensures prefix { (control_info result).prefix ≡ None }
{
    match code {
        0x13 => ControlOperator::ReturnCallIndirect {
            type_index,
            table_index,
        },
        _ => unreachable!(),
    }
}

// The operator with this code, which carries this.
fn of_type_table_or_zero<'a>(code: u32, type_index: u32, table_index: u32) -> ControlOperator<'a>
    requires { control_kinds code ≡ Some (control_shape_kinds ControlShape.TypeTableOrZero) }
    ensures immediates { control_immediates result ≡ Index Types type_index ∷ IndexOrZero Tables table_index ∷ [] }
    ensures code { (control_info result).code ≡ code }
    ensures prefix { (control_info result).prefix ≡ None }
{
    match code {
        0x11 => ControlOperator::CallIndirect {
            type_index,
            table_index,
        },
        _ => unreachable!(),
    }
}

// The operator with this code, which carries this.
fn of_type<'a>(code: u32, type_index: u32) -> ControlOperator<'a>
    requires { control_kinds code ≡ Some (control_shape_kinds ControlShape.Type) }
    ensures immediates { control_immediates result ≡ Index Types type_index ∷ [] }
    ensures code { (control_info result).code ≡ code }
    ensures prefix { (control_info result).prefix ≡ None }
{
    match code {
        0x14 => ControlOperator::CallRef { type_index },
        0x15 => ControlOperator::ReturnCallRef { type_index },
        _ => unreachable!(),
    }
}

/// Reads what stands behind this code, of this shape, and answers the operator.
///
/// # Errors
///
/// Where the bytes spell no such immediates. The reader may then stand behind some of them.
#[tactic(auto, unfolding(wasm_operators_encoding::specs::immediates::Immediates::immediate))]
pub fn read_control<'a>(
    alloc: Global,
    code: u32,
    shape: ControlShape,
    reader: &mut BinaryReader<'a>,
) -> Result<ControlOperator<'a>>
    requires { control_kinds code ≡ Some (control_shape_kinds shape) }
    ensures answer { Gives control_immediates result reader.new
        (immediates reader.old.settings (control_shape_kinds shape) reader.old) }
    ensures code { IfOk result (λ o. (control_info o).code ≡ code) }
    ensures prefix { IfOk result (λ o. (control_info o).prefix ≡ None) }
    ensures no_memory { NeedsNoMemory result }
{
    match shape {
        ControlShape::Nothing => Ok(of_nothing(code)),
        ControlShape::Block => {
            let blockty = BlockType::from_reader(alloc, reader)?;
            Ok(of_block(code, blockty))
        }
        ControlShape::Label => {
            let relative_depth = reader.read_var_u32()?;
            Ok(of_label(code, relative_depth))
        }
        ControlShape::Labels => {
            let targets = BrTable::from_reader(alloc, reader)?;
            Ok(of_labels(code, targets))
        }
        ControlShape::Function => {
            let function_index = reader.read_var_u32()?;
            Ok(of_function(code, function_index))
        }
        ControlShape::TypeTable => {
            let type_index = reader.read_var_u32()?;
            let table_index = reader.read_var_u32()?;
            Ok(of_type_table(code, type_index, table_index))
        }
        ControlShape::TypeTableOrZero => {
            let type_index = reader.read_var_u32()?;
            let table_index = read_table_or_zero(reader)?;
            Ok(of_type_table_or_zero(code, type_index, table_index))
        }
        ControlShape::Type => {
            let type_index = reader.read_var_u32()?;
            Ok(of_type(code, type_index))
        }
    }
}
