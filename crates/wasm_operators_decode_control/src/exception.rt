//! Exceptions from their bytes.

ghost use Rattle.std.specs.Prelude.{◌≡◌, ◌≢◌, IfOk, option_map, Some, None, [], ◌∷◌};
ghost use Rattle.wasm_types.specs.reader.Reading.{Gives, NeedsNoMemory};
ghost use Rattle.wasm_operators_immediates.specs.Info.{Info};
ghost use Rattle.wasm_operators_immediates.specs.Kinds.{Tags};
ghost use Rattle.wasm_operators_immediates.specs.Immediates as carried;
ghost use Rattle.wasm_operators_immediates.specs.Immediates.{Block, Index, Label};
ghost use Rattle.wasm_operators_immediates.specs.Tables.{catch_table_of};
ghost use Rattle.wasm_operators_enums.specs.control.Immediates.{exception_immediates};
ghost use Rattle.wasm_operators_enums.specs.control.Table.{exception_info};
ghost use Rattle.wasm_operators_enums.specs.control.Trees.{exception_of};
ghost use Rattle.wasm_operators_encoding.specs.Groups.{exception_kinds};
ghost use Rattle.wasm_operators_encoding.specs.Sequences.{immediates};
ghost use Rattle.wasm_operators_decode_control.specs.declared.exception.ExceptionShape.TheVariants as ExceptionShape;
ghost use Rattle.wasm_operators_decode_control.specs.Exception.{exception_shape_kinds};

use std::alloc::Global;
use wasm_operators_encoding::ExceptionOperator;
use wasm_operators_encoding::immediates::{BlockType, TryTable};
use wasm_types::{BinaryReader, FromReader, Result};

/// What stands behind an opcode of the group.
#[derive(Clone, Copy, Debug, PartialEq, Eq)]
pub enum ExceptionShape {
    /// The type of a block.
    Block,
    /// The index of a tag.
    Tag,
    /// A label.
    Label,
    /// Nothing.
    Nothing,
    /// The type of a block and a list of clauses.
    Clauses,
}

/// The shape of what stands behind this opcode, if it is one of the group's.
pub fn exception_shape(code: u32) -> Option<ExceptionShape>
    ensures { exception_kinds code ≡ option_map exception_shape_kinds result }
{
    Some(match code {
        0x06 => ExceptionShape::Block,
        0x07 | 0x08 => ExceptionShape::Tag,
        0x09 | 0x18 => ExceptionShape::Label,
        0x0a | 0x19 => ExceptionShape::Nothing,
        0x1f => ExceptionShape::Clauses,
        _ => return None,
    })
}

// The operator with this code, which carries this.
fn of_block(code: u32, blockty: BlockType) -> ExceptionOperator
    requires { exception_kinds code ≡ Some (exception_shape_kinds ExceptionShape.Block) }
    ensures immediates { exception_immediates (exception_of result) ≡ Block blockty ∷ [] }
    ensures code { (exception_info (exception_of result)).code ≡ code }
    ensures prefix { (exception_info (exception_of result)).prefix ≡ None }
{
    match code {
        0x06 => ExceptionOperator::Try { blockty },
        _ => unreachable!(),
    }
}

// The operator with this code, which carries this.
fn of_tag(code: u32, tag_index: u32) -> ExceptionOperator
    requires { exception_kinds code ≡ Some (exception_shape_kinds ExceptionShape.Tag) }
    ensures immediates { exception_immediates (exception_of result) ≡ Index Tags tag_index ∷ [] }
    ensures code { (exception_info (exception_of result)).code ≡ code }
    ensures prefix { (exception_info (exception_of result)).prefix ≡ None }
{
    match code {
        0x07 => ExceptionOperator::Catch { tag_index },
        0x08 => ExceptionOperator::Throw { tag_index },
        _ => unreachable!(),
    }
}

// The operator with this code, which carries this.
fn of_label(code: u32, relative_depth: u32) -> ExceptionOperator
    requires { exception_kinds code ≡ Some (exception_shape_kinds ExceptionShape.Label) }
    ensures immediates { exception_immediates (exception_of result) ≡ Label relative_depth ∷ [] }
    ensures code { (exception_info (exception_of result)).code ≡ code }
    ensures prefix { (exception_info (exception_of result)).prefix ≡ None }
{
    match code {
        0x09 => ExceptionOperator::Rethrow { relative_depth },
        0x18 => ExceptionOperator::Delegate { relative_depth },
        _ => unreachable!(),
    }
}

// The operator with this code.
fn of_nothing(code: u32) -> ExceptionOperator
    requires { exception_kinds code ≡ Some (exception_shape_kinds ExceptionShape.Nothing) }
    ensures immediates { exception_immediates (exception_of result) ≡ [] }
    ensures code { (exception_info (exception_of result)).code ≡ code }
    ensures prefix { (exception_info (exception_of result)).prefix ≡ None }
{
    match code {
        0x0a => ExceptionOperator::ThrowRef,
        0x19 => ExceptionOperator::CatchAll,
        _ => unreachable!(),
    }
}

// The operator with this code, which carries this.
fn of_clauses(code: u32, try_table: TryTable) -> ExceptionOperator
    requires { exception_kinds code ≡ Some (exception_shape_kinds ExceptionShape.Clauses) }
    ensures immediates { exception_immediates (exception_of result) ≡ carried.TryTable (catch_table_of try_table) ∷ [] }
    ensures code { (exception_info (exception_of result)).code ≡ code }
    ensures prefix { (exception_info (exception_of result)).prefix ≡ None }
{
    match code {
        0x1f => ExceptionOperator::TryTable { try_table },
        _ => unreachable!(),
    }
}

/// Reads what stands behind this code, of this shape, and answers the operator.
///
/// # Errors
///
/// Where the bytes spell no such immediates, or where there is no memory for them. The reader may then stand behind some
/// of them.
#[tactic(auto, unfolding(wasm_operators_encoding::specs::immediates::Immediates::immediate))]
pub fn read_exception<'a>(
    alloc: Global,
    code: u32,
    shape: ExceptionShape,
    reader: &mut BinaryReader<'a>,
) -> Result<ExceptionOperator>
    requires { exception_kinds code ≡ Some (exception_shape_kinds shape) }
    ensures answer { Gives (λ o. exception_immediates (exception_of o)) result reader.new
        (immediates reader.old.settings (exception_shape_kinds shape) reader.old) }
    ensures code { IfOk result (λ o. (exception_info (exception_of o)).code ≡ code) }
    ensures prefix { IfOk result (λ o. (exception_info (exception_of o)).prefix ≡ None) }
    ensures no_memory { shape ≢ ExceptionShape.Clauses → NeedsNoMemory result }
{
    match shape {
        ExceptionShape::Block => {
            let blockty = BlockType::from_reader(alloc, reader)?;
            Ok(of_block(code, blockty))
        }
        ExceptionShape::Tag => {
            let tag_index = reader.read_var_u32()?;
            Ok(of_tag(code, tag_index))
        }
        ExceptionShape::Label => {
            let relative_depth = reader.read_var_u32()?;
            Ok(of_label(code, relative_depth))
        }
        ExceptionShape::Nothing => Ok(of_nothing(code)),
        ExceptionShape::Clauses => {
            let try_table = TryTable::from_reader(alloc, reader)?;
            Ok(of_clauses(code, try_table))
        }
    }
}
