//! Continuations from their bytes.

ghost use Rattle.std.specs.Prelude.{◌≡◌, ◌≢◌, IfOk, option_map, Some, None, [], ◌∷◌};
ghost use Rattle.wasm_types.specs.reader.Reading.{Gives, NeedsNoMemory};
ghost use Rattle.wasm_operators_immediates.specs.Info.{Info};
ghost use Rattle.wasm_operators_immediates.specs.Kinds.{Tags, Types};
ghost use Rattle.wasm_operators_immediates.specs.Immediates.{Handlers, Index};
ghost use Rattle.wasm_operators_enums.specs.control.Immediates.{continuation_immediates};
ghost use Rattle.wasm_operators_enums.specs.control.Table.{continuation_info};
ghost use Rattle.wasm_operators_enums.specs.control.Trees.{continuation_of};
ghost use Rattle.wasm_operators_encoding.specs.Groups.{continuation_kinds};
ghost use Rattle.wasm_operators_encoding.specs.Sequences.{immediates};
ghost use Rattle.wasm_operators_decode_control.specs.declared.continuation.ContinuationShape.TheVariants as ContinuationShape;
ghost use Rattle.wasm_operators_decode_control.specs.Continuation.{continuation_shape_kinds};

use std::alloc::Global;
use wasm_operators_encoding::ContinuationOperator;
use wasm_operators_encoding::immediates::ResumeTable;
use wasm_types::{BinaryReader, FromReader, Result};

/// What stands behind an opcode of the group.
#[derive(Clone, Copy, Debug, PartialEq, Eq)]
pub enum ContinuationShape {
    /// The index of a type.
    Type,
    /// The index of a type and the index of a type.
    TypeType,
    /// The index of a tag.
    Tag,
    /// The index of a type and a list of handlers.
    TypeHandlers,
    /// The index of a type, the index of a tag and a list of handlers.
    TypeTagHandlers,
    /// The index of a type and the index of a tag.
    TypeTag,
}

/// The shape of what stands behind this opcode, if it is one of the group's.
pub fn continuation_shape(code: u32) -> Option<ContinuationShape>
    ensures { continuation_kinds code ≡ option_map continuation_shape_kinds result }
{
    Some(match code {
        0xe0 => ContinuationShape::Type,
        0xe1 => ContinuationShape::TypeType,
        0xe2 => ContinuationShape::Tag,
        0xe3 | 0xe5 => ContinuationShape::TypeHandlers,
        0xe4 => ContinuationShape::TypeTagHandlers,
        0xe6 => ContinuationShape::TypeTag,
        _ => return None,
    })
}

// The operator with this code, which carries this.
fn of_type(code: u32, cont_type_index: u32) -> ContinuationOperator
    requires { continuation_kinds code ≡ Some (continuation_shape_kinds ContinuationShape.Type) }
    ensures immediates { continuation_immediates (continuation_of result) ≡ Index Types cont_type_index ∷ [] }
    ensures code { (continuation_info (continuation_of result)).code ≡ code }
    ensures prefix { (continuation_info (continuation_of result)).prefix ≡ None }
{
    match code {
        0xe0 => ContinuationOperator::ContNew { cont_type_index },
        _ => unreachable!(),
    }
}

// The operator with this code, which carries this.
fn of_type_type(code: u32, argument_index: u32, result_index: u32) -> ContinuationOperator
    requires { continuation_kinds code ≡ Some (continuation_shape_kinds ContinuationShape.TypeType) }
    ensures immediates { continuation_immediates (continuation_of result)
        ≡ Index Types argument_index ∷ Index Types result_index ∷ [] }
    ensures code { (continuation_info (continuation_of result)).code ≡ code }
    ensures prefix { (continuation_info (continuation_of result)).prefix ≡ None }
{
    match code {
        0xe1 => ContinuationOperator::ContBind {
            argument_index,
            result_index,
        },
        _ => unreachable!(),
    }
}

// The operator with this code, which carries this.
fn of_tag(code: u32, tag_index: u32) -> ContinuationOperator
    requires { continuation_kinds code ≡ Some (continuation_shape_kinds ContinuationShape.Tag) }
    ensures immediates { continuation_immediates (continuation_of result) ≡ Index Tags tag_index ∷ [] }
    ensures code { (continuation_info (continuation_of result)).code ≡ code }
    ensures prefix { (continuation_info (continuation_of result)).prefix ≡ None }
{
    match code {
        0xe2 => ContinuationOperator::Suspend { tag_index },
        _ => unreachable!(),
    }
}

// The operator with this code, which carries this.
fn of_type_handlers(
    code: u32,
    cont_type_index: u32,
    resume_table: ResumeTable,
) -> ContinuationOperator
    requires { continuation_kinds code ≡ Some (continuation_shape_kinds ContinuationShape.TypeHandlers) }
    ensures immediates { continuation_immediates (continuation_of result)
        ≡ Index Types cont_type_index ∷ Handlers resume_table.handlers.items ∷ [] }
    ensures code { (continuation_info (continuation_of result)).code ≡ code }
    ensures prefix { (continuation_info (continuation_of result)).prefix ≡ None }
{
    match code {
        0xe3 => ContinuationOperator::Resume {
            cont_type_index,
            resume_table,
        },
        0xe5 => ContinuationOperator::ResumeThrowRef {
            cont_type_index,
            resume_table,
        },
        _ => unreachable!(),
    }
}

// The operator with this code, which carries this.
fn of_type_tag_handlers(
    code: u32,
    cont_type_index: u32,
    tag_index: u32,
    resume_table: ResumeTable,
) -> ContinuationOperator
    requires { continuation_kinds code ≡ Some (continuation_shape_kinds ContinuationShape.TypeTagHandlers) }
    ensures immediates { continuation_immediates (continuation_of result)
        ≡ Index Types cont_type_index ∷ Index Tags tag_index ∷ Handlers resume_table.handlers.items ∷ [] }
    ensures code { (continuation_info (continuation_of result)).code ≡ code }
    ensures prefix { (continuation_info (continuation_of result)).prefix ≡ None }
{
    match code {
        0xe4 => ContinuationOperator::ResumeThrow {
            cont_type_index,
            tag_index,
            resume_table,
        },
        _ => unreachable!(),
    }
}

// The operator with this code, which carries this.
fn of_type_tag(code: u32, cont_type_index: u32, tag_index: u32) -> ContinuationOperator
    requires { continuation_kinds code ≡ Some (continuation_shape_kinds ContinuationShape.TypeTag) }
    ensures immediates { continuation_immediates (continuation_of result)
        ≡ Index Types cont_type_index ∷ Index Tags tag_index ∷ [] }
    ensures code { (continuation_info (continuation_of result)).code ≡ code }
    ensures prefix { (continuation_info (continuation_of result)).prefix ≡ None }
{
    match code {
        0xe6 => ContinuationOperator::Switch {
            cont_type_index,
            tag_index,
        },
        _ => unreachable!(),
    }
}

/// Reads what stands behind this code, of this shape, and answers the operator.
///
/// # Errors
///
/// Where the bytes spell no such immediates, or where there is no memory for them. The reader may then stand behind some
/// of them.
#[tactic(auto, unfolding(wasm_operators_encoding::specs::immediates::Immediates::immediate))]
pub fn read_continuation<'a>(
    alloc: Global,
    code: u32,
    shape: ContinuationShape,
    reader: &mut BinaryReader<'a>,
) -> Result<ContinuationOperator>
    requires { continuation_kinds code ≡ Some (continuation_shape_kinds shape) }
    ensures answer { Gives (λ o. continuation_immediates (continuation_of o)) result reader.new
        (immediates reader.old.settings (continuation_shape_kinds shape) reader.old) }
    ensures code { IfOk result (λ o. (continuation_info (continuation_of o)).code ≡ code) }
    ensures prefix { IfOk result (λ o. (continuation_info (continuation_of o)).prefix ≡ None) }
    ensures no_memory { shape ≢ ContinuationShape.TypeHandlers → shape ≢ ContinuationShape.TypeTagHandlers
        → NeedsNoMemory result }
{
    match shape {
        ContinuationShape::Type => {
            let cont_type_index = reader.read_var_u32()?;
            Ok(of_type(code, cont_type_index))
        }
        ContinuationShape::TypeType => {
            let argument_index = reader.read_var_u32()?;
            let result_index = reader.read_var_u32()?;
            Ok(of_type_type(code, argument_index, result_index))
        }
        ContinuationShape::Tag => {
            let tag_index = reader.read_var_u32()?;
            Ok(of_tag(code, tag_index))
        }
        ContinuationShape::TypeHandlers => {
            let cont_type_index = reader.read_var_u32()?;
            let resume_table = ResumeTable::from_reader(alloc, reader)?;
            Ok(of_type_handlers(code, cont_type_index, resume_table))
        }
        ContinuationShape::TypeTagHandlers => {
            let cont_type_index = reader.read_var_u32()?;
            let tag_index = reader.read_var_u32()?;
            let resume_table = ResumeTable::from_reader(alloc, reader)?;
            Ok(of_type_tag_handlers(code, cont_type_index, tag_index, resume_table))
        }
        ContinuationShape::TypeTag => {
            let cont_type_index = reader.read_var_u32()?;
            let tag_index = reader.read_var_u32()?;
            Ok(of_type_tag(code, cont_type_index, tag_index))
        }
    }
}
