//! Structs, arrays, casts and `i31` from their bytes.

ghost use Rattle.std.specs.Prelude.{◌≡◌, IfOk, option_map, Some, None, [], ◌∷◌};
ghost use Rattle.wasm_types.specs.reader.Reading.{Gives, NeedsNoMemory};
ghost use Rattle.wasm_operators_immediates.specs.Info.{Info};
ghost use Rattle.wasm_operators_immediates.specs.Kinds.{DataSegments, Elements, Fields, Types};
ghost use Rattle.wasm_operators_immediates.specs.Immediates.{Count, Heap, Index};
ghost use Rattle.wasm_operators_enums.specs.gc.Immediates.{gc_immediates};
ghost use Rattle.wasm_operators_enums.specs.gc.Table.{gc_info};
ghost use Rattle.wasm_operators_encoding.specs.immediates.Immediates.{of_branch};
ghost use Rattle.wasm_operators_encoding.specs.Groups.{gc_kinds};
ghost use Rattle.wasm_operators_encoding.specs.Sequences.{immediates};
ghost use Rattle.wasm_operators_decode_control.specs.declared.gc.GcShape.TheVariants as GcShape;
ghost use Rattle.wasm_operators_decode_control.specs.Gc.{gc_shape_kinds};

use std::alloc::Global;
use wasm_operators_encoding::GcOperator;
use wasm_operators_encoding::immediates::{CastBranch, read_cast_branch};
use wasm_types::{BinaryReader, FromReader, HeapType, Result};

/// What stands behind an opcode of the group.
#[derive(Clone, Copy, Debug, PartialEq, Eq)]
pub enum GcShape {
    /// The index of a type.
    Type,
    /// The index of a type and the index of a field.
    TypeField,
    /// The index of a type and a count.
    TypeCount,
    /// The index of a type and the index of a data segment.
    TypeData,
    /// The index of a type and the index of an element segment.
    TypeElement,
    /// Nothing.
    Nothing,
    /// The index of a type and the index of a type.
    TypeType,
    /// A heap type.
    Heap,
    /// A branch on a cast.
    Cast,
}

/// The shape of what stands behind `fb` and this code, if the code is one of the group's.
pub fn gc_shape(code: u32) -> Option<GcShape>
    ensures { gc_kinds code ≡ option_map gc_shape_kinds result }
{
    Some(match code {
        0x00 | 0x01 | 0x06 | 0x07 | 0x0b | 0x0c | 0x0d | 0x0e | 0x10 => GcShape::Type,
        0x02 | 0x03 | 0x04 | 0x05 => GcShape::TypeField,
        0x08 => GcShape::TypeCount,
        0x09 | 0x12 => GcShape::TypeData,
        0x0a | 0x13 => GcShape::TypeElement,
        0x0f | 0x1a | 0x1b | 0x1c | 0x1d | 0x1e => GcShape::Nothing,
        0x11 => GcShape::TypeType,
        0x14 | 0x15 | 0x16 | 0x17 => GcShape::Heap,
        0x18 | 0x19 => GcShape::Cast,
        _ => return None,
    })
}

// The operator with this code, which carries this.
fn of_type(code: u32, type_index: u32) -> GcOperator
    requires { gc_kinds code ≡ Some (gc_shape_kinds GcShape.Type) }
    ensures immediates { gc_immediates result ≡ Index Types type_index ∷ [] }
    ensures code { (gc_info result).code ≡ code }
    ensures prefix { (gc_info result).prefix ≡ Some 0xfb }
{
    match code {
        0x00 => GcOperator::StructNew {
            struct_type_index: type_index,
        },
        0x01 => GcOperator::StructNewDefault {
            struct_type_index: type_index,
        },
        0x06 => GcOperator::ArrayNew {
            array_type_index: type_index,
        },
        0x07 => GcOperator::ArrayNewDefault {
            array_type_index: type_index,
        },
        0x0b => GcOperator::ArrayGet {
            array_type_index: type_index,
        },
        0x0c => GcOperator::ArrayGetS {
            array_type_index: type_index,
        },
        0x0d => GcOperator::ArrayGetU {
            array_type_index: type_index,
        },
        0x0e => GcOperator::ArraySet {
            array_type_index: type_index,
        },
        0x10 => GcOperator::ArrayFill {
            array_type_index: type_index,
        },
        _ => unreachable!(),
    }
}

// The operator with this code, which carries this.
fn of_type_field(code: u32, type_index: u32, field_index: u32) -> GcOperator
    requires { gc_kinds code ≡ Some (gc_shape_kinds GcShape.TypeField) }
    ensures immediates { gc_immediates result ≡ Index Types type_index ∷ Index Fields field_index ∷ [] }
    ensures code { (gc_info result).code ≡ code }
    ensures prefix { (gc_info result).prefix ≡ Some 0xfb }
{
    match code {
        0x02 => GcOperator::StructGet {
            struct_type_index: type_index,
            field_index,
        },
        0x03 => GcOperator::StructGetS {
            struct_type_index: type_index,
            field_index,
        },
        0x04 => GcOperator::StructGetU {
            struct_type_index: type_index,
            field_index,
        },
        0x05 => GcOperator::StructSet {
            struct_type_index: type_index,
            field_index,
        },
        _ => unreachable!(),
    }
}

// The operator with this code, which carries this.
fn of_type_count(code: u32, type_index: u32, count: u32) -> GcOperator
    requires { gc_kinds code ≡ Some (gc_shape_kinds GcShape.TypeCount) }
    ensures immediates { gc_immediates result ≡ Index Types type_index ∷ Count count ∷ [] }
    ensures code { (gc_info result).code ≡ code }
    ensures prefix { (gc_info result).prefix ≡ Some 0xfb }
{
    match code {
        0x08 => GcOperator::ArrayNewFixed {
            array_type_index: type_index,
            array_size: count,
        },
        _ => unreachable!(),
    }
}

// The operator with this code, which carries this.
fn of_type_data(code: u32, type_index: u32, data_index: u32) -> GcOperator
    requires { gc_kinds code ≡ Some (gc_shape_kinds GcShape.TypeData) }
    ensures immediates { gc_immediates result ≡ Index Types type_index ∷ Index DataSegments data_index ∷ [] }
    ensures code { (gc_info result).code ≡ code }
    ensures prefix { (gc_info result).prefix ≡ Some 0xfb }
{
    match code {
        0x09 => GcOperator::ArrayNewData {
            array_type_index: type_index,
            array_data_index: data_index,
        },
        0x12 => GcOperator::ArrayInitData {
            array_type_index: type_index,
            array_data_index: data_index,
        },
        _ => unreachable!(),
    }
}

// The operator with this code, which carries this.
fn of_type_element(code: u32, type_index: u32, elem_index: u32) -> GcOperator
    requires { gc_kinds code ≡ Some (gc_shape_kinds GcShape.TypeElement) }
    ensures immediates { gc_immediates result ≡ Index Types type_index ∷ Index Elements elem_index ∷ [] }
    ensures code { (gc_info result).code ≡ code }
    ensures prefix { (gc_info result).prefix ≡ Some 0xfb }
{
    match code {
        0x0a => GcOperator::ArrayNewElem {
            array_type_index: type_index,
            array_elem_index: elem_index,
        },
        0x13 => GcOperator::ArrayInitElem {
            array_type_index: type_index,
            array_elem_index: elem_index,
        },
        _ => unreachable!(),
    }
}

// The operator with this code.
fn of_nothing(code: u32) -> GcOperator
    requires { gc_kinds code ≡ Some (gc_shape_kinds GcShape.Nothing) }
    ensures immediates { gc_immediates result ≡ [] }
    ensures code { (gc_info result).code ≡ code }
    ensures prefix { (gc_info result).prefix ≡ Some 0xfb }
{
    match code {
        0x0f => GcOperator::ArrayLen,
        0x1a => GcOperator::AnyConvertExtern,
        0x1b => GcOperator::ExternConvertAny,
        0x1c => GcOperator::RefI31,
        0x1d => GcOperator::I31GetS,
        0x1e => GcOperator::I31GetU,
        _ => unreachable!(),
    }
}

// The operator with this code, which carries this.
fn of_type_type(code: u32, first_type_index: u32, second_type_index: u32) -> GcOperator
    requires { gc_kinds code ≡ Some (gc_shape_kinds GcShape.TypeType) }
    ensures immediates { gc_immediates result ≡ Index Types first_type_index ∷ Index Types second_type_index ∷ [] }
    ensures code { (gc_info result).code ≡ code }
    ensures prefix { (gc_info result).prefix ≡ Some 0xfb }
{
    match code {
        0x11 => GcOperator::ArrayCopy {
            array_type_index_dst: first_type_index,
            array_type_index_src: second_type_index,
        },
        _ => unreachable!(),
    }
}

// The operator with this code, which carries this.
fn of_heap(code: u32, hty: HeapType) -> GcOperator
    requires { gc_kinds code ≡ Some (gc_shape_kinds GcShape.Heap) }
    ensures immediates { gc_immediates result ≡ Heap hty ∷ [] }
    ensures code { (gc_info result).code ≡ code }
    ensures prefix { (gc_info result).prefix ≡ Some 0xfb }
{
    match code {
        0x14 => GcOperator::RefTestNonNull { hty },
        0x15 => GcOperator::RefTestNullable { hty },
        0x16 => GcOperator::RefCastNonNull { hty },
        0x17 => GcOperator::RefCastNullable { hty },
        _ => unreachable!(),
    }
}

// The operator with this code, which carries this.
fn of_cast(code: u32, cast: CastBranch) -> GcOperator
    requires { gc_kinds code ≡ Some (gc_shape_kinds GcShape.Cast) }
    ensures immediates { gc_immediates result ≡ of_branch cast ∷ [] }
    ensures code { (gc_info result).code ≡ code }
    ensures prefix { (gc_info result).prefix ≡ Some 0xfb }
{
    match code {
        0x18 => GcOperator::BrOnCast {
            relative_depth: cast.relative_depth,
            from_ref_type: cast.from_ref_type,
            to_ref_type: cast.to_ref_type,
        },
        0x19 => GcOperator::BrOnCastFail {
            relative_depth: cast.relative_depth,
            from_ref_type: cast.from_ref_type,
            to_ref_type: cast.to_ref_type,
        },
        _ => unreachable!(),
    }
}

/// Reads what stands behind this code, of this shape, and answers the operator.
///
/// # Errors
///
/// Where the bytes spell no such immediates. The reader may then stand behind some of them.
#[tactic(auto, unfolding(wasm_operators_encoding::specs::immediates::Immediates::immediate))]
pub fn read_gc<'a>(
    alloc: Global,
    code: u32,
    shape: GcShape,
    reader: &mut BinaryReader<'a>,
) -> Result<GcOperator>
    requires { gc_kinds code ≡ Some (gc_shape_kinds shape) }
    ensures answer { Gives gc_immediates result reader.new (immediates reader.old.settings
        (gc_shape_kinds shape) reader.old) }
    ensures code { IfOk result (λ o. (gc_info o).code ≡ code) }
    ensures prefix { IfOk result (λ o. (gc_info o).prefix ≡ Some 0xfb) }
    ensures no_memory { NeedsNoMemory result }
{
    match shape {
        GcShape::Type => {
            let type_index = reader.read_var_u32()?;
            Ok(of_type(code, type_index))
        }
        GcShape::TypeField => {
            let type_index = reader.read_var_u32()?;
            let field_index = reader.read_var_u32()?;
            Ok(of_type_field(code, type_index, field_index))
        }
        GcShape::TypeCount => {
            let type_index = reader.read_var_u32()?;
            let count = reader.read_var_u32()?;
            Ok(of_type_count(code, type_index, count))
        }
        GcShape::TypeData => {
            let type_index = reader.read_var_u32()?;
            let data_index = reader.read_var_u32()?;
            Ok(of_type_data(code, type_index, data_index))
        }
        GcShape::TypeElement => {
            let type_index = reader.read_var_u32()?;
            let elem_index = reader.read_var_u32()?;
            Ok(of_type_element(code, type_index, elem_index))
        }
        GcShape::Nothing => Ok(of_nothing(code)),
        GcShape::TypeType => {
            let first_type_index = reader.read_var_u32()?;
            let second_type_index = reader.read_var_u32()?;
            Ok(of_type_type(code, first_type_index, second_type_index))
        }
        GcShape::Heap => {
            let hty = HeapType::from_reader(alloc, reader)?;
            Ok(of_heap(code, hty))
        }
        GcShape::Cast => {
            let cast = read_cast_branch(alloc, reader)?;
            Ok(of_cast(code, cast))
        }
    }
}
