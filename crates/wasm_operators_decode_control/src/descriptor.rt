//! Operators of descriptors from their bytes.

ghost use Rattle.std.specs.Prelude.{◌≡◌, IfOk, option_map, Some, None, [], ◌∷◌};
ghost use Rattle.wasm_types.specs.reader.Reading.{Gives, NeedsNoMemory};
ghost use Rattle.wasm_operators_immediates.specs.Info.{Info};
ghost use Rattle.wasm_operators_immediates.specs.Kinds.{Types};
ghost use Rattle.wasm_operators_immediates.specs.Immediates.{Heap, Index};
ghost use Rattle.wasm_operators_enums.specs.gc.Immediates.{descriptor_immediates};
ghost use Rattle.wasm_operators_enums.specs.gc.Table.{descriptor_info};
ghost use Rattle.wasm_operators_encoding.specs.immediates.Immediates.{of_branch};
ghost use Rattle.wasm_operators_encoding.specs.Groups.{descriptor_kinds};
ghost use Rattle.wasm_operators_encoding.specs.Sequences.{immediates};
ghost use Rattle.wasm_operators_decode_control.specs.declared.descriptor.DescriptorShape.TheVariants as DescriptorShape;
ghost use Rattle.wasm_operators_decode_control.specs.Descriptor.{descriptor_shape_kinds};

use std::alloc::Global;
use wasm_operators_encoding::DescriptorOperator;
use wasm_operators_encoding::immediates::{CastBranch, read_cast_branch};
use wasm_types::{BinaryReader, FromReader, HeapType, Result};

/// What stands behind an opcode of the group.
#[derive(Clone, Copy, Debug, PartialEq, Eq)]
pub enum DescriptorShape {
    /// The index of a type.
    Type,
    /// A heap type.
    Heap,
    /// A branch on a cast.
    Cast,
}

/// The shape of what stands behind `fb` and this code, if the code is one of the group's.
pub fn descriptor_shape(code: u32) -> Option<DescriptorShape>
    ensures { descriptor_kinds code ≡ option_map descriptor_shape_kinds result }
{
    Some(match code {
        0x20 | 0x21 | 0x22 => DescriptorShape::Type,
        0x23 | 0x24 => DescriptorShape::Heap,
        0x25 | 0x26 => DescriptorShape::Cast,
        _ => return None,
    })
}

// The operator with this code, which carries this.
fn of_type(code: u32, type_index: u32) -> DescriptorOperator
    requires { descriptor_kinds code ≡ Some (descriptor_shape_kinds DescriptorShape.Type) }
    ensures immediates { descriptor_immediates result ≡ Index Types type_index ∷ [] }
    ensures code { (descriptor_info result).code ≡ code }
    ensures prefix { (descriptor_info result).prefix ≡ Some 0xfb }
{
    match code {
        0x20 => DescriptorOperator::StructNewDesc {
            struct_type_index: type_index,
        },
        0x21 => DescriptorOperator::StructNewDefaultDesc {
            struct_type_index: type_index,
        },
        0x22 => DescriptorOperator::RefGetDesc { type_index },
        _ => unreachable!(),
    }
}

// The operator with this code, which carries this.
fn of_heap(code: u32, hty: HeapType) -> DescriptorOperator
    requires { descriptor_kinds code ≡ Some (descriptor_shape_kinds DescriptorShape.Heap) }
    ensures immediates { descriptor_immediates result ≡ Heap hty ∷ [] }
    ensures code { (descriptor_info result).code ≡ code }
    ensures prefix { (descriptor_info result).prefix ≡ Some 0xfb }
{
    match code {
        0x23 => DescriptorOperator::RefCastDescEqNonNull { hty },
        0x24 => DescriptorOperator::RefCastDescEqNullable { hty },
        _ => unreachable!(),
    }
}

// The operator with this code, which carries this.
fn of_cast(code: u32, cast: CastBranch) -> DescriptorOperator
    requires { descriptor_kinds code ≡ Some (descriptor_shape_kinds DescriptorShape.Cast) }
    ensures immediates { descriptor_immediates result ≡ of_branch cast ∷ [] }
    ensures code { (descriptor_info result).code ≡ code }
    ensures prefix { (descriptor_info result).prefix ≡ Some 0xfb }
{
    match code {
        0x25 => DescriptorOperator::BrOnCastDescEq {
            relative_depth: cast.relative_depth,
            from_ref_type: cast.from_ref_type,
            to_ref_type: cast.to_ref_type,
        },
        0x26 => DescriptorOperator::BrOnCastDescEqFail {
            relative_depth: cast.relative_depth,
            from_ref_type: cast.from_ref_type,
            to_ref_type: cast.to_ref_type,
        },
        _ => unreachable!(),
    }
}

/// Reads what stands behind this code, of this shape, and answers the operator.
///
/// # Errors
///
/// Where the bytes spell no such immediates. The reader may then stand behind some of them.
#[tactic(auto, unfolding(wasm_operators_encoding::specs::immediates::Immediates::immediate))]
pub fn read_descriptor<'a>(
    alloc: Global,
    code: u32,
    shape: DescriptorShape,
    reader: &mut BinaryReader<'a>,
) -> Result<DescriptorOperator>
    requires { descriptor_kinds code ≡ Some (descriptor_shape_kinds shape) }
    ensures answer { Gives descriptor_immediates result reader.new
        (immediates reader.old.settings (descriptor_shape_kinds shape) reader.old) }
    ensures code { IfOk result (λ o. (descriptor_info o).code ≡ code) }
    ensures prefix { IfOk result (λ o. (descriptor_info o).prefix ≡ Some 0xfb) }
    ensures no_memory { NeedsNoMemory result }
{
    match shape {
        DescriptorShape::Type => {
            let type_index = reader.read_var_u32()?;
            Ok(of_type(code, type_index))
        }
        DescriptorShape::Heap => {
            let hty = HeapType::from_reader(alloc, reader)?;
            Ok(of_heap(code, hty))
        }
        DescriptorShape::Cast => {
            let cast = read_cast_branch(alloc, reader)?;
            Ok(of_cast(code, cast))
        }
    }
}
