//! Vector operators that carry something, from their bytes.

ghost use Rattle.std.specs.Prelude.{◌≡◌, IfOk, option_map, Some, None, [], ◌∷◌};
ghost use Rattle.wasm_types.specs.reader.Reading.{Gives, NeedsNoMemory};
ghost use Rattle.wasm_operators_immediates.specs.Info.{Info};
ghost use Rattle.wasm_operators_immediates.specs.Kinds.{Plain};
ghost use Rattle.wasm_operators_immediates.specs.Immediates.{Lane, Lanes, MemoryArgument, V128Constant};
ghost use Rattle.wasm_operators_enums.specs.VectorsImmediates.{simd_immediates};
ghost use Rattle.wasm_operators_enums.specs.VectorsTable.{simd_info};
ghost use Rattle.wasm_operators_encoding.specs.Groups.{simd_kinds};
ghost use Rattle.wasm_operators_encoding.specs.Sequences.{immediates};
ghost use Rattle.wasm_operators_decode.specs.declared.simd.SimdShape.TheVariants as SimdShape;
ghost use Rattle.wasm_operators_decode.specs.Simd.{simd_shape_kinds};

use wasm_operators_encoding::immediates::{
    Access, MemArg, V128, read_lane, read_memarg, read_shuffle, read_vector,
};
use wasm_operators_enums::SimdOperator;
use wasm_types::{BinaryReader, Result};

/// What stands behind an opcode of the group.
#[derive(Clone, Copy, Debug, PartialEq, Eq)]
pub enum SimdShape {
    /// The argument of an access with this exponent of its natural alignment.
    Access(u8),
    /// A vector.
    Vector,
    /// The 16 lanes of a shuffle.
    Shuffle,
    /// The index of a lane, below this number.
    Lane(u8),
    /// The argument of such an access, and the index of a lane, below this number.
    AccessLane(u8, u8),
}

/// The shape of what stands behind `fd` and this code, if the code is one of the group's.
pub fn simd_shape(code: u32) -> Option<SimdShape>
    ensures { simd_kinds code ≡ option_map simd_shape_kinds result }
{
    Some(match code {
        0x00 | 0x0b => SimdShape::Access(4),
        0x01 | 0x02 | 0x03 | 0x04 | 0x05 | 0x06 | 0x0a | 0x5d => SimdShape::Access(3),
        0x07 => SimdShape::Access(0),
        0x08 => SimdShape::Access(1),
        0x09 | 0x5c => SimdShape::Access(2),
        0x0c => SimdShape::Vector,
        0x0d => SimdShape::Shuffle,
        0x15 | 0x16 | 0x17 => SimdShape::Lane(16),
        0x18 | 0x19 | 0x1a => SimdShape::Lane(8),
        0x1b | 0x1c | 0x1f | 0x20 => SimdShape::Lane(4),
        0x1d | 0x1e | 0x21 | 0x22 => SimdShape::Lane(2),
        0x54 | 0x58 => SimdShape::AccessLane(0, 16),
        0x55 | 0x59 => SimdShape::AccessLane(1, 8),
        0x56 | 0x5a => SimdShape::AccessLane(2, 4),
        0x57 | 0x5b => SimdShape::AccessLane(3, 2),
        _ => return None,
    })
}

// The operator with this code, which carries this. Only the contract reads `natural`.
fn of_access(code: u32, natural: u8, memarg: MemArg) -> SimdOperator
    requires { simd_kinds code ≡ Some (simd_shape_kinds (SimdShape.Access natural)) }
    ensures immediates { simd_immediates result ≡ MemoryArgument Plain natural memarg ∷ [] }
    ensures code { (simd_info result).code ≡ code }
    ensures prefix { (simd_info result).prefix ≡ Some 0xfd }
{
    match code {
        0x00 => SimdOperator::V128Load { memarg },
        0x01 => SimdOperator::V128Load8x8S { memarg },
        0x02 => SimdOperator::V128Load8x8U { memarg },
        0x03 => SimdOperator::V128Load16x4S { memarg },
        0x04 => SimdOperator::V128Load16x4U { memarg },
        0x05 => SimdOperator::V128Load32x2S { memarg },
        0x06 => SimdOperator::V128Load32x2U { memarg },
        0x07 => SimdOperator::V128Load8Splat { memarg },
        0x08 => SimdOperator::V128Load16Splat { memarg },
        0x09 => SimdOperator::V128Load32Splat { memarg },
        0x0a => SimdOperator::V128Load64Splat { memarg },
        0x0b => SimdOperator::V128Store { memarg },
        0x5c => SimdOperator::V128Load32Zero { memarg },
        0x5d => SimdOperator::V128Load64Zero { memarg },
        _ => unreachable!(),
    }
}

// The operator with this code, which carries this.
fn of_vector(code: u32, value: V128) -> SimdOperator
    requires { simd_kinds code ≡ Some (simd_shape_kinds SimdShape.Vector) }
    ensures immediates { simd_immediates result ≡ V128Constant value ∷ [] }
    ensures code { (simd_info result).code ≡ code }
    ensures prefix { (simd_info result).prefix ≡ Some 0xfd }
{
    match code {
        0x0c => SimdOperator::V128Const { value },
        _ => unreachable!(),
    }
}

// The operator with this code, which carries this.
fn of_shuffle(code: u32, lanes: [u8; 16]) -> SimdOperator
    requires { simd_kinds code ≡ Some (simd_shape_kinds SimdShape.Shuffle) }
    ensures immediates { simd_immediates result ≡ Lanes lanes ∷ [] }
    ensures code { (simd_info result).code ≡ code }
    ensures prefix { (simd_info result).prefix ≡ Some 0xfd }
{
    match code {
        0x0d => SimdOperator::I8x16Shuffle { lanes },
        _ => unreachable!(),
    }
}

// The operator with this code, which carries this. Only the contract reads `lanes`.
fn of_lane(code: u32, lanes: u8, lane: u8) -> SimdOperator
    requires { simd_kinds code ≡ Some (simd_shape_kinds (SimdShape.Lane lanes)) }
    ensures immediates { simd_immediates result ≡ Lane lanes lane ∷ [] }
    ensures code { (simd_info result).code ≡ code }
    ensures prefix { (simd_info result).prefix ≡ Some 0xfd }
{
    match code {
        0x15 => SimdOperator::I8x16ExtractLaneS { lane },
        0x16 => SimdOperator::I8x16ExtractLaneU { lane },
        0x17 => SimdOperator::I8x16ReplaceLane { lane },
        0x18 => SimdOperator::I16x8ExtractLaneS { lane },
        0x19 => SimdOperator::I16x8ExtractLaneU { lane },
        0x1a => SimdOperator::I16x8ReplaceLane { lane },
        0x1b => SimdOperator::I32x4ExtractLane { lane },
        0x1c => SimdOperator::I32x4ReplaceLane { lane },
        0x1d => SimdOperator::I64x2ExtractLane { lane },
        0x1e => SimdOperator::I64x2ReplaceLane { lane },
        0x1f => SimdOperator::F32x4ExtractLane { lane },
        0x20 => SimdOperator::F32x4ReplaceLane { lane },
        0x21 => SimdOperator::F64x2ExtractLane { lane },
        0x22 => SimdOperator::F64x2ReplaceLane { lane },
        _ => unreachable!(),
    }
}

// The operator with this code, which carries this. Only the contract reads `natural` and `lanes`.
fn of_access_lane(code: u32, natural: u8, lanes: u8, memarg: MemArg, lane: u8) -> SimdOperator
    requires { simd_kinds code ≡ Some (simd_shape_kinds (SimdShape.AccessLane natural lanes)) }
    ensures immediates { simd_immediates result ≡ MemoryArgument Plain natural memarg ∷ Lane lanes lane ∷ [] }
    ensures code { (simd_info result).code ≡ code }
    ensures prefix { (simd_info result).prefix ≡ Some 0xfd }
{
    match code {
        0x54 => SimdOperator::V128Load8Lane { memarg, lane },
        0x55 => SimdOperator::V128Load16Lane { memarg, lane },
        0x56 => SimdOperator::V128Load32Lane { memarg, lane },
        0x57 => SimdOperator::V128Load64Lane { memarg, lane },
        0x58 => SimdOperator::V128Store8Lane { memarg, lane },
        0x59 => SimdOperator::V128Store16Lane { memarg, lane },
        0x5a => SimdOperator::V128Store32Lane { memarg, lane },
        0x5b => SimdOperator::V128Store64Lane { memarg, lane },
        _ => unreachable!(),
    }
}

/// Reads what stands behind this code, of this shape, and answers the operator.
///
/// # Errors
///
/// Where the bytes spell no such immediates. The reader may then stand behind some of them.
#[tactic(auto, unfolding(wasm_operators_encoding::specs::immediates::Immediates::immediate))]
pub fn read_simd<'a>(
    code: u32,
    shape: SimdShape,
    reader: &mut BinaryReader<'a>,
) -> Result<SimdOperator>
    requires { simd_kinds code ≡ Some (simd_shape_kinds shape) }
    ensures answer { Gives simd_immediates result reader.new (immediates reader.old.settings
        (simd_shape_kinds shape) reader.old) }
    ensures code { IfOk result (λ o. (simd_info o).code ≡ code) }
    ensures prefix { IfOk result (λ o. (simd_info o).prefix ≡ Some 0xfd) }
    ensures no_memory { NeedsNoMemory result }
{
    match shape {
        SimdShape::Access(natural) => {
            let memarg = read_memarg(reader, Access::Plain, natural)?;
            Ok(of_access(code, natural, memarg))
        }
        SimdShape::Vector => {
            let value = read_vector(reader)?;
            Ok(of_vector(code, value))
        }
        SimdShape::Shuffle => {
            let lanes = read_shuffle(reader)?;
            Ok(of_shuffle(code, lanes))
        }
        SimdShape::Lane(lanes) => {
            let lane = read_lane(lanes, reader)?;
            Ok(of_lane(code, lanes, lane))
        }
        SimdShape::AccessLane(natural, lanes) => {
            let memarg = read_memarg(reader, Access::Plain, natural)?;
            let lane = read_lane(lanes, reader)?;
            Ok(of_access_lane(code, natural, lanes, memarg, lane))
        }
    }
}
