//! Vector operators on numbers from codes behind `fd`.

ghost use Rattle.std.specs.Prelude.{◌≡◌, IfSome, option_map, Some, None, []};
ghost use Rattle.wasm_operators_immediates.specs.Info.{Info};
ghost use Rattle.wasm_operators_enums.specs.VectorsTable.{simd_numeric_info};
ghost use Rattle.wasm_operators_encoding.specs.Groups.{simd_numeric_kinds};
ghost use Rattle.wasm_operators_decode.specs.SimdNumeric.{simd_numeric_run};

use wasm_operators_enums::SimdNumericOperator;

// The operator with this code, if there is one from 0x00 to 0x22: swizzles and splats.
#[tactic(auto, unfolding(crate::specs::SimdNumeric::simd_numeric_run))]
fn splat(code: u32) -> Option<SimdNumericOperator>
    ensures known { simd_numeric_run 0x00 0x22 code ≡ option_map (λ _. []) result }
    ensures code { IfSome result (λ o. (simd_numeric_info o).code ≡ code) }
    ensures prefix { IfSome result (λ o. (simd_numeric_info o).prefix ≡ Some 0xfd) }
{
    Some(match code {
        0x0e => SimdNumericOperator::I8x16Swizzle,
        0x0f => SimdNumericOperator::I8x16Splat,
        0x10 => SimdNumericOperator::I16x8Splat,
        0x11 => SimdNumericOperator::I32x4Splat,
        0x12 => SimdNumericOperator::I64x2Splat,
        0x13 => SimdNumericOperator::F32x4Splat,
        0x14 => SimdNumericOperator::F64x2Splat,
        _ => return None,
    })
}

// The operator with this code, if there is one from 0x23 to 0x36: comparisons of lanes of 8 and 16 bits.
#[tactic(auto, unfolding(crate::specs::SimdNumeric::simd_numeric_run))]
fn narrow_comparison(code: u32) -> Option<SimdNumericOperator>
    ensures known { simd_numeric_run 0x23 0x36 code ≡ option_map (λ _. []) result }
    ensures code { IfSome result (λ o. (simd_numeric_info o).code ≡ code) }
    ensures prefix { IfSome result (λ o. (simd_numeric_info o).prefix ≡ Some 0xfd) }
{
    Some(match code {
        0x23 => SimdNumericOperator::I8x16Eq,
        0x24 => SimdNumericOperator::I8x16Ne,
        0x25 => SimdNumericOperator::I8x16LtS,
        0x26 => SimdNumericOperator::I8x16LtU,
        0x27 => SimdNumericOperator::I8x16GtS,
        0x28 => SimdNumericOperator::I8x16GtU,
        0x29 => SimdNumericOperator::I8x16LeS,
        0x2a => SimdNumericOperator::I8x16LeU,
        0x2b => SimdNumericOperator::I8x16GeS,
        0x2c => SimdNumericOperator::I8x16GeU,
        0x2d => SimdNumericOperator::I16x8Eq,
        0x2e => SimdNumericOperator::I16x8Ne,
        0x2f => SimdNumericOperator::I16x8LtS,
        0x30 => SimdNumericOperator::I16x8LtU,
        0x31 => SimdNumericOperator::I16x8GtS,
        0x32 => SimdNumericOperator::I16x8GtU,
        0x33 => SimdNumericOperator::I16x8LeS,
        0x34 => SimdNumericOperator::I16x8LeU,
        0x35 => SimdNumericOperator::I16x8GeS,
        0x36 => SimdNumericOperator::I16x8GeU,
        _ => return None,
    })
}

// The operator with this code, if there is one from 0x37 to 0x4c: comparisons of wider lanes.
#[tactic(auto, unfolding(crate::specs::SimdNumeric::simd_numeric_run))]
fn wide_comparison(code: u32) -> Option<SimdNumericOperator>
    ensures known { simd_numeric_run 0x37 0x4c code ≡ option_map (λ _. []) result }
    ensures code { IfSome result (λ o. (simd_numeric_info o).code ≡ code) }
    ensures prefix { IfSome result (λ o. (simd_numeric_info o).prefix ≡ Some 0xfd) }
{
    Some(match code {
        0x37 => SimdNumericOperator::I32x4Eq,
        0x38 => SimdNumericOperator::I32x4Ne,
        0x39 => SimdNumericOperator::I32x4LtS,
        0x3a => SimdNumericOperator::I32x4LtU,
        0x3b => SimdNumericOperator::I32x4GtS,
        0x3c => SimdNumericOperator::I32x4GtU,
        0x3d => SimdNumericOperator::I32x4LeS,
        0x3e => SimdNumericOperator::I32x4LeU,
        0x3f => SimdNumericOperator::I32x4GeS,
        0x40 => SimdNumericOperator::I32x4GeU,
        0x41 => SimdNumericOperator::F32x4Eq,
        0x42 => SimdNumericOperator::F32x4Ne,
        0x43 => SimdNumericOperator::F32x4Lt,
        0x44 => SimdNumericOperator::F32x4Gt,
        0x45 => SimdNumericOperator::F32x4Le,
        0x46 => SimdNumericOperator::F32x4Ge,
        0x47 => SimdNumericOperator::F64x2Eq,
        0x48 => SimdNumericOperator::F64x2Ne,
        0x49 => SimdNumericOperator::F64x2Lt,
        0x4a => SimdNumericOperator::F64x2Gt,
        0x4b => SimdNumericOperator::F64x2Le,
        0x4c => SimdNumericOperator::F64x2Ge,
        _ => return None,
    })
}

// The operator with this code, if there is one from 0x4d to 0x5d: on all bits alike.
#[tactic(auto, unfolding(crate::specs::SimdNumeric::simd_numeric_run))]
fn bitwise(code: u32) -> Option<SimdNumericOperator>
    ensures known { simd_numeric_run 0x4d 0x5d code ≡ option_map (λ _. []) result }
    ensures code { IfSome result (λ o. (simd_numeric_info o).code ≡ code) }
    ensures prefix { IfSome result (λ o. (simd_numeric_info o).prefix ≡ Some 0xfd) }
{
    Some(match code {
        0x4d => SimdNumericOperator::V128Not,
        0x4e => SimdNumericOperator::V128And,
        0x4f => SimdNumericOperator::V128AndNot,
        0x50 => SimdNumericOperator::V128Or,
        0x51 => SimdNumericOperator::V128Xor,
        0x52 => SimdNumericOperator::V128Bitselect,
        0x53 => SimdNumericOperator::V128AnyTrue,
        _ => return None,
    })
}

// The operator with this code, if there is one from 0x5e to 0x6d: on lanes of 8 bits, and between floats.
#[tactic(auto, unfolding(crate::specs::SimdNumeric::simd_numeric_run))]
fn i8x16(code: u32) -> Option<SimdNumericOperator>
    ensures known { simd_numeric_run 0x5e 0x6d code ≡ option_map (λ _. []) result }
    ensures code { IfSome result (λ o. (simd_numeric_info o).code ≡ code) }
    ensures prefix { IfSome result (λ o. (simd_numeric_info o).prefix ≡ Some 0xfd) }
{
    Some(match code {
        0x5e => SimdNumericOperator::F32x4DemoteF64x2Zero,
        0x5f => SimdNumericOperator::F64x2PromoteLowF32x4,
        0x60 => SimdNumericOperator::I8x16Abs,
        0x61 => SimdNumericOperator::I8x16Neg,
        0x62 => SimdNumericOperator::I8x16Popcnt,
        0x63 => SimdNumericOperator::I8x16AllTrue,
        0x64 => SimdNumericOperator::I8x16Bitmask,
        0x65 => SimdNumericOperator::I8x16NarrowI16x8S,
        0x66 => SimdNumericOperator::I8x16NarrowI16x8U,
        0x67 => SimdNumericOperator::F32x4Ceil,
        0x68 => SimdNumericOperator::F32x4Floor,
        0x69 => SimdNumericOperator::F32x4Trunc,
        0x6a => SimdNumericOperator::F32x4Nearest,
        0x6b => SimdNumericOperator::I8x16Shl,
        0x6c => SimdNumericOperator::I8x16ShrS,
        0x6d => SimdNumericOperator::I8x16ShrU,
        _ => return None,
    })
}

// The operator with this code, if there is one from 0x6e to 0x7f: arithmetic on lanes of 8 bits, and sums of pairs.
#[tactic(auto, unfolding(crate::specs::SimdNumeric::simd_numeric_run))]
fn i8x16_arithmetic(code: u32) -> Option<SimdNumericOperator>
    ensures known { simd_numeric_run 0x6e 0x7f code ≡ option_map (λ _. []) result }
    ensures code { IfSome result (λ o. (simd_numeric_info o).code ≡ code) }
    ensures prefix { IfSome result (λ o. (simd_numeric_info o).prefix ≡ Some 0xfd) }
{
    Some(match code {
        0x6e => SimdNumericOperator::I8x16Add,
        0x6f => SimdNumericOperator::I8x16AddSatS,
        0x70 => SimdNumericOperator::I8x16AddSatU,
        0x71 => SimdNumericOperator::I8x16Sub,
        0x72 => SimdNumericOperator::I8x16SubSatS,
        0x73 => SimdNumericOperator::I8x16SubSatU,
        0x74 => SimdNumericOperator::F64x2Ceil,
        0x75 => SimdNumericOperator::F64x2Floor,
        0x76 => SimdNumericOperator::I8x16MinS,
        0x77 => SimdNumericOperator::I8x16MinU,
        0x78 => SimdNumericOperator::I8x16MaxS,
        0x79 => SimdNumericOperator::I8x16MaxU,
        0x7a => SimdNumericOperator::F64x2Trunc,
        0x7b => SimdNumericOperator::I8x16AvgrU,
        0x7c => SimdNumericOperator::I16x8ExtAddPairwiseI8x16S,
        0x7d => SimdNumericOperator::I16x8ExtAddPairwiseI8x16U,
        0x7e => SimdNumericOperator::I32x4ExtAddPairwiseI16x8S,
        0x7f => SimdNumericOperator::I32x4ExtAddPairwiseI16x8U,
        _ => return None,
    })
}

// The operator with this code, if there is one from 0x80 to 0x8d: on lanes of 16 bits.
#[tactic(auto, unfolding(crate::specs::SimdNumeric::simd_numeric_run))]
fn i16x8(code: u32) -> Option<SimdNumericOperator>
    ensures known { simd_numeric_run 0x80 0x8d code ≡ option_map (λ _. []) result }
    ensures code { IfSome result (λ o. (simd_numeric_info o).code ≡ code) }
    ensures prefix { IfSome result (λ o. (simd_numeric_info o).prefix ≡ Some 0xfd) }
{
    Some(match code {
        0x80 => SimdNumericOperator::I16x8Abs,
        0x81 => SimdNumericOperator::I16x8Neg,
        0x82 => SimdNumericOperator::I16x8Q15MulrSatS,
        0x83 => SimdNumericOperator::I16x8AllTrue,
        0x84 => SimdNumericOperator::I16x8Bitmask,
        0x85 => SimdNumericOperator::I16x8NarrowI32x4S,
        0x86 => SimdNumericOperator::I16x8NarrowI32x4U,
        0x87 => SimdNumericOperator::I16x8ExtendLowI8x16S,
        0x88 => SimdNumericOperator::I16x8ExtendHighI8x16S,
        0x89 => SimdNumericOperator::I16x8ExtendLowI8x16U,
        0x8a => SimdNumericOperator::I16x8ExtendHighI8x16U,
        0x8b => SimdNumericOperator::I16x8Shl,
        0x8c => SimdNumericOperator::I16x8ShrS,
        0x8d => SimdNumericOperator::I16x8ShrU,
        _ => return None,
    })
}

// The operator with this code, if there is one from 0x8e to 0x9f: arithmetic on lanes of 16 bits.
#[tactic(auto, unfolding(crate::specs::SimdNumeric::simd_numeric_run))]
fn i16x8_arithmetic(code: u32) -> Option<SimdNumericOperator>
    ensures known { simd_numeric_run 0x8e 0x9f code ≡ option_map (λ _. []) result }
    ensures code { IfSome result (λ o. (simd_numeric_info o).code ≡ code) }
    ensures prefix { IfSome result (λ o. (simd_numeric_info o).prefix ≡ Some 0xfd) }
{
    Some(match code {
        0x8e => SimdNumericOperator::I16x8Add,
        0x8f => SimdNumericOperator::I16x8AddSatS,
        0x90 => SimdNumericOperator::I16x8AddSatU,
        0x91 => SimdNumericOperator::I16x8Sub,
        0x92 => SimdNumericOperator::I16x8SubSatS,
        0x93 => SimdNumericOperator::I16x8SubSatU,
        0x94 => SimdNumericOperator::F64x2Nearest,
        0x95 => SimdNumericOperator::I16x8Mul,
        0x96 => SimdNumericOperator::I16x8MinS,
        0x97 => SimdNumericOperator::I16x8MinU,
        0x98 => SimdNumericOperator::I16x8MaxS,
        0x99 => SimdNumericOperator::I16x8MaxU,
        0x9b => SimdNumericOperator::I16x8AvgrU,
        0x9c => SimdNumericOperator::I16x8ExtMulLowI8x16S,
        0x9d => SimdNumericOperator::I16x8ExtMulHighI8x16S,
        0x9e => SimdNumericOperator::I16x8ExtMulLowI8x16U,
        0x9f => SimdNumericOperator::I16x8ExtMulHighI8x16U,
        _ => return None,
    })
}

// The operator with this code, if there is one from 0xa0 to 0xbf: on lanes of 32 bits.
#[tactic(auto, unfolding(crate::specs::SimdNumeric::simd_numeric_run))]
fn i32x4(code: u32) -> Option<SimdNumericOperator>
    ensures known { simd_numeric_run 0xa0 0xbf code ≡ option_map (λ _. []) result }
    ensures code { IfSome result (λ o. (simd_numeric_info o).code ≡ code) }
    ensures prefix { IfSome result (λ o. (simd_numeric_info o).prefix ≡ Some 0xfd) }
{
    Some(match code {
        0xa0 => SimdNumericOperator::I32x4Abs,
        0xa1 => SimdNumericOperator::I32x4Neg,
        0xa3 => SimdNumericOperator::I32x4AllTrue,
        0xa4 => SimdNumericOperator::I32x4Bitmask,
        0xa7 => SimdNumericOperator::I32x4ExtendLowI16x8S,
        0xa8 => SimdNumericOperator::I32x4ExtendHighI16x8S,
        0xa9 => SimdNumericOperator::I32x4ExtendLowI16x8U,
        0xaa => SimdNumericOperator::I32x4ExtendHighI16x8U,
        0xab => SimdNumericOperator::I32x4Shl,
        0xac => SimdNumericOperator::I32x4ShrS,
        0xad => SimdNumericOperator::I32x4ShrU,
        0xae => SimdNumericOperator::I32x4Add,
        0xb1 => SimdNumericOperator::I32x4Sub,
        0xb5 => SimdNumericOperator::I32x4Mul,
        0xb6 => SimdNumericOperator::I32x4MinS,
        0xb7 => SimdNumericOperator::I32x4MinU,
        0xb8 => SimdNumericOperator::I32x4MaxS,
        0xb9 => SimdNumericOperator::I32x4MaxU,
        0xba => SimdNumericOperator::I32x4DotI16x8S,
        0xbc => SimdNumericOperator::I32x4ExtMulLowI16x8S,
        0xbd => SimdNumericOperator::I32x4ExtMulHighI16x8S,
        0xbe => SimdNumericOperator::I32x4ExtMulLowI16x8U,
        0xbf => SimdNumericOperator::I32x4ExtMulHighI16x8U,
        _ => return None,
    })
}

// The operator with this code, if there is one from 0xc0 to 0xdf: on lanes of 64 bits.
#[tactic(auto, unfolding(crate::specs::SimdNumeric::simd_numeric_run))]
fn i64x2(code: u32) -> Option<SimdNumericOperator>
    ensures known { simd_numeric_run 0xc0 0xdf code ≡ option_map (λ _. []) result }
    ensures code { IfSome result (λ o. (simd_numeric_info o).code ≡ code) }
    ensures prefix { IfSome result (λ o. (simd_numeric_info o).prefix ≡ Some 0xfd) }
{
    Some(match code {
        0xc0 => SimdNumericOperator::I64x2Abs,
        0xc1 => SimdNumericOperator::I64x2Neg,
        0xc3 => SimdNumericOperator::I64x2AllTrue,
        0xc4 => SimdNumericOperator::I64x2Bitmask,
        0xc7 => SimdNumericOperator::I64x2ExtendLowI32x4S,
        0xc8 => SimdNumericOperator::I64x2ExtendHighI32x4S,
        0xc9 => SimdNumericOperator::I64x2ExtendLowI32x4U,
        0xca => SimdNumericOperator::I64x2ExtendHighI32x4U,
        0xcb => SimdNumericOperator::I64x2Shl,
        0xcc => SimdNumericOperator::I64x2ShrS,
        0xcd => SimdNumericOperator::I64x2ShrU,
        0xce => SimdNumericOperator::I64x2Add,
        0xd1 => SimdNumericOperator::I64x2Sub,
        0xd5 => SimdNumericOperator::I64x2Mul,
        0xd6 => SimdNumericOperator::I64x2Eq,
        0xd7 => SimdNumericOperator::I64x2Ne,
        0xd8 => SimdNumericOperator::I64x2LtS,
        0xd9 => SimdNumericOperator::I64x2GtS,
        0xda => SimdNumericOperator::I64x2LeS,
        0xdb => SimdNumericOperator::I64x2GeS,
        0xdc => SimdNumericOperator::I64x2ExtMulLowI32x4S,
        0xdd => SimdNumericOperator::I64x2ExtMulHighI32x4S,
        0xde => SimdNumericOperator::I64x2ExtMulLowI32x4U,
        0xdf => SimdNumericOperator::I64x2ExtMulHighI32x4U,
        _ => return None,
    })
}

// The operator with this code, if there is one from 0xe0 to 0xeb: on floats of 32 bits.
#[tactic(auto, unfolding(crate::specs::SimdNumeric::simd_numeric_run))]
fn f32x4(code: u32) -> Option<SimdNumericOperator>
    ensures known { simd_numeric_run 0xe0 0xeb code ≡ option_map (λ _. []) result }
    ensures code { IfSome result (λ o. (simd_numeric_info o).code ≡ code) }
    ensures prefix { IfSome result (λ o. (simd_numeric_info o).prefix ≡ Some 0xfd) }
{
    Some(match code {
        0xe0 => SimdNumericOperator::F32x4Abs,
        0xe1 => SimdNumericOperator::F32x4Neg,
        0xe3 => SimdNumericOperator::F32x4Sqrt,
        0xe4 => SimdNumericOperator::F32x4Add,
        0xe5 => SimdNumericOperator::F32x4Sub,
        0xe6 => SimdNumericOperator::F32x4Mul,
        0xe7 => SimdNumericOperator::F32x4Div,
        0xe8 => SimdNumericOperator::F32x4Min,
        0xe9 => SimdNumericOperator::F32x4Max,
        0xea => SimdNumericOperator::F32x4PMin,
        0xeb => SimdNumericOperator::F32x4PMax,
        _ => return None,
    })
}

// The operator with this code, if there is one from 0xec to 0xf7: on floats of 64 bits.
#[tactic(auto, unfolding(crate::specs::SimdNumeric::simd_numeric_run))]
fn f64x2(code: u32) -> Option<SimdNumericOperator>
    ensures known { simd_numeric_run 0xec 0xf7 code ≡ option_map (λ _. []) result }
    ensures code { IfSome result (λ o. (simd_numeric_info o).code ≡ code) }
    ensures prefix { IfSome result (λ o. (simd_numeric_info o).prefix ≡ Some 0xfd) }
{
    Some(match code {
        0xec => SimdNumericOperator::F64x2Abs,
        0xed => SimdNumericOperator::F64x2Neg,
        0xef => SimdNumericOperator::F64x2Sqrt,
        0xf0 => SimdNumericOperator::F64x2Add,
        0xf1 => SimdNumericOperator::F64x2Sub,
        0xf2 => SimdNumericOperator::F64x2Mul,
        0xf3 => SimdNumericOperator::F64x2Div,
        0xf4 => SimdNumericOperator::F64x2Min,
        0xf5 => SimdNumericOperator::F64x2Max,
        0xf6 => SimdNumericOperator::F64x2PMin,
        0xf7 => SimdNumericOperator::F64x2PMax,
        _ => return None,
    })
}

// The operator with this code, if there is one from 0xf8 to 0xff: between integers and floats.
#[tactic(auto, unfolding(crate::specs::SimdNumeric::simd_numeric_run))]
fn conversion(code: u32) -> Option<SimdNumericOperator>
    ensures known { simd_numeric_run 0xf8 0xff code ≡ option_map (λ _. []) result }
    ensures code { IfSome result (λ o. (simd_numeric_info o).code ≡ code) }
    ensures prefix { IfSome result (λ o. (simd_numeric_info o).prefix ≡ Some 0xfd) }
{
    Some(match code {
        0xf8 => SimdNumericOperator::I32x4TruncSatF32x4S,
        0xf9 => SimdNumericOperator::I32x4TruncSatF32x4U,
        0xfa => SimdNumericOperator::F32x4ConvertI32x4S,
        0xfb => SimdNumericOperator::F32x4ConvertI32x4U,
        0xfc => SimdNumericOperator::I32x4TruncSatF64x2SZero,
        0xfd => SimdNumericOperator::I32x4TruncSatF64x2UZero,
        0xfe => SimdNumericOperator::F64x2ConvertLowI32x4S,
        0xff => SimdNumericOperator::F64x2ConvertLowI32x4U,
        _ => return None,
    })
}

// The operator with this code, if there is one from 0x100 to 0x113: relaxed ones.
#[tactic(auto, unfolding(crate::specs::SimdNumeric::simd_numeric_run))]
fn relaxed(code: u32) -> Option<SimdNumericOperator>
    ensures known { simd_numeric_run 0x100 0x113 code ≡ option_map (λ _. []) result }
    ensures code { IfSome result (λ o. (simd_numeric_info o).code ≡ code) }
    ensures prefix { IfSome result (λ o. (simd_numeric_info o).prefix ≡ Some 0xfd) }
{
    Some(match code {
        0x100 => SimdNumericOperator::I8x16RelaxedSwizzle,
        0x101 => SimdNumericOperator::I32x4RelaxedTruncF32x4S,
        0x102 => SimdNumericOperator::I32x4RelaxedTruncF32x4U,
        0x103 => SimdNumericOperator::I32x4RelaxedTruncF64x2SZero,
        0x104 => SimdNumericOperator::I32x4RelaxedTruncF64x2UZero,
        0x105 => SimdNumericOperator::F32x4RelaxedMadd,
        0x106 => SimdNumericOperator::F32x4RelaxedNmadd,
        0x107 => SimdNumericOperator::F64x2RelaxedMadd,
        0x108 => SimdNumericOperator::F64x2RelaxedNmadd,
        0x109 => SimdNumericOperator::I8x16RelaxedLaneselect,
        0x10a => SimdNumericOperator::I16x8RelaxedLaneselect,
        0x10b => SimdNumericOperator::I32x4RelaxedLaneselect,
        0x10c => SimdNumericOperator::I64x2RelaxedLaneselect,
        0x10d => SimdNumericOperator::F32x4RelaxedMin,
        0x10e => SimdNumericOperator::F32x4RelaxedMax,
        0x10f => SimdNumericOperator::F64x2RelaxedMin,
        0x110 => SimdNumericOperator::F64x2RelaxedMax,
        0x111 => SimdNumericOperator::I16x8RelaxedQ15mulrS,
        0x112 => SimdNumericOperator::I16x8RelaxedDotI8x16I7x16S,
        0x113 => SimdNumericOperator::I32x4RelaxedDotI8x16I7x16AddS,
        _ => return None,
    })
}

/// The operator with this code, if there is one in the group. It carries nothing.
#[tactic(auto, using(crate::proofs::SimdNumericCodes::in_run, crate::proofs::SimdNumericCodes::none_above))]
pub fn simd_numeric_of(code: u32) -> Option<SimdNumericOperator>
    ensures known { simd_numeric_kinds code ≡ option_map (λ _. []) result }
    ensures code { IfSome result (λ o. (simd_numeric_info o).code ≡ code) }
    ensures prefix { IfSome result (λ o. (simd_numeric_info o).prefix ≡ Some 0xfd) }
{
    match code {
        0x00..=0x22 => splat(code),
        0x23..=0x36 => narrow_comparison(code),
        0x37..=0x4c => wide_comparison(code),
        0x4d..=0x5d => bitwise(code),
        0x5e..=0x6d => i8x16(code),
        0x6e..=0x7f => i8x16_arithmetic(code),
        0x80..=0x8d => i16x8(code),
        0x8e..=0x9f => i16x8_arithmetic(code),
        0xa0..=0xbf => i32x4(code),
        0xc0..=0xdf => i64x2(code),
        0xe0..=0xeb => f32x4(code),
        0xec..=0xf7 => f64x2(code),
        0xf8..=0xff => conversion(code),
        0x100..=0x113 => relaxed(code),
        _ => None,
    }
}
