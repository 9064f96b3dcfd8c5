//! Vectors: operators that carry nothing.

ghost use Rattle.std.specs.Prelude.{◌≡◌, Some};
ghost use Rattle.wasm_operators_immediates.specs.Info.{told, row};
ghost use Rattle.wasm_operators_immediates.specs.declared.proposal.Proposal.TheVariants as Proposal;

use wasm_operators_immediates::{OperatorInfo, Proposal};

// A row of the proposal, behind `fd`.
fn simd(name: &'static str, code: u32) -> OperatorInfo
    ensures { told result ≡ row Proposal.Simd name.now (Some 0xfd) code }
{
    OperatorInfo::prefixed(Proposal::Simd, name, 0xfd, code)
}

// A row of the proposal, behind `fd`.
fn relaxed(name: &'static str, code: u32) -> OperatorInfo
    ensures { told result ≡ row Proposal.RelaxedSimd name.now (Some 0xfd) code }
{
    OperatorInfo::prefixed(Proposal::RelaxedSimd, name, 0xfd, code)
}

/// Operators on vectors that carry nothing (WebAssembly 3.0, structure, vector instructions).
#[derive(Clone, Copy, PartialEq, Eq)]
pub enum SimdNumericOperator {
    /// `i8x16.swizzle`, opcode `fd 0e`.
    I8x16Swizzle,
    /// `i8x16.splat`, opcode `fd 0f`.
    I8x16Splat,
    /// `i16x8.splat`, opcode `fd 10`.
    I16x8Splat,
    /// `i32x4.splat`, opcode `fd 11`.
    I32x4Splat,
    /// `i64x2.splat`, opcode `fd 12`.
    I64x2Splat,
    /// `f32x4.splat`, opcode `fd 13`.
    F32x4Splat,
    /// `f64x2.splat`, opcode `fd 14`.
    F64x2Splat,
    /// `i8x16.eq`, opcode `fd 23`.
    I8x16Eq,
    /// `i8x16.ne`, opcode `fd 24`.
    I8x16Ne,
    /// `i8x16.lt_s`, opcode `fd 25`.
    I8x16LtS,
    /// `i8x16.lt_u`, opcode `fd 26`.
    I8x16LtU,
    /// `i8x16.gt_s`, opcode `fd 27`.
    I8x16GtS,
    /// `i8x16.gt_u`, opcode `fd 28`.
    I8x16GtU,
    /// `i8x16.le_s`, opcode `fd 29`.
    I8x16LeS,
    /// `i8x16.le_u`, opcode `fd 2a`.
    I8x16LeU,
    /// `i8x16.ge_s`, opcode `fd 2b`.
    I8x16GeS,
    /// `i8x16.ge_u`, opcode `fd 2c`.
    I8x16GeU,
    /// `i16x8.eq`, opcode `fd 2d`.
    I16x8Eq,
    /// `i16x8.ne`, opcode `fd 2e`.
    I16x8Ne,
    /// `i16x8.lt_s`, opcode `fd 2f`.
    I16x8LtS,
    /// `i16x8.lt_u`, opcode `fd 30`.
    I16x8LtU,
    /// `i16x8.gt_s`, opcode `fd 31`.
    I16x8GtS,
    /// `i16x8.gt_u`, opcode `fd 32`.
    I16x8GtU,
    /// `i16x8.le_s`, opcode `fd 33`.
    I16x8LeS,
    /// `i16x8.le_u`, opcode `fd 34`.
    I16x8LeU,
    /// `i16x8.ge_s`, opcode `fd 35`.
    I16x8GeS,
    /// `i16x8.ge_u`, opcode `fd 36`.
    I16x8GeU,
    /// `i32x4.eq`, opcode `fd 37`.
    I32x4Eq,
    /// `i32x4.ne`, opcode `fd 38`.
    I32x4Ne,
    /// `i32x4.lt_s`, opcode `fd 39`.
    I32x4LtS,
    /// `i32x4.lt_u`, opcode `fd 3a`.
    I32x4LtU,
    /// `i32x4.gt_s`, opcode `fd 3b`.
    I32x4GtS,
    /// `i32x4.gt_u`, opcode `fd 3c`.
    I32x4GtU,
    /// `i32x4.le_s`, opcode `fd 3d`.
    I32x4LeS,
    /// `i32x4.le_u`, opcode `fd 3e`.
    I32x4LeU,
    /// `i32x4.ge_s`, opcode `fd 3f`.
    I32x4GeS,
    /// `i32x4.ge_u`, opcode `fd 40`.
    I32x4GeU,
    /// `f32x4.eq`, opcode `fd 41`.
    F32x4Eq,
    /// `f32x4.ne`, opcode `fd 42`.
    F32x4Ne,
    /// `f32x4.lt`, opcode `fd 43`.
    F32x4Lt,
    /// `f32x4.gt`, opcode `fd 44`.
    F32x4Gt,
    /// `f32x4.le`, opcode `fd 45`.
    F32x4Le,
    /// `f32x4.ge`, opcode `fd 46`.
    F32x4Ge,
    /// `f64x2.eq`, opcode `fd 47`.
    F64x2Eq,
    /// `f64x2.ne`, opcode `fd 48`.
    F64x2Ne,
    /// `f64x2.lt`, opcode `fd 49`.
    F64x2Lt,
    /// `f64x2.gt`, opcode `fd 4a`.
    F64x2Gt,
    /// `f64x2.le`, opcode `fd 4b`.
    F64x2Le,
    /// `f64x2.ge`, opcode `fd 4c`.
    F64x2Ge,
    /// `v128.not`, opcode `fd 4d`.
    V128Not,
    /// `v128.and`, opcode `fd 4e`.
    V128And,
    /// `v128.andnot`, opcode `fd 4f`.
    V128AndNot,
    /// `v128.or`, opcode `fd 50`.
    V128Or,
    /// `v128.xor`, opcode `fd 51`.
    V128Xor,
    /// `v128.bitselect`, opcode `fd 52`.
    V128Bitselect,
    /// `v128.any_true`, opcode `fd 53`.
    V128AnyTrue,
    /// `f32x4.demote_f64x2_zero`, opcode `fd 5e`.
    F32x4DemoteF64x2Zero,
    /// `f64x2.promote_low_f32x4`, opcode `fd 5f`.
    F64x2PromoteLowF32x4,
    /// `i8x16.abs`, opcode `fd 60`.
    I8x16Abs,
    /// `i8x16.neg`, opcode `fd 61`.
    I8x16Neg,
    /// `i8x16.popcnt`, opcode `fd 62`.
    I8x16Popcnt,
    /// `i8x16.all_true`, opcode `fd 63`.
    I8x16AllTrue,
    /// `i8x16.bitmask`, opcode `fd 64`.
    I8x16Bitmask,
    /// `i8x16.narrow_i16x8_s`, opcode `fd 65`.
    I8x16NarrowI16x8S,
    /// `i8x16.narrow_i16x8_u`, opcode `fd 66`.
    I8x16NarrowI16x8U,
    /// `f32x4.ceil`, opcode `fd 67`.
    F32x4Ceil,
    /// `f32x4.floor`, opcode `fd 68`.
    F32x4Floor,
    /// `f32x4.trunc`, opcode `fd 69`.
    F32x4Trunc,
    /// `f32x4.nearest`, opcode `fd 6a`.
    F32x4Nearest,
    /// `i8x16.shl`, opcode `fd 6b`.
    I8x16Shl,
    /// `i8x16.shr_s`, opcode `fd 6c`.
    I8x16ShrS,
    /// `i8x16.shr_u`, opcode `fd 6d`.
    I8x16ShrU,
    /// `i8x16.add`, opcode `fd 6e`.
    I8x16Add,
    /// `i8x16.add_sat_s`, opcode `fd 6f`.
    I8x16AddSatS,
    /// `i8x16.add_sat_u`, opcode `fd 70`.
    I8x16AddSatU,
    /// `i8x16.sub`, opcode `fd 71`.
    I8x16Sub,
    /// `i8x16.sub_sat_s`, opcode `fd 72`.
    I8x16SubSatS,
    /// `i8x16.sub_sat_u`, opcode `fd 73`.
    I8x16SubSatU,
    /// `f64x2.ceil`, opcode `fd 74`.
    F64x2Ceil,
    /// `f64x2.floor`, opcode `fd 75`.
    F64x2Floor,
    /// `i8x16.min_s`, opcode `fd 76`.
    I8x16MinS,
    /// `i8x16.min_u`, opcode `fd 77`.
    I8x16MinU,
    /// `i8x16.max_s`, opcode `fd 78`.
    I8x16MaxS,
    /// `i8x16.max_u`, opcode `fd 79`.
    I8x16MaxU,
    /// `f64x2.trunc`, opcode `fd 7a`.
    F64x2Trunc,
    /// `i8x16.avgr_u`, opcode `fd 7b`.
    I8x16AvgrU,
    /// `i16x8.extadd_pairwise_i8x16_s`, opcode `fd 7c`.
    I16x8ExtAddPairwiseI8x16S,
    /// `i16x8.extadd_pairwise_i8x16_u`, opcode `fd 7d`.
    I16x8ExtAddPairwiseI8x16U,
    /// `i32x4.extadd_pairwise_i16x8_s`, opcode `fd 7e`.
    I32x4ExtAddPairwiseI16x8S,
    /// `i32x4.extadd_pairwise_i16x8_u`, opcode `fd 7f`.
    I32x4ExtAddPairwiseI16x8U,
    /// `i16x8.abs`, opcode `fd 80`.
    I16x8Abs,
    /// `i16x8.neg`, opcode `fd 81`.
    I16x8Neg,
    /// `i16x8.q15mulr_sat_s`, opcode `fd 82`.
    I16x8Q15MulrSatS,
    /// `i16x8.all_true`, opcode `fd 83`.
    I16x8AllTrue,
    /// `i16x8.bitmask`, opcode `fd 84`.
    I16x8Bitmask,
    /// `i16x8.narrow_i32x4_s`, opcode `fd 85`.
    I16x8NarrowI32x4S,
    /// `i16x8.narrow_i32x4_u`, opcode `fd 86`.
    I16x8NarrowI32x4U,
    /// `i16x8.extend_low_i8x16_s`, opcode `fd 87`.
    I16x8ExtendLowI8x16S,
    /// `i16x8.extend_high_i8x16_s`, opcode `fd 88`.
    I16x8ExtendHighI8x16S,
    /// `i16x8.extend_low_i8x16_u`, opcode `fd 89`.
    I16x8ExtendLowI8x16U,
    /// `i16x8.extend_high_i8x16_u`, opcode `fd 8a`.
    I16x8ExtendHighI8x16U,
    /// `i16x8.shl`, opcode `fd 8b`.
    I16x8Shl,
    /// `i16x8.shr_s`, opcode `fd 8c`.
    I16x8ShrS,
    /// `i16x8.shr_u`, opcode `fd 8d`.
    I16x8ShrU,
    /// `i16x8.add`, opcode `fd 8e`.
    I16x8Add,
    /// `i16x8.add_sat_s`, opcode `fd 8f`.
    I16x8AddSatS,
    /// `i16x8.add_sat_u`, opcode `fd 90`.
    I16x8AddSatU,
    /// `i16x8.sub`, opcode `fd 91`.
    I16x8Sub,
    /// `i16x8.sub_sat_s`, opcode `fd 92`.
    I16x8SubSatS,
    /// `i16x8.sub_sat_u`, opcode `fd 93`.
    I16x8SubSatU,
    /// `f64x2.nearest`, opcode `fd 94`.
    F64x2Nearest,
    /// `i16x8.mul`, opcode `fd 95`.
    I16x8Mul,
    /// `i16x8.min_s`, opcode `fd 96`.
    I16x8MinS,
    /// `i16x8.min_u`, opcode `fd 97`.
    I16x8MinU,
    /// `i16x8.max_s`, opcode `fd 98`.
    I16x8MaxS,
    /// `i16x8.max_u`, opcode `fd 99`.
    I16x8MaxU,
    /// `i16x8.avgr_u`, opcode `fd 9b`.
    I16x8AvgrU,
    /// `i16x8.extmul_low_i8x16_s`, opcode `fd 9c`.
    I16x8ExtMulLowI8x16S,
    /// `i16x8.extmul_high_i8x16_s`, opcode `fd 9d`.
    I16x8ExtMulHighI8x16S,
    /// `i16x8.extmul_low_i8x16_u`, opcode `fd 9e`.
    I16x8ExtMulLowI8x16U,
    /// `i16x8.extmul_high_i8x16_u`, opcode `fd 9f`.
    I16x8ExtMulHighI8x16U,
    /// `i32x4.abs`, opcode `fd a0`.
    I32x4Abs,
    /// `i32x4.neg`, opcode `fd a1`.
    I32x4Neg,
    /// `i32x4.all_true`, opcode `fd a3`.
    I32x4AllTrue,
    /// `i32x4.bitmask`, opcode `fd a4`.
    I32x4Bitmask,
    /// `i32x4.extend_low_i16x8_s`, opcode `fd a7`.
    I32x4ExtendLowI16x8S,
    /// `i32x4.extend_high_i16x8_s`, opcode `fd a8`.
    I32x4ExtendHighI16x8S,
    /// `i32x4.extend_low_i16x8_u`, opcode `fd a9`.
    I32x4ExtendLowI16x8U,
    /// `i32x4.extend_high_i16x8_u`, opcode `fd aa`.
    I32x4ExtendHighI16x8U,
    /// `i32x4.shl`, opcode `fd ab`.
    I32x4Shl,
    /// `i32x4.shr_s`, opcode `fd ac`.
    I32x4ShrS,
    /// `i32x4.shr_u`, opcode `fd ad`.
    I32x4ShrU,
    /// `i32x4.add`, opcode `fd ae`.
    I32x4Add,
    /// `i32x4.sub`, opcode `fd b1`.
    I32x4Sub,
    /// `i32x4.mul`, opcode `fd b5`.
    I32x4Mul,
    /// `i32x4.min_s`, opcode `fd b6`.
    I32x4MinS,
    /// `i32x4.min_u`, opcode `fd b7`.
    I32x4MinU,
    /// `i32x4.max_s`, opcode `fd b8`.
    I32x4MaxS,
    /// `i32x4.max_u`, opcode `fd b9`.
    I32x4MaxU,
    /// `i32x4.dot_i16x8_s`, opcode `fd ba`.
    I32x4DotI16x8S,
    /// `i32x4.extmul_low_i16x8_s`, opcode `fd bc`.
    I32x4ExtMulLowI16x8S,
    /// `i32x4.extmul_high_i16x8_s`, opcode `fd bd`.
    I32x4ExtMulHighI16x8S,
    /// `i32x4.extmul_low_i16x8_u`, opcode `fd be`.
    I32x4ExtMulLowI16x8U,
    /// `i32x4.extmul_high_i16x8_u`, opcode `fd bf`.
    I32x4ExtMulHighI16x8U,
    /// `i64x2.abs`, opcode `fd c0`.
    I64x2Abs,
    /// `i64x2.neg`, opcode `fd c1`.
    I64x2Neg,
    /// `i64x2.all_true`, opcode `fd c3`.
    I64x2AllTrue,
    /// `i64x2.bitmask`, opcode `fd c4`.
    I64x2Bitmask,
    /// `i64x2.extend_low_i32x4_s`, opcode `fd c7`.
    I64x2ExtendLowI32x4S,
    /// `i64x2.extend_high_i32x4_s`, opcode `fd c8`.
    I64x2ExtendHighI32x4S,
    /// `i64x2.extend_low_i32x4_u`, opcode `fd c9`.
    I64x2ExtendLowI32x4U,
    /// `i64x2.extend_high_i32x4_u`, opcode `fd ca`.
    I64x2ExtendHighI32x4U,
    /// `i64x2.shl`, opcode `fd cb`.
    I64x2Shl,
    /// `i64x2.shr_s`, opcode `fd cc`.
    I64x2ShrS,
    /// `i64x2.shr_u`, opcode `fd cd`.
    I64x2ShrU,
    /// `i64x2.add`, opcode `fd ce`.
    I64x2Add,
    /// `i64x2.sub`, opcode `fd d1`.
    I64x2Sub,
    /// `i64x2.mul`, opcode `fd d5`.
    I64x2Mul,
    /// `i64x2.eq`, opcode `fd d6`.
    I64x2Eq,
    /// `i64x2.ne`, opcode `fd d7`.
    I64x2Ne,
    /// `i64x2.lt_s`, opcode `fd d8`.
    I64x2LtS,
    /// `i64x2.gt_s`, opcode `fd d9`.
    I64x2GtS,
    /// `i64x2.le_s`, opcode `fd da`.
    I64x2LeS,
    /// `i64x2.ge_s`, opcode `fd db`.
    I64x2GeS,
    /// `i64x2.extmul_low_i32x4_s`, opcode `fd dc`.
    I64x2ExtMulLowI32x4S,
    /// `i64x2.extmul_high_i32x4_s`, opcode `fd dd`.
    I64x2ExtMulHighI32x4S,
    /// `i64x2.extmul_low_i32x4_u`, opcode `fd de`.
    I64x2ExtMulLowI32x4U,
    /// `i64x2.extmul_high_i32x4_u`, opcode `fd df`.
    I64x2ExtMulHighI32x4U,
    /// `f32x4.abs`, opcode `fd e0`.
    F32x4Abs,
    /// `f32x4.neg`, opcode `fd e1`.
    F32x4Neg,
    /// `f32x4.sqrt`, opcode `fd e3`.
    F32x4Sqrt,
    /// `f32x4.add`, opcode `fd e4`.
    F32x4Add,
    /// `f32x4.sub`, opcode `fd e5`.
    F32x4Sub,
    /// `f32x4.mul`, opcode `fd e6`.
    F32x4Mul,
    /// `f32x4.div`, opcode `fd e7`.
    F32x4Div,
    /// `f32x4.min`, opcode `fd e8`.
    F32x4Min,
    /// `f32x4.max`, opcode `fd e9`.
    F32x4Max,
    /// `f32x4.pmin`, opcode `fd ea`.
    F32x4PMin,
    /// `f32x4.pmax`, opcode `fd eb`.
    F32x4PMax,
    /// `f64x2.abs`, opcode `fd ec`.
    F64x2Abs,
    /// `f64x2.neg`, opcode `fd ed`.
    F64x2Neg,
    /// `f64x2.sqrt`, opcode `fd ef`.
    F64x2Sqrt,
    /// `f64x2.add`, opcode `fd f0`.
    F64x2Add,
    /// `f64x2.sub`, opcode `fd f1`.
    F64x2Sub,
    /// `f64x2.mul`, opcode `fd f2`.
    F64x2Mul,
    /// `f64x2.div`, opcode `fd f3`.
    F64x2Div,
    /// `f64x2.min`, opcode `fd f4`.
    F64x2Min,
    /// `f64x2.max`, opcode `fd f5`.
    F64x2Max,
    /// `f64x2.pmin`, opcode `fd f6`.
    F64x2PMin,
    /// `f64x2.pmax`, opcode `fd f7`.
    F64x2PMax,
    /// `i32x4.trunc_sat_f32x4_s`, opcode `fd f8`.
    I32x4TruncSatF32x4S,
    /// `i32x4.trunc_sat_f32x4_u`, opcode `fd f9`.
    I32x4TruncSatF32x4U,
    /// `f32x4.convert_i32x4_s`, opcode `fd fa`.
    F32x4ConvertI32x4S,
    /// `f32x4.convert_i32x4_u`, opcode `fd fb`.
    F32x4ConvertI32x4U,
    /// `i32x4.trunc_sat_f64x2_s_zero`, opcode `fd fc`.
    I32x4TruncSatF64x2SZero,
    /// `i32x4.trunc_sat_f64x2_u_zero`, opcode `fd fd`.
    I32x4TruncSatF64x2UZero,
    /// `f64x2.convert_low_i32x4_s`, opcode `fd fe`.
    F64x2ConvertLowI32x4S,
    /// `f64x2.convert_low_i32x4_u`, opcode `fd ff`.
    F64x2ConvertLowI32x4U,
    /// `i8x16.relaxed_swizzle`, opcode `fd 100`.
    I8x16RelaxedSwizzle,
    /// `i32x4.relaxed_trunc_f32x4_s`, opcode `fd 101`.
    I32x4RelaxedTruncF32x4S,
    /// `i32x4.relaxed_trunc_f32x4_u`, opcode `fd 102`.
    I32x4RelaxedTruncF32x4U,
    /// `i32x4.relaxed_trunc_f64x2_s_zero`, opcode `fd 103`.
    I32x4RelaxedTruncF64x2SZero,
    /// `i32x4.relaxed_trunc_f64x2_u_zero`, opcode `fd 104`.
    I32x4RelaxedTruncF64x2UZero,
    /// `f32x4.relaxed_madd`, opcode `fd 105`.
    F32x4RelaxedMadd,
    /// `f32x4.relaxed_nmadd`, opcode `fd 106`.
    F32x4RelaxedNmadd,
    /// `f64x2.relaxed_madd`, opcode `fd 107`.
    F64x2RelaxedMadd,
    /// `f64x2.relaxed_nmadd`, opcode `fd 108`.
    F64x2RelaxedNmadd,
    /// `i8x16.relaxed_laneselect`, opcode `fd 109`.
    I8x16RelaxedLaneselect,
    /// `i16x8.relaxed_laneselect`, opcode `fd 10a`.
    I16x8RelaxedLaneselect,
    /// `i32x4.relaxed_laneselect`, opcode `fd 10b`.
    I32x4RelaxedLaneselect,
    /// `i64x2.relaxed_laneselect`, opcode `fd 10c`.
    I64x2RelaxedLaneselect,
    /// `f32x4.relaxed_min`, opcode `fd 10d`.
    F32x4RelaxedMin,
    /// `f32x4.relaxed_max`, opcode `fd 10e`.
    F32x4RelaxedMax,
    /// `f64x2.relaxed_min`, opcode `fd 10f`.
    F64x2RelaxedMin,
    /// `f64x2.relaxed_max`, opcode `fd 110`.
    F64x2RelaxedMax,
    /// `i16x8.relaxed_q15mulr_s`, opcode `fd 111`.
    I16x8RelaxedQ15mulrS,
    /// `i16x8.relaxed_dot_i8x16_i7x16_s`, opcode `fd 112`.
    I16x8RelaxedDotI8x16I7x16S,
    /// `i32x4.relaxed_dot_i8x16_i7x16_add_s`, opcode `fd 113`.
    I32x4RelaxedDotI8x16I7x16AddS,
}

impl SimdNumericOperator {
    ghost use Rattle.wasm_operators_enums.specs.VectorsTable.{simd_numeric_info};

    /// What is told of it: its proposal, name, prefix and code.
    pub fn info(&self) -> OperatorInfo
        ensures { told result ≡ simd_numeric_info self.now }
    {
        match self {
            Self::I8x16Swizzle => simd("i8x16.swizzle", 0x0e),
            Self::I8x16Splat => simd("i8x16.splat", 0x0f),
            Self::I16x8Splat => simd("i16x8.splat", 0x10),
            Self::I32x4Splat => simd("i32x4.splat", 0x11),
            Self::I64x2Splat => simd("i64x2.splat", 0x12),
            Self::F32x4Splat => simd("f32x4.splat", 0x13),
            Self::F64x2Splat => simd("f64x2.splat", 0x14),
            Self::I8x16Eq => simd("i8x16.eq", 0x23),
            Self::I8x16Ne => simd("i8x16.ne", 0x24),
            Self::I8x16LtS => simd("i8x16.lt_s", 0x25),
            Self::I8x16LtU => simd("i8x16.lt_u", 0x26),
            Self::I8x16GtS => simd("i8x16.gt_s", 0x27),
            Self::I8x16GtU => simd("i8x16.gt_u", 0x28),
            Self::I8x16LeS => simd("i8x16.le_s", 0x29),
            Self::I8x16LeU => simd("i8x16.le_u", 0x2a),
            Self::I8x16GeS => simd("i8x16.ge_s", 0x2b),
            Self::I8x16GeU => simd("i8x16.ge_u", 0x2c),
            Self::I16x8Eq => simd("i16x8.eq", 0x2d),
            Self::I16x8Ne => simd("i16x8.ne", 0x2e),
            Self::I16x8LtS => simd("i16x8.lt_s", 0x2f),
            Self::I16x8LtU => simd("i16x8.lt_u", 0x30),
            Self::I16x8GtS => simd("i16x8.gt_s", 0x31),
            Self::I16x8GtU => simd("i16x8.gt_u", 0x32),
            Self::I16x8LeS => simd("i16x8.le_s", 0x33),
            Self::I16x8LeU => simd("i16x8.le_u", 0x34),
            Self::I16x8GeS => simd("i16x8.ge_s", 0x35),
            Self::I16x8GeU => simd("i16x8.ge_u", 0x36),
            Self::I32x4Eq => simd("i32x4.eq", 0x37),
            Self::I32x4Ne => simd("i32x4.ne", 0x38),
            Self::I32x4LtS => simd("i32x4.lt_s", 0x39),
            Self::I32x4LtU => simd("i32x4.lt_u", 0x3a),
            Self::I32x4GtS => simd("i32x4.gt_s", 0x3b),
            Self::I32x4GtU => simd("i32x4.gt_u", 0x3c),
            Self::I32x4LeS => simd("i32x4.le_s", 0x3d),
            Self::I32x4LeU => simd("i32x4.le_u", 0x3e),
            Self::I32x4GeS => simd("i32x4.ge_s", 0x3f),
            Self::I32x4GeU => simd("i32x4.ge_u", 0x40),
            Self::F32x4Eq => simd("f32x4.eq", 0x41),
            Self::F32x4Ne => simd("f32x4.ne", 0x42),
            Self::F32x4Lt => simd("f32x4.lt", 0x43),
            Self::F32x4Gt => simd("f32x4.gt", 0x44),
            Self::F32x4Le => simd("f32x4.le", 0x45),
            Self::F32x4Ge => simd("f32x4.ge", 0x46),
            Self::F64x2Eq => simd("f64x2.eq", 0x47),
            Self::F64x2Ne => simd("f64x2.ne", 0x48),
            Self::F64x2Lt => simd("f64x2.lt", 0x49),
            Self::F64x2Gt => simd("f64x2.gt", 0x4a),
            Self::F64x2Le => simd("f64x2.le", 0x4b),
            Self::F64x2Ge => simd("f64x2.ge", 0x4c),
            Self::V128Not => simd("v128.not", 0x4d),
            Self::V128And => simd("v128.and", 0x4e),
            Self::V128AndNot => simd("v128.andnot", 0x4f),
            Self::V128Or => simd("v128.or", 0x50),
            Self::V128Xor => simd("v128.xor", 0x51),
            Self::V128Bitselect => simd("v128.bitselect", 0x52),
            Self::V128AnyTrue => simd("v128.any_true", 0x53),
            Self::F32x4DemoteF64x2Zero => simd("f32x4.demote_f64x2_zero", 0x5e),
            Self::F64x2PromoteLowF32x4 => simd("f64x2.promote_low_f32x4", 0x5f),
            Self::I8x16Abs => simd("i8x16.abs", 0x60),
            Self::I8x16Neg => simd("i8x16.neg", 0x61),
            Self::I8x16Popcnt => simd("i8x16.popcnt", 0x62),
            Self::I8x16AllTrue => simd("i8x16.all_true", 0x63),
            Self::I8x16Bitmask => simd("i8x16.bitmask", 0x64),
            Self::I8x16NarrowI16x8S => simd("i8x16.narrow_i16x8_s", 0x65),
            Self::I8x16NarrowI16x8U => simd("i8x16.narrow_i16x8_u", 0x66),
            Self::F32x4Ceil => simd("f32x4.ceil", 0x67),
            Self::F32x4Floor => simd("f32x4.floor", 0x68),
            Self::F32x4Trunc => simd("f32x4.trunc", 0x69),
            Self::F32x4Nearest => simd("f32x4.nearest", 0x6a),
            Self::I8x16Shl => simd("i8x16.shl", 0x6b),
            Self::I8x16ShrS => simd("i8x16.shr_s", 0x6c),
            Self::I8x16ShrU => simd("i8x16.shr_u", 0x6d),
            Self::I8x16Add => simd("i8x16.add", 0x6e),
            Self::I8x16AddSatS => simd("i8x16.add_sat_s", 0x6f),
            Self::I8x16AddSatU => simd("i8x16.add_sat_u", 0x70),
            Self::I8x16Sub => simd("i8x16.sub", 0x71),
            Self::I8x16SubSatS => simd("i8x16.sub_sat_s", 0x72),
            Self::I8x16SubSatU => simd("i8x16.sub_sat_u", 0x73),
            Self::F64x2Ceil => simd("f64x2.ceil", 0x74),
            Self::F64x2Floor => simd("f64x2.floor", 0x75),
            Self::I8x16MinS => simd("i8x16.min_s", 0x76),
            Self::I8x16MinU => simd("i8x16.min_u", 0x77),
            Self::I8x16MaxS => simd("i8x16.max_s", 0x78),
            Self::I8x16MaxU => simd("i8x16.max_u", 0x79),
            Self::F64x2Trunc => simd("f64x2.trunc", 0x7a),
            Self::I8x16AvgrU => simd("i8x16.avgr_u", 0x7b),
            Self::I16x8ExtAddPairwiseI8x16S => simd("i16x8.extadd_pairwise_i8x16_s", 0x7c),
            Self::I16x8ExtAddPairwiseI8x16U => simd("i16x8.extadd_pairwise_i8x16_u", 0x7d),
            Self::I32x4ExtAddPairwiseI16x8S => simd("i32x4.extadd_pairwise_i16x8_s", 0x7e),
            Self::I32x4ExtAddPairwiseI16x8U => simd("i32x4.extadd_pairwise_i16x8_u", 0x7f),
            Self::I16x8Abs => simd("i16x8.abs", 0x80),
            Self::I16x8Neg => simd("i16x8.neg", 0x81),
            Self::I16x8Q15MulrSatS => simd("i16x8.q15mulr_sat_s", 0x82),
            Self::I16x8AllTrue => simd("i16x8.all_true", 0x83),
            Self::I16x8Bitmask => simd("i16x8.bitmask", 0x84),
            Self::I16x8NarrowI32x4S => simd("i16x8.narrow_i32x4_s", 0x85),
            Self::I16x8NarrowI32x4U => simd("i16x8.narrow_i32x4_u", 0x86),
            Self::I16x8ExtendLowI8x16S => simd("i16x8.extend_low_i8x16_s", 0x87),
            Self::I16x8ExtendHighI8x16S => simd("i16x8.extend_high_i8x16_s", 0x88),
            Self::I16x8ExtendLowI8x16U => simd("i16x8.extend_low_i8x16_u", 0x89),
            Self::I16x8ExtendHighI8x16U => simd("i16x8.extend_high_i8x16_u", 0x8a),
            Self::I16x8Shl => simd("i16x8.shl", 0x8b),
            Self::I16x8ShrS => simd("i16x8.shr_s", 0x8c),
            Self::I16x8ShrU => simd("i16x8.shr_u", 0x8d),
            Self::I16x8Add => simd("i16x8.add", 0x8e),
            Self::I16x8AddSatS => simd("i16x8.add_sat_s", 0x8f),
            Self::I16x8AddSatU => simd("i16x8.add_sat_u", 0x90),
            Self::I16x8Sub => simd("i16x8.sub", 0x91),
            Self::I16x8SubSatS => simd("i16x8.sub_sat_s", 0x92),
            Self::I16x8SubSatU => simd("i16x8.sub_sat_u", 0x93),
            Self::F64x2Nearest => simd("f64x2.nearest", 0x94),
            Self::I16x8Mul => simd("i16x8.mul", 0x95),
            Self::I16x8MinS => simd("i16x8.min_s", 0x96),
            Self::I16x8MinU => simd("i16x8.min_u", 0x97),
            Self::I16x8MaxS => simd("i16x8.max_s", 0x98),
            Self::I16x8MaxU => simd("i16x8.max_u", 0x99),
            Self::I16x8AvgrU => simd("i16x8.avgr_u", 0x9b),
            Self::I16x8ExtMulLowI8x16S => simd("i16x8.extmul_low_i8x16_s", 0x9c),
            Self::I16x8ExtMulHighI8x16S => simd("i16x8.extmul_high_i8x16_s", 0x9d),
            Self::I16x8ExtMulLowI8x16U => simd("i16x8.extmul_low_i8x16_u", 0x9e),
            Self::I16x8ExtMulHighI8x16U => simd("i16x8.extmul_high_i8x16_u", 0x9f),
            Self::I32x4Abs => simd("i32x4.abs", 0xa0),
            Self::I32x4Neg => simd("i32x4.neg", 0xa1),
            Self::I32x4AllTrue => simd("i32x4.all_true", 0xa3),
            Self::I32x4Bitmask => simd("i32x4.bitmask", 0xa4),
            Self::I32x4ExtendLowI16x8S => simd("i32x4.extend_low_i16x8_s", 0xa7),
            Self::I32x4ExtendHighI16x8S => simd("i32x4.extend_high_i16x8_s", 0xa8),
            Self::I32x4ExtendLowI16x8U => simd("i32x4.extend_low_i16x8_u", 0xa9),
            Self::I32x4ExtendHighI16x8U => simd("i32x4.extend_high_i16x8_u", 0xaa),
            Self::I32x4Shl => simd("i32x4.shl", 0xab),
            Self::I32x4ShrS => simd("i32x4.shr_s", 0xac),
            Self::I32x4ShrU => simd("i32x4.shr_u", 0xad),
            Self::I32x4Add => simd("i32x4.add", 0xae),
            Self::I32x4Sub => simd("i32x4.sub", 0xb1),
            Self::I32x4Mul => simd("i32x4.mul", 0xb5),
            Self::I32x4MinS => simd("i32x4.min_s", 0xb6),
            Self::I32x4MinU => simd("i32x4.min_u", 0xb7),
            Self::I32x4MaxS => simd("i32x4.max_s", 0xb8),
            Self::I32x4MaxU => simd("i32x4.max_u", 0xb9),
            Self::I32x4DotI16x8S => simd("i32x4.dot_i16x8_s", 0xba),
            Self::I32x4ExtMulLowI16x8S => simd("i32x4.extmul_low_i16x8_s", 0xbc),
            Self::I32x4ExtMulHighI16x8S => simd("i32x4.extmul_high_i16x8_s", 0xbd),
            Self::I32x4ExtMulLowI16x8U => simd("i32x4.extmul_low_i16x8_u", 0xbe),
            Self::I32x4ExtMulHighI16x8U => simd("i32x4.extmul_high_i16x8_u", 0xbf),
            Self::I64x2Abs => simd("i64x2.abs", 0xc0),
            Self::I64x2Neg => simd("i64x2.neg", 0xc1),
            Self::I64x2AllTrue => simd("i64x2.all_true", 0xc3),
            Self::I64x2Bitmask => simd("i64x2.bitmask", 0xc4),
            Self::I64x2ExtendLowI32x4S => simd("i64x2.extend_low_i32x4_s", 0xc7),
            Self::I64x2ExtendHighI32x4S => simd("i64x2.extend_high_i32x4_s", 0xc8),
            Self::I64x2ExtendLowI32x4U => simd("i64x2.extend_low_i32x4_u", 0xc9),
            Self::I64x2ExtendHighI32x4U => simd("i64x2.extend_high_i32x4_u", 0xca),
            Self::I64x2Shl => simd("i64x2.shl", 0xcb),
            Self::I64x2ShrS => simd("i64x2.shr_s", 0xcc),
            Self::I64x2ShrU => simd("i64x2.shr_u", 0xcd),
            Self::I64x2Add => simd("i64x2.add", 0xce),
            Self::I64x2Sub => simd("i64x2.sub", 0xd1),
            Self::I64x2Mul => simd("i64x2.mul", 0xd5),
            Self::I64x2Eq => simd("i64x2.eq", 0xd6),
            Self::I64x2Ne => simd("i64x2.ne", 0xd7),
            Self::I64x2LtS => simd("i64x2.lt_s", 0xd8),
            Self::I64x2GtS => simd("i64x2.gt_s", 0xd9),
            Self::I64x2LeS => simd("i64x2.le_s", 0xda),
            Self::I64x2GeS => simd("i64x2.ge_s", 0xdb),
            Self::I64x2ExtMulLowI32x4S => simd("i64x2.extmul_low_i32x4_s", 0xdc),
            Self::I64x2ExtMulHighI32x4S => simd("i64x2.extmul_high_i32x4_s", 0xdd),
            Self::I64x2ExtMulLowI32x4U => simd("i64x2.extmul_low_i32x4_u", 0xde),
            Self::I64x2ExtMulHighI32x4U => simd("i64x2.extmul_high_i32x4_u", 0xdf),
            Self::F32x4Abs => simd("f32x4.abs", 0xe0),
            Self::F32x4Neg => simd("f32x4.neg", 0xe1),
            Self::F32x4Sqrt => simd("f32x4.sqrt", 0xe3),
            Self::F32x4Add => simd("f32x4.add", 0xe4),
            Self::F32x4Sub => simd("f32x4.sub", 0xe5),
            Self::F32x4Mul => simd("f32x4.mul", 0xe6),
            Self::F32x4Div => simd("f32x4.div", 0xe7),
            Self::F32x4Min => simd("f32x4.min", 0xe8),
            Self::F32x4Max => simd("f32x4.max", 0xe9),
            Self::F32x4PMin => simd("f32x4.pmin", 0xea),
            Self::F32x4PMax => simd("f32x4.pmax", 0xeb),
            Self::F64x2Abs => simd("f64x2.abs", 0xec),
            Self::F64x2Neg => simd("f64x2.neg", 0xed),
            Self::F64x2Sqrt => simd("f64x2.sqrt", 0xef),
            Self::F64x2Add => simd("f64x2.add", 0xf0),
            Self::F64x2Sub => simd("f64x2.sub", 0xf1),
            Self::F64x2Mul => simd("f64x2.mul", 0xf2),
            Self::F64x2Div => simd("f64x2.div", 0xf3),
            Self::F64x2Min => simd("f64x2.min", 0xf4),
            Self::F64x2Max => simd("f64x2.max", 0xf5),
            Self::F64x2PMin => simd("f64x2.pmin", 0xf6),
            Self::F64x2PMax => simd("f64x2.pmax", 0xf7),
            Self::I32x4TruncSatF32x4S => simd("i32x4.trunc_sat_f32x4_s", 0xf8),
            Self::I32x4TruncSatF32x4U => simd("i32x4.trunc_sat_f32x4_u", 0xf9),
            Self::F32x4ConvertI32x4S => simd("f32x4.convert_i32x4_s", 0xfa),
            Self::F32x4ConvertI32x4U => simd("f32x4.convert_i32x4_u", 0xfb),
            Self::I32x4TruncSatF64x2SZero => simd("i32x4.trunc_sat_f64x2_s_zero", 0xfc),
            Self::I32x4TruncSatF64x2UZero => simd("i32x4.trunc_sat_f64x2_u_zero", 0xfd),
            Self::F64x2ConvertLowI32x4S => simd("f64x2.convert_low_i32x4_s", 0xfe),
            Self::F64x2ConvertLowI32x4U => simd("f64x2.convert_low_i32x4_u", 0xff),
            Self::I8x16RelaxedSwizzle => relaxed("i8x16.relaxed_swizzle", 0x100),
            Self::I32x4RelaxedTruncF32x4S => relaxed("i32x4.relaxed_trunc_f32x4_s", 0x101),
            Self::I32x4RelaxedTruncF32x4U => relaxed("i32x4.relaxed_trunc_f32x4_u", 0x102),
            Self::I32x4RelaxedTruncF64x2SZero => relaxed("i32x4.relaxed_trunc_f64x2_s_zero", 0x103),
            Self::I32x4RelaxedTruncF64x2UZero => relaxed("i32x4.relaxed_trunc_f64x2_u_zero", 0x104),
            Self::F32x4RelaxedMadd => relaxed("f32x4.relaxed_madd", 0x105),
            Self::F32x4RelaxedNmadd => relaxed("f32x4.relaxed_nmadd", 0x106),
            Self::F64x2RelaxedMadd => relaxed("f64x2.relaxed_madd", 0x107),
            Self::F64x2RelaxedNmadd => relaxed("f64x2.relaxed_nmadd", 0x108),
            Self::I8x16RelaxedLaneselect => relaxed("i8x16.relaxed_laneselect", 0x109),
            Self::I16x8RelaxedLaneselect => relaxed("i16x8.relaxed_laneselect", 0x10a),
            Self::I32x4RelaxedLaneselect => relaxed("i32x4.relaxed_laneselect", 0x10b),
            Self::I64x2RelaxedLaneselect => relaxed("i64x2.relaxed_laneselect", 0x10c),
            Self::F32x4RelaxedMin => relaxed("f32x4.relaxed_min", 0x10d),
            Self::F32x4RelaxedMax => relaxed("f32x4.relaxed_max", 0x10e),
            Self::F64x2RelaxedMin => relaxed("f64x2.relaxed_min", 0x10f),
            Self::F64x2RelaxedMax => relaxed("f64x2.relaxed_max", 0x110),
            Self::I16x8RelaxedQ15mulrS => relaxed("i16x8.relaxed_q15mulr_s", 0x111),
            Self::I16x8RelaxedDotI8x16I7x16S => relaxed("i16x8.relaxed_dot_i8x16_i7x16_s", 0x112),
            Self::I32x4RelaxedDotI8x16I7x16AddS => relaxed(
                "i32x4.relaxed_dot_i8x16_i7x16_add_s",
                0x113,
            ),
        }
    }
}
