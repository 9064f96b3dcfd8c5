//! Vectors: memory accesses, constants and lanes.

ghost use Rattle.std.specs.Prelude.{◌≡◌, Some};
ghost use Rattle.wasm_operators_immediates.specs.Info.{told, row};
ghost use Rattle.wasm_operators_immediates.specs.declared.proposal.Proposal.TheVariants as Proposal;

use wasm_operators_immediates::{MemArg, OperatorInfo, Proposal, V128};

// A row of the proposal, behind `fd`.
fn simd(name: &'static str, code: u32) -> OperatorInfo
    ensures { told result ≡ row Proposal.Simd name.now (Some 0xfd) code }
{
    OperatorInfo::prefixed(Proposal::Simd, name, 0xfd, code)
}

/// Operators on vectors that carry something (WebAssembly 3.0, structure, vector instructions).
#[derive(Clone, Copy, PartialEq, Eq)]
pub enum SimdOperator {
    /// `v128.load`, opcode `fd 00`.
    V128Load { memarg: MemArg },
    /// `v128.load8x8_s`, opcode `fd 01`.
    V128Load8x8S { memarg: MemArg },
    /// `v128.load8x8_u`, opcode `fd 02`.
    V128Load8x8U { memarg: MemArg },
    /// `v128.load16x4_s`, opcode `fd 03`.
    V128Load16x4S { memarg: MemArg },
    /// `v128.load16x4_u`, opcode `fd 04`.
    V128Load16x4U { memarg: MemArg },
    /// `v128.load32x2_s`, opcode `fd 05`.
    V128Load32x2S { memarg: MemArg },
    /// `v128.load32x2_u`, opcode `fd 06`.
    V128Load32x2U { memarg: MemArg },
    /// `v128.load8_splat`, opcode `fd 07`.
    V128Load8Splat { memarg: MemArg },
    /// `v128.load16_splat`, opcode `fd 08`.
    V128Load16Splat { memarg: MemArg },
    /// `v128.load32_splat`, opcode `fd 09`.
    V128Load32Splat { memarg: MemArg },
    /// `v128.load64_splat`, opcode `fd 0a`.
    V128Load64Splat { memarg: MemArg },
    /// `v128.store`, opcode `fd 0b`.
    V128Store { memarg: MemArg },
    /// `v128.const`, opcode `fd 0c`.
    V128Const { value: V128 },
    /// `i8x16.shuffle`, opcode `fd 0d`.
    I8x16Shuffle { lanes: [u8; 16] },
    /// `i8x16.extract_lane_s`, opcode `fd 15`.
    I8x16ExtractLaneS { lane: u8 },
    /// `i8x16.extract_lane_u`, opcode `fd 16`.
    I8x16ExtractLaneU { lane: u8 },
    /// `i8x16.replace_lane`, opcode `fd 17`.
    I8x16ReplaceLane { lane: u8 },
    /// `i16x8.extract_lane_s`, opcode `fd 18`.
    I16x8ExtractLaneS { lane: u8 },
    /// `i16x8.extract_lane_u`, opcode `fd 19`.
    I16x8ExtractLaneU { lane: u8 },
    /// `i16x8.replace_lane`, opcode `fd 1a`.
    I16x8ReplaceLane { lane: u8 },
    /// `i32x4.extract_lane`, opcode `fd 1b`.
    I32x4ExtractLane { lane: u8 },
    /// `i32x4.replace_lane`, opcode `fd 1c`.
    I32x4ReplaceLane { lane: u8 },
    /// `i64x2.extract_lane`, opcode `fd 1d`.
    I64x2ExtractLane { lane: u8 },
    /// `i64x2.replace_lane`, opcode `fd 1e`.
    I64x2ReplaceLane { lane: u8 },
    /// `f32x4.extract_lane`, opcode `fd 1f`.
    F32x4ExtractLane { lane: u8 },
    /// `f32x4.replace_lane`, opcode `fd 20`.
    F32x4ReplaceLane { lane: u8 },
    /// `f64x2.extract_lane`, opcode `fd 21`.
    F64x2ExtractLane { lane: u8 },
    /// `f64x2.replace_lane`, opcode `fd 22`.
    F64x2ReplaceLane { lane: u8 },
    /// `v128.load8_lane`, opcode `fd 54`.
    V128Load8Lane { memarg: MemArg, lane: u8 },
    /// `v128.load16_lane`, opcode `fd 55`.
    V128Load16Lane { memarg: MemArg, lane: u8 },
    /// `v128.load32_lane`, opcode `fd 56`.
    V128Load32Lane { memarg: MemArg, lane: u8 },
    /// `v128.load64_lane`, opcode `fd 57`.
    V128Load64Lane { memarg: MemArg, lane: u8 },
    /// `v128.store8_lane`, opcode `fd 58`.
    V128Store8Lane { memarg: MemArg, lane: u8 },
    /// `v128.store16_lane`, opcode `fd 59`.
    V128Store16Lane { memarg: MemArg, lane: u8 },
    /// `v128.store32_lane`, opcode `fd 5a`.
    V128Store32Lane { memarg: MemArg, lane: u8 },
    /// `v128.store64_lane`, opcode `fd 5b`.
    V128Store64Lane { memarg: MemArg, lane: u8 },
    /// `v128.load32_zero`, opcode `fd 5c`.
    V128Load32Zero { memarg: MemArg },
    /// `v128.load64_zero`, opcode `fd 5d`.
    V128Load64Zero { memarg: MemArg },
}

impl SimdOperator {
    ghost use Rattle.wasm_operators_enums.specs.VectorsTable.{simd_info};

    /// What is told of it: its proposal, name, prefix and code.
    pub fn info(&self) -> OperatorInfo
        ensures { told result ≡ simd_info self.now }
    {
        match self {
            Self::V128Load { .. } => simd("v128.load", 0x00),
            Self::V128Load8x8S { .. } => simd("v128.load8x8_s", 0x01),
            Self::V128Load8x8U { .. } => simd("v128.load8x8_u", 0x02),
            Self::V128Load16x4S { .. } => simd("v128.load16x4_s", 0x03),
            Self::V128Load16x4U { .. } => simd("v128.load16x4_u", 0x04),
            Self::V128Load32x2S { .. } => simd("v128.load32x2_s", 0x05),
            Self::V128Load32x2U { .. } => simd("v128.load32x2_u", 0x06),
            Self::V128Load8Splat { .. } => simd("v128.load8_splat", 0x07),
            Self::V128Load16Splat { .. } => simd("v128.load16_splat", 0x08),
            Self::V128Load32Splat { .. } => simd("v128.load32_splat", 0x09),
            Self::V128Load64Splat { .. } => simd("v128.load64_splat", 0x0a),
            Self::V128Store { .. } => simd("v128.store", 0x0b),
            Self::V128Const { .. } => simd("v128.const", 0x0c),
            Self::I8x16Shuffle { .. } => simd("i8x16.shuffle", 0x0d),
            Self::I8x16ExtractLaneS { .. } => simd("i8x16.extract_lane_s", 0x15),
            Self::I8x16ExtractLaneU { .. } => simd("i8x16.extract_lane_u", 0x16),
            Self::I8x16ReplaceLane { .. } => simd("i8x16.replace_lane", 0x17),
            Self::I16x8ExtractLaneS { .. } => simd("i16x8.extract_lane_s", 0x18),
            Self::I16x8ExtractLaneU { .. } => simd("i16x8.extract_lane_u", 0x19),
            Self::I16x8ReplaceLane { .. } => simd("i16x8.replace_lane", 0x1a),
            Self::I32x4ExtractLane { .. } => simd("i32x4.extract_lane", 0x1b),
            Self::I32x4ReplaceLane { .. } => simd("i32x4.replace_lane", 0x1c),
            Self::I64x2ExtractLane { .. } => simd("i64x2.extract_lane", 0x1d),
            Self::I64x2ReplaceLane { .. } => simd("i64x2.replace_lane", 0x1e),
            Self::F32x4ExtractLane { .. } => simd("f32x4.extract_lane", 0x1f),
            Self::F32x4ReplaceLane { .. } => simd("f32x4.replace_lane", 0x20),
            Self::F64x2ExtractLane { .. } => simd("f64x2.extract_lane", 0x21),
            Self::F64x2ReplaceLane { .. } => simd("f64x2.replace_lane", 0x22),
            Self::V128Load8Lane { .. } => simd("v128.load8_lane", 0x54),
            Self::V128Load16Lane { .. } => simd("v128.load16_lane", 0x55),
            Self::V128Load32Lane { .. } => simd("v128.load32_lane", 0x56),
            Self::V128Load64Lane { .. } => simd("v128.load64_lane", 0x57),
            Self::V128Store8Lane { .. } => simd("v128.store8_lane", 0x58),
            Self::V128Store16Lane { .. } => simd("v128.store16_lane", 0x59),
            Self::V128Store32Lane { .. } => simd("v128.store32_lane", 0x5a),
            Self::V128Store64Lane { .. } => simd("v128.store64_lane", 0x5b),
            Self::V128Load32Zero { .. } => simd("v128.load32_zero", 0x5c),
            Self::V128Load64Zero { .. } => simd("v128.load64_zero", 0x5d),
        }
    }
}
