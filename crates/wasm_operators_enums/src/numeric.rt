//! Numbers.

ghost use Rattle.std.specs.Prelude.{◌≡◌, Some, None};
ghost use Rattle.wasm_operators_immediates.specs.Info.{told, row};
ghost use Rattle.wasm_operators_immediates.specs.declared.proposal.Proposal.TheVariants as Proposal;

use wasm_operators_immediates::{OperatorInfo, Proposal};

// A row of the first release.
fn mvp(name: &'static str, code: u32) -> OperatorInfo
    ensures { told result ≡ row Proposal.Mvp name.now None code }
{
    OperatorInfo::plain(Proposal::Mvp, name, code)
}

// A row of the proposal, behind `fc`.
fn saturating_float_to_int(name: &'static str, code: u32) -> OperatorInfo
    ensures { told result ≡ row Proposal.SaturatingFloatToInt name.now (Some 0xfc) code }
{
    OperatorInfo::prefixed(Proposal::SaturatingFloatToInt, name, 0xfc, code)
}

/// Operators on numbers that carry nothing (WebAssembly 3.0, structure, numeric instructions; sums and products of 128
/// bits by the proposal on wide arithmetic).
#[derive(Clone, Copy, PartialEq, Eq)]
pub enum NumericOperator {
    /// `i32.eqz`, opcode `45`.
    I32Eqz,
    /// `i32.eq`, opcode `46`.
    I32Eq,
    /// `i32.ne`, opcode `47`.
    I32Ne,
    /// `i32.lt_s`, opcode `48`.
    I32LtS,
    /// `i32.lt_u`, opcode `49`.
    I32LtU,
    /// `i32.gt_s`, opcode `4a`.
    I32GtS,
    /// `i32.gt_u`, opcode `4b`.
    I32GtU,
    /// `i32.le_s`, opcode `4c`.
    I32LeS,
    /// `i32.le_u`, opcode `4d`.
    I32LeU,
    /// `i32.ge_s`, opcode `4e`.
    I32GeS,
    /// `i32.ge_u`, opcode `4f`.
    I32GeU,
    /// `i64.eqz`, opcode `50`.
    I64Eqz,
    /// `i64.eq`, opcode `51`.
    I64Eq,
    /// `i64.ne`, opcode `52`.
    I64Ne,
    /// `i64.lt_s`, opcode `53`.
    I64LtS,
    /// `i64.lt_u`, opcode `54`.
    I64LtU,
    /// `i64.gt_s`, opcode `55`.
    I64GtS,
    /// `i64.gt_u`, opcode `56`.
    I64GtU,
    /// `i64.le_s`, opcode `57`.
    I64LeS,
    /// `i64.le_u`, opcode `58`.
    I64LeU,
    /// `i64.ge_s`, opcode `59`.
    I64GeS,
    /// `i64.ge_u`, opcode `5a`.
    I64GeU,
    /// `f32.eq`, opcode `5b`.
    F32Eq,
    /// `f32.ne`, opcode `5c`.
    F32Ne,
    /// `f32.lt`, opcode `5d`.
    F32Lt,
    /// `f32.gt`, opcode `5e`.
    F32Gt,
    /// `f32.le`, opcode `5f`.
    F32Le,
    /// `f32.ge`, opcode `60`.
    F32Ge,
    /// `f64.eq`, opcode `61`.
    F64Eq,
    /// `f64.ne`, opcode `62`.
    F64Ne,
    /// `f64.lt`, opcode `63`.
    F64Lt,
    /// `f64.gt`, opcode `64`.
    F64Gt,
    /// `f64.le`, opcode `65`.
    F64Le,
    /// `f64.ge`, opcode `66`.
    F64Ge,
    /// `i32.clz`, opcode `67`.
    I32Clz,
    /// `i32.ctz`, opcode `68`.
    I32Ctz,
    /// `i32.popcnt`, opcode `69`.
    I32Popcnt,
    /// `i32.add`, opcode `6a`.
    I32Add,
    /// `i32.sub`, opcode `6b`.
    I32Sub,
    /// `i32.mul`, opcode `6c`.
    I32Mul,
    /// `i32.div_s`, opcode `6d`.
    I32DivS,
    /// `i32.div_u`, opcode `6e`.
    I32DivU,
    /// `i32.rem_s`, opcode `6f`.
    I32RemS,
    /// `i32.rem_u`, opcode `70`.
    I32RemU,
    /// `i32.and`, opcode `71`.
    I32And,
    /// `i32.or`, opcode `72`.
    I32Or,
    /// `i32.xor`, opcode `73`.
    I32Xor,
    /// `i32.shl`, opcode `74`.
    I32Shl,
    /// `i32.shr_s`, opcode `75`.
    I32ShrS,
    /// `i32.shr_u`, opcode `76`.
    I32ShrU,
    /// `i32.rotl`, opcode `77`.
    I32Rotl,
    /// `i32.rotr`, opcode `78`.
    I32Rotr,
    /// `i64.clz`, opcode `79`.
    I64Clz,
    /// `i64.ctz`, opcode `7a`.
    I64Ctz,
    /// `i64.popcnt`, opcode `7b`.
    I64Popcnt,
    /// `i64.add`, opcode `7c`.
    I64Add,
    /// `i64.sub`, opcode `7d`.
    I64Sub,
    /// `i64.mul`, opcode `7e`.
    I64Mul,
    /// `i64.div_s`, opcode `7f`.
    I64DivS,
    /// `i64.div_u`, opcode `80`.
    I64DivU,
    /// `i64.rem_s`, opcode `81`.
    I64RemS,
    /// `i64.rem_u`, opcode `82`.
    I64RemU,
    /// `i64.and`, opcode `83`.
    I64And,
    /// `i64.or`, opcode `84`.
    I64Or,
    /// `i64.xor`, opcode `85`.
    I64Xor,
    /// `i64.shl`, opcode `86`.
    I64Shl,
    /// `i64.shr_s`, opcode `87`.
    I64ShrS,
    /// `i64.shr_u`, opcode `88`.
    I64ShrU,
    /// `i64.rotl`, opcode `89`.
    I64Rotl,
    /// `i64.rotr`, opcode `8a`.
    I64Rotr,
    /// `f32.abs`, opcode `8b`.
    F32Abs,
    /// `f32.neg`, opcode `8c`.
    F32Neg,
    /// `f32.ceil`, opcode `8d`.
    F32Ceil,
    /// `f32.floor`, opcode `8e`.
    F32Floor,
    /// `f32.trunc`, opcode `8f`.
    F32Trunc,
    /// `f32.nearest`, opcode `90`.
    F32Nearest,
    /// `f32.sqrt`, opcode `91`.
    F32Sqrt,
    /// `f32.add`, opcode `92`.
    F32Add,
    /// `f32.sub`, opcode `93`.
    F32Sub,
    /// `f32.mul`, opcode `94`.
    F32Mul,
    /// `f32.div`, opcode `95`.
    F32Div,
    /// `f32.min`, opcode `96`.
    F32Min,
    /// `f32.max`, opcode `97`.
    F32Max,
    /// `f32.copysign`, opcode `98`.
    F32Copysign,
    /// `f64.abs`, opcode `99`.
    F64Abs,
    /// `f64.neg`, opcode `9a`.
    F64Neg,
    /// `f64.ceil`, opcode `9b`.
    F64Ceil,
    /// `f64.floor`, opcode `9c`.
    F64Floor,
    /// `f64.trunc`, opcode `9d`.
    F64Trunc,
    /// `f64.nearest`, opcode `9e`.
    F64Nearest,
    /// `f64.sqrt`, opcode `9f`.
    F64Sqrt,
    /// `f64.add`, opcode `a0`.
    F64Add,
    /// `f64.sub`, opcode `a1`.
    F64Sub,
    /// `f64.mul`, opcode `a2`.
    F64Mul,
    /// `f64.div`, opcode `a3`.
    F64Div,
    /// `f64.min`, opcode `a4`.
    F64Min,
    /// `f64.max`, opcode `a5`.
    F64Max,
    /// `f64.copysign`, opcode `a6`.
    F64Copysign,
    /// `i32.wrap_i64`, opcode `a7`.
    I32WrapI64,
    /// `i32.trunc_f32_s`, opcode `a8`.
    I32TruncF32S,
    /// `i32.trunc_f32_u`, opcode `a9`.
    I32TruncF32U,
    /// `i32.trunc_f64_s`, opcode `aa`.
    I32TruncF64S,
    /// `i32.trunc_f64_u`, opcode `ab`.
    I32TruncF64U,
    /// `i64.extend_i32_s`, opcode `ac`.
    I64ExtendI32S,
    /// `i64.extend_i32_u`, opcode `ad`.
    I64ExtendI32U,
    /// `i64.trunc_f32_s`, opcode `ae`.
    I64TruncF32S,
    /// `i64.trunc_f32_u`, opcode `af`.
    I64TruncF32U,
    /// `i64.trunc_f64_s`, opcode `b0`.
    I64TruncF64S,
    /// `i64.trunc_f64_u`, opcode `b1`.
    I64TruncF64U,
    /// `f32.convert_i32_s`, opcode `b2`.
    F32ConvertI32S,
    /// `f32.convert_i32_u`, opcode `b3`.
    F32ConvertI32U,
    /// `f32.convert_i64_s`, opcode `b4`.
    F32ConvertI64S,
    /// `f32.convert_i64_u`, opcode `b5`.
    F32ConvertI64U,
    /// `f32.demote_f64`, opcode `b6`.
    F32DemoteF64,
    /// `f64.convert_i32_s`, opcode `b7`.
    F64ConvertI32S,
    /// `f64.convert_i32_u`, opcode `b8`.
    F64ConvertI32U,
    /// `f64.convert_i64_s`, opcode `b9`.
    F64ConvertI64S,
    /// `f64.convert_i64_u`, opcode `ba`.
    F64ConvertI64U,
    /// `f64.promote_f32`, opcode `bb`.
    F64PromoteF32,
    /// `i32.reinterpret_f32`, opcode `bc`.
    I32ReinterpretF32,
    /// `i64.reinterpret_f64`, opcode `bd`.
    I64ReinterpretF64,
    /// `f32.reinterpret_i32`, opcode `be`.
    F32ReinterpretI32,
    /// `f64.reinterpret_i64`, opcode `bf`.
    F64ReinterpretI64,
    /// `i32.extend8_s`, opcode `c0`.
    I32Extend8S,
    /// `i32.extend16_s`, opcode `c1`.
    I32Extend16S,
    /// `i64.extend8_s`, opcode `c2`.
    I64Extend8S,
    /// `i64.extend16_s`, opcode `c3`.
    I64Extend16S,
    /// `i64.extend32_s`, opcode `c4`.
    I64Extend32S,
    /// `i32.trunc_sat_f32_s`, opcode `fc 00`.
    I32TruncSatF32S,
    /// `i32.trunc_sat_f32_u`, opcode `fc 01`.
    I32TruncSatF32U,
    /// `i32.trunc_sat_f64_s`, opcode `fc 02`.
    I32TruncSatF64S,
    /// `i32.trunc_sat_f64_u`, opcode `fc 03`.
    I32TruncSatF64U,
    /// `i64.trunc_sat_f32_s`, opcode `fc 04`.
    I64TruncSatF32S,
    /// `i64.trunc_sat_f32_u`, opcode `fc 05`.
    I64TruncSatF32U,
    /// `i64.trunc_sat_f64_s`, opcode `fc 06`.
    I64TruncSatF64S,
    /// `i64.trunc_sat_f64_u`, opcode `fc 07`.
    I64TruncSatF64U,
    /// `i64.add128`, opcode `fc 13`.
    I64Add128,
    /// `i64.sub128`, opcode `fc 14`.
    I64Sub128,
    /// `i64.mul_wide_s`, opcode `fc 15`.
    I64MulWideS,
    /// `i64.mul_wide_u`, opcode `fc 16`.
    I64MulWideU,
}

impl NumericOperator {
    ghost use Rattle.wasm_operators_enums.specs.numbers.Table.{numeric_info};

    /// What is told of it: its proposal, name, prefix and code.
    pub fn info(&self) -> OperatorInfo
        ensures { told result ≡ numeric_info self.now }
    {
        match self {
            Self::I32Eqz => mvp("i32.eqz", 0x45),
            Self::I32Eq => mvp("i32.eq", 0x46),
            Self::I32Ne => mvp("i32.ne", 0x47),
            Self::I32LtS => mvp("i32.lt_s", 0x48),
            Self::I32LtU => mvp("i32.lt_u", 0x49),
            Self::I32GtS => mvp("i32.gt_s", 0x4a),
            Self::I32GtU => mvp("i32.gt_u", 0x4b),
            Self::I32LeS => mvp("i32.le_s", 0x4c),
            Self::I32LeU => mvp("i32.le_u", 0x4d),
            Self::I32GeS => mvp("i32.ge_s", 0x4e),
            Self::I32GeU => mvp("i32.ge_u", 0x4f),
            Self::I64Eqz => mvp("i64.eqz", 0x50),
            Self::I64Eq => mvp("i64.eq", 0x51),
            Self::I64Ne => mvp("i64.ne", 0x52),
            Self::I64LtS => mvp("i64.lt_s", 0x53),
            Self::I64LtU => mvp("i64.lt_u", 0x54),
            Self::I64GtS => mvp("i64.gt_s", 0x55),
            Self::I64GtU => mvp("i64.gt_u", 0x56),
            Self::I64LeS => mvp("i64.le_s", 0x57),
            Self::I64LeU => mvp("i64.le_u", 0x58),
            Self::I64GeS => mvp("i64.ge_s", 0x59),
            Self::I64GeU => mvp("i64.ge_u", 0x5a),
            Self::F32Eq => mvp("f32.eq", 0x5b),
            Self::F32Ne => mvp("f32.ne", 0x5c),
            Self::F32Lt => mvp("f32.lt", 0x5d),
            Self::F32Gt => mvp("f32.gt", 0x5e),
            Self::F32Le => mvp("f32.le", 0x5f),
            Self::F32Ge => mvp("f32.ge", 0x60),
            Self::F64Eq => mvp("f64.eq", 0x61),
            Self::F64Ne => mvp("f64.ne", 0x62),
            Self::F64Lt => mvp("f64.lt", 0x63),
            Self::F64Gt => mvp("f64.gt", 0x64),
            Self::F64Le => mvp("f64.le", 0x65),
            Self::F64Ge => mvp("f64.ge", 0x66),
            Self::I32Clz => mvp("i32.clz", 0x67),
            Self::I32Ctz => mvp("i32.ctz", 0x68),
            Self::I32Popcnt => mvp("i32.popcnt", 0x69),
            Self::I32Add => mvp("i32.add", 0x6a),
            Self::I32Sub => mvp("i32.sub", 0x6b),
            Self::I32Mul => mvp("i32.mul", 0x6c),
            Self::I32DivS => mvp("i32.div_s", 0x6d),
            Self::I32DivU => mvp("i32.div_u", 0x6e),
            Self::I32RemS => mvp("i32.rem_s", 0x6f),
            Self::I32RemU => mvp("i32.rem_u", 0x70),
            Self::I32And => mvp("i32.and", 0x71),
            Self::I32Or => mvp("i32.or", 0x72),
            Self::I32Xor => mvp("i32.xor", 0x73),
            Self::I32Shl => mvp("i32.shl", 0x74),
            Self::I32ShrS => mvp("i32.shr_s", 0x75),
            Self::I32ShrU => mvp("i32.shr_u", 0x76),
            Self::I32Rotl => mvp("i32.rotl", 0x77),
            Self::I32Rotr => mvp("i32.rotr", 0x78),
            Self::I64Clz => mvp("i64.clz", 0x79),
            Self::I64Ctz => mvp("i64.ctz", 0x7a),
            Self::I64Popcnt => mvp("i64.popcnt", 0x7b),
            Self::I64Add => mvp("i64.add", 0x7c),
            Self::I64Sub => mvp("i64.sub", 0x7d),
            Self::I64Mul => mvp("i64.mul", 0x7e),
            Self::I64DivS => mvp("i64.div_s", 0x7f),
            Self::I64DivU => mvp("i64.div_u", 0x80),
            Self::I64RemS => mvp("i64.rem_s", 0x81),
            Self::I64RemU => mvp("i64.rem_u", 0x82),
            Self::I64And => mvp("i64.and", 0x83),
            Self::I64Or => mvp("i64.or", 0x84),
            Self::I64Xor => mvp("i64.xor", 0x85),
            Self::I64Shl => mvp("i64.shl", 0x86),
            Self::I64ShrS => mvp("i64.shr_s", 0x87),
            Self::I64ShrU => mvp("i64.shr_u", 0x88),
            Self::I64Rotl => mvp("i64.rotl", 0x89),
            Self::I64Rotr => mvp("i64.rotr", 0x8a),
            Self::F32Abs => mvp("f32.abs", 0x8b),
            Self::F32Neg => mvp("f32.neg", 0x8c),
            Self::F32Ceil => mvp("f32.ceil", 0x8d),
            Self::F32Floor => mvp("f32.floor", 0x8e),
            Self::F32Trunc => mvp("f32.trunc", 0x8f),
            Self::F32Nearest => mvp("f32.nearest", 0x90),
            Self::F32Sqrt => mvp("f32.sqrt", 0x91),
            Self::F32Add => mvp("f32.add", 0x92),
            Self::F32Sub => mvp("f32.sub", 0x93),
            Self::F32Mul => mvp("f32.mul", 0x94),
            Self::F32Div => mvp("f32.div", 0x95),
            Self::F32Min => mvp("f32.min", 0x96),
            Self::F32Max => mvp("f32.max", 0x97),
            Self::F32Copysign => mvp("f32.copysign", 0x98),
            Self::F64Abs => mvp("f64.abs", 0x99),
            Self::F64Neg => mvp("f64.neg", 0x9a),
            Self::F64Ceil => mvp("f64.ceil", 0x9b),
            Self::F64Floor => mvp("f64.floor", 0x9c),
            Self::F64Trunc => mvp("f64.trunc", 0x9d),
            Self::F64Nearest => mvp("f64.nearest", 0x9e),
            Self::F64Sqrt => mvp("f64.sqrt", 0x9f),
            Self::F64Add => mvp("f64.add", 0xa0),
            Self::F64Sub => mvp("f64.sub", 0xa1),
            Self::F64Mul => mvp("f64.mul", 0xa2),
            Self::F64Div => mvp("f64.div", 0xa3),
            Self::F64Min => mvp("f64.min", 0xa4),
            Self::F64Max => mvp("f64.max", 0xa5),
            Self::F64Copysign => mvp("f64.copysign", 0xa6),
            Self::I32WrapI64 => mvp("i32.wrap_i64", 0xa7),
            Self::I32TruncF32S => mvp("i32.trunc_f32_s", 0xa8),
            Self::I32TruncF32U => mvp("i32.trunc_f32_u", 0xa9),
            Self::I32TruncF64S => mvp("i32.trunc_f64_s", 0xaa),
            Self::I32TruncF64U => mvp("i32.trunc_f64_u", 0xab),
            Self::I64ExtendI32S => mvp("i64.extend_i32_s", 0xac),
            Self::I64ExtendI32U => mvp("i64.extend_i32_u", 0xad),
            Self::I64TruncF32S => mvp("i64.trunc_f32_s", 0xae),
            Self::I64TruncF32U => mvp("i64.trunc_f32_u", 0xaf),
            Self::I64TruncF64S => mvp("i64.trunc_f64_s", 0xb0),
            Self::I64TruncF64U => mvp("i64.trunc_f64_u", 0xb1),
            Self::F32ConvertI32S => mvp("f32.convert_i32_s", 0xb2),
            Self::F32ConvertI32U => mvp("f32.convert_i32_u", 0xb3),
            Self::F32ConvertI64S => mvp("f32.convert_i64_s", 0xb4),
            Self::F32ConvertI64U => mvp("f32.convert_i64_u", 0xb5),
            Self::F32DemoteF64 => mvp("f32.demote_f64", 0xb6),
            Self::F64ConvertI32S => mvp("f64.convert_i32_s", 0xb7),
            Self::F64ConvertI32U => mvp("f64.convert_i32_u", 0xb8),
            Self::F64ConvertI64S => mvp("f64.convert_i64_s", 0xb9),
            Self::F64ConvertI64U => mvp("f64.convert_i64_u", 0xba),
            Self::F64PromoteF32 => mvp("f64.promote_f32", 0xbb),
            Self::I32ReinterpretF32 => mvp("i32.reinterpret_f32", 0xbc),
            Self::I64ReinterpretF64 => mvp("i64.reinterpret_f64", 0xbd),
            Self::F32ReinterpretI32 => mvp("f32.reinterpret_i32", 0xbe),
            Self::F64ReinterpretI64 => mvp("f64.reinterpret_i64", 0xbf),
            Self::I32Extend8S => OperatorInfo::plain(
                Proposal::SignExtension,
                "i32.extend8_s",
                0xc0,
            ),
            Self::I32Extend16S => OperatorInfo::plain(
                Proposal::SignExtension,
                "i32.extend16_s",
                0xc1,
            ),
            Self::I64Extend8S => OperatorInfo::plain(
                Proposal::SignExtension,
                "i64.extend8_s",
                0xc2,
            ),
            Self::I64Extend16S => OperatorInfo::plain(
                Proposal::SignExtension,
                "i64.extend16_s",
                0xc3,
            ),
            Self::I64Extend32S => OperatorInfo::plain(
                Proposal::SignExtension,
                "i64.extend32_s",
                0xc4,
            ),
            Self::I32TruncSatF32S => saturating_float_to_int("i32.trunc_sat_f32_s", 0x00),
            Self::I32TruncSatF32U => saturating_float_to_int("i32.trunc_sat_f32_u", 0x01),
            Self::I32TruncSatF64S => saturating_float_to_int("i32.trunc_sat_f64_s", 0x02),
            Self::I32TruncSatF64U => saturating_float_to_int("i32.trunc_sat_f64_u", 0x03),
            Self::I64TruncSatF32S => saturating_float_to_int("i64.trunc_sat_f32_s", 0x04),
            Self::I64TruncSatF32U => saturating_float_to_int("i64.trunc_sat_f32_u", 0x05),
            Self::I64TruncSatF64S => saturating_float_to_int("i64.trunc_sat_f64_s", 0x06),
            Self::I64TruncSatF64U => saturating_float_to_int("i64.trunc_sat_f64_u", 0x07),
            Self::I64Add128 => OperatorInfo::prefixed(
                Proposal::WideArithmetic,
                "i64.add128",
                0xfc,
                0x13,
            ),
            Self::I64Sub128 => OperatorInfo::prefixed(
                Proposal::WideArithmetic,
                "i64.sub128",
                0xfc,
                0x14,
            ),
            Self::I64MulWideS => OperatorInfo::prefixed(
                Proposal::WideArithmetic,
                "i64.mul_wide_s",
                0xfc,
                0x15,
            ),
            Self::I64MulWideU => OperatorInfo::prefixed(
                Proposal::WideArithmetic,
                "i64.mul_wide_u",
                0xfc,
                0x16,
            ),
        }
    }
}
