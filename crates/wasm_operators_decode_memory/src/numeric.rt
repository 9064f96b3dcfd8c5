//! Operators on numbers from codes of one byte.

ghost use Rattle.std.specs.Prelude.{◌≡◌, ◌≤◌, IfSome, option_map, None, []};
ghost use Rattle.wasm_operators_immediates.specs.Info.{Info};
ghost use Rattle.wasm_operators_enums.specs.numbers.Table.{numeric_info};
ghost use Rattle.wasm_operators_encoding.specs.Groups.{numeric_kinds};

use wasm_operators_enums::NumericOperator;

// The test or comparison of integers with this code.
fn integer_comparison(code: u32) -> NumericOperator
    requires from { 0x45 ≤ code }
    requires to { code ≤ 0x5a }
    ensures code { (numeric_info result).code ≡ code }
    ensures prefix { (numeric_info result).prefix ≡ None }
{
    match code {
        0x45 => NumericOperator::I32Eqz,
        0x46 => NumericOperator::I32Eq,
        0x47 => NumericOperator::I32Ne,
        0x48 => NumericOperator::I32LtS,
        0x49 => NumericOperator::I32LtU,
        0x4a => NumericOperator::I32GtS,
        0x4b => NumericOperator::I32GtU,
        0x4c => NumericOperator::I32LeS,
        0x4d => NumericOperator::I32LeU,
        0x4e => NumericOperator::I32GeS,
        0x4f => NumericOperator::I32GeU,
        0x50 => NumericOperator::I64Eqz,
        0x51 => NumericOperator::I64Eq,
        0x52 => NumericOperator::I64Ne,
        0x53 => NumericOperator::I64LtS,
        0x54 => NumericOperator::I64LtU,
        0x55 => NumericOperator::I64GtS,
        0x56 => NumericOperator::I64GtU,
        0x57 => NumericOperator::I64LeS,
        0x58 => NumericOperator::I64LeU,
        0x59 => NumericOperator::I64GeS,
        0x5a => NumericOperator::I64GeU,
        _ => unreachable!(),
    }
}

// The comparison of floats with this code.
fn float_comparison(code: u32) -> NumericOperator
    requires from { 0x5b ≤ code }
    requires to { code ≤ 0x66 }
    ensures code { (numeric_info result).code ≡ code }
    ensures prefix { (numeric_info result).prefix ≡ None }
{
    match code {
        0x5b => NumericOperator::F32Eq,
        0x5c => NumericOperator::F32Ne,
        0x5d => NumericOperator::F32Lt,
        0x5e => NumericOperator::F32Gt,
        0x5f => NumericOperator::F32Le,
        0x60 => NumericOperator::F32Ge,
        0x61 => NumericOperator::F64Eq,
        0x62 => NumericOperator::F64Ne,
        0x63 => NumericOperator::F64Lt,
        0x64 => NumericOperator::F64Gt,
        0x65 => NumericOperator::F64Le,
        0x66 => NumericOperator::F64Ge,
        _ => unreachable!(),
    }
}

// The operator on integers of 32 bits with this code.
fn i32_arithmetic(code: u32) -> NumericOperator
    requires from { 0x67 ≤ code }
    requires to { code ≤ 0x78 }
    ensures code { (numeric_info result).code ≡ code }
    ensures prefix { (numeric_info result).prefix ≡ None }
{
    match code {
        0x67 => NumericOperator::I32Clz,
        0x68 => NumericOperator::I32Ctz,
        0x69 => NumericOperator::I32Popcnt,
        0x6a => NumericOperator::I32Add,
        0x6b => NumericOperator::I32Sub,
        0x6c => NumericOperator::I32Mul,
        0x6d => NumericOperator::I32DivS,
        0x6e => NumericOperator::I32DivU,
        0x6f => NumericOperator::I32RemS,
        0x70 => NumericOperator::I32RemU,
        0x71 => NumericOperator::I32And,
        0x72 => NumericOperator::I32Or,
        0x73 => NumericOperator::I32Xor,
        0x74 => NumericOperator::I32Shl,
        0x75 => NumericOperator::I32ShrS,
        0x76 => NumericOperator::I32ShrU,
        0x77 => NumericOperator::I32Rotl,
        0x78 => NumericOperator::I32Rotr,
        _ => unreachable!(),
    }
}

// The operator on integers of 64 bits with this code.
fn i64_arithmetic(code: u32) -> NumericOperator
    requires from { 0x79 ≤ code }
    requires to { code ≤ 0x8a }
    ensures code { (numeric_info result).code ≡ code }
    ensures prefix { (numeric_info result).prefix ≡ None }
{
    match code {
        0x79 => NumericOperator::I64Clz,
        0x7a => NumericOperator::I64Ctz,
        0x7b => NumericOperator::I64Popcnt,
        0x7c => NumericOperator::I64Add,
        0x7d => NumericOperator::I64Sub,
        0x7e => NumericOperator::I64Mul,
        0x7f => NumericOperator::I64DivS,
        0x80 => NumericOperator::I64DivU,
        0x81 => NumericOperator::I64RemS,
        0x82 => NumericOperator::I64RemU,
        0x83 => NumericOperator::I64And,
        0x84 => NumericOperator::I64Or,
        0x85 => NumericOperator::I64Xor,
        0x86 => NumericOperator::I64Shl,
        0x87 => NumericOperator::I64ShrS,
        0x88 => NumericOperator::I64ShrU,
        0x89 => NumericOperator::I64Rotl,
        0x8a => NumericOperator::I64Rotr,
        _ => unreachable!(),
    }
}

// The operator on floats of 32 bits with this code.
fn f32_arithmetic(code: u32) -> NumericOperator
    requires from { 0x8b ≤ code }
    requires to { code ≤ 0x98 }
    ensures code { (numeric_info result).code ≡ code }
    ensures prefix { (numeric_info result).prefix ≡ None }
{
    match code {
        0x8b => NumericOperator::F32Abs,
        0x8c => NumericOperator::F32Neg,
        0x8d => NumericOperator::F32Ceil,
        0x8e => NumericOperator::F32Floor,
        0x8f => NumericOperator::F32Trunc,
        0x90 => NumericOperator::F32Nearest,
        0x91 => NumericOperator::F32Sqrt,
        0x92 => NumericOperator::F32Add,
        0x93 => NumericOperator::F32Sub,
        0x94 => NumericOperator::F32Mul,
        0x95 => NumericOperator::F32Div,
        0x96 => NumericOperator::F32Min,
        0x97 => NumericOperator::F32Max,
        0x98 => NumericOperator::F32Copysign,
        _ => unreachable!(),
    }
}

// The operator on floats of 64 bits with this code.
fn f64_arithmetic(code: u32) -> NumericOperator
    requires from { 0x99 ≤ code }
    requires to { code ≤ 0xa6 }
    ensures code { (numeric_info result).code ≡ code }
    ensures prefix { (numeric_info result).prefix ≡ None }
{
    match code {
        0x99 => NumericOperator::F64Abs,
        0x9a => NumericOperator::F64Neg,
        0x9b => NumericOperator::F64Ceil,
        0x9c => NumericOperator::F64Floor,
        0x9d => NumericOperator::F64Trunc,
        0x9e => NumericOperator::F64Nearest,
        0x9f => NumericOperator::F64Sqrt,
        0xa0 => NumericOperator::F64Add,
        0xa1 => NumericOperator::F64Sub,
        0xa2 => NumericOperator::F64Mul,
        0xa3 => NumericOperator::F64Div,
        0xa4 => NumericOperator::F64Min,
        0xa5 => NumericOperator::F64Max,
        0xa6 => NumericOperator::F64Copysign,
        _ => unreachable!(),
    }
}

// The conversion with this code.
fn conversion(code: u32) -> NumericOperator
    requires from { 0xa7 ≤ code }
    requires to { code ≤ 0xbf }
    ensures code { (numeric_info result).code ≡ code }
    ensures prefix { (numeric_info result).prefix ≡ None }
{
    match code {
        0xa7 => NumericOperator::I32WrapI64,
        0xa8 => NumericOperator::I32TruncF32S,
        0xa9 => NumericOperator::I32TruncF32U,
        0xaa => NumericOperator::I32TruncF64S,
        0xab => NumericOperator::I32TruncF64U,
        0xac => NumericOperator::I64ExtendI32S,
        0xad => NumericOperator::I64ExtendI32U,
        0xae => NumericOperator::I64TruncF32S,
        0xaf => NumericOperator::I64TruncF32U,
        0xb0 => NumericOperator::I64TruncF64S,
        0xb1 => NumericOperator::I64TruncF64U,
        0xb2 => NumericOperator::F32ConvertI32S,
        0xb3 => NumericOperator::F32ConvertI32U,
        0xb4 => NumericOperator::F32ConvertI64S,
        0xb5 => NumericOperator::F32ConvertI64U,
        0xb6 => NumericOperator::F32DemoteF64,
        0xb7 => NumericOperator::F64ConvertI32S,
        0xb8 => NumericOperator::F64ConvertI32U,
        0xb9 => NumericOperator::F64ConvertI64S,
        0xba => NumericOperator::F64ConvertI64U,
        0xbb => NumericOperator::F64PromoteF32,
        0xbc => NumericOperator::I32ReinterpretF32,
        0xbd => NumericOperator::I64ReinterpretF64,
        0xbe => NumericOperator::F32ReinterpretI32,
        0xbf => NumericOperator::F64ReinterpretI64,
        _ => unreachable!(),
    }
}

// The extension of a sign with this code.
fn sign_extension(code: u32) -> NumericOperator
    requires from { 0xc0 ≤ code }
    requires to { code ≤ 0xc4 }
    ensures code { (numeric_info result).code ≡ code }
    ensures prefix { (numeric_info result).prefix ≡ None }
{
    match code {
        0xc0 => NumericOperator::I32Extend8S,
        0xc1 => NumericOperator::I32Extend16S,
        0xc2 => NumericOperator::I64Extend8S,
        0xc3 => NumericOperator::I64Extend16S,
        0xc4 => NumericOperator::I64Extend32S,
        _ => unreachable!(),
    }
}

/// The operator with this code, if there is one in the group. It carries nothing.
#[inline(always)]
#[tactic(auto, using(crate::proofs::NumericCodes::numeric_codes))]
pub fn numeric_of(code: u32) -> Option<NumericOperator>
    ensures known { numeric_kinds code ≡ option_map (λ _. []) result }
    ensures code { IfSome result (λ o. (numeric_info o).code ≡ code) }
    ensures prefix { IfSome result (λ o. (numeric_info o).prefix ≡ None) }
{
    Some(match code {
        0x45..=0x5a => integer_comparison(code),
        0x5b..=0x66 => float_comparison(code),
        0x67..=0x78 => i32_arithmetic(code),
        0x79..=0x8a => i64_arithmetic(code),
        0x8b..=0x98 => f32_arithmetic(code),
        0x99..=0xa6 => f64_arithmetic(code),
        0xa7..=0xbf => conversion(code),
        0xc0..=0xc4 => sign_extension(code),
        _ => return None,
    })
}
