//! Operators on numbers from codes behind `fc`.

ghost use Rattle.std.specs.Prelude.{◌≡◌, IfSome, option_map, Some, []};
ghost use Rattle.wasm_operators_immediates.specs.Info.{Info};
ghost use Rattle.wasm_operators_enums.specs.numbers.Table.{numeric_info};
ghost use Rattle.wasm_operators_encoding.specs.Groups.{numeric_prefixed_kinds};

use wasm_operators_enums::NumericOperator;

/// The operator with this code, if there is one in the group. It carries nothing.
pub fn numeric_prefixed_of(code: u32) -> Option<NumericOperator>
    ensures known { numeric_prefixed_kinds code ≡ option_map (λ _. []) result }
    ensures code { IfSome result (λ o. (numeric_info o).code ≡ code) }
    ensures prefix { IfSome result (λ o. (numeric_info o).prefix ≡ Some 0xfc) }
{
    Some(match code {
        0x00 => NumericOperator::I32TruncSatF32S,
        0x01 => NumericOperator::I32TruncSatF32U,
        0x02 => NumericOperator::I32TruncSatF64S,
        0x03 => NumericOperator::I32TruncSatF64U,
        0x04 => NumericOperator::I64TruncSatF32S,
        0x05 => NumericOperator::I64TruncSatF32U,
        0x06 => NumericOperator::I64TruncSatF64S,
        0x07 => NumericOperator::I64TruncSatF64U,
        0x13 => NumericOperator::I64Add128,
        0x14 => NumericOperator::I64Sub128,
        0x15 => NumericOperator::I64MulWideS,
        0x16 => NumericOperator::I64MulWideU,
        _ => return None,
    })
}
