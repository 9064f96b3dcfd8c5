//! Constants from their bytes.

ghost use Rattle.std.specs.Prelude.{◌≡◌, IfOk, option_map, Some, None, [], ◌∷◌};
ghost use Rattle.wasm_types.specs.reader.Reading.{Gives, NeedsNoMemory};
ghost use Rattle.wasm_operators_immediates.specs.Info.{Info};
ghost use Rattle.wasm_operators_immediates.specs.Immediates.{F32Constant, F64Constant, I32Constant, I64Constant};
ghost use Rattle.wasm_operators_enums.specs.memory.Immediates.{const_immediates};
ghost use Rattle.wasm_operators_enums.specs.memory.Table.{const_info};
ghost use Rattle.wasm_operators_encoding.specs.Groups.{const_kinds};
ghost use Rattle.wasm_operators_encoding.specs.Sequences.{immediates};
ghost use Rattle.wasm_operators_decode_memory.specs.declared.constant.ConstShape.TheVariants as ConstShape;
ghost use Rattle.wasm_operators_decode_memory.specs.Const.{const_shape_kinds};

use wasm_operators_encoding::ConstOperator;
use wasm_types::{BinaryReader, Ieee32, Ieee64, Result};

/// What stands behind an opcode of the group.
#[derive(Clone, Copy, Debug, PartialEq, Eq)]
pub enum ConstShape {
    /// A number of 32 bits.
    I32,
    /// A number of 64 bits.
    I64,
    /// A float of 32 bits.
    F32,
    /// A float of 64 bits.
    F64,
}

/// The shape of what stands behind this code, if the code is one of the group's.
pub fn const_shape(code: u32) -> Option<ConstShape>
    ensures { const_kinds code ≡ option_map const_shape_kinds result }
{
    Some(match code {
        0x41 => ConstShape::I32,
        0x42 => ConstShape::I64,
        0x43 => ConstShape::F32,
        0x44 => ConstShape::F64,
        _ => return None,
    })
}

// The operator with this code, which carries this.
fn of_i32(code: u32, value: i32) -> ConstOperator
    requires { const_kinds code ≡ Some (const_shape_kinds ConstShape.I32) }
    ensures immediates { const_immediates result ≡ I32Constant value ∷ [] }
    ensures code { (const_info result).code ≡ code }
    ensures prefix { (const_info result).prefix ≡ None }
{
    match code {
        0x41 => ConstOperator::I32Const { value },
        _ => unreachable!(),
    }
}

// The operator with this code, which carries this.
fn of_i64(code: u32, value: i64) -> ConstOperator
    requires { const_kinds code ≡ Some (const_shape_kinds ConstShape.I64) }
    ensures immediates { const_immediates result ≡ I64Constant value ∷ [] }
    ensures code { (const_info result).code ≡ code }
    ensures prefix { (const_info result).prefix ≡ None }
{
    match code {
        0x42 => ConstOperator::I64Const { value },
        _ => unreachable!(),
    }
}

// The operator with this code, which carries this.
fn of_f32(code: u32, value: Ieee32) -> ConstOperator
    requires { const_kinds code ≡ Some (const_shape_kinds ConstShape.F32) }
    ensures immediates { const_immediates result ≡ F32Constant value ∷ [] }
    ensures code { (const_info result).code ≡ code }
    ensures prefix { (const_info result).prefix ≡ None }
{
    match code {
        0x43 => ConstOperator::F32Const { value },
        _ => unreachable!(),
    }
}

// The operator with this code, which carries this.
fn of_f64(code: u32, value: Ieee64) -> ConstOperator
    requires { const_kinds code ≡ Some (const_shape_kinds ConstShape.F64) }
    ensures immediates { const_immediates result ≡ F64Constant value ∷ [] }
    ensures code { (const_info result).code ≡ code }
    ensures prefix { (const_info result).prefix ≡ None }
{
    match code {
        0x44 => ConstOperator::F64Const { value },
        _ => unreachable!(),
    }
}

/// Reads what stands behind this code, of this shape, and answers the operator.
///
/// # Errors
///
/// Where the bytes spell no such immediates. The reader may then stand behind some of them.
#[tactic(auto, unfolding(wasm_operators_encoding::specs::immediates::Immediates::immediate))]
pub fn read_const<'a>(
    code: u32,
    shape: ConstShape,
    reader: &mut BinaryReader<'a>,
) -> Result<ConstOperator>
    requires { const_kinds code ≡ Some (const_shape_kinds shape) }
    ensures answer { Gives const_immediates result reader.new
        (immediates reader.old.settings (const_shape_kinds shape) reader.old) }
    ensures code { IfOk result (λ o. (const_info o).code ≡ code) }
    ensures prefix { IfOk result (λ o. (const_info o).prefix ≡ None) }
    ensures no_memory { NeedsNoMemory result }
{
    match shape {
        ConstShape::I32 => {
            let value = reader.read_var_i32()?;
            Ok(of_i32(code, value))
        }
        ConstShape::I64 => {
            let value = reader.read_var_i64()?;
            Ok(of_i64(code, value))
        }
        ConstShape::F32 => {
            let value = reader.read_f32()?;
            Ok(of_f32(code, value))
        }
        ConstShape::F64 => {
            let value = reader.read_f64()?;
            Ok(of_f64(code, value))
        }
    }
}
