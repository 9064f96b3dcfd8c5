//! Operators that take operands of any type, from their bytes.

ghost use Rattle.std.specs.Prelude.{◌≡◌, ◌≢◌, IfOk, IsTrue, option_map, Some, None, [], ◌∷◌};
ghost use Rattle.wasm_types.specs.reader.Reading.{Gives, NeedsNoMemory};
ghost use Rattle.wasm_operators_immediates.specs.Info.{Info};
ghost use Rattle.wasm_operators_immediates.specs.Immediates.{ValueTypes};
ghost use Rattle.wasm_operators_enums.specs.control.Immediates.{parametric_immediates, is_canonical};
ghost use Rattle.wasm_operators_enums.specs.control.Table.{parametric_info};
ghost use Rattle.wasm_operators_enums.specs.control.Trees.{parametric_of};
ghost use Rattle.wasm_operators_encoding.specs.Groups.{parametric_kinds};
ghost use Rattle.wasm_operators_encoding.specs.Sequences.{immediates};
ghost use Rattle.wasm_operators_decode_control.specs.declared.parametric.ParametricShape.TheVariants as ParametricShape;
ghost use Rattle.wasm_operators_decode_control.specs.Parametric.{parametric_shape_kinds};

use std::alloc::Global;
use wasm_operators_encoding::ParametricOperator;
use wasm_operators_encoding::immediates::read_select_types;
use wasm_types::{BinaryReader, Result, ValType};

/// What stands behind an opcode of the group.
#[derive(Clone, Copy, Debug, PartialEq, Eq)]
pub enum ParametricShape {
    /// Nothing.
    Nothing,
    /// A list of value types.
    Types,
}

/// The shape of what stands behind this opcode, if it is one of the group's.
pub fn parametric_shape(code: u32) -> Option<ParametricShape>
    ensures { parametric_kinds code ≡ option_map parametric_shape_kinds result }
{
    Some(match code {
        0x1a | 0x1b => ParametricShape::Nothing,
        0x1c => ParametricShape::Types,
        _ => return None,
    })
}

// The operator with this code.
fn of_nothing(code: u32) -> ParametricOperator
    requires { parametric_kinds code ≡ Some (parametric_shape_kinds ParametricShape.Nothing) }
    ensures immediates { parametric_immediates (parametric_of result) ≡ [] }
    ensures code { (parametric_info (parametric_of result)).code ≡ code }
    ensures prefix { (parametric_info (parametric_of result)).prefix ≡ None }
    ensures canonical { IsTrue (is_canonical (parametric_of result)) }
{
    match code {
        0x1a => ParametricOperator::Drop,
        0x1b => ParametricOperator::Select,
        _ => unreachable!(),
    }
}

// The `select` with these types: one type has a form of its own.
fn of_select_types(tys: Vec<ValType>) -> ParametricOperator
    ensures immediates { parametric_immediates (parametric_of result) ≡ ValueTypes tys.items ∷ [] }
    ensures code { (parametric_info (parametric_of result)).code ≡ 0x1c }
    ensures prefix { (parametric_info (parametric_of result)).prefix ≡ None }
    ensures canonical { IsTrue (is_canonical (parametric_of result)) }
{
    if let [ty] = tys.as_slice() {
        return ParametricOperator::TypedSelect { ty: *ty };
    }
    ParametricOperator::TypedSelectMulti { tys }
}

// The operator with this code, which carries this.
fn of_types(code: u32, tys: Vec<ValType>) -> ParametricOperator
    requires { parametric_kinds code ≡ Some (parametric_shape_kinds ParametricShape.Types) }
    ensures immediates { parametric_immediates (parametric_of result) ≡ ValueTypes tys.items ∷ [] }
    ensures code { (parametric_info (parametric_of result)).code ≡ code }
    ensures prefix { (parametric_info (parametric_of result)).prefix ≡ None }
    ensures canonical { IsTrue (is_canonical (parametric_of result)) }
{
    match code {
        0x1c => of_select_types(tys),
        _ => unreachable!(),
    }
}

/// Reads what stands behind this code, of this shape, and answers the operator. A `select` with one type is the
/// variant for one type.
///
/// # Errors
///
/// Where the bytes spell no such immediates, or where there is no memory for them. The reader may then stand behind some
/// of them.
#[tactic(auto, unfolding(wasm_operators_encoding::specs::immediates::Immediates::immediate))]
pub fn read_parametric<'a>(
    alloc: Global,
    code: u32,
    shape: ParametricShape,
    reader: &mut BinaryReader<'a>,
) -> Result<ParametricOperator>
    requires { parametric_kinds code ≡ Some (parametric_shape_kinds shape) }
    ensures answer { Gives (λ o. parametric_immediates (parametric_of o)) result reader.new
        (immediates reader.old.settings (parametric_shape_kinds shape) reader.old) }
    ensures code { IfOk result (λ o. (parametric_info (parametric_of o)).code ≡ code) }
    ensures prefix { IfOk result (λ o. (parametric_info (parametric_of o)).prefix ≡ None) }
    ensures canonical { IfOk result (λ o. IsTrue (is_canonical (parametric_of o))) }
    ensures no_memory { shape ≢ ParametricShape.Types → NeedsNoMemory result }
{
    match shape {
        ParametricShape::Nothing => Ok(of_nothing(code)),
        ParametricShape::Types => {
            let tys = read_select_types(alloc, reader)?;
            Ok(of_types(code, tys))
        }
    }
}
