//! Variables and memories from their bytes.

ghost use Rattle.std.specs.Prelude.{◌≡◌, IfOk, option_map, Some, None, [], ◌∷◌};
ghost use Rattle.wasm_types.specs.reader.Reading.{Gives, NeedsNoMemory};
ghost use Rattle.wasm_operators_immediates.specs.Info.{Info};
ghost use Rattle.wasm_operators_immediates.specs.Kinds.{Globals, Locals, Memories, Plain};
ghost use Rattle.wasm_operators_immediates.specs.Immediates.{Index, IndexOrZero, MemoryArgument};
ghost use Rattle.wasm_operators_enums.specs.memory.Immediates.{memory_immediates};
ghost use Rattle.wasm_operators_enums.specs.memory.Table.{memory_info};
ghost use Rattle.wasm_operators_encoding.specs.Groups.{memory_kinds};
ghost use Rattle.wasm_operators_encoding.specs.Sequences.{immediates};
ghost use Rattle.wasm_operators_decode_memory.specs.declared.memory.MemoryShape.TheVariants as MemoryShape;
ghost use Rattle.wasm_operators_decode_memory.specs.Memory.{memory_shape_kinds};

use wasm_operators_encoding::MemoryOperator;
use wasm_operators_encoding::immediates::{Access, MemArg, read_memarg, read_memory_or_zero};
use wasm_types::{BinaryReader, Result};

/// What stands behind an opcode of the group.
#[derive(Clone, Copy, Debug, PartialEq, Eq)]
pub enum MemoryShape {
    /// The index of a local.
    Local,
    /// The index of a global.
    Global,
    /// The argument of an access with this exponent of its natural alignment.
    Access(u8),
    /// The index of a memory, or zero.
    Memory,
}

/// The shape of what stands behind this code, if the code is one of the group's.
pub fn memory_shape(code: u32) -> Option<MemoryShape>
    ensures { memory_kinds code ≡ option_map memory_shape_kinds result }
{
    Some(match code {
        0x20 | 0x21 | 0x22 => MemoryShape::Local,
        0x23 | 0x24 => MemoryShape::Global,
        0x28 | 0x2a | 0x34 | 0x35 | 0x36 | 0x38 | 0x3e => MemoryShape::Access(2),
        0x29 | 0x2b | 0x37 | 0x39 => MemoryShape::Access(3),
        0x2c | 0x2d | 0x30 | 0x31 | 0x3a | 0x3c => MemoryShape::Access(0),
        0x2e | 0x2f | 0x32 | 0x33 | 0x3b | 0x3d => MemoryShape::Access(1),
        0x3f | 0x40 => MemoryShape::Memory,
        _ => return None,
    })
}

// The operator with this code, which carries this.
fn of_local(code: u32, local_index: u32) -> MemoryOperator
    requires { memory_kinds code ≡ Some (memory_shape_kinds MemoryShape.Local) }
    ensures immediates { memory_immediates result ≡ Index Locals local_index ∷ [] }
    ensures code { (memory_info result).code ≡ code }
    ensures prefix { (memory_info result).prefix ≡ None }
{
    match code {
        0x20 => MemoryOperator::LocalGet { local_index },
        0x21 => MemoryOperator::LocalSet { local_index },
        0x22 => MemoryOperator::LocalTee { local_index },
        _ => unreachable!(),
    }
}

// The operator with this code, which carries this.
fn of_global(code: u32, global_index: u32) -> MemoryOperator
    requires { memory_kinds code ≡ Some (memory_shape_kinds MemoryShape.Global) }
    ensures immediates { memory_immediates result ≡ Index Globals global_index ∷ [] }
    ensures code { (memory_info result).code ≡ code }
    ensures prefix { (memory_info result).prefix ≡ None }
{
    match code {
        0x23 => MemoryOperator::GlobalGet { global_index },
        0x24 => MemoryOperator::GlobalSet { global_index },
        _ => unreachable!(),
    }
}

// The operator with this code, which carries this. Only the contract reads `natural`.
fn of_access(code: u32, natural: u8, memarg: MemArg) -> MemoryOperator
    requires { memory_kinds code ≡ Some (memory_shape_kinds (MemoryShape.Access natural)) }
    ensures immediates { memory_immediates result ≡ MemoryArgument Plain natural memarg ∷ [] }
    ensures code { (memory_info result).code ≡ code }
    ensures prefix { (memory_info result).prefix ≡ None }
{
    match code {
        0x28 => MemoryOperator::I32Load { memarg },
        0x29 => MemoryOperator::I64Load { memarg },
        0x2a => MemoryOperator::F32Load { memarg },
        0x2b => MemoryOperator::F64Load { memarg },
        0x2c => MemoryOperator::I32Load8S { memarg },
        0x2d => MemoryOperator::I32Load8U { memarg },
        0x2e => MemoryOperator::I32Load16S { memarg },
        0x2f => MemoryOperator::I32Load16U { memarg },
        0x30 => MemoryOperator::I64Load8S { memarg },
        0x31 => MemoryOperator::I64Load8U { memarg },
        0x32 => MemoryOperator::I64Load16S { memarg },
        0x33 => MemoryOperator::I64Load16U { memarg },
        0x34 => MemoryOperator::I64Load32S { memarg },
        0x35 => MemoryOperator::I64Load32U { memarg },
        0x36 => MemoryOperator::I32Store { memarg },
        0x37 => MemoryOperator::I64Store { memarg },
        0x38 => MemoryOperator::F32Store { memarg },
        0x39 => MemoryOperator::F64Store { memarg },
        0x3a => MemoryOperator::I32Store8 { memarg },
        0x3b => MemoryOperator::I32Store16 { memarg },
        0x3c => MemoryOperator::I64Store8 { memarg },
        0x3d => MemoryOperator::I64Store16 { memarg },
        0x3e => MemoryOperator::I64Store32 { memarg },
        _ => unreachable!(),
    }
}

// The operator with this code, which carries this.
fn of_memory(code: u32, mem: u32) -> MemoryOperator
    requires { memory_kinds code ≡ Some (memory_shape_kinds MemoryShape.Memory) }
    ensures immediates { memory_immediates result ≡ IndexOrZero Memories mem ∷ [] }
    ensures code { (memory_info result).code ≡ code }
    ensures prefix { (memory_info result).prefix ≡ None }
{
    match code {
        0x3f => MemoryOperator::MemorySize { mem },
        0x40 => MemoryOperator::MemoryGrow { mem },
        _ => unreachable!(),
    }
}

/// Reads what stands behind this code, of this shape, and answers the operator.
///
/// # Errors
///
/// Where the bytes spell no such immediates. The reader may then stand behind some of them.
#[tactic(auto, unfolding(wasm_operators_encoding::specs::immediates::Immediates::immediate))]
pub fn read_memory<'a>(
    code: u32,
    shape: MemoryShape,
    reader: &mut BinaryReader<'a>,
) -> Result<MemoryOperator>
    requires { memory_kinds code ≡ Some (memory_shape_kinds shape) }
    ensures answer { Gives memory_immediates result reader.new
        (immediates reader.old.settings (memory_shape_kinds shape) reader.old) }
    ensures code { IfOk result (λ o. (memory_info o).code ≡ code) }
    ensures prefix { IfOk result (λ o. (memory_info o).prefix ≡ None) }
    ensures no_memory { NeedsNoMemory result }
{
    match shape {
        MemoryShape::Local => {
            let local_index = reader.read_var_u32()?;
            Ok(of_local(code, local_index))
        }
        MemoryShape::Global => {
            let global_index = reader.read_var_u32()?;
            Ok(of_global(code, global_index))
        }
        MemoryShape::Access(natural) => {
            let memarg = read_memarg(reader, Access::Plain, natural)?;
            Ok(of_access(code, natural, memarg))
        }
        MemoryShape::Memory => {
            let mem = read_memory_or_zero(reader)?;
            Ok(of_memory(code, mem))
        }
    }
}
