//! Atomic accesses to memory from their bytes.

ghost use Rattle.std.specs.Prelude.{◌≡◌, ◌≤◌, IfOk, option_map, Some, None, [], ◌∷◌};
ghost use Rattle.wasm_types.specs.reader.Reading.{Gives, NeedsNoMemory};
ghost use Rattle.wasm_operators_immediates.specs.Info.{Info};
ghost use Rattle.wasm_operators_immediates.specs.Kinds.{Atomic, ReadModifyWrite};
ghost use Rattle.wasm_operators_immediates.specs.Immediates.{MemoryArgument, ZeroByte};
ghost use Rattle.wasm_operators_enums.specs.threads.Immediates.{atomic_immediates};
ghost use Rattle.wasm_operators_enums.specs.threads.Table.{atomic_info};
ghost use Rattle.wasm_operators_encoding.specs.Groups.{atomic_kinds};
ghost use Rattle.wasm_operators_encoding.specs.Sequences.{immediates};
ghost use Rattle.wasm_operators_decode.specs.declared.atomic.AtomicShape.TheVariants as AtomicShape;
ghost use Rattle.wasm_operators_decode.specs.Atomic.{atomic_run, atomic_shape_kinds};

use wasm_operators_encoding::immediates::{Access, MemArg, read_memarg, read_zero_byte};
use wasm_operators_enums::AtomicOperator;
use wasm_types::{BinaryReader, Result};

/// What stands behind an opcode of the group.
#[derive(Clone, Copy, Debug, PartialEq, Eq)]
pub enum AtomicShape {
    /// The argument of an atomic access with this exponent of its natural alignment.
    Access(u8),
    /// A byte that is zero.
    Zero,
    /// The argument of an atomic read-modify-write with this exponent of its natural alignment.
    ReadModifyWrite(u8),
}

// The shape of this code, if there is one from 0x00 to 0x1d: accesses, and the fence.
#[tactic(auto, unfolding(crate::specs::Atomic::atomic_run))]
fn access_shape(code: u32) -> Option<AtomicShape>
    ensures { atomic_run 0x00 0x1d code ≡ option_map atomic_shape_kinds result }
{
    Some(match code {
        0x00 | 0x01 | 0x10 | 0x16 | 0x17 | 0x1d => AtomicShape::Access(2),
        0x02 | 0x11 | 0x18 => AtomicShape::Access(3),
        0x03 => AtomicShape::Zero,
        0x12 | 0x14 | 0x19 | 0x1b => AtomicShape::Access(0),
        0x13 | 0x15 | 0x1a | 0x1c => AtomicShape::Access(1),
        _ => return None,
    })
}

// The shape of this code, if there is one from 0x1e to 0x32: the first read-modify-writes.
#[tactic(auto, unfolding(crate::specs::Atomic::atomic_run))]
fn add_sub_and_shape(code: u32) -> Option<AtomicShape>
    ensures { atomic_run 0x1e 0x32 code ≡ option_map atomic_shape_kinds result }
{
    Some(match code {
        0x1e | 0x24 | 0x25 | 0x2b | 0x2c | 0x32 => AtomicShape::ReadModifyWrite(2),
        0x1f | 0x26 | 0x2d => AtomicShape::ReadModifyWrite(3),
        0x20 | 0x22 | 0x27 | 0x29 | 0x2e | 0x30 => AtomicShape::ReadModifyWrite(0),
        0x21 | 0x23 | 0x28 | 0x2a | 0x2f | 0x31 => AtomicShape::ReadModifyWrite(1),
        _ => return None,
    })
}

// The shape of this code, if there is one from 0x33 to 0x4e: the other read-modify-writes.
#[tactic(auto, unfolding(crate::specs::Atomic::atomic_run))]
fn or_xor_exchange_shape(code: u32) -> Option<AtomicShape>
    ensures { atomic_run 0x33 0x4e code ≡ option_map atomic_shape_kinds result }
{
    Some(match code {
        0x33 | 0x39 | 0x3a | 0x40 | 0x41 | 0x47 | 0x48 | 0x4e => AtomicShape::ReadModifyWrite(2),
        0x34 | 0x3b | 0x42 | 0x49 => AtomicShape::ReadModifyWrite(3),
        0x35 | 0x37 | 0x3c | 0x3e | 0x43 | 0x45 | 0x4a | 0x4c => AtomicShape::ReadModifyWrite(0),
        0x36 | 0x38 | 0x3d | 0x3f | 0x44 | 0x46 | 0x4b | 0x4d => AtomicShape::ReadModifyWrite(1),
        _ => return None,
    })
}

/// The shape of what stands behind `fe` and this code, if the code is one of the group's.
#[tactic(auto, using(crate::proofs::AtomicCodes::in_run, crate::proofs::AtomicCodes::none_above))]
pub fn atomic_shape(code: u32) -> Option<AtomicShape>
    ensures { atomic_kinds code ≡ option_map atomic_shape_kinds result }
{
    match code {
        0x00..=0x1d => access_shape(code),
        0x1e..=0x32 => add_sub_and_shape(code),
        0x33..=0x4e => or_xor_exchange_shape(code),
        _ => None,
    }
}

// The operator with this code, which carries this. Only the contract reads `natural`.
fn of_access(code: u32, natural: u8, memarg: MemArg) -> AtomicOperator
    requires { atomic_kinds code ≡ Some (atomic_shape_kinds (AtomicShape.Access natural)) }
    ensures immediates { atomic_immediates result ≡ MemoryArgument Atomic natural memarg ∷ [] }
    ensures code { (atomic_info result).code ≡ code }
    ensures prefix { (atomic_info result).prefix ≡ Some 0xfe }
{
    match code {
        0x00 => AtomicOperator::MemoryAtomicNotify { memarg },
        0x01 => AtomicOperator::MemoryAtomicWait32 { memarg },
        0x02 => AtomicOperator::MemoryAtomicWait64 { memarg },
        0x10 => AtomicOperator::I32AtomicLoad { memarg },
        0x11 => AtomicOperator::I64AtomicLoad { memarg },
        0x12 => AtomicOperator::I32AtomicLoad8U { memarg },
        0x13 => AtomicOperator::I32AtomicLoad16U { memarg },
        0x14 => AtomicOperator::I64AtomicLoad8U { memarg },
        0x15 => AtomicOperator::I64AtomicLoad16U { memarg },
        0x16 => AtomicOperator::I64AtomicLoad32U { memarg },
        0x17 => AtomicOperator::I32AtomicStore { memarg },
        0x18 => AtomicOperator::I64AtomicStore { memarg },
        0x19 => AtomicOperator::I32AtomicStore8 { memarg },
        0x1a => AtomicOperator::I32AtomicStore16 { memarg },
        0x1b => AtomicOperator::I64AtomicStore8 { memarg },
        0x1c => AtomicOperator::I64AtomicStore16 { memarg },
        0x1d => AtomicOperator::I64AtomicStore32 { memarg },
        _ => unreachable!(),
    }
}

// The operator with this code.
fn of_zero(code: u32) -> AtomicOperator
    requires { atomic_kinds code ≡ Some (atomic_shape_kinds AtomicShape.Zero) }
    ensures immediates { atomic_immediates result ≡ ZeroByte ∷ [] }
    ensures code { (atomic_info result).code ≡ code }
    ensures prefix { (atomic_info result).prefix ≡ Some 0xfe }
{
    match code {
        0x03 => AtomicOperator::AtomicFence,
        _ => unreachable!(),
    }
}

// The operator with this code, which carries this. Only the contract reads `natural`.
fn of_read_modify_write(code: u32, natural: u8, memarg: MemArg) -> AtomicOperator
    requires { atomic_kinds code ≡ Some (atomic_shape_kinds (AtomicShape.ReadModifyWrite natural)) }
    ensures immediates { atomic_immediates result ≡ MemoryArgument ReadModifyWrite natural memarg ∷ [] }
    ensures code { (atomic_info result).code ≡ code }
    ensures prefix { (atomic_info result).prefix ≡ Some 0xfe }
{
    match code {
        0x1e..=0x24 => of_add(code, natural, memarg),
        0x25..=0x2b => of_sub(code, natural, memarg),
        0x2c..=0x32 => of_and(code, natural, memarg),
        0x33..=0x39 => of_or(code, natural, memarg),
        0x3a..=0x40 => of_xor(code, natural, memarg),
        0x41..=0x47 => of_exchange(code, natural, memarg),
        0x48..=0x4e => of_compare_exchange(code, natural, memarg),
        _ => unreachable!(),
    }
}

// The operator with this code, which carries this. Only the contract reads `natural`.
fn of_add(code: u32, natural: u8, memarg: MemArg) -> AtomicOperator
    requires kinds { atomic_kinds code ≡ Some (atomic_shape_kinds (AtomicShape.ReadModifyWrite natural)) }
    requires from { 0x1e ≤ code }
    requires to { code ≤ 0x24 }
    ensures immediates { atomic_immediates result ≡ MemoryArgument ReadModifyWrite natural memarg ∷ [] }
    ensures code { (atomic_info result).code ≡ code }
    ensures prefix { (atomic_info result).prefix ≡ Some 0xfe }
{
    match code {
        0x1e => AtomicOperator::I32AtomicRmwAdd { memarg },
        0x1f => AtomicOperator::I64AtomicRmwAdd { memarg },
        0x20 => AtomicOperator::I32AtomicRmw8AddU { memarg },
        0x21 => AtomicOperator::I32AtomicRmw16AddU { memarg },
        0x22 => AtomicOperator::I64AtomicRmw8AddU { memarg },
        0x23 => AtomicOperator::I64AtomicRmw16AddU { memarg },
        0x24 => AtomicOperator::I64AtomicRmw32AddU { memarg },
        _ => unreachable!(),
    }
}

// The operator with this code, which carries this. Only the contract reads `natural`.
fn of_sub(code: u32, natural: u8, memarg: MemArg) -> AtomicOperator
    requires kinds { atomic_kinds code ≡ Some (atomic_shape_kinds (AtomicShape.ReadModifyWrite natural)) }
    requires from { 0x25 ≤ code }
    requires to { code ≤ 0x2b }
    ensures immediates { atomic_immediates result ≡ MemoryArgument ReadModifyWrite natural memarg ∷ [] }
    ensures code { (atomic_info result).code ≡ code }
    ensures prefix { (atomic_info result).prefix ≡ Some 0xfe }
{
    match code {
        0x25 => AtomicOperator::I32AtomicRmwSub { memarg },
        0x26 => AtomicOperator::I64AtomicRmwSub { memarg },
        0x27 => AtomicOperator::I32AtomicRmw8SubU { memarg },
        0x28 => AtomicOperator::I32AtomicRmw16SubU { memarg },
        0x29 => AtomicOperator::I64AtomicRmw8SubU { memarg },
        0x2a => AtomicOperator::I64AtomicRmw16SubU { memarg },
        0x2b => AtomicOperator::I64AtomicRmw32SubU { memarg },
        _ => unreachable!(),
    }
}

// The operator with this code, which carries this. Only the contract reads `natural`.
fn of_and(code: u32, natural: u8, memarg: MemArg) -> AtomicOperator
    requires kinds { atomic_kinds code ≡ Some (atomic_shape_kinds (AtomicShape.ReadModifyWrite natural)) }
    requires from { 0x2c ≤ code }
    requires to { code ≤ 0x32 }
    ensures immediates { atomic_immediates result ≡ MemoryArgument ReadModifyWrite natural memarg ∷ [] }
    ensures code { (atomic_info result).code ≡ code }
    ensures prefix { (atomic_info result).prefix ≡ Some 0xfe }
{
    match code {
        0x2c => AtomicOperator::I32AtomicRmwAnd { memarg },
        0x2d => AtomicOperator::I64AtomicRmwAnd { memarg },
        0x2e => AtomicOperator::I32AtomicRmw8AndU { memarg },
        0x2f => AtomicOperator::I32AtomicRmw16AndU { memarg },
        0x30 => AtomicOperator::I64AtomicRmw8AndU { memarg },
        0x31 => AtomicOperator::I64AtomicRmw16AndU { memarg },
        0x32 => AtomicOperator::I64AtomicRmw32AndU { memarg },
        _ => unreachable!(),
    }
}

// The operator with this code, which carries this. Only the contract reads `natural`.
fn of_or(code: u32, natural: u8, memarg: MemArg) -> AtomicOperator
    requires kinds { atomic_kinds code ≡ Some (atomic_shape_kinds (AtomicShape.ReadModifyWrite natural)) }
    requires from { 0x33 ≤ code }
    requires to { code ≤ 0x39 }
    ensures immediates { atomic_immediates result ≡ MemoryArgument ReadModifyWrite natural memarg ∷ [] }
    ensures code { (atomic_info result).code ≡ code }
    ensures prefix { (atomic_info result).prefix ≡ Some 0xfe }
{
    match code {
        0x33 => AtomicOperator::I32AtomicRmwOr { memarg },
        0x34 => AtomicOperator::I64AtomicRmwOr { memarg },
        0x35 => AtomicOperator::I32AtomicRmw8OrU { memarg },
        0x36 => AtomicOperator::I32AtomicRmw16OrU { memarg },
        0x37 => AtomicOperator::I64AtomicRmw8OrU { memarg },
        0x38 => AtomicOperator::I64AtomicRmw16OrU { memarg },
        0x39 => AtomicOperator::I64AtomicRmw32OrU { memarg },
        _ => unreachable!(),
    }
}

// The operator with this code, which carries this. Only the contract reads `natural`.
fn of_xor(code: u32, natural: u8, memarg: MemArg) -> AtomicOperator
    requires kinds { atomic_kinds code ≡ Some (atomic_shape_kinds (AtomicShape.ReadModifyWrite natural)) }
    requires from { 0x3a ≤ code }
    requires to { code ≤ 0x40 }
    ensures immediates { atomic_immediates result ≡ MemoryArgument ReadModifyWrite natural memarg ∷ [] }
    ensures code { (atomic_info result).code ≡ code }
    ensures prefix { (atomic_info result).prefix ≡ Some 0xfe }
{
    match code {
        0x3a => AtomicOperator::I32AtomicRmwXor { memarg },
        0x3b => AtomicOperator::I64AtomicRmwXor { memarg },
        0x3c => AtomicOperator::I32AtomicRmw8XorU { memarg },
        0x3d => AtomicOperator::I32AtomicRmw16XorU { memarg },
        0x3e => AtomicOperator::I64AtomicRmw8XorU { memarg },
        0x3f => AtomicOperator::I64AtomicRmw16XorU { memarg },
        0x40 => AtomicOperator::I64AtomicRmw32XorU { memarg },
        _ => unreachable!(),
    }
}

// The operator with this code, which carries this. Only the contract reads `natural`.
fn of_exchange(code: u32, natural: u8, memarg: MemArg) -> AtomicOperator
    requires kinds { atomic_kinds code ≡ Some (atomic_shape_kinds (AtomicShape.ReadModifyWrite natural)) }
    requires from { 0x41 ≤ code }
    requires to { code ≤ 0x47 }
    ensures immediates { atomic_immediates result ≡ MemoryArgument ReadModifyWrite natural memarg ∷ [] }
    ensures code { (atomic_info result).code ≡ code }
    ensures prefix { (atomic_info result).prefix ≡ Some 0xfe }
{
    match code {
        0x41 => AtomicOperator::I32AtomicRmwXchg { memarg },
        0x42 => AtomicOperator::I64AtomicRmwXchg { memarg },
        0x43 => AtomicOperator::I32AtomicRmw8XchgU { memarg },
        0x44 => AtomicOperator::I32AtomicRmw16XchgU { memarg },
        0x45 => AtomicOperator::I64AtomicRmw8XchgU { memarg },
        0x46 => AtomicOperator::I64AtomicRmw16XchgU { memarg },
        0x47 => AtomicOperator::I64AtomicRmw32XchgU { memarg },
        _ => unreachable!(),
    }
}

// The operator with this code, which carries this. Only the contract reads `natural`.
fn of_compare_exchange(code: u32, natural: u8, memarg: MemArg) -> AtomicOperator
    requires kinds { atomic_kinds code ≡ Some (atomic_shape_kinds (AtomicShape.ReadModifyWrite natural)) }
    requires from { 0x48 ≤ code }
    requires to { code ≤ 0x4e }
    ensures immediates { atomic_immediates result ≡ MemoryArgument ReadModifyWrite natural memarg ∷ [] }
    ensures code { (atomic_info result).code ≡ code }
    ensures prefix { (atomic_info result).prefix ≡ Some 0xfe }
{
    match code {
        0x48 => AtomicOperator::I32AtomicRmwCmpxchg { memarg },
        0x49 => AtomicOperator::I64AtomicRmwCmpxchg { memarg },
        0x4a => AtomicOperator::I32AtomicRmw8CmpxchgU { memarg },
        0x4b => AtomicOperator::I32AtomicRmw16CmpxchgU { memarg },
        0x4c => AtomicOperator::I64AtomicRmw8CmpxchgU { memarg },
        0x4d => AtomicOperator::I64AtomicRmw16CmpxchgU { memarg },
        0x4e => AtomicOperator::I64AtomicRmw32CmpxchgU { memarg },
        _ => unreachable!(),
    }
}

/// Reads what stands behind this code, of this shape, and answers the operator.
///
/// # Errors
///
/// Where the bytes spell no such immediates. The reader may then stand behind some of them.
#[tactic(auto, unfolding(wasm_operators_encoding::specs::immediates::Immediates::immediate))]
pub fn read_atomic<'a>(
    code: u32,
    shape: AtomicShape,
    reader: &mut BinaryReader<'a>,
) -> Result<AtomicOperator>
    requires { atomic_kinds code ≡ Some (atomic_shape_kinds shape) }
    ensures answer { Gives atomic_immediates result reader.new
        (immediates reader.old.settings (atomic_shape_kinds shape) reader.old) }
    ensures code { IfOk result (λ o. (atomic_info o).code ≡ code) }
    ensures prefix { IfOk result (λ o. (atomic_info o).prefix ≡ Some 0xfe) }
    ensures no_memory { NeedsNoMemory result }
{
    match shape {
        AtomicShape::Access(natural) => {
            let memarg = read_memarg(reader, Access::Atomic, natural)?;
            Ok(of_access(code, natural, memarg))
        }
        AtomicShape::Zero => {
            read_zero_byte(reader)?;
            Ok(of_zero(code))
        }
        AtomicShape::ReadModifyWrite(natural) => {
            let memarg = read_memarg(reader, Access::ReadModifyWrite, natural)?;
            Ok(of_read_modify_write(code, natural, memarg))
        }
    }
}
