//! Numbers of operands of operators for which they are fixed.

ghost use Rattle.std.specs.Prelude.{◌≡◌, Some, length};
ghost use Rattle.wasm_operator_validator_rules.specs.Numbers.{class_of, taken_by, given_by};
ghost use Rattle.wasm_operator_validator_rules.specs.arity.Arity.{memory_counts, bulk_counts, atomic_counts, shared_counts};
ghost use Rattle.wasm_operator_validator_arity.specs.fixed.Ended.{ended};

use wasm_operators_visit::{
    AtomicOperator, BulkOperator, MemoryOperator, NumericOperator, SharedOperator,
};

/// Operators on numbers.
pub fn numeric(op: &NumericOperator) -> Option<(u32, u32)>
    ensures { result ≡ ended (Some (length (taken_by (class_of op.now)), length (given_by (class_of op.now)))) }
{
    match op {
        NumericOperator::I32Eqz
        | NumericOperator::I64Eqz
        | NumericOperator::I32Clz
        | NumericOperator::I32Ctz
        | NumericOperator::I32Popcnt
        | NumericOperator::I64Clz
        | NumericOperator::I64Ctz
        | NumericOperator::I64Popcnt
        | NumericOperator::F32Abs
        | NumericOperator::F32Neg
        | NumericOperator::F32Ceil
        | NumericOperator::F32Floor
        | NumericOperator::F32Trunc
        | NumericOperator::F32Nearest
        | NumericOperator::F32Sqrt
        | NumericOperator::F64Abs
        | NumericOperator::F64Neg
        | NumericOperator::F64Ceil
        | NumericOperator::F64Floor
        | NumericOperator::F64Trunc
        | NumericOperator::F64Nearest
        | NumericOperator::F64Sqrt
        | NumericOperator::I32WrapI64
        | NumericOperator::I32TruncF32S
        | NumericOperator::I32TruncF32U
        | NumericOperator::I32TruncF64S
        | NumericOperator::I32TruncF64U
        | NumericOperator::I64ExtendI32S
        | NumericOperator::I64ExtendI32U
        | NumericOperator::I64TruncF32S
        | NumericOperator::I64TruncF32U
        | NumericOperator::I64TruncF64S
        | NumericOperator::I64TruncF64U
        | NumericOperator::F32ConvertI32S
        | NumericOperator::F32ConvertI32U
        | NumericOperator::F32ConvertI64S
        | NumericOperator::F32ConvertI64U
        | NumericOperator::F32DemoteF64
        | NumericOperator::F64ConvertI32S
        | NumericOperator::F64ConvertI32U
        | NumericOperator::F64ConvertI64S
        | NumericOperator::F64ConvertI64U
        | NumericOperator::F64PromoteF32
        | NumericOperator::I32ReinterpretF32
        | NumericOperator::I64ReinterpretF64
        | NumericOperator::F32ReinterpretI32
        | NumericOperator::F64ReinterpretI64
        | NumericOperator::I32Extend8S
        | NumericOperator::I32Extend16S
        | NumericOperator::I64Extend8S
        | NumericOperator::I64Extend16S
        | NumericOperator::I64Extend32S
        | NumericOperator::I32TruncSatF32S
        | NumericOperator::I32TruncSatF32U
        | NumericOperator::I32TruncSatF64S
        | NumericOperator::I32TruncSatF64U
        | NumericOperator::I64TruncSatF32S
        | NumericOperator::I64TruncSatF32U
        | NumericOperator::I64TruncSatF64S
        | NumericOperator::I64TruncSatF64U => Some((1, 1)),
        NumericOperator::I32Eq
        | NumericOperator::I32Ne
        | NumericOperator::I32LtS
        | NumericOperator::I32LtU
        | NumericOperator::I32GtS
        | NumericOperator::I32GtU
        | NumericOperator::I32LeS
        | NumericOperator::I32LeU
        | NumericOperator::I32GeS
        | NumericOperator::I32GeU
        | NumericOperator::I64Eq
        | NumericOperator::I64Ne
        | NumericOperator::I64LtS
        | NumericOperator::I64LtU
        | NumericOperator::I64GtS
        | NumericOperator::I64GtU
        | NumericOperator::I64LeS
        | NumericOperator::I64LeU
        | NumericOperator::I64GeS
        | NumericOperator::I64GeU
        | NumericOperator::F32Eq
        | NumericOperator::F32Ne
        | NumericOperator::F32Lt
        | NumericOperator::F32Gt
        | NumericOperator::F32Le
        | NumericOperator::F32Ge
        | NumericOperator::F64Eq
        | NumericOperator::F64Ne
        | NumericOperator::F64Lt
        | NumericOperator::F64Gt
        | NumericOperator::F64Le
        | NumericOperator::F64Ge
        | NumericOperator::I32Add
        | NumericOperator::I32Sub
        | NumericOperator::I32Mul
        | NumericOperator::I32DivS
        | NumericOperator::I32DivU
        | NumericOperator::I32RemS
        | NumericOperator::I32RemU
        | NumericOperator::I32And
        | NumericOperator::I32Or
        | NumericOperator::I32Xor
        | NumericOperator::I32Shl
        | NumericOperator::I32ShrS
        | NumericOperator::I32ShrU
        | NumericOperator::I32Rotl
        | NumericOperator::I32Rotr
        | NumericOperator::I64Add
        | NumericOperator::I64Sub
        | NumericOperator::I64Mul
        | NumericOperator::I64DivS
        | NumericOperator::I64DivU
        | NumericOperator::I64RemS
        | NumericOperator::I64RemU
        | NumericOperator::I64And
        | NumericOperator::I64Or
        | NumericOperator::I64Xor
        | NumericOperator::I64Shl
        | NumericOperator::I64ShrS
        | NumericOperator::I64ShrU
        | NumericOperator::I64Rotl
        | NumericOperator::I64Rotr
        | NumericOperator::F32Add
        | NumericOperator::F32Sub
        | NumericOperator::F32Mul
        | NumericOperator::F32Div
        | NumericOperator::F32Min
        | NumericOperator::F32Max
        | NumericOperator::F32Copysign
        | NumericOperator::F64Add
        | NumericOperator::F64Sub
        | NumericOperator::F64Mul
        | NumericOperator::F64Div
        | NumericOperator::F64Min
        | NumericOperator::F64Max
        | NumericOperator::F64Copysign => Some((2, 1)),
        NumericOperator::I64MulWideS | NumericOperator::I64MulWideU => Some((2, 2)),
        NumericOperator::I64Add128 | NumericOperator::I64Sub128 => Some((4, 2)),
    }
}

/// Variables and memories.
pub fn memory(op: &MemoryOperator) -> Option<(u32, u32)>
    ensures { result ≡ ended (memory_counts op.now) }
{
    match op {
        MemoryOperator::LocalGet { .. }
        | MemoryOperator::GlobalGet { .. }
        | MemoryOperator::MemorySize { .. } => Some((0, 1)),
        MemoryOperator::LocalSet { .. } | MemoryOperator::GlobalSet { .. } => Some((1, 0)),
        MemoryOperator::LocalTee { .. }
        | MemoryOperator::I32Load { .. }
        | MemoryOperator::I64Load { .. }
        | MemoryOperator::F32Load { .. }
        | MemoryOperator::F64Load { .. }
        | MemoryOperator::I32Load8S { .. }
        | MemoryOperator::I32Load8U { .. }
        | MemoryOperator::I32Load16S { .. }
        | MemoryOperator::I32Load16U { .. }
        | MemoryOperator::I64Load8S { .. }
        | MemoryOperator::I64Load8U { .. }
        | MemoryOperator::I64Load16S { .. }
        | MemoryOperator::I64Load16U { .. }
        | MemoryOperator::I64Load32S { .. }
        | MemoryOperator::I64Load32U { .. }
        | MemoryOperator::MemoryGrow { .. } => Some((1, 1)),
        MemoryOperator::I32Store { .. }
        | MemoryOperator::I64Store { .. }
        | MemoryOperator::F32Store { .. }
        | MemoryOperator::F64Store { .. }
        | MemoryOperator::I32Store8 { .. }
        | MemoryOperator::I32Store16 { .. }
        | MemoryOperator::I64Store8 { .. }
        | MemoryOperator::I64Store16 { .. }
        | MemoryOperator::I64Store32 { .. } => Some((2, 0)),
    }
}

/// Ranges of memories and tables, tables and references.
pub fn bulk(op: &BulkOperator) -> Option<(u32, u32)>
    ensures { result ≡ ended (bulk_counts op.now) }
{
    match op {
        BulkOperator::DataDrop { .. } | BulkOperator::ElemDrop { .. } => Some((0, 0)),
        BulkOperator::RefNull { .. }
        | BulkOperator::RefFunc { .. }
        | BulkOperator::TableSize { .. } => Some((0, 1)),
        BulkOperator::TableGet { .. } | BulkOperator::RefIsNull => Some((1, 1)),
        BulkOperator::TableSet { .. } | BulkOperator::MemoryDiscard { .. } => Some((2, 0)),
        BulkOperator::TableGrow { .. } => Some((2, 1)),
        BulkOperator::MemoryInit { .. }
        | BulkOperator::MemoryCopy { .. }
        | BulkOperator::MemoryFill { .. }
        | BulkOperator::TableInit { .. }
        | BulkOperator::TableCopy { .. }
        | BulkOperator::TableFill { .. } => Some((3, 0)),
    }
}

/// Atomic accesses to memories.
pub fn atomic(op: &AtomicOperator) -> Option<(u32, u32)>
    ensures { result ≡ ended (atomic_counts op.now) }
{
    match op {
        AtomicOperator::AtomicFence => Some((0, 0)),
        AtomicOperator::I32AtomicLoad { .. }
        | AtomicOperator::I64AtomicLoad { .. }
        | AtomicOperator::I32AtomicLoad8U { .. }
        | AtomicOperator::I32AtomicLoad16U { .. }
        | AtomicOperator::I64AtomicLoad8U { .. }
        | AtomicOperator::I64AtomicLoad16U { .. }
        | AtomicOperator::I64AtomicLoad32U { .. } => Some((1, 1)),
        AtomicOperator::I32AtomicStore { .. }
        | AtomicOperator::I64AtomicStore { .. }
        | AtomicOperator::I32AtomicStore8 { .. }
        | AtomicOperator::I32AtomicStore16 { .. }
        | AtomicOperator::I64AtomicStore8 { .. }
        | AtomicOperator::I64AtomicStore16 { .. }
        | AtomicOperator::I64AtomicStore32 { .. } => Some((2, 0)),
        AtomicOperator::MemoryAtomicNotify { .. }
        | AtomicOperator::I32AtomicRmwAdd { .. }
        | AtomicOperator::I64AtomicRmwAdd { .. }
        | AtomicOperator::I32AtomicRmw8AddU { .. }
        | AtomicOperator::I32AtomicRmw16AddU { .. }
        | AtomicOperator::I64AtomicRmw8AddU { .. }
        | AtomicOperator::I64AtomicRmw16AddU { .. }
        | AtomicOperator::I64AtomicRmw32AddU { .. }
        | AtomicOperator::I32AtomicRmwSub { .. }
        | AtomicOperator::I64AtomicRmwSub { .. }
        | AtomicOperator::I32AtomicRmw8SubU { .. }
        | AtomicOperator::I32AtomicRmw16SubU { .. }
        | AtomicOperator::I64AtomicRmw8SubU { .. }
        | AtomicOperator::I64AtomicRmw16SubU { .. }
        | AtomicOperator::I64AtomicRmw32SubU { .. }
        | AtomicOperator::I32AtomicRmwAnd { .. }
        | AtomicOperator::I64AtomicRmwAnd { .. }
        | AtomicOperator::I32AtomicRmw8AndU { .. }
        | AtomicOperator::I32AtomicRmw16AndU { .. }
        | AtomicOperator::I64AtomicRmw8AndU { .. }
        | AtomicOperator::I64AtomicRmw16AndU { .. }
        | AtomicOperator::I64AtomicRmw32AndU { .. }
        | AtomicOperator::I32AtomicRmwOr { .. }
        | AtomicOperator::I64AtomicRmwOr { .. }
        | AtomicOperator::I32AtomicRmw8OrU { .. }
        | AtomicOperator::I32AtomicRmw16OrU { .. }
        | AtomicOperator::I64AtomicRmw8OrU { .. }
        | AtomicOperator::I64AtomicRmw16OrU { .. }
        | AtomicOperator::I64AtomicRmw32OrU { .. }
        | AtomicOperator::I32AtomicRmwXor { .. }
        | AtomicOperator::I64AtomicRmwXor { .. }
        | AtomicOperator::I32AtomicRmw8XorU { .. }
        | AtomicOperator::I32AtomicRmw16XorU { .. }
        | AtomicOperator::I64AtomicRmw8XorU { .. }
        | AtomicOperator::I64AtomicRmw16XorU { .. }
        | AtomicOperator::I64AtomicRmw32XorU { .. }
        | AtomicOperator::I32AtomicRmwXchg { .. }
        | AtomicOperator::I64AtomicRmwXchg { .. }
        | AtomicOperator::I32AtomicRmw8XchgU { .. }
        | AtomicOperator::I32AtomicRmw16XchgU { .. }
        | AtomicOperator::I64AtomicRmw8XchgU { .. }
        | AtomicOperator::I64AtomicRmw16XchgU { .. }
        | AtomicOperator::I64AtomicRmw32XchgU { .. } => Some((2, 1)),
        AtomicOperator::MemoryAtomicWait32 { .. }
        | AtomicOperator::MemoryAtomicWait64 { .. }
        | AtomicOperator::I32AtomicRmwCmpxchg { .. }
        | AtomicOperator::I64AtomicRmwCmpxchg { .. }
        | AtomicOperator::I32AtomicRmw8CmpxchgU { .. }
        | AtomicOperator::I32AtomicRmw16CmpxchgU { .. }
        | AtomicOperator::I64AtomicRmw8CmpxchgU { .. }
        | AtomicOperator::I64AtomicRmw16CmpxchgU { .. }
        | AtomicOperator::I64AtomicRmw32CmpxchgU { .. } => Some((3, 1)),
    }
}

/// Atomic accesses to globals, tables, structs and arrays.
pub fn shared(op: &SharedOperator) -> Option<(u32, u32)>
    ensures { result ≡ ended (shared_counts op.now) }
{
    match op {
        SharedOperator::GlobalAtomicGet { .. } => Some((0, 1)),
        SharedOperator::GlobalAtomicSet { .. } => Some((1, 0)),
        SharedOperator::GlobalAtomicRmwAdd { .. }
        | SharedOperator::GlobalAtomicRmwSub { .. }
        | SharedOperator::GlobalAtomicRmwAnd { .. }
        | SharedOperator::GlobalAtomicRmwOr { .. }
        | SharedOperator::GlobalAtomicRmwXor { .. }
        | SharedOperator::GlobalAtomicRmwXchg { .. }
        | SharedOperator::TableAtomicGet { .. }
        | SharedOperator::StructAtomicGet { .. }
        | SharedOperator::StructAtomicGetS { .. }
        | SharedOperator::StructAtomicGetU { .. }
        | SharedOperator::RefI31Shared => Some((1, 1)),
        SharedOperator::TableAtomicSet { .. } | SharedOperator::StructAtomicSet { .. } => Some((
            2, 0,
        )),
        SharedOperator::GlobalAtomicRmwCmpxchg { .. }
        | SharedOperator::TableAtomicRmwXchg { .. }
        | SharedOperator::StructAtomicRmwAdd { .. }
        | SharedOperator::StructAtomicRmwSub { .. }
        | SharedOperator::StructAtomicRmwAnd { .. }
        | SharedOperator::StructAtomicRmwOr { .. }
        | SharedOperator::StructAtomicRmwXor { .. }
        | SharedOperator::StructAtomicRmwXchg { .. }
        | SharedOperator::ArrayAtomicGet { .. }
        | SharedOperator::ArrayAtomicGetS { .. }
        | SharedOperator::ArrayAtomicGetU { .. } => Some((2, 1)),
        SharedOperator::ArrayAtomicSet { .. } => Some((3, 0)),
        SharedOperator::TableAtomicRmwCmpxchg { .. }
        | SharedOperator::StructAtomicRmwCmpxchg { .. }
        | SharedOperator::ArrayAtomicRmwAdd { .. }
        | SharedOperator::ArrayAtomicRmwSub { .. }
        | SharedOperator::ArrayAtomicRmwAnd { .. }
        | SharedOperator::ArrayAtomicRmwOr { .. }
        | SharedOperator::ArrayAtomicRmwXor { .. }
        | SharedOperator::ArrayAtomicRmwXchg { .. } => Some((3, 1)),
        SharedOperator::ArrayAtomicRmwCmpxchg { .. } => Some((4, 1)),
    }
}
