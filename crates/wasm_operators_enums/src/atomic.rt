//! Atomic accesses.

ghost use Rattle.std.specs.Prelude.{◌≡◌, Some};
ghost use Rattle.wasm_operators_immediates.specs.Info.{told, row};
ghost use Rattle.wasm_operators_immediates.specs.declared.proposal.Proposal.TheVariants as Proposal;

use wasm_operators_immediates::{MemArg, OperatorInfo, Ordering, Proposal};

// A row of the proposal, behind `fe`.
fn threads(name: &'static str, code: u32) -> OperatorInfo
    ensures { told result ≡ row Proposal.Threads name.now (Some 0xfe) code }
{
    OperatorInfo::prefixed(Proposal::Threads, name, 0xfe, code)
}

// A row of the proposal, behind `fe`.
fn shared(name: &'static str, code: u32) -> OperatorInfo
    ensures { told result ≡ row Proposal.SharedEverythingThreads name.now (Some 0xfe) code }
{
    OperatorInfo::prefixed(Proposal::SharedEverythingThreads, name, 0xfe, code)
}

/// Atomic accesses to memories (the proposal on threads).
#[derive(Clone, Copy, PartialEq, Eq)]
pub enum AtomicOperator {
    /// `memory.atomic.notify`, opcode `fe 00`.
    MemoryAtomicNotify { memarg: MemArg },
    /// `memory.atomic.wait32`, opcode `fe 01`.
    MemoryAtomicWait32 { memarg: MemArg },
    /// `memory.atomic.wait64`, opcode `fe 02`.
    MemoryAtomicWait64 { memarg: MemArg },
    /// `atomic.fence`, opcode `fe 03`.
    AtomicFence,
    /// `i32.atomic.load`, opcode `fe 10`.
    I32AtomicLoad { memarg: MemArg },
    /// `i64.atomic.load`, opcode `fe 11`.
    I64AtomicLoad { memarg: MemArg },
    /// `i32.atomic.load8_u`, opcode `fe 12`.
    I32AtomicLoad8U { memarg: MemArg },
    /// `i32.atomic.load16_u`, opcode `fe 13`.
    I32AtomicLoad16U { memarg: MemArg },
    /// `i64.atomic.load8_u`, opcode `fe 14`.
    I64AtomicLoad8U { memarg: MemArg },
    /// `i64.atomic.load16_u`, opcode `fe 15`.
    I64AtomicLoad16U { memarg: MemArg },
    /// `i64.atomic.load32_u`, opcode `fe 16`.
    I64AtomicLoad32U { memarg: MemArg },
    /// `i32.atomic.store`, opcode `fe 17`.
    I32AtomicStore { memarg: MemArg },
    /// `i64.atomic.store`, opcode `fe 18`.
    I64AtomicStore { memarg: MemArg },
    /// `i32.atomic.store8`, opcode `fe 19`.
    I32AtomicStore8 { memarg: MemArg },
    /// `i32.atomic.store16`, opcode `fe 1a`.
    I32AtomicStore16 { memarg: MemArg },
    /// `i64.atomic.store8`, opcode `fe 1b`.
    I64AtomicStore8 { memarg: MemArg },
    /// `i64.atomic.store16`, opcode `fe 1c`.
    I64AtomicStore16 { memarg: MemArg },
    /// `i64.atomic.store32`, opcode `fe 1d`.
    I64AtomicStore32 { memarg: MemArg },
    /// `i32.atomic.rmw.add`, opcode `fe 1e`.
    I32AtomicRmwAdd { memarg: MemArg },
    /// `i64.atomic.rmw.add`, opcode `fe 1f`.
    I64AtomicRmwAdd { memarg: MemArg },
    /// `i32.atomic.rmw8.add_u`, opcode `fe 20`.
    I32AtomicRmw8AddU { memarg: MemArg },
    /// `i32.atomic.rmw16.add_u`, opcode `fe 21`.
    I32AtomicRmw16AddU { memarg: MemArg },
    /// `i64.atomic.rmw8.add_u`, opcode `fe 22`.
    I64AtomicRmw8AddU { memarg: MemArg },
    /// `i64.atomic.rmw16.add_u`, opcode `fe 23`.
    I64AtomicRmw16AddU { memarg: MemArg },
    /// `i64.atomic.rmw32.add_u`, opcode `fe 24`.
    I64AtomicRmw32AddU { memarg: MemArg },
    /// `i32.atomic.rmw.sub`, opcode `fe 25`.
    I32AtomicRmwSub { memarg: MemArg },
    /// `i64.atomic.rmw.sub`, opcode `fe 26`.
    I64AtomicRmwSub { memarg: MemArg },
    /// `i32.atomic.rmw8.sub_u`, opcode `fe 27`.
    I32AtomicRmw8SubU { memarg: MemArg },
    /// `i32.atomic.rmw16.sub_u`, opcode `fe 28`.
    I32AtomicRmw16SubU { memarg: MemArg },
    /// `i64.atomic.rmw8.sub_u`, opcode `fe 29`.
    I64AtomicRmw8SubU { memarg: MemArg },
    /// `i64.atomic.rmw16.sub_u`, opcode `fe 2a`.
    I64AtomicRmw16SubU { memarg: MemArg },
    /// `i64.atomic.rmw32.sub_u`, opcode `fe 2b`.
    I64AtomicRmw32SubU { memarg: MemArg },
    /// `i32.atomic.rmw.and`, opcode `fe 2c`.
    I32AtomicRmwAnd { memarg: MemArg },
    /// `i64.atomic.rmw.and`, opcode `fe 2d`.
    I64AtomicRmwAnd { memarg: MemArg },
    /// `i32.atomic.rmw8.and_u`, opcode `fe 2e`.
    I32AtomicRmw8AndU { memarg: MemArg },
    /// `i32.atomic.rmw16.and_u`, opcode `fe 2f`.
    I32AtomicRmw16AndU { memarg: MemArg },
    /// `i64.atomic.rmw8.and_u`, opcode `fe 30`.
    I64AtomicRmw8AndU { memarg: MemArg },
    /// `i64.atomic.rmw16.and_u`, opcode `fe 31`.
    I64AtomicRmw16AndU { memarg: MemArg },
    /// `i64.atomic.rmw32.and_u`, opcode `fe 32`.
    I64AtomicRmw32AndU { memarg: MemArg },
    /// `i32.atomic.rmw.or`, opcode `fe 33`.
    I32AtomicRmwOr { memarg: MemArg },
    /// `i64.atomic.rmw.or`, opcode `fe 34`.
    I64AtomicRmwOr { memarg: MemArg },
    /// `i32.atomic.rmw8.or_u`, opcode `fe 35`.
    I32AtomicRmw8OrU { memarg: MemArg },
    /// `i32.atomic.rmw16.or_u`, opcode `fe 36`.
    I32AtomicRmw16OrU { memarg: MemArg },
    /// `i64.atomic.rmw8.or_u`, opcode `fe 37`.
    I64AtomicRmw8OrU { memarg: MemArg },
    /// `i64.atomic.rmw16.or_u`, opcode `fe 38`.
    I64AtomicRmw16OrU { memarg: MemArg },
    /// `i64.atomic.rmw32.or_u`, opcode `fe 39`.
    I64AtomicRmw32OrU { memarg: MemArg },
    /// `i32.atomic.rmw.xor`, opcode `fe 3a`.
    I32AtomicRmwXor { memarg: MemArg },
    /// `i64.atomic.rmw.xor`, opcode `fe 3b`.
    I64AtomicRmwXor { memarg: MemArg },
    /// `i32.atomic.rmw8.xor_u`, opcode `fe 3c`.
    I32AtomicRmw8XorU { memarg: MemArg },
    /// `i32.atomic.rmw16.xor_u`, opcode `fe 3d`.
    I32AtomicRmw16XorU { memarg: MemArg },
    /// `i64.atomic.rmw8.xor_u`, opcode `fe 3e`.
    I64AtomicRmw8XorU { memarg: MemArg },
    /// `i64.atomic.rmw16.xor_u`, opcode `fe 3f`.
    I64AtomicRmw16XorU { memarg: MemArg },
    /// `i64.atomic.rmw32.xor_u`, opcode `fe 40`.
    I64AtomicRmw32XorU { memarg: MemArg },
    /// `i32.atomic.rmw.xchg`, opcode `fe 41`.
    I32AtomicRmwXchg { memarg: MemArg },
    /// `i64.atomic.rmw.xchg`, opcode `fe 42`.
    I64AtomicRmwXchg { memarg: MemArg },
    /// `i32.atomic.rmw8.xchg_u`, opcode `fe 43`.
    I32AtomicRmw8XchgU { memarg: MemArg },
    /// `i32.atomic.rmw16.xchg_u`, opcode `fe 44`.
    I32AtomicRmw16XchgU { memarg: MemArg },
    /// `i64.atomic.rmw8.xchg_u`, opcode `fe 45`.
    I64AtomicRmw8XchgU { memarg: MemArg },
    /// `i64.atomic.rmw16.xchg_u`, opcode `fe 46`.
    I64AtomicRmw16XchgU { memarg: MemArg },
    /// `i64.atomic.rmw32.xchg_u`, opcode `fe 47`.
    I64AtomicRmw32XchgU { memarg: MemArg },
    /// `i32.atomic.rmw.cmpxchg`, opcode `fe 48`.
    I32AtomicRmwCmpxchg { memarg: MemArg },
    /// `i64.atomic.rmw.cmpxchg`, opcode `fe 49`.
    I64AtomicRmwCmpxchg { memarg: MemArg },
    /// `i32.atomic.rmw8.cmpxchg_u`, opcode `fe 4a`.
    I32AtomicRmw8CmpxchgU { memarg: MemArg },
    /// `i32.atomic.rmw16.cmpxchg_u`, opcode `fe 4b`.
    I32AtomicRmw16CmpxchgU { memarg: MemArg },
    /// `i64.atomic.rmw8.cmpxchg_u`, opcode `fe 4c`.
    I64AtomicRmw8CmpxchgU { memarg: MemArg },
    /// `i64.atomic.rmw16.cmpxchg_u`, opcode `fe 4d`.
    I64AtomicRmw16CmpxchgU { memarg: MemArg },
    /// `i64.atomic.rmw32.cmpxchg_u`, opcode `fe 4e`.
    I64AtomicRmw32CmpxchgU { memarg: MemArg },
}

impl AtomicOperator {
    ghost use Rattle.wasm_operators_enums.specs.threads.Table.{atomic_info};

    /// What is told of it: its proposal, name, prefix and code.
    pub fn info(&self) -> OperatorInfo
        ensures { told result ≡ atomic_info self.now }
    {
        match self {
            Self::MemoryAtomicNotify { .. } => threads("memory.atomic.notify", 0x00),
            Self::MemoryAtomicWait32 { .. } => threads("memory.atomic.wait32", 0x01),
            Self::MemoryAtomicWait64 { .. } => threads("memory.atomic.wait64", 0x02),
            Self::AtomicFence => threads("atomic.fence", 0x03),
            Self::I32AtomicLoad { .. } => threads("i32.atomic.load", 0x10),
            Self::I64AtomicLoad { .. } => threads("i64.atomic.load", 0x11),
            Self::I32AtomicLoad8U { .. } => threads("i32.atomic.load8_u", 0x12),
            Self::I32AtomicLoad16U { .. } => threads("i32.atomic.load16_u", 0x13),
            Self::I64AtomicLoad8U { .. } => threads("i64.atomic.load8_u", 0x14),
            Self::I64AtomicLoad16U { .. } => threads("i64.atomic.load16_u", 0x15),
            Self::I64AtomicLoad32U { .. } => threads("i64.atomic.load32_u", 0x16),
            Self::I32AtomicStore { .. } => threads("i32.atomic.store", 0x17),
            Self::I64AtomicStore { .. } => threads("i64.atomic.store", 0x18),
            Self::I32AtomicStore8 { .. } => threads("i32.atomic.store8", 0x19),
            Self::I32AtomicStore16 { .. } => threads("i32.atomic.store16", 0x1a),
            Self::I64AtomicStore8 { .. } => threads("i64.atomic.store8", 0x1b),
            Self::I64AtomicStore16 { .. } => threads("i64.atomic.store16", 0x1c),
            Self::I64AtomicStore32 { .. } => threads("i64.atomic.store32", 0x1d),
            Self::I32AtomicRmwAdd { .. } => threads("i32.atomic.rmw.add", 0x1e),
            Self::I64AtomicRmwAdd { .. } => threads("i64.atomic.rmw.add", 0x1f),
            Self::I32AtomicRmw8AddU { .. } => threads("i32.atomic.rmw8.add_u", 0x20),
            Self::I32AtomicRmw16AddU { .. } => threads("i32.atomic.rmw16.add_u", 0x21),
            Self::I64AtomicRmw8AddU { .. } => threads("i64.atomic.rmw8.add_u", 0x22),
            Self::I64AtomicRmw16AddU { .. } => threads("i64.atomic.rmw16.add_u", 0x23),
            Self::I64AtomicRmw32AddU { .. } => threads("i64.atomic.rmw32.add_u", 0x24),
            Self::I32AtomicRmwSub { .. } => threads("i32.atomic.rmw.sub", 0x25),
            Self::I64AtomicRmwSub { .. } => threads("i64.atomic.rmw.sub", 0x26),
            Self::I32AtomicRmw8SubU { .. } => threads("i32.atomic.rmw8.sub_u", 0x27),
            Self::I32AtomicRmw16SubU { .. } => threads("i32.atomic.rmw16.sub_u", 0x28),
            Self::I64AtomicRmw8SubU { .. } => threads("i64.atomic.rmw8.sub_u", 0x29),
            Self::I64AtomicRmw16SubU { .. } => threads("i64.atomic.rmw16.sub_u", 0x2a),
            Self::I64AtomicRmw32SubU { .. } => threads("i64.atomic.rmw32.sub_u", 0x2b),
            Self::I32AtomicRmwAnd { .. } => threads("i32.atomic.rmw.and", 0x2c),
            Self::I64AtomicRmwAnd { .. } => threads("i64.atomic.rmw.and", 0x2d),
            Self::I32AtomicRmw8AndU { .. } => threads("i32.atomic.rmw8.and_u", 0x2e),
            Self::I32AtomicRmw16AndU { .. } => threads("i32.atomic.rmw16.and_u", 0x2f),
            Self::I64AtomicRmw8AndU { .. } => threads("i64.atomic.rmw8.and_u", 0x30),
            Self::I64AtomicRmw16AndU { .. } => threads("i64.atomic.rmw16.and_u", 0x31),
            Self::I64AtomicRmw32AndU { .. } => threads("i64.atomic.rmw32.and_u", 0x32),
            Self::I32AtomicRmwOr { .. } => threads("i32.atomic.rmw.or", 0x33),
            Self::I64AtomicRmwOr { .. } => threads("i64.atomic.rmw.or", 0x34),
            Self::I32AtomicRmw8OrU { .. } => threads("i32.atomic.rmw8.or_u", 0x35),
            Self::I32AtomicRmw16OrU { .. } => threads("i32.atomic.rmw16.or_u", 0x36),
            Self::I64AtomicRmw8OrU { .. } => threads("i64.atomic.rmw8.or_u", 0x37),
            Self::I64AtomicRmw16OrU { .. } => threads("i64.atomic.rmw16.or_u", 0x38),
            Self::I64AtomicRmw32OrU { .. } => threads("i64.atomic.rmw32.or_u", 0x39),
            Self::I32AtomicRmwXor { .. } => threads("i32.atomic.rmw.xor", 0x3a),
            Self::I64AtomicRmwXor { .. } => threads("i64.atomic.rmw.xor", 0x3b),
            Self::I32AtomicRmw8XorU { .. } => threads("i32.atomic.rmw8.xor_u", 0x3c),
            Self::I32AtomicRmw16XorU { .. } => threads("i32.atomic.rmw16.xor_u", 0x3d),
            Self::I64AtomicRmw8XorU { .. } => threads("i64.atomic.rmw8.xor_u", 0x3e),
            Self::I64AtomicRmw16XorU { .. } => threads("i64.atomic.rmw16.xor_u", 0x3f),
            Self::I64AtomicRmw32XorU { .. } => threads("i64.atomic.rmw32.xor_u", 0x40),
            Self::I32AtomicRmwXchg { .. } => threads("i32.atomic.rmw.xchg", 0x41),
            Self::I64AtomicRmwXchg { .. } => threads("i64.atomic.rmw.xchg", 0x42),
            Self::I32AtomicRmw8XchgU { .. } => threads("i32.atomic.rmw8.xchg_u", 0x43),
            Self::I32AtomicRmw16XchgU { .. } => threads("i32.atomic.rmw16.xchg_u", 0x44),
            Self::I64AtomicRmw8XchgU { .. } => threads("i64.atomic.rmw8.xchg_u", 0x45),
            Self::I64AtomicRmw16XchgU { .. } => threads("i64.atomic.rmw16.xchg_u", 0x46),
            Self::I64AtomicRmw32XchgU { .. } => threads("i64.atomic.rmw32.xchg_u", 0x47),
            Self::I32AtomicRmwCmpxchg { .. } => threads("i32.atomic.rmw.cmpxchg", 0x48),
            Self::I64AtomicRmwCmpxchg { .. } => threads("i64.atomic.rmw.cmpxchg", 0x49),
            Self::I32AtomicRmw8CmpxchgU { .. } => threads("i32.atomic.rmw8.cmpxchg_u", 0x4a),
            Self::I32AtomicRmw16CmpxchgU { .. } => threads("i32.atomic.rmw16.cmpxchg_u", 0x4b),
            Self::I64AtomicRmw8CmpxchgU { .. } => threads("i64.atomic.rmw8.cmpxchg_u", 0x4c),
            Self::I64AtomicRmw16CmpxchgU { .. } => threads("i64.atomic.rmw16.cmpxchg_u", 0x4d),
            Self::I64AtomicRmw32CmpxchgU { .. } => threads("i64.atomic.rmw32.cmpxchg_u", 0x4e),
        }
    }
}

/// Atomic accesses to globals, tables, structs and arrays (the proposal on shared everything).
#[derive(Clone, Copy, PartialEq, Eq)]
pub enum SharedOperator {
    /// `global.atomic.get`, opcode `fe 4f`.
    GlobalAtomicGet {
        ordering: Ordering,
        global_index: u32,
    },
    /// `global.atomic.set`, opcode `fe 50`.
    GlobalAtomicSet {
        ordering: Ordering,
        global_index: u32,
    },
    /// `global.atomic.rmw.add`, opcode `fe 51`.
    GlobalAtomicRmwAdd {
        ordering: Ordering,
        global_index: u32,
    },
    /// `global.atomic.rmw.sub`, opcode `fe 52`.
    GlobalAtomicRmwSub {
        ordering: Ordering,
        global_index: u32,
    },
    /// `global.atomic.rmw.and`, opcode `fe 53`.
    GlobalAtomicRmwAnd {
        ordering: Ordering,
        global_index: u32,
    },
    /// `global.atomic.rmw.or`, opcode `fe 54`.
    GlobalAtomicRmwOr {
        ordering: Ordering,
        global_index: u32,
    },
    /// `global.atomic.rmw.xor`, opcode `fe 55`.
    GlobalAtomicRmwXor {
        ordering: Ordering,
        global_index: u32,
    },
    /// `global.atomic.rmw.xchg`, opcode `fe 56`.
    GlobalAtomicRmwXchg {
        ordering: Ordering,
        global_index: u32,
    },
    /// `global.atomic.rmw.cmpxchg`, opcode `fe 57`.
    GlobalAtomicRmwCmpxchg {
        ordering: Ordering,
        global_index: u32,
    },
    /// `table.atomic.get`, opcode `fe 58`.
    TableAtomicGet {
        ordering: Ordering,
        table_index: u32,
    },
    /// `table.atomic.set`, opcode `fe 59`.
    TableAtomicSet {
        ordering: Ordering,
        table_index: u32,
    },
    /// `table.atomic.rmw.xchg`, opcode `fe 5a`.
    TableAtomicRmwXchg {
        ordering: Ordering,
        table_index: u32,
    },
    /// `table.atomic.rmw.cmpxchg`, opcode `fe 5b`.
    TableAtomicRmwCmpxchg {
        ordering: Ordering,
        table_index: u32,
    },
    /// `struct.atomic.get`, opcode `fe 5c`.
    StructAtomicGet {
        ordering: Ordering,
        struct_type_index: u32,
        field_index: u32,
    },
    /// `struct.atomic.get_s`, opcode `fe 5d`.
    StructAtomicGetS {
        ordering: Ordering,
        struct_type_index: u32,
        field_index: u32,
    },
    /// `struct.atomic.get_u`, opcode `fe 5e`.
    StructAtomicGetU {
        ordering: Ordering,
        struct_type_index: u32,
        field_index: u32,
    },
    /// `struct.atomic.set`, opcode `fe 5f`.
    StructAtomicSet {
        ordering: Ordering,
        struct_type_index: u32,
        field_index: u32,
    },
    /// `struct.atomic.rmw.add`, opcode `fe 60`.
    StructAtomicRmwAdd {
        ordering: Ordering,
        struct_type_index: u32,
        field_index: u32,
    },
    /// `struct.atomic.rmw.sub`, opcode `fe 61`.
    StructAtomicRmwSub {
        ordering: Ordering,
        struct_type_index: u32,
        field_index: u32,
    },
    /// `struct.atomic.rmw.and`, opcode `fe 62`.
    StructAtomicRmwAnd {
        ordering: Ordering,
        struct_type_index: u32,
        field_index: u32,
    },
    /// `struct.atomic.rmw.or`, opcode `fe 63`.
    StructAtomicRmwOr {
        ordering: Ordering,
        struct_type_index: u32,
        field_index: u32,
    },
    /// `struct.atomic.rmw.xor`, opcode `fe 64`.
    StructAtomicRmwXor {
        ordering: Ordering,
        struct_type_index: u32,
        field_index: u32,
    },
    /// `struct.atomic.rmw.xchg`, opcode `fe 65`.
    StructAtomicRmwXchg {
        ordering: Ordering,
        struct_type_index: u32,
        field_index: u32,
    },
    /// `struct.atomic.rmw.cmpxchg`, opcode `fe 66`.
    StructAtomicRmwCmpxchg {
        ordering: Ordering,
        struct_type_index: u32,
        field_index: u32,
    },
    /// `array.atomic.get`, opcode `fe 67`.
    ArrayAtomicGet {
        ordering: Ordering,
        array_type_index: u32,
    },
    /// `array.atomic.get_s`, opcode `fe 68`.
    ArrayAtomicGetS {
        ordering: Ordering,
        array_type_index: u32,
    },
    /// `array.atomic.get_u`, opcode `fe 69`.
    ArrayAtomicGetU {
        ordering: Ordering,
        array_type_index: u32,
    },
    /// `array.atomic.set`, opcode `fe 6a`.
    ArrayAtomicSet {
        ordering: Ordering,
        array_type_index: u32,
    },
    /// `array.atomic.rmw.add`, opcode `fe 6b`.
    ArrayAtomicRmwAdd {
        ordering: Ordering,
        array_type_index: u32,
    },
    /// `array.atomic.rmw.sub`, opcode `fe 6c`.
    ArrayAtomicRmwSub {
        ordering: Ordering,
        array_type_index: u32,
    },
    /// `array.atomic.rmw.and`, opcode `fe 6d`.
    ArrayAtomicRmwAnd {
        ordering: Ordering,
        array_type_index: u32,
    },
    /// `array.atomic.rmw.or`, opcode `fe 6e`.
    ArrayAtomicRmwOr {
        ordering: Ordering,
        array_type_index: u32,
    },
    /// `array.atomic.rmw.xor`, opcode `fe 6f`.
    ArrayAtomicRmwXor {
        ordering: Ordering,
        array_type_index: u32,
    },
    /// `array.atomic.rmw.xchg`, opcode `fe 70`.
    ArrayAtomicRmwXchg {
        ordering: Ordering,
        array_type_index: u32,
    },
    /// `array.atomic.rmw.cmpxchg`, opcode `fe 71`.
    ArrayAtomicRmwCmpxchg {
        ordering: Ordering,
        array_type_index: u32,
    },
    /// `ref.i31_shared`, opcode `fe 72`.
    RefI31Shared,
}

impl SharedOperator {
    ghost use Rattle.wasm_operators_enums.specs.threads.Table.{shared_info};

    /// What is told of it: its proposal, name, prefix and code.
    pub fn info(&self) -> OperatorInfo
        ensures { told result ≡ shared_info self.now }
    {
        match self {
            Self::GlobalAtomicGet { .. } => shared("global.atomic.get", 0x4f),
            Self::GlobalAtomicSet { .. } => shared("global.atomic.set", 0x50),
            Self::GlobalAtomicRmwAdd { .. } => shared("global.atomic.rmw.add", 0x51),
            Self::GlobalAtomicRmwSub { .. } => shared("global.atomic.rmw.sub", 0x52),
            Self::GlobalAtomicRmwAnd { .. } => shared("global.atomic.rmw.and", 0x53),
            Self::GlobalAtomicRmwOr { .. } => shared("global.atomic.rmw.or", 0x54),
            Self::GlobalAtomicRmwXor { .. } => shared("global.atomic.rmw.xor", 0x55),
            Self::GlobalAtomicRmwXchg { .. } => shared("global.atomic.rmw.xchg", 0x56),
            Self::GlobalAtomicRmwCmpxchg { .. } => shared("global.atomic.rmw.cmpxchg", 0x57),
            Self::TableAtomicGet { .. } => shared("table.atomic.get", 0x58),
            Self::TableAtomicSet { .. } => shared("table.atomic.set", 0x59),
            Self::TableAtomicRmwXchg { .. } => shared("table.atomic.rmw.xchg", 0x5a),
            Self::TableAtomicRmwCmpxchg { .. } => shared("table.atomic.rmw.cmpxchg", 0x5b),
            Self::StructAtomicGet { .. } => shared("struct.atomic.get", 0x5c),
            Self::StructAtomicGetS { .. } => shared("struct.atomic.get_s", 0x5d),
            Self::StructAtomicGetU { .. } => shared("struct.atomic.get_u", 0x5e),
            Self::StructAtomicSet { .. } => shared("struct.atomic.set", 0x5f),
            Self::StructAtomicRmwAdd { .. } => shared("struct.atomic.rmw.add", 0x60),
            Self::StructAtomicRmwSub { .. } => shared("struct.atomic.rmw.sub", 0x61),
            Self::StructAtomicRmwAnd { .. } => shared("struct.atomic.rmw.and", 0x62),
            Self::StructAtomicRmwOr { .. } => shared("struct.atomic.rmw.or", 0x63),
            Self::StructAtomicRmwXor { .. } => shared("struct.atomic.rmw.xor", 0x64),
            Self::StructAtomicRmwXchg { .. } => shared("struct.atomic.rmw.xchg", 0x65),
            Self::StructAtomicRmwCmpxchg { .. } => shared("struct.atomic.rmw.cmpxchg", 0x66),
            Self::ArrayAtomicGet { .. } => shared("array.atomic.get", 0x67),
            Self::ArrayAtomicGetS { .. } => shared("array.atomic.get_s", 0x68),
            Self::ArrayAtomicGetU { .. } => shared("array.atomic.get_u", 0x69),
            Self::ArrayAtomicSet { .. } => shared("array.atomic.set", 0x6a),
            Self::ArrayAtomicRmwAdd { .. } => shared("array.atomic.rmw.add", 0x6b),
            Self::ArrayAtomicRmwSub { .. } => shared("array.atomic.rmw.sub", 0x6c),
            Self::ArrayAtomicRmwAnd { .. } => shared("array.atomic.rmw.and", 0x6d),
            Self::ArrayAtomicRmwOr { .. } => shared("array.atomic.rmw.or", 0x6e),
            Self::ArrayAtomicRmwXor { .. } => shared("array.atomic.rmw.xor", 0x6f),
            Self::ArrayAtomicRmwXchg { .. } => shared("array.atomic.rmw.xchg", 0x70),
            Self::ArrayAtomicRmwCmpxchg { .. } => shared("array.atomic.rmw.cmpxchg", 0x71),
            Self::RefI31Shared => shared("ref.i31_shared", 0x72),
        }
    }
}
