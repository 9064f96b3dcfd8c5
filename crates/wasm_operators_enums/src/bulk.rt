//! Ranges of memories and tables, tables and references.

ghost use Rattle.std.specs.Prelude.{◌≡◌};
ghost use Rattle.wasm_operators_immediates.specs.Info.{told};

use wasm_operators_immediates::{HeapType, OperatorInfo, Proposal};

/// Ranges of memories and tables, tables, and references (WebAssembly 3.0, structure, memory, table and reference
/// instructions; `memory.discard` by the proposal on memory control).
#[derive(Clone, Copy, PartialEq, Eq)]
pub enum BulkOperator {
    /// `table.get`, opcode `25`.
    TableGet { table: u32 },
    /// `table.set`, opcode `26`.
    TableSet { table: u32 },
    /// `ref.null`, opcode `d0`.
    RefNull { hty: HeapType },
    /// `ref.is_null`, opcode `d1`.
    RefIsNull,
    /// `ref.func`, opcode `d2`.
    RefFunc { function_index: u32 },
    /// `memory.init`, opcode `fc 08`.
    MemoryInit { data_index: u32, mem: u32 },
    /// `data.drop`, opcode `fc 09`.
    DataDrop { data_index: u32 },
    /// `memory.copy`, opcode `fc 0a`.
    MemoryCopy { dst_mem: u32, src_mem: u32 },
    /// `memory.fill`, opcode `fc 0b`.
    MemoryFill { mem: u32 },
    /// `table.init`, opcode `fc 0c`.
    TableInit { elem_index: u32, table: u32 },
    /// `elem.drop`, opcode `fc 0d`.
    ElemDrop { elem_index: u32 },
    /// `table.copy`, opcode `fc 0e`.
    TableCopy { dst_table: u32, src_table: u32 },
    /// `table.grow`, opcode `fc 0f`.
    TableGrow { table: u32 },
    /// `table.size`, opcode `fc 10`.
    TableSize { table: u32 },
    /// `table.fill`, opcode `fc 11`.
    TableFill { table: u32 },
    /// `memory.discard`, opcode `fc 12`.
    MemoryDiscard { mem: u32 },
}

impl BulkOperator {
    ghost use Rattle.wasm_operators_enums.specs.memory.Table.{bulk_info};

    /// What is told of it: its proposal, name, prefix and code.
    pub fn info(&self) -> OperatorInfo
        ensures { told result ≡ bulk_info self.now }
    {
        match self {
            Self::TableGet { .. } => OperatorInfo::plain(
                Proposal::ReferenceTypes,
                "table.get",
                0x25,
            ),
            Self::TableSet { .. } => OperatorInfo::plain(
                Proposal::ReferenceTypes,
                "table.set",
                0x26,
            ),
            Self::RefNull { .. } => OperatorInfo::plain(Proposal::ReferenceTypes, "ref.null", 0xd0),
            Self::RefIsNull => OperatorInfo::plain(Proposal::ReferenceTypes, "ref.is_null", 0xd1),
            Self::RefFunc { .. } => OperatorInfo::plain(Proposal::ReferenceTypes, "ref.func", 0xd2),
            Self::MemoryInit { .. } => OperatorInfo::prefixed(
                Proposal::BulkMemory,
                "memory.init",
                0xfc,
                0x08,
            ),
            Self::DataDrop { .. } => OperatorInfo::prefixed(
                Proposal::BulkMemory,
                "data.drop",
                0xfc,
                0x09,
            ),
            Self::MemoryCopy { .. } => OperatorInfo::prefixed(
                Proposal::BulkMemoryOpt,
                "memory.copy",
                0xfc,
                0x0a,
            ),
            Self::MemoryFill { .. } => OperatorInfo::prefixed(
                Proposal::BulkMemoryOpt,
                "memory.fill",
                0xfc,
                0x0b,
            ),
            Self::TableInit { .. } => OperatorInfo::prefixed(
                Proposal::BulkMemory,
                "table.init",
                0xfc,
                0x0c,
            ),
            Self::ElemDrop { .. } => OperatorInfo::prefixed(
                Proposal::BulkMemory,
                "elem.drop",
                0xfc,
                0x0d,
            ),
            Self::TableCopy { .. } => OperatorInfo::prefixed(
                Proposal::BulkMemory,
                "table.copy",
                0xfc,
                0x0e,
            ),
            Self::TableGrow { .. } => OperatorInfo::prefixed(
                Proposal::ReferenceTypes,
                "table.grow",
                0xfc,
                0x0f,
            ),
            Self::TableSize { .. } => OperatorInfo::prefixed(
                Proposal::ReferenceTypes,
                "table.size",
                0xfc,
                0x10,
            ),
            Self::TableFill { .. } => OperatorInfo::prefixed(
                Proposal::ReferenceTypes,
                "table.fill",
                0xfc,
                0x11,
            ),
            Self::MemoryDiscard { .. } => OperatorInfo::prefixed(
                Proposal::MemoryControl,
                "memory.discard",
                0xfc,
                0x12,
            ),
        }
    }
}
