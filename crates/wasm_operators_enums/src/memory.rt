//! Variables and memories.

ghost use Rattle.std.specs.Prelude.{◌≡◌, None};
ghost use Rattle.wasm_operators_immediates.specs.Info.{told, row};
ghost use Rattle.wasm_operators_immediates.specs.declared.proposal.Proposal.TheVariants as Proposal;

use wasm_operators_immediates::{MemArg, OperatorInfo, Proposal};

// A row of the first release.
fn mvp(name: &'static str, code: u32) -> OperatorInfo
    ensures { told result ≡ row Proposal.Mvp name.now None code }
{
    OperatorInfo::plain(Proposal::Mvp, name, code)
}

/// Variables and memories (WebAssembly 3.0, structure, variable instructions and memory instructions).
#[derive(Clone, Copy, PartialEq, Eq)]
pub enum MemoryOperator {
    /// `local.get`, opcode `20`.
    LocalGet { local_index: u32 },
    /// `local.set`, opcode `21`.
    LocalSet { local_index: u32 },
    /// `local.tee`, opcode `22`.
    LocalTee { local_index: u32 },
    /// `global.get`, opcode `23`.
    GlobalGet { global_index: u32 },
    /// `global.set`, opcode `24`.
    GlobalSet { global_index: u32 },
    /// `i32.load`, opcode `28`.
    I32Load { memarg: MemArg },
    /// `i64.load`, opcode `29`.
    I64Load { memarg: MemArg },
    /// `f32.load`, opcode `2a`.
    F32Load { memarg: MemArg },
    /// `f64.load`, opcode `2b`.
    F64Load { memarg: MemArg },
    /// `i32.load8_s`, opcode `2c`.
    I32Load8S { memarg: MemArg },
    /// `i32.load8_u`, opcode `2d`.
    I32Load8U { memarg: MemArg },
    /// `i32.load16_s`, opcode `2e`.
    I32Load16S { memarg: MemArg },
    /// `i32.load16_u`, opcode `2f`.
    I32Load16U { memarg: MemArg },
    /// `i64.load8_s`, opcode `30`.
    I64Load8S { memarg: MemArg },
    /// `i64.load8_u`, opcode `31`.
    I64Load8U { memarg: MemArg },
    /// `i64.load16_s`, opcode `32`.
    I64Load16S { memarg: MemArg },
    /// `i64.load16_u`, opcode `33`.
    I64Load16U { memarg: MemArg },
    /// `i64.load32_s`, opcode `34`.
    I64Load32S { memarg: MemArg },
    /// `i64.load32_u`, opcode `35`.
    I64Load32U { memarg: MemArg },
    /// `i32.store`, opcode `36`.
    I32Store { memarg: MemArg },
    /// `i64.store`, opcode `37`.
    I64Store { memarg: MemArg },
    /// `f32.store`, opcode `38`.
    F32Store { memarg: MemArg },
    /// `f64.store`, opcode `39`.
    F64Store { memarg: MemArg },
    /// `i32.store8`, opcode `3a`.
    I32Store8 { memarg: MemArg },
    /// `i32.store16`, opcode `3b`.
    I32Store16 { memarg: MemArg },
    /// `i64.store8`, opcode `3c`.
    I64Store8 { memarg: MemArg },
    /// `i64.store16`, opcode `3d`.
    I64Store16 { memarg: MemArg },
    /// `i64.store32`, opcode `3e`.
    I64Store32 { memarg: MemArg },
    /// `memory.size`, opcode `3f`.
    MemorySize { mem: u32 },
    /// `memory.grow`, opcode `40`.
    MemoryGrow { mem: u32 },
}

impl MemoryOperator {
    ghost use Rattle.wasm_operators_enums.specs.memory.Table.{memory_info};

    /// What is told of it: its proposal, name, prefix and code.
    pub fn info(&self) -> OperatorInfo
        ensures { told result ≡ memory_info self.now }
    {
        match self {
            Self::LocalGet { .. } => mvp("local.get", 0x20),
            Self::LocalSet { .. } => mvp("local.set", 0x21),
            Self::LocalTee { .. } => mvp("local.tee", 0x22),
            Self::GlobalGet { .. } => mvp("global.get", 0x23),
            Self::GlobalSet { .. } => mvp("global.set", 0x24),
            Self::I32Load { .. } => mvp("i32.load", 0x28),
            Self::I64Load { .. } => mvp("i64.load", 0x29),
            Self::F32Load { .. } => mvp("f32.load", 0x2a),
            Self::F64Load { .. } => mvp("f64.load", 0x2b),
            Self::I32Load8S { .. } => mvp("i32.load8_s", 0x2c),
            Self::I32Load8U { .. } => mvp("i32.load8_u", 0x2d),
            Self::I32Load16S { .. } => mvp("i32.load16_s", 0x2e),
            Self::I32Load16U { .. } => mvp("i32.load16_u", 0x2f),
            Self::I64Load8S { .. } => mvp("i64.load8_s", 0x30),
            Self::I64Load8U { .. } => mvp("i64.load8_u", 0x31),
            Self::I64Load16S { .. } => mvp("i64.load16_s", 0x32),
            Self::I64Load16U { .. } => mvp("i64.load16_u", 0x33),
            Self::I64Load32S { .. } => mvp("i64.load32_s", 0x34),
            Self::I64Load32U { .. } => mvp("i64.load32_u", 0x35),
            Self::I32Store { .. } => mvp("i32.store", 0x36),
            Self::I64Store { .. } => mvp("i64.store", 0x37),
            Self::F32Store { .. } => mvp("f32.store", 0x38),
            Self::F64Store { .. } => mvp("f64.store", 0x39),
            Self::I32Store8 { .. } => mvp("i32.store8", 0x3a),
            Self::I32Store16 { .. } => mvp("i32.store16", 0x3b),
            Self::I64Store8 { .. } => mvp("i64.store8", 0x3c),
            Self::I64Store16 { .. } => mvp("i64.store16", 0x3d),
            Self::I64Store32 { .. } => mvp("i64.store32", 0x3e),
            Self::MemorySize { .. } => mvp("memory.size", 0x3f),
            Self::MemoryGrow { .. } => mvp("memory.grow", 0x40),
        }
    }
}
