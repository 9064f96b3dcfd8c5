//! Constants.

ghost use Rattle.std.specs.Prelude.{◌≡◌, None};
ghost use Rattle.wasm_operators_immediates.specs.Info.{told, row};
ghost use Rattle.wasm_operators_immediates.specs.declared.proposal.Proposal.TheVariants as Proposal;

use wasm_operators_immediates::{Ieee32, Ieee64, OperatorInfo, Proposal};

// A row of the first release.
fn mvp(name: &'static str, code: u32) -> OperatorInfo
    ensures { told result ≡ row Proposal.Mvp name.now None code }
{
    OperatorInfo::plain(Proposal::Mvp, name, code)
}

/// Constants (WebAssembly 3.0, structure, numeric instructions).
#[derive(Clone, Copy, PartialEq, Eq)]
pub enum ConstOperator {
    /// `i32.const`, opcode `41`.
    I32Const { value: i32 },
    /// `i64.const`, opcode `42`.
    I64Const { value: i64 },
    /// `f32.const`, opcode `43`.
    F32Const { value: Ieee32 },
    /// `f64.const`, opcode `44`.
    F64Const { value: Ieee64 },
}

impl ConstOperator {
    ghost use Rattle.wasm_operators_enums.specs.memory.Table.{const_info};

    /// What is told of it: its proposal, name, prefix and code.
    pub fn info(&self) -> OperatorInfo
        ensures { told result ≡ const_info self.now }
    {
        match self {
            Self::I32Const { .. } => mvp("i32.const", 0x41),
            Self::I64Const { .. } => mvp("i64.const", 0x42),
            Self::F32Const { .. } => mvp("f32.const", 0x43),
            Self::F64Const { .. } => mvp("f64.const", 0x44),
        }
    }
}
