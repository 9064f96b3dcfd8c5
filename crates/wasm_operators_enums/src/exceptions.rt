//! Exceptions.

ghost use Rattle.std.specs.Prelude.{◌≡◌};
ghost use Rattle.wasm_operators_immediates.specs.Info.{told};

use wasm_operators_immediates::{BlockType, OperatorInfo, Proposal, TryTable};

/// Exceptions (WebAssembly 3.0, structure, control instructions), and the older ones of the proposal on exceptions.
#[derive(Clone, Drop, PartialEq, Eq)]
pub enum ExceptionOperator {
    /// `try`, opcode `06`.
    Try { blockty: BlockType },
    /// `catch`, opcode `07`.
    Catch { tag_index: u32 },
    /// `throw`, opcode `08`.
    Throw { tag_index: u32 },
    /// `rethrow`, opcode `09`.
    Rethrow { relative_depth: u32 },
    /// `throw_ref`, opcode `0a`.
    ThrowRef,
    /// `delegate`, opcode `18`.
    Delegate { relative_depth: u32 },
    /// `catch_all`, opcode `19`.
    CatchAll,
    /// `try_table`, opcode `1f`.
    TryTable { try_table: TryTable },
}

impl ExceptionOperator {
    ghost use Rattle.wasm_operators_enums.specs.control.Table.{exception_info};
    ghost use Rattle.wasm_operators_enums.specs.control.Trees.{exception_of};

    /// What is told of it: its proposal, name, prefix and code.
    pub fn info(&self) -> OperatorInfo
        ensures { told result ≡ exception_info (exception_of self.now) }
    {
        match self {
            Self::Try { .. } => OperatorInfo::plain(Proposal::LegacyExceptions, "try", 0x06),
            Self::Catch { .. } => OperatorInfo::plain(Proposal::LegacyExceptions, "catch", 0x07),
            Self::Throw { .. } => OperatorInfo::plain(Proposal::Exceptions, "throw", 0x08),
            Self::Rethrow { .. } => OperatorInfo::plain(
                Proposal::LegacyExceptions,
                "rethrow",
                0x09,
            ),
            Self::ThrowRef => OperatorInfo::plain(Proposal::Exceptions, "throw_ref", 0x0a),
            Self::Delegate { .. } => OperatorInfo::plain(
                Proposal::LegacyExceptions,
                "delegate",
                0x18,
            ),
            Self::CatchAll => OperatorInfo::plain(Proposal::LegacyExceptions, "catch_all", 0x19),
            Self::TryTable { .. } => OperatorInfo::plain(Proposal::Exceptions, "try_table", 0x1f),
        }
    }
}
