//! Operators of the flow of control, and those that take operands of any type.

ghost use Rattle.std.specs.Prelude.{◌≡◌, None};
ghost use Rattle.wasm_operators_immediates.specs.Info.{told, row};
ghost use Rattle.wasm_operators_immediates.specs.declared.proposal.Proposal.TheVariants as Proposal;

use wasm_operators_immediates::{BlockType, BrTable, OperatorInfo, Proposal, ValType};

// A row of the first release.
fn mvp(name: &'static str, code: u32) -> OperatorInfo
    ensures { told result ≡ row Proposal.Mvp name.now None code }
{
    OperatorInfo::plain(Proposal::Mvp, name, code)
}

/// Blocks, branches and calls (WebAssembly 3.0, structure, control instructions). Labels count frames outwards.
#[derive(Clone, Drop, PartialEq, Eq)]
pub enum ControlOperator<'a> {
    /// `unreachable`, opcode `00`.
    Unreachable,
    /// `nop`, opcode `01`.
    Nop,
    /// `block`, opcode `02`.
    Block { blockty: BlockType },
    /// `loop`, opcode `03`.
    Loop { blockty: BlockType },
    /// `if`, opcode `04`.
    If { blockty: BlockType },
    /// `else`, opcode `05`.
    Else,
    /// `end`, opcode `0b`.
    End,
    /// `br`, opcode `0c`.
    Br { relative_depth: u32 },
    /// `br_if`, opcode `0d`.
    BrIf { relative_depth: u32 },
    /// `br_table`, opcode `0e`.
    BrTable { targets: BrTable<'a> },
    /// `return`, opcode `0f`.
    Return,
    /// `call`, opcode `10`.
    Call { function_index: u32 },
    /// `call_indirect`, opcode `11`.
    CallIndirect { type_index: u32, table_index: u32 },
    /// `return_call`, opcode `12`.
    ReturnCall { function_index: u32 },
    /// `return_call_indirect`, opcode `13`.
    ReturnCallIndirect { type_index: u32, table_index: u32 },
    /// `call_ref`, opcode `14`.
    CallRef { type_index: u32 },
    /// `return_call_ref`, opcode `15`.
    ReturnCallRef { type_index: u32 },
    /// `ref.as_non_null`, opcode `d4`.
    RefAsNonNull,
    /// `br_on_null`, opcode `d5`.
    BrOnNull { relative_depth: u32 },
    /// `br_on_non_null`, opcode `d6`.
    BrOnNonNull { relative_depth: u32 },
}

impl<'a> ControlOperator<'a> {
    ghost use Rattle.wasm_operators_enums.specs.control.Table.{control_info};

    /// What is told of it: its proposal, name, prefix and code.
    pub fn info(&self) -> OperatorInfo
        ensures { told result ≡ control_info self.now }
    {
        match self {
            Self::Unreachable => mvp("unreachable", 0x00),
            Self::Nop => mvp("nop", 0x01),
            Self::Block { .. } => mvp("block", 0x02),
            Self::Loop { .. } => mvp("loop", 0x03),
            Self::If { .. } => mvp("if", 0x04),
            Self::Else => mvp("else", 0x05),
            Self::End => mvp("end", 0x0b),
            Self::Br { .. } => mvp("br", 0x0c),
            Self::BrIf { .. } => mvp("br_if", 0x0d),
            Self::BrTable { .. } => mvp("br_table", 0x0e),
            Self::Return => mvp("return", 0x0f),
            Self::Call { .. } => mvp("call", 0x10),
            Self::CallIndirect { .. } => mvp("call_indirect", 0x11),
            Self::ReturnCall { .. } => OperatorInfo::plain(Proposal::TailCall, "return_call", 0x12),
            Self::ReturnCallIndirect { .. } => OperatorInfo::plain(
                Proposal::TailCall,
                "return_call_indirect",
                0x13,
            ),
            Self::CallRef { .. } => OperatorInfo::plain(
                Proposal::FunctionReferences,
                "call_ref",
                0x14,
            ),
            Self::ReturnCallRef { .. } => OperatorInfo::plain(
                Proposal::TailCall,
                "return_call_ref",
                0x15,
            ),
            Self::RefAsNonNull => OperatorInfo::plain(
                Proposal::FunctionReferences,
                "ref.as_non_null",
                0xd4,
            ),
            Self::BrOnNull { .. } => OperatorInfo::plain(
                Proposal::FunctionReferences,
                "br_on_null",
                0xd5,
            ),
            Self::BrOnNonNull { .. } => OperatorInfo::plain(
                Proposal::FunctionReferences,
                "br_on_non_null",
                0xd6,
            ),
        }
    }
}

/// What takes operands of any type (WebAssembly 3.0, structure, parametric instructions).
#[derive(Clone, Drop, PartialEq, Eq)]
pub enum ParametricOperator {
    /// `drop`, opcode `1a`.
    Drop,
    /// `select`, opcode `1b`.
    Select,
    /// `select` with one type, opcode `1c`.
    TypedSelect { ty: ValType },
    /// `select` with any other number of types, opcode `1c`.
    TypedSelectMulti { tys: Vec<ValType> },
}

impl ParametricOperator {
    ghost use Rattle.wasm_operators_enums.specs.control.Table.{parametric_info};
    ghost use Rattle.wasm_operators_enums.specs.control.Trees.{parametric_of};

    /// What is told of it: its proposal, name, prefix and code.
    pub fn info(&self) -> OperatorInfo
        ensures { told result ≡ parametric_info (parametric_of self.now) }
    {
        match self {
            Self::Drop => mvp("drop", 0x1a),
            Self::Select => mvp("select", 0x1b),
            Self::TypedSelect { .. } => OperatorInfo::plain(
                Proposal::ReferenceTypes,
                "select",
                0x1c,
            ),
            Self::TypedSelectMulti { .. } => OperatorInfo::plain(
                Proposal::ReferenceTypes,
                "select",
                0x1c,
            ),
        }
    }
}
