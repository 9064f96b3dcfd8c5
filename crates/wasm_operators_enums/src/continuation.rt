//! Continuations.

ghost use Rattle.std.specs.Prelude.{◌≡◌, None};
ghost use Rattle.wasm_operators_immediates.specs.Info.{told, row};
ghost use Rattle.wasm_operators_immediates.specs.declared.proposal.Proposal.TheVariants as Proposal;

use wasm_operators_immediates::{OperatorInfo, Proposal, ResumeTable};

// A row of the proposal.
fn stack_switching(name: &'static str, code: u32) -> OperatorInfo
    ensures { told result ≡ row Proposal.StackSwitching name.now None code }
{
    OperatorInfo::plain(Proposal::StackSwitching, name, code)
}

/// Continuations (the proposal on stack switching).
#[derive(Clone, Drop, PartialEq, Eq)]
pub enum ContinuationOperator {
    /// `cont.new`, opcode `e0`.
    ContNew {
        cont_type_index: u32,
    },
    /// `cont.bind`, opcode `e1`.
    ContBind {
        argument_index: u32,
        result_index: u32,
    },
    /// `suspend`, opcode `e2`.
    Suspend {
        tag_index: u32,
    },
    /// `resume`, opcode `e3`.
    Resume {
        cont_type_index: u32,
        resume_table: ResumeTable,
    },
    /// `resume_throw`, opcode `e4`.
    ResumeThrow {
        cont_type_index: u32,
        tag_index: u32,
        resume_table: ResumeTable,
    },
    /// `resume_throw_ref`, opcode `e5`.
    ResumeThrowRef {
        cont_type_index: u32,
        resume_table: ResumeTable,
    },
    /// `switch`, opcode `e6`.
    Switch {
        cont_type_index: u32,
        tag_index: u32,
    },
}

impl ContinuationOperator {
    ghost use Rattle.wasm_operators_enums.specs.control.Table.{continuation_info};
    ghost use Rattle.wasm_operators_enums.specs.control.Trees.{continuation_of};

    /// What is told of it: its proposal, name, prefix and code.
    pub fn info(&self) -> OperatorInfo
        ensures { told result ≡ continuation_info (continuation_of self.now) }
    {
        match self {
            Self::ContNew { .. } => stack_switching("cont.new", 0xe0),
            Self::ContBind { .. } => stack_switching("cont.bind", 0xe1),
            Self::Suspend { .. } => stack_switching("suspend", 0xe2),
            Self::Resume { .. } => stack_switching("resume", 0xe3),
            Self::ResumeThrow { .. } => stack_switching("resume_throw", 0xe4),
            Self::ResumeThrowRef { .. } => stack_switching("resume_throw_ref", 0xe5),
            Self::Switch { .. } => stack_switching("switch", 0xe6),
        }
    }
}
