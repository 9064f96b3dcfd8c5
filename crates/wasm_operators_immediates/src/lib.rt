//! What an operator of WebAssembly is apart from what it does: what it carries besides its opcode, and its row in the table
//! of opcodes.
//!
//! Immediates are memory arguments, block types, tables of labels, clauses and handlers. Contracts see each as a plain
//! tree: its variants and fields, with a list if the code has borrowed bytes. `specs/Kinds.antt` has the kinds of
//! immediates, and `specs/Immediates.antt` what an immediate of each kind carries. Block types, tables of labels, clauses
//! and handlers are read here, exactly if the bytes spell them (`specs/Blocks.antt`, `specs/Labels.antt`,
//! `specs/Handlers.antt`).
//!
//! An [`OperatorInfo`] is one row of the table: the [`Proposal`] that brought the operator, its name, its prefix and its
//! code. The rows themselves are next to the operators (`wasm_operators_enums`); `specs/Info.antt` defines what a row is.
#![tactic(auto)]

mod block;
mod br_table;
mod frames;
mod handlers;
mod info;
pub mod laws;
mod memory;
mod proposal;
mod read_block;
mod read_br_table;
mod read_handlers;
mod vector;

pub use block::BlockType;
pub use br_table::{BrTable, BrTableTargets};
pub use frames::{FrameKind, FrameStack};
pub use handlers::{Catch, Handle, ResumeTable, TryTable};
pub use info::OperatorInfo;
pub use memory::{MemArg, MemArgOrdering, MemArgTarget, Ordering};
pub use proposal::Proposal;
pub use vector::V128;
pub use wasm_types::{
    BinaryReader, Error, FromReader, HeapType, Ieee32, Ieee64, ModuleWords, Named, OperatorWords,
    RefType, Result, Text, TypeWords, ValType, WasmFeatures, Words, equality_is_identity,
    read_list,
};
