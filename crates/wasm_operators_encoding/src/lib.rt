//! Operators and expressions of WebAssembly as bytes have them (WebAssembly 3.0, binary format, instructions).
//!
//! An operator is an opcode, and immediates of the kinds that belong to it. Which kinds belong to a code is looked up in
//! the table of opcodes, so no operator has a definition of its own: `specs/Operators.antt` says which bytes spell one, and
//! `specs/Coded.antt` has the decoder. The laws say that the decoder is lawful and exact, and that no two operators are
//! spelled by the same bytes.
//!
//! [`immediates`] reads what operators carry, [`codes`] makes operators of an opcode and its immediates, and
//! [`expressions`] has expressions as trees, which bytes spell them, and the list of open frames. `specs/Locals.antt` and
//! `specs/Ends.antt` define which bytes spell groups of locals and constant expressions; `wasm_operators_bodies` reads them.
#![tactic(auto)]

ghost use Rattle.std.specs.Prelude.{◌≡◌, IsTrue, ℕ, List, Some};
ghost use Rattle.wasm_types.specs.settings.Settings.{Settings};
ghost use Rattle.wasm_types.specs.decoding.Decoder.{IsLawful, Decides};
ghost use Rattle.wasm_operators_immediates.specs.Kinds.{Kind};
ghost use Rattle.wasm_operators_enums.specs.Op.{Op};
ghost use Rattle.wasm_operators_enums.specs.Immediates.{is_canonical, kinds_of};
ghost use Rattle.wasm_operators_encoding.specs.Sequences.{immediates, OfKinds};
ghost use Rattle.wasm_operators_encoding.specs.Opcodes.{opcode, SpelledOpcode};
ghost use Rattle.wasm_operators_encoding.specs.Coded.{operator, kinds_at, SpelledCoded};
ghost use Rattle.wasm_operators_encoding.specs.Operators.{opcode_of, coded_of, SpelledOperator};

pub mod codes;
pub mod expressions;
pub mod immediates;

pub use crate::immediates::{
    BlockType, BrTable, BrTableTargets, Catch, FrameKind, FrameStack, Handle, MemArg,
    MemArgOrdering, MemArgTarget, Ordering, ResumeTable, TryTable, V128,
};
pub use wasm_operators_enums::{
    BulkOperator, ConstOperator, ContinuationOperator, ControlOperator, DescriptorOperator, Effect,
    ExceptionOperator, GcOperator, MemoryOperator, Operator, OperatorInfo, ParametricOperator,
    Proposal, Role,
};

/// Opcodes, and immediates one after the other, whatever features are allowed and limits hold: a value and a fault stay whatever bytes
/// follow, the hint of an end of data is exact, and a value is read exactly if a front of the bytes spells it.
pub const fn opcodes_and_immediates_are_lawful()
    ensures opcodes { IsLawful opcode }
    ensures opcodes_exact { Decides opcode SpelledOpcode }
    ensures immediates { (settings : Settings) (ks : List Kind) → IsLawful (immediates settings ks) }
    ensures immediates_exact { (settings : Settings) (ks : List Kind)
        → Decides (immediates settings ks) (OfKinds settings ks) }
{}

/// Operators, each an opcode with the immediates that belong to it, whatever features are allowed and limits hold: a value and a fault stay
/// whatever bytes follow, the hint of an end of data is exact, and a value is read exactly if a front of the bytes spells it.
pub const fn operators_are_lawful()
    ensures lawful { (settings : Settings) → IsLawful (operator settings) }
    ensures exact { (settings : Settings) → Decides (operator settings) (SpelledCoded settings) }
{}

/// How bytes spell operators. Behind its opcode stand immediates of an operator's own kinds. A canonical operator is spelled
/// exactly if its opcode and its immediates are; another is never spelled. No two canonical operators share both.
pub const fn operators_are_spelled()
    ensures kinds { (o : Op) → kinds_at (opcode_of o) ≡ Some (kinds_of o) }
    ensures spelled { (settings : Settings) (o : Op) (text : List ℕ) → SpelledOperator settings o text
        → IsTrue (is_canonical o) × SpelledCoded settings (coded_of o) text }
    ensures spells { (settings : Settings) (o : Op) (text : List ℕ)
        → IsTrue (is_canonical o) × SpelledCoded settings (coded_of o) text → SpelledOperator settings o text }
    ensures apart { (a b : Op) → IsTrue (is_canonical a) → IsTrue (is_canonical b) → coded_of a ≡ coded_of b → a ≡ b }
{}
