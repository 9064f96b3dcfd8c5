//! Bodies of functions: groups of locals, and where the operators begin behind them (WebAssembly 3.0, binary format,
//! modules, code section); and constant expressions among other bytes.
//!
//! A [`FunctionBody`] holds the bytes of one body. A [`LocalsReader`] reads its groups of locals one by one, without
//! memory, and refuses the group with which there are more locals than the limit. A [`ConstExpr`] holds the bytes of one
//! constant expression. Which bytes spell groups of locals and constant expressions, `Locals` and `Ends` of
//! `wasm_operators_encoding` define; `specs/Groups.antt` defines what a reader of groups reads and why it refuses,
//! `specs/Constants.antt` the same of constant expressions, and `specs/Bodies.antt` which bytes spell a body.
#![tactic(auto)]

mod body;
mod constant;
pub mod laws;
mod locals;
mod part;
mod short;

pub use body::FunctionBody;
pub use constant::ConstExpr;
pub use locals::{LocalsIterator, LocalsReader};
pub use short::{ShortConstant, short_constant};
