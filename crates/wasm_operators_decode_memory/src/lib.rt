//! Readers of operators on variables, memories, tables, constants and references, and on numbers (WebAssembly 3.0, binary
//! format, instructions).
//!
//! For each group that carries something one function finds the shape of what follows a code, such as `memory_shape`, and
//! another reads the immediates of this shape and makes the operator, with exactly the immediates that the decoder of
//! `wasm_operators_encoding` gives. `specs/` has the kinds of immediates of each shape.
//!
//! Operators on numbers carry nothing, so a code is all there is to look at: [`numeric_of`] goes by a code of one byte,
//! [`numeric_prefixed_of`] by one after `fc`. Each answers an operator exactly if the table of opcodes has one with this
//! code.
#![tactic(auto)]

mod bulk;
mod bulk_plain;
mod constant;
mod memory;
mod numeric;
mod numeric_prefixed;

pub use bulk::{BulkShape, bulk_shape, read_bulk};
pub use bulk_plain::{BulkPlainShape, bulk_plain_shape, read_bulk_plain};
pub use constant::{ConstShape, const_shape, read_const};
pub use memory::{MemoryShape, memory_shape, read_memory};
pub use numeric::numeric_of;
pub use numeric_prefixed::numeric_prefixed_of;
pub use wasm_operators_enums::NumericOperator;
