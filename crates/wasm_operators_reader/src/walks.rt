//! Operators from a reader of bytes whose frames the caller keeps, and expressions whose operators a visitor is told of.
//!
//! [`ReadOperators`] looks at one operator where the innermost open frame is known; what keeps frames tells it (`FrameStack`).
//! [`tell_expression_with_offset`] tells whoever can be told of any operator (`TellOperator`),
//! exactly if all the bytes spell an expression without vectors.
//! `specs/walks/InFrame.antt` defines what is read in a frame and why it is refused, and `Walking` of `wasm_operators_reader` what a visitor is
//! told on the way. No visit is named here: what visits stands in `wasm_operators`.

pub mod laws;
mod read_operators;
mod telling;
mod walking;
mod whole;

pub use crate::{
    ControlOperator, DescriptorOperator, GcOperator, NumericOperator, Operator,
    OperatorsReaderAllocations, SharedOperator, TellOperator, Visitor, read_operator,
};
pub use read_operators::{ReadOperators, read_in_frame, read_plain_in_frame};
pub use telling::{TellSimdOperator, tell_operator_in_frame_simd, tell_operator_simd};
pub use walking::tell_expression_with_offset;
pub use whole::tell_whole_with_offset;
