//! Readers of operators of control, parametric operators, exceptions and continuations, and of aggregates, casts and
//! descriptors (WebAssembly 3.0, binary format, instructions; the older exceptions, continuations and descriptors by the
//! proposals on them).
//!
//! For each group one function finds the shape of what follows a code, such as `control_shape`, and another reads the
//! immediates of this shape and makes the operator. A reader promises that its operator has that code and exactly the
//! immediates that the decoder of `wasm_operators_encoding` gives. `specs/` has the kinds of immediates of each shape.
//! [`gc_plain_of`] does both for `ref.eq`, which carries nothing.
#![tactic(auto)]

mod continuation;
mod control;
mod descriptor;
mod exception;
mod gc;
mod gc_plain;
mod parametric;

pub use continuation::{ContinuationShape, continuation_shape, read_continuation};
pub use control::{ControlShape, control_shape, read_control};
pub use descriptor::{DescriptorShape, descriptor_shape, read_descriptor};
pub use exception::{ExceptionShape, exception_shape, read_exception};
pub use gc::{GcShape, gc_shape, read_gc};
pub use gc_plain::gc_plain_of;
pub use parametric::{ParametricShape, parametric_shape, read_parametric};
