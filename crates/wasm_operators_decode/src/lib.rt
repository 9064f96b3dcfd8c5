//! Operators of WebAssembly from their bytes (WebAssembly 3.0, binary format, instructions), and the readers of atomic
//! accesses and of vectors.
//!
//! [`read_operator`] reads an opcode, finds the group of operators to which it belongs, and lets the reader of that group
//! read the immediates. It promises what the decoder of `wasm_operators_encoding` has for the bytes: every operator is
//! read, and nothing else is. `specs/Memory.antt` defines at which codes memory may be needed.
//!
//! The readers of the two groups here are made as those of the crates below: one function finds the shape of what follows a
//! code ([`simd_shape`], `atomic_shape`), another reads it and makes the operator. For a vector operator that carries
//! nothing, [`simd_numeric_of`] goes by the code alone.
#![tactic(auto)]

mod atomic;
mod plain;
mod prefixed;
mod read;
mod refusal;
mod shared;
mod simd;
mod simd_numeric;

pub use atomic::{AtomicShape, atomic_shape, read_atomic};
pub use read::read_operator;
pub use shared::{SharedShape, read_shared, shared_shape};
pub use simd::{SimdShape, read_simd, simd_shape};
pub use simd_numeric::simd_numeric_of;
pub use wasm_operators_decode_memory::NumericOperator;
pub use wasm_operators_encoding::Operator;
pub use wasm_operators_enums::{AtomicOperator, SharedOperator, SimdNumericOperator, SimdOperator};
