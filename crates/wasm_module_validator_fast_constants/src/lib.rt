//! Constants judged in one pass over their bytes.
//!
//! [`accepts_constant`] goes over the bytes of a constant once, with the types of its operands on a stack, and says yes or nothing: then the
//! complete way tells. It knows numbers, sums of integers, globals, nulls, new structures and arrays, and references to numbers of 31
//! bits.
#![tactic(auto)]

mod fields;
mod judge;
mod numbers;
mod objects;
mod references;
mod stack;

pub use judge::accepts_constant;
