//! How many operands those operators take and give for which the numbers are fixed; and pairs of such numbers in 32 bits.

mod numbers;
mod tables;

pub use numbers::{
    calling, closing, in_u32, keeping, leaving, opening, params_of, results_of, sum_in_u32, turning,
};
pub use tables::{atomic, bulk, memory, numeric, shared};
