//! The types of blocks and functions in a module, as slices of what the module has: what they take, what they give, what a branch takes.

mod below;
mod block_type;
mod signatures;

pub use below::are_below;
pub use block_type::check_block_type;
pub use signatures::{block_params, block_results, function_at, function_of, label_types};
