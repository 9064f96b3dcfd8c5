//! What a module is judged by, and how many it may have of each thing (WebAssembly 3.0, appendix, implementation limitations).
//!
//! [`Settings`] are the features that are allowed and the limits that hold. The checks here are of numbers alone: a count against
//! its limit, and the sizes of types against theirs. Nothing here takes memory.

mod counts;
mod settings;

pub use counts::{check_max, combine_type_sizes, too_many};
pub use settings::Settings;
