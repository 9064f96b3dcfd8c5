//! What a validator keeps of a function's locals, and what it can take back.
//!
//! A function has up to 50,000 locals by default: the types of the first ones are kept one by one, and all of them as runs
//! of one type. [`inits`] knows which are initialised, and [`tape`] is the stack under it: it can take back what was done to
//! it since a moment. [`labels`] marks the labels of a table of branches that were met, so that each is asked once.
#![tactic(auto)]

pub mod inits;
pub mod labels;
mod locals;
pub mod tape;

pub use locals::{Locals, too_many_locals};
