//! Checks that ask no list of types (WebAssembly 3.0, validation, types and modules): the features and limits that hold; the types
//! of tables, memories, globals and tags; sections that are one number.
#![tactic(auto)]

pub mod externs;
pub mod limits;
pub mod sections;
