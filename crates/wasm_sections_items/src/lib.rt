//! What sections are made of (WebAssembly 3.0, binary format, modules): their items as values, and a module as a header and
//! sections.
//!
//! Items are imports and exports; globals, tables and data segments; element segments. Each is read exactly if the bytes
//! spell it, over any constant expressions: the type of those is a parameter. [`limited`] reads the contents of a section
//! as a count and as many items, and refuses bytes that are left. [`frames`] has a module as its frames, their order and
//! their counts, as definitions.
#![tactic(auto)]

pub mod elements;
pub mod frames;
pub mod imports;
pub mod limited;
pub mod segments;
