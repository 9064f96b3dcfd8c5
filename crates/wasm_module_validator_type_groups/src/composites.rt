//! Composite types checked by the rules (WebAssembly 3.0, validation, types, composite types).
//!
//! The contracts speak of ids (`specs/Composites.antt`); where all groups are in canonical form, that is what the rules say of
//! the types that the ids stand for (`composites_are_valid_as_types`). Nothing here takes memory.

mod composite;
pub mod laws;
mod parts;

pub use composite::check_composite_type;
pub use parts::require;
