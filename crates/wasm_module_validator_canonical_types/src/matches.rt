//! Matching of composite types: one link between a type and a supertype that it declares (WebAssembly 3.0, validation,
//! matching, composite types).
//!
//! The contracts speak of ids (`specs/matches/MatchesById.antt`); where all groups are in canonical form, that is what `Matches` says
//! of the types that the ids stand for (`ids_match_as_types`). Nothing here takes memory.

mod composite;
mod fields;
pub mod laws;
mod matching;
mod with_rec_group;

pub use matching::{stored_type, types_match};
pub use with_rec_group::{Matches, WithRecGroup};
