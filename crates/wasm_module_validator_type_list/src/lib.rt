//! The list of interned types, each under an id of its own. A group in canonical form stands once, any other as often as it was added.
//!
//! Contracts see a list as its groups (`wasm_module_validator_type_storage::trees`): the tree of an id, what is stored of it, its
//! group and its supertype are functions of these. Tests of subtyping follow the supertypes that types declare, and a type's depth is how
//! far it stands below one without a supertype. [`TypeList::commit`] gives a list of the same types, which takes no more.
#![tactic(auto)]

mod beside;
mod ids;
mod index;
mod interning;
mod known;
pub mod laws;
mod list;
mod lists;
mod stored;
mod subtypes;
mod uniform;
mod values;

pub use ids::RecGroupId;
pub use list::{MAX_TYPES, TypeList};
