//! What names a type or a group, the sizes of what is named, a list of types that takes more, and values that are owned until
//! they are shared.
#![tactic(auto)]

mod alloc;
mod canonicalized;
mod data;
mod identifier;
mod info;
pub mod laws;
mod maybe_owned;

pub use alloc::TypeAlloc;
pub use canonicalized::{at_canonicalized_packed_index, at_canonicalized_unpacked_index};
pub use data::TypeData;
pub use identifier::TypeIdentifier;
pub use info::TypeInfo;
pub use maybe_owned::MaybeOwned;
