//! Groups of types in canonical form, and types matched by their ids.
//!
//! The unit of canonical form is a recursion group, and all groups before it have theirs already. Each index of a module in
//! the group becomes the id that its type has, if it names a type before the group, or the type's place in the group itself
//! (WebAssembly 3.0, validation, types, rolling). So groups that are built alike become equal, wherever they are:
//!
//!     before  (rec (struct (field 1)) (struct (field 0)))  (rec (struct (field 3)) (struct (field 2)))
//!     after   (rec (struct (field .1)) (struct (field .0)))  the same
//!
//! and equal groups are one group of the list: two types are the same exactly if their ids are. `specs/Canonical.antt` says
//! what the canonical form is, and which indices a group may have; those are the only refusals here. By
//! `canonical_forms_unfold` it stands for the types that the group as written stands for.
//!
//! [`matches`] decides one link of a chain of subtypes: that a type's structure matches that of the supertype that it
//! declares. It never follows the chain: earlier links were matched at their declaration, so `(struct (field (ref 5)))`
//! matches `(struct (field (ref 4)))` if 5 is 4 or declares it, directly or by others. With ids in place of types that is
//! what `Matches` says of the types that they stand for (`ids_match_as_types`). Nothing there takes memory.
#![tactic(auto)]

mod canonicalizer;
mod check;
mod intern;
pub mod laws;
pub mod matches;
mod parts;

pub use canonicalizer::TypeCanonicalizer;
pub use intern::InternRecGroup;
