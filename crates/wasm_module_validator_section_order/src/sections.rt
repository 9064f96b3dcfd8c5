//! Sections as they are read item by item, and the trees that the same bytes spell (WebAssembly 3.0, binary format and validation,
//! modules).
//!
//! A reader of a section gives its items with the bytes of their constant expressions; the rules of modules speak of trees with code.
//! `specs/sections/Grammars.antt` says which bytes give what is read of an item, and which spell the item; `specs/sections/Sections.antt` what items that
//! are read add to a module; `specs/sections/Kinds.antt` what the readers of each kind of section give. [`sections_are_judged_by_items`] promises
//! that a section is judged exactly if its items lead, one by one, from what was read before to what is read then, and
//! [`walks_tell_of_sections`] what the contract of `add_items` tells of it. There is no code here: each law is the contract of a
//! function that does nothing.

mod laws;

pub use laws::{
    items_add_to_trees, items_stand_for_trees, sections_are_judged_by_items, walks_tell_of_sections,
};
