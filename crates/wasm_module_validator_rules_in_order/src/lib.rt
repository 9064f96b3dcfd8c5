//! Modules judged frame by frame: what each frame does to what was read before it (WebAssembly 3.0, binary format and validation,
//! modules).
//!
//! A validator that reads a module once has its frames one by one: the header, whole sections, the code section as its start and then
//! body by body, the end. `specs/` is read in the order of its `Lib.antt`: sections, their ids and places; when one more item may be
//! added, and what is tested where a section begins; which bytes stand for items; what a frame does. [`sections_are_added`] promises
//! that a section is added item by item exactly if it is valid as a whole and the module is within its limits then. There is no code
//! here: each law is the contract of a function that does nothing.
//!
//! [`contexts`] has what lies below it: each item judged in the context of what was read before it.
#![tactic(auto)]

pub mod contexts;
mod laws;
mod worked;

pub use laws::{
    frames_are_judged, fronts_are_within_limits, items_are_read, modules_are_of_sections,
    sections_are_added, sections_have_places, sections_stay,
};
pub use worked::steps_are_worked;
