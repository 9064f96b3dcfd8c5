//! The contents of a section as a count and as many items (WebAssembly 3.0, binary format, modules).
//!
//! A [`SectionLimited`] reads the count at once and its items one by one, plainly or each with its offset. Behind the last
//! item no byte may be left. `specs/limited/Walking.antt` says what comes next where a walk stands; `laws` promises that a walk
//! ends without an error exactly if the contents spell the items. The function types of a type section come by themselves
//! too (`specs/limited/Functions.antt`).

mod func_types;
pub mod laws;
mod section;
mod walk;

pub use func_types::FuncTypesIntoIter;
pub use section::SectionLimited;
pub use walk::{SectionLimitedIntoIter, SectionLimitedIntoIterWithOffsets};
