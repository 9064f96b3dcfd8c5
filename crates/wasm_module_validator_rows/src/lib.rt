//! What is known of a module's types, as rows of numbers that a caller in C reads.
//!
//! `specs/Rows.antt`, `specs/Entities.antt` and `specs/Types.antt` say which numbers stand for which type, and `specs/Written.antt` which
//! rows are written.
#![tactic(auto)]

mod entities;
mod groups;
mod types;
mod values;
mod writing;

pub use entities::{EntityRow, kind_of};
pub use types::TypeRow;
pub use values::ValueRow;
pub use writing::{write_entities, write_ids, write_types, write_values};
