//! The validator for callers in C, C++, Rust, Go and Python: a static library.
//!
//! Whole bytes go in; a number and a fault come out (`bindings/c/durskeyl.h` says the same in C's words). These calls keep nothing, none
//! depends on an earlier one, and nothing has to be freed, so any number of threads may call at once. `specs/Told.antt` says what
//! the number tells, and `specs/Listed.antt` what the rows of imports and exports do.
//!
//! Or a module is begun, its pieces go in one after the other, and the number comes out at the end. What is kept from call to call is in
//! a handle of the caller's, which belongs to one thread at a time. `specs/Pieces.antt` says what the numbers tell then.
//!
//! Or the types of a module that is accepted are kept in such a handle, and rows of numbers tell them. `specs/Kept.antt` says which rows.
#![tactic(auto)]

mod fault;
mod handle;
mod kept;
mod listing;
mod loose;
mod parts;
mod pieces;
mod settings;
mod types;
mod validate;

pub use fault::DurskeylFault;
pub use handle::DurskeylPieces;
pub use kept::DurskeylModule;
pub use listing::{durskeyl_exports, durskeyl_imports, durskeyl_start};
pub use parts::{durskeyl_validate_part, parts_tell_of_the_whole};
pub use pieces::{durskeyl_begin, durskeyl_drop, durskeyl_end, durskeyl_take};
pub use settings::{DurskeylSettings, durskeyl_features, durskeyl_settings_default};
pub use types::{
    durskeyl_entities, durskeyl_release, durskeyl_type_ids, durskeyl_type_values, durskeyl_types,
    durskeyl_validate_types,
};
pub use validate::{durskeyl_is_valid, durskeyl_validate, durskeyl_version};
