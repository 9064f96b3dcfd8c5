//! A module that is being read, payload by payload (WebAssembly 3.0, validation, modules).
//!
//! [`InProgress`] keeps the state of a module and the list of its types. [`InProgress::take_payload`] takes what comes next: a section is
//! checked item by item, a body is kept with the index of its type. A section of items is taken alike whatever its items are: a
//! [`SectionItem`] says which section it stands in, how many of it there may be, and how one is added. `specs/Progress.antt` says when what
//! is kept stands for what was judged: each call is Ok exactly if its frame may come next by the rules, and what is kept then stands
//! for whatever was judged with it.
//!
//! Behind a module comes another, over the same list of types ([`InProgress::renew`]); and what was read is given, so that it may be shared
//! ([`SharedModule`]).
#![tactic(auto)]

mod collected;
mod frames;
mod imports;
mod items;
mod kinds;
mod payloads;
mod progress;
mod settings;
mod shared;

pub use collected::Collected;
pub use items::SectionItem;
pub use payloads::check_header;
pub use progress::InProgress;
pub use settings::HeldSettings;
pub use shared::SharedModule;
pub use wasm_module_validator_initialisers::adding::{
    OperatorValidatorAllocations, check_data_with, check_short_data_item,
};
pub use wasm_module_validator_section_order::items::Body;
pub use wasm_module_validator_state::invariant::ModuleState;
pub use wasm_module_validator_type_list::TypeList;
