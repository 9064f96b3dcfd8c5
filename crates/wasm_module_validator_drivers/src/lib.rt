//! Whole modules: their sections read, their bodies judged.
//!
//! [`SharedProgress`] keeps a module as `InProgress` does, and the list of types that one module after another is read
//! over. From the start of the code section on, what functions look up stays as it is: only a data section may follow, and
//! of that nothing is kept. So the module is shared, and each body that comes is handed on with [`ValidatorResources`],
//! which outlive the borrow of what keeps the module. `specs/Sharing.antt` says when what is kept stands for what was
//! judged. [`reading`] reads a whole module section by section, and [`judging`] judges the bodies of one whose sections
//! were read.
#![tactic(auto)]

mod data;
pub mod judging;
pub mod reading;
mod resources;
mod sharing;

pub use crate::reading::{
    Body, FuncToValidate, FuncValidator, FuncValidatorAllocations, HeldSettings, ModuleState,
    SharedModule, TypeList, check_header,
};
pub use resources::ValidatorResources;
pub use sharing::SharedProgress;
