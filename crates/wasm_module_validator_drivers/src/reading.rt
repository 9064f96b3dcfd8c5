//! A whole module, read section by section (WebAssembly 3.0, validation, modules).
//!
//! [`read_module`] is Ok exactly if the bytes are a module whose frames are judged one after the other, out of memory and the total of
//! types aside; what is kept then stands for whatever was read so (`specs/reading/Reading.antt`). Bodies are kept as bytes.

mod reading;

pub use crate::judging::{
    Body, FuncToValidate, FuncValidator, FuncValidatorAllocations, HeldSettings, InProgress,
    ModuleState, OperatorValidatorAllocations, SectionItem, SharedModule, TypeList,
    check_data_with, check_header, check_short_data_item, judge, judge_bodies, judge_part,
};
pub use reading::read_module;
