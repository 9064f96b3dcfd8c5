//! Checks of the operators of proposals that are not in the standard: structs with descriptors (custom descriptors), atomic accesses to
//! globals, tables, structs and arrays (shared everything), and continuations (stack switching).
//!
//! Each check decides its operator: it is not refused exactly if the operator may come, out of memory aside, and leaves what may
//! follow (`Checks` of `wasm_operator_validator_state`).
//!
//! Nearly every row here takes some operands above others, all of known types: [`steps`] exchanges them, with no list made of both, and
//! [`naming`] looks up what an index means, in a module or by an id. So a check is a few look-ups, what its rule asks of them, and one
//! exchange; [`descriptors`] has the only operator whose row is free.
#![tactic(auto)]

mod continuations;
mod descriptors;
mod handlers;
mod naming;
mod places;
mod shared_accesses;
mod steps;

pub use continuations::{
    check_cont_bind, check_cont_new, check_resume, check_resume_throw, check_resume_throw_ref,
    check_suspend, check_switch,
};
pub use descriptors::{
    check_br_on_cast_desc_eq, check_ref_cast_desc_eq, check_ref_get_desc,
    check_struct_new_default_desc, check_struct_new_desc,
};
pub use places::AtomicAccess;
pub use shared_accesses::{
    check_element_access, check_field_access, check_global_access, check_ref_i31_shared,
    check_table_access,
};
