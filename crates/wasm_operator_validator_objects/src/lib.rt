//! Checks of the operators on structs, arrays, `i31`, casts and conversions (WebAssembly 3.0, validation, aggregate and reference
//! instructions, branches on casts).
//!
//! Each check decides its operator: it is not refused exactly if the operator may come, out of memory aside, and leaves what may
//! follow (`Checks` of `wasm_operator_validator_state`).
//!
//! [`steps`] has what the checks share: the test at the entry, and the exchange of operands by the only row that an operator has.
//! [`naming`] looks up what an index names. Where the table of instruction types has the operator, its check owes the equation alone.
//! What is looked up and compared here serves `wasm_operator_validator_proposals` too.
#![tactic(auto)]

mod arrays;
mod casts;
mod conversions;
mod either;
mod naming;
mod popping;
mod segments;
mod steps;
mod storage;
mod structs;
mod tests;

pub use arrays::{
    check_array_fill, check_array_get, check_array_new, check_array_new_default,
    check_array_new_fixed, check_array_set,
};
pub use casts::{cast_of, check_br_on_cast, split_label, taken_and_left};
pub use conversions::{check_any_convert_extern, check_extern_convert_any};
pub use either::{check_array_len, check_i31_get, check_ref_eq};
pub use naming::{
    abstract_reference, allocated, element_at, field_at, heap_at, reference_at, struct_at,
    used_type,
};
pub use popping::pop_fields;
pub use segments::{
    check_array_copy, check_array_init_data, check_array_init_elem, check_array_new_data,
    check_array_new_elem,
};
pub use storage::are_defaultable;
pub use structs::{check_struct_get, check_struct_new, check_struct_new_default, check_struct_set};
pub use tests::{castable_top, check_ref_cast, check_ref_i31, check_ref_test};
