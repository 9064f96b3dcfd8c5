//! A validator of WebAssembly modules. The public crate of this layer.
//!
//! [`validate`] judges all the bytes of one module, and so does a [`Validator`]. Both promise Ok exactly if the bytes spell
//! a module that is valid by the rules of `wasm_module_validator_rules`, under the features that are allowed and the limits
//! that hold, out of memory aside (`specs/Accepts.antt`). A module is read section by section, and its bodies are judged
//! after the last.
//!
//! Or a parser's payloads are taken one by one, each by a method of the [`Validator`]: `specs/Methods.antt` says what each
//! accepts and leaves. [`Validator::code_section_entry`] hands each function out, to be judged whenever it suits.
//!
//! A validator has one list of types for all its modules, so that ids of two modules may be compared ([`Types`],
//! [`TypeList`]). What is looked up in a module, and what lists of types are made of, is passed on from the crates below.
//!
//! [`soundness`] says that no run of a valid module is stuck, and that at each place of a run each value fits what the rules know of it
//! ([`accepted_is_sound`], [`modules_are_sound`]).
#![tactic(auto)]

mod laws;
mod lists;
mod methods;
mod parts;
mod payloads;
pub mod soundness;
mod types;
mod validator;

pub use laws::{
    ids_stay, lists_are_worked, states_are_worked, validators_begin, vectors_are_asked_for,
    verdicts_are_isolated,
};
pub use lists::Verdict;
pub use parts::{parts_are_whole, parts_are_worked, validate_part};
pub use payloads::ValidPayload;
pub use soundness::{accepted_is_sound, default_is_standard, modules_are_sound};
pub use types::Types;
pub use validator::{State, Validator, validate};
pub use wasm_module_validator_canonical_types::matches::{Matches, WithRecGroup, types_match};
pub use wasm_module_validator_canonical_types::{InternRecGroup, TypeCanonicalizer};
pub use wasm_module_validator_checks::limits::Settings;
pub use wasm_module_validator_checks::sections::{check_data_count, check_start, get_func_type};
pub use wasm_module_validator_drivers::{
    FuncToValidate, FuncValidator, FuncValidatorAllocations, ModuleState, ValidatorResources,
};
pub use wasm_module_validator_index_spaces::view::{
    CoreExports, CoreImports, EntityType, RecGroupElements, RecGroupId, TypesRef, ValidatorId,
};
pub use wasm_module_validator_index_spaces::{Function, Module};
pub use wasm_module_validator_initialisers::adding::{add_element, add_global, add_table};
pub use wasm_module_validator_type_alloc::{
    MaybeOwned, TypeAlloc, TypeData, TypeIdentifier, TypeInfo, at_canonicalized_packed_index,
    at_canonicalized_unpacked_index,
};
pub use wasm_module_validator_type_groups::adding::{
    Module as ModuleTypes, canonicalize_and_intern_rec_group,
};
pub use wasm_module_validator_type_list::{MAX_TYPES, TypeList};
pub use wasm_module_validator_type_storage::snapshots::SnapshotList;
