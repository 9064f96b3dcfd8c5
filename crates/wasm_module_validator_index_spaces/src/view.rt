//! What is looked up in a module that was read: the types of all that stands in its index spaces, and the list that these types
//! stand in (WebAssembly 3.0, structure, modules, indices); and what its imports and exports are.
//!
//! A [`TypesRef`] borrows both. Contracts see it as `Shown` (`specs/Shown.antt`). `specs/Entities.antt` says what an import or an export
//! is.

mod entity;
mod groups;
pub mod laws;
mod named;
mod spaces;
mod types_ref;
mod validator_id;

pub use entity::EntityType;
pub use groups::RecGroupElements;
pub use named::{CoreExports, CoreImports};
pub use types_ref::TypesRef;
pub use validator_id::ValidatorId;
pub use wasm_module_validator_type_list::RecGroupId;
