//! Imports and exports of a module (WebAssembly 3.0, binary format, modules; exact functions by the proposal on custom
//! descriptors).
//!
//! Each is read by its `FromReader`, under whatever features, and takes no memory. `specs/Spells.antt` says which bytes
//! spell it.

mod export;
mod import;
mod kind;
pub mod laws;
mod type_ref;

pub use export::Export;
pub use import::Import;
pub use kind::ExternalKind;
pub use type_ref::TypeRef;
