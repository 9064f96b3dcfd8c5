//! Element segments (WebAssembly 3.0, binary format, element section).
//!
//! The rules and the reader are generic in what a constant expression is. `specs/Spells.antt` says which bytes spell a segment.

mod element;
mod items;
pub mod laws;
mod segment;

pub use element::{ElementItemsOf, ElementKindOf, ElementOf};
