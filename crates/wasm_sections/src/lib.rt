//! What the sections of a module hold, from bytes (WebAssembly 3.0, binary format, modules). The public crate of this
//! layer.
//!
//! [`Parser::parse`] gives the frames of a module as payloads, each section with a reader of its items, from pieces or from
//! all of it; [`Parser::parse_all`] walks over a module. The items are read as they are asked for; here only a section's
//! count is. `specs/Payloads.antt` says which payload a frame is, `specs/Parsing.antt` what a call of [`Parser::parse`]
//! answers, and `specs/Walking.antt` what comes next of [`Parser::parse_all`]. Constant expressions are those of
//! `wasm_operators_bodies`, [`ConstExpr`].
//!
//! Items, sections and frames by themselves are in `wasm_sections_items` and `wasm_sections_parser`, which are passed on
//! with their rules; the laws of all three are together in [`laws`].
#![tactic(auto)]

mod counts;
mod items;
pub mod laws;
mod parser;
mod payload;
pub mod payloads_laws;
mod walk;

pub use items::{
    CodeSectionReader, Data, DataKind, DataSectionReader, Element, ElementItems, ElementKind,
    ElementSectionReader, ExportSectionReader, FunctionSectionReader, Global, GlobalSectionReader,
    ImportSectionReader, MemorySectionReader, Table, TableInit, TableSectionReader,
    TagSectionReader, TypeSectionReader,
};
pub use parser::{Chunk, Parser};
pub use payload::Payload;
pub use walk::ParseAll;
pub use wasm_operators_bodies::{ConstExpr, FunctionBody};
pub use wasm_sections_items::elements::{ElementItemsOf, ElementKindOf, ElementOf};
pub use wasm_sections_items::imports::{Export, ExternalKind, Import, TypeRef};
pub use wasm_sections_items::limited::{
    FuncTypesIntoIter, SectionLimited, SectionLimitedIntoIter, SectionLimitedIntoIterWithOffsets,
};
pub use wasm_sections_items::segments::{DataKindOf, DataOf, GlobalOf, TableInitOf, TableOf};
pub use wasm_sections_parser::{CustomSectionReader, Encoding, Frame};
