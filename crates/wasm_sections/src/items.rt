//! What sections hold, over the constant expressions of this format.

use wasm_operators_bodies::{ConstExpr, FunctionBody};
use wasm_sections_items::elements::{ElementItemsOf, ElementKindOf, ElementOf};
use wasm_sections_items::imports::{Export, Import};
use wasm_sections_items::limited::SectionLimited;
use wasm_sections_items::segments::{DataKindOf, DataOf, GlobalOf, TableInitOf, TableOf};
use wasm_types::{MemoryType, RecGroup, TagType};

/// A global with its initial value.
pub type Global<'a> = GlobalOf<ConstExpr<'a>>;

/// A table, and what its elements are at first.
pub type Table<'a> = TableOf<ConstExpr<'a>>;

/// What the elements of a table are at first.
pub type TableInit<'a> = TableInitOf<ConstExpr<'a>>;

/// An element segment.
pub type Element<'a> = ElementOf<'a, ConstExpr<'a>>;

/// How an element segment is used.
pub type ElementKind<'a> = ElementKindOf<ConstExpr<'a>>;

/// The elements of an element segment.
pub type ElementItems<'a> = ElementItemsOf<'a, ConstExpr<'a>>;

/// A data segment.
pub type Data<'a> = DataOf<'a, ConstExpr<'a>>;

/// How a data segment is used.
pub type DataKind<'a> = DataKindOf<ConstExpr<'a>>;

/// The groups of a type section.
pub type TypeSectionReader<'a> = SectionLimited<'a, RecGroup>;

/// The imports of an import section.
pub type ImportSectionReader<'a> = SectionLimited<'a, Import<'a>>;

/// The indices of types in a function section.
pub type FunctionSectionReader<'a> = SectionLimited<'a, u32>;

/// The tables of a table section.
pub type TableSectionReader<'a> = SectionLimited<'a, Table<'a>>;

/// The memories of a memory section.
pub type MemorySectionReader<'a> = SectionLimited<'a, MemoryType>;

/// The tags of a tag section.
pub type TagSectionReader<'a> = SectionLimited<'a, TagType>;

/// The globals of a global section.
pub type GlobalSectionReader<'a> = SectionLimited<'a, Global<'a>>;

/// The exports of an export section.
pub type ExportSectionReader<'a> = SectionLimited<'a, Export<'a>>;

/// The segments of an element section.
pub type ElementSectionReader<'a> = SectionLimited<'a, Element<'a>>;

/// The bodies of a code section, in contents that are all there.
pub type CodeSectionReader<'a> = SectionLimited<'a, FunctionBody<'a>>;

/// The segments of a data section.
pub type DataSectionReader<'a> = SectionLimited<'a, Data<'a>>;
