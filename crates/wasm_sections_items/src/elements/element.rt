//! What an element segment is.

use crate::limited::SectionLimited;
use std::ops::Range;
use wasm_types::{FromReader, RefType};

/// How an element segment is used, where its offset is a constant expression of this type.
#[derive(Drop)]
pub enum ElementKindOf<E: Drop> {
    /// Instructions copy it.
    Passive,
    /// It is copied at first.
    Active {
        /// The index of the table that it is copied into, where one is named; else it is table 0.
        table_index: Option<u32>,
        /// The index of the first element there.
        offset_expr: E,
    },
    /// It declares the functions that bodies refer to, and is not used otherwise.
    Declared,
}

/// The elements of a segment, which are read as they are asked for.
#[derive(Drop)]
pub enum ElementItemsOf<'a, E: FromReader<'a>> {
    /// References to functions, by their indices.
    Functions(SectionLimited<'a, u32>),
    /// References of a type, by constant expressions.
    Expressions(RefType, SectionLimited<'a, E>),
}

/// An element segment (WebAssembly 3.0, binary format, element section).
#[derive(Drop)]
pub struct ElementOf<'a, E: FromReader<'a>> {
    /// How it is used.
    pub kind: ElementKindOf<E>,
    /// Its elements.
    pub items: ElementItemsOf<'a, E>,
    /// The offsets of all of it.
    pub range: Range<u64>,
}
