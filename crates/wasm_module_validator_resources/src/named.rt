//! Names of types.

use wasm_types::{AbstractHeapType, CoreTypeId};

/// What an index in code names: a type of the list, or nothing.
#[derive(Clone, Copy)]
pub(crate) enum Named {
    /// The type of an id that the list has.
    Known(CoreTypeId),
    /// A number past the last type.
    Unknown(u32),
}

/// What subtyping asks of a type besides what it is declared below.
#[derive(Clone, Copy)]
pub(crate) struct Shape {
    /// Whether it is shared.
    pub(crate) shared: bool,
    /// The abstract type of its constructor.
    pub(crate) kind: AbstractHeapType,
}

/// The ids of a group: the first of them, and how many there are.
#[derive(Clone, Copy)]
pub(crate) struct Span {
    /// The first id.
    pub(crate) first: u32,
    /// How many types the group has.
    pub(crate) len: u32,
}
