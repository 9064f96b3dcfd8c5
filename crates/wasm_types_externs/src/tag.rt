//! Tag types.

/// What a tag is for.
#[derive(Clone, Copy, Debug, PartialEq, Eq, Hash)]
pub enum TagKind {
    /// An exception.
    Exception,
}

/// A tag (WebAssembly 3.0, structure, tag types).
#[derive(Clone, Copy, Debug, PartialEq, Eq, Hash)]
pub struct TagType {
    /// What it is for.
    pub kind: TagKind,
    /// The index of its function type among the types of the module.
    pub func_type_idx: u32,
}
