//! The frames of a module.

ghost use Rattle.std.specs.Prelude.{◌≡◌};

use std::ops::Range;
use wasm_types::BinaryReader;

/// What the bytes are, by the layer of the header.
#[derive(Clone, Copy)]
pub enum Encoding {
    /// A module, layer 0.
    Module,
    /// A component, layer 1.
    Component,
}

/// A custom section (WebAssembly 3.0, binary format, custom section).
#[derive(Drop)]
pub struct CustomSectionReader<'a> {
    pub(crate) name: &'a str,
    pub(crate) data: &'a [u8],
    pub(crate) data_offset: u64,
    pub(crate) range: Range<u64>,
}

impl<'a> CustomSectionReader<'a> {
    /// Its name.
    pub fn name(&self) -> &'a str
        ensures { result.now ≡ self.now.name.now }
    {
        self.name
    }

    /// What follows the name.
    pub fn data(&self) -> &'a [u8]
        ensures { result.now ≡ self.now.«data».now }
    {
        self.data
    }

    /// The offset of what follows the name.
    pub fn data_offset(&self) -> u64
        ensures { result ≡ self.now.data_offset }
    {
        self.data_offset
    }

    /// The offsets of the contents, the name too.
    pub fn range(&self) -> Range<u64>
        ensures { result ≡ self.now.range }
    {
        Range {
            start: self.range.start,
            end: self.range.end,
        }
    }
}

/// A piece of a module.
#[derive(Drop)]
pub enum Frame<'a> {
    /// The header.
    Version {
        /// The version's number.
        num: u16,
        /// What the bytes are.
        encoding: Encoding,
        /// The offsets of the header.
        range: Range<u64>,
    },
    /// A custom section.
    Custom(CustomSectionReader<'a>),
    /// Another section than the code section, whole.
    Section {
        /// Its id.
        id: u8,
        /// Its contents.
        reader: BinaryReader<'a>,
    },
    /// The start of the code section.
    CodeStart {
        /// How many bodies follow.
        count: u32,
        /// The offsets of the contents, the count too; they may end behind all that there is.
        range: Range<u64>,
        /// The size of the contents in bytes, the count too.
        size: u32,
    },
    /// The bytes of a body.
    CodeEntry(BinaryReader<'a>),
    /// The end of the module, at this offset.
    End(u64),
}
