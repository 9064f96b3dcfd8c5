//! Payloads.

ghost use Rattle.std.specs.Prelude.{◌≡◌, false, IfErr, MatchResult};
ghost use Rattle.wasm_types.specs.reader.Reading.{Fails, IsNotMemory};
ghost use Rattle.wasm_types.specs.settings.Limits.{IsWithinCeilings};
ghost use Rattle.wasm_sections.specs.Payloads.{front_of, is_early, read_by, IsSectionOf, IsPayloadOf, IsRefusedAs};

use crate::counts::{read_items, read_only_number};
use crate::{
    DataSectionReader, ElementSectionReader, ExportSectionReader, FunctionSectionReader,
    GlobalSectionReader, ImportSectionReader, MemorySectionReader, TableSectionReader,
    TagSectionReader, TypeSectionReader,
};
use std::alloc::Global;
use std::ops::Range;
use wasm_operators_bodies::FunctionBody;
use wasm_sections_parser::{CustomSectionReader, Encoding, Frame};
use wasm_types::{BinaryReader, Limits, Result, WasmFeatures, Words};

/// A piece of a module (WebAssembly 3.0, binary format, modules).
#[derive(Drop)]
pub enum Payload<'a> {
    /// The header.
    Version {
        /// The version's number.
        num: u16,
        /// What the bytes are.
        encoding: Encoding,
        /// The offsets of the header.
        range: Range<u64>,
    },
    /// The type section.
    TypeSection(TypeSectionReader<'a>),
    /// The import section.
    ImportSection(ImportSectionReader<'a>),
    /// The function section.
    FunctionSection(FunctionSectionReader<'a>),
    /// The table section.
    TableSection(TableSectionReader<'a>),
    /// The memory section.
    MemorySection(MemorySectionReader<'a>),
    /// The tag section.
    TagSection(TagSectionReader<'a>),
    /// The global section.
    GlobalSection(GlobalSectionReader<'a>),
    /// The export section.
    ExportSection(ExportSectionReader<'a>),
    /// The start section.
    StartSection {
        /// The index of the function.
        func: u32,
        /// The offsets of the contents.
        range: Range<u64>,
    },
    /// The element section.
    ElementSection(ElementSectionReader<'a>),
    /// The data count section.
    DataCountSection {
        /// How many data segments there are to be.
        count: u32,
        /// The offsets of the contents.
        range: Range<u64>,
    },
    /// The data section.
    DataSection(DataSectionReader<'a>),
    /// The start of the code section.
    CodeSectionStart {
        /// How many bodies follow.
        count: u32,
        /// The offsets of the contents, the count too, by the size that was read: they may end behind all that there is.
        unchecked_range: Range<u64>,
        /// The size of the contents in bytes, the count too.
        size: u32,
    },
    /// A body.
    CodeSectionEntry(FunctionBody<'a>),
    /// A custom section.
    CustomSection(CustomSectionReader<'a>),
    /// A section of another id.
    UnknownSection {
        /// Its id.
        id: u8,
        /// Its contents.
        contents: &'a [u8],
        /// The offsets of the contents.
        range: Range<u64>,
    },
    /// The end of the module, at this offset.
    End(u64),
}

// A section of this id and these contents.
fn read_section<'a>(alloc: Global, id: u8, reader: BinaryReader<'a>) -> Result<Payload<'a>>
    ensures answer { MatchResult result (IsSectionOf id reader.entry) (λ e. Fails e (front_of id reader.entry)) }
    ensures no_memory { IfErr result (λ e. IsNotMemory e.kind) }
{
    if id == 1 {
        return Ok(Payload::TypeSection(read_items(alloc, reader)?));
    }
    if id == 2 {
        return Ok(Payload::ImportSection(read_items(alloc, reader)?));
    }
    if id == 3 {
        return Ok(Payload::FunctionSection(read_items(alloc, reader)?));
    }
    if id == 4 {
        return Ok(Payload::TableSection(read_items(alloc, reader)?));
    }
    if id == 5 {
        return Ok(Payload::MemorySection(read_items(alloc, reader)?));
    }
    if id == 6 {
        return Ok(Payload::GlobalSection(read_items(alloc, reader)?));
    }
    if id == 7 {
        return Ok(Payload::ExportSection(read_items(alloc, reader)?));
    }
    read_late_section(alloc, id, reader)
}

// The same, of the ids from 8 on.
fn read_late_section<'a>(alloc: Global, id: u8, reader: BinaryReader<'a>) -> Result<Payload<'a>>
    requires { is_early id ≡ false }
    ensures answer { MatchResult result (IsSectionOf id reader.entry) (λ e. Fails e (front_of id reader.entry)) }
    ensures no_memory { IfErr result (λ e. IsNotMemory e.kind) }
{
    let range = reader.range();
    if id == 8 {
        let func = read_only_number(reader, Words::UnexpectedContentInTheStartSection)?;
        return Ok(Payload::StartSection { func, range });
    }
    if id == 9 {
        return Ok(Payload::ElementSection(read_items(alloc, reader)?));
    }
    if id == 11 {
        return Ok(Payload::DataSection(read_items(alloc, reader)?));
    }
    if id == 12 {
        let count = read_only_number(reader, Words::UnexpectedContentInTheDataCountSection)?;
        return Ok(Payload::DataCountSection { count, range });
    }
    if id == 13 {
        return Ok(Payload::TagSection(read_items(alloc, reader)?));
    }
    let mut reader = reader;
    let contents = reader.read_bytes(reader.bytes_remaining())?;
    Ok(Payload::UnknownSection {
        id,
        contents,
        range,
    })
}

impl<'a> Payload<'a> {
    /// The same payload, whose items are read by these features and limits, whatever its reader had.
    pub fn read_by(self, features: WasmFeatures, limits: Limits) -> Payload<'a>
        requires within { IsWithinCeilings limits }
        ensures { result ≡ read_by (record { features = features.0; limits = limits }) self.entry }
    {
        match self {
            Payload::TypeSection(it) => Payload::TypeSection(it.read_by(features, limits)),
            Payload::ImportSection(it) => Payload::ImportSection(it.read_by(features, limits)),
            Payload::FunctionSection(it) => Payload::FunctionSection(it.read_by(features, limits)),
            Payload::TableSection(it) => Payload::TableSection(it.read_by(features, limits)),
            Payload::MemorySection(it) => Payload::MemorySection(it.read_by(features, limits)),
            Payload::TagSection(it) => Payload::TagSection(it.read_by(features, limits)),
            Payload::GlobalSection(it) => Payload::GlobalSection(it.read_by(features, limits)),
            Payload::ExportSection(it) => Payload::ExportSection(it.read_by(features, limits)),
            Payload::ElementSection(it) => Payload::ElementSection(it.read_by(features, limits)),
            Payload::DataSection(it) => Payload::DataSection(it.read_by(features, limits)),
            Payload::Version {
                num,
                encoding,
                range,
            } => Payload::Version {
                num,
                encoding,
                range,
            },
            Payload::StartSection { func, range } => Payload::StartSection { func, range },
            Payload::DataCountSection { count, range } => {
                Payload::DataCountSection { count, range }
            }
            Payload::CodeSectionStart {
                count,
                unchecked_range,
                size,
            } => Payload::CodeSectionStart {
                count,
                unchecked_range,
                size,
            },
            Payload::CodeSectionEntry(body) => Payload::CodeSectionEntry(body),
            Payload::CustomSection(section) => Payload::CustomSection(section),
            Payload::UnknownSection {
                id,
                contents,
                range,
            } => Payload::UnknownSection {
                id,
                contents,
                range,
            },
            Payload::End(place) => Payload::End(place),
        }
    }

    /// The payload that a frame is. Of a section only the count is read, or the number that a start section and a data count
    /// section are; what is read of the items takes memory of `alloc`.
    ///
    /// # Errors
    ///
    /// A section's contents don't begin with its count, or a start section or a data count section is not one number.
    pub fn from_frame(alloc: Global, frame: Frame<'a>) -> Result<Payload<'a>>
        ensures answer { MatchResult result (IsPayloadOf frame.entry) (IsRefusedAs frame.entry) }
        ensures no_memory { IfErr result (λ e. IsNotMemory e.kind) }
    {
        match frame {
            Frame::Version {
                num,
                encoding,
                range,
            } => Ok(Payload::Version {
                num,
                encoding,
                range,
            }),
            Frame::Custom(section) => Ok(Payload::CustomSection(section)),
            Frame::Section { id, reader } => read_section(alloc, id, reader),
            Frame::CodeStart { count, range, size } => Ok(Payload::CodeSectionStart {
                count,
                unchecked_range: range,
                size,
            }),
            Frame::CodeEntry(reader) => {
                Ok(Payload::CodeSectionEntry(FunctionBody::new(alloc, reader)))
            }
            Frame::End(place) => Ok(Payload::End(place)),
        }
    }
}
