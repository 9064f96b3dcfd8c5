//! The parts of a module: their names, and the chapters of the standard that have their rules and their bytes.

use crate::place::Offsets;
use std::ops::Range;
use wasm_sections::Payload;

/// A part of a module: its header, a section or its end.
#[derive(Clone, Copy)]
pub enum Part {
    Header,
    Types,
    Imports,
    Functions,
    Tables,
    Memories,
    Tags,
    Globals,
    Exports,
    Start,
    Elements,
    DataCount,
    Data,
    Code,
    /// A custom section.
    Custom,
    /// A section of an id that the standard does not know.
    Unknown,
    End,
}

impl Part {
    /// What it is called, in a sentence.
    pub(crate) fn name(self) -> &'static str {
        match self {
            Part::Header => "the header",
            Part::Types => "the type section",
            Part::Imports => "the import section",
            Part::Functions => "the function section",
            Part::Tables => "the table section",
            Part::Memories => "the memory section",
            Part::Tags => "the tag section",
            Part::Globals => "the global section",
            Part::Exports => "the export section",
            Part::Start => "the start section",
            Part::Elements => "the element section",
            Part::DataCount => "the data count section",
            Part::Data => "the data section",
            Part::Code => "the code section",
            Part::Custom => "a custom section",
            Part::Unknown => "a section of unknown id",
            Part::End => "the module's end",
        }
    }

    /// Its word for programs.
    pub(crate) fn word(self) -> &'static str {
        match self {
            Part::Header => "header",
            Part::Types => "type",
            Part::Imports => "import",
            Part::Functions => "function",
            Part::Tables => "table",
            Part::Memories => "memory",
            Part::Tags => "tag",
            Part::Globals => "global",
            Part::Exports => "export",
            Part::Start => "start",
            Part::Elements => "element",
            Part::DataCount => "data count",
            Part::Data => "data",
            Part::Code => "code",
            Part::Custom => "custom",
            Part::Unknown => "unknown",
            Part::End => "end",
        }
    }

    /// The chapter of the standard that has its rules.
    pub fn chapter(self) -> &'static str {
        match self {
            Part::Types => "WebAssembly 3.0, validation, modules, types",
            Part::Imports => "WebAssembly 3.0, validation, modules, imports",
            Part::Functions => "WebAssembly 3.0, validation, modules, functions",
            Part::Tables => "WebAssembly 3.0, validation, modules, tables",
            Part::Memories => "WebAssembly 3.0, validation, modules, memories",
            Part::Tags => "WebAssembly 3.0, validation, modules, tags",
            Part::Globals => "WebAssembly 3.0, validation, modules, globals",
            Part::Exports => "WebAssembly 3.0, validation, modules, exports",
            Part::Start => "WebAssembly 3.0, validation, modules, start function",
            Part::Elements => "WebAssembly 3.0, validation, modules, element segments",
            Part::Data => "WebAssembly 3.0, validation, modules, data segments",
            Part::Code => "WebAssembly 3.0, validation, modules, functions",
            _ => self.spelling(),
        }
    }

    /// The chapter of the standard that has its bytes.
    pub fn spelling(self) -> &'static str {
        match self {
            Part::Types => "WebAssembly 3.0, binary format, modules, type section",
            Part::Imports => "WebAssembly 3.0, binary format, modules, import section",
            Part::Functions => "WebAssembly 3.0, binary format, modules, function section",
            Part::Tables => "WebAssembly 3.0, binary format, modules, table section",
            Part::Memories => "WebAssembly 3.0, binary format, modules, memory section",
            Part::Tags => "WebAssembly 3.0, binary format, modules, tag section",
            Part::Globals => "WebAssembly 3.0, binary format, modules, global section",
            Part::Exports => "WebAssembly 3.0, binary format, modules, export section",
            Part::Start => "WebAssembly 3.0, binary format, modules, start section",
            Part::Elements => "WebAssembly 3.0, binary format, modules, element section",
            Part::DataCount => "WebAssembly 3.0, binary format, modules, data count section",
            Part::Data => "WebAssembly 3.0, binary format, modules, data section",
            Part::Code => "WebAssembly 3.0, binary format, modules, code section",
            Part::Custom => "WebAssembly 3.0, binary format, modules, custom section",
            Part::Unknown => "WebAssembly 3.0, binary format, modules, sections",
            Part::Header => "WebAssembly 3.0, binary format, modules",
            Part::End => "WebAssembly 3.0, binary format, modules",
        }
    }
}

/// These offsets.
fn offsets(range: Range<u64>) -> Offsets {
    Offsets {
        start: range.start,
        end: range.end,
    }
}

/// Which part a payload is.
pub fn part_of(payload: &Payload<'_>) -> Part {
    match payload {
        Payload::Version { .. } => Part::Header,
        Payload::TypeSection(_) => Part::Types,
        Payload::ImportSection(_) => Part::Imports,
        Payload::FunctionSection(_) => Part::Functions,
        Payload::TableSection(_) => Part::Tables,
        Payload::MemorySection(_) => Part::Memories,
        Payload::TagSection(_) => Part::Tags,
        Payload::GlobalSection(_) => Part::Globals,
        Payload::ExportSection(_) => Part::Exports,
        Payload::StartSection { .. } => Part::Start,
        Payload::ElementSection(_) => Part::Elements,
        Payload::DataCountSection { .. } => Part::DataCount,
        Payload::DataSection(_) => Part::Data,
        Payload::CodeSectionStart { .. } => Part::Code,
        Payload::CodeSectionEntry(_) => Part::Code,
        Payload::CustomSection(_) => Part::Custom,
        Payload::UnknownSection { .. } => Part::Unknown,
        Payload::End(_) => Part::End,
    }
}

/// The offsets of a payload.
pub fn offsets_of(payload: &Payload<'_>) -> Offsets {
    match payload {
        Payload::Version { range, .. } => offsets(range.start..range.end),
        Payload::TypeSection(section) => offsets(section.range()),
        Payload::ImportSection(section) => offsets(section.range()),
        Payload::FunctionSection(section) => offsets(section.range()),
        Payload::TableSection(section) => offsets(section.range()),
        Payload::MemorySection(section) => offsets(section.range()),
        Payload::TagSection(section) => offsets(section.range()),
        Payload::GlobalSection(section) => offsets(section.range()),
        Payload::ExportSection(section) => offsets(section.range()),
        Payload::StartSection { range, .. } => offsets(range.start..range.end),
        Payload::ElementSection(section) => offsets(section.range()),
        Payload::DataCountSection { range, .. } => offsets(range.start..range.end),
        Payload::DataSection(section) => offsets(section.range()),
        Payload::CodeSectionStart {
            unchecked_range,
            ..
        } => offsets(unchecked_range.start..unchecked_range.end),
        Payload::CodeSectionEntry(body) => offsets(body.range()),
        Payload::CustomSection(section) => offsets(section.range()),
        Payload::UnknownSection { range, .. } => offsets(range.start..range.end),
        Payload::End(offset) => offsets(*offset..*offset),
    }
}
