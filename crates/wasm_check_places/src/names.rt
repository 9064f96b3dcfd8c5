//! The names of functions.
ghost use Rattle.wasm_types.specs.settings.Limits.{IsWithinCeilings};

use crate::judged::{Judged, payloads};
use wasm_sections::{CustomSectionReader, ExportSectionReader, ExternalKind, Payload};
use wasm_types::BinaryReader;

/// The name that a map of names has for an index.
fn name_in<'a>(reader: BinaryReader<'a>, index: u32) -> Option<&'a str> {
    let mut reader = reader;
    let Ok(count) = reader.read_var_u32() else {
        return None;
    };
    for _turn in 0..count {
        let Ok(at) = reader.read_var_u32() else {
            return None;
        };
        let Ok(name) = reader.read_string() else {
            return None;
        };
        if at == index {
            return Some(name);
        }
    }
    None
}

/// The name of a function in the name section (WebAssembly 3.0, appendix, custom sections, name section): its second subsection has them.
fn named_function<'a>(
    judged: Judged<'a>,
    section: &CustomSectionReader<'a>,
    index: u32,
) -> Option<&'a str>
    requires within { IsWithinCeilings judged.limits }
{
    let data = section.data();
    if data.len() >= 0x1_0000_0000 {
        return None;
    }
    let mut reader = BinaryReader::new_limited(data, 0, judged.features, judged.limits);
    for _turn in 0..data.len() {
        let Ok(id) = reader.read_u8() else {
            return None;
        };
        let Ok(part) = reader.read_reader() else {
            return None;
        };
        if id == 1 {
            return name_in(part, index);
        }
    }
    None
}

/// The first name by which a function is exported.
fn exported_function<'a>(section: ExportSectionReader<'a>, index: u32) -> Option<&'a str> {
    for export in section {
        let Ok(export) = export else {
            return None;
        };
        if export.kind == ExternalKind::Func && export.index == index {
            return Some(export.name);
        }
    }
    None
}

/// The name of a function that a payload has in the name section.
fn named_in<'a>(
    judged: Judged<'a>,
    section: &CustomSectionReader<'a>,
    index: u32,
) -> Option<&'a str>
    requires within { IsWithinCeilings judged.limits }
{
    if section.name() == "name" {
        return named_function(judged, section, index);
    }
    None
}

/// The name of a function: that of the name section, or one by which it is exported.
pub fn name_of<'a>(judged: Judged<'a>, index: u32) -> Option<&'a str>
    requires within { IsWithinCeilings judged.limits }
{
    let mut exported = None;
    for payload in payloads(judged) {
        match payload {
            Ok(Payload::ExportSection(section)) => exported = exported_function(section, index),
            Ok(Payload::CustomSection(section)) => {
                if let Some(name) = named_in(judged, &section, index) {
                    return Some(name);
                }
            }
            Ok(_) => (),
            Err(_) => return exported,
        }
    }
    exported
}
