//! Where a section stands.

ghost use Rattle.std.specs.Prelude.{◌≡◌};
ghost use Rattle.wasm_module_validator_import_export_places.specs.Sections.{FindsSection, BeginsWithin};

use crate::names::number_at;

/// How many bytes the header of a module has.
const HEADER: usize = 8;

/// What was found of a section.
#[derive(Clone, Copy)]
pub(crate) enum Section {
    /// The bytes are no sections.
    Broken,
    /// There is none of this id.
    Absent,
    /// Its contents begin here.
    At(usize),
}

/// The section with an id, which is one of a section of items, behind the header.
pub(crate) fn section_of(bytes: &[u8], id: u8) -> Section
    requires custom { id ≡ 0 → ⊥ }
    requires code { id ≡ 10 → ⊥ }
    ensures found { FindsSection id bytes.now result }
    ensures inside { BeginsWithin bytes.now result }
{
    if bytes.len() < HEADER {
        return Section::Broken;
    }
    let mut at = HEADER;
    while at < bytes.len() {
        let Some((size, start)) = number_at(bytes, at + 1) else {
            return Section::Broken;
        };
        if size as usize > bytes.len() - start {
            return Section::Broken;
        }
        if bytes[at] == id {
            return Section::At(start);
        }
        at = start + size as usize;
    }
    Section::Absent
}
