//! One entry where it stands.

ghost use Rattle.std.specs.Prelude.{◌≡◌, ◌<◌, ◌≤◌, length, IfSome};
ghost use Rattle.wasm_sections_items.specs.imports.Spells.{kind_of as kind};
ghost use Rattle.wasm_module_validator_import_export_places.specs.Finding.{Finds};
ghost use Rattle.wasm_module_validator_import_export_places.specs.Entries.{kind_number, IsType, IsKindOf, IsImport, IsExport, TellsImport, TellsExport, ImportWithin, ExportWithin, IsExportKind, IsKindNumber};

use crate::names::{name_at, number_at};
use crate::rows::{ExportRow, ImportRow};
use std::alloc::Global;
use wasm_sections_items::imports::{ExternalKind, TypeRef};
use wasm_types::{BinaryReader, FromReader};

/// The number of a kind. A function of exactly its type is a function.
fn number_of(kind: ExternalKind) -> u32
    ensures { result ≡ kind_number kind }
{
    match kind {
        ExternalKind::Func => 0,
        ExternalKind::Table => 1,
        ExternalKind::Memory => 2,
        ExternalKind::Global => 3,
        ExternalKind::Tag => 4,
        ExternalKind::FuncExact => 0,
    }
}

/// The kind of what is imported.
fn kind_of(ty: &TypeRef) -> ExternalKind
    ensures { result ≡ kind ty.now }
{
    match ty {
        TypeRef::Func(_) => ExternalKind::Func,
        TypeRef::Table(_) => ExternalKind::Table,
        TypeRef::Memory(_) => ExternalKind::Memory,
        TypeRef::Global(_) => ExternalKind::Global,
        TypeRef::Tag(_) => ExternalKind::Tag,
        TypeRef::FuncExact(_) => ExternalKind::FuncExact,
    }
}

/// The number of the kind of an import's type, and the offset behind the type.
fn type_at(alloc: Global, bytes: &[u8], at: usize) -> Option<(u32, usize)>
    requires { at ≤ length bytes.now }
    ensures found { Finds IsType IsKindOf bytes.now at result }
    ensures inside { IfSome result (λ r. r.1 ≤ length bytes.now) }
    ensures kind { IfSome result (λ r. r.0 < 5) }
{
    let mut reader = BinaryReader::new(&bytes[at..], 0);
    match TypeRef::from_reader(alloc, &mut reader) {
        Ok(ty) => Some((
            number_of(kind_of(&ty)),
            bytes.len() - reader.bytes_remaining(),
        )),
        Err(_error) => None,
    }
}

/// The number of the kind of an export, and the offset behind the kind.
fn kind_at(alloc: Global, bytes: &[u8], at: usize) -> Option<(u32, usize)>
    requires { at ≤ length bytes.now }
    ensures found { Finds IsExportKind IsKindNumber bytes.now at result }
    ensures inside { IfSome result (λ r. r.1 ≤ length bytes.now) }
{
    let mut reader = BinaryReader::new(&bytes[at..], 0);
    match ExternalKind::from_reader(alloc, &mut reader) {
        Ok(kind) => Some((number_of(kind), bytes.len() - reader.bytes_remaining())),
        Err(_error) => None,
    }
}

/// The import that begins at an offset, without its index, and the offset behind it.
pub(crate) fn import_at(alloc: Global, bytes: &[u8], at: usize) -> Option<(ImportRow, usize)>
    requires { at ≤ length bytes.now }
    ensures found { Finds IsImport (TellsImport bytes.now) bytes.now at result }
    ensures within { IfSome result (λ r. ImportWithin bytes.now r.0) }
    ensures inside { IfSome result (λ r. r.1 ≤ length bytes.now) }
    ensures kind { IfSome result (λ r. r.0.kind < 5) }
{
    let Some((from, next)) = name_at(bytes, at) else {
        return None;
    };
    let Some((name, next)) = name_at(bytes, next) else {
        return None;
    };
    let Some((kind, end)) = type_at(alloc, bytes, next) else {
        return None;
    };
    let row = ImportRow {
        module_offset: from.offset as u64,
        name_offset: name.offset as u64,
        module_length: from.length,
        name_length: name.length,
        kind,
        index: 0,
    };
    Some((row, end))
}

/// The export that begins at an offset, and the offset behind it.
pub(crate) fn export_at(alloc: Global, bytes: &[u8], at: usize) -> Option<(ExportRow, usize)>
    requires { at ≤ length bytes.now }
    ensures found { Finds IsExport (TellsExport bytes.now) bytes.now at result }
    ensures within { IfSome result (λ r. ExportWithin bytes.now r.0) }
    ensures inside { IfSome result (λ r. r.1 ≤ length bytes.now) }
{
    let Some((name, next)) = name_at(bytes, at) else {
        return None;
    };
    let Some((kind, next)) = kind_at(alloc, bytes, next) else {
        return None;
    };
    let Some((index, end)) = number_at(bytes, next) else {
        return None;
    };
    let row = ExportRow {
        name_offset: name.offset as u64,
        name_length: name.length,
        kind,
        index,
        later: 0,
    };
    Some((row, end))
}
