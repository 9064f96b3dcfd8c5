//! Rows that a caller in C reads.

ghost use Rattle.std.specs.Prelude.{◌≡◌, slice_set};

/// An import. Offsets are in the bytes of the module, and lengths in bytes.
#[repr(C)]
#[derive(Clone, Copy)]
pub struct ImportRow {
    /// Where the name of the module that it is from begins.
    pub module_offset: u64,
    /// Where its name there begins.
    pub name_offset: u64,
    /// How long the first name is.
    pub module_length: u32,
    /// How long the second is.
    pub name_length: u32,
    /// What it is: 0 a function, 1 a table, 2 a memory, 3 a global, 4 a tag.
    pub kind: u32,
    /// The index that it gets among those of its kind.
    pub index: u32,
}

/// An export.
#[repr(C)]
#[derive(Clone, Copy)]
pub struct ExportRow {
    /// Where its name begins.
    pub name_offset: u64,
    /// How long the name is.
    pub name_length: u32,
    /// What it is, as for an import.
    pub kind: u32,
    /// Its index among those of its kind.
    pub index: u32,
    /// Kept for later: 0.
    pub later: u32,
}

/// Writes a row, if it has a place.
pub(crate) fn put_import(rows: &mut [ImportRow], place: usize, row: ImportRow)
    ensures { rows.new ≡ slice_set rows.old place row }
{
    if place < rows.len() {
        rows[place] = row;
    }
}

/// The same of an export.
pub(crate) fn put_export(rows: &mut [ExportRow], place: usize, row: ExportRow)
    ensures { rows.new ≡ slice_set rows.old place row }
{
    if place < rows.len() {
        rows[place] = row;
    }
}
