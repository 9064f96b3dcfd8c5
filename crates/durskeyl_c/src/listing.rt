//! What an accepted module imports and exports.

ghost use Rattle.durskeyl_c.specs.Listed.{TellsImports, TellsExports, ImportsWithin, ExportsWithin, TellsStartOf};

use crate::validate::MOST_BYTES;
use std::alloc::Global;
use wasm_module_validator_import_export_places::{
    ExportRow, ImportRow, list_exports, list_imports, start_of,
};

/// The answer where bytes spell no module.
const NO_MODULE: u64 = u64::MAX;

/// Writes the imports of the module that these bytes spell, in their order, as many as there are rows for, and answers how many there
/// are. The bytes are those of a module that was accepted. Of others the answer may be `NO_MODULE`, or rows whose names lie in the bytes.
#[unsafe(no_mangle)]
pub extern "C" fn durskeyl_imports(alloc: Global, bytes: &[u8], rows: &mut [ImportRow]) -> u64
    ensures listed { TellsImports result bytes.now rows.new }
    ensures within { ImportsWithin result bytes.now rows.new }
{
    if bytes.len() > MOST_BYTES {
        return NO_MODULE;
    }
    match list_imports(alloc, bytes, rows) {
        Some(count) => count as u64,
        None => NO_MODULE,
    }
}

/// The same of its exports.
#[unsafe(no_mangle)]
pub extern "C" fn durskeyl_exports(alloc: Global, bytes: &[u8], rows: &mut [ExportRow]) -> u64
    ensures listed { TellsExports result bytes.now rows.new }
    ensures within { ExportsWithin result bytes.now rows.new }
{
    if bytes.len() > MOST_BYTES {
        return NO_MODULE;
    }
    match list_exports(alloc, bytes, rows) {
        Some(count) => count as u64,
        None => NO_MODULE,
    }
}

/// The index of the start function of the module that these bytes spell, or `NO_MODULE` if it has none. The bytes are those of a module that was
/// accepted. Of others the answer means nothing.
#[unsafe(no_mangle)]
pub extern "C" fn durskeyl_start(bytes: &[u8]) -> u64
    ensures { TellsStartOf result bytes.now }
{
    if bytes.len() > MOST_BYTES {
        return NO_MODULE;
    }
    match start_of(bytes) {
        Some(index) => index as u64,
        None => NO_MODULE,
    }
}
