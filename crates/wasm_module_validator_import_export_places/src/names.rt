//! Numbers and names where they stand.

ghost use Rattle.std.specs.Prelude.{◌+◌, ◌<◌, ◌≤◌, length, IfSome};
ghost use Rattle.wasm_module_validator_import_export_places.specs.Finding.{Finds, IsNumber, IsNameBy, Same, IsAt};

use wasm_types_decoding::short_u32_at;

/// A name in the bytes: where it begins, and how long it is.
#[derive(Clone, Copy)]
pub(crate) struct Name {
    pub(crate) offset: usize,
    pub(crate) length: u32,
}

/// The number that begins at an offset, and the offset behind it.
pub(crate) fn number_at(bytes: &[u8], at: usize) -> Option<(u32, usize)>
    requires { at ≤ length bytes.now }
    ensures found { Finds IsNumber Same bytes.now at result }
    ensures forward { IfSome result (λ r. at < r.1) }
    ensures inside { IfSome result (λ r. r.1 ≤ length bytes.now) }
{
    short_u32_at(bytes, at)
}

/// The name that begins at an offset with its length, and the offset behind it.
pub(crate) fn name_at(bytes: &[u8], at: usize) -> Option<(Name, usize)>
    requires { at ≤ length bytes.now }
    ensures found { Finds IsNameBy (IsAt bytes.now) bytes.now at result }
    ensures within { IfSome result (λ r. r.0.offset + r.0.length ≤ length bytes.now) }
    ensures inside { IfSome result (λ r. r.1 ≤ length bytes.now) }
{
    let Some((length, offset)) = number_at(bytes, at) else {
        return None;
    };
    if length as usize > bytes.len() - offset {
        return None;
    }
    Some((Name { offset, length }, offset + length as usize))
}
