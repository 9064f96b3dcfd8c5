//! Names of files as texts: words of the command line, and the names in a list.
//!
//! The system's calls take names as texts. A file whose name is no UTF-8 cannot be opened by them, but it need not stop the others: its name
//! becomes a text that no file has for a name.
ghost use Rattle.std.specs.Prelude.{◌≡◌, ◌==◌, ◌<◌, ◌≤◌, false, Some, All, IfOk, length, map, slice_get, string_bytes, take};
ghost use Rattle.wasm_check_command.specs.Names.{AreNames, IsWordText, byte_text, escaped};

use std::alloc::{AllocError, Global};

/// A byte of a word that is no UTF-8: itself if it is ASCII, else the byte 0 and two hexadecimal digits.
fn byte_text(alloc: Global, byte: u8) -> Result<String, AllocError>
    ensures { IfOk result (λ t. string_bytes t ≡ byte_text byte) }
{
    if byte < 0x80 {
        return format!(in alloc; "{}", byte as char);
    }
    format!(in alloc; "\0{byte:x}")
}

/// A word that is no UTF-8, as a text.
fn escaped(alloc: Global, word: &[u8]) -> Result<String, AllocError>
    ensures { IfOk result (λ t. string_bytes t ≡ escaped word.now) }
{
    let mut text = String::new(alloc);
    for place in 0..word.len() {
        let part = byte_text(alloc, word[place])?;
        text.push_str(part.as_str())?;
    }
    Ok(text)
}

/// A word as a text: itself if it is UTF-8; else each byte of it that is not ASCII is the byte 0 and two hexadecimal digits. A word of the system
/// never has the byte 0, so such a text stands for no other word, and opening a file of that name fails.
///
/// # Errors
///
/// Memory ran out.
pub fn word_text(alloc: Global, word: &[u8]) -> Result<String, AllocError>
    ensures { IfOk result (λ t. IsWordText word.now (string_bytes t)) }
{
    match str::from_utf8(word) {
        Ok(text) => String::from_str(alloc, text),
        Err(_) => escaped(alloc, word),
    }
}

/// How many bytes come before the first byte 0, or how many there are if none is 0.
fn name_length(bytes: &[u8]) -> usize
    ensures within { result ≤ length bytes.now }
    ensures before { All (λ b. (b == 0) ≡ false) (take result bytes.now) }
    ensures ended { result < length bytes.now → slice_get bytes.now result ≡ Some 0 }
{
    for place in 0..bytes.len() {
        if bytes[place] == 0 {
            return place;
        }
    }
    bytes.len()
}

/// The names in a list, as texts: the byte 0 ends each of them, and the last one may end without it.
///
/// # Errors
///
/// Memory ran out.
pub(crate) fn names_in(alloc: Global, list: &[u8]) -> Result<Vec<String>, AllocError>
    ensures { IfOk result (λ names. AreNames list.now (map string_bytes names.items)) }
{
    let mut names = Vec::new(alloc);
    let mut start = 0;
    for _turn in 0..list.len() {
        if start >= list.len() {
            return Ok(names);
        }
        let rest = &list[start..];
        let length = name_length(rest);
        let name = word_text(alloc, &rest[..length])?;
        names.push(name)?;
        start = start + length + 1;
    }
    Ok(names)
}
