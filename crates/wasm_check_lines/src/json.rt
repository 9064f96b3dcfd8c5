//! Texts as strings of JSON.
ghost use Rattle.std.specs.Fmt.{WritesOnOk};
ghost use Rattle.std.specs.Prelude.{◌≡◌};
ghost use Rattle.wasm_check_lines.specs.Json.{json_char, json_escape};

use crate::shown::is_unshown;
use std::fmt;

/// A text that others chose, as it stands between the quotation marks of a string of JSON (RFC 8259, section 7). The characters that
/// [`Shown`](crate::Shown) does not show are written as their codes here too, so the string stays within its line.
#[derive(Debug, Drop)]
pub struct Quoted<'a>(pub &'a str);

impl fmt::Display for Quoted<'_> {
    ghost use Rattle.std.specs.Prelude.{Some};
    ghost use Rattle.wasm_check_lines.specs.Json.{json_text};

    ghost output = { λ s. Some (json_text s.0.now) };

    fn fmt<W: fmt::Write>(&self, f: &mut fmt::Formatter<W>) -> fmt::Result {
        for c in self.0.chars() {
            write_quoted(f, c)?;
        }
        Ok(())
    }
}

// The code of a character, in four hexadecimal digits.
fn write_code<W: fmt::Write>(f: &mut fmt::Formatter<W>, c: char) -> fmt::Result
    ensures { WritesOnOk W.write_str_gives f.old result (json_escape c) f.new }
{
    let code = c as u32;
    if code < 16 {
        return write!(f, "\\u000{code:x}");
    }
    if code < 256 {
        return write!(f, "\\u00{code:x}");
    }
    if code < 4096 {
        return write!(f, "\\u0{code:x}");
    }
    write!(f, "\\u{code:x}")
}

// A character within a string of JSON.
fn write_quoted<W: fmt::Write>(f: &mut fmt::Formatter<W>, c: char) -> fmt::Result
    ensures { WritesOnOk W.write_str_gives f.old result (json_char c) f.new }
{
    if c == '"' {
        return f.write_str("\\\"");
    }
    if c == '\\' {
        return f.write_str("\\\\");
    }
    if is_unshown(c) {
        return write_code(f, c);
    }
    f.write_char(c)
}
