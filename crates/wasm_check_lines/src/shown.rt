//! Texts that others chose, written so that each stays within its line.
ghost use Rattle.std.specs.Fmt.{WritesOnOk};
ghost use Rattle.std.specs.Prelude.{◌≡◌};
ghost use Rattle.wasm_check_lines.specs.Shown.{is_unshown, shown_char, turns};
ghost use Rattle.wasm_check_lines.specs.LineLaws.{IsShownApart, LinesEndOnce};
ghost use Rattle.wasm_check_lines.specs.ShownRows.{ShownRows};
ghost use Rattle.wasm_check_lines.specs.FormRows.{FormRows};
ghost use Rattle.wasm_check_lines.specs.CauseRows.{CauseRows};

use std::fmt;

/// A text that others chose, as a file's name. Each control character in it is written as its code, and so is each that ends a
/// line for some readers or turns the order of a line: so the text begins no line, moves no cursor and hides nothing that
/// follows. A backslash is written twice, so no two texts are shown alike.
#[derive(Debug, Drop)]
pub struct Shown<'a>(pub &'a str);

impl fmt::Display for Shown<'_> {
    ghost use Rattle.std.specs.Prelude.{Some};
    ghost use Rattle.wasm_check_lines.specs.Shown.{shown};

    ghost output = { λ s. Some (shown s.0.now) };

    fn fmt<W: fmt::Write>(&self, f: &mut fmt::Formatter<W>) -> fmt::Result {
        for c in self.0.chars() {
            write_shown(f, c)?;
        }
        Ok(())
    }
}

// Whether a character changes the order in which a line is shown.
fn turns(code: u32) -> bool
    ensures { result ≡ turns code }
{
    code == 0x61c
        || code == 0x200e
        || code == 0x200f
        || (0x202a <= code && code <= 0x202e)
        || (0x2066 <= code && code <= 0x2069)
}

/// Whether a character is written as its code.
pub(crate) fn is_unshown(c: char) -> bool
    ensures { result ≡ is_unshown c }
{
    let code = c as u32;
    c.is_control() || code == 0x2028 || code == 0x2029 || turns(code)
}

// A character as it is shown.
fn write_shown<W: fmt::Write>(f: &mut fmt::Formatter<W>, c: char) -> fmt::Result
    ensures { WritesOnOk W.write_str_gives f.old result (shown_char c) f.new }
{
    if c == '\\' {
        return f.write_str("\\\\");
    }
    if is_unshown(c) {
        write!(f, "\\u{{{:x}}}", c as u32)
    } else {
        f.write_char(c)
    }
}

/// Each line is one line, whatever the file's name and the reason of a refusal hold; worked texts, as they are written; and worked causes.
#[tactic(auto, using(crate::proofs::InLine::lines_end_once, crate::proofs::Rows::shown_rows, crate::proofs::Rows::form_rows, crate::proofs::CauseRows::cause_rows))]
pub fn lines_end_once()
    ensures laws { LinesEndOnce }
    ensures rows { ShownRows }
    ensures forms { FormRows }
    ensures causes { CauseRows }
{}

/// Texts that are shown alike are the same text.
#[tactic(auto, using(crate::proofs::ShownApart::shown_apart))]
pub fn texts_are_shown_apart()
    ensures { IsShownApart }
{}
