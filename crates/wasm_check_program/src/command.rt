//! The command line, with the validator of modules for a judge.
ghost use Rattle.std.specs.Prelude.{◌≡◌, ◌<◌, ◌≤◌, ◌⊎◌, map};
ghost use Rattle.std.specs.Io.KnownBytes.{Keeps};
ghost use Rattle.wasm_module_validator.specs.rules.Accepts.{AcceptsUnder};
ghost use Rattle.wasm_check_command.specs.declared.judging.Status.TheVariants.{AllValid, SomeInvalid};
ghost use Rattle.wasm_check_command.specs.Files.{Reports, ShowsHelp, HasNoStatus};

use crate::judging::Validating;
use std::convert::AsStr;
use std::io::{Input, Write};
use std::rt::Files;
use wasm_check_command::run_by;

/// Runs the program on these words, of which the first is its own name, and gives its exit status:
/// 0 if all files are valid, or if the words ask for the help, the version or a table and it was shown; 1 if some file is invalid; 2 if
/// the words name no files by `clap`'s reading, or have options that do not go together or a list that is refused, and then nothing is written to `out`, if a fault stopped the
/// judging or the help, or if a file came to no verdict and the judging went on. Files may be named by a list in a file. The files are judged by the features and limits that the
/// words ask for. All files are opened before the first is judged, except with `--keep-going`; those past the first hundred are then closed,
/// and opened again in their turn, and so are all if the system does not let so many be open. The file `-` is standard input. A fault has one
/// line on `err`, and with `--json` an object below it.
pub fn run<'a, F, S, W, E>(rt: &F, words: &'a [S], out: &mut W, err: &mut E) -> u8
where
    F: Files + Input + AllocGlobal,
    S: AsStr,
    W: Write,
    E: Write,
    ensures known { result ≤ 2 }
    ensures quiet { result < 2 → Keeps (E.contents err.old) (E.contents err.new) }
    ensures valid { result ≡ 0 → ShowsHelp (map S.text words.now) (W.contents out.old) (W.contents out.new)
        ⊎ Reports AcceptsUnder (map S.text words.now) (W.contents out.old) (W.contents out.new) AllValid }
    ensures invalid { result ≡ 1
        → Reports AcceptsUnder (map S.text words.now) (W.contents out.old) (W.contents out.new) SomeInvalid }
    ensures stopped { result ≡ 2
        → HasNoStatus AcceptsUnder (map S.text words.now) (W.contents out.old) (W.contents out.new) }
{
    run_by(&Validating, rt, words, false, out, err)
}

/// The same, with a second line below that of a fault, which tells what may help, if `err` is a person's terminal.
pub fn run_at<'a, F, S, W, E>(
    rt: &F,
    words: &'a [S],
    at_terminal: bool,
    out: &mut W,
    err: &mut E,
) -> u8
where
    F: Files + Input + AllocGlobal,
    S: AsStr,
    W: Write,
    E: Write,
    ensures known { result ≤ 2 }
    ensures quiet { result < 2 → Keeps (E.contents err.old) (E.contents err.new) }
    ensures valid { result ≡ 0 → ShowsHelp (map S.text words.now) (W.contents out.old) (W.contents out.new)
        ⊎ Reports AcceptsUnder (map S.text words.now) (W.contents out.old) (W.contents out.new) AllValid }
    ensures invalid { result ≡ 1
        → Reports AcceptsUnder (map S.text words.now) (W.contents out.old) (W.contents out.new) SomeInvalid }
    ensures stopped { result ≡ 2
        → HasNoStatus AcceptsUnder (map S.text words.now) (W.contents out.old) (W.contents out.new) }
{
    run_by(&Validating, rt, words, at_terminal, out, err)
}
