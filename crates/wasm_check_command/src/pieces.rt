//! An input in pieces: it is judged while it is read, and of what came nothing is kept but the part of the module that it is in.
ghost use Rattle.std.specs.Prelude.{◌≡◌, ◌≤◌, [], None, IfOk, IfErr, string_bytes};
ghost use Rattle.wasm_types.specs.settings.Limits.{IsWithinCeilings};
ghost use Rattle.wasm_check_command.specs.Settings.{settings_of};
ghost use Rattle.wasm_check_lines.specs.Forms.{refused_text};
ghost use Rattle.wasm_check_command.specs.Faults.{FailsReading};
ghost use Rattle.wasm_check_command.specs.Modes.{manner_of, ruled};
ghost use Rattle.wasm_check_command.specs.Verdict.{IsVerdictOf, IsJudged, FailsAt};
ghost use Rattle.wasm_check_command.specs.declared.judging.Mode.TheVariants.{Pieces as pieces};

use crate::judging::{Chosen, Failure, Judge, Unjudged, write_text};
use crate::steady::read_steadily;
use std::alloc::{AllocError, Global};
use std::io::{self, Read, Write};
use wasm_check_faults::{CheckError, Reason};
use wasm_check_lines::{Refusal, refused_text, valid_text};
use wasm_types::{Error, ErrorKind};

/// A reader, and why a read through it failed.
#[derive(Drop)]
struct Noted<'a, R> {
    reader: &'a mut R,
    reason: Reason,
}

impl<R: Read> Read for Noted<'_, R> {
    ghost remaining = { λ n. R.remaining n.reader.now };

    fn read(&mut self, buf: &mut [u8]) -> io::Result<usize> {
        match read_steadily(self.reader, buf) {
            Ok(count) => Ok(count),
            Err(error) => {
                self.reason = Reason::of(&error);
                Err(error)
            }
        }
    }
}

/// The text of an input that was refused, whose bytes are gone.
pub(crate) fn unexplained(
    alloc: Global,
    chosen: Chosen,
    name: &str,
    error: &Error,
) -> Result<String, AllocError>
    ensures { IfOk result (λ line. string_bytes line
        ≡ refused_text chosen.form chosen.explains name.now chosen.limits error.now [] None) }
{
    let refusal = Refusal {
        error,
        limits: chosen.limits,
        front: "".as_bytes(),
    };
    refused_text(alloc, chosen.form, chosen.explains, name, refusal, None)
}

/// The line of an input that is judged in pieces of at most this many bytes, and whether it is a valid module.
fn pieces_line<J: Judge, R: Read>(
    judge: &J,
    alloc: Global,
    chosen: Chosen,
    piece: u32,
    index: usize,
    name: &str,
    reader: &mut R,
) -> Result<(bool, String), CheckError>
    requires within { IsWithinCeilings chosen.limits }
    requires some { 1 ≤ piece }
    ensures ok { IfOk result (λ r. IsVerdictOf (ruled (manner_of chosen) (pieces piece) J.accepts (settings_of chosen)) name.now
        (R.remaining reader.old) r.0 (string_bytes r.1)) }
    ensures err { IfErr result (FailsReading index (R.remaining reader.old)) }
{
    let (features, limits) = (chosen.features, chosen.limits);
    match judge.judge_pieces(alloc, features, limits, index, reader, piece) {
        Ok(()) => match valid_text(alloc, chosen.form, name) {
            Ok(line) => Ok((true, line)),
            Err(_) => Err(CheckError::OutOfMemory(index)),
        },
        Err(Unjudged::Refused(error)) => {
            if error.kind() == ErrorKind::OutOfMemory {
                return Err(CheckError::OutOfMemory(index));
            }
            match unexplained(alloc, chosen, name, &error) {
                Ok(line) => Ok((false, line)),
                Err(_) => Err(CheckError::OutOfMemory(index)),
            }
        }
        Err(Unjudged::Read) => Err(CheckError::Read(index)),
        Err(Unjudged::TooLong) => Err(CheckError::TooLong(index)),
    }
}

/// Judges an input in pieces of at most this many bytes, writes its line, and says whether it is a valid module.
pub(crate) fn judge_in_pieces<J: Judge, R: Read, W: Write>(
    judge: &J,
    alloc: Global,
    chosen: Chosen,
    piece: u32,
    index: usize,
    name: &str,
    reader: &mut R,
    out: &mut W,
) -> Result<bool, Failure>
    requires within { IsWithinCeilings chosen.limits }
    requires some { 1 ≤ piece }
    ensures ok { IfOk result (λ valid. IsJudged (ruled (manner_of chosen) (pieces piece) J.accepts (settings_of chosen)) name.now
        (R.remaining reader.old) valid (W.contents out.old) (W.contents out.new)) }
    ensures err { IfErr result (λ u. FailsAt (ruled (manner_of chosen) (pieces piece) J.accepts (settings_of chosen)) index name.now
        (R.remaining reader.old) (W.contents out.old) (W.contents out.new) u.error) }
{
    let mut noted = Noted {
        reader,
        reason: Reason::Unknown,
    };
    let (is_valid, line) = match pieces_line(judge, alloc, chosen, piece, index, name, &mut noted) {
        Ok(told) => told,
        Err(error) => {
            return Err(Failure {
                error,
                reason: noted.reason,
            });
        }
    };
    match write_text(line.as_bytes(), out) {
        Ok(()) => Ok(is_valid),
        Err(failure) => Err(failure),
    }
}
