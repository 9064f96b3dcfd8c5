//! A large input is judged as it comes, to its end. Of what came nothing is kept but the part of the module that it is
//! in. Its line is the one that it has if it is read whole.
ghost use Rattle.std.specs.Prelude.{◌≡◌, IsTrue, false, IfOk, IfErr, OnOk, string_bytes};
ghost use Rattle.std.specs.Io.KnownBytes.{Consumes, prepend_known};
ghost use Rattle.wasm_types.specs.settings.Limits.{IsWithinCeilings};
ghost use Rattle.wasm_check_command.specs.Settings.{settings_of};
ghost use Rattle.wasm_check_command.specs.Faults.{FailsReading};
ghost use Rattle.wasm_check_command.specs.Modes.{BeginsBinary, HasVerdict, IsShort, ReadsWithin, manner_of, ruled};
ghost use Rattle.wasm_check_command.specs.Verdict.{FailsAt, IsJudged, IsTextOf};
ghost use Rattle.wasm_check_command.specs.declared.judging.Mode.TheVariants.{Whole as whole};

use crate::judging::{
    CHUNK, Chosen, Failure, Judge, MAX_BYTES, judge_bytes, read_behind, read_over, without_reason,
    write_text,
};
use crate::pieces::unexplained;
use std::alloc::{AllocError, Global};
use std::io::{Read, Write};
use wasm_check_faults::CheckError;
use wasm_check_lines::valid_text;
use wasm_types::{Error, ErrorKind};

/// Puts the first bytes that a reader has left into the buffer, in place of what stood there: those of one read.
fn read_front<R: Read>(index: usize, reader: &mut R, buffer: &mut Vec<u8>) -> Result<(), Failure>
    ensures ok { OnOk result (Consumes (R.remaining reader.old) (R.remaining reader.new) buffer.new.items) }
    ensures short { OnOk result (IsShort buffer.new.items) }
    ensures err { IfErr result (λ u. FailsReading index (R.remaining reader.old) u.error) }
    ensures most { ReadsWithin (R.remaining reader.old) (R.remaining reader.new) }
{
    let count = match read_over(index, reader, CHUNK, CHUNK, buffer) {
        Ok(count) => count,
        Err(failure) => return Err(failure),
    };
    buffer.truncate(count);
    Ok(())
}

/// Whether these bytes begin as a binary module does, so that they are no text.
fn is_binary(bytes: &[u8]) -> bool
    ensures { IsTrue result → BeginsBinary bytes.now }
{
    match bytes.first() {
        Some(first) => *first == 0,
        None => false,
    }
}

/// A module of which these bytes came.
fn begin_with<J: Judge>(
    judge: &J,
    alloc: Global,
    chosen: Chosen,
    index: usize,
    front: &[u8],
) -> J::Begun
    requires within { IsWithinCeilings chosen.limits }
    ensures { J.came (settings_of chosen) front.now result }
{
    let mut begun = judge.begin(alloc, chosen.features, chosen.limits, index);
    judge.take(&mut begun, front);
    begun
}

/// The verdict on the bytes in the buffer and what a reader has left behind them, which is read into the buffer. All of
/// that is read, whatever the verdict, but no more than shows that it is too much.
fn judge_behind<J: Judge, R: Read>(
    judge: &J,
    alloc: Global,
    chosen: Chosen,
    index: usize,
    reader: &mut R,
    buffer: &mut Vec<u8>,
) -> Result<Result<(), Error>, Failure>
    requires within { IsWithinCeilings chosen.limits }
    requires short { IsShort buffer.old.items }
    ensures ok { IfOk result (HasVerdict (J.accepts (settings_of chosen)) buffer.old.items (R.remaining reader.old)) }
    ensures err { IfErr result (λ u. FailsReading index (prepend_known buffer.old.items (R.remaining reader.old)) u.error) }
    ensures most { ReadsWithin (prepend_known buffer.old.items (R.remaining reader.old)) (R.remaining reader.new) }
{
    let front = buffer.as_slice();
    let mut begun = begin_with(judge, alloc, chosen, index, front);
    let mut came = front.len();
    for _turn in 0..=MAX_BYTES {
        let left = MAX_BYTES - came;
        let count = match read_over(index, reader, CHUNK, left + 1, buffer) {
            Ok(count) => count,
            Err(failure) => return Err(failure),
        };
        if count == 0 {
            return Ok(judge.conclude(begun));
        }
        if count > left {
            return Err(without_reason(CheckError::TooLong(index)));
        }
        let read = buffer.as_slice();
        judge.take(&mut begun, &read[..count]);
        came += count;
    }
    unreachable!()
}

/// The text of an input with this verdict, and whether it is valid. Of its bytes the text tells nothing.
fn verdict_text(
    alloc: Global,
    chosen: Chosen,
    name: &str,
    verdict: Result<(), Error>,
) -> Result<(bool, String), AllocError>
    ensures { IfOk result (λ r. IsTextOf (manner_of chosen) chosen.limits name.now verdict r.0 (string_bytes r.1)) }
{
    match verdict {
        Ok(()) => {
            let line = valid_text(alloc, chosen.form, name)?;
            Ok((true, line))
        }
        Err(error) => {
            if error.kind() == ErrorKind::OutOfMemory {
                return Err(AllocError);
            }
            let line = unexplained(alloc, chosen, name, &error)?;
            Ok((false, line))
        }
    }
}

/// Judges an input that begins with the bytes in the buffer, and of which a reader has the others left, as it comes;
/// writes its line, and says whether it is a valid module.
fn judge_binary<J: Judge, R: Read, W: Write>(
    judge: &J,
    alloc: Global,
    chosen: Chosen,
    index: usize,
    name: &str,
    reader: &mut R,
    buffer: &mut Vec<u8>,
    out: &mut W,
) -> Result<bool, Failure>
    requires within { IsWithinCeilings chosen.limits }
    requires alone { chosen.needs ≡ false }
    requires short { IsShort buffer.old.items }
    requires binary { BeginsBinary buffer.old.items }
    ensures ok { IfOk result (λ valid. IsJudged (ruled (manner_of chosen) whole J.accepts (settings_of chosen)) name.now
        (prepend_known buffer.old.items (R.remaining reader.old)) valid (W.contents out.old) (W.contents out.new)) }
    ensures err { IfErr result (λ u. FailsAt (ruled (manner_of chosen) whole J.accepts (settings_of chosen)) index
        name.now (prepend_known buffer.old.items (R.remaining reader.old)) (W.contents out.old) (W.contents out.new) u.error) }
    ensures most { ReadsWithin (prepend_known buffer.old.items (R.remaining reader.old)) (R.remaining reader.new) }
{
    let verdict = match judge_behind(judge, alloc, chosen, index, reader, buffer) {
        Ok(verdict) => verdict,
        Err(failure) => return Err(failure),
    };
    let Ok((is_valid, line)) = verdict_text(alloc, chosen, name, verdict) else {
        return Err(without_reason(CheckError::OutOfMemory(index)));
    };
    match write_text(line.as_bytes(), out) {
        Ok(()) => Ok(is_valid),
        Err(failure) => Err(failure),
    }
}

/// Judges an input that begins with the bytes in the buffer, and of which a reader has the others left, when all of it is
/// read; writes its line, and says whether it is a valid module.
fn judge_others<J: Judge, R: Read, W: Write>(
    judge: &J,
    alloc: Global,
    chosen: Chosen,
    index: usize,
    name: &str,
    reader: &mut R,
    buffer: &mut Vec<u8>,
    out: &mut W,
) -> Result<bool, Failure>
    requires within { IsWithinCeilings chosen.limits }
    requires short { IsShort buffer.old.items }
    ensures ok { IfOk result (λ valid. IsJudged (ruled (manner_of chosen) whole J.accepts (settings_of chosen)) name.now
        (prepend_known buffer.old.items (R.remaining reader.old)) valid (W.contents out.old) (W.contents out.new)) }
    ensures err { IfErr result (λ u. FailsAt (ruled (manner_of chosen) whole J.accepts (settings_of chosen)) index
        name.now (prepend_known buffer.old.items (R.remaining reader.old)) (W.contents out.old) (W.contents out.new) u.error) }
    ensures most { ReadsWithin (prepend_known buffer.old.items (R.remaining reader.old)) (R.remaining reader.new) }
{
    match read_behind(index, reader, buffer) {
        Ok(()) => (),
        Err(failure) => return Err(failure),
    }
    judge_bytes(judge, alloc, chosen, index, name, buffer.as_slice(), out)
}

/// Judges a large input as it comes, writes its line, and says whether it is a valid module. One that does not begin as a
/// binary module does is read whole: its line may say that it is a text.
pub(crate) fn judge_large<J: Judge, R: Read, W: Write>(
    judge: &J,
    alloc: Global,
    chosen: Chosen,
    index: usize,
    name: &str,
    reader: &mut R,
    buffer: &mut Vec<u8>,
    out: &mut W,
) -> Result<bool, Failure>
    requires within { IsWithinCeilings chosen.limits }
    requires alone { chosen.needs ≡ false }
    ensures ok { IfOk result (λ valid. IsJudged (ruled (manner_of chosen) whole J.accepts (settings_of chosen)) name.now
        (R.remaining reader.old) valid (W.contents out.old) (W.contents out.new)) }
    ensures err { IfErr result (λ u. FailsAt (ruled (manner_of chosen) whole J.accepts (settings_of chosen)) index
        name.now (R.remaining reader.old) (W.contents out.old) (W.contents out.new) u.error) }
    ensures most { ReadsWithin (R.remaining reader.old) (R.remaining reader.new) }
{
    match read_front(index, reader, buffer) {
        Ok(()) => (),
        Err(failure) => return Err(failure),
    }
    if !is_binary(buffer.as_slice()) {
        return judge_others(judge, alloc, chosen, index, name, reader, buffer, out);
    }
    judge_binary(judge, alloc, chosen, index, name, reader, buffer, out)
}
