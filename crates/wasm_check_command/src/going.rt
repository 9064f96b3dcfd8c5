//! Files that are judged one after another, and those that come to no verdict are told and left behind.
ghost use Rattle.std.specs.Prelude.{◌≡◌, ◌+◌, ◌<◌, ℕ, false, List, Option, length, IfOk, IfErr};
ghost use Rattle.std.specs.Io.KnownBytes.{Keeps};
ghost use Rattle.wasm_check_command.specs.Modes.{CanJudge, ruling_of};
ghost use Rattle.wasm_check_command.specs.Files.{texts, is_unwritten, EndsBy, GoesSoFar, JudgesFile, LosesFile, StopsGoingBy};

use crate::files::{Ended, hold_streams, is_enough, joined, judge_opened, name_at, open, unheld};
use crate::judging::{Chosen, Input, Judge, Status};
use crate::telling::tell;
use std::alloc::Global;
use std::io::{Input as Standard, Write};
use std::rt::Files;
use wasm_check_faults::{CheckError, Fault, Reason};

/// Opens a file, judges it, writes its line, and says whether it is a valid module.
fn judge_one<'a, J: Judge, F: Files + Standard, W: Write>(
    judge: &J,
    alloc: Global,
    rt: &F,
    chosen: Chosen,
    index: usize,
    name: &'a str,
    buffer: &mut Vec<u8>,
    out: &mut W,
) -> Result<bool, Fault<'a>>
    requires within { CanJudge chosen }
    ensures ok { IfOk result (JudgesFile (ruling_of J.accepts chosen) name.entry.now
        (W.contents out.old) (W.contents out.new)) }
    ensures err { IfErr result (LosesFile (ruling_of J.accepts chosen) name.entry.now
        (W.contents out.old) (W.contents out.new)) }
{
    let reader = match open(rt, name) {
        Ok(reader) => reader,
        Err(error) => {
            return Err(Fault::CannotOpen {
                name,
                reason: Reason::of_opening(name, &error),
            });
        }
    };
    let input = Input { name, reader };
    match judge_opened(judge, alloc, chosen, index, input, buffer, out) {
        Ok(is_valid) => Ok(is_valid),
        Err(fault) => Err(fault),
    }
}

/// Whether a fault is that a line could not be written.
fn is_unwritten(fault: &Fault<'_>) -> bool
    ensures { result ≡ is_unwritten fault.now }
{
    match fault {
        Fault::Stopped {
            error,
            name: _,
            reason: _,
        } => match error {
            CheckError::Write => true,
            CheckError::Read(_) => false,
            CheckError::TooLong(_) => false,
            CheckError::OutOfMemory(_) => false,
        },
        Fault::WrongPieces(_) => false,
        Fault::Clash(_, _) => false,
        Fault::NoFiles => false,
        Fault::UnknownFeature(_) => false,
        Fault::WrongLimit(_, _) => false,
        Fault::CannotOpen { name: _, reason: _ } => false,
        Fault::CannotHold(_) => false,
        Fault::OutOfMemory => false,
    }
}

/// Judges the file at this place, after those before it ended so. If it comes to no verdict, its fault is told on `err`.
fn judge_next<'a, J: Judge, F: Files + Standard, W: Write, E: Write>(
    judge: &J,
    alloc: Global,
    rt: &F,
    names: &[&'a str],
    place: usize,
    chosen: Chosen,
    before: Ended,
    buffer: &mut Vec<u8>,
    out: &mut W,
    err: &mut E,
) -> Result<Ended, Fault<'a>>
    requires within { CanJudge chosen }
    requires inside { place < length names.now }
    ensures ok { (first : Option (List ℕ)) → GoesSoFar (ruling_of J.accepts chosen) (texts names.now) place first (W.contents out.old)
        before.status before.lost → IfOk result (λ e. GoesSoFar (ruling_of J.accepts chosen) (texts names.now) (place + 1) first
        (W.contents out.new) e.status e.lost) }
    ensures err { (first : Option (List ℕ)) → GoesSoFar (ruling_of J.accepts chosen) (texts names.now) place first (W.contents out.old)
        before.status before.lost → IfErr result (StopsGoingBy (ruling_of J.accepts chosen) (texts names.now) first (W.contents out.new)) }
    ensures quiet { IfOk result (λ e. e.lost ≡ false → (before.lost ≡ false) × Keeps (E.contents err.old) (E.contents err.new)) }
{
    let name = name_at(names, place);
    match judge_one(judge, alloc, rt, chosen, place, name, buffer, out) {
        Ok(is_valid) => Ok(Ended {
            status: joined(before.status, is_valid),
            lost: before.lost,
        }),
        Err(fault) => {
            if is_unwritten(&fault) {
                return Err(fault);
            }
            tell(alloc, &fault, chosen.below, err);
            Ok(Ended {
                status: before.status,
                lost: true,
            })
        }
    }
}

/// Judges each file in order. Of one that comes to no verdict the fault is told on `err`, and the others are judged all the same.
fn judge_each<'a, J: Judge, F: Files + Standard, W: Write, E: Write>(
    judge: &J,
    alloc: Global,
    rt: &F,
    names: &[&'a str],
    chosen: Chosen,
    out: &mut W,
    err: &mut E,
) -> Result<Ended, Fault<'a>>
    requires within { CanJudge chosen }
    ensures ok { IfOk result (EndsBy (ruling_of J.accepts chosen) (texts names.now)
        (W.contents out.old) (W.contents out.new)) }
    ensures err { IfErr result (StopsGoingBy (ruling_of J.accepts chosen) (texts names.now)
        (W.contents out.old) (W.contents out.new)) }
    ensures quiet { IfOk result (λ e. e.lost ≡ false → Keeps (E.contents err.old) (E.contents err.new)) }
{
    let mut buffer = Vec::new(alloc);
    let mut ended = Ended {
        status: Status::AllValid,
        lost: false,
    };
    for place in 0..names.len() {
        if is_enough(chosen.form, ended.status) {
            return Ok(ended);
        }
        match judge_next(
            judge,
            alloc,
            rt,
            names,
            place,
            chosen,
            ended,
            &mut buffer,
            out,
            err,
        ) {
            Ok(next) => ended = next,
            Err(fault) => return Err(fault),
        }
    }
    Ok(ended)
}

/// Judges each file, and flushes what was written.
pub(crate) fn judge_going<'a, J: Judge, F: Files + Standard, W: Write, E: Write>(
    judge: &J,
    alloc: Global,
    rt: &F,
    names: &[&'a str],
    chosen: Chosen,
    out: &mut W,
    err: &mut E,
) -> Result<Ended, Fault<'a>>
    requires within { CanJudge chosen }
    ensures ok { IfOk result (EndsBy (ruling_of J.accepts chosen) (texts names.now)
        (W.contents out.old) (W.contents out.new)) }
    ensures err { IfErr result (StopsGoingBy (ruling_of J.accepts chosen) (texts names.now)
        (W.contents out.old) (W.contents out.new)) }
    ensures quiet { IfOk result (λ e. e.lost ≡ false → Keeps (E.contents err.old) (E.contents err.new)) }
{
    let held = hold_streams(rt, names);
    if let Some(reason) = unheld(&held, names) {
        return Err(Fault::CannotHold(reason));
    }
    let judged = judge_each(judge, alloc, rt, names, chosen, out, err);
    if let Err(error) = out.flush() {
        return Err(Fault::Stopped {
            error: CheckError::Write,
            name: "",
            reason: Reason::of(&error),
        });
    }
    judged
}
