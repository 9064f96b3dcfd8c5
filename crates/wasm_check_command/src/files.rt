//! The files that the words name are opened, and judged one after another.
ghost use Rattle.std.specs.Prelude.{◌≡◌, ◌⊎◌, ℕ, ◌<◌, ◌≤◌, false, List, [], length, min, map, take, slice_get, Some, IfOk, IfErr};
ghost use Rattle.wasm_check_command.specs.Modes.{CanJudge, ruling_of};
ghost use Rattle.wasm_check_command.specs.Verdict.{IsJudged};
ghost use Rattle.wasm_check_command.specs.Opened.{is_stdin, names_stdin, kept_open, said_by};
ghost use Rattle.wasm_check_command.specs.declared.files.Size.TheVariants.{TooLong as TheTooLong};
ghost use Rattle.wasm_check_command.specs.Files.{texts, joined, CannotOpen, FailsOpening, JudgesFile, FailsFile, FailsAgain, EndsFiles, StopsFiles, is_enough};

use crate::judging::{Chosen, Input, Judge, MAX_BYTES, Status, judge_reader};
use std::alloc::Global;
use std::fs::{File, OpenFile, OpenOptions};
use std::io::{self, Input as Standard, Read, Write};
use std::rt::Files;
use wasm_check_faults::{CheckError, Fault, Reason};
use wasm_check_lines::Form;

/// How many files are kept open until their turn, if the system lets so many be open.
const KEPT: usize = 100;

/// A file of no bytes; what is opened to read it takes none.
const NULL: &str = "/dev/null";

/// The system's number for the error that nothing is open under a number, or that it is not open for what is asked of it.
const NOT_OPEN: i32 = 9;

/// What a file's bytes are read from.
#[derive(Debug, Drop)]
pub(crate) enum Opened<F, I> {
    /// A file.
    File(F),
    /// Standard input.
    Stdin(I),
}

impl<F: Read, I: Read> Read for Opened<F, I> {
    ghost use Rattle.wasm_check_command.specs.Opened.{said_by};

    ghost remaining = { said_by F.remaining I.remaining };

    fn read(&mut self, buf: &mut [u8]) -> io::Result<usize> {
        match self {
            Opened::File(file) => file.read(buf),
            Opened::Stdin(stdin) => stdin.read(buf),
        }
    }
}

/// Files that are open and not read.
#[derive(Debug, Drop)]
pub(crate) struct Held<F> {
    first: io::Result<F>,
    second: io::Result<F>,
    third: io::Result<F>,
}

/// Whether this name is that of standard input.
pub(crate) fn is_stdin(name: &str) -> bool
    ensures { result ≡ names_stdin name.now }
{
    name == "-"
}

/// Whether one of these names is.
fn name_stdin(names: &[&str]) -> bool {
    for name in names {
        if is_stdin(*name) {
            return true;
        }
    }
    false
}

/// Standard input, if it is open to be read. That it is not shows by a read of no bytes.
fn open_stdin<F: Standard>(rt: &F) -> io::Result<F::Reader> {
    let mut reader = rt.reader();
    let mut room = [0u8; 1];
    match reader.read(&mut room[..0]) {
        Ok(_) => Ok(reader),
        Err(error) => {
            if error.raw_os_error() == Some(NOT_OPEN) {
                return Err(error);
            }
            Ok(reader)
        }
    }
}

/// Whether standard input is closed, so that a file which is opened next takes its place. One that is open, but not to be read, is not.
fn is_stdin_closed<F: Files + Standard>(rt: &F) -> bool {
    if open_stdin(rt).is_ok() {
        return false;
    }
    match File::open(rt, NULL) {
        Ok(_held) => open_stdin(rt).is_ok(),
        Err(_) => false,
    }
}

/// Opens `/dev/null`, so that nothing can be read from it.
fn hold_closed<F: Files>(rt: &F) -> io::Result<F::File> {
    let mut how = OpenOptions::new();
    how.write(true);
    how.open(rt, NULL)
}

/// Opens `/dev/null` three times, as far as it can be opened. The system gives a file the least number that is free. So a program
/// that was started with standard input, output or error closed has `/dev/null` there, for as long as these are held: no file is read or
/// written in its place. If `-` is among the names, what takes the place of standard input cannot be read: nothing is judged for it.
pub(crate) fn hold_streams<F: Files + Standard>(rt: &F, names: &[&str]) -> Held<F::File> {
    let first = if name_stdin(names) && is_stdin_closed(rt) {
        hold_closed(rt)
    } else {
        File::open(rt, NULL)
    };
    Held {
        first,
        second: File::open(rt, NULL),
        third: File::open(rt, NULL),
    }
}

/// Why a stream is not held, if one is not, and standard input is among the files of these names: some other file may be read in its place.
pub(crate) fn unheld<F>(held: &Held<F>, names: &[&str]) -> Option<Reason> {
    if !name_stdin(names) {
        return None;
    }
    match (&held.first, &held.second, &held.third) {
        (Err(error), _, _) => Some(Reason::of(error)),
        (_, Err(error), _) => Some(Reason::of(error)),
        (_, _, Err(error)) => Some(Reason::of(error)),
        _ => None,
    }
}

/// Opens the file of this name; `-` is standard input, which cannot be opened if it is closed.
pub(crate) fn open<F: Files + Standard>(
    rt: &F,
    name: &str,
) -> io::Result<Opened<F::File, F::Reader>>
    ensures { IfOk result (λ o. is_stdin o ≡ names_stdin name.now) }
{
    if is_stdin(name) {
        return match open_stdin(rt) {
            Ok(reader) => Ok(Opened::Stdin(reader)),
            Err(error) => Err(error),
        };
    }
    match File::open(rt, name) {
        Ok(file) => Ok(Opened::File(file)),
        Err(error) => Err(error),
    }
}

/// The same, with the fault of a file that cannot be opened.
pub(crate) fn open_named<'a, F: Files + Standard>(
    rt: &F,
    name: &'a str,
) -> Result<Opened<F::File, F::Reader>, Fault<'a>>
    ensures ok { IfOk result (λ o. is_stdin o ≡ names_stdin name.entry.now) }
    ensures err { IfErr result (CannotOpen name.entry.now) }
{
    match open(rt, name) {
        Ok(reader) => Ok(reader),
        Err(error) => Err(Fault::CannotOpen {
            name,
            reason: Reason::of_opening(name, &error),
        }),
    }
}

/// Opens these files in order and keeps them open, up to the first that cannot be opened.
fn open_kept<'a, F: Files + Standard>(
    alloc: Global,
    rt: &F,
    names: &[&'a str],
) -> Result<Vec<Input<'a, Opened<F::File, F::Reader>>>, Fault<'a>>
    ensures ok { IfOk result (λ inputs. map (λ i. i.name.now) inputs.items
        ≡ take (length inputs.items) (texts names.now)) }
    ensures few { IfOk result (λ inputs. length inputs.items ≤ length names.now) }
    ensures err { IfErr result (FailsOpening (texts names.now)) }
{
    let mut inputs = Vec::new(alloc);
    for name in names {
        let Ok(reader) = open(rt, *name) else {
            return Ok(inputs);
        };
        if inputs
            .push(Input {
                name: *name,
                reader,
            })
            .is_err()
        {
            return Err(Fault::OutOfMemory);
        }
    }
    Ok(inputs)
}

/// Whether the file of this name can be opened; it is closed at once.
fn can_open<F: Files + Standard>(rt: &F, name: &str) -> bool {
    open(rt, name).is_ok()
}

/// Opens a file, and closes it at once. If it cannot be opened, too many may be open: those that are kept open are closed, and it
/// is tried again.
fn try_one<'a, F: Files + Standard>(
    rt: &F,
    name: &'a str,
    inputs: &mut Vec<Input<'a, Opened<F::File, F::Reader>>>,
) -> Result<(), Fault<'a>>
    ensures kept { (inputs.new.items ≡ inputs.old.items) ⊎ (inputs.new.items ≡ []) }
    ensures err { IfErr result (CannotOpen name.entry.now) }
{
    if can_open(rt, name) {
        return Ok(());
    }
    inputs.clear();
    match open_named(rt, name) {
        Ok(_closed) => Ok(()),
        Err(fault) => Err(fault),
    }
}

/// Opens these files in order, and closes each at once. The inputs are kept open, or all closed if too many are open.
fn try_to_open<'a, F: Files + Standard>(
    rt: &F,
    names: &[&'a str],
    inputs: &mut Vec<Input<'a, Opened<F::File, F::Reader>>>,
) -> Result<(), Fault<'a>>
    ensures kept { (inputs.new.items ≡ inputs.old.items) ⊎ (inputs.new.items ≡ []) }
    ensures err { IfErr result (FailsOpening (texts names.now)) }
{
    for place in 0..names.len() {
        match try_one(rt, name_at(names, place), inputs) {
            Ok(()) => (),
            Err(fault) => return Err(fault),
        }
    }
    Ok(())
}

/// How many of so many files are kept open.
fn kept_of(count: usize) -> usize
    ensures { result ≡ min kept_open count }
{
    if count < KEPT {
        return count;
    }
    KEPT
}

/// Opens all files in order, and keeps the first hundred open; none, if the system does not let so many be open.
fn open_all<'a, F: Files + Standard>(
    alloc: Global,
    rt: &F,
    names: &[&'a str],
) -> Result<Vec<Input<'a, Opened<F::File, F::Reader>>>, Fault<'a>>
    ensures ok { IfOk result (λ inputs. map (λ i. i.name.now) inputs.items
        ≡ take (length inputs.items) (texts names.now)) }
    ensures few { IfOk result (λ inputs. length inputs.items ≤ kept_open) }
    ensures err { IfErr result (FailsOpening (texts names.now)) }
{
    let (first, _others) = names.split_at(kept_of(names.len()));
    let mut inputs = match open_kept(alloc, rt, first) {
        Ok(inputs) => inputs,
        Err(fault) => return Err(fault),
    };
    let (_kept, others) = names.split_at(inputs.len());
    match try_to_open(rt, others, &mut inputs) {
        Ok(()) => Ok(inputs),
        Err(fault) => Err(fault),
    }
}

/// A regular file of more bytes is large.
const LARGE: u64 = 0x2_0000;

/// What the system says of the size of an input, before it is read.
#[derive(Clone, Copy, Debug)]
pub(crate) enum Size {
    /// Nothing that would matter.
    Unknown,
    /// It is a regular file, and large.
    Large,
    /// It is longer than an input may be.
    TooLong,
}

/// What the system says of the size of a file. It says nothing of standard input.
fn size_of<R: OpenFile, I>(opened: &Opened<R, I>) -> Size
    ensures { result ≡ TheTooLong → is_stdin opened.now ≡ false }
{
    match opened {
        Opened::File(file) => match file.metadata() {
            Ok(metadata) => size_by(metadata.is_file(), metadata.len()),
            Err(_) => Size::Unknown,
        },
        Opened::Stdin(_) => Size::Unknown,
    }
}

/// The same by the number of bytes, and by whether it is a regular file.
fn size_by(is_regular: bool, bytes: u64) -> Size {
    if bytes > MAX_BYTES as u64 {
        return Size::TooLong;
    }
    if is_regular && bytes > LARGE {
        return Size::Large;
    }
    Size::Unknown
}

/// Judges a file, writes its line, and says whether it is a valid module. A file that is too long by what the system says is not
/// read.
pub(crate) fn judge_opened<'a, J: Judge, R: Read + OpenFile + Drop, I: Read + Drop, W: Write>(
    judge: &J,
    alloc: Global,
    chosen: Chosen,
    index: usize,
    mut input: Input<'a, Opened<R, I>>,
    buffer: &mut Vec<u8>,
    out: &mut W,
) -> Result<bool, Fault<'a>>
    requires within { CanJudge chosen }
    ensures ok { IfOk result (JudgesFile (ruling_of J.accepts chosen) input.entry.name.now
        (W.contents out.old) (W.contents out.new)) }
    ensures err { IfErr result (FailsFile (ruling_of J.accepts chosen) index input.entry.name.now
        (W.contents out.old) (W.contents out.new)) }
    ensures said { IfOk result (λ valid. IsJudged (ruling_of J.accepts chosen) input.entry.name.now
        (said_by R.remaining I.remaining input.entry.reader) valid (W.contents out.old) (W.contents out.new)) }
{
    let name = input.name;
    let is_large = match size_of(&input.reader) {
        Size::Unknown => false,
        Size::Large => true,
        Size::TooLong => {
            return Err(Fault::Stopped {
                error: CheckError::TooLong(index),
                name,
                reason: Reason::Unknown,
            });
        }
    };
    match judge_reader(
        judge,
        alloc,
        chosen,
        index,
        name,
        &mut input.reader,
        is_large,
        buffer,
        out,
    ) {
        Ok(is_valid) => Ok(is_valid),
        Err(failure) => Err(Fault::Stopped {
            error: failure.error,
            name,
            reason: failure.reason,
        }),
    }
}

/// The fault of a file that could not be opened again in its turn. That the first hundred can be opened is known before the first is
/// judged, so of one of them it is told that it cannot be read.
fn unopened_again<'a>(index: usize, name: &'a str, reason: Reason) -> Fault<'a>
    ensures { FailsAgain index name.entry.now result }
{
    if index < KEPT {
        return Fault::Stopped {
            error: CheckError::Read(index),
            name,
            reason,
        };
    }
    Fault::CannotOpen { name, reason }
}

/// Opens a file again, judges it, writes its line, and says whether it is a valid module.
fn judge_again<'a, J: Judge, F: Files + Standard, W: Write>(
    judge: &J,
    alloc: Global,
    rt: &F,
    chosen: Chosen,
    index: usize,
    name: &'a str,
    buffer: &mut Vec<u8>,
    out: &mut W,
) -> Result<bool, Fault<'a>>
    requires within { CanJudge chosen }
    ensures ok { IfOk result (JudgesFile (ruling_of J.accepts chosen) name.entry.now
        (W.contents out.old) (W.contents out.new)) }
    ensures err { IfErr result (FailsFile (ruling_of J.accepts chosen) index name.entry.now
        (W.contents out.old) (W.contents out.new)) }
{
    let reader = match open(rt, name) {
        Ok(reader) => reader,
        Err(error) => return Err(unopened_again(index, name, Reason::of(&error))),
    };
    let input = Input { name, reader };
    judge_opened(judge, alloc, chosen, index, input, buffer, out)
}

/// The name at this place.
pub(crate) fn name_at<'a>(names: &[&'a str], place: usize) -> &'a str
    requires { place < length names.now }
    ensures { slice_get (texts names.now) place ≡ Some result.now }
{
    names[place]
}

/// The status of files that have this one, and of one more.
pub(crate) fn joined(status: Status, is_valid: bool) -> Status
    ensures { result ≡ joined status is_valid }
{
    if is_valid {
        return status;
    }
    Status::SomeInvalid
}

/// Whether nothing more has to be judged: nothing is written, and a file is invalid.
pub(crate) fn is_enough(form: Form, status: Status) -> bool
    ensures { result ≡ is_enough form status }
{
    match (form, status) {
        (Form::Quiet, Status::SomeInvalid) => true,
        _ => false,
    }
}

/// Judges the files that were kept open, in order, and writes their lines, through the first fault.
fn judge_kept<'a, J: Judge, R: Read + OpenFile + Drop, I: Read + Drop, W: Write>(
    judge: &J,
    alloc: Global,
    chosen: Chosen,
    inputs: Vec<Input<'a, Opened<R, I>>>,
    buffer: &mut Vec<u8>,
    out: &mut W,
) -> Result<Status, Fault<'a>>
    requires within { CanJudge chosen }
    ensures ok { IfOk result (EndsFiles (ruling_of J.accepts chosen) (map (λ i. i.name.now) inputs.entry.items)
        (W.contents out.old) (W.contents out.new)) }
    ensures err { (all : List (List ℕ))
        → map (λ i. i.name.now) inputs.entry.items ≡ take (length inputs.entry.items) all
        → IfErr result (StopsFiles (ruling_of J.accepts chosen) all (W.contents out.old) (W.contents out.new)) }
{
    let mut status = Status::AllValid;
    let mut index = 0;
    for input in inputs {
        if is_enough(chosen.form, status) {
            return Ok(status);
        }
        let is_valid = match judge_opened(judge, alloc, chosen, index, input, buffer, out) {
            Ok(is_valid) => is_valid,
            Err(fault) => return Err(fault),
        };
        status = joined(status, is_valid);
        index += 1;
    }
    Ok(status)
}

/// Judges the files in order: first those that were kept open, and then each other one, which is opened again.
fn judge_in_turn<'a, J: Judge, F: Files + Standard, W: Write>(
    judge: &J,
    alloc: Global,
    rt: &F,
    chosen: Chosen,
    inputs: Vec<Input<'a, Opened<F::File, F::Reader>>>,
    names: &[&'a str],
    out: &mut W,
) -> Result<Status, Fault<'a>>
    requires within { CanJudge chosen }
    requires kept { map (λ i. i.name.now) inputs.items ≡ take (length inputs.items) (texts names.now) }
    ensures ok { IfOk result (EndsFiles (ruling_of J.accepts chosen) (texts names.now)
        (W.contents out.old) (W.contents out.new)) }
    ensures err { IfErr result (StopsFiles (ruling_of J.accepts chosen) (texts names.now)
        (W.contents out.old) (W.contents out.new)) }
{
    let mut buffer = Vec::new(alloc);
    let kept = inputs.len();
    let mut status = match judge_kept(judge, alloc, chosen, inputs, &mut buffer, out) {
        Ok(status) => status,
        Err(fault) => return Err(fault),
    };
    if is_enough(chosen.form, status) {
        return Ok(status);
    }
    for place in kept..names.len() {
        if is_enough(chosen.form, status) {
            return Ok(status);
        }
        let name = name_at(names, place);
        let is_valid = match judge_again(judge, alloc, rt, chosen, place, name, &mut buffer, out) {
            Ok(is_valid) => is_valid,
            Err(fault) => return Err(fault),
        };
        status = joined(status, is_valid);
    }
    Ok(status)
}

/// How the judging of files ended.
#[derive(Clone, Copy, Debug)]
pub(crate) struct Ended {
    /// Whether all that were judged are valid.
    pub(crate) status: Status,
    /// Whether some came to no verdict.
    pub(crate) lost: bool,
}

/// Opens all files, and judges them by what was chosen.
pub(crate) fn judge_files<'a, J: Judge, F: Files + Standard, W: Write>(
    judge: &J,
    alloc: Global,
    rt: &F,
    names: &[&'a str],
    chosen: Chosen,
    out: &mut W,
) -> Result<Status, Fault<'a>>
    requires within { CanJudge chosen }
    ensures ok { IfOk result (EndsFiles (ruling_of J.accepts chosen) (texts names.now)
        (W.contents out.old) (W.contents out.new)) }
    ensures err { IfErr result (StopsFiles (ruling_of J.accepts chosen) (texts names.now)
        (W.contents out.old) (W.contents out.new)) }
{
    let held = hold_streams(rt, names);
    if let Some(reason) = unheld(&held, names) {
        return Err(Fault::CannotHold(reason));
    }
    let inputs = match open_all(alloc, rt, names) {
        Ok(inputs) => inputs,
        Err(fault) => return Err(fault),
    };
    let judged = judge_in_turn(judge, alloc, rt, chosen, inputs, names, out);
    if let Err(error) = out.flush() {
        return Err(Fault::Stopped {
            error: CheckError::Write,
            name: "",
            reason: Reason::of(&error),
        });
    }
    judged
}
