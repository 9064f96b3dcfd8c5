//! Inputs are judged one after another, and a line is written for each.
ghost use Rattle.std.specs.Prelude.{◌≡◌, ◌≤◌, ◌++◌, ℕ, IsTrue, false, List, [], length, take, IfOk, IfErr, OnOk, OnErr, Option, string_bytes};
ghost use Rattle.std.specs.Io.KnownBytes.{Appends, Consumes, IsAtEnd, Keeps, ReadConsumes, prepend_known};
ghost use Rattle.wasm_types.specs.decoding.Denials.{Tells};
ghost use Rattle.wasm_types.specs.settings.Settings.{Settings};
ghost use Rattle.wasm_types.specs.settings.Limits.{IsWithinCeilings};
ghost use Rattle.wasm_check_command.specs.Settings.{settings_by, settings_of};
ghost use Rattle.wasm_check_command.specs.Lines.{IsExplained};
ghost use Rattle.wasm_check_command.specs.Modes.{AreLeft, CanJudge, FailsJudging, HasBegun, HasPieces, HasValid, IsShort, ReadsWithin};
ghost use Rattle.wasm_check_command.specs.Modes.{TellsValid, by_features, judged_by, manner_of, ruled, ruling_by, ruling_of};
ghost use Rattle.wasm_check_command.specs.Faults.{FailsReading};
ghost use Rattle.wasm_check_command.specs.Verdict.{WritesFront, IsVerdict, WritesLine, IsJudged, FailsWriting, FailsAt};
ghost use Rattle.wasm_check_faults.specs.declared.error.CheckError.TheVariants.{Read as TheRead, Write as TheWrite};
ghost use Rattle.wasm_check_command.specs.declared.judging.Mode.TheVariants.{Whole as whole};
ghost use Rattle.wasm_check_command.specs.Reports.{sources_of, IsReported, Stops};

use crate::large::judge_large;
use crate::needs::{minimal_list, needs_switch};
use crate::pieces::judge_in_pieces;
use crate::steady::{read_steadily, write_steadily};
use bitflags::Flags;
use std::alloc::{AllocError, Global};
use std::io::{self, Read, Write};
use wasm_check_faults::{Below, CheckError, Reason, every_feature, needs_text};
use wasm_check_lines::{Explanation, Form, Refusal, refused_text, valid_text};
use wasm_types::{Error, ErrorKind, Limits, WasmFeatures};

/// The most bytes that an input may have.
pub const MAX_BYTES: usize = 0x4000_0000;

/// How many bytes a read asks for; and how many while fewer came of an input that is read whole.
pub(crate) const CHUNK: usize = 0x1_0000;

const FIRST_CHUNK: usize = 0x1000;

/// How inputs are read.
#[derive(Clone, Copy, Debug, PartialEq, Eq)]
pub enum Mode {
    /// Whole, and then judged.
    Whole,
    /// In pieces of at most so many bytes, and judged as they come.
    Pieces(u32),
}

/// Why what a reader has left was not accepted.
#[derive(Debug, Drop)]
pub enum Unjudged {
    /// It is not valid, or there was no memory.
    Refused(Error),
    /// A read failed.
    Read,
    /// It has more than 2^30 bytes.
    TooLong,
}

/// What says of bytes whether they are valid.
pub trait Judge {
    /// A module that is judged as its bytes come.
    type Begun: Drop;

    /// Which bytes are valid, by the features and limits that hold.
    ghost accepts: { Settings → List ℕ → Type 0 };

    /// A module is judged by these settings, and these bytes of it came.
    ghost came: { Settings → List ℕ → Self.Begun → Type 0 };

    /// Judges these bytes by these features and limits. They are those of the input at this place.
    ///
    /// # Errors
    ///
    /// The bytes are not valid, for the reason and at the offset that the error has; or there was no memory.
    fn judge(
        &self,
        alloc: Global,
        features: WasmFeatures,
        limits: Limits,
        index: usize,
        bytes: &[u8],
    ) -> Result<(), Error>
        requires within { IsWithinCeilings limits }
        ensures { Tells result (accepts (settings_by features.0 limits) bytes.now) };

    /// Judges what a reader has left, by these features and limits, as it comes: each read asks for at most `piece` bytes. It is the
    /// input at this place.
    ///
    /// # Errors
    ///
    /// The bytes are not valid, for the reason and at the offset that the error has, however many of them were read; or there was no
    /// memory. A read failed. There are more than 2^30 bytes.
    fn judge_pieces<R: Read>(
        &self,
        alloc: Global,
        features: WasmFeatures,
        limits: Limits,
        index: usize,
        reader: &mut R,
        piece: u32,
    ) -> Result<(), Unjudged>
        requires within { IsWithinCeilings limits }
        requires some { 1 ≤ piece }
        ensures ok { OnOk result (HasValid (accepts (settings_by features.0 limits)) (R.remaining reader.old)) }
        ensures err { IfErr result (FailsJudging (accepts (settings_by features.0 limits)) (R.remaining reader.old)) };

    /// A module of which no bytes came yet, which is judged by these features and limits. It is the input at this place.
    fn begin(
        &self,
        alloc: Global,
        features: WasmFeatures,
        limits: Limits,
        index: usize,
    ) -> Self::Begun
        requires within { IsWithinCeilings limits }
        ensures { came (settings_by features.0 limits) [] result };

    /// Takes the next bytes of a module.
    fn take(&self, begun: &mut Self::Begun, bytes: &[u8])
        requires { HasBegun came begun.old }
        ensures { (z : Settings) (got : List ℕ) → came z got begun.old → came z (got ++ bytes.now) begun.new };

    /// The verdict on the module that is all the bytes that came.
    ///
    /// # Errors
    ///
    /// As `judge` of these bytes.
    fn conclude(&self, begun: Self::Begun) -> Result<(), Error>
        requires { HasBegun came begun }
        ensures { (z : Settings) (got : List ℕ) → came z got begun → IsShort got → Tells result (accepts z got) };

    /// What is known of the place of the fault in these bytes, which were refused by this error under these features and limits, if something
    /// is.
    ///
    /// # Errors
    ///
    /// Memory ran out.
    fn explain(
        &self,
        alloc: Global,
        features: WasmFeatures,
        limits: Limits,
        bytes: &[u8],
        error: &Error,
    ) -> Result<Option<Explanation>, AllocError>
        requires within { IsWithinCeilings limits }
    {
        let _given = (alloc, features, limits, bytes.len(), error.offset());
        Ok(None)
    }
}

/// What inputs are judged by.
#[derive(Clone, Copy, Debug)]
pub(crate) struct Chosen {
    /// The features that are allowed.
    pub(crate) features: WasmFeatures,
    /// The limits that hold.
    pub(crate) limits: Limits,
    /// How inputs are read.
    pub(crate) mode: Mode,
    /// How verdicts are written.
    pub(crate) form: Form,
    /// Whether refusals are explained.
    pub(crate) explains: bool,
    /// Whether it is told which features a valid input needs, of all that there are.
    pub(crate) needs: bool,
    /// What is told below the line of a fault.
    pub(crate) below: Below,
}

/// What is to be judged: a name, and what gives the bytes.
#[derive(Debug, Drop)]
pub struct Input<'a, R> {
    /// The name that stands at the head of the line.
    pub name: &'a str,
    /// What gives the bytes.
    pub reader: R,
}

/// Whether all inputs were valid.
#[derive(Clone, Copy, Debug, PartialEq, Eq)]
pub enum Status {
    /// Each input is a valid module, or there was none.
    AllValid,
    /// Some input is no valid module.
    SomeInvalid,
}

/// Why an input has no line: the error, and where a read or a write failed the reason that it gave.
#[derive(Clone, Copy, Debug)]
pub(crate) struct Failure {
    /// The error.
    pub(crate) error: CheckError,
    /// The reason.
    pub(crate) reason: Reason,
}

/// This error, without a reason.
pub(crate) fn without_reason(error: CheckError) -> Failure
    ensures { result.error ≡ error }
{
    Failure {
        error,
        reason: Reason::Unknown,
    }
}

/// One read, of at most so many bytes and no more than the chunk has: how many came, at its front.
fn read_some<R: Read>(reader: &mut R, chunk: &mut [u8], most: usize) -> io::Result<usize>
    requires chunk { 1 ≤ length chunk.old }
    requires most { 1 ≤ most }
    ensures gives { ReadConsumes (R.remaining reader.old) (R.remaining reader.new) result chunk.new }
    ensures within { IfOk result (λ count. (count ≤ most) × (count ≤ length chunk.new)) }
    ensures same { length chunk.new ≡ length chunk.old }
{
    let room = chunk.len().min(most);
    read_steadily(reader, &mut chunk[..room])
}

/// The failure of a read.
fn unread(index: usize, error: &io::Error) -> Failure
    ensures { result.error ≡ TheRead index }
{
    Failure {
        error: CheckError::Read(index),
        reason: Reason::of(error),
    }
}

/// Puts what one read gives at the front of the chunk, which then has `size` bytes: how many bytes came, at most `most` of them.
pub(crate) fn read_over<R: Read>(
    index: usize,
    reader: &mut R,
    size: usize,
    most: usize,
    chunk: &mut Vec<u8>,
) -> Result<usize, Failure>
    requires size { 1 ≤ size }
    requires most { 1 ≤ most }
    ensures gives { IfOk result (λ count. Consumes (R.remaining reader.old) (R.remaining reader.new)
        (take count chunk.new.items)) }
    ensures at_end { IfOk result (λ count. count ≡ 0 → IsAtEnd (R.remaining reader.new)) }
    ensures within { IfOk result (λ count. (count ≤ most) × (count ≤ length chunk.new.items)) }
    ensures err { IfErr result (λ u. (said : Option (List ℕ)) → FailsReading index said u.error) }
    ensures kept { OnErr result (Keeps (R.remaining reader.old) (R.remaining reader.new)) }
{
    if chunk.resize(size, 0).is_err() {
        return Err(without_reason(CheckError::OutOfMemory(index)));
    }
    match read_some(reader, chunk.as_mut_slice(), most) {
        Ok(count) => Ok(count),
        Err(error) => Err(unread(index, &error)),
    }
}

/// Puts what a reader has left into the buffer, in place of what stood there. No more is read than shows that it is too much.
pub(crate) fn read_whole<R: Read>(
    index: usize,
    reader: &mut R,
    buffer: &mut Vec<u8>,
) -> Result<(), Failure>
    ensures ok { OnOk result (AreLeft (R.remaining reader.old) buffer.new.items × IsShort buffer.new.items) }
    ensures err { IfErr result (λ u. FailsReading index (R.remaining reader.old) u.error) }
    ensures most { ReadsWithin (R.remaining reader.old) (R.remaining reader.new) }
{
    buffer.clear();
    read_behind(index, reader, buffer)
}

/// Puts what a reader has left behind the bytes in the buffer. No more is read than shows that they are too many together.
pub(crate) fn read_behind<R: Read>(
    index: usize,
    reader: &mut R,
    buffer: &mut Vec<u8>,
) -> Result<(), Failure>
    requires { IsShort buffer.old.items }
    ensures ok { OnOk result (AreLeft (prepend_known buffer.old.items (R.remaining reader.old)) buffer.new.items
        × IsShort buffer.new.items) }
    ensures err { IfErr result (λ u.
        FailsReading index (prepend_known buffer.old.items (R.remaining reader.old)) u.error) }
    ensures most { ReadsWithin (prepend_known buffer.old.items (R.remaining reader.old)) (R.remaining reader.new) }
{
    let mut chunk = Vec::new(*buffer.allocator());
    for _turn in 0..=MAX_BYTES {
        let left = MAX_BYTES - buffer.len();
        // Most files are small, and each byte of a chunk is written first: the chunk is long once as much came as the first one holds.
        let size = if left > MAX_BYTES - FIRST_CHUNK {
            FIRST_CHUNK
        } else {
            CHUNK
        };
        let count = match read_over(index, reader, size, left + 1, &mut chunk) {
            Ok(count) => count,
            Err(failure) => return Err(failure),
        };
        if count == 0 {
            return Ok(());
        }
        if count > left {
            return Err(without_reason(CheckError::TooLong(index)));
        }
        let read = chunk.as_slice();
        if buffer.extend_from_slice(&read[..count]).is_err() {
            return Err(without_reason(CheckError::OutOfMemory(index)));
        }
    }
    unreachable!()
}

/// What is known of the place of a fault, if that is asked for.
fn explanation<J: Judge>(
    judge: &J,
    alloc: Global,
    chosen: Chosen,
    bytes: &[u8],
    error: &Error,
) -> Result<Option<Explanation>, AllocError>
    requires within { IsWithinCeilings chosen.limits }
    ensures { IfOk result (IsExplained (manner_of chosen)) }
{
    if !chosen.explains {
        return Ok(None);
    }
    judge.explain(alloc, judged_features(chosen), chosen.limits, bytes, error)
}

/// The features by which whole inputs are judged: if it is to be told which of them are needed, all.
fn judged_features(chosen: Chosen) -> WasmFeatures
    ensures { settings_by result.0 chosen.limits ≡ judged_by chosen.needs (settings_of chosen) }
{
    if chosen.needs {
        return every_feature().union(WasmFeatures::VECTOR_OPERATORS);
    }
    chosen.features
}

/// Judges these bytes by what was chosen.
fn judge_by<J: Judge>(
    judge: &J,
    alloc: Global,
    chosen: Chosen,
    index: usize,
    bytes: &[u8],
) -> Result<(), Error>
    requires within { IsWithinCeilings chosen.limits }
    ensures { Tells result (J.accepts (judged_by chosen.needs (settings_of chosen)) bytes.now) }
{
    judge.judge(alloc, judged_features(chosen), chosen.limits, index, bytes)
}

/// The text of these bytes, which are valid by the features by which they are judged.
fn accepted_text<J: Judge>(
    judge: &J,
    alloc: Global,
    chosen: Chosen,
    index: usize,
    name: &str,
    bytes: &[u8],
) -> Result<String, AllocError>
    requires within { IsWithinCeilings chosen.limits }
    requires valid { J.accepts (judged_by chosen.needs (settings_of chosen)) bytes.now }
    ensures { IfOk result (λ line. TellsValid chosen.needs chosen.form (by_features J.accepts chosen.limits bytes.now)
        name.now (string_bytes line)) }
{
    if !chosen.needs {
        return valid_text(alloc, chosen.form, name);
    }
    let words = minimal_list(judge, alloc, chosen.limits, index, bytes)?;
    let vectors = needs_switch(judge, alloc, chosen.limits, index, bytes, words.as_slice())?;
    needs_text(alloc, chosen.form, name, words.as_slice(), vectors)
}

/// The line of these bytes, and whether they spell a valid module.
fn verdict_line<J: Judge>(
    judge: &J,
    alloc: Global,
    chosen: Chosen,
    index: usize,
    name: &str,
    bytes: &[u8],
) -> Result<(bool, String), AllocError>
    requires within { IsWithinCeilings chosen.limits }
    ensures { IfOk result (λ r. IsVerdict (ruled (manner_of chosen) whole J.accepts (settings_of chosen)) name.now bytes.now r.0
        (string_bytes r.1)) }
{
    match judge_by(judge, alloc, chosen, index, bytes) {
        Ok(()) => {
            let line = accepted_text(judge, alloc, chosen, index, name, bytes)?;
            Ok((true, line))
        }
        Err(error) => {
            if error.kind() == ErrorKind::OutOfMemory {
                return Err(AllocError);
            }
            let explained = explanation(judge, alloc, chosen, bytes, &error)?;
            let refusal = Refusal {
                error: &error,
                limits: chosen.limits,
                front: bytes,
            };
            let (form, explains) = (chosen.form, chosen.explains);
            let line = refused_text(alloc, form, explains, name, refusal, explained.as_ref())?;
            Ok((false, line))
        }
    }
}

/// Writes a text. Where that fails, what stands written is a front of it: `write_all` would not promise this.
pub(crate) fn write_text<W: Write>(text: &[u8], out: &mut W) -> Result<(), Failure>
    ensures ok { OnOk result (Appends (W.contents out.old) (W.contents out.new) text.now) }
    ensures err { IfErr result (λ f. (f.error ≡ TheWrite)
        × WritesFront text.now (W.contents out.old) (W.contents out.new)) }
{
    let mut written = 0;
    for _turn in 0..=text.len() {
        if written == text.len() {
            return Ok(());
        }
        match write_steadily(out, &text[written..]) {
            Ok(0) => {
                return Err(Failure {
                    error: CheckError::Write,
                    reason: Reason::Unknown,
                });
            }
            Ok(count) => written += count,
            Err(error) => {
                return Err(Failure {
                    error: CheckError::Write,
                    reason: Reason::of(&error),
                });
            }
        }
    }
    unreachable!()
}

/// Judges these bytes, writes their line, and says whether they spell a valid module.
pub(crate) fn judge_bytes<J: Judge, W: Write>(
    judge: &J,
    alloc: Global,
    chosen: Chosen,
    index: usize,
    name: &str,
    bytes: &[u8],
    out: &mut W,
) -> Result<bool, Failure>
    requires within { IsWithinCeilings chosen.limits }
    ensures ok { IfOk result (λ valid.
        WritesLine (ruled (manner_of chosen) whole J.accepts (settings_of chosen)) name.now bytes.now valid (W.contents out.old)
        (W.contents out.new)) }
    ensures err { IfErr result (λ f.
        FailsWriting (ruled (manner_of chosen) whole J.accepts (settings_of chosen)) index name.now bytes.now (W.contents out.old)
        (W.contents out.new) f.error) }
{
    let Ok((is_valid, line)) = verdict_line(judge, alloc, chosen, index, name, bytes) else {
        return Err(without_reason(CheckError::OutOfMemory(index)));
    };
    write_text(line.as_bytes(), out)?;
    Ok(is_valid)
}

/// Whether a large input is judged as it comes: nothing else is asked than the verdict, for which its bytes would be needed once more.
fn asks_verdict(chosen: Chosen) -> bool
    ensures { IsTrue result → chosen.needs ≡ false }
{
    !chosen.needs && !chosen.explains
}

/// Judges an input, which is read whole unless it is large, writes its line, and says whether it is a valid module.
fn judge_whole<J: Judge, R: Read, W: Write>(
    judge: &J,
    alloc: Global,
    chosen: Chosen,
    index: usize,
    name: &str,
    reader: &mut R,
    is_large: bool,
    buffer: &mut Vec<u8>,
    out: &mut W,
) -> Result<bool, Failure>
    requires within { IsWithinCeilings chosen.limits }
    ensures ok { IfOk result (λ valid. IsJudged (ruled (manner_of chosen) whole J.accepts (settings_of chosen)) name.now
        (R.remaining reader.old) valid (W.contents out.old) (W.contents out.new)) }
    ensures err { IfErr result (λ u. FailsAt (ruled (manner_of chosen) whole J.accepts (settings_of chosen)) index name.now
        (R.remaining reader.old) (W.contents out.old) (W.contents out.new) u.error) }
    ensures most { ReadsWithin (R.remaining reader.old) (R.remaining reader.new) }
{
    if is_large && asks_verdict(chosen) {
        return judge_large(judge, alloc, chosen, index, name, reader, buffer, out);
    }
    match read_whole(index, reader, buffer) {
        Ok(()) => (),
        Err(failure) => return Err(failure),
    }
    judge_bytes(judge, alloc, chosen, index, name, buffer.as_slice(), out)
}

/// Judges an input by what was chosen, writes its line, and says whether it is a valid module. The line is the same
/// whether the input is taken for a large one or not.
pub(crate) fn judge_reader<J: Judge, R: Read, W: Write>(
    judge: &J,
    alloc: Global,
    chosen: Chosen,
    index: usize,
    name: &str,
    reader: &mut R,
    is_large: bool,
    buffer: &mut Vec<u8>,
    out: &mut W,
) -> Result<bool, Failure>
    requires within { CanJudge chosen }
    ensures ok { IfOk result (λ valid. IsJudged (ruling_of J.accepts chosen) name.now
        (R.remaining reader.old) valid (W.contents out.old) (W.contents out.new)) }
    ensures err { IfErr result (λ u. FailsAt (ruling_of J.accepts chosen) index name.now
        (R.remaining reader.old) (W.contents out.old) (W.contents out.new) u.error) }
{
    match chosen.mode {
        Mode::Whole => judge_whole(
            judge, alloc, chosen, index, name, reader, is_large, buffer, out,
        ),
        Mode::Pieces(piece) => {
            judge_in_pieces(judge, alloc, chosen, piece, index, name, reader, out)
        }
    }
}

/// Judges an input, writes its line, and says whether it is a valid module.
fn judge_input<J: Judge, R: Read + Drop, W: Write>(
    judge: &J,
    alloc: Global,
    chosen: Chosen,
    index: usize,
    mut input: Input<'_, R>,
    buffer: &mut Vec<u8>,
    out: &mut W,
) -> Result<bool, CheckError>
    requires within { CanJudge chosen }
    ensures ok { IfOk result (λ valid. IsJudged (ruling_of J.accepts chosen) input.entry.name.now
        (R.remaining input.entry.reader) valid (W.contents out.old) (W.contents out.new)) }
    ensures err { IfErr result (FailsAt (ruling_of J.accepts chosen) index input.entry.name.now
        (R.remaining input.entry.reader) (W.contents out.old) (W.contents out.new)) }
{
    let name = input.name;
    match judge_reader(
        judge,
        alloc,
        chosen,
        index,
        name,
        &mut input.reader,
        false,
        buffer,
        out,
    ) {
        Ok(is_valid) => Ok(is_valid),
        Err(failure) => Err(failure.error),
    }
}

/// Judges the inputs in order and writes their lines, through the first fault.
fn judge_all<J: Judge, R: Read + Drop, W: Write>(
    judge: &J,
    alloc: Global,
    inputs: Vec<Input<'_, R>>,
    chosen: Chosen,
    out: &mut W,
) -> Result<Status, CheckError>
    requires within { CanJudge chosen }
    ensures ok { IfOk result (IsReported (ruling_of J.accepts chosen) (sources_of R.remaining inputs.entry.items)
        (W.contents out.old) (W.contents out.new)) }
    ensures err { IfErr result (Stops (ruling_of J.accepts chosen) (sources_of R.remaining inputs.entry.items)
        (W.contents out.old) (W.contents out.new)) }
{
    let mut buffer = Vec::new(alloc);
    let mut status = Status::AllValid;
    let mut index = 0;
    for input in inputs {
        if !judge_input(judge, alloc, chosen, index, input, &mut buffer, out)? {
            status = Status::SomeInvalid;
        }
        index += 1;
    }
    Ok(status)
}

/// Has each input judged by these features and limits, in order and in this mode, and writes a line for each.
pub fn check_by<J: Judge, R: Read + Drop, W: Write>(
    judge: &J,
    alloc: Global,
    inputs: Vec<Input<'_, R>>,
    features: WasmFeatures,
    limits: Limits,
    mode: Mode,
    out: &mut W,
) -> Result<Status, CheckError>
    requires within { IsWithinCeilings limits }
    requires pieces { HasPieces mode }
    ensures ok { IfOk result (IsReported (ruling_by J.accepts features.0 limits mode)
        (sources_of R.remaining inputs.entry.items)
        (W.contents out.old) (W.contents out.new)) }
    ensures err { IfErr result (Stops (ruling_by J.accepts features.0 limits mode)
        (sources_of R.remaining inputs.entry.items)
        (W.contents out.old) (W.contents out.new)) }
{
    let chosen = Chosen {
        features,
        limits,
        mode,
        form: Form::Lines,
        explains: false,
        needs: false,
        below: Below::Nothing,
    };
    let judged = judge_all(judge, alloc, inputs, chosen, out);
    if out.flush().is_err() {
        return Err(CheckError::Write);
    }
    judged
}
