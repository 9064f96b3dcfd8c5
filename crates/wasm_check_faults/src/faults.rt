//! What is told of a fault: its line, and below it what may help.
//!
//! The line says what is wrong and nothing else, so that a program may compare it. What helps a person comes below it, if standard error is a
//! terminal, and what helps a program, if verdicts are written as JSON.
ghost use Rattle.std.specs.Fmt.{WritesOnOk};
ghost use Rattle.std.specs.Prelude.{◌≡◌, option_and_then};
ghost use Rattle.wasm_check_lines.specs.FeatureWords.{word_for};
ghost use Rattle.wasm_check_lines.specs.Hints.{framed};
ghost use Rattle.wasm_check_faults.specs.FeatureLists.{meant_by};
ghost use Rattle.wasm_check_faults.specs.FaultTexts.{below_text, bad_pieces_text, ceiling_hint, clash_text, fault_hint, fault_object, fault_word, file_text, is_silent, is_usage, known_text, meant_hint, most_text, subject_member, text_member, word_text};
ghost use Rattle.wasm_check_faults.specs.LimitLists.{word_ceiling};
ghost use Rattle.wasm_check_faults.specs.LineLaws.{FaultsStayInLine};

use crate::error::CheckError;
use crate::features::feature_meant;
use crate::limits::{Wrong, ceiling_of};
use crate::reason::{Reason, is_broken_pipe, reason_hint};
use std::fmt;
use wasm_check_lines::{Quoted, Shown, word_for, write_framed};

/// Why a run came to no status of its files.
#[derive(Debug, Drop)]
pub enum Fault<'a> {
    /// This is no number of bytes for `--pieces`.
    WrongPieces(&'a str),
    /// These two options do not go together.
    Clash(&'static str, &'static str),
    /// No file is named.
    NoFiles,
    /// The list of `--features` has this word, which is unknown.
    UnknownFeature(&'a str),
    /// The list of `--limits` has this word, with which this is wrong.
    WrongLimit(Wrong, &'a str),
    /// This file could not be opened, for this reason.
    CannotOpen {
        name: &'a str,
        reason: Reason,
    },
    /// The judging stopped, at the file of this name where the error has a place; and where a read or a write failed, for this reason.
    Stopped {
        error: CheckError,
        name: &'a str,
        reason: Reason,
    },
    /// Standard input is asked for, and cannot be held: another file may be read in its place.
    CannotHold(Reason),
    /// Memory ran out outside a file.
    OutOfMemory,
}

/// What is told below the line of a fault.
#[derive(Clone, Copy, Debug, PartialEq, Eq)]
pub enum Below {
    /// Nothing.
    Nothing,
    /// What may help a person, if something does.
    Hint,
    /// The fault as an object of JSON.
    Object,
}

impl fmt::Display for Fault<'_> {
    ghost use Rattle.std.specs.Prelude.{Some};
    ghost use Rattle.wasm_check_faults.specs.FaultTexts.{fault_text};

    ghost output = { λ f. Some (fault_text f) };

    fn fmt<W: fmt::Write>(&self, f: &mut fmt::Formatter<W>) -> fmt::Result {
        match self {
            Fault::WrongPieces(word) => write_bad_pieces(f, *word),
            Fault::Clash(first, second) => write_clash(f, *first, *second),
            Fault::NoFiles => f.write_str("error: FILE or --files0-from is required"),
            Fault::UnknownFeature(word) => write_word(f, "unknown feature", *word),
            Fault::WrongLimit(wrong, word) => match wrong {
                Wrong::Unknown => write_word(f, "unknown limit", *word),
                Wrong::BadValue => write_word(f, "bad limit", *word),
            },
            Fault::CannotHold(_) => write_file(f, "/dev/null", "cannot open"),
            Fault::CannotOpen { name, reason: _ } => write_file(f, *name, "cannot open"),
            Fault::Stopped {
                error,
                name,
                reason: _,
            } => match error {
                CheckError::Read(_) => write_file(f, *name, "cannot read"),
                CheckError::TooLong(_) => write_file(f, *name, "too long"),
                CheckError::OutOfMemory(_) => write_file(f, *name, "out of memory"),
                CheckError::Write => f.write_str("wasm-check: cannot write"),
            },
            Fault::OutOfMemory => f.write_str("wasm-check: out of memory"),
        }
    }
}

// What is told of a file.
fn write_file<W: fmt::Write>(f: &mut fmt::Formatter<W>, name: &str, what: &str) -> fmt::Result
    ensures { WritesOnOk W.write_str_gives f.old result (file_text name.now what.now) f.new }
{
    let name = Shown(name);
    write!(f, "wasm-check: {name}: {what}")
}

// What is told of a word of a list.
fn write_word<W: fmt::Write>(f: &mut fmt::Formatter<W>, what: &str, word: &str) -> fmt::Result
    ensures { WritesOnOk W.write_str_gives f.old result (word_text what.now word.now) f.new }
{
    let word = Shown(word);
    write!(f, "wasm-check: {what} `{word}`")
}

// What is told of a number of bytes for `--pieces`, as `clap` tells it.
fn write_bad_pieces<W: fmt::Write>(f: &mut fmt::Formatter<W>, word: &str) -> fmt::Result
    ensures { WritesOnOk W.write_str_gives f.old result (bad_pieces_text word.now) f.new }
{
    let word = Shown(word);
    write!(
        f,
        "error: invalid value '{word}' for '--pieces <N>': it is not in 1..=1048576"
    )
}

// What is told of two options that do not go together, as `clap` tells it.
fn write_clash<W: fmt::Write>(f: &mut fmt::Formatter<W>, first: &str, second: &str) -> fmt::Result
    ensures { WritesOnOk W.write_str_gives f.old result (clash_text first.now second.now) f.new }
{
    let first = Shown(first);
    let second = Shown(second);
    write!(
        f,
        "error: the argument '{first}' cannot be used with '{second}'"
    )
}

// That this word is meant.
#[tactic(auto, unfolding(crate::specs::FaultTexts::known_text))]
fn write_known<W: fmt::Write>(f: &mut fmt::Formatter<W>, known: &str) -> fmt::Result
    ensures { WritesOnOk W.write_str_gives f.old result (known_text known.now) f.new }
{
    write!(f, "did you mean `{known}`?")
}

// That this is the most.
#[tactic(auto, unfolding(crate::specs::FaultTexts::most_text))]
fn write_most<W: fmt::Write>(f: &mut fmt::Formatter<W>, most: u32) -> fmt::Result
    ensures { WritesOnOk W.write_str_gives f.old result (most_text most) f.new }
{
    write!(f, "at most {most}")
}

// Which word is meant by a word in capital letters or with underscores, between two texts.
fn write_meant<W: fmt::Write>(
    f: &mut fmt::Formatter<W>,
    before: &str,
    word: &str,
    after: &str,
) -> fmt::Result
    ensures { WritesOnOk W.write_str_gives f.old result
        (framed before.now (meant_hint (option_and_then word_for (meant_by word.now))) after.now) f.new }
{
    let Some(feature) = feature_meant(word.as_bytes()) else {
        return Ok(());
    };
    match word_for(feature) {
        Some(known) => {
            f.write_str(before)?;
            write_known(f, known)?;
            f.write_str(after)
        }
        None => Ok(()),
    }
}

// The most that the limit of this name may be, between two texts.
fn write_ceiling<W: fmt::Write>(
    f: &mut fmt::Formatter<W>,
    before: &str,
    word: &str,
    after: &str,
) -> fmt::Result
    ensures { WritesOnOk W.write_str_gives f.old result
        (framed before.now (ceiling_hint (word_ceiling word.now)) after.now) f.new }
{
    match ceiling_of(word) {
        Some(most) => {
            f.write_str(before)?;
            write_most(f, most)?;
            f.write_str(after)
        }
        None => Ok(()),
    }
}

// What may help with a fault, between two texts.
fn write_fault_hint<W: fmt::Write>(
    f: &mut fmt::Formatter<W>,
    before: &str,
    fault: &Fault<'_>,
    after: &str,
) -> fmt::Result
    ensures { WritesOnOk W.write_str_gives f.old result (framed before.now (fault_hint fault.now) after.now) f.new }
{
    match fault {
        Fault::WrongPieces(_) => Ok(()),
        Fault::Clash(_, _) => Ok(()),
        Fault::NoFiles => Ok(()),
        Fault::UnknownFeature(word) => write_meant(f, before, *word, after),
        Fault::WrongLimit(wrong, word) => match wrong {
            Wrong::Unknown => Ok(()),
            Wrong::BadValue => write_ceiling(f, before, *word, after),
        },
        Fault::CannotHold(reason) => write_framed(f, before, reason_hint(*reason), after),
        Fault::CannotOpen { name: _, reason } => write_framed(
            f,
            before,
            reason_hint(*reason),
            after,
        ),
        Fault::Stopped {
            error: _,
            name: _,
            reason,
        } => write_framed(f, before, reason_hint(*reason), after),
        Fault::OutOfMemory => Ok(()),
    }
}

// What is wrong, in the words of its line.
fn fault_word(fault: &Fault<'_>) -> &'static str
    ensures { result.now ≡ fault_word fault.now }
{
    match fault {
        Fault::WrongPieces(_) => "invalid value",
        Fault::Clash(_, _) => "argument conflict",
        Fault::NoFiles => "missing argument",
        Fault::UnknownFeature(_) => "unknown feature",
        Fault::WrongLimit(wrong, _) => match wrong {
            Wrong::Unknown => "unknown limit",
            Wrong::BadValue => "bad limit",
        },
        Fault::CannotHold(_) => "cannot open",
        Fault::CannotOpen { name: _, reason: _ } => "cannot open",
        Fault::Stopped {
            error,
            name: _,
            reason: _,
        } => match error {
            CheckError::Read(_) => "cannot read",
            CheckError::TooLong(_) => "too long",
            CheckError::OutOfMemory(_) => "out of memory",
            CheckError::Write => "cannot write",
        },
        Fault::OutOfMemory => "out of memory",
    }
}

// The member that has the file or the word at fault, if one is.
fn write_subject<W: fmt::Write>(f: &mut fmt::Formatter<W>, fault: &Fault<'_>) -> fmt::Result
    ensures { WritesOnOk W.write_str_gives f.old result (subject_member fault.now) f.new }
{
    match fault {
        Fault::WrongPieces(word) => write_member(f, "word", *word),
        Fault::Clash(_, second) => write_member(f, "word", *second),
        Fault::NoFiles => Ok(()),
        Fault::UnknownFeature(word) => write_member(f, "word", *word),
        Fault::WrongLimit(_, word) => write_member(f, "word", *word),
        Fault::CannotHold(_) => write_member(f, "file", "/dev/null"),
        Fault::CannotOpen { name, reason: _ } => write_member(f, "file", *name),
        Fault::Stopped {
            error,
            name,
            reason: _,
        } => match error {
            CheckError::Read(_) => write_member(f, "file", *name),
            CheckError::TooLong(_) => write_member(f, "file", *name),
            CheckError::OutOfMemory(_) => write_member(f, "file", *name),
            CheckError::Write => Ok(()),
        },
        Fault::OutOfMemory => Ok(()),
    }
}

// A member that has a text.
fn write_member<W: fmt::Write>(f: &mut fmt::Formatter<W>, member: &str, text: &str) -> fmt::Result
    ensures { WritesOnOk W.write_str_gives f.old result (text_member member.now text.now) f.new }
{
    let text = Quoted(text);
    write!(f, ",\"{member}\":\"{text}\"")
}

// The fault as an object of JSON.
fn write_object<W: fmt::Write>(f: &mut fmt::Formatter<W>, fault: &Fault<'_>) -> fmt::Result
    ensures { WritesOnOk W.write_str_gives f.old result (fault_object fault.now) f.new }
{
    let word = fault_word(fault);
    write!(f, "{{\"fault\":\"{word}\"")?;
    write_subject(f, fault)?;
    write_fault_hint(f, ",\"hint\":\"", fault, "\"")?;
    f.write_str("}\n")
}

// Whether a fault is one of usage, which is told as `clap` tells those that it finds.
fn is_usage(fault: &Fault<'_>) -> bool
    ensures { result ≡ is_usage fault.now }
{
    match fault {
        Fault::WrongPieces(_) => true,
        Fault::Clash(_, _) => true,
        Fault::NoFiles => true,
        Fault::UnknownFeature(_) => false,
        Fault::WrongLimit(_, _) => false,
        Fault::CannotHold(_) => false,
        Fault::CannotOpen { name: _, reason: _ } => false,
        Fault::Stopped {
            error: _,
            name: _,
            reason: _,
        } => false,
        Fault::OutOfMemory => false,
    }
}

/// Whether nothing is told of a fault: it is that nobody reads the lines any more.
pub fn is_silent(fault: &Fault<'_>) -> bool
    ensures { result ≡ is_silent fault.now }
{
    match fault {
        Fault::WrongPieces(_) => false,
        Fault::Clash(_, _) => false,
        Fault::NoFiles => false,
        Fault::UnknownFeature(_) => false,
        Fault::WrongLimit(_, _) => false,
        Fault::CannotHold(_) => false,
        Fault::CannotOpen { name: _, reason: _ } => false,
        Fault::Stopped {
            error,
            name: _,
            reason,
        } => match error {
            CheckError::Read(_) => false,
            CheckError::TooLong(_) => false,
            CheckError::OutOfMemory(_) => false,
            CheckError::Write => is_broken_pipe(*reason),
        },
        Fault::OutOfMemory => false,
    }
}

// What is told below the line of a fault.
fn write_below<W: fmt::Write>(
    f: &mut fmt::Formatter<W>,
    fault: &Fault<'_>,
    below: Below,
) -> fmt::Result
    ensures { WritesOnOk W.write_str_gives f.old result (below_text below fault.now) f.new }
{
    if is_usage(fault) {
        return f.write_str("\nFor more information, try '--help'.\n");
    }
    match below {
        Below::Nothing => Ok(()),
        Below::Hint => write_fault_hint(f, "  ", fault, "\n"),
        Below::Object => write_object(f, fault),
    }
}

/// A fault as it is told: its line, and what comes below it.
#[derive(Debug, Drop)]
pub struct Told<'f, 'a> {
    /// The fault.
    pub fault: &'f Fault<'a>,
    /// What comes below its line.
    pub below: Below,
}

impl fmt::Display for Told<'_, '_> {
    ghost use Rattle.std.specs.Prelude.{Some};
    ghost use Rattle.wasm_check_faults.specs.FaultTexts.{told_text};

    ghost output = { λ t. Some (told_text t.below t.fault.now) };

    fn fmt<W: fmt::Write>(&self, f: &mut fmt::Formatter<W>) -> fmt::Result {
        let fault = self.fault;
        write!(f, "{fault}\n")?;
        write_below(f, fault, self.below)
    }
}

/// What is told of a fault stays in its line.
#[tactic(auto, using(crate::proofs::InLine::faults_stay))]
pub fn faults_stay_in_line()
    ensures { FaultsStayInLine }
{}
