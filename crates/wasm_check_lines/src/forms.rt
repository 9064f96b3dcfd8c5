//! What is written of a file in each form.
ghost use Rattle.std.specs.Fmt.{WritesOnOk};
ghost use Rattle.std.specs.Prelude.{◌≡◌, ◌++◌, IfOk, option_map, string_bytes};
ghost use Rattle.wasm_check_lines.specs.Forms.{cause_member, error_word, help_members, kind_word, lines_below, refusal_line, refusal_object, refused_text, valid_text};
ghost use Rattle.wasm_check_lines.specs.Hints.{hint_for};

use crate::causes::{Cause, cause_of};
use crate::hints::{write_framed, write_hint};
use crate::json::Quoted;
use crate::notes::{Explanation, write_explanation, write_explanation_member};
use crate::shown::Shown;
use crate::words::word_for;
use std::alloc::{AllocError, Global};
use std::fmt;
use wasm_types::{Error, ErrorKind, Limits};

/// How verdicts are written.
#[derive(Clone, Copy, Debug, PartialEq, Eq)]
pub enum Form {
    /// A line for people.
    Lines,
    /// An object of JSON on a line.
    Json,
    /// Not at all.
    Quiet,
}

/// The text of a file that is valid: a line that a line feed ends, or nothing if the form is `Quiet`.
///
/// # Errors
///
/// Memory ran out.
pub fn valid_text(alloc: Global, form: Form, name: &str) -> Result<String, AllocError>
    ensures { IfOk result (λ line. string_bytes line ≡ valid_text form name.now) }
{
    match form {
        Form::Lines => {
            let name = Shown(name);
            format!(in alloc; "{name}: valid\n")
        }
        Form::Json => {
            let name = Quoted(name);
            format!(in alloc; "{{\"file\":\"{name}\",\"valid\":true}}\n")
        }
        Form::Quiet => Ok(String::new(alloc)),
    }
}

/// A refusal, as it is told.
#[derive(Clone, Copy, Debug)]
pub struct Refusal<'a> {
    /// The error.
    pub error: &'a Error,
    /// The limits that held.
    pub limits: Limits,
    /// The first bytes of the input, as far as they are known.
    pub front: &'a [u8],
}

// The lines below that of a refusal, if they are asked for.
#[derive(Debug, Drop)]
struct LinesBelow<'a> {
    explains: bool,
    limits: Limits,
    cause: Cause,
    front: &'a [u8],
    explanation: Option<&'a Explanation>,
}

impl fmt::Display for LinesBelow<'_> {
    ghost use Rattle.std.specs.Prelude.{Some, option_map};
    ghost use Rattle.wasm_check_lines.specs.Forms.{lines_below};
    ghost use Rattle.wasm_check_lines.specs.Hints.{hint_for};

    ghost output = { λ l. Some (lines_below l.explains (hint_for l.limits l.cause l.front.now) (option_map (λ x. x.now) l.explanation)) };

    fn fmt<W: fmt::Write>(&self, f: &mut fmt::Formatter<W>) -> fmt::Result {
        if !self.explains {
            return Ok(());
        }
        write_hint(f, "  ", &self.limits, self.cause, self.front, "\n")?;
        write_explanation(f, self.explanation)
    }
}

// The line of a file that was refused at this offset, with this message, and what comes below it.
fn refusal_lines(
    alloc: Global,
    name: &str,
    offset: u64,
    message: &str,
    below: LinesBelow<'_>,
) -> Result<String, AllocError>
    ensures { IfOk result (λ line. string_bytes line ≡ refusal_line name.now offset message.now
        ++ lines_below below.entry.explains (hint_for below.entry.limits below.entry.cause below.entry.front.now) (option_map (λ x. x.now) below.entry.explanation)) }
{
    let name = Shown(name);
    let message = Shown(message);
    format!(in alloc; "{name}: invalid at 0x{offset:x}: {message}\n{below}")
}

// The word of a refusal for this cause, by an error of this kind.
#[derive(Debug, Drop)]
struct KindWord {
    cause: Cause,
    kind: ErrorKind,
}

impl fmt::Display for KindWord {
    ghost use Rattle.std.specs.Prelude.{Some};
    ghost use Rattle.wasm_check_lines.specs.Forms.{kind_word};

    ghost output = { λ k. Some (kind_word k.cause k.kind) };

    fn fmt<W: fmt::Write>(&self, f: &mut fmt::Formatter<W>) -> fmt::Result {
        match self.cause {
            Cause::Vectors => f.write_str("vectors"),
            Cause::Limit(_) => f.write_str("limit"),
            Cause::Feature(_) => f.write_str("missing-feature"),
            Cause::FixedLimit => f.write_str(error_word(self.kind)),
            Cause::Types => f.write_str("types"),
            Cause::Another => f.write_str(error_word(self.kind)),
        }
    }
}

// The word of a kind of errors, if neither a limit nor a feature is told: then no feature is missing.
fn error_word(kind: ErrorKind) -> &'static str
    ensures { result.now ≡ error_word kind }
{
    match kind {
        ErrorKind::EndOfData { needed_hint: _ } => "end-of-data",
        ErrorKind::MissingFeature(_) => "other",
        ErrorKind::OutOfMemory => "out-of-memory",
        ErrorKind::Failed => "failed",
        ErrorKind::Other => "other",
    }
}

// The members that tell what a person can do, and those that explain.
#[derive(Debug, Drop)]
struct HelpMembers<'a> {
    limits: Limits,
    cause: Cause,
    front: &'a [u8],
    explanation: Option<&'a Explanation>,
}

impl fmt::Display for HelpMembers<'_> {
    ghost use Rattle.std.specs.Prelude.{Some, option_map};
    ghost use Rattle.wasm_check_lines.specs.Forms.{help_members};

    ghost output = { λ m. Some (help_members m.limits m.cause m.front.now (option_map (λ x. x.now) m.explanation)) };

    fn fmt<W: fmt::Write>(&self, f: &mut fmt::Formatter<W>) -> fmt::Result {
        write_cause_member(f, self.cause)?;
        write_hint(
            f,
            ",\"hint\":\"",
            &self.limits,
            self.cause,
            self.front,
            "\"",
        )?;
        write_explanation_member(f, self.explanation)
    }
}

// The member that has the word of a feature or of a limit.
fn write_cause_member<W: fmt::Write>(f: &mut fmt::Formatter<W>, cause: Cause) -> fmt::Result
    ensures { WritesOnOk W.write_str_gives f.old result (cause_member cause) f.new }
{
    match cause {
        Cause::Vectors => Ok(()),
        Cause::Limit(limit) => write!(f, ",\"limit\":\"{}\"", limit.word()),
        Cause::Feature(features) => write_framed(f, ",\"feature\":\"", word_for(features), "\""),
        Cause::FixedLimit => Ok(()),
        Cause::Types => Ok(()),
        Cause::Another => Ok(()),
    }
}

// The object of a file that was refused at this offset for this cause, with this message and these members.
fn refusal_object(
    alloc: Global,
    name: &str,
    offset: u64,
    kind: KindWord,
    message: &str,
    members: HelpMembers<'_>,
) -> Result<String, AllocError>
    ensures { IfOk result (λ line. string_bytes line ≡ refusal_object name.now offset
        (kind_word kind.cause kind.kind) message.now
        (help_members members.entry.limits members.entry.cause members.entry.front.now
        (option_map (λ x. x.now) members.entry.explanation))) }
{
    let name = Quoted(name);
    let message = Quoted(message);
    format!(in alloc;
        "{{\"file\":\"{name}\",\"valid\":false,\"offset\":{offset},\"kind\":\"{kind}\",\"message\":\"{message}\"{members}}}\n"
    )
}

/// The text of a file that was refused: a line that a line feed ends, or nothing if the form is `Quiet`. Below the line, if `explains` says so,
/// come lines with what a person can do about the refusal and with this explanation; in the form `Json` the object has both.
///
/// # Errors
///
/// Memory ran out.
pub fn refused_text(
    alloc: Global,
    form: Form,
    explains: bool,
    name: &str,
    refusal: Refusal<'_>,
    explanation: Option<&Explanation>,
) -> Result<String, AllocError>
    ensures { IfOk result (λ line. string_bytes line ≡ refused_text form explains name.now refusal.entry.limits refusal.entry.error.now
        refusal.entry.front.now (option_map (λ x. x.now) explanation.entry)) }
{
    let (error, limits, front) = (refusal.error, refusal.limits, refusal.front);
    let cause = cause_of(&limits, error);
    match form {
        Form::Lines => {
            let below = LinesBelow {
                explains,
                limits,
                cause,
                front,
                explanation,
            };
            refusal_lines(alloc, name, error.offset(), error.message().as_str(), below)
        }
        Form::Json => {
            let kind = KindWord {
                cause,
                kind: error.kind(),
            };
            let members = HelpMembers {
                limits,
                cause,
                front,
                explanation,
            };
            refusal_object(
                alloc,
                name,
                error.offset(),
                kind,
                error.message().as_str(),
                members,
            )
        }
        Form::Quiet => Ok(String::new(alloc)),
    }
}
