//! Why bytes were refused, as C sees it.

ghost use Rattle.std.specs.Prelude.{◌≡◌, ◌≤◌, length, slice_index_or};
ghost use Rattle.wasm_check_lines.specs.Causes.{cause_of};
ghost use Rattle.durskeyl_c.specs.Told.{detail_of, limit_of, number_of, IsEnded};

use bitflags::Flags;
use wasm_check_lines::{Cause, cause_of};
use wasm_types::{Error, ErrorKind, Limits};

/// How many bytes the text has room for, its closing 0 included: a message has 256 at most.
const ROOM: usize = 260;

/// How many bytes a message has at most.
const MOST: usize = 256;

/// Why bytes were refused.
#[repr(C)]
#[derive(Drop)]
pub struct DurskeylFault {
    /// What `durskeyl_validate` answered.
    pub kind: u32,
    /// How many bytes the text has.
    pub text_length: u32,
    /// The offset in the bytes.
    pub offset: u64,
    /// At kind 1 how many bytes more would be wanted at least, at kind 2 the bits of the missing feature, else 0.
    pub detail: u64,
    /// What is wrong, for people: UTF-8, with a 0 after it.
    pub text: [u8; ROOM],
    /// If a limit refused the bytes, 1 more than its place in the limits, else 0.
    pub limit: u32,
}

/// The number of an error's kind, and what it carries.
fn number(kind: ErrorKind) -> (u32, u64)
    ensures kind { result.0 ≡ number_of kind }
    ensures few { result.0 ≤ 5 }
    ensures detail { result.1 ≡ detail_of kind }
{
    match kind {
        ErrorKind::EndOfData { needed_hint } => (1, needed_hint as u64),
        ErrorKind::MissingFeature(feature) => (2, feature.bits() as u64),
        ErrorKind::OutOfMemory => (3, 0),
        ErrorKind::Failed => (4, 0),
        ErrorKind::Other => (5, 0),
    }
}

/// What is told of the limit that refused, if one did.
fn limit_number(cause: Cause) -> u32
    ensures { result ≡ limit_of cause }
{
    match cause {
        Cause::Limit(limit) => limit.place() + 1,
        Cause::Vectors => 0,
        Cause::Feature(_) => 0,
        Cause::FixedLimit => 0,
        Cause::Types => 0,
        Cause::Another => 0,
    }
}

/// The fault of bytes that are valid: none.
pub(crate) fn no_fault() -> DurskeylFault
    ensures kind { result.kind ≡ 0 }
    ensures detail { result.detail ≡ 0 }
    ensures limit { result.limit ≡ 0 }
    ensures text { IsEnded result }
{
    DurskeylFault {
        kind: 0,
        text_length: 0,
        offset: 0,
        detail: 0,
        text: [0; ROOM],
        limit: 0,
    }
}

/// The fault of settings that are none: a feature that is not known, or a limit above its ceiling.
pub(crate) fn bad_settings(fault: &mut DurskeylFault)
    ensures kind { fault.new.kind ≡ 6 }
    ensures detail { fault.new.detail ≡ 0 }
    ensures limit { fault.new.limit ≡ 0 }
    ensures text { IsEnded fault.new }
{
    *fault = no_fault();
    fault.kind = 6;
}

/// The fault of a module in pieces of which an item is longer than may be held.
pub(crate) fn too_long(fault: &mut DurskeylFault)
    ensures kind { fault.new.kind ≡ 7 }
    ensures limit { fault.new.limit ≡ 0 }
    ensures text { IsEnded fault.new }
{
    *fault = no_fault();
    write_text("an item is longer than may be held", fault);
    fault.kind = 7;
}

/// Writes what is wrong, of which a fault holds at most 256 bytes.
fn write_text(words: &str, fault: &mut DurskeylFault)
    ensures kind { fault.new.kind ≡ fault.old.kind }
    ensures detail { fault.new.detail ≡ fault.old.detail }
    ensures offset { fault.new.offset ≡ fault.old.offset }
    ensures limit { fault.new.limit ≡ fault.old.limit }
    ensures text { IsEnded fault.new }
{
    let text = words.as_bytes();
    let count = text.len().min(MOST);
    fault.text[..count].copy_from_slice(&text[..count]);
    fault.text[count] = 0;
    fault.text_length = count as u32;
}

/// Writes an error as a fault, which came under these limits.
pub(crate) fn write_error(limits: &Limits, error: &Error, fault: &mut DurskeylFault)
    ensures kind { fault.new.kind ≡ number_of error.now.kind }
    ensures detail { fault.new.detail ≡ detail_of error.now.kind }
    ensures offset { fault.new.offset ≡ error.now.offset }
    ensures limit { fault.new.limit ≡ limit_of (cause_of limits.now error.now) }
    ensures text { IsEnded fault.new }
{
    *fault = no_fault();
    let (kind, detail) = number(error.kind());
    let message = error.message();
    write_text(message.as_str(), fault);
    fault.kind = kind;
    fault.offset = error.offset();
    fault.detail = detail;
    fault.limit = limit_number(cause_of(limits, error));
}
