//! What a person can do about a refusal.
ghost use Rattle.std.specs.Fmt.{WritesOnOk};
ghost use Rattle.std.specs.Prelude.{◌≡◌, Some, bytes_eq, take, codes, option_map};
ghost use Rattle.wasm_check_lines.specs.Hints.{feature_hint, features_hint, framed, hint_for, is_space, is_text, limit_help, limit_hint, text_hint};

use crate::causes::Cause;
use crate::limit::Limit;
use crate::words::word_for;
use std::fmt;
use wasm_types::{Limits, WasmFeatures};

// Whether a byte is a space of the text format.
fn is_space(byte: u8) -> bool
    ensures { result ≡ is_space byte }
{
    byte == b' ' || byte == b'\t' || byte == b'\n' || byte == b'\r'
}

// Whether these bytes begin as a module in the text format does.
fn is_text(front: &[u8]) -> bool
    ensures { result ≡ is_text front.now }
{
    for i in 0..front.len() {
        if !is_space(front[i]) {
            return begins_module(&front[i..]);
        }
    }
    false
}

// Whether these bytes begin with `(module`.
fn begins_module(bytes: &[u8]) -> bool
    ensures { result ≡ bytes_eq (take 7 bytes.now) (codes "(module") }
{
    bytes.starts_with(b"(module")
}

// A hint, if these bytes are the text format.
fn text_hint(front: &[u8]) -> Option<&'static str>
    ensures { option_map (λ h. h.now) result ≡ text_hint front.now }
{
    if is_text(front) {
        return Some("this is the text format; wasm-check judges the binary format");
    }
    None
}

/// Writes a text between two others, or nothing.
pub fn write_framed<W: fmt::Write>(
    f: &mut fmt::Formatter<W>,
    before: &str,
    text: Option<&str>,
    after: &str,
) -> fmt::Result
    ensures { WritesOnOk W.write_str_gives f.old result
        (framed before.now (option_map (λ t. t.now) text.entry) after.now) f.new }
{
    let Some(text) = text else {
        return Ok(());
    };
    f.write_str(before)?;
    f.write_str(text)?;
    f.write_str(after)
}

// Writes which option sets a limit.
#[tactic(auto, unfolding(crate::specs::Hints::limit_hint))]
fn write_limit<W: fmt::Write>(f: &mut fmt::Formatter<W>, word: &str) -> fmt::Result
    ensures { WritesOnOk W.write_str_gives f.old result (limit_hint word.now) f.new }
{
    write!(f, "--limits {word}=N sets this limit")
}

// Writes which option allows a feature.
#[tactic(auto, unfolding(crate::specs::Hints::feature_hint))]
fn write_feature<W: fmt::Write>(f: &mut fmt::Formatter<W>, word: &str) -> fmt::Result
    ensures { WritesOnOk W.write_str_gives f.old result (feature_hint word.now) f.new }
{
    write!(f, "--features {word} allows it")
}

// Writes which option sets a limit, if one can raise it, between two texts.
fn write_limit_hint<W: fmt::Write>(
    f: &mut fmt::Formatter<W>,
    before: &str,
    limits: &Limits,
    limit: Limit,
    after: &str,
) -> fmt::Result
    ensures { WritesOnOk W.write_str_gives f.old result
        (framed before.now (Some (limit_help limits.now limit)) after.now) f.new }
{
    if limit.is_highest(limits) {
        return write_framed(f, before, Some("no option raises this limit"), after);
    }
    f.write_str(before)?;
    write_limit(f, limit.word())?;
    f.write_str(after)
}

// Writes which option allows a feature, if it has a word, between two texts.
fn write_feature_hint<W: fmt::Write>(
    f: &mut fmt::Formatter<W>,
    before: &str,
    features: WasmFeatures,
    after: &str,
) -> fmt::Result
    ensures { WritesOnOk W.write_str_gives f.old result (framed before.now (features_hint features) after.now) f.new }
{
    let Some(word) = word_for(features) else {
        return Ok(());
    };
    f.write_str(before)?;
    write_feature(f, word)?;
    f.write_str(after)
}

/// Writes what to do about a refusal for this cause under these limits, of an input that begins with these bytes, between two texts; or nothing.
pub(crate) fn write_hint<W: fmt::Write>(
    f: &mut fmt::Formatter<W>,
    before: &str,
    limits: &Limits,
    cause: Cause,
    front: &[u8],
    after: &str,
) -> fmt::Result
    ensures { WritesOnOk W.write_str_gives f.old result (framed before.now (hint_for limits.now cause front.now) after.now) f.new }
{
    match cause {
        Cause::Vectors => {
            let hint = "--vectors judges operators on vectors";
            write_framed(f, before, Some(hint), after)
        }
        Cause::Limit(limit) => write_limit_hint(f, before, limits, limit, after),
        Cause::Feature(features) => write_feature_hint(f, before, features, after),
        Cause::FixedLimit => Ok(()),
        Cause::Types => Ok(()),
        Cause::Another => write_framed(f, before, text_hint(front), after),
    }
}
