//! Lists of limits, as `--limits` has them.
ghost use Rattle.std.specs.Prelude.{◌≡◌, ◌+◌, ◌<◌, ℕ, Some, Ok, Err, IfOk, IfErr, MatchResult, option_map, length};
ghost use Rattle.wasm_types.specs.settings.Limits.{IsWithinCeilings, default_limits};
ghost use Rattle.wasm_check_faults.specs.Lists.{place_of, IsWordAt};
ghost use Rattle.wasm_check_faults.specs.ListRows.{LimitRows};
ghost use Rattle.wasm_check_faults.specs.LimitLists.{limit_named, with_limit};
ghost use Rattle.wasm_check_faults.specs.LimitLists.{number_of, number_for, limit_name, limit_value, limits_after, limits_along, limits_of, told, word_ceiling};

use crate::lists::{ListedWord, first_word};
use wasm_check_lines::Limit;
use wasm_types::Limits;

/// Why a list of limits is refused: a word of it, by its place from its first byte up to the byte after its last.
#[derive(Clone, Copy, Debug, PartialEq, Eq)]
pub enum LimitFault {
    /// The word names no limit.
    Unknown {
        /// Where the word begins.
        start: usize,
        /// Where it ends.
        end: usize,
    },
    /// The word names a limit, but has no number for it: none, a misspelt one, or one past its ceiling.
    BadValue {
        /// Where the word begins.
        start: usize,
        /// Where it ends.
        end: usize,
    },
}

/// What is wrong with a word of a list.
#[derive(Clone, Copy, Debug)]
pub enum Wrong {
    /// It names no limit.
    Unknown,
    /// It has no number for the limit that it names.
    BadValue,
}

/// A word of a list at fault.
#[derive(Clone, Copy, Debug)]
pub struct FaultyWord<'a> {
    /// What is wrong with it.
    pub wrong: Wrong,
    /// The word.
    pub word: ListedWord<'a>,
}

/// The most digits of a number.
const MAX_DIGITS: usize = 10;

/// All limits, in the order of the fields of `Limits`.
const LIMITS: [Limit; 21] = [
    Limit::Types,
    Limit::Params,
    Limit::Results,
    Limit::Fields,
    Limit::StringBytes,
    Limit::Imports,
    Limit::Exports,
    Limit::Functions,
    Limit::Globals,
    Limit::Tags,
    Limit::Tables,
    Limit::Memories,
    Limit::ElementSegments,
    Limit::DataSegments,
    Limit::SegmentItems,
    Limit::BodyBytes,
    Limit::SelectTypes,
    Limit::Locals,
    Limit::Catches,
    Limit::SubtypingDepth,
    Limit::TypeSize,
];

/// The limit of this name.
fn limit_named(name: &str) -> Option<Limit>
    ensures { result ≡ limit_named name.now }
{
    LIMITS.iter().copied().find(|limit| name == limit.word())
}

/// These limits with this one set.
fn with_limit(limit: Limit, value: u32, limits: Limits) -> Limits
    ensures { result ≡ with_limit limit value limits }
{
    match limit {
        Limit::Types => Limits {
            types: value,
            ..limits
        },
        Limit::Params => Limits {
            params: value,
            ..limits
        },
        Limit::Results => Limits {
            results: value,
            ..limits
        },
        Limit::Fields => Limits {
            fields: value,
            ..limits
        },
        Limit::StringBytes => Limits {
            string_bytes: value,
            ..limits
        },
        Limit::SubtypingDepth => Limits {
            subtyping_depth: value,
            ..limits
        },
        Limit::TypeSize => Limits {
            type_size: value,
            ..limits
        },
        Limit::Imports => Limits {
            imports: value,
            ..limits
        },
        Limit::Exports => Limits {
            exports: value,
            ..limits
        },
        Limit::Functions => Limits {
            functions: value,
            ..limits
        },
        Limit::Globals => Limits {
            globals: value,
            ..limits
        },
        Limit::Tags => Limits {
            tags: value,
            ..limits
        },
        Limit::Tables => Limits {
            tables: value,
            ..limits
        },
        Limit::Memories => Limits {
            memories: value,
            ..limits
        },
        Limit::ElementSegments => Limits {
            element_segments: value,
            ..limits
        },
        Limit::DataSegments => Limits {
            data_segments: value,
            ..limits
        },
        Limit::SegmentItems => Limits {
            segment_items: value,
            ..limits
        },
        Limit::BodyBytes => Limits {
            body_bytes: value,
            ..limits
        },
        Limit::SelectTypes => Limits {
            select_types: value,
            ..limits
        },
        Limit::Locals => Limits {
            locals: value,
            ..limits
        },
        Limit::Catches => Limits {
            catches: value,
            ..limits
        },
    }
}

/// The number that one to ten decimal digits write.
pub fn number_in(text: &[u8]) -> Option<u64>
    ensures { result ≡ number_of text.now }
{
    if text.is_empty() || text.len() > MAX_DIGITS {
        return None;
    }
    let mut number = 0;
    for i in 0..text.len() {
        let byte = text[i];
        if !byte.is_ascii_digit() {
            return None;
        }
        number = number * 10 + u64::from(byte - b'0');
    }
    Some(number)
}

/// The number that a text sets this limit to: digits that write one not above the limit's ceiling.
fn number_for(limit: Limit, text: &str) -> Option<u32>
    ensures { result ≡ number_for limit (Some text.now) }
{
    let number = number_in(text.as_bytes())?;
    let most = limit.of(&Limits::ceilings());
    if number > u64::from(most) {
        return None;
    }
    Some(number as u32)
}

/// The name that a word begins with, and what follows its first `=`, if it has one.
fn name_and_value(word: &str) -> (&str, Option<&str>)
    ensures name { result.0.now ≡ limit_name word.now }
    ensures value { option_map (λ v. v.now) result.1 ≡ limit_value word.now }
{
    match word.split_once('=') {
        Some((name, value)) => (name, Some(value)),
        None => (word, None),
    }
}

/// What a word makes of limits, or what is wrong with it.
fn limits_after(limits: Limits, word: &str) -> Result<Limits, Wrong>
    ensures step { result ≡ limits_after word.now limits }
    ensures within { IsWithinCeilings limits → IfOk result IsWithinCeilings }
{
    let (name, value) = name_and_value(word);
    let Some(limit) = limit_named(name) else {
        return Err(Wrong::Unknown);
    };
    let Some(text) = value else {
        return Err(Wrong::BadValue);
    };
    let Some(number) = number_for(limit, text) else {
        return Err(Wrong::BadValue);
    };
    Ok(with_limit(limit, number, limits))
}

/// What a list makes of limits, or its first word that is at fault.
pub fn find_limits<'a>(list: &'a str, first: Limits) -> Result<Limits, FaultyWord<'a>>
    requires within { IsWithinCeilings first }
    ensures limits { MatchResult result (λ l. limits_along list.now first ≡ Ok l)
        (λ e. limits_along list.now first ≡ Err (record { wrong = e.wrong; place = place_of e.word.start e.word.word.now })) }
    ensures within { IfOk result IsWithinCeilings }
    ensures word { IfErr result (λ e. IsWordAt list.now e.word.start e.word.word.now) }
{
    let mut limits = first;
    let mut rest = list;
    for _turn in 0..=list.len() {
        let start = list.len() - rest.len();
        let (word, more) = first_word(rest);
        match limits_after(limits, word) {
            Ok(next) => limits = next,
            Err(wrong) => {
                return Err(FaultyWord {
                    wrong,
                    word: ListedWord { word, start },
                });
            }
        }
        let Some(more) = more else {
            return Ok(limits);
        };
        rest = more;
    }
    unreachable!()
}

/// The limits by default.
pub fn default_limits() -> Limits
    ensures value { result ≡ default_limits }
    ensures within { IsWithinCeilings result }
{
    Limits::default()
}

/// The most that the limit which a word names may be.
#[tactic(auto, unfolding(crate::specs::LimitLists::word_ceiling))]
pub fn ceiling_of(word: &str) -> Option<u32>
    ensures { result ≡ word_ceiling word.now }
{
    let (name, _value) = name_and_value(word);
    let limit = limit_named(name)?;
    Some(limit.of(&Limits::ceilings()))
}

/// The limits that a list stands for: words `name=N` between commas, of the fields of `Limits` with hyphens for underscores and numbers
/// of one to ten decimal digits. Each sets one limit, a later word the same one anew, and the others are those by default.
///
/// # Errors
///
/// A word names no limit, or has no number for it that is not above the limit's ceiling: the first such word's place.
pub fn parse_limits(list: &str) -> Result<Limits, LimitFault>
    ensures limits { MatchResult result (λ l. limits_of list.now ≡ Ok l) (λ f. limits_of list.now ≡ Err (told f)) }
    ensures within { IfOk result IsWithinCeilings }
{
    match find_limits(list, default_limits()) {
        Ok(limits) => Ok(limits),
        Err(fault) => {
            let start = fault.word.start;
            let end = start + fault.word.word.len();
            match fault.wrong {
                Wrong::Unknown => Err(LimitFault::Unknown { start, end }),
                Wrong::BadValue => Err(LimitFault::BadValue { start, end }),
            }
        }
    }
}

/// Worked lists: the limits that each stands for, or where its first word at fault is.
#[tactic(auto, using(crate::proofs::RowsOfLists::limit_rows))]
pub fn parses_worked_limits()
    ensures { LimitRows }
{}
