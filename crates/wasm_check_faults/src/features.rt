//! Lists of features, as `--features` has them.
ghost use Rattle.std.specs.Prelude.{◌≡◌, bytes_eq, Ok, Err, IfErr, MatchResult, option_map};
ghost use Rattle.wasm_check_faults.specs.Lists.{place_of, IsWordAt};
ghost use Rattle.wasm_check_faults.specs.ListRows.{FeatureRows};
ghost use Rattle.wasm_check_faults.specs.FeatureLists.{all_features, after_no, hyphened, word_of, set_words, named, set_after, features_along, features_of, meant_by};
ghost use Rattle.wasm_check_lines.specs.FeatureWords.{feature_words};
ghost use Rattle.wasm_types.specs.settings.Sets.{bits_of};

use crate::lists::{ListedWord, first_word};
use bitflags::Flags;
use wasm_types::WasmFeatures;

/// All features: each bit below that of the switch for operators on vectors.
const ALL: u32 = 0x0fff_ffff;

/// A word of a list that names no features, by its place: from its first byte up to the byte after its last.
#[derive(Clone, Copy, Debug, PartialEq, Eq)]
pub struct UnknownFeature {
    /// Where the word begins.
    pub start: usize,
    /// Where it ends.
    pub end: usize,
}

/// A byte of a constant's name, as it is in words.
fn hyphened(byte: u8) -> u8
    ensures { result ≡ hyphened byte }
{
    if byte == b'_' {
        b'-'
    } else {
        byte.to_ascii_lowercase()
    }
}

/// Whether a word is this name in lower case, with hyphens for its underscores.
fn is_spelled(name: &[u8], word: &[u8]) -> bool
    ensures { result ≡ bytes_eq word.now (word_of name.now) }
{
    if name.len() != word.len() {
        return false;
    }
    for i in 0..name.len() {
        if word[i] != hyphened(name[i]) {
            return false;
        }
    }
    true
}

/// The feature of this name.
fn feature_named(word: &[u8]) -> Option<WasmFeatures>
    ensures { option_map (λ f. f.0) result ≡ named feature_words word.now }
{
    let flags = WasmFeatures::flags();
    for flag in flags {
        if is_spelled(flag.name().as_bytes(), word) {
            return Some(*flag.value());
        }
    }
    None
}

/// Whether a word is this name, but for capital letters and underscores.
fn is_meant(name: &[u8], word: &[u8]) -> bool
    ensures { result ≡ bytes_eq (word_of word.now) (word_of name.now) }
{
    if name.len() != word.len() {
        return false;
    }
    for i in 0..name.len() {
        if hyphened(word[i]) != hyphened(name[i]) {
            return false;
        }
    }
    true
}

/// The feature that is meant by a word in capital letters or with underscores.
pub fn feature_meant(word: &[u8]) -> Option<WasmFeatures>
    ensures { option_map (λ f. f.0) result ≡ meant_by word.now }
{
    let flags = WasmFeatures::flags();
    for flag in flags {
        if is_meant(flag.name().as_bytes(), word) {
            return Some(*flag.value());
        }
    }
    None
}

/// The set of this name.
fn set_named(word: &str) -> Option<WasmFeatures>
    ensures { option_map (λ f. f.0) result ≡ named set_words word.now }
{
    if word == "mvp" {
        return Some(WasmFeatures::MVP);
    }
    if word == "wasm1" {
        return Some(WasmFeatures::WASM1);
    }
    if word == "wasm2" {
        return Some(WasmFeatures::WASM2);
    }
    if word == "wasm3" {
        return Some(WasmFeatures::WASM3);
    }
    if word == "lime1" {
        return Some(WasmFeatures::LIME1);
    }
    if word == "default" {
        return Some(WasmFeatures::default());
    }
    if word == "all" {
        return Some(WasmFeatures::from_bits_retain(ALL));
    }
    if word == "-all" {
        return Some(WasmFeatures::empty());
    }
    None
}

/// The set `all`.
pub fn every_feature() -> WasmFeatures
    ensures { result.0 ≡ bits_of all_features }
{
    WasmFeatures::from_bits_retain(ALL)
}

/// What follows `no-`, or `-` alone, as `wasm-tools` writes it.
fn removed(word: &str) -> Option<&str>
    ensures { option_map (λ name. name.now) result ≡ after_no word.now }
{
    if let Some(name) = word.strip_prefix("no-") {
        return Some(name);
    }
    word.strip_prefix("-")
}

/// What a word makes of a set, if it is known.
fn changed(features: WasmFeatures, word: &str) -> Option<WasmFeatures>
    ensures { option_map (λ f. f.0) result ≡ set_after word.now features.0 }
{
    if let Some(set) = set_named(word) {
        return Some(set);
    }
    if let Some(feature) = feature_named(word.as_bytes()) {
        return Some(features.union(feature));
    }
    let Some(name) = removed(word) else {
        return None;
    };
    let Some(feature) = feature_named(name.as_bytes()) else {
        return None;
    };
    Some(features.difference(feature))
}

/// The features that a list makes of these, or its first unknown word.
pub fn find_features<'a>(list: &'a str, first: WasmFeatures) -> Result<WasmFeatures, ListedWord<'a>>
    ensures set { MatchResult result (λ f. features_along list.now first.0 ≡ Ok f.0)
        (λ w. features_along list.now first.0 ≡ Err (place_of w.start w.word.now)) }
    ensures word { IfErr result (λ w. IsWordAt list.now w.start w.word.now) }
{
    let mut features = first;
    let mut rest = list;
    for _turn in 0..=list.len() {
        let start = list.len() - rest.len();
        let (word, more) = first_word(rest);
        let Some(next) = changed(features, word) else {
            return Err(ListedWord { word, start });
        };
        features = next;
        let Some(more) = more else {
            return Ok(features);
        };
        rest = more;
    }
    unreachable!()
}

/// The features that a list stands for: words between commas, which are applied from left to right to the default set. `mvp`,
/// `wasm1`, `wasm2`, `wasm3`, `lime1`, `default` and `all` put that set in the place of what was there, the name of a feature adds it,
/// and `no-` or `-` before such a name removes it. `-all` is no feature at all.
///
/// # Errors
///
/// A word is none of these: the first one's place.
pub fn parse_features(list: &str) -> Result<WasmFeatures, UnknownFeature>
    ensures { MatchResult result (λ f. features_of list.now ≡ Ok f.0)
        (λ e. features_of list.now ≡ Err (record { start = e.start; «end» = e.«end» })) }
{
    match find_features(list, WasmFeatures::default()) {
        Ok(features) => Ok(features),
        Err(unknown) => Err(UnknownFeature {
            start: unknown.start,
            end: unknown.start + unknown.word.len(),
        }),
    }
}

/// Worked lists: the set that each stands for, or where its first unknown word is.
#[tactic(auto, using(crate::proofs::RowsOfLists::feature_rows))]
pub fn parses_worked_features()
    ensures { FeatureRows }
{}
