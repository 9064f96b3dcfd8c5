//! A list of features by which bytes are valid, and of which none can be left out.
//!
//! Words are left out one after another, as long as the bytes stay valid. Nothing is asked of the judge for this: it may refuse by more features
//! what it accepts by fewer. So each word that stays is tried once more, after the last one that was left out.
ghost use Rattle.std.specs.Prelude.{◌≡◌, ◌<◌, ◌≤◌, ◌+◌, ℕ, IsTrue, false, None, IfOk, IfSome, length};
ghost use Rattle.wasm_types.specs.settings.Limits.{IsWithinCeilings};
ghost use Rattle.wasm_check_faults.specs.WordLists.{AreFeatures, HasBits, HasSwitch, IsMinimal, Lacks, Suffices, without_word, words_in};
ghost use Rattle.wasm_check_command.specs.Modes.{all_bits, by_features};

use crate::judging::Judge;
use bitflags::Flags;
use std::alloc::{AllocError, Global};
use wasm_check_faults::{FeatureWord, all_features, features_with};
use wasm_types::{ErrorKind, Limits, WasmFeatures};

/// How many features there are.
const FEATURES: usize = 28;

/// The features of the list with these words, with operators on vectors.
fn bits_with(words: &[FeatureWord]) -> WasmFeatures
    requires known { AreFeatures words.now }
    ensures { HasBits (words_in words.now) result.0 }
{
    features_with(words).union(WasmFeatures::VECTOR_OPERATORS)
}

/// Whether bytes are valid by these features.
fn accepts<J: Judge>(
    judge: &J,
    alloc: Global,
    features: WasmFeatures,
    limits: Limits,
    index: usize,
    bytes: &[u8],
) -> Result<bool, AllocError>
    requires within { IsWithinCeilings limits }
    ensures yes { IfOk result (λ valid. IsTrue valid → by_features J.accepts limits bytes.now features.0) }
    ensures no { IfOk result (λ valid. valid ≡ false → ¬ by_features J.accepts limits bytes.now features.0) }
{
    match judge.judge(alloc, features, limits, index, bytes) {
        Ok(()) => Ok(true),
        Err(error) => {
            if error.kind() == ErrorKind::OutOfMemory {
                return Err(AllocError);
            }
            Ok(false)
        }
    }
}

/// Whether bytes are valid by the list with these words, and with operators on vectors.
fn suffices<J: Judge>(
    judge: &J,
    alloc: Global,
    limits: Limits,
    index: usize,
    bytes: &[u8],
    words: &[FeatureWord],
) -> Result<bool, AllocError>
    requires within { IsWithinCeilings limits }
    requires known { AreFeatures words.now }
    ensures yes { IfOk result (λ valid. IsTrue valid → Suffices (by_features J.accepts limits bytes.now) (words_in words.now)) }
    ensures no { IfOk result (λ valid. valid ≡ false → Lacks (by_features J.accepts limits bytes.now) (words_in words.now)) }
{
    let features = bits_with(words);
    accepts(judge, alloc, features, limits, index, bytes)
}

/// These words, without the one at this place.
fn without_word(
    alloc: Global,
    words: &[FeatureWord],
    place: usize,
) -> Result<Vec<FeatureWord>, AllocError>
    requires known { AreFeatures words.now }
    requires inside { place < length words.now }
    ensures known { IfOk result (λ fewer. AreFeatures fewer.items) }
    ensures words { IfOk result (λ fewer. words_in fewer.items ≡ without_word place (words_in words.now)) }
    ensures fewer { IfOk result (λ fewer. length fewer.items + 1 ≡ length words.now) }
{
    let mut fewer = Vec::from_slice(alloc, words)?;
    let _left_out = fewer.remove(place);
    Ok(fewer)
}

/// The words that are left after one of them was left out, and its place.
#[derive(Debug, Drop)]
struct Fewer {
    words: Vec<FeatureWord>,
    place: usize,
}

/// Leaves out the first word, from this place on, without which bytes are still valid, if there is one.
fn leave_out<J: Judge>(
    judge: &J,
    alloc: Global,
    limits: Limits,
    index: usize,
    bytes: &[u8],
    words: &[FeatureWord],
    from: usize,
) -> Result<Option<Fewer>, AllocError>
    requires within { IsWithinCeilings limits }
    requires known { AreFeatures words.now }
    ensures known { IfOk result (λ r. IfSome r (λ f. AreFeatures f.words.items)) }
    ensures enough { IfOk result (λ r. IfSome r (λ f. Suffices (by_features J.accepts limits bytes.now) (words_in f.words.items))) }
    ensures fewer { IfOk result (λ r. IfSome r (λ f. length f.words.items + 1 ≡ length words.now)) }
    ensures none { IfOk result (λ r. r ≡ None → (place : ℕ) → from ≤ place → place < length words.now
        → Lacks (by_features J.accepts limits bytes.now) (without_word place (words_in words.now))) }
{
    for place in from..words.len() {
        let fewer = without_word(alloc, words, place)?;
        let valid = suffices(judge, alloc, limits, index, bytes, fewer.as_slice())?;
        if valid {
            return Ok(Some(Fewer {
                words: fewer,
                place,
            }));
        }
    }
    Ok(None)
}

/// Goes through these words once, and leaves out each without which bytes are still valid.
fn go_through<J: Judge>(
    judge: &J,
    alloc: Global,
    limits: Limits,
    index: usize,
    bytes: &[u8],
    all: Vec<FeatureWord>,
) -> Result<Vec<FeatureWord>, AllocError>
    requires within { IsWithinCeilings limits }
    requires known { AreFeatures all.items }
    requires enough { Suffices (by_features J.accepts limits bytes.now) (words_in all.items) }
    requires count { length all.items ≤ 28 }
    ensures known { IfOk result (λ left. AreFeatures left.items) }
    ensures enough { IfOk result (λ left. Suffices (by_features J.accepts limits bytes.now) (words_in left.items)) }
    ensures count { IfOk result (λ left. length left.items ≤ 28) }
{
    let mut words = all;
    let mut place = 0;
    for _turn in 0..FEATURES {
        match leave_out(judge, alloc, limits, index, bytes, words.as_slice(), place)? {
            Some(fewer) => {
                words = fewer.words;
                place = fewer.place;
            }
            None => return Ok(words),
        }
    }
    Ok(words)
}

/// The words of a list of features by which these bytes are valid, with operators on vectors, and of which none can be left out. They are valid by
/// all features. Words are tried in the order of the features' bits: of two features of which either is enough, the later one stays.
///
/// # Errors
///
/// Memory ran out.
pub(crate) fn minimal_list<J: Judge>(
    judge: &J,
    alloc: Global,
    limits: Limits,
    index: usize,
    bytes: &[u8],
) -> Result<Vec<FeatureWord>, AllocError>
    requires within { IsWithinCeilings limits }
    requires valid { by_features J.accepts limits bytes.now all_bits }
    ensures known { IfOk result (λ words. AreFeatures words.items) }
    ensures minimal { IfOk result (λ words. IsMinimal (by_features J.accepts limits bytes.now) (words_in words.items)) }
{
    let all = all_features(alloc)?;
    let mut words = go_through(judge, alloc, limits, index, bytes, all)?;
    for _turn in 0..=FEATURES {
        match leave_out(judge, alloc, limits, index, bytes, words.as_slice(), 0)? {
            Some(fewer) => words = fewer.words,
            None => return Ok(words),
        }
    }
    unreachable!()
}

/// Whether bytes that are valid by the list with these words need the switch for operators on vectors too.
///
/// # Errors
///
/// Memory ran out.
pub(crate) fn needs_switch<J: Judge>(
    judge: &J,
    alloc: Global,
    limits: Limits,
    index: usize,
    bytes: &[u8],
    words: &[FeatureWord],
) -> Result<bool, AllocError>
    requires within { IsWithinCeilings limits }
    requires known { AreFeatures words.now }
    ensures { IfOk result (HasSwitch (by_features J.accepts limits bytes.now) (words_in words.now)) }
{
    let features = features_with(words);
    if accepts(judge, alloc, features, limits, index, bytes)? {
        return Ok(false);
    }
    Ok(true)
}
