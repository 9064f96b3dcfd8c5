//! Lists of features that begin with `mvp`: each word after it adds a feature.
//!
//! So a list may be made shorter word by word, until no word of it can be left out.
ghost use Rattle.std.specs.Fmt.{WritesOnOk};
ghost use Rattle.std.specs.Prelude.{◌≡◌, ◌++◌, Ok, IfOk, flat_map, length, string_bytes};
ghost use Rattle.wasm_types.specs.settings.Sets.{bits_of};
ghost use Rattle.wasm_check_faults.specs.FeatureLists.{all_features, features_of};
ghost use Rattle.wasm_check_faults.specs.WordLists.{AreFeatures, MinimalRows, NeedsEndOnce, listed, needs_line, needs_object, needs_text, next_word, words_in};

use bitflags::Flags;
use std::alloc::{AllocError, Global};
use std::fmt;
use wasm_check_lines::{Form, Quoted, Shown};
use wasm_types::WasmFeatures;

/// A feature, and its word.
#[derive(Clone, Copy, Debug)]
pub struct FeatureWord {
    /// Its word in `--features`.
    pub word: &'static str,
    /// The bits that its name stands for.
    pub features: WasmFeatures,
}

/// The features with their words, in the order of their bits.
const FEATURES: [FeatureWord; 28] = [
    FeatureWord {
        word: "mutable-global",
        features: WasmFeatures::MUTABLE_GLOBAL,
    },
    FeatureWord {
        word: "saturating-float-to-int",
        features: WasmFeatures::SATURATING_FLOAT_TO_INT,
    },
    FeatureWord {
        word: "sign-extension",
        features: WasmFeatures::SIGN_EXTENSION,
    },
    FeatureWord {
        word: "reference-types",
        features: WasmFeatures::REFERENCE_TYPES,
    },
    FeatureWord {
        word: "multi-value",
        features: WasmFeatures::MULTI_VALUE,
    },
    FeatureWord {
        word: "bulk-memory",
        features: WasmFeatures::BULK_MEMORY,
    },
    FeatureWord {
        word: "simd",
        features: WasmFeatures::SIMD,
    },
    FeatureWord {
        word: "relaxed-simd",
        features: WasmFeatures::RELAXED_SIMD,
    },
    FeatureWord {
        word: "threads",
        features: WasmFeatures::THREADS,
    },
    FeatureWord {
        word: "shared-everything-threads",
        features: WasmFeatures::SHARED_EVERYTHING_THREADS,
    },
    FeatureWord {
        word: "tail-call",
        features: WasmFeatures::TAIL_CALL,
    },
    FeatureWord {
        word: "floats",
        features: WasmFeatures::FLOATS,
    },
    FeatureWord {
        word: "multi-memory",
        features: WasmFeatures::MULTI_MEMORY,
    },
    FeatureWord {
        word: "exceptions",
        features: WasmFeatures::EXCEPTIONS,
    },
    FeatureWord {
        word: "memory64",
        features: WasmFeatures::MEMORY64,
    },
    FeatureWord {
        word: "extended-const",
        features: WasmFeatures::EXTENDED_CONST,
    },
    FeatureWord {
        word: "component-model",
        features: WasmFeatures::COMPONENT_MODEL,
    },
    FeatureWord {
        word: "function-references",
        features: WasmFeatures::FUNCTION_REFERENCES,
    },
    FeatureWord {
        word: "memory-control",
        features: WasmFeatures::MEMORY_CONTROL,
    },
    FeatureWord {
        word: "gc",
        features: WasmFeatures::GC,
    },
    FeatureWord {
        word: "custom-page-sizes",
        features: WasmFeatures::CUSTOM_PAGE_SIZES,
    },
    FeatureWord {
        word: "legacy-exceptions",
        features: WasmFeatures::LEGACY_EXCEPTIONS,
    },
    FeatureWord {
        word: "gc-types",
        features: WasmFeatures::GC_TYPES,
    },
    FeatureWord {
        word: "stack-switching",
        features: WasmFeatures::STACK_SWITCHING,
    },
    FeatureWord {
        word: "wide-arithmetic",
        features: WasmFeatures::WIDE_ARITHMETIC,
    },
    FeatureWord {
        word: "call-indirect-overlong",
        features: WasmFeatures::CALL_INDIRECT_OVERLONG,
    },
    FeatureWord {
        word: "bulk-memory-opt",
        features: WasmFeatures::BULK_MEMORY_OPT,
    },
    FeatureWord {
        word: "custom-descriptors",
        features: WasmFeatures::CUSTOM_DESCRIPTORS,
    },
];

/// All features, in the order of their bits: the list with their words stands for the set `all`.
///
/// # Errors
///
/// Memory ran out.
pub fn all_features(alloc: Global) -> Result<Vec<FeatureWord>, AllocError>
    ensures known { IfOk result (λ ws. AreFeatures ws.items) }
    ensures count { IfOk result (λ ws. length ws.items ≡ 28) }
    ensures all { IfOk result (λ ws. features_of (listed (words_in ws.items)) ≡ Ok (bits_of all_features)) }
{
    match Vec::from_array(alloc, FEATURES) {
        Ok(words) => Ok(words),
        Err(_) => Err(AllocError),
    }
}

/// The features that the list with these words stands for.
pub fn features_with(words: &[FeatureWord]) -> WasmFeatures
    requires known { AreFeatures words.now }
    ensures { features_of (listed (words_in words.now)) ≡ Ok result.0 }
{
    let mut features = WasmFeatures::MVP;
    for word in words {
        features = features.union(word.features);
    }
    features
}

// Writes these words, each after a comma.
fn write_words<W: fmt::Write>(f: &mut fmt::Formatter<W>, words: &[FeatureWord]) -> fmt::Result
    ensures { WritesOnOk W.write_str_gives f.old result (flat_map (λ w. next_word w.word.now) words.now) f.new }
{
    for word in words {
        let text = word.word;
        write!(f, ",{text}")?;
    }
    Ok(())
}

// Writes what comes after `mvp` in the list with these words.
fn write_back<W: fmt::Write>(f: &mut fmt::Formatter<W>, words: &[FeatureWord]) -> fmt::Result
    ensures { WritesOnOk W.write_str_gives f.old result (flat_map next_word (words_in words.now)) f.new }
{
    write_words(f, words)
}

// Writes the list with these words.
#[tactic(auto, unfolding(crate::specs::WordLists::listed))]
fn write_list<W: fmt::Write>(f: &mut fmt::Formatter<W>, words: &[FeatureWord]) -> fmt::Result
    ensures { WritesOnOk W.write_str_gives f.old result (listed (words_in words.now)) f.new }
{
    f.write_str("mvp")?;
    write_back(f, words)
}

// The list with these words, and the text that follows it.
#[derive(Debug, Drop)]
struct Listed<'a>(&'a [FeatureWord], &'static str);

impl fmt::Display for Listed<'_> {
    ghost use Rattle.std.specs.Prelude.{Some, ◌++◌};
    ghost use Rattle.wasm_check_faults.specs.WordLists.{listed, words_in};

    ghost output = { λ l. Some (listed (words_in l.0.now) ++ l.1.now) };

    fn fmt<W: fmt::Write>(&self, f: &mut fmt::Formatter<W>) -> fmt::Result {
        write_list(f, self.0)?;
        f.write_str(self.1)
    }
}

// The line of a file with this list.
fn needs_line(alloc: Global, name: &str, list: Listed<'_>) -> Result<String, AllocError>
    ensures { IfOk result (λ line. string_bytes line ≡ needs_line name.now (listed (words_in list.entry.0.now) ++ list.entry.1.now)) }
{
    let name = Shown(name);
    format!(in alloc; "{name}: needs {list}\n")
}

// The object of a file with this list, which ends the text that it begins.
fn needs_object(alloc: Global, name: &str, list: Listed<'_>) -> Result<String, AllocError>
    ensures { IfOk result (λ line. string_bytes line ≡ needs_object name.now (listed (words_in list.entry.0.now) ++ list.entry.1.now)) }
{
    let name = Quoted(name);
    format!(in alloc; "{{\"file\":\"{name}\",\"valid\":true,\"needs\":\"{list}}}\n")
}

/// The text of a file that is valid by the list with these words, and with the switch for operators on vectors if that is needed: a line that a
/// line feed ends, or nothing if the form is `Quiet`.
///
/// # Errors
///
/// Memory ran out.
pub fn needs_text(
    alloc: Global,
    form: Form,
    name: &str,
    words: &[FeatureWord],
    vectors: bool,
) -> Result<String, AllocError>
    ensures { IfOk result (λ line. string_bytes line ≡ needs_text form name.now (words_in words.now) vectors) }
{
    match form {
        Form::Lines => {
            if vectors {
                return needs_line(alloc, name, Listed(words, " --vectors"));
            }
            needs_line(alloc, name, Listed(words, ""))
        }
        Form::Json => {
            if vectors {
                return needs_object(alloc, name, Listed(words, "\",\"vectors\":true"));
            }
            needs_object(alloc, name, Listed(words, "\""))
        }
        Form::Quiet => Ok(String::new(alloc)),
    }
}

/// Worked lists: of which no word can be left out, and of which one can.
#[tactic(auto, using(crate::proofs::WordListLemmas::minimal_rows))]
pub fn minimal_lists_are_worked()
    ensures { MinimalRows }
{}

/// What is told of a file's features is one line.
#[tactic(auto, using(crate::proofs::WordListLemmas::needs_end))]
pub fn needs_end_once()
    ensures { NeedsEndOnce }
{}
