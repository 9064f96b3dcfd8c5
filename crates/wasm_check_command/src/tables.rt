//! The tables of features and limits, for people.
ghost use Rattle.std.specs.Prelude.{◌≡◌, ◌<◌, ◌∷◌, ◌⊎◌, ℕ, IsTrue, Some, IfSome, List, [], codes, length, map, slice_get};
ghost use Rattle.wasm_check_command.specs.Words.{AsksForTable};

use std::convert::AsStr;

/// What `--features help` prints.
const FEATURES: &str = "word                       default  state               what it allows\n\
mutable-global             yes      in 1.0              mutable globals that are imported and exported\n\
saturating-float-to-int    yes      in 2.0              conversions of floats to integers that saturate\n\
sign-extension             yes      in 2.0              operators that extend the sign of a part of an integer\n\
reference-types            yes      in 2.0              references as values, several tables (adds call-indirect-overlong)\n\
multi-value                yes      in 2.0              several results, and blocks with parameters\n\
bulk-memory                yes      in 2.0              operators on ranges of memories and tables (adds bulk-memory-opt)\n\
simd                       yes      in 2.0              vectors of 128 bits; their operators need --vectors too\n\
relaxed-simd               yes      in 3.0              vector operators that differ between machines\n\
threads                    yes      finished after 3.0  shared memories and atomic operators\n\
shared-everything-threads  no       proposed            shared types, tables, globals and functions\n\
tail-call                  yes      in 3.0              calls that replace the frame of their caller\n\
floats                     yes      in 1.0              types and operators of floats\n\
multi-memory               yes      in 3.0              several memories\n\
exceptions                 yes      in 3.0              tags, throw, throw_ref and try_table\n\
memory64                   yes      in 3.0              memories and tables that 64 bits index\n\
extended-const             yes      in 3.0              sums and products in constant expressions\n\
component-model            yes      proposed            the component model; wasm-check judges no components\n\
function-references        yes      in 3.0              typed references to functions\n\
memory-control             no       proposed            memory.discard\n\
gc                         yes      in 3.0              structures, arrays, i31 and casts\n\
custom-page-sizes          no       proposed            memories with pages of one byte\n\
legacy-exceptions          no       withdrawn           try, catch, delegate and rethrow\n\
gc-types                   yes      in 2.0              references that a collector may trace, as externref\n\
stack-switching            no       proposed            continuations\n\
wide-arithmetic            no       proposed            sums and products of 128 bits\n\
call-indirect-overlong     yes      in 2.0              a padded table index of call_indirect\n\
bulk-memory-opt            yes      in 2.0              memory.copy and memory.fill alone\n\
custom-descriptors         no       proposed            structures with descriptors, exact references\n\
\n\
Words between commas are applied from left to right to the default set; no- before a word of these removes it.\n\
The sets mvp, wasm1, wasm2, wasm3, lime1, default and all take the place of what was there.\n";

/// What `--limits help` prints.
const LIMITS: &str = "name               default   at most   of\n\
types              1000000   1048576   types of a module\n\
params             1000      1000      parameters of a function type\n\
results            1000      1000      results of a function type\n\
fields             10000     1000000   fields of a structure\n\
string-bytes       100000    1000000   bytes of a name\n\
subtyping-depth    63        254       types below one another\n\
type-size          1000000   16777215  sum of the sizes of the types of imports and exports\n\
imports            1000000   1000000   imports of a module\n\
exports            1000000   1000000   exports of a module\n\
functions          1000000   1000000   functions of a module\n\
globals            1000000   1000000   globals of a module\n\
tags               1000000   1000000   tags of a module\n\
tables             100       100000    tables of a module\n\
memories           100       100000    memories of a module\n\
element-segments   100000    1000000   element segments of a module\n\
data-segments      100000    1000000   data segments of a module\n\
segment-items      10000000  10000000  items of an element segment\n\
body-bytes         7654321   7654321   bytes of a function's entry\n\
select-types       10        1000      types of a typed select\n\
locals             50000     1000000   locals of a function, parameters included\n\
catches            10000     100000    catches of a try_table\n\
\n\
Words name=N between commas set limits, a later word the same one anew; the others are those by default.\n";

/// The word at this place.
fn word_at<'a, S: AsStr>(words: &'a [S], place: usize) -> &'a str
    requires { place < length words.now }
    ensures { slice_get (map S.text words.now) place ≡ Some result.now }
{
    words[place].as_str()
}

/// Whether the words are the program's own and these two, or the program's own and this one.
fn are_these<S: AsStr>(words: &[S], option: &str, whole: &str) -> bool
    ensures { IsTrue result → (own : List ℕ) × ((map S.text words.now ≡ own ∷ option.now ∷ codes "help" ∷ [])
        ⊎ (map S.text words.now ≡ own ∷ whole.now ∷ [])) }
{
    if words.len() == 2 {
        return word_at(words, 1) == whole;
    }
    if words.len() != 3 {
        return false;
    }
    if word_at(words, 1) != option {
        return false;
    }
    word_at(words, 2) == "help"
}

/// The table that the words ask for, if they do.
pub(crate) fn table_asked<S: AsStr>(words: &[S]) -> Option<&'static str>
    ensures { IfSome result (λ _. AsksForTable (codes "features") (map S.text words.now)
        ⊎ AsksForTable (codes "limits") (map S.text words.now)) }
{
    if are_these(words, "--features", "--features=help") {
        return Some(FEATURES);
    }
    if are_these(words, "--limits", "--limits=help") {
        return Some(LIMITS);
    }
    None
}
