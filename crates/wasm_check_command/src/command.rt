//! The command line: its words, its files, its faults and its statuses.
ghost use Rattle.std.specs.Prelude.{◌≡◌, ◌≢◌, ◌<◌, ◌≤◌, ◌⊎◌, ℕ, IsTrue, List, [], true, false, OnOk, Some, map, option_map, unwrap_or, Ok, IfOk, IfErr, string_bytes};
ghost use Rattle.std.specs.Io.KnownBytes.{Keeps};
ghost use Rattle.wasm_check_command.specs.declared.judging.Status.TheVariants.{AllValid, SomeInvalid};
ghost use Rattle.clap.specs.Words.{all_of, first_of, found_of, kind_of, rows_of};
ghost use Rattle.clap.specs.declared.error.kind.ErrorKind.TheVariants.{OutOfMemory};
ghost use Rattle.wasm_check_command.specs.Words.{IsHelp, matches_on};
ghost use Rattle.wasm_check_command.specs.Words.{files_of, list_file, is_set, has_flag};
ghost use Rattle.wasm_check_faults.specs.FaultTexts.{is_silent};
ghost use Rattle.wasm_check_command.specs.Commands.{AreRead};
ghost use Rattle.wasm_types.specs.settings.Limits.{IsWithinCeilings};
ghost use Rattle.wasm_check_command.specs.Modes.{CanJudge, HasPieces, manner_of, ruling_of};
ghost use Rattle.wasm_check_command.specs.Settings.{GoTogether, IsGiven, asked_by, features_by, form_by, limits_by, manner_by, mode_by, pieces_of, settings_of, with_vectors};
ghost use Rattle.wasm_check_command.specs.Files.{texts, lists_in, code_of, code_of_ended, Reports, Grows, ShowsHelp, HasNoStatus, IsUnshown, EndsRun};
ghost use Rattle.wasm_check_command.specs.Files.{asked_of, IsChosen, NamesFiles, RefusesTogether, RefusesPieces, RefusesFeatures, RefusesLimits, StopsEarly, ReportsEnd, StopsBy};
ghost use Rattle.wasm_check_command.specs.Files.{EndsBy, StopsFiles, StopsGoingBy};

use crate::arguments::parse;
use crate::built::VERSION_JSON;
use crate::files::{Ended, judge_files, name_at};
use crate::going::judge_going;
use crate::judging::{Chosen, Judge, Mode, Status, write_text};
use crate::listing::{borrowed, read_list};
use crate::tables::table_asked;
use crate::telling::report;
use bitflags::Flags;
use clap::ArgMatches;
use clap::error::ErrorKind;
use std::alloc::{AllocError, Global};
use std::convert::AsStr;
use std::io::{Input, Write};
use std::rt::Files;
use wasm_check_faults::{
    Below, CheckError, Fault, Reason, default_limits, find_features, find_limits, number_in,
};
use wasm_check_lines::{Form, Shown};
use wasm_types::{Limits, WasmFeatures};

/// The most bytes that a piece may have.
const MAX_PIECE: u64 = 0x10_0000;

/// The values that the options of the command line have, where they are there.
#[derive(Debug, Drop)]
struct Options<'m, 'a> {
    /// The lists of `--features`, in order.
    features: Option<&'m [&'a str]>,
    /// The lists of `--limits`, in order.
    limits: Option<&'m [&'a str]>,
    /// The number of `--pieces`, if it is there.
    pieces: Option<&'a str>,
    /// Whether `--vectors` is there.
    vectors: bool,
    /// How verdicts are written, by `--quiet` and `--json`.
    form: Form,
    /// Whether `--explain` is there.
    explains: bool,
    /// Whether `--needs` is there.
    needs: bool,
    /// Whether `--keep-going` is there.
    goes_on: bool,
    /// Whether standard error is a person's terminal.
    at_terminal: bool,
}

/// The features by these lists, which are applied in order to those by default.
fn join_features<'a>(lists: &[&'a str]) -> Result<WasmFeatures, Fault<'a>>
    ensures ok { IfOk result (λ f. features_by (texts lists.now) ≡ Ok f.0) }
    ensures err { IfErr result (RefusesFeatures (texts lists.now)) }
{
    let mut features = WasmFeatures::default();
    for place in 0..lists.len() {
        match find_features(name_at(lists, place), features) {
            Ok(next) => features = next,
            Err(unknown) => return Err(Fault::UnknownFeature(unknown.word)),
        }
    }
    Ok(features)
}

/// The limits by these lists, which are applied in order to those by default.
fn join_limits<'a>(lists: &[&'a str]) -> Result<Limits, Fault<'a>>
    ensures ok { IfOk result (λ l. limits_by (texts lists.now) ≡ Ok l) }
    ensures within { IfOk result IsWithinCeilings }
    ensures err { IfErr result (RefusesLimits (texts lists.now)) }
{
    let mut limits = default_limits();
    for place in 0..lists.len() {
        match find_limits(name_at(lists, place), limits) {
            Ok(next) => limits = next,
            Err(fault) => return Err(Fault::WrongLimit(fault.wrong, fault.word.word)),
        }
    }
    Ok(limits)
}

/// The features by the lists of `--features`, or those by default.
#[tactic(auto, unfolding(wasm_check_faults::specs::Lists::through_lists))]
fn read_features<'a>(lists: Option<&[&'a str]>) -> Result<WasmFeatures, Fault<'a>>
    ensures ok { IfOk result (λ f. features_by (lists_in lists.entry) ≡ Ok f.0) }
    ensures err { IfErr result (RefusesFeatures (lists_in lists.entry)) }
{
    match lists {
        Some(lists) => join_features(lists),
        None => Ok(WasmFeatures::default()),
    }
}

/// The limits by the lists of `--limits`, or those by default.
#[tactic(auto, unfolding(wasm_check_faults::specs::Lists::through_lists))]
fn read_limits<'a>(lists: Option<&[&'a str]>) -> Result<Limits, Fault<'a>>
    ensures ok { IfOk result (λ l. limits_by (lists_in lists.entry) ≡ Ok l) }
    ensures within { IfOk result IsWithinCeilings }
    ensures err { IfErr result (RefusesLimits (lists_in lists.entry)) }
{
    match lists {
        Some(lists) => join_limits(lists),
        None => Ok(default_limits()),
    }
}

/// These features, with the switch for operators on vectors if it is asked for.
fn with_vectors(vectors: bool, features: WasmFeatures) -> WasmFeatures
    ensures { result.0 ≡ with_vectors vectors features.0 }
{
    if vectors {
        return features.union(WasmFeatures::VECTOR_OPERATORS);
    }
    features
}

/// Whether a flag is there, by its value.
fn is_set(value: Option<&str>) -> bool
    ensures { result ≡ is_set (option_map (λ v. v.now) value.entry) }
{
    match value {
        Some(text) => text == "true",
        None => false,
    }
}

/// How verdicts are written.
fn form_by(quiet: bool, json: bool) -> Form
    ensures { result ≡ form_by quiet json }
{
    if quiet {
        return Form::Quiet;
    }
    if json {
        return Form::Json;
    }
    Form::Lines
}

/// The mode that a number of bytes stands for.
fn mode_of(number: Option<u64>) -> Option<Mode>
    ensures { result ≡ pieces_of number }
{
    match number {
        Some(piece) if 1 <= piece && piece <= MAX_PIECE => Some(Mode::Pieces(piece as u32)),
        _ => None,
    }
}

/// The mode by the number of `--pieces`.
fn read_pieces<'a>(number: Option<&'a str>) -> Result<Mode, Fault<'a>>
    ensures ok { IfOk result (λ m. mode_by (option_map (λ n. n.now) number.entry) ≡ Some m) }
    ensures some { IfOk result HasPieces }
    ensures err { IfErr result (RefusesPieces (option_map (λ n. n.now) number.entry)) }
{
    let Some(number) = number else {
        return Ok(Mode::Whole);
    };
    match mode_of(number_in(number.as_bytes())) {
        Some(mode) => Ok(mode),
        None => Err(Fault::WrongPieces(number)),
    }
}

/// Whether there are lists.
fn has_lists(lists: Option<&[&str]>) -> bool
    ensures some { IsTrue result → lists_in lists.entry ≢ [] }
    ensures none { result ≡ false → lists_in lists.entry ≡ [] }
{
    match lists {
        Some(lists) => !lists.is_empty(),
        None => false,
    }
}

/// Refuses options that do not go together.
fn check_together<'a>(options: &Options<'_, 'a>) -> Result<(), Fault<'a>>
    ensures ok { OnOk result (GoTogether (asked_of options.now)) }
    ensures err { IfErr result (RefusesTogether (asked_of options.now)) }
{
    if !options.needs {
        return Ok(());
    }
    if has_lists(options.features) {
        return Err(Fault::Clash("--needs", "--features <LIST>"));
    }
    if options.pieces.is_some() {
        return Err(Fault::Clash("--needs", "--pieces <N>"));
    }
    Ok(())
}

/// What the options ask for: their values are read in this order.
fn read_options<'a>(options: &Options<'_, 'a>) -> Result<Chosen, Fault<'a>>
    ensures ok { IfOk result (λ c. IsGiven (asked_of options.now) (settings_of c) c.mode) }
    ensures manner { IfOk result (λ c. manner_of c ≡ manner_by (asked_of options.now)) }
    ensures within { IfOk result CanJudge }
    ensures err { IfErr result (StopsEarly (asked_of options.now)) }
{
    check_together(options)?;
    let mode = read_pieces(options.pieces)?;
    let features = read_features(options.features)?;
    let limits = read_limits(options.limits)?;
    Ok(Chosen {
        features: with_vectors(options.vectors, features),
        limits,
        mode,
        form: options.form,
        explains: options.explains,
        needs: options.needs,
        below: below_of(options.form, options.at_terminal),
    })
}

/// What is told below the line of a fault if verdicts have this form.
fn below_of(form: Form, at_terminal: bool) -> Below {
    match form {
        Form::Json => Below::Object,
        _ if at_terminal => Below::Hint,
        _ => Below::Nothing,
    }
}

/// Judges files as the options ask, and stops at the first that comes to no verdict or goes on.
fn judge_chosen<'a, J: Judge, F: Files + Input, W: Write, E: Write>(
    judge: &J,
    alloc: Global,
    rt: &F,
    goes_on: bool,
    chosen: Chosen,
    names: &[&'a str],
    out: &mut W,
    err: &mut E,
) -> Result<Ended, Fault<'a>>
    requires within { CanJudge chosen }
    ensures ok { IfOk result (λ e. EndsBy (ruling_of J.accepts chosen) (texts names.now) (W.contents out.old) (W.contents out.new) e
        × ((e.lost ≡ false) ⊎ (goes_on ≡ true))) }
    ensures err { IfErr result (λ f. StopsFiles (ruling_of J.accepts chosen) (texts names.now) (W.contents out.old) (W.contents out.new) f
        ⊎ ((goes_on ≡ true) × StopsGoingBy (ruling_of J.accepts chosen) (texts names.now) (W.contents out.old) (W.contents out.new) f)) }
    ensures quiet { IfOk result (λ e. e.lost ≡ false → Keeps (E.contents err.old) (E.contents err.new)) }
{
    if goes_on {
        return judge_going(judge, alloc, rt, names, chosen, out, err);
    }
    match judge_files(judge, alloc, rt, names, chosen, out) {
        Ok(status) => Ok(Ended {
            status,
            lost: false,
        }),
        Err(fault) => Err(fault),
    }
}

/// Reads the values of the options, and then opens the files and judges them.
fn judge_by_options<'a, J: Judge, F: Files + Input, W: Write, E: Write>(
    judge: &J,
    alloc: Global,
    rt: &F,
    options: &Options<'_, 'a>,
    names: &[&'a str],
    out: &mut W,
    err: &mut E,
) -> Result<Ended, Fault<'a>>
    ensures ok { IfOk result (ReportsEnd J.accepts (asked_of options.now) (texts names.now)
        (W.contents out.old) (W.contents out.new)) }
    ensures err { IfErr result (StopsBy J.accepts (asked_of options.now) (texts names.now)
        (W.contents out.old) (W.contents out.new)) }
    ensures quiet { IfOk result (λ e. e.lost ≡ false → Keeps (E.contents err.old) (E.contents err.new)) }
{
    let chosen = match read_options(options) {
        Ok(chosen) => chosen,
        Err(fault) => return Err(fault),
    };
    judge_chosen(judge, alloc, rt, options.goes_on, chosen, names, out, err)
}

/// These words as they are shown.
fn shown_words<S: AsStr>(alloc: Global, words: &[S]) -> Result<Vec<String>, AllocError> {
    let mut shown = Vec::new(alloc);
    for word in words {
        let word = Shown(word.as_str());
        shown.push(format!(in alloc; "{word}")?)?;
    }
    Ok(shown)
}

/// Whether a word is `--json`.
fn asks_for_json<S: AsStr>(words: &[S]) -> bool {
    let mut is_asked = false;
    for word in words {
        is_asked = is_asked || word.as_str() == "--json";
    }
    is_asked
}

/// The help or the version, as the words ask for, in `clap`'s text over the words as they are shown: the help has the program's own
/// name; the version is an object if they ask for JSON. The words as they are shown ask for the same; if `clap` answers otherwise, memory ran out.
fn help_text<S: AsStr>(alloc: Global, words: &[S]) -> Result<String, AllocError> {
    let shown = shown_words(alloc, words)?;
    let Err(answer) = parse(alloc, shown.as_slice()) else {
        return Err(AllocError);
    };
    if answer.use_stderr() {
        return Err(AllocError);
    }
    if matches!(answer.kind(), ErrorKind::DisplayVersion) && asks_for_json(words) {
        let text = VERSION_JSON;
        return format!(in alloc; "{text}");
    }
    format!(in alloc; "{answer}")
}

/// Tells what is wrong with the words, in `clap`'s text. That has words as they are, so `clap` is asked for it over the
/// words as they are shown: these have no control character, and where they differ no word is one that `clap` knows.
fn tell_usage<S: AsStr, E: Write>(alloc: Global, words: &[S], err: &mut E) -> u8
    ensures { result ≡ 2 }
{
    let Ok(shown) = shown_words(alloc, words) else {
        return report(alloc, &Fault::OutOfMemory, Below::Nothing, err);
    };
    if let Err(answer) = parse(alloc, shown.as_slice()) {
        let Ok(text) = format!(in alloc; "{answer}") else {
            return report(alloc, &Fault::OutOfMemory, Below::Nothing, err);
        };
        let _ = write_text(text.as_bytes(), err);
        let _ = err.flush();
    }
    2
}

/// Shows what `clap` answers in place of matches: its help or its version, if it is asked for, or what is wrong with the
/// words.
fn show<S: AsStr, W: Write, E: Write>(
    alloc: Global,
    words: &[S],
    answer: &clap::Error,
    out: &mut W,
    err: &mut E,
) -> u8
    ensures known { (result ≡ 0) ⊎ (result ≡ 2) }
    ensures help { result ≡ 0 → IsHelp (kind_of answer.now) × Grows (W.contents out.old) (W.contents out.new) }
    ensures unshown { result ≡ 2 → IsUnshown (kind_of answer.now) (W.contents out.old) (W.contents out.new) }
    ensures memory { kind_of answer.now ≡ OutOfMemory → Keeps (W.contents out.old) (W.contents out.new) }
    ensures quiet { result < 2 → Keeps (E.contents err.old) (E.contents err.new) }
{
    if answer.kind() == ErrorKind::OutOfMemory {
        return report(alloc, &Fault::OutOfMemory, Below::Nothing, err);
    }
    if answer.use_stderr() {
        return tell_usage(alloc, words, err);
    }
    let Ok(text) = help_text(alloc, words) else {
        return report(alloc, &Fault::OutOfMemory, Below::Nothing, err);
    };
    show_text(alloc, text.as_str(), out, err)
}

/// Writes a text that was asked for, and gives the status.
fn show_text<W: Write, E: Write>(alloc: Global, text: &str, out: &mut W, err: &mut E) -> u8
    ensures known { (result ≡ 0) ⊎ (result ≡ 2) }
    ensures grows { Grows (W.contents out.old) (W.contents out.new) }
    ensures quiet { result < 2 → Keeps (E.contents err.old) (E.contents err.new) }
{
    match show_help(text, out) {
        Ok(()) => 0,
        Err(reason) => {
            let fault = Fault::Stopped {
                error: CheckError::Write,
                name: "",
                reason,
            };
            report(alloc, &fault, Below::Nothing, err)
        }
    }
}

/// Writes the help, or says why it can't be written.
fn show_help<W: Write>(text: &str, out: &mut W) -> Result<(), Reason>
    ensures { Grows (W.contents out.old) (W.contents out.new) }
{
    match write_text(text.as_bytes(), out) {
        Ok(()) => (),
        Err(failure) => return Err(failure.reason),
    }
    match out.flush() {
        Ok(()) => Ok(()),
        Err(error) => Err(Reason::of(&error)),
    }
}

/// The status of files that ended so.
fn code_of_ended(ended: Ended) -> u8
    ensures { result ≡ code_of_ended ended.lost ended.status }
{
    if ended.lost {
        return 2;
    }
    match ended.status {
        Status::AllValid => 0,
        Status::SomeInvalid => 1,
    }
}

/// The exit status of what was judged, and a line for a fault, if it is told.
fn conclude<E: Write>(
    alloc: Global,
    judged: &Result<Ended, Fault<'_>>,
    below: Below,
    err: &mut E,
) -> u8
    ensures code { result ≡ code_of judged.now }
    ensures quiet { result < 2 → Keeps (E.contents err.old) (E.contents err.new) }
    ensures silent { IfErr judged.now (λ f. is_silent f ≡ true → Keeps (E.contents err.old) (E.contents err.new)) }
{
    match judged {
        Ok(ended) => code_of_ended(*ended),
        Err(fault) => report(alloc, fault, below, err),
    }
}

/// The lists of an option, in order, if there are any.
fn lists_of<'m, 'a>(matches: &'m ArgMatches<'a>, name: &str) -> Option<&'m [&'a str]>
    ensures { (words : List (List ℕ)) → rows_of (found_of matches.now) ≡ matches_on words
        → lists_in result ≡ unwrap_or (all_of name.now (matches_on words)) [] }
{
    matches.get_strs(name)
}

/// Whether a flag is there.
fn has_flag(matches: &ArgMatches<'_>, name: &str) -> bool
    ensures { (words : List (List ℕ)) → rows_of (found_of matches.now) ≡ matches_on words → result ≡ has_flag name.now words }
{
    is_set(matches.get_str(name))
}

/// What the options ask for, as `clap` found them.
fn options_of<'m, 'a>(matches: &'m ArgMatches<'a>, at_terminal: bool) -> Options<'m, 'a>
    ensures { (words : List (List ℕ)) → rows_of (found_of matches.now) ≡ matches_on words → asked_of result ≡ asked_by words }
{
    let features = lists_of(matches, "features");
    let limits = lists_of(matches, "limits");
    let pieces = matches.get_str("pieces");
    let vectors = has_flag(matches, "vectors");
    let quiet = has_flag(matches, "quiet");
    let json = has_flag(matches, "json");
    let explains = has_flag(matches, "explain");
    let needs = has_flag(matches, "needs");
    let goes_on = has_flag(matches, "keep-going");
    Options {
        features,
        limits,
        pieces,
        vectors,
        form: form_by(quiet, json),
        explains,
        needs,
        goes_on,
        at_terminal,
    }
}

/// The value of an option that may be there once.
fn value_of<'a>(matches: &ArgMatches<'a>, name: &str) -> Option<&'a str>
    ensures { (words : List (List ℕ)) → rows_of (found_of matches.now) ≡ matches_on words
        → option_map (λ v. v.now) result ≡ first_of name.now (matches_on words) }
{
    matches.get_str(name)
}

/// Judges the files of these names.
fn run_names<'a, J, F, W, E>(
    judge: &J,
    rt: &F,
    alloc: Global,
    options: &Options<'_, 'a>,
    names: &[&'a str],
    out: &mut W,
    err: &mut E,
) -> u8
where
    J: Judge,
    F: Files + Input,
    W: Write,
    E: Write,
    ensures quiet { result < 2 → Keeps (E.contents err.old) (E.contents err.new) }
    ensures ended { (words : List (List ℕ)) → asked_of options.now ≡ asked_by words → NamesFiles words (texts names.now)
        → EndsRun J.accepts words (W.contents out.old) (W.contents out.new) result }
{
    let judged = judge_by_options(judge, alloc, rt, options, names, out, err);
    conclude(
        alloc,
        &judged,
        below_of(options.form, options.at_terminal),
        err,
    )
}

/// Judges the files of these names by what was chosen.
fn run_chosen<J, F, W, E>(
    judge: &J,
    rt: &F,
    alloc: Global,
    goes_on: bool,
    chosen: Chosen,
    names: &[&str],
    out: &mut W,
    err: &mut E,
) -> u8
where
    J: Judge,
    F: Files + Input,
    W: Write,
    E: Write,
    requires within { CanJudge chosen }
    ensures quiet { result < 2 → Keeps (E.contents err.old) (E.contents err.new) }
    ensures ended { (words : List (List ℕ)) → IsChosen (asked_by words) chosen goes_on → NamesFiles words (texts names.now)
        → EndsRun J.accepts words (W.contents out.old) (W.contents out.new) result }
{
    let judged = judge_chosen(judge, alloc, rt, goes_on, chosen, names, out, err);
    conclude(alloc, &judged, chosen.below, err)
}

/// Judges the files of this list by what was chosen.
fn run_listed<J, F, W, E>(
    judge: &J,
    rt: &F,
    alloc: Global,
    goes_on: bool,
    chosen: Chosen,
    list: &[String],
    out: &mut W,
    err: &mut E,
) -> u8
where
    J: Judge,
    F: Files + Input,
    W: Write,
    E: Write,
    requires within { CanJudge chosen }
    ensures quiet { result < 2 → Keeps (E.contents err.old) (E.contents err.new) }
    ensures ended { (words : List (List ℕ)) → IsChosen (asked_by words) chosen goes_on → NamesFiles words (map string_bytes list.now)
        → EndsRun J.accepts words (W.contents out.old) (W.contents out.new) result }
{
    let Ok(names) = borrowed(alloc, list) else {
        return report(alloc, &Fault::OutOfMemory, chosen.below, err);
    };
    run_chosen(
        judge,
        rt,
        alloc,
        goes_on,
        chosen,
        names.as_slice(),
        out,
        err,
    )
}

/// Judges the files that the list in a file names. No other files may be given.
fn run_list<'a, J, F, W, E>(
    judge: &J,
    rt: &F,
    alloc: Global,
    options: &Options<'_, 'a>,
    given: Option<&[&'a str]>,
    file: &'a str,
    out: &mut W,
    err: &mut E,
) -> u8
where
    J: Judge,
    F: Files + Input,
    W: Write,
    E: Write,
    ensures quiet { result < 2 → Keeps (E.contents err.old) (E.contents err.new) }
    ensures ended { (words : List (List ℕ)) → asked_of options.now ≡ asked_by words → lists_in given.entry ≡ files_of words
        → list_file words ≡ Some file.entry.now → EndsRun J.accepts words (W.contents out.old) (W.contents out.new) result }
{
    let below = below_of(options.form, options.at_terminal);
    if has_lists(given) {
        let fault = Fault::Clash("[FILE]...", "--files0-from <FILE>");
        return report(alloc, &fault, below, err);
    }
    let chosen = match read_options(options) {
        Ok(chosen) => chosen,
        Err(fault) => return report(alloc, &fault, below, err),
    };
    let list = match read_list(alloc, rt, file) {
        Ok(list) => list,
        Err(fault) => return report(alloc, &fault, below, err),
    };
    run_listed(
        judge,
        rt,
        alloc,
        options.goes_on,
        chosen,
        list.as_slice(),
        out,
        err,
    )
}

/// Runs the program on the words that `clap` read.
fn run_matches<'a, J, F, W, E>(
    judge: &J,
    rt: &F,
    alloc: Global,
    matches: &ArgMatches<'a>,
    at_terminal: bool,
    out: &mut W,
    err: &mut E,
) -> u8
where
    J: Judge,
    F: Files + Input,
    W: Write,
    E: Write,
    ensures quiet { result < 2 → Keeps (E.contents err.old) (E.contents err.new) }
    ensures ended { (words : List (List ℕ)) → rows_of (found_of matches.now) ≡ matches_on words
        → EndsRun J.accepts words (W.contents out.old) (W.contents out.new) result }
{
    let options = options_of(matches, at_terminal);
    let given = lists_of(matches, "FILE");
    if let Some(file) = value_of(matches, "files0-from") {
        return run_list(judge, rt, alloc, &options, given, file, out, err);
    }
    let Some(names) = given else {
        return report(alloc, &Fault::NoFiles, Below::Nothing, err);
    };
    if names.is_empty() {
        return report(alloc, &Fault::NoFiles, Below::Nothing, err);
    }
    run_names(judge, rt, alloc, &options, names, out, err)
}

/// Runs the program on these words, of which the first is its own name, and gives its exit status:
/// 0 if all files are valid, or if the words ask for the help, the version or a table and it was shown; 1 if some file is invalid; 2 if
/// the words name no files by `clap`'s reading, or have options that do not go together or a list that is refused, and then nothing is written to `out`, if a fault stopped the
/// judging or the help, or if a file came to no verdict and the judging went on. Files may be named by a list in a file. The files are judged by the features and limits that the
/// words ask for. All files are opened before the first is judged, except with `--keep-going`; those past the first hundred are then closed,
/// and opened again in their turn, and so are all if the system does not let so many be open. The file `-` is standard input. A fault has one
/// line on `err`. If that is a person's terminal, as `at_terminal` says, a second line tells what may help; and with `--json` it is the fault as an
/// object.
pub fn run_by<'a, J, F, S, W, E>(
    judge: &J,
    rt: &F,
    words: &'a [S],
    at_terminal: bool,
    out: &mut W,
    err: &mut E,
) -> u8
where
    J: Judge,
    F: Files + Input + AllocGlobal,
    S: AsStr,
    W: Write,
    E: Write,
    ensures known { result ≤ 2 }
    ensures quiet { result < 2 → Keeps (E.contents err.old) (E.contents err.new) }
    ensures valid { result ≡ 0 → ShowsHelp (map S.text words.now) (W.contents out.old) (W.contents out.new)
        ⊎ Reports J.accepts (map S.text words.now) (W.contents out.old) (W.contents out.new) AllValid }
    ensures invalid { result ≡ 1
        → Reports J.accepts (map S.text words.now) (W.contents out.old) (W.contents out.new) SomeInvalid }
    ensures stopped { result ≡ 2
        → HasNoStatus J.accepts (map S.text words.now) (W.contents out.old) (W.contents out.new) }
{
    let alloc = rt.alloc();
    if let Some(table) = table_asked(words) {
        return show_text(alloc, table, out, err);
    }
    match parse(alloc, words) {
        Ok(matches) => run_matches(judge, rt, alloc, &matches, at_terminal, out, err),
        Err(answer) => show(alloc, words, &answer, out, err),
    }
}

/// What `clap` answers to worked command lines, and which files they name.
pub fn reads_worked_words()
    ensures { AreRead }
{}
