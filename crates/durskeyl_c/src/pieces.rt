//! The verdict on a module whose pieces are handed over one after the other.

ghost use Rattle.std.specs.Prelude.{◌≡◌, ◌≤◌, ◌<◌, ◌^◌, ◌++◌, ◌↔◌, ◌⊎◌, List, [], ℕ, length, IfSome, MatchOption};
ghost use Rattle.wasm_types.specs.settings.Limits.{IsWithinCeilings};
ghost use Rattle.wasm_module_validator_streaming.specs.HandedOver.{IsUnderWay, IsTooLong};
ghost use Rattle.durskeyl_c.specs.declared.settings.DurskeylSettings.{DurskeylSettings};
ghost use Rattle.durskeyl_c.specs.Settings.{settings_in, AreSettings};
ghost use Rattle.durskeyl_c.specs.Told.{Told, IsEnded, number_in};
ghost use Rattle.durskeyl_c.specs.Pieces.{Holds, HoldsAtMost, TellsPiece, answer_of, cap_of, CanBeHeld};

use crate::fault::{DurskeylFault, bad_settings, no_fault, too_long, write_error};
use crate::handle::DurskeylPieces;
use crate::settings::{DurskeylSettings, features_of, leaves_later, limits_of};
use crate::validate::MOST_BYTES;
use std::alloc::Global;
use wasm_module_validator::ValidatorId;
use wasm_module_validator_streaming::{ModuleInPieces, PieceError};
use wasm_types::{Error, Limits, WasmFeatures};

/// Takes the module out of the handle, if one was begun.
fn taken(alloc: Global, pieces: &mut DurskeylPieces) -> Option<Box<ModuleInPieces>>
    ensures there { MatchOption result (pieces.old.inside.value ≡ None)
        (λ it. pieces.old.inside.value ≡ Some it.value) }
    ensures empty { pieces.new.inside.value ≡ None }
{
    std::mem::replace(pieces, DurskeylPieces::none(alloc)).into_box()
}

/// Puts a module into the handle. What was there before is given back.
fn put(pieces: &mut DurskeylPieces, it: Box<ModuleInPieces>)
    ensures { pieces.new.inside.value ≡ Some it.value }
{
    let _before = std::mem::replace(pieces, DurskeylPieces::of(it)).into_box();
}

/// Gives back the module that was begun, if one was.
fn give_back(alloc: Global, pieces: &mut DurskeylPieces)
    ensures { pieces.new.inside.value ≡ None }
{
    let _before = taken(alloc, pieces);
}

/// Writes why no more of a module in pieces is taken, and answers its number.
fn write_piece_error(error: &PieceError, fault: &mut DurskeylFault) -> u32
    ensures number { result ≡ number_in error.now }
    ensures few { result ≤ 7 }
    ensures kind { fault.new.kind ≡ result }
    ensures text { IsEnded fault.new }
{
    match error {
        PieceError::Refused(error) => {
            // of one table or memory the limit is not told: which limits hold is inside
            write_error(&Limits::default(), error, fault);
            fault.kind
        }
        PieceError::TooLong => {
            too_long(fault);
            7
        }
    }
}

/// Takes the next bytes, and writes what the module answers.
fn take(it: &mut ModuleInPieces, bytes: &[u8], fault: &mut DurskeylFault) -> u32
    requires { IsUnderWay it.old }
    ensures came { (s : DurskeylSettings) (got : List ℕ) → Holds (Some it.old) s got
        → Holds (Some it.new) s (got ++ bytes.now) }
    ensures answer { result ≡ answer_of (Some it.new) }
    ensures told { (s : DurskeylSettings) (got : List ℕ) → Holds (Some it.old) s got
        → TellsPiece result s it.old.most (got ++ bytes.now) }
    ensures few { result ≤ 7 }
    ensures begun { ¬ (result ≡ 6) }
    ensures stays { 0 < answer_of (Some it.old) → result ≡ answer_of (Some it.old) }
    ensures held { CanBeHeld (Some it.old) (Some it.new) }
    ensures kind { fault.new.kind ≡ result }
    ensures text { IsEnded fault.new }
{
    match it.take(bytes) {
        Ok(()) => {
            *fault = no_fault();
            0
        }
        Err(error) => write_piece_error(&error, fault),
    }
}

/// Ends the module, and writes the verdict.
fn end(it: ModuleInPieces, fault: &mut DurskeylFault) -> u32
    requires { IsUnderWay it }
    ensures told { (s : DurskeylSettings) (got : List ℕ) → Holds (Some it) s got → length got < 2 ^ 64
        → ¬ (result ≡ 7) → Told result s got }
    ensures too_long { (s : DurskeylSettings) (got : List ℕ) → Holds (Some it) s got → length got < 2 ^ 64
        → result ≡ 7 → IsTooLong (settings_in s) it.most got }
    ensures few { result ≤ 7 }
    ensures begun { ¬ (result ≡ 6) }
    ensures stays { 0 < answer_of (Some it) → result ≡ answer_of (Some it) }
    ensures kind { fault.new.kind ≡ result }
    ensures text { IsEnded fault.new }
{
    match it.end() {
        Ok(_types) => {
            *fault = no_fault();
            0
        }
        Err(error) => write_piece_error(&error, fault),
    }
}

/// Begins a module in a handle that holds none: 0 if so, and 3 if there was no memory.
fn begin(
    alloc: Global,
    features: WasmFeatures,
    limits: Limits,
    most: u64,
    pieces: &mut DurskeylPieces,
    fault: &mut DurskeylFault,
) -> u32
    requires within { IsWithinCeilings limits }
    requires empty { pieces.old.inside.value ≡ None }
    ensures begun { result ≡ 0 → (s : DurskeylSettings) → AreSettings s
        → settings_in s ≡ record { features = features.0; limits = limits } → Holds pieces.new.inside.value s [] }
    ensures most { result ≡ 0 → HoldsAtMost most pieces.new.inside.value }
    ensures none { ¬ (result ≡ 0) → pieces.new.inside.value ≡ None }
    ensures answers { (result ≡ 0) ⊎ (result ≡ 3) }
    ensures kind { fault.new.kind ≡ result }
    ensures text { IsEnded fault.new }
{
    let begun = ModuleInPieces::new(alloc, ValidatorId::new(0), features, limits, most as usize);
    match Box::new(alloc, begun) {
        Ok(it) => {
            put(pieces, it);
            *fault = no_fault();
            0
        }
        Err(_error) => {
            write_error(&limits, &Error::out_of_memory(0), fault);
            fault.kind
        }
    }
}

/// Begins a module that is judged by these settings, and of whose bytes at most `most` are held at once: 0 if so; 3 if there was no memory,
/// and 6 if the settings are none, and nothing is begun then. What was begun before in the handle is given back.
#[unsafe(no_mangle)]
pub extern "C" fn durskeyl_begin(
    alloc: Global,
    settings: &DurskeylSettings,
    most: u64,
    pieces: &mut DurskeylPieces,
    fault: &mut DurskeylFault,
) -> u32
    ensures begun { result ≡ 0 → Holds pieces.new.inside.value settings.now [] }
    ensures most { result ≡ 0 → HoldsAtMost most pieces.new.inside.value }
    ensures none { ¬ (result ≡ 0) → pieces.new.inside.value ≡ None }
    ensures answers { (result ≡ 0) ⊎ (result ≡ 3) ⊎ (result ≡ 6) }
    ensures settings { (result ≡ 6) ↔ (¬ AreSettings settings.now) }
    ensures kind { fault.new.kind ≡ result }
    ensures text { IsEnded fault.new }
{
    // at once, so that two modules are never held
    give_back(alloc, pieces);
    let limits = limits_of(&settings.limits);
    let Some(features) = features_of(settings.features) else {
        bad_settings(fault);
        return 6;
    };
    if !limits.is_within_ceilings() || !leaves_later(&settings.limits) {
        bad_settings(fault);
        return 6;
    }
    begin(alloc, features, limits, most, pieces, fault)
}

/// Takes the next bytes of the module that was begun: 0 if of all that came nothing is refused; 3 if there was no memory; 6 if none was begun;
/// 7 if an item that comes in several pieces is longer than may be held; else the number of the kind of fault for which no module that begins
/// with these bytes is valid. An answer that is not 0 stays: each later call, and the end, answers the same number.
#[unsafe(no_mangle)]
pub extern "C" fn durskeyl_take(
    alloc: Global,
    pieces: &mut DurskeylPieces,
    bytes: &[u8],
    fault: &mut DurskeylFault,
) -> u32
    requires { IfSome pieces.old.inside.value IsUnderWay }
    ensures came { (s : DurskeylSettings) (got : List ℕ) → Holds pieces.old.inside.value s got
        → Holds pieces.new.inside.value s (got ++ bytes.now) }
    ensures told { (s : DurskeylSettings) (got : List ℕ) → Holds pieces.old.inside.value s got
        → TellsPiece result s (cap_of pieces.old.inside.value) (got ++ bytes.now) }
    ensures answer { result ≡ answer_of pieces.new.inside.value }
    ensures begun { (result ≡ 6) ↔ (pieces.old.inside.value ≡ None) }
    ensures stays { 0 < answer_of pieces.old.inside.value → result ≡ answer_of pieces.old.inside.value }
    ensures held { CanBeHeld pieces.old.inside.value pieces.new.inside.value }
    ensures few { result ≤ 7 }
    ensures kind { fault.new.kind ≡ result }
    ensures text { IsEnded fault.new }
{
    if bytes.len() > MOST_BYTES {
        // no slice has so many: C promises it, and is answered if it does not
        bad_settings(fault);
        return 6;
    }
    let Some(mut it) = taken(alloc, pieces) else {
        bad_settings(fault);
        return 6;
    };
    let answer = take(&mut it, bytes, fault);
    put(pieces, it);
    answer
}

/// The verdict on the module whose bytes are all that were taken: what `durskeyl_validate` tells of them all at once; or 7 if an item was longer
/// than may be held, and 6 if none was begun. Then none is begun, and its memory is given back.
#[unsafe(no_mangle)]
pub extern "C" fn durskeyl_end(
    alloc: Global,
    pieces: &mut DurskeylPieces,
    fault: &mut DurskeylFault,
) -> u32
    requires { IfSome pieces.old.inside.value IsUnderWay }
    ensures told { (s : DurskeylSettings) (got : List ℕ) → Holds pieces.old.inside.value s got → length got < 2 ^ 64
        → ¬ (result ≡ 7) → Told result s got }
    ensures too_long { (s : DurskeylSettings) (got : List ℕ) → Holds pieces.old.inside.value s got → length got < 2 ^ 64
        → result ≡ 7 → IsTooLong (settings_in s) (cap_of pieces.old.inside.value) got }
    ensures begun { (result ≡ 6) ↔ (pieces.old.inside.value ≡ None) }
    ensures stays { 0 < answer_of pieces.old.inside.value → result ≡ answer_of pieces.old.inside.value }
    ensures empty { pieces.new.inside.value ≡ None }
    ensures few { result ≤ 7 }
    ensures kind { fault.new.kind ≡ result }
    ensures text { IsEnded fault.new }
{
    match taken(alloc, pieces) {
        Some(it) => end(Box::into_inner(it), fault),
        None => {
            bad_settings(fault);
            6
        }
    }
}

/// Gives back what was begun, with no verdict; nothing if none was.
#[unsafe(no_mangle)]
pub extern "C" fn durskeyl_drop(alloc: Global, pieces: &mut DurskeylPieces)
    ensures { pieces.new.inside.value ≡ None }
{
    give_back(alloc, pieces);
}
