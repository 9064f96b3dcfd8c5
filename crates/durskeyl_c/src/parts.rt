//! The verdict on one part of a module, so that a caller's own threads share the work.

ghost use Rattle.std.specs.Prelude.{◌≡◌, ◌<◌, ◌≤◌, ℕ, List};
ghost use Rattle.wasm_types.specs.decoding.Denials.{Denies};
ghost use Rattle.wasm_module_validator_import_export_places.specs.rules.Accepts.{AcceptsUnder};
ghost use Rattle.durskeyl_c.specs.Settings.{settings_in};
ghost use Rattle.durskeyl_c.specs.Told.{ToldPart, IsEnded};
ghost use Rattle.durskeyl_c.specs.declared.settings.DurskeylSettings.{DurskeylSettings as Asked};

use crate::fault::{DurskeylFault, bad_settings, no_fault, write_error};
use crate::settings::{DurskeylSettings, features_of, leaves_later, limits_of};
use crate::validate::MOST_BYTES;
use std::alloc::Global;
use wasm_module_validator::validate_part;

/// Says of these bytes whether one part of them is valid by these settings: all sections, and each body whose number, counted from 0, is
/// `part` modulo `parts`. If each part from 0 to `parts` - 1 answers 0, the bytes are a valid module (`parts_tell_of_the_whole`). Any part may
/// answer 3 if there was no memory, and 6 if the settings are none, or `part` is not below `parts`, which are no verdicts; any other number
/// says that the bytes are no valid module.
#[unsafe(no_mangle)]
pub extern "C" fn durskeyl_validate_part(
    alloc: Global,
    settings: &DurskeylSettings,
    bytes: &[u8],
    part: u32,
    parts: u32,
    fault: &mut DurskeylFault,
) -> u32
    ensures verdict { ToldPart result settings.now part parts bytes.now }
    ensures few { result ≤ 6 }
    ensures kind { fault.new.kind ≡ result }
    ensures text { IsEnded fault.new }
{
    let limits = limits_of(&settings.limits);
    let Some(features) = features_of(settings.features) else {
        bad_settings(fault);
        return 6;
    };
    if !limits.is_within_ceilings() || !leaves_later(&settings.limits) {
        bad_settings(fault);
        return 6;
    }
    if part >= parts || bytes.len() > MOST_BYTES {
        bad_settings(fault);
        return 6;
    }
    match validate_part(alloc, features, limits, bytes, part, parts) {
        Ok(()) => {
            *fault = no_fault();
            0
        }
        Err(error) => {
            write_error(&limits, &error, fault);
            fault.kind
        }
    }
}

/// If each part of some bytes answers 0, they are a valid module.
pub const fn parts_tell_of_the_whole()
    ensures { (s : Asked) (parts : ℕ) (bytes : List ℕ) → 0 < parts
        → ((part : ℕ) → part < parts → ToldPart 0 s part parts bytes) → AcceptsUnder (settings_in s) bytes }
{}
