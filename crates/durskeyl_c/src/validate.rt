//! The verdict on whole bytes.

ghost use Rattle.std.specs.Prelude.{◌≡◌, ◌≤◌};
ghost use Rattle.wasm_types.specs.decoding.Denials.{Tells};
ghost use Rattle.wasm_types.specs.settings.Limits.{IsWithinCeilings};
ghost use Rattle.wasm_module_validator_import_export_places.specs.rules.Accepts.{AcceptsUnder};
ghost use Rattle.durskeyl_c.specs.Settings.{default_settings};
ghost use Rattle.durskeyl_c.specs.Told.{Told, IsEnded};

use crate::fault::{DurskeylFault, bad_settings, no_fault, write_error};
use crate::settings::{DurskeylSettings, features_of, leaves_later, limits_of};
use std::alloc::Global;
use wasm_module_validator::{Validator, ValidatorId};
use wasm_types::{Error, Limits, WasmFeatures};

/// The version of the library, 0.2.0, with 8 bits a number. A build without the proof has the highest bit too
/// (tools/build-unproved-library).
const VERSION: u32 = 2 << 8;

/// The most bytes that C may hand over, and a slice has: `PTRDIFF_MAX`.
pub(crate) const MOST_BYTES: usize = (1 << 63) - 1;

/// The version of the library.
#[unsafe(no_mangle)]
pub extern "C" fn durskeyl_version() -> u32
    ensures { result ≡ 512 }
{
    VERSION
}

/// Judges bytes by a validator of their own.
fn judge(alloc: Global, features: WasmFeatures, limits: Limits, bytes: &[u8]) -> Result<(), Error>
    requires within { IsWithinCeilings limits }
    ensures { Tells result (AcceptsUnder (record { features = features.0; limits = limits }) bytes.now) }
{
    let mut validator = Validator::new_with_limits(alloc, ValidatorId::new(0), features, limits);
    match validator.validate_all(bytes) {
        Ok(_types) => Ok(()),
        Err(error) => Err(error),
    }
}

/// Says of these bytes whether they are a valid module by these settings (WebAssembly 3.0, binary format and validation, modules): 0 if
/// so; 3 if there was no memory and 6 if the settings name an unknown feature, a limit above its ceiling or one that is not known, which
/// are no verdicts; else the number of the kind of fault that was found. The fault has the same number, the offset and a text.
#[unsafe(no_mangle)]
pub extern "C" fn durskeyl_validate(
    alloc: Global,
    settings: &DurskeylSettings,
    bytes: &[u8],
    fault: &mut DurskeylFault,
) -> u32
    ensures verdict { Told result settings.now bytes.now }
    ensures few { result ≤ 6 }
    ensures kind { fault.new.kind ≡ result }
    ensures text { IsEnded fault.new }
{
    let limits = limits_of(&settings.limits);
    let Some(features) = features_of(settings.features) else {
        bad_settings(fault);
        return 6;
    };
    if !limits.is_within_ceilings() || !leaves_later(&settings.limits) {
        bad_settings(fault);
        return 6;
    }
    if bytes.len() > MOST_BYTES {
        // no slice has so many: C promises it, and is answered if it does not
        bad_settings(fault);
        return 6;
    }
    match judge(alloc, features, limits, bytes) {
        Ok(()) => {
            *fault = no_fault();
            0
        }
        Err(error) => {
            write_error(&limits, &error, fault);
            fault.kind
        }
    }
}

/// Says of these bytes whether they are a valid module by the settings by default: 1 if so, else 0, also if there was no memory.
#[unsafe(no_mangle)]
pub extern "C" fn durskeyl_is_valid(alloc: Global, bytes: &[u8]) -> u32
    ensures valid { result ≡ 1 → AcceptsUnder default_settings bytes.now }
    ensures few { result ≤ 1 }
{
    if bytes.len() > MOST_BYTES {
        return 0;
    }
    match judge(alloc, WasmFeatures::default(), Limits::default(), bytes) {
        Ok(()) => 1,
        Err(_error) => 0,
    }
}
