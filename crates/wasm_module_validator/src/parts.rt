//! A module judged in parts, each by a call of its own, which may run beside the others (WebAssembly 3.0, validation, modules).
//!
//! Each part reads all sections, and judges only those bodies whose number is the part's modulo the number of parts. If every part says
//! yes the module is valid ([`parts_are_whole`]), and a part that says no denies it.

ghost use Rattle.std.specs.Prelude.{◌≡◌, ◌<◌, ℕ, List, IfErr, OnOk};
ghost use Rattle.wasm_types.specs.decoding.Denials.{Denies};
ghost use Rattle.wasm_types.specs.settings.Limits.{IsWithinCeilings};
ghost use Rattle.wasm_types.specs.settings.Settings.{Settings};
ghost use Rattle.wasm_module_validator_rules.specs.Accepts.{AcceptsUnder};
ghost use Rattle.wasm_module_validator.specs.Parts.{AcceptsPart};
ghost use Rattle.wasm_module_validator.specs.laws.PartRows.{PartRows};

use std::alloc::Global;
use wasm_module_validator_drivers::{HeldSettings, SharedProgress};
use wasm_types::{Limits, Result, WasmFeatures};

/// Validates one part of a module that is all of these bytes: all its sections, and each body whose number, counted from 0, is `part`
/// modulo `parts`.
///
/// If all parts from 0 to the last are Ok, the module is valid by these features and limits (`parts_are_whole`). If one is refused it is not,
/// out of memory aside. A part that is not below `parts` has no bodies.
///
/// # Errors
///
/// The bytes are no module; or a section is not valid behind those before it; or, if each is, a body of the part is not valid: the first of
/// these. Or there is no memory.
pub fn validate_part(
    alloc: Global,
    features: WasmFeatures,
    limits: Limits,
    bytes: &[u8],
    part: u32,
    parts: u32,
) -> Result<()>
    requires within { IsWithinCeilings limits }
    requires some { 0 < parts }
    ensures ok { OnOk result (AcceptsPart (record { features = features.0; limits = limits }) part parts bytes.now) }
    ensures err { IfErr result (λ e. Denies e.kind (AcceptsUnder (record { features = features.0; limits = limits }) bytes.now)) }
{
    let settings = HeldSettings::new(features, limits);
    let mut reached = SharedProgress::new(alloc, &settings);
    let bodies = match reached.read(&settings, bytes) {
        Ok(bodies) => bodies,
        Err(error) => return Err(error),
    };
    reached.judge_part(bodies, part, parts)
}

/// A module is accepted if each of its parts is, however many they are.
pub const fn parts_are_whole()
    ensures { (z : Settings) (parts : ℕ) (bytes : List ℕ) → 0 < parts
        → ((part : ℕ) → part < parts → AcceptsPart z part parts bytes) → AcceptsUnder z bytes }
{}

/// A module whose only body is none, judged in one part and in two.
pub const fn parts_are_worked()
    ensures { PartRows }
{}
