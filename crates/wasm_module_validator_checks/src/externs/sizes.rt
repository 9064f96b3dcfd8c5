//! Sizes of tables and memories: a minimum, and a maximum if there is one.

ghost use Rattle.std.specs.Prelude.{◌≡◌, ◌↔◌, ◌≤◌, IsTrue, IfErr, false};
ghost use Rattle.wasm_types.specs.decoding.Denials.{Tells};
ghost use Rattle.wasm_types.specs.decoding.declared.error.ErrorKind.TheVariants.{Other, MissingFeature};
ghost use Rattle.wasm_module_validator_rules.specs.Valid.{IfThere};

use wasm_types::{Error, ModuleWords, Result, WasmFeatures, Words};

/// Refuses a minimum above its maximum.
///
/// # Errors
///
/// `initial` is more than `maximum`: an error of kind `Other`, at `offset`.
pub fn check_limits(initial: u64, maximum: Option<u64>, offset: u64) -> Result<()>
    ensures answer { Tells result (IfThere (λ n. initial ≤ n) maximum) }
    ensures refused { IfErr result (λ e. (e.kind ≡ Other) × (e.offset ≡ offset)) }
{
    let Some(max) = maximum else {
        return Ok(());
    };
    if initial > max {
        return Err(Error::new(
            Words::Module(ModuleWords::SizeMinimumMustNotBeGreaterThanMaximum),
            offset,
        ));
    }
    Ok(())
}

/// Whether both are at most this.
pub(crate) fn are_within(most: u64, initial: u64, maximum: Option<u64>) -> bool
    ensures { IsTrue result ↔ (initial ≤ most) × IfThere (λ n. n ≤ most) maximum }
{
    let Some(max) = maximum else {
        return initial <= most;
    };
    initial <= most && max <= most
}

/// Asks for a feature that is there or not.
pub fn require(has: bool, feature: WasmFeatures, message: Words, offset: u64) -> Result<()>
    ensures answer { Tells result (IsTrue has) }
    ensures refused { IfErr result (λ e. (e.kind ≡ MissingFeature feature) × (e.offset ≡ offset) × (has ≡ false)) }
{
    if has {
        return Ok(());
    }
    Err(Error::missing_feature(feature, message, offset))
}
