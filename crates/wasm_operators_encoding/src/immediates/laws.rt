//! Laws of immediates, each the contract of a function that does nothing.

ghost use Rattle.wasm_types.specs.decoding.Decoder.{IsLawful, Decides};
ghost use Rattle.wasm_types.specs.settings.Settings.{Settings};
ghost use Rattle.wasm_operators_immediates.specs.Kinds.{Kind};
ghost use Rattle.wasm_operators_encoding.specs.immediates.Immediates.{immediate, OfKind};

/// Each kind of immediate, whatever features are allowed and limits hold: a value and a fault stay whatever bytes follow, an end of data
/// needs exactly as many bytes as are missing, and a value is read exactly if a front of the bytes spells one of this kind.
pub const fn immediates_are_lawful()
    ensures lawful { (settings : Settings) (k : Kind) → IsLawful (immediate settings k) }
    ensures exact { (settings : Settings) (k : Kind) → Decides (immediate settings k) (OfKind settings k) }
{}
