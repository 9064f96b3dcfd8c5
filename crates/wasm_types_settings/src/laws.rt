//! Laws of the features, each the contract of a function that does nothing.

ghost use Rattle.std.specs.Prelude.{◌≡◌};
ghost use Rattle.wasm_types_settings.specs.Laws.{AllowedByBits, LargerAllowsMore, OwnInUnion, OwnInIntersection, OwnInDifference, AskedApart, PackedOnce, InflatedAgain, PackedAgain};
ghost use Rattle.wasm_types_settings.specs.Rows.{MaskRows, SetRows, AllowedRows, CanonicalRows, VectorRows};
ghost use Rattle.wasm_types_settings.specs.Sets.{bits_of, mvp, wasm1, wasm2, wasm3, lime1, default_features, Within};

use crate::features::WasmFeatures;

/// What each of the named sets has.
pub const fn named_sets()
    ensures mvp { WasmFeatures.MVP.0 ≡ bits_of mvp }
    ensures wasm1 { WasmFeatures.WASM1.0 ≡ bits_of wasm1 }
    ensures wasm2 { WasmFeatures.WASM2.0 ≡ bits_of wasm2 }
    ensures wasm3 { WasmFeatures.WASM3.0 ≡ bits_of wasm3 }
    ensures lime1 { WasmFeatures.LIME1.0 ≡ bits_of lime1 }
{}

/// Each named set is within the next, up to the default one, and `LIME1` lies between `WASM1` and `WASM3`.
pub const fn nested_sets()
    ensures mvp { Within WasmFeatures.MVP.0 WasmFeatures.WASM1.0 }
    ensures wasm1 { Within WasmFeatures.WASM1.0 WasmFeatures.WASM2.0 }
    ensures wasm2 { Within WasmFeatures.WASM2.0 WasmFeatures.WASM3.0 }
    ensures wasm3 { Within WasmFeatures.WASM3.0 (bits_of default_features) }
    ensures above_wasm1 { Within WasmFeatures.WASM1.0 WasmFeatures.LIME1.0 }
    ensures below_wasm3 { Within WasmFeatures.LIME1.0 WasmFeatures.WASM3.0 }
{}

/// Which features a set allows, by its single bits, after the operations of sets and in a larger set.
pub const fn allowed_features()
    ensures by_bits { AllowedByBits }
    ensures larger { LargerAllowsMore }
    ensures in_union { OwnInUnion }
    ensures in_intersection { OwnInIntersection }
    ensures in_difference { OwnInDifference }
{}

/// Operators on vectors are judged by no set of the 28 features alone.
#[tactic(auto, using(crate::proofs::SetLaws::asked_apart))]
pub const fn vectors_are_asked_for()
    ensures { AskedApart }
{}

/// The inflated form and back, both ways round.
pub const fn inflated_forms()
    ensures packed_once { PackedOnce }
    ensures inflated_again { InflatedAgain }
    ensures packed_again { PackedAgain }
{}

/// Sets that were worked by hand: the bits of each feature's name and of each named set, and what some sets allow.
#[tactic(auto, using(crate::specs::RowLaws::mask_rows, crate::specs::RowLaws::set_rows, crate::specs::RowLaws::allowed_rows, crate::specs::RowLaws::canonical_rows, crate::specs::RowLaws::vector_rows))]
pub const fn worked_sets()
    ensures masks { MaskRows }
    ensures sets { SetRows }
    ensures allowed { AllowedRows }
    ensures canonical { CanonicalRows }
    ensures vectors { VectorRows }
{}
