//! Why an operator of a constant is refused, in few bytes.

ghost use Rattle.std.specs.Prelude.{◌≡◌};
ghost use Rattle.wasm_types.specs.decoding.declared.error.ErrorKind.TheVariants.{MissingFeature, Other};
ghost use Rattle.wasm_operator_validator_state.specs.Refusals.{OfContent};
ghost use Rattle.wasm_operator_validator_constants.specs.Refusals.{kind_of_constant};

use wasm_operator_validator_stacks::Refusal;
use wasm_types::{Error, Text, WasmFeatures, Words};

/// Why an operator is refused in a constant expression. It has no text and no offset.
#[derive(Clone, Copy)]
pub enum ConstantRefusal {
    /// For a reason that holds in any body.
    Invalid(Refusal),
    /// The operator, by its name in the text format, is constant by no features.
    NonConstant {
        name: &'static str,
    },
    /// The operator is constant by a feature alone.
    NotEnabled {
        feature: WasmFeatures,
        name: &'static str,
    },
    /// It reads a global of the module's own, which this feature allows.
    LocalGlobal {
        feature: WasmFeatures,
    },
    /// It reads a global that may be written.
    MutableGlobal,
}

impl ConstantRefusal {
    /// The error of a refusal of the operator at this offset. Out of memory has no offset.
    #[cold]
    #[inline(never)]
    pub fn error(&self, offset: u64) -> Error
        ensures kind { result.kind ≡ kind_of_constant self.now }
        ensures at { OfContent result.kind (result.offset ≡ offset) }
    {
        match *self {
            ConstantRefusal::Invalid(refusal) => refusal.error(offset),
            ConstantRefusal::NonConstant { name } => not_a_constant(name, offset),
            ConstantRefusal::NotEnabled { feature, name } => not_enabled(feature, name, offset),
            ConstantRefusal::LocalGlobal { feature } => Error::missing_feature(
                feature,
                Words::ConstantExpressionRequiredGlobalGetOfLocallyDefinedGlobal,
                offset,
            ),
            ConstantRefusal::MutableGlobal => Error::new(
                Words::ConstantExpressionRequiredGlobalGetOfMutableGlobal,
                offset,
            ),
        }
    }
}

// The error of an operator that is constant by no features, by the name of its visit.
#[cold]
fn not_a_constant(name: &'static str, offset: u64) -> Error
    ensures kind { result.kind ≡ Other }
    ensures at { result.offset ≡ offset }
{
    Error::with(Text::no_visit_of_constants(name), offset)
}

// The same words, of an operator that a feature allows.
#[cold]
fn not_enabled(feature: WasmFeatures, name: &'static str, offset: u64) -> Error
    ensures kind { result.kind ≡ MissingFeature feature }
    ensures at { result.offset ≡ offset }
{
    Error::missing_with(feature, Text::non_constant(name), offset)
}
