//! Whether an operand fits a type.

ghost use Rattle.std.specs.Prelude.{◌≡◌, ◌↔◌, IsTrue, true};
ghost use Rattle.wasm_types.specs.decoding.declared.error.ErrorKind.TheVariants.{Other};
ghost use Rattle.wasm_operator_validator_state.specs.Refusals.{kind_of};
ghost use Rattle.wasm_operator_validator_rules.specs.Operands.{known};
ghost use Rattle.wasm_operator_validator_state.specs.resources.Meaning.{type_in};
ghost use Rattle.wasm_operator_validator_state.specs.State.{Stands};
ghost use Rattle.wasm_operator_validator_state.specs.declared.operand.MaybeType.{MaybeType};
ghost use Rattle.wasm_operator_validator_state.specs.declared.operand.MaybeType.TheVariants.{Known};
ghost use Rattle.wasm_operator_validator_stacks.specs.Layout.{IsAbstractFit};

use wasm_operator_validator_state::{MaybeType, Refusal, WasmModuleResources};
use wasm_types::{AbstractHeapType, HeapType, RefType, ValType, equality_is_identity};

/// Whether an operand is known to have this very type.
#[inline(always)]
pub(crate) fn is_same(found: &MaybeType, expected: &ValType) -> bool
    ensures { result ≡ true → found.now ≡ Known expected.now }
{
    match found {
        MaybeType::Bottom => false,
        MaybeType::UnknownRef(_) => false,
        MaybeType::Known(actual) => {
            equality_is_identity();
            actual == expected
        }
    }
}

/// Whether what is known of an operand may be taken for one of this type.
pub fn is_fit<R: WasmModuleResources>(resources: &R, found: &MaybeType, expected: &ValType) -> bool
    ensures { IsTrue result ↔ Stands (R.meaning resources.now) found.now
        (known (type_in (R.meaning resources.now) expected.now)) }
{
    match found {
        MaybeType::Bottom => true,
        MaybeType::UnknownRef(ty) => is_unknown_fit(resources, *ty, expected),
        MaybeType::Known(actual) => resources.is_subtype(*actual, *expected),
    }
}

/// Whether a reference, of which the abstract type may be known, may be taken for one of this type.
fn is_unknown_fit<R: WasmModuleResources>(
    resources: &R,
    ty: Option<AbstractHeapType>,
    expected: &ValType,
) -> bool
    ensures { IsTrue result ↔ Stands (R.meaning resources.now) (MaybeType.UnknownRef ty)
        (known (type_in (R.meaning resources.now) expected.now)) }
{
    match ty {
        None => expected.is_reference_type(),
        Some(ty) => {
            is_abstract_fit(resources, false, ty, expected)
                || is_abstract_fit(resources, true, ty, expected)
        }
    }
}

/// Whether a reference to this abstract type may be taken for one of this type.
pub fn is_abstract_fit<R: WasmModuleResources>(
    resources: &R,
    shared: bool,
    ty: AbstractHeapType,
    expected: &ValType,
) -> bool
    ensures { IsTrue result ↔ IsAbstractFit (R.meaning resources.now) shared ty expected.now }
{
    let Some(reference) = RefType::new(false, HeapType::Abstract { shared, ty }) else {
        return false;
    };
    resources.is_subtype(ValType::Ref(reference), *expected)
}

/// The refusal where no operand of this type could be taken off.
#[cold]
pub(crate) fn not_taken(refusal: Refusal, expected: &ValType) -> Refusal
    ensures { kind_of result ≡ kind_of refusal }
{
    match refusal {
        Refusal::EmptyStackOfAny => Refusal::EmptyStack {
            expected: *expected,
        },
        other => other,
    }
}

/// The refusal of an operand that does not fit.
#[cold]
pub(crate) fn type_mismatch(found: &MaybeType, expected: &ValType) -> Refusal
    ensures { kind_of result ≡ Other }
{
    Refusal::TypeMismatch {
        expected: *expected,
        found: *found,
    }
}
