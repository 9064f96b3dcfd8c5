//! Elements that their bytes alone tell.
//!
//! Nearly all elements that are expressions are a reference to a function, or a constant that refers to none and that one pass over its bytes
//! judges ([`accepts_constant`]). [`take_short_elements`] tells these with no reader of operators; of all others it says nothing.

ghost use Rattle.std.specs.Prelude.{◌≡◌, ◌≤◌, ◌+◌, ℕ, [], ◌∷◌, length, IsTrue, IfSome, IfNone};
ghost use Rattle.wasm_types.specs.settings.Features.{ReferenceTypes};
ghost use Rattle.wasm_types.specs.trees.Gates.{Has};
ghost use Rattle.wasm_sections_items.specs.limited.Walking.{Passes};
ghost use Rattle.wasm_sections_items.specs.limited.Runs.{place_with_offsets};
ghost use Rattle.wasm_operator_validator_state.specs.resources.Meaning.{type_in};
ghost use Rattle.wasm_module_validator_fast_constants.specs.Steps.{IsShortConstant};
ghost use Rattle.wasm_module_validator_initialisers.specs.elements.Short.{FitsFunction, NamesRun, NamesShort};

use crate::segments::{ConstExpr, Settings, WasmModuleResources};
use wasm_module_validator_fast_constants::accepts_constant;
use wasm_operators_bodies::{ShortConstant, short_constant};
use wasm_sections_items::limited::SectionLimitedIntoIterWithOffsets;
use wasm_types::{HeapType, RefType, UnpackedIndex, ValType, WasmFeatures};

// Whether this is a function that may be referred to, and a reference to it is of this type, even if it is not known to be exactly of its
// own.
fn is_function_of<R: WasmModuleResources>(index: u32, ty: &ValType, resources: &R) -> bool
    ensures { IsTrue result → FitsFunction (R.meaning resources.now).«module»
        (type_in (R.meaning resources.now) ty.now) index }
{
    if !resources.is_function_referenced(index) {
        return false;
    }
    let Some(id) = resources.type_id_of_function(index) else {
        return false;
    };
    let Some(reference) = RefType::new(false, HeapType::Concrete(UnpackedIndex::Id(id))) else {
        return false;
    };
    resources.is_subtype(ValType::Ref(reference), *ty)
}

// The function that the element at an offset refers to, and where it ends, if it is one.
fn short_function_at<R: WasmModuleResources>(
    bytes: &[u8],
    at: usize,
    ty: &ValType,
    resources: &R,
    features: &WasmFeatures,
) -> Option<(u32, usize)>
    requires inside { at ≤ length bytes.now }
    requires allowed { Has features.now.0 ReferenceTypes }
    ensures { IfSome result (λ r. IsShortConstant features.now.0 (R.meaning resources.now).«module»
        (type_in (R.meaning resources.now) ty.now) bytes.now at r.1 (r.0 ∷ [])) }
{
    let Some((ShortConstant::Function(index), long)) = short_constant(&bytes[at..]) else {
        return None;
    };
    if !is_function_of(index, ty, resources) {
        return None;
    }
    Some((index, at + long))
}

// Where the element at an offset ends, if its bytes alone tell that it is of this type; the function that it refers to is named. Else no
// name is added. `stack` is memory; if a growth is refused, `lacks` is set.
fn take_short_element<R: WasmModuleResources>(
    bytes: &[u8],
    at: usize,
    ty: &ValType,
    resources: &R,
    features: &WasmFeatures,
    stack: &mut Vec<ValType>,
    names: &mut Vec<u32>,
    lacks: &mut bool,
) -> Option<usize>
    requires inside { at ≤ length bytes.now }
    requires allowed { Has features.now.0 ReferenceTypes }
    ensures named { IfSome result (λ j. NamesShort features.now.0 (R.meaning resources.now).«module»
        (type_in (R.meaning resources.now) ty.now) bytes.now at j names.old.items names.new.items) }
    ensures stays { IfNone result (names.new.items ≡ names.old.items) }
{
    let Some((index, end)) = short_function_at(bytes, at, ty, resources, features) else {
        let Some(end) = accepts_constant(bytes, at, ty, resources, features, stack, lacks) else {
            return None;
        };
        return Some(end);
    };
    match names.push(index) {
        Ok(()) => Some(end),
        Err(_) => {
            *lacks = true;
            None
        }
    }
}

// Goes past the elements at the front of these bytes that the bytes alone tell, at most so many: how many are left, and where those end.
fn take_front<R: WasmModuleResources>(
    bytes: &[u8],
    most: u32,
    ty: &ValType,
    resources: &R,
    features: &WasmFeatures,
    names: &mut Vec<u32>,
    lacks: &mut bool,
) -> (u32, usize)
    requires allowed { Has features.now.0 ReferenceTypes }
    ensures inside { result.1 ≤ length bytes.now }
    ensures named { (n : ℕ) × (n + result.0 ≡ most) × NamesRun features.now.0 (R.meaning resources.now).«module»
        (type_in (R.meaning resources.now) ty.now) bytes.now n 0 result.1 names.old.items names.new.items }
{
    let mut stack = Vec::new(*names.allocator());
    let mut at = 0;
    for passed in 0..most {
        let Some(end) = take_short_element(
            bytes, at, ty, resources, features, &mut stack, names, lacks,
        ) else {
            return (most - passed, at);
        };
        at = end;
    }
    (0, at)
}

/// Goes past the elements that come next and that their bytes alone tell to be of this type, and names the functions that they refer to.
/// If a growth is refused, `lacks` is set.
pub(crate) fn take_short_elements<'a, R: WasmModuleResources>(
    elements: &mut SectionLimitedIntoIterWithOffsets<'a, ConstExpr<'a>>,
    ty: &ValType,
    resources: &R,
    settings: &Settings,
    names: &mut Vec<u32>,
    lacks: &mut bool,
)
    ensures left { elements.new.remaining ≤ elements.old.remaining }
    ensures over { elements.new.end ≡ elements.old.end }
    ensures named { (n : ℕ) × (j : ℕ) × (n + elements.new.remaining ≡ elements.old.remaining)
        × (j ≤ length elements.old.section.reader.rest)
        × Passes j elements.new.remaining (place_with_offsets elements.old) (place_with_offsets elements.new)
        × NamesRun settings.now.features (R.meaning resources.now).«module»
        (type_in (R.meaning resources.now) ty.now) elements.old.section.reader.rest n 0 j
        names.old.items names.new.items }
{
    let features = settings.features();
    if !features.reference_types() {
        return;
    }
    let (left, at) = take_front(
        elements.bytes(),
        elements.left(),
        ty,
        resources,
        &features,
        names,
        lacks,
    );
    elements.pass(at, left);
}
