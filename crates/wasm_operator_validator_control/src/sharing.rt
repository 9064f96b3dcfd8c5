//! References of which it is not known whether they are shared, against several labels.

ghost use Rattle.std.specs.Prelude.{◌≡◌, ◌↔◌, ◌∷◌, IsTrue, IfSome, length};
ghost use Rattle.std.specs.Slice.Iter.{iter_rest};
ghost use Rattle.wasm_operator_validator_control.specs.Fitting.{labels_of, FitsAt, EachFitsAt, a_reference, either_shared, AgreesAt, AllAgree, Answers};
ghost use Rattle.wasm_operator_validator_locals.specs.labels.Among.{SameLabels};

use crate::{
    BrTable, BrTableTargets, MaybeType, OperatorValidator, Refusal, WasmModuleResources,
    is_abstract_fit, label_types,
};
use std::alloc::Global;
use std::slice::Iter;
use wasm_operator_validator_locals::labels::{Met, is_met, is_worth, keep};
use wasm_types::{AbstractHeapType, ValType};

/// Whether all labels of a table agree in each place on whether a reference is shared, where that is not known. `types` are those of
/// the default.
pub(crate) fn agree<R: WasmModuleResources>(
    validator: &OperatorValidator,
    resources: &R,
    table: &BrTable,
    types: &[ValType],
) -> Result<(), Refusal>
    ensures { Answers result (AllAgree (R.meaning resources.now) validator.now (length types.now)
        (table.now.default ∷ table.now.targets)) }
{
    let named = distinct(validator.allocator(), table.targets(), types.len());
    for place in 0..types.len() {
        if !agrees_at(validator, resources, table, &named, place) {
            return Err(disagreement(validator.peek(place), types[types.len() - 1 - place]));
        }
    }
    Ok(())
}

/// The targets of a table, each once, if they take so many types that it pays, and there is memory for them.
fn distinct(alloc: Global, mut targets: BrTableTargets, types: usize) -> Option<Vec<u32>>
    ensures { IfSome result (λ named. SameLabels named.items targets.entry) }
{
    if !is_worth(types) {
        return None;
    }
    let mut met = Met::new(alloc);
    let mut named = Vec::new(alloc);
    while let Some(target) = targets.next() {
        if !is_met(&met, target) {
            let Ok(()) = named.push(target) else {
                return None;
            };
            keep(&mut met, target, types);
        }
    }
    Some(named)
}

/// The refusal of labels that disagree on an operand.
#[cold]
fn disagreement(found: Option<MaybeType>, expected: ValType) -> Refusal {
    match found {
        Some(found) => Refusal::TypeMismatch { expected, found },
        None => Refusal::EmptyStack { expected },
    }
}

/// Whether they agree in this place, which counts from the top. `named` are the targets, each once, if they were put together.
fn agrees_at<R: WasmModuleResources>(
    validator: &OperatorValidator,
    resources: &R,
    table: &BrTable,
    named: &Option<Vec<u32>>,
    place: usize,
) -> bool
    requires { IfSome named.now (λ labels. SameLabels labels.items table.now.targets) }
    ensures { IsTrue result ↔ AgreesAt (R.meaning resources.now) validator.now place
        (table.now.default ∷ table.now.targets) }
{
    match unknown_sharing(validator.peek(place)) {
        Some(ty) => {
            fits_table(validator, resources, table, named, place, false, ty)
                || fits_table(validator, resources, table, named, place, true, ty)
        }
        None => true,
    }
}

/// The abstract type to which an operand is a reference, if it is one that may be shared or not.
fn unknown_sharing(found: Option<MaybeType>) -> Option<AbstractHeapType>
    ensures { result ≡ either_shared found }
{
    match found {
        Some(MaybeType::Bottom) => None,
        Some(MaybeType::UnknownRef(ty)) => ty,
        Some(MaybeType::Known(_)) => None,
        None => None,
    }
}

/// Whether a reference to this abstract type may be taken for what each label of a table takes in this place.
fn fits_table<R: WasmModuleResources>(
    validator: &OperatorValidator,
    resources: &R,
    table: &BrTable,
    named: &Option<Vec<u32>>,
    place: usize,
    shared: bool,
    ty: AbstractHeapType,
) -> bool
    requires { IfSome named.now (λ labels. SameLabels labels.items table.now.targets) }
    ensures { IsTrue result ↔ EachFitsAt (labels_of (R.meaning resources.now) validator.now) place
        (a_reference shared ty) (table.now.default ∷ table.now.targets) }
{
    if !fits_label(validator, resources, table.default(), place, shared, ty) {
        return false;
    }
    match named {
        Some(labels) => fits_labels(
            validator,
            resources,
            labels.as_slice().iter(),
            place,
            shared,
            ty,
        ),
        None => fits_targets(validator, resources, table.targets(), place, shared, ty),
    }
}

/// The same of these labels.
fn fits_targets<R: WasmModuleResources>(
    validator: &OperatorValidator,
    resources: &R,
    mut targets: BrTableTargets,
    place: usize,
    shared: bool,
    ty: AbstractHeapType,
) -> bool
    ensures { IsTrue result ↔ EachFitsAt (labels_of (R.meaning resources.now) validator.now) place
        (a_reference shared ty) targets.entry }
{
    while let Some(target) = targets.next() {
        if !fits_label(validator, resources, target, place, shared, ty) {
            return false;
        }
    }
    true
}

/// The same of these labels, which lie side by side.
fn fits_labels<R: WasmModuleResources>(
    validator: &OperatorValidator,
    resources: &R,
    mut labels: Iter<u32>,
    place: usize,
    shared: bool,
    ty: AbstractHeapType,
) -> bool
    ensures { IsTrue result ↔ EachFitsAt (labels_of (R.meaning resources.now) validator.now) place
        (a_reference shared ty) (iter_rest labels.entry) }
{
    while let Some(label) = labels.next() {
        if !fits_label(validator, resources, *label, place, shared, ty) {
            return false;
        }
    }
    true
}

/// The same of one label.
fn fits_label<R: WasmModuleResources>(
    validator: &OperatorValidator,
    resources: &R,
    label: u32,
    place: usize,
    shared: bool,
    ty: AbstractHeapType,
) -> bool
    ensures { IsTrue result ↔ FitsAt (labels_of (R.meaning resources.now) validator.now) place
        (a_reference shared ty) label }
{
    let Some((block_type, kind)) = validator.jump(label) else {
        return false;
    };
    let types = label_types(resources, &block_type, kind);
    if place >= types.len() {
        return false;
    }
    is_abstract_fit(resources, shared, ty, &types[types.len() - 1 - place])
}
