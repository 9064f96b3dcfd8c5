//! Structs with descriptors, and casts by what describes a struct (the proposal on custom descriptors).

ghost use Rattle.std.specs.Prelude.{◌≡◌, MatchOption, None, option_map};
ghost use Rattle.wasm_types.specs.trees.Trees.{opened};
ghost use Rattle.wasm_operators_enums.specs.Op.{Op};
ghost use Rattle.wasm_operator_validator_rules.specs.Descriptors.{descriptor_of};
ghost use Rattle.wasm_operator_validator_resources.specs.Meaning.{heap_in, named_type};
ghost use Rattle.wasm_operator_validator_state.specs.Refusals.{refused};
ghost use Rattle.wasm_operator_validator_state.specs.State.{Checks};
ghost use Rattle.wasm_operator_validator_proposals.specs.Descriptors.{CastsBy, BranchesOnCastBy, DescribesBy};

use crate::naming::{descriptor_at, named_type, reference_to};
use crate::steps::{exchange_fields, exchange_last};
use wasm_operator_validator_control::label_types;
use wasm_operator_validator_objects::{
    allocated, are_defaultable, cast_of, castable_top, heap_at, reference_at, split_label,
    struct_at, taken_and_left,
};
use wasm_operator_validator_stacks::determined::{
    OperatorValidator, Proposal, Reason, Refusal, WasmModuleResources, is_fit,
};
use wasm_operators_visit::DescriptorOperator;
use wasm_types::{HeapType, PackedIndex, RefType, UnpackedIndex, ValType};

/// `struct.new_desc`, of a struct with a descriptor, which lies above its fields.
pub fn check_struct_new_desc<R: WasmModuleResources>(
    validator: &mut OperatorValidator,
    resources: &R,
    type_index: u32,
) -> Result<(), Refusal>
    ensures { Checks (R.meaning resources.now) validator.old
        (Op.Descriptor (DescriptorOperator.StructNewDesc type_index)) (refused result) validator.new }
{
    match validator.begin(Proposal::CustomDescriptors, false) {
        Ok(()) => (),
        Err(refusal) => return Err(refusal),
    }
    let (fields, _described) = match struct_at(validator, resources, type_index) {
        Ok(found) => found,
        Err(refusal) => return Err(refusal),
    };
    let descriptor = match descriptor_at(validator, resources, type_index) {
        Ok(descriptor) => descriptor,
        Err(refusal) => return Err(refusal),
    };
    let by = reference_to(true, true, descriptor);
    let made = allocated(validator, resources, type_index);
    exchange_fields(validator, resources, fields, &by, &made)
}

/// `struct.new_default_desc`, of a struct with a descriptor whose fields all have default values.
pub fn check_struct_new_default_desc<R: WasmModuleResources>(
    validator: &mut OperatorValidator,
    resources: &R,
    type_index: u32,
) -> Result<(), Refusal>
    ensures { Checks (R.meaning resources.now) validator.old
        (Op.Descriptor (DescriptorOperator.StructNewDefaultDesc type_index)) (refused result) validator.new }
{
    match validator.begin(Proposal::CustomDescriptors, false) {
        Ok(()) => (),
        Err(refusal) => return Err(refusal),
    }
    let (fields, _described) = match struct_at(validator, resources, type_index) {
        Ok(found) => found,
        Err(refusal) => return Err(refusal),
    };
    let descriptor = match descriptor_at(validator, resources, type_index) {
        Ok(descriptor) => descriptor,
        Err(refusal) => return Err(refusal),
    };
    if !are_defaultable(fields) {
        return Err(Refusal::Because(Reason::NotDefaultable));
    }
    let by = reference_to(true, true, descriptor);
    let made = allocated(validator, resources, type_index);
    validator.exchange(resources, &[by], &[made])
}

/// `ref.get_desc`: what describes the operand is exactly of its type where the operand is.
pub fn check_ref_get_desc<R: WasmModuleResources>(
    validator: &mut OperatorValidator,
    resources: &R,
    type_index: u32,
) -> Result<(), Refusal>
    ensures { Checks (R.meaning resources.now) validator.old
        (Op.Descriptor (DescriptorOperator.RefGetDesc type_index)) (refused result) validator.new }
{
    match validator.begin(Proposal::CustomDescriptors, false) {
        Ok(()) => (),
        Err(refusal) => return Err(refusal),
    }
    let descriptor = match descriptor_at(validator, resources, type_index) {
        Ok(descriptor) => descriptor,
        Err(refusal) => return Err(refusal),
    };
    let found = match validator.pop_any() {
        Ok(found) => found,
        Err(refusal) => return Err(refusal),
    };
    let exact = reference_at(resources, type_index, true, true);
    if is_fit(resources, &found, &exact) {
        let by = reference_to(false, true, descriptor);
        return validator.push_operands(resources, &[by]);
    }
    let declared = reference_at(resources, type_index, true, false);
    if !is_fit(resources, &found, &declared) {
        return Err(Refusal::TypeMismatch {
            expected: declared,
            found,
        });
    }
    let by = reference_to(false, false, descriptor);
    validator.push_operands(resources, &[by])
}

// What describes the type at an index, if something does.
fn described_by<R: WasmModuleResources>(resources: &R, heap_type: HeapType) -> Option<ValType>
    ensures { MatchOption result (descriptor_of (heap_in (R.meaning resources.now) heap_type) ≡ None)
        (λ t. DescribesBy (R.meaning resources.now) heap_type t) }
{
    match heap_type {
        HeapType::Abstract { shared: _, ty: _ } => None,
        HeapType::Concrete(index) => match descriptor_named(resources, index) {
            Some(descriptor) => Some(reference_to(true, false, descriptor)),
            None => None,
        },
        HeapType::Exact(index) => match descriptor_named(resources, index) {
            Some(descriptor) => Some(reference_to(true, true, descriptor)),
            None => None,
        },
    }
}

// What describes the type that an index means, by its index.
fn descriptor_named<R: WasmModuleResources>(
    resources: &R,
    index: UnpackedIndex,
) -> Option<PackedIndex>
    ensures { option_map (named_type (R.meaning resources.now)) result
        ≡ (opened (named_type (R.meaning resources.now) index)).descriptor }
{
    match named_type(resources, index) {
        Some(sub_type) => sub_type.composite_type.descriptor_idx,
        None => None,
    }
}

/// `ref.cast_desc_eq`, whatever other features there are.
pub fn check_ref_cast_desc_eq<R: WasmModuleResources>(
    validator: &mut OperatorValidator,
    resources: &R,
    op: DescriptorOperator,
    heap_type: &HeapType,
    nullable: bool,
) -> Result<(), Refusal>
    requires { CastsBy op heap_type.now nullable }
    ensures { Checks (R.meaning resources.now) validator.old (Op.Descriptor op) (refused result) validator.new }
{
    let _op = op;
    match validator.begin(Proposal::CustomDescriptors, false) {
        Ok(()) => (),
        Err(refusal) => return Err(refusal),
    }
    let named = match heap_at(validator, resources, nullable, heap_type) {
        Ok(named) => named,
        Err(refusal) => return Err(refusal),
    };
    let top = match castable_top(resources, &named) {
        Some(top) => top,
        None => return Err(Refusal::Because(Reason::NotCastable)),
    };
    let by = match described_by(resources, named.heap_type()) {
        Some(by) => by,
        None => return Err(Refusal::Because(Reason::NoDescriptor)),
    };
    validator.exchange(resources, &[top, by], &[ValType::Ref(named)])
}

/// `br_on_cast_desc_eq` and `br_on_cast_desc_eq_fail`: what describes the second type lies on top; the label takes what was cast, or what
/// was not, on top of others, which stay.
pub fn check_br_on_cast_desc_eq<R: WasmModuleResources>(
    validator: &mut OperatorValidator,
    resources: &R,
    op: DescriptorOperator,
    relative_depth: u32,
    from: &RefType,
    to: &RefType,
    fails: bool,
) -> Result<(), Refusal>
    requires { BranchesOnCastBy op relative_depth from.now to.now fails }
    ensures { Checks (R.meaning resources.now) validator.old (Op.Descriptor op) (refused result) validator.new }
{
    let _op = op;
    match validator.begin(Proposal::CustomDescriptors, false) {
        Ok(()) => (),
        Err(refusal) => return Err(refusal),
    }
    let (first, second) = match cast_of(validator, resources, from, to) {
        Ok(cast) => cast,
        Err(refusal) => return Err(refusal),
    };
    let by = match described_by(resources, second.heap_type()) {
        Some(by) => by,
        None => return Err(Refusal::Because(Reason::NoDescriptor)),
    };
    let (block_type, kind) = match validator.jump(relative_depth) {
        Some(frame) => frame,
        None => return Err(Refusal::UnknownLabel),
    };
    let types = label_types(resources, &block_type, kind);
    let (last, others) = match split_label(types) {
        Some(split) => split,
        None => return Err(Refusal::Because(Reason::NoCastLabel)),
    };
    let (taken, left) = taken_and_left(&first, &second, fails);
    if !resources.is_subtype(taken, last) {
        return Err(Refusal::Because(Reason::CastLabel));
    }
    exchange_last(
        validator,
        resources,
        others,
        &[ValType::Ref(first), by],
        &left,
    )
}
