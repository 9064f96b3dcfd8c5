//! What indices in types mean: those of the module, and ids of types that are known once and for all. An index that names nothing means a
//! type of no group, a function from nothing to nothing.

ghost use Rattle.std.specs.Prelude.{◌≡◌, MatchOption, MatchResult, Bool, None, Some, option_map};
ghost use Rattle.wasm_types.specs.Kinds.{cont_in};
ghost use Rattle.wasm_types.specs.trees.Types.{concrete, continuation, ref};
ghost use Rattle.wasm_types.specs.trees.Trees.{TypeTree, opened, past_the_end};
ghost use Rattle.wasm_types.specs.trees.Below.{expanded};
ghost use Rattle.wasm_operator_validator_rules.specs.Context.{Signature, IsFunctionType};
ghost use Rattle.wasm_operator_validator_rules.specs.Named.{used_type};
ghost use Rattle.wasm_operator_validator_rules.specs.Descriptors.{of_type};
ghost use Rattle.wasm_operator_validator_rules.specs.Continuations.{IsContinuation, IsContinuationType};
ghost use Rattle.wasm_operator_validator_resources.specs.Meaning.{Meaning, entry_in, named_type, type_in};
ghost use Rattle.wasm_operator_validator_objects.specs.Rows.{here};
ghost use Rattle.wasm_operator_validator_objects.specs.Found.{TypeAt};
ghost use Rattle.wasm_operator_validator_proposals.specs.Named.{signature, IsTagIn, IsDescribedAt, described_at};

use wasm_operator_validator_control::function_of;
use wasm_operator_validator_objects::used_type;
use wasm_operator_validator_stacks::determined::{
    OperatorValidator, Reason, Refusal, Space, WasmModuleResources,
};
use wasm_types::{
    CompositeInnerType, FuncType, HeapType, PackedIndex, RefType, SubType, UnpackedIndex, ValType,
};

// The type at an index of the module, if there is one.
fn listed_type<R: WasmModuleResources>(resources: &R, at: u32) -> Option<&SubType>
    ensures { MatchOption result (opened (TypeAt (R.meaning resources.now) at) ≡ past_the_end)
        (λ t. entry_in (R.meaning resources.now) t.now ≡ opened (TypeAt (R.meaning resources.now) at)) }
{
    match resources.sub_type_at(at) {
        Some(sub_type) => Some(sub_type),
        None => None,
    }
}

/// The type that an index means, if it means one.
pub(crate) fn named_type<R: WasmModuleResources>(
    resources: &R,
    index: UnpackedIndex,
) -> Option<&SubType>
    ensures { MatchOption result (opened (named_type (R.meaning resources.now) index) ≡ past_the_end)
        (λ t. entry_in (R.meaning resources.now) t.now ≡ opened (named_type (R.meaning resources.now) index)) }
{
    match index {
        UnpackedIndex::Module(at) => listed_type(resources, at),
        UnpackedIndex::RecGroup(at) => listed_type(resources, at),
        UnpackedIndex::Id(id) => {
            if !resources.knows_id(id) {
                return None;
            }
            Some(resources.sub_type_at_id(id))
        }
    }
}

/// What the function takes and gives that an index means, if it is one.
pub(crate) fn function_named<R: WasmModuleResources>(
    resources: &R,
    index: UnpackedIndex,
) -> Option<(&[ValType], &[ValType])>
    ensures { MatchOption result ((b : Signature) → IsFunctionType (named_type (R.meaning resources.now) index) b → ⊥)
        (λ p. IsFunctionType (named_type (R.meaning resources.now) index)
        (signature (R.meaning resources.now) p.0.now p.1.now)) }
{
    let sub_type = match named_type(resources, index) {
        Some(sub_type) => sub_type,
        None => return Some((&[], &[])),
    };
    match function_of(sub_type) {
        Some(function) => Some((function.params(), function.results())),
        None => None,
    }
}

// The function that a type goes on with, if it is a continuation.
fn continuation_of(sub_type: &SubType) -> Option<PackedIndex>
    ensures { result ≡ option_map (λ c. c.0) (cont_in sub_type.now.composite_type.inner) }
{
    match &sub_type.composite_type.inner {
        CompositeInnerType::Cont(continuation) => Some(continuation.0),
        CompositeInnerType::Func(_) => None,
        CompositeInnerType::Array(_) => None,
        CompositeInnerType::Struct(_) => None,
    }
}

/// The function of the continuation type at an index, by its index.
pub(crate) fn continued_at<R: WasmModuleResources>(
    validator: &OperatorValidator,
    resources: &R,
    type_index: u32,
) -> Result<PackedIndex, Refusal>
    ensures { MatchResult result (λ i. (used_type (here (R.meaning resources.now) validator.now) type_index
        ≡ Some (TypeAt (R.meaning resources.now) type_index))
        × (expanded (TypeAt (R.meaning resources.now) type_index) ≡ continuation (named_type (R.meaning resources.now) i)))
        (λ r. (t f : TypeTree) → used_type (here (R.meaning resources.now) validator.now) type_index ≡ Some t
        → expanded t ≡ continuation f → ⊥) }
{
    let sub_type = match used_type(validator, resources, type_index) {
        Ok(sub_type) => sub_type,
        Err(refusal) => return Err(refusal),
    };
    match continuation_of(sub_type) {
        Some(function) => Ok(function),
        None => Err(Refusal::Unknown {
            space: Space::ContinuationType,
            index: type_index,
        }),
    }
}

/// What the continuation type at an index takes and gives.
pub(crate) fn continuation_at<'a, R: WasmModuleResources>(
    validator: &OperatorValidator,
    resources: &'a R,
    type_index: u32,
) -> Result<(&'a [ValType], &'a [ValType]), Refusal>
    ensures { MatchResult result (λ p. IsContinuation (here (R.meaning resources.now) validator.now) type_index
        (TypeAt (R.meaning resources.now) type_index) (signature (R.meaning resources.now) p.0.now p.1.now))
        (λ r. (t : TypeTree) → (b : Signature)
        → IsContinuation (here (R.meaning resources.now) validator.now) type_index t b → ⊥) }
{
    let function = match continued_at(validator, resources, type_index) {
        Ok(function) => function,
        Err(refusal) => return Err(refusal),
    };
    match function_named(resources, function.unpack()) {
        Some(found) => Ok(found),
        None => Err(Refusal::Unknown {
            space: Space::ContinuationType,
            index: type_index,
        }),
    }
}

/// What the continuation takes and gives that a reference is to, whose type names it, but not exactly.
pub(crate) fn continuation_in<'a, R: WasmModuleResources>(
    resources: &'a R,
    ty: &ValType,
) -> Option<(&'a [ValType], &'a [ValType])>
    ensures { MatchOption result ((n : Bool) → (t : TypeTree) → (b : Signature)
        → type_in (R.meaning resources.now) ty.now ≡ ref n (concrete t) → IsContinuationType t b → ⊥)
        (λ p. (n : Bool) × (t : TypeTree) × (type_in (R.meaning resources.now) ty.now ≡ ref n (concrete t))
        × IsContinuationType t (signature (R.meaning resources.now) p.0.now p.1.now)) }
{
    let reference = match ty.as_reference_type() {
        Some(reference) => reference,
        None => return None,
    };
    let index = match reference.heap_type() {
        HeapType::Concrete(index) => index,
        HeapType::Exact(_) => return None,
        HeapType::Abstract { shared: _, ty: _ } => return None,
    };
    let sub_type = match named_type(resources, index) {
        Some(sub_type) => sub_type,
        None => return None,
    };
    let function = match continuation_of(sub_type) {
        Some(function) => function,
        None => return None,
    };
    function_named(resources, function.unpack())
}

/// The function type of the tag at an index.
pub(crate) fn tag_at<R: WasmModuleResources>(
    resources: &R,
    tag_index: u32,
) -> Result<&FuncType, Refusal>
    ensures { MatchResult result (λ f. IsTagIn (R.meaning resources.now) tag_index
        (signature (R.meaning resources.now) f.now.params f.now.results)) (λ r. (b : Signature)
        → IsTagIn (R.meaning resources.now) tag_index b → ⊥) }
{
    match resources.tag_at(tag_index) {
        Some(tag) => Ok(tag),
        None => Err(Refusal::Unknown {
            space: Space::Tag,
            index: tag_index,
        }),
    }
}

/// A reference to what an index means, or exactly to it.
pub(crate) fn reference_to(nullable: bool, exactly: bool, index: PackedIndex) -> ValType
    ensures { (m : Meaning) → type_in m result ≡ ref nullable (of_type exactly (named_type m index)) }
{
    if exactly {
        return ValType::Ref(RefType::exact(nullable, index));
    }
    ValType::Ref(RefType::concrete(nullable, index))
}

/// What describes the type at an index, by its index.
pub(crate) fn descriptor_at<R: WasmModuleResources>(
    validator: &OperatorValidator,
    resources: &R,
    type_index: u32,
) -> Result<PackedIndex, Refusal>
    ensures { MatchResult result (λ d. IsDescribedAt (R.meaning resources.now) validator.now type_index d)
        (λ r. described_at (R.meaning resources.now) validator.now type_index ≡ None) }
{
    let sub_type = match used_type(validator, resources, type_index) {
        Ok(sub_type) => sub_type,
        Err(refusal) => return Err(refusal),
    };
    match sub_type.composite_type.descriptor_idx {
        Some(descriptor) => Ok(descriptor),
        None => Err(Refusal::Because(Reason::NoDescriptor)),
    }
}
