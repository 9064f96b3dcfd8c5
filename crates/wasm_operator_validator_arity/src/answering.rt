//! What a [`ModuleArity`](crate::ModuleArity) over look-ups of a module answers.

ghost use Rattle.std.specs.Prelude.{◌≡◌, option_map, slice_get};
ghost use Rattle.wasm_types.specs.Kinds.{func_in};
ghost use Rattle.wasm_types.specs.trees.Trees.{opened};
ghost use Rattle.wasm_operator_validator_resources.specs.Meaning.{Meaning, entry_in, function_in};
ghost use Rattle.wasm_operator_validator_rules.specs.arity.Arity.{type_counts};
ghost use Rattle.wasm_operator_validator_arity.specs.Knowing.{ended, function_by_id, type_by_id, type_named, type_of_heap};

use crate::fixed::in_u32;
use wasm_operator_validator_resources::WasmModuleResources;
use wasm_types::{
    CompositeInnerType, ContType, FuncType, HeapType, RefType, SubType, UnpackedIndex,
};

/// How many parameters and results the tag at an index has.
#[tactic(auto, using(crate::proofs::ById::tag_found, crate::proofs::ById::tag_missing))]
pub fn tag_type_arity<R: WasmModuleResources>(resources: &R, tag_index: u32) -> Option<(u32, u32)>
    ensures { result ≡ ended (type_counts (slice_get (R.meaning resources.now).«module».tags tag_index)) }
{
    let Some(tag) = resources.tag_at(tag_index) else {
        return None;
    };
    Some((in_u32(tag.params().len()), in_u32(tag.results().len())))
}

/// The type that an index names, if it is the id of one.
#[tactic(auto, using(crate::proofs::ById::named_found, crate::proofs::ById::named_unknown, crate::proofs::ById::named_otherwise))]
fn sub_type_by_id<R: WasmModuleResources>(resources: &R, index: UnpackedIndex) -> Option<&SubType>
    ensures { option_map (λ t. entry_in (R.meaning resources.now) t.now) result ≡ option_map opened
        (type_by_id (R.meaning resources.now) index) }
{
    let Some(id) = index.as_core_type_id() else {
        return None;
    };
    if !resources.knows_id(id) {
        return None;
    }
    Some(resources.sub_type_at_id(id))
}

/// The type that an index names: by its id, or else by its index in the module.
pub fn sub_type_named<R: WasmModuleResources>(
    resources: &R,
    index: UnpackedIndex,
) -> Option<&SubType>
    ensures { option_map (λ t. entry_in (R.meaning resources.now) t.now) result ≡ option_map opened
        (type_named (R.meaning resources.now) index) }
{
    match index {
        UnpackedIndex::Module(at) => resources.sub_type_at(at),
        UnpackedIndex::RecGroup(at) => resources.sub_type_at(at),
        UnpackedIndex::Id(_) => sub_type_by_id(resources, index),
    }
}

/// The function type that a type is, if it is one.
pub(crate) fn function_of(ty: &SubType) -> Option<&FuncType>
    ensures { option_map (λ f. f.now) result ≡ func_in ty.now.composite_type.inner }
{
    match &ty.composite_type.inner {
        CompositeInnerType::Func(function) => Some(function),
        CompositeInnerType::Array(_) => None,
        CompositeInnerType::Struct(_) => None,
        CompositeInnerType::Cont(_) => None,
    }
}

/// The function type of a continuation, if it is named by the id of one.
#[tactic(auto, using(crate::proofs::ById::function_missing))]
pub fn func_type_of_cont_type<'a, R: WasmModuleResources>(
    resources: &'a R,
    ty: &ContType,
) -> Option<&'a FuncType>
    ensures { option_map (λ f. function_in (R.meaning resources.now) f.now) result ≡ function_by_id
        (R.meaning resources.now) ty.now.0 }
{
    let Some(ty) = sub_type_by_id(resources, ty.0.unpack()) else {
        return None;
    };
    function_of(ty)
}

/// The type that a reference refers to, if it is named by its id.
pub fn sub_type_of_ref_type<'a, R: WasmModuleResources>(
    resources: &'a R,
    ty: &RefType,
) -> Option<&'a SubType>
    ensures { option_map (λ t. entry_in (R.meaning resources.now) t.now) result ≡ option_map opened
        (type_of_heap (R.meaning resources.now) ty.now.heap) }
{
    match ty.heap_type() {
        HeapType::Abstract { .. } => None,
        HeapType::Concrete(index) => sub_type_by_id(resources, index),
        HeapType::Exact(index) => sub_type_by_id(resources, index),
    }
}
