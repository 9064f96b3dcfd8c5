//! Numbers of operands of operators on continuations (the proposal on stack switching).
//!
//! A continuation names the type of the function that it goes on with by any index, and so does a reference to a continuation. An index
//! that names no type is, in the rules, of a function from nothing to nothing.

ghost use Rattle.std.specs.Prelude.{◌≡◌, ◌+◌, ◌-◌, option_map, option_and_then, slice_get, map};
ghost use Rattle.wasm_types.specs.trees.Types.{value_map};
ghost use Rattle.wasm_types.specs.trees.Trees.{opened};
ghost use Rattle.wasm_types.specs.trees.Below.{expanded};
ghost use Rattle.wasm_types.specs.values.Values.{value_of};
ghost use Rattle.wasm_operator_validator_resources.specs.Meaning.{entry_in, function_in, named_type};
ghost use Rattle.wasm_operators_enums.specs.Op.{continuation_of};
ghost use Rattle.wasm_operator_validator_rules.specs.arity.Arity.{in_u32, type_counts, continuation_counts, continuation_operator_counts, switch_counts, last_referred, resumed};
ghost use Rattle.wasm_operator_validator_arity.specs.Knowing.{ended, known_by, function_resumed, heap_named, index_resumed, type_referred};

use crate::ModuleArity;
use crate::answering::function_of;
use crate::fixed::{calling, in_u32, params_of, sum_in_u32};
use crate::looking_up::function_counts;
use wasm_operators_visit::ContinuationOperator;
use wasm_types::{
    CompositeInnerType, FuncType, HeapType, RefType, SubType, UnpackedIndex, ValType,
};

/// The index of the type that a continuation goes on with.
fn index_resumed(ty: &SubType) -> Option<UnpackedIndex>
    ensures { result ≡ index_resumed ty.now.composite_type.inner }
{
    match &ty.composite_type.inner {
        CompositeInnerType::Cont(continuation) => Some(continuation.0.unpack()),
        CompositeInnerType::Func(_) => None,
        CompositeInnerType::Array(_) => None,
        CompositeInnerType::Struct(_) => None,
    }
}

/// How many parameters and results the function has that a continuation of this type goes on with.
#[tactic(auto, using(crate::proofs::Continuing::nothing_resumed, crate::proofs::Continuing::unknown_counted, crate::proofs::Continuing::resumed_counted))]
fn counts_resumed<M: ModuleArity>(known: &M, ty: &SubType) -> Option<(usize, usize)>
    ensures { result ≡ type_counts (resumed (entry_in (M.meaning known.now) ty.now).inner) }
{
    let Some(index) = index_resumed(ty) else {
        return None;
    };
    let Some(function) = known.sub_type_named(index) else {
        return Some((0, 0));
    };
    function_counts(function)
}

/// The function that a continuation of this type goes on with, if its index names one.
#[tactic(auto, using(crate::proofs::Continuing::no_index, crate::proofs::Continuing::no_function))]
fn function_resumed<'a, M: ModuleArity>(known: &'a M, ty: &SubType) -> Option<&'a FuncType>
    ensures { option_map (λ f. function_in (M.meaning known.now) f.now) result ≡ function_resumed
        (M.meaning known.now) ty.now.composite_type.inner }
{
    let Some(index) = index_resumed(ty) else {
        return None;
    };
    let Some(function) = known.sub_type_named(index) else {
        return None;
    };
    function_of(function)
}

/// How many parameters and results the function has that a continuation goes on with, of the type at an index of the module.
#[tactic(auto, using(crate::proofs::Continuing::continuation_counted, crate::proofs::Continuing::continuation_missing))]
fn continuation_counts<M: ModuleArity>(known: &M, type_index: u32) -> Option<(usize, usize)>
    ensures { result ≡ continuation_counts (slice_get (M.meaning known.now).«module».types type_index) }
{
    let Some(ty) = known.sub_type_at(type_index) else {
        return None;
    };
    counts_resumed(known, ty)
}

/// The type that a reference refers to, if that is a defined type.
fn heap_named<'a, M: ModuleArity>(known: &'a M, ty: &RefType) -> Option<&'a SubType>
    ensures { option_map (λ t. entry_in (M.meaning known.now) t.now) result ≡ option_map opened
        (heap_named (M.meaning known.now) ty.now.heap) }
{
    match ty.heap_type() {
        HeapType::Abstract { .. } => None,
        HeapType::Concrete(index) => known.sub_type_named(index),
        HeapType::Exact(index) => known.sub_type_named(index),
    }
}

/// The type that a value refers to, if it is a reference to a defined type.
fn type_referred<'a, M: ModuleArity>(known: &'a M, ty: &ValType) -> Option<&'a SubType>
    ensures { option_map (λ t. entry_in (M.meaning known.now) t.now) result ≡ option_map opened
        (type_referred (M.meaning known.now) ty.now) }
{
    match ty {
        ValType::Ref(reference) => heap_named(known, reference),
        ValType::I32 | ValType::I64 | ValType::F32 | ValType::F64 | ValType::V128 => None,
    }
}

/// How many parameters the continuation takes to which the last of these types refers.
#[tactic(auto, using(crate::proofs::Continuing::last_unknown, crate::proofs::Continuing::no_last))]
fn taken_by_last<M: ModuleArity>(known: &M, types: &[ValType]) -> Option<usize>
    ensures { result ≡ option_map (λ d. d.0) (continuation_counts
        (last_referred (map (value_map (named_type (M.meaning known.now))) (map value_of types.now)))) }
{
    let Some(last) = types.last() else {
        return None;
    };
    let Some(ty) = type_referred(known, last) else {
        return None;
    };
    params_of(counts_resumed(known, ty))
}

/// What a switch to a continuation of the type at an index takes and gives.
#[tactic(auto, using(crate::proofs::Switching::switch_missing))]
fn switched<M: ModuleArity>(known: &M, type_index: u32) -> Option<(u32, u32)>
    ensures { result ≡ ended (option_and_then (λ g. switch_counts (expanded g))
        (option_and_then (λ u. resumed (expanded u)) (slice_get (M.meaning known.now).«module».types type_index))) }
{
    let Some(ty) = known.sub_type_at(type_index) else {
        return None;
    };
    let Some(function) = function_resumed(known, ty) else {
        return None;
    };
    let Some(given) = taken_by_last(known, function.params()) else {
        return None;
    };
    Some((in_u32(function.params().len()), in_u32(given)))
}

/// A continuation bound to its first operands: what the one takes that the other does not, and the continuation, for the other.
fn bound(from: Option<(usize, usize)>, to: Option<(usize, usize)>) -> Option<(u32, u32)>
    ensures { result ≡ ended (option_and_then (λ c. option_map (λ d. (c.0 - d.0 + 1, 1)) to) from) }
{
    let Some((params, _)) = from else {
        return None;
    };
    let Some((left, _)) = to else {
        return None;
    };
    Some((sum_in_u32(params.saturating_sub(left), 1), 1))
}

/// A continuation resumed with an exception: what its tag takes and the continuation, for what that gives.
fn thrown_into(continuation: Option<(usize, usize)>, tag: Option<(u32, u32)>) -> Option<(u32, u32)>
    ensures { result ≡ option_and_then (λ c. option_map (λ d. (in_u32 (d.0 + 1), in_u32 c.1)) tag) continuation }
{
    let Some((_, results)) = continuation else {
        return None;
    };
    let Some((params, _)) = tag else {
        return None;
    };
    Some((sum_in_u32(params as usize, 1), in_u32(results)))
}

/// The same with an exception by reference.
fn thrown_by_reference(continuation: Option<(usize, usize)>) -> Option<(u32, u32)>
    ensures { result ≡ ended (option_map (λ c. (2, c.1)) continuation) }
{
    let Some((_, results)) = continuation else {
        return None;
    };
    Some((2, in_u32(results)))
}

/// Operators on continuations.
#[tactic(auto, using(crate::proofs::Parts::bound_counted, crate::proofs::Parts::thrown_counted))]
pub(crate) fn continuation<M: ModuleArity>(
    known: &M,
    op: &ContinuationOperator,
) -> Option<(u32, u32)>
    ensures { result ≡ ended (continuation_operator_counts (known_by (M.meaning known.now) (M.frames known.now))
        (continuation_of op.now)) }
{
    match op {
        ContinuationOperator::ContNew { .. } => Some((1, 1)),
        ContinuationOperator::ContBind {
            argument_index,
            result_index,
        } => bound(
            continuation_counts(known, *argument_index),
            continuation_counts(known, *result_index),
        ),
        ContinuationOperator::Suspend { tag_index } => known.tag_type_arity(*tag_index),
        ContinuationOperator::Resume {
            cont_type_index,
            ..
        } => { calling(1, continuation_counts(known, *cont_type_index)) }
        ContinuationOperator::ResumeThrow {
            cont_type_index,
            tag_index,
            ..
        } => thrown_into(
            continuation_counts(known, *cont_type_index),
            known.tag_type_arity(*tag_index),
        ),
        ContinuationOperator::ResumeThrowRef {
            cont_type_index,
            ..
        } => { thrown_by_reference(continuation_counts(known, *cont_type_index)) }
        ContinuationOperator::Switch {
            cont_type_index,
            ..
        } => switched(known, *cont_type_index),
    }
}
