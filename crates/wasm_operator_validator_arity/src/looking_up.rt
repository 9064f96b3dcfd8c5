//! Numbers of operands that the module or the open frames determine.

ghost use Rattle.std.specs.Prelude.{◌≡◌, slice_get};
ghost use Rattle.wasm_operator_validator_rules.specs.arity.Arity.{type_counts, struct_size, block_counts, label_count, frame_counts, label_of_frame, outermost, results_alone};
ghost use Rattle.wasm_operator_validator_arity.specs.Knowing.{known_by, declared_counts, declared_size};

use crate::ModuleArity;
use crate::fixed::results_of;
use wasm_operator_validator_resources::{BlockType, FrameKind};
use wasm_types::{CompositeInnerType, SubType};

/// How many parameters and results a type has, if it is a function type.
pub(crate) fn function_counts(ty: &SubType) -> Option<(usize, usize)>
    ensures { result ≡ declared_counts ty.now.composite_type.inner }
{
    match &ty.composite_type.inner {
        CompositeInnerType::Func(signature) => {
            Some((signature.params().len(), signature.results().len()))
        }
        CompositeInnerType::Array(_) => None,
        CompositeInnerType::Struct(_) => None,
        CompositeInnerType::Cont(_) => None,
    }
}

/// How many fields a type has, if it is a struct type.
fn field_count(ty: &SubType) -> Option<usize>
    ensures { result ≡ declared_size ty.now.composite_type.inner }
{
    match &ty.composite_type.inner {
        CompositeInnerType::Struct(fields) => Some(fields.fields.as_slice().len()),
        CompositeInnerType::Func(_) => None,
        CompositeInnerType::Array(_) => None,
        CompositeInnerType::Cont(_) => None,
    }
}

/// How many parameters and results the function type at an index has.
#[tactic(auto, using(crate::proofs::Looking::counts_found, crate::proofs::Looking::counts_missing))]
pub(crate) fn type_counts<M: ModuleArity>(known: &M, type_index: u32) -> Option<(usize, usize)>
    ensures { result ≡ type_counts (slice_get (M.meaning known.now).«module».types type_index) }
{
    match known.sub_type_at(type_index) {
        Some(ty) => function_counts(ty),
        None => None,
    }
}

/// How many fields the struct type at an index has.
#[tactic(auto, using(crate::proofs::Looking::size_found, crate::proofs::Looking::size_missing))]
pub(crate) fn struct_size<M: ModuleArity>(known: &M, type_index: u32) -> Option<usize>
    ensures { result ≡ struct_size (slice_get (M.meaning known.now).«module».types type_index) }
{
    match known.sub_type_at(type_index) {
        Some(ty) => field_count(ty),
        None => None,
    }
}

/// How many parameters and results a function has.
#[tactic(auto, using(crate::proofs::Looking::callee_found, crate::proofs::Looking::callee_missing))]
pub(crate) fn callee_counts<M: ModuleArity>(
    known: &M,
    function_index: u32,
) -> Option<(usize, usize)>
    ensures { result ≡ type_counts (slice_get (M.meaning known.now).«module».functions function_index) }
{
    match known.type_index_of_function(function_index) {
        Some(type_index) => type_counts(known, type_index),
        None => None,
    }
}

/// How many parameters and results a block of this type has.
pub(crate) fn block_counts<M: ModuleArity>(known: &M, ty: &BlockType) -> Option<(usize, usize)>
    ensures { result ≡ block_counts (M.meaning known.now).«module» ty.now }
{
    match ty {
        BlockType::Empty => Some((0, 0)),
        BlockType::Val(_) => Some((0, 1)),
        BlockType::FuncType(type_index) => type_counts(known, *type_index),
    }
}

/// How many parameters and results the frame has that a label names.
pub(crate) fn frame_counts<M: ModuleArity>(known: &M, depth: u32) -> Option<(usize, usize)>
    ensures { result ≡ frame_counts (known_by (M.meaning known.now) (M.frames known.now)) depth }
{
    match known.label_block(depth) {
        Some((ty, _)) => block_counts(known, &ty),
        None => None,
    }
}

/// How many operands a branch to a label takes.
pub(crate) fn label_count<M: ModuleArity>(known: &M, depth: u32) -> Option<usize>
    ensures { result ≡ label_of_frame (known_by (M.meaning known.now) (M.frames known.now)) depth }
{
    match known.label_block(depth) {
        Some((ty, kind)) => match block_counts(known, &ty) {
            Some((params, results)) => Some(label_of_kind(kind, params, results)),
            None => None,
        },
        None => None,
    }
}

/// How many operands a branch takes to a frame of this kind with so many parameters and results.
fn label_of_kind(kind: FrameKind, params: usize, results: usize) -> usize
    ensures { result ≡ label_count kind (params, results) }
{
    match kind {
        FrameKind::Loop => params,
        FrameKind::Block | FrameKind::If | FrameKind::Else | FrameKind::TryTable => results,
        FrameKind::LegacyTry | FrameKind::LegacyCatch | FrameKind::LegacyCatchAll => results,
    }
}

/// How many results the outermost frame has.
pub(crate) fn outermost_results<M: ModuleArity>(known: &M) -> Option<usize>
    ensures { let k = known_by (M.meaning known.now) (M.frames known.now) in result ≡ results_alone
        (frame_counts k (outermost k)) }
{
    let height = known.control_stack_height();
    results_of(frame_counts(known, height.saturating_sub(1)))
}
