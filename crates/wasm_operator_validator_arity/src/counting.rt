//! Numbers of operands by group, where the module or the open frames determine some.

ghost use Rattle.std.specs.Prelude.{◌≡◌, ◌+◌, ◌-◌, ◌*◌, Option, option_map, option_and_then};
ghost use Rattle.wasm_operators_enums.specs.Op.{parametric_of, exception_of};
ghost use Rattle.wasm_operator_validator_rules.specs.arity.Arity.{in_u32, control_counts, parametric_counts, exception_counts, gc_counts, descriptor_counts};
ghost use Rattle.wasm_operator_validator_arity.specs.Knowing.{ended, known_by};

use crate::ModuleArity;
use crate::fixed::{
    calling, closing, in_u32, keeping, leaving, opening, params_of, results_of, sum_in_u32, turning,
};
use crate::looking_up::{
    block_counts, callee_counts, frame_counts, label_count, outermost_results, struct_size,
    type_counts,
};
use wasm_operators_visit::{
    ControlOperator, DescriptorOperator, ExceptionOperator, GcOperator, ParametricOperator,
};

/// Blocks, branches and calls.
pub(crate) fn control<M: ModuleArity>(known: &M, op: &ControlOperator<'_>) -> Option<(u32, u32)>
    ensures { result ≡ ended (control_counts (known_by (M.meaning known.now) (M.frames known.now)) op.now) }
{
    match op {
        ControlOperator::Unreachable => Some((0, 0)),
        ControlOperator::Nop => Some((0, 0)),
        ControlOperator::Block { blockty } => opening(0, block_counts(known, blockty)),
        ControlOperator::Loop { blockty } => opening(0, block_counts(known, blockty)),
        ControlOperator::If { blockty } => opening(1, block_counts(known, blockty)),
        ControlOperator::Else => turning(frame_counts(known, 0)),
        ControlOperator::End => closing(frame_counts(known, 0)),
        ControlOperator::Br { relative_depth } => leaving(0, label_count(known, *relative_depth)),
        ControlOperator::BrIf { relative_depth } => {
            keeping(1, 0, label_count(known, *relative_depth))
        }
        ControlOperator::BrTable { targets } => leaving(1, label_count(known, targets.default())),
        ControlOperator::Return => leaving(0, outermost_results(known)),
        ControlOperator::Call { function_index } => calling(
            0,
            callee_counts(known, *function_index),
        ),
        ControlOperator::CallIndirect { type_index, .. } => calling(
            1,
            type_counts(known, *type_index),
        ),
        ControlOperator::ReturnCall { function_index } => {
            leaving(0, params_of(callee_counts(known, *function_index)))
        }
        ControlOperator::ReturnCallIndirect { type_index, .. } => {
            leaving(1, params_of(type_counts(known, *type_index)))
        }
        ControlOperator::CallRef { type_index } => calling(1, type_counts(known, *type_index)),
        ControlOperator::ReturnCallRef { type_index } => {
            leaving(1, params_of(type_counts(known, *type_index)))
        }
        ControlOperator::RefAsNonNull => Some((1, 1)),
        ControlOperator::BrOnNull { relative_depth } => {
            keeping(1, 1, label_count(known, *relative_depth))
        }
        ControlOperator::BrOnNonNull { relative_depth } => {
            without_last(label_count(known, *relative_depth))
        }
    }
}

/// A branch that takes a reference with what its label takes, and keeps the rest.
fn without_last(count: Option<usize>) -> Option<(u32, u32)>
    ensures { result ≡ ended (option_map (λ n. (n, n - 1)) count) }
{
    match count {
        None => None,
        Some(count) => Some((in_u32(count), in_u32(count.saturating_sub(1)))),
    }
}

/// What takes operands of any type.
pub(crate) fn parametric(op: &ParametricOperator) -> Option<(u32, u32)>
    ensures { result ≡ ended (parametric_counts (parametric_of op.now)) }
{
    match op {
        ParametricOperator::Drop => Some((1, 0)),
        ParametricOperator::Select => Some((3, 1)),
        ParametricOperator::TypedSelect { ty: _ } => Some((3, 1)),
        ParametricOperator::TypedSelectMulti { tys } => Some(selected(tys.as_slice().len())),
    }
}

/// A choice between so many operands and as many others.
fn selected(count: usize) -> (u32, u32)
    ensures { result ≡ (in_u32 (2 * count + 1), in_u32 count) }
{
    (sum_in_u32(count.saturating_add(count), 1), in_u32(count))
}

/// Exceptions.
#[tactic(auto, using(crate::proofs::Parts::thrown_ended, crate::proofs::Parts::caught_ended))]
pub(crate) fn exception<M: ModuleArity>(known: &M, op: &ExceptionOperator) -> Option<(u32, u32)>
    ensures { result ≡ ended (exception_counts (known_by (M.meaning known.now) (M.frames known.now))
        (exception_of op.now)) }
{
    match op {
        ExceptionOperator::Try { blockty } => opening(0, block_counts(known, blockty)),
        ExceptionOperator::Catch { tag_index } => caught(
            known.tag_type_arity(*tag_index),
            results_of(frame_counts(known, 0)),
        ),
        ExceptionOperator::Throw { tag_index } => thrown(known.tag_type_arity(*tag_index)),
        ExceptionOperator::Rethrow { .. } => Some((0, 0)),
        ExceptionOperator::ThrowRef => Some((1, 0)),
        ExceptionOperator::Delegate { .. } => closing(frame_counts(known, 0)),
        ExceptionOperator::CatchAll => leaving(0, results_of(frame_counts(known, 0))),
        ExceptionOperator::TryTable { try_table } => opening(0, block_counts(known, &try_table.ty)),
    }
}

/// What a tag's parameters are taken for.
fn thrown(tag: Option<(u32, u32)>) -> Option<(u32, u32)>
    ensures { result ≡ option_map (λ n. (n.0, 0)) tag }
{
    match tag {
        None => None,
        Some((params, _)) => Some((params, 0)),
    }
}

/// Where a frame's results are taken, and a tag's parameters given.
fn caught(tag: Option<(u32, u32)>, results: Option<usize>) -> Option<(u32, u32)>
    ensures { result ≡ option_and_then (λ n. option_map (λ r. (in_u32 r, n.0)) results) tag }
{
    let Some((params, _)) = tag else {
        return None;
    };
    match results {
        None => None,
        Some(results) => Some((in_u32(results), params)),
    }
}

/// Structs, arrays, casts and `i31`.
pub(crate) fn gc<M: ModuleArity>(known: &M, op: &GcOperator) -> Option<(u32, u32)>
    ensures { result ≡ ended (gc_counts (known_by (M.meaning known.now) (M.frames known.now)) op.now) }
{
    match op {
        GcOperator::StructNew { struct_type_index } => made_of(struct_size(
            known,
            *struct_type_index,
        )),
        GcOperator::ArrayNewFixed { array_size, .. } => Some((*array_size, 1)),
        GcOperator::BrOnCast { relative_depth, .. } => keeping(
            0,
            0,
            label_count(known, *relative_depth),
        ),
        GcOperator::BrOnCastFail { relative_depth, .. } => keeping(
            0,
            0,
            label_count(known, *relative_depth),
        ),
        GcOperator::StructNewDefault { .. } => Some((0, 1)),
        GcOperator::StructGet { .. }
        | GcOperator::StructGetS { .. }
        | GcOperator::StructGetU { .. }
        | GcOperator::ArrayNewDefault { .. }
        | GcOperator::ArrayLen
        | GcOperator::RefTestNonNull { .. }
        | GcOperator::RefTestNullable { .. }
        | GcOperator::RefCastNonNull { .. }
        | GcOperator::RefCastNullable { .. }
        | GcOperator::AnyConvertExtern
        | GcOperator::ExternConvertAny
        | GcOperator::RefI31
        | GcOperator::I31GetS
        | GcOperator::I31GetU => Some((1, 1)),
        GcOperator::StructSet { .. } => Some((2, 0)),
        GcOperator::RefEq
        | GcOperator::ArrayNew { .. }
        | GcOperator::ArrayNewData { .. }
        | GcOperator::ArrayNewElem { .. }
        | GcOperator::ArrayGet { .. }
        | GcOperator::ArrayGetS { .. }
        | GcOperator::ArrayGetU { .. } => Some((2, 1)),
        GcOperator::ArraySet { .. } => Some((3, 0)),
        GcOperator::ArrayFill { .. }
        | GcOperator::ArrayInitData { .. }
        | GcOperator::ArrayInitElem { .. } => Some((4, 0)),
        GcOperator::ArrayCopy { .. } => Some((5, 0)),
    }
}

/// A struct made of its fields, and so many more operands.
fn made(more: usize, fields: Option<usize>) -> Option<(u32, u32)>
    ensures { result ≡ ended (option_map (λ n. (n + more, 1)) fields) }
{
    match fields {
        None => None,
        Some(fields) => Some((sum_in_u32(fields, more), 1)),
    }
}

/// A struct made of its fields.
fn made_of(fields: Option<usize>) -> Option<(u32, u32)>
    ensures { result ≡ ended (option_map (λ n. (n, 1)) fields) }
{
    match fields {
        None => None,
        Some(fields) => Some((in_u32(fields), 1)),
    }
}

/// Structs with descriptors.
pub(crate) fn descriptor<M: ModuleArity>(known: &M, op: &DescriptorOperator) -> Option<(u32, u32)>
    ensures { result ≡ ended (descriptor_counts (known_by (M.meaning known.now) (M.frames known.now)) op.now) }
{
    match op {
        DescriptorOperator::StructNewDesc { struct_type_index } => {
            made(1, struct_size(known, *struct_type_index))
        }
        DescriptorOperator::StructNewDefaultDesc { .. } => Some((1, 1)),
        DescriptorOperator::RefGetDesc { .. } => Some((1, 1)),
        DescriptorOperator::RefCastDescEqNonNull { .. } => Some((2, 1)),
        DescriptorOperator::RefCastDescEqNullable { .. } => Some((2, 1)),
        DescriptorOperator::BrOnCastDescEq { relative_depth, .. } => {
            keeping(1, 0, label_count(known, *relative_depth))
        }
        DescriptorOperator::BrOnCastDescEqFail { relative_depth, .. } => {
            keeping(1, 0, label_count(known, *relative_depth))
        }
    }
}
