//! The visit that belongs to an operator.

ghost use Rattle.wasm_operators_enums.specs.Op.{Op, parametric_of, exception_of, continuation_of};

use crate::control::VisitControl;
use crate::{ContinuationOperator, ControlOperator, ExceptionOperator, ParametricOperator};

/// Tells a visitor of this block, branch or call, by the visit that belongs to it.
#[inline]
pub fn visit_control<'a, V: VisitControl<'a>>(visitor: &mut V, op: ControlOperator<'a>) -> V::Output
    ensures { V.visits visitor.old (Op.Control op.entry) result visitor.new }
{
    match op {
        ControlOperator::Unreachable => visitor.visit_unreachable(),
        ControlOperator::Nop => visitor.visit_nop(),
        ControlOperator::Block { blockty } => visitor.visit_block(blockty),
        ControlOperator::Loop { blockty } => visitor.visit_loop(blockty),
        ControlOperator::If { blockty } => visitor.visit_if(blockty),
        ControlOperator::Else => visitor.visit_else(),
        ControlOperator::End => visitor.visit_end(),
        ControlOperator::Br { relative_depth } => visitor.visit_br(relative_depth),
        ControlOperator::BrIf { relative_depth } => visitor.visit_br_if(relative_depth),
        ControlOperator::BrTable { targets } => visitor.visit_br_table(targets),
        ControlOperator::Return => visitor.visit_return(),
        ControlOperator::Call { function_index } => visitor.visit_call(function_index),
        ControlOperator::CallIndirect {
            type_index,
            table_index,
        } => visitor.visit_call_indirect(type_index, table_index),
        ControlOperator::ReturnCall { function_index } => visitor.visit_return_call(function_index),
        ControlOperator::ReturnCallIndirect {
            type_index,
            table_index,
        } => visitor.visit_return_call_indirect(type_index, table_index),
        ControlOperator::CallRef { type_index } => visitor.visit_call_ref(type_index),
        ControlOperator::ReturnCallRef { type_index } => visitor.visit_return_call_ref(type_index),
        ControlOperator::RefAsNonNull => visitor.visit_ref_as_non_null(),
        ControlOperator::BrOnNull { relative_depth } => visitor.visit_br_on_null(relative_depth),
        ControlOperator::BrOnNonNull { relative_depth } => visitor.visit_br_on_non_null(
            relative_depth,
        ),
    }
}

/// Tells a visitor of this operator that takes operands of any type, by the visit that belongs to it.
#[inline]
pub fn visit_parametric<'a, V: VisitControl<'a>>(
    visitor: &mut V,
    op: ParametricOperator,
) -> V::Output
    ensures { V.visits visitor.old (Op.Parametric (parametric_of op)) result visitor.new }
{
    match op {
        ParametricOperator::Drop => visitor.visit_drop(),
        ParametricOperator::Select => visitor.visit_select(),
        ParametricOperator::TypedSelect { ty } => visitor.visit_typed_select(ty),
        ParametricOperator::TypedSelectMulti { tys } => visitor.visit_typed_select_multi(tys),
    }
}

/// Tells a visitor of this operator of exceptions, by the visit that belongs to it.
#[inline]
pub fn visit_exception<'a, V: VisitControl<'a>>(visitor: &mut V, op: ExceptionOperator) -> V::Output
    ensures { V.visits visitor.old (Op.Exception (exception_of op)) result visitor.new }
{
    match op {
        ExceptionOperator::Try { blockty } => visitor.visit_try(blockty),
        ExceptionOperator::Catch { tag_index } => visitor.visit_catch(tag_index),
        ExceptionOperator::Throw { tag_index } => visitor.visit_throw(tag_index),
        ExceptionOperator::Rethrow { relative_depth } => visitor.visit_rethrow(relative_depth),
        ExceptionOperator::ThrowRef => visitor.visit_throw_ref(),
        ExceptionOperator::Delegate { relative_depth } => visitor.visit_delegate(relative_depth),
        ExceptionOperator::CatchAll => visitor.visit_catch_all(),
        ExceptionOperator::TryTable { try_table } => visitor.visit_try_table(try_table),
    }
}

/// Tells a visitor of this operator of continuations, by the visit that belongs to it.
#[inline]
pub fn visit_continuation<'a, V: VisitControl<'a>>(
    visitor: &mut V,
    op: ContinuationOperator,
) -> V::Output
    ensures { V.visits visitor.old (Op.Continuation (continuation_of op)) result visitor.new }
{
    match op {
        ContinuationOperator::ContNew { cont_type_index } => visitor.visit_cont_new(
            cont_type_index,
        ),
        ContinuationOperator::ContBind {
            argument_index,
            result_index,
        } => visitor.visit_cont_bind(argument_index, result_index),
        ContinuationOperator::Suspend { tag_index } => visitor.visit_suspend(tag_index),
        ContinuationOperator::Resume {
            cont_type_index,
            resume_table,
        } => visitor.visit_resume(cont_type_index, resume_table),
        ContinuationOperator::ResumeThrow {
            cont_type_index,
            tag_index,
            resume_table,
        } => visitor.visit_resume_throw(cont_type_index, tag_index, resume_table),
        ContinuationOperator::ResumeThrowRef {
            cont_type_index,
            resume_table,
        } => visitor.visit_resume_throw_ref(cont_type_index, resume_table),
        ContinuationOperator::Switch {
            cont_type_index,
            tag_index,
        } => visitor.visit_switch(cont_type_index, tag_index),
    }
}
