//! What lends a visitor.

use crate::control::VisitControl;
use crate::{BlockType, BrTable, Lender, ResumeTable, TryTable};
use wasm_types::ValType;

/// What lends a visitor is told by the visits of what it lends.
impl<'a, P: Lender> VisitControl<'a> for P
where
    P::Lent: VisitControl<'a>,
{
    fn visit_unreachable(&mut self) -> Self::Output {
        self.lend().visit_unreachable()
    }

    fn visit_nop(&mut self) -> Self::Output {
        self.lend().visit_nop()
    }

    fn visit_block(&mut self, blockty: BlockType) -> Self::Output {
        self.lend().visit_block(blockty)
    }

    fn visit_loop(&mut self, blockty: BlockType) -> Self::Output {
        self.lend().visit_loop(blockty)
    }

    fn visit_if(&mut self, blockty: BlockType) -> Self::Output {
        self.lend().visit_if(blockty)
    }

    fn visit_else(&mut self) -> Self::Output {
        self.lend().visit_else()
    }

    fn visit_end(&mut self) -> Self::Output {
        self.lend().visit_end()
    }

    fn visit_br(&mut self, relative_depth: u32) -> Self::Output {
        self.lend().visit_br(relative_depth)
    }

    fn visit_br_if(&mut self, relative_depth: u32) -> Self::Output {
        self.lend().visit_br_if(relative_depth)
    }

    fn visit_br_table(&mut self, targets: BrTable<'a>) -> Self::Output {
        self.lend().visit_br_table(targets)
    }

    fn visit_return(&mut self) -> Self::Output {
        self.lend().visit_return()
    }

    fn visit_call(&mut self, function_index: u32) -> Self::Output {
        self.lend().visit_call(function_index)
    }

    fn visit_call_indirect(&mut self, type_index: u32, table_index: u32) -> Self::Output {
        self.lend().visit_call_indirect(type_index, table_index)
    }

    fn visit_return_call(&mut self, function_index: u32) -> Self::Output {
        self.lend().visit_return_call(function_index)
    }

    fn visit_return_call_indirect(&mut self, type_index: u32, table_index: u32) -> Self::Output {
        self.lend()
            .visit_return_call_indirect(type_index, table_index)
    }

    fn visit_call_ref(&mut self, type_index: u32) -> Self::Output {
        self.lend().visit_call_ref(type_index)
    }

    fn visit_return_call_ref(&mut self, type_index: u32) -> Self::Output {
        self.lend().visit_return_call_ref(type_index)
    }

    fn visit_ref_as_non_null(&mut self) -> Self::Output {
        self.lend().visit_ref_as_non_null()
    }

    fn visit_br_on_null(&mut self, relative_depth: u32) -> Self::Output {
        self.lend().visit_br_on_null(relative_depth)
    }

    fn visit_br_on_non_null(&mut self, relative_depth: u32) -> Self::Output {
        self.lend().visit_br_on_non_null(relative_depth)
    }

    fn visit_drop(&mut self) -> Self::Output {
        self.lend().visit_drop()
    }

    fn visit_select(&mut self) -> Self::Output {
        self.lend().visit_select()
    }

    fn visit_typed_select(&mut self, ty: ValType) -> Self::Output {
        self.lend().visit_typed_select(ty)
    }

    fn visit_typed_select_multi(&mut self, tys: Vec<ValType>) -> Self::Output {
        self.lend().visit_typed_select_multi(tys)
    }

    fn visit_try(&mut self, blockty: BlockType) -> Self::Output {
        self.lend().visit_try(blockty)
    }

    fn visit_catch(&mut self, tag_index: u32) -> Self::Output {
        self.lend().visit_catch(tag_index)
    }

    fn visit_throw(&mut self, tag_index: u32) -> Self::Output {
        self.lend().visit_throw(tag_index)
    }

    fn visit_rethrow(&mut self, relative_depth: u32) -> Self::Output {
        self.lend().visit_rethrow(relative_depth)
    }

    fn visit_throw_ref(&mut self) -> Self::Output {
        self.lend().visit_throw_ref()
    }

    fn visit_delegate(&mut self, relative_depth: u32) -> Self::Output {
        self.lend().visit_delegate(relative_depth)
    }

    fn visit_catch_all(&mut self) -> Self::Output {
        self.lend().visit_catch_all()
    }

    fn visit_try_table(&mut self, try_table: TryTable) -> Self::Output {
        self.lend().visit_try_table(try_table)
    }

    fn visit_cont_new(&mut self, cont_type_index: u32) -> Self::Output {
        self.lend().visit_cont_new(cont_type_index)
    }

    fn visit_cont_bind(&mut self, argument_index: u32, result_index: u32) -> Self::Output {
        self.lend().visit_cont_bind(argument_index, result_index)
    }

    fn visit_suspend(&mut self, tag_index: u32) -> Self::Output {
        self.lend().visit_suspend(tag_index)
    }

    fn visit_resume(&mut self, cont_type_index: u32, resume_table: ResumeTable) -> Self::Output {
        self.lend().visit_resume(cont_type_index, resume_table)
    }

    fn visit_resume_throw(
        &mut self,
        cont_type_index: u32,
        tag_index: u32,
        resume_table: ResumeTable,
    ) -> Self::Output {
        self.lend()
            .visit_resume_throw(cont_type_index, tag_index, resume_table)
    }

    fn visit_resume_throw_ref(
        &mut self,
        cont_type_index: u32,
        resume_table: ResumeTable,
    ) -> Self::Output {
        self.lend()
            .visit_resume_throw_ref(cont_type_index, resume_table)
    }

    fn visit_switch(&mut self, cont_type_index: u32, tag_index: u32) -> Self::Output {
        self.lend().visit_switch(cont_type_index, tag_index)
    }
}
