//! Visits of operators of control, of those that take operands of any type, of exceptions and of continuations.

use crate::{AnswerAs, ValidatingVisitor};
use wasm_operator_validator_control::{
    WasmModuleResources, check_block, check_br, check_br_if, check_br_on_non_null,
    check_br_on_null, check_br_table, check_call, check_call_indirect, check_call_ref, check_catch,
    check_catch_all, check_delegate, check_else, check_end, check_if, check_loop, check_nop,
    check_ref_as_non_null, check_rethrow, check_return, check_return_call,
    check_return_call_indirect, check_return_call_ref, check_throw, check_throw_ref, check_try,
    check_try_table, check_unreachable,
};
use wasm_operator_validator_memory::{
    check_drop, check_select, check_typed_select, check_typed_select_multi,
};
use wasm_operator_validator_proposals::{
    check_cont_bind, check_cont_new, check_resume, check_resume_throw, check_resume_throw_ref,
    check_suspend, check_switch,
};
use wasm_operators_visit::{BlockType, BrTable, ResumeTable, TryTable};
use wasm_operators_visit_operator::VisitControl;
use wasm_types::ValType;

impl<'a, 'v, 'r, R: WasmModuleResources, A: AnswerAs> VisitControl<'a>
    for ValidatingVisitor<'v, 'r, R, A> {
    fn visit_unreachable(&mut self) -> A::Output {
        let checked = check_unreachable(self.inner, self.resources);
        self.tell(checked)
    }

    fn visit_nop(&mut self) -> A::Output {
        let checked = check_nop(self.inner, self.resources);
        self.tell(checked)
    }

    fn visit_block(&mut self, blockty: BlockType) -> A::Output {
        let checked = check_block(self.inner, self.resources, blockty);
        self.tell(checked)
    }

    fn visit_loop(&mut self, blockty: BlockType) -> A::Output {
        let checked = check_loop(self.inner, self.resources, blockty);
        self.tell(checked)
    }

    fn visit_if(&mut self, blockty: BlockType) -> A::Output {
        let checked = check_if(self.inner, self.resources, blockty);
        self.tell(checked)
    }

    fn visit_else(&mut self) -> A::Output {
        let checked = check_else(self.inner, self.resources);
        self.tell(checked)
    }

    fn visit_end(&mut self) -> A::Output {
        let checked = check_end(self.inner, self.resources);
        self.tell(checked)
    }

    fn visit_br(&mut self, relative_depth: u32) -> A::Output {
        let checked = check_br(self.inner, self.resources, relative_depth);
        self.tell(checked)
    }

    fn visit_br_if(&mut self, relative_depth: u32) -> A::Output {
        let checked = check_br_if(self.inner, self.resources, relative_depth);
        self.tell(checked)
    }

    fn visit_br_table(&mut self, targets: BrTable<'a>) -> A::Output {
        let checked = check_br_table(self.inner, self.resources, &targets);
        self.tell(checked)
    }

    fn visit_return(&mut self) -> A::Output {
        let checked = check_return(self.inner, self.resources);
        self.tell(checked)
    }

    fn visit_call(&mut self, function_index: u32) -> A::Output {
        let checked = check_call(self.inner, self.resources, function_index);
        self.tell(checked)
    }

    fn visit_call_indirect(&mut self, type_index: u32, table_index: u32) -> A::Output {
        let checked = check_call_indirect(self.inner, self.resources, type_index, table_index);
        self.tell(checked)
    }

    fn visit_return_call(&mut self, function_index: u32) -> A::Output {
        let checked = check_return_call(self.inner, self.resources, function_index);
        self.tell(checked)
    }

    fn visit_return_call_indirect(&mut self, type_index: u32, table_index: u32) -> A::Output {
        let checked = check_return_call_indirect(
            self.inner,
            self.resources,
            type_index,
            table_index,
        );
        self.tell(checked)
    }

    fn visit_call_ref(&mut self, type_index: u32) -> A::Output {
        let checked = check_call_ref(self.inner, self.resources, type_index);
        self.tell(checked)
    }

    fn visit_return_call_ref(&mut self, type_index: u32) -> A::Output {
        let checked = check_return_call_ref(self.inner, self.resources, type_index);
        self.tell(checked)
    }

    fn visit_ref_as_non_null(&mut self) -> A::Output {
        let checked = check_ref_as_non_null(self.inner, self.resources);
        self.tell(checked)
    }

    fn visit_br_on_null(&mut self, relative_depth: u32) -> A::Output {
        let checked = check_br_on_null(self.inner, self.resources, relative_depth);
        self.tell(checked)
    }

    fn visit_br_on_non_null(&mut self, relative_depth: u32) -> A::Output {
        let checked = check_br_on_non_null(self.inner, self.resources, relative_depth);
        self.tell(checked)
    }

    fn visit_drop(&mut self) -> A::Output {
        let checked = check_drop(self.inner, self.resources);
        self.tell(checked)
    }

    fn visit_select(&mut self) -> A::Output {
        let checked = check_select(self.inner, self.resources);
        self.tell(checked)
    }

    fn visit_typed_select(&mut self, ty: ValType) -> A::Output {
        let checked = check_typed_select(self.inner, self.resources, ty);
        self.tell(checked)
    }

    fn visit_typed_select_multi(&mut self, tys: Vec<ValType>) -> A::Output {
        let checked = check_typed_select_multi(self.inner, self.resources, tys.as_slice());
        self.tell(checked)
    }

    fn visit_try(&mut self, blockty: BlockType) -> A::Output {
        let checked = check_try(self.inner, self.resources, blockty);
        self.tell(checked)
    }

    fn visit_catch(&mut self, tag_index: u32) -> A::Output {
        let checked = check_catch(self.inner, self.resources, tag_index);
        self.tell(checked)
    }

    fn visit_throw(&mut self, tag_index: u32) -> A::Output {
        let checked = check_throw(self.inner, self.resources, tag_index);
        self.tell(checked)
    }

    fn visit_rethrow(&mut self, relative_depth: u32) -> A::Output {
        let checked = check_rethrow(self.inner, self.resources, relative_depth);
        self.tell(checked)
    }

    fn visit_throw_ref(&mut self) -> A::Output {
        let checked = check_throw_ref(self.inner, self.resources);
        self.tell(checked)
    }

    fn visit_delegate(&mut self, relative_depth: u32) -> A::Output {
        let checked = check_delegate(self.inner, self.resources, relative_depth);
        self.tell(checked)
    }

    fn visit_catch_all(&mut self) -> A::Output {
        let checked = check_catch_all(self.inner, self.resources);
        self.tell(checked)
    }

    fn visit_try_table(&mut self, try_table: TryTable) -> A::Output {
        let checked = check_try_table(self.inner, self.resources, &try_table);
        self.tell(checked)
    }

    fn visit_cont_new(&mut self, cont_type_index: u32) -> A::Output {
        let checked = check_cont_new(self.inner, self.resources, cont_type_index);
        self.tell(checked)
    }

    fn visit_cont_bind(&mut self, argument_index: u32, result_index: u32) -> A::Output {
        let checked = check_cont_bind(self.inner, self.resources, argument_index, result_index);
        self.tell(checked)
    }

    fn visit_suspend(&mut self, tag_index: u32) -> A::Output {
        let checked = check_suspend(self.inner, self.resources, tag_index);
        self.tell(checked)
    }

    fn visit_resume(&mut self, cont_type_index: u32, resume_table: ResumeTable) -> A::Output {
        let checked = check_resume(self.inner, self.resources, cont_type_index, &resume_table);
        self.tell(checked)
    }

    fn visit_resume_throw(
        &mut self,
        cont_type_index: u32,
        tag_index: u32,
        resume_table: ResumeTable,
    ) -> A::Output {
        let checked = check_resume_throw(
            self.inner,
            self.resources,
            cont_type_index,
            tag_index,
            &resume_table,
        );
        self.tell(checked)
    }

    fn visit_resume_throw_ref(
        &mut self,
        cont_type_index: u32,
        resume_table: ResumeTable,
    ) -> A::Output {
        let checked = check_resume_throw_ref(
            self.inner,
            self.resources,
            cont_type_index,
            &resume_table,
        );
        self.tell(checked)
    }

    fn visit_switch(&mut self, cont_type_index: u32, tag_index: u32) -> A::Output {
        let checked = check_switch(self.inner, self.resources, cont_type_index, tag_index);
        self.tell(checked)
    }
}
