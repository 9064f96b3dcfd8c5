//! One visit for each operator.

ghost use Rattle.wasm_operators_enums.specs.Op.{Op, ParametricTree, ExceptionTree, ContinuationTree};
ghost use Rattle.wasm_operators_immediates.specs.Tables.{catch_table_of};
ghost use Rattle.wasm_operators_enums.specs.declared.control.ControlOperator.{ControlOperator};

use crate::{BlockType, BrTable, ResumeTable, TryTable, Visitor};
use wasm_types::ValType;

/// A visit for each operator of control, of exceptions and of continuations, and for what takes operands of any type
/// (WebAssembly 3.0, structure, control instructions and parametric instructions).
pub trait VisitControl<'a>: Visitor<'a> {
    /// Visits `unreachable`.
    fn visit_unreachable(&mut self) -> Self::Output
        ensures { Self.visits self.old (Op.Control ControlOperator.Unreachable) result self.new };

    /// Visits `nop`.
    fn visit_nop(&mut self) -> Self::Output
        ensures { Self.visits self.old (Op.Control ControlOperator.Nop) result self.new };

    /// Visits `block`.
    fn visit_block(&mut self, blockty: BlockType) -> Self::Output
        ensures { Self.visits self.old (Op.Control (ControlOperator.Block blockty)) result self.new };

    /// Visits `loop`.
    fn visit_loop(&mut self, blockty: BlockType) -> Self::Output
        ensures { Self.visits self.old (Op.Control (ControlOperator.Loop blockty)) result self.new };

    /// Visits `if`.
    fn visit_if(&mut self, blockty: BlockType) -> Self::Output
        ensures { Self.visits self.old (Op.Control (ControlOperator.If blockty)) result self.new };

    /// Visits `else`.
    fn visit_else(&mut self) -> Self::Output
        ensures { Self.visits self.old (Op.Control ControlOperator.Else) result self.new };

    /// Visits `end`.
    fn visit_end(&mut self) -> Self::Output
        ensures { Self.visits self.old (Op.Control ControlOperator.End) result self.new };

    /// Visits `br`.
    fn visit_br(&mut self, relative_depth: u32) -> Self::Output
        ensures { Self.visits self.old (Op.Control (ControlOperator.Br relative_depth)) result self.new };

    /// Visits `br_if`.
    fn visit_br_if(&mut self, relative_depth: u32) -> Self::Output
        ensures { Self.visits self.old (Op.Control (ControlOperator.BrIf relative_depth)) result self.new };

    /// Visits `br_table`.
    fn visit_br_table(&mut self, targets: BrTable<'a>) -> Self::Output
        ensures { Self.visits self.old (Op.Control (ControlOperator.BrTable targets.entry)) result self.new };

    /// Visits `return`.
    fn visit_return(&mut self) -> Self::Output
        ensures { Self.visits self.old (Op.Control ControlOperator.Return) result self.new };

    /// Visits `call`.
    fn visit_call(&mut self, function_index: u32) -> Self::Output
        ensures { Self.visits self.old (Op.Control (ControlOperator.Call function_index)) result self.new };

    /// Visits `call_indirect`.
    fn visit_call_indirect(&mut self, type_index: u32, table_index: u32) -> Self::Output
        ensures { Self.visits self.old (Op.Control (ControlOperator.CallIndirect type_index table_index))
            result self.new };

    /// Visits `return_call`.
    fn visit_return_call(&mut self, function_index: u32) -> Self::Output
        ensures { Self.visits self.old (Op.Control (ControlOperator.ReturnCall function_index)) result self.new };

    /// Visits `return_call_indirect`.
    fn visit_return_call_indirect(&mut self, type_index: u32, table_index: u32) -> Self::Output
        ensures { Self.visits self.old (Op.Control (ControlOperator.ReturnCallIndirect type_index table_index))
            result self.new };

    /// Visits `call_ref`.
    fn visit_call_ref(&mut self, type_index: u32) -> Self::Output
        ensures { Self.visits self.old (Op.Control (ControlOperator.CallRef type_index)) result self.new };

    /// Visits `return_call_ref`.
    fn visit_return_call_ref(&mut self, type_index: u32) -> Self::Output
        ensures { Self.visits self.old (Op.Control (ControlOperator.ReturnCallRef type_index)) result self.new };

    /// Visits `ref.as_non_null`.
    fn visit_ref_as_non_null(&mut self) -> Self::Output
        ensures { Self.visits self.old (Op.Control ControlOperator.RefAsNonNull) result self.new };

    /// Visits `br_on_null`.
    fn visit_br_on_null(&mut self, relative_depth: u32) -> Self::Output
        ensures { Self.visits self.old (Op.Control (ControlOperator.BrOnNull relative_depth)) result self.new };

    /// Visits `br_on_non_null`.
    fn visit_br_on_non_null(&mut self, relative_depth: u32) -> Self::Output
        ensures { Self.visits self.old (Op.Control (ControlOperator.BrOnNonNull relative_depth)) result self.new };

    /// Visits `drop`.
    fn visit_drop(&mut self) -> Self::Output
        ensures { Self.visits self.old (Op.Parametric ParametricTree.Drop) result self.new };

    /// Visits `select`.
    fn visit_select(&mut self) -> Self::Output
        ensures { Self.visits self.old (Op.Parametric ParametricTree.Select) result self.new };

    /// Visits `select` with one type.
    fn visit_typed_select(&mut self, ty: ValType) -> Self::Output
        ensures { Self.visits self.old (Op.Parametric (ParametricTree.TypedSelect ty)) result self.new };

    /// Visits `select` with any other number of types.
    fn visit_typed_select_multi(&mut self, tys: Vec<ValType>) -> Self::Output
        ensures { Self.visits self.old (Op.Parametric (ParametricTree.TypedSelectMulti tys.items)) result self.new };

    /// Visits `try`.
    fn visit_try(&mut self, blockty: BlockType) -> Self::Output
        ensures { Self.visits self.old (Op.Exception (ExceptionTree.Try blockty)) result self.new };

    /// Visits `catch`.
    fn visit_catch(&mut self, tag_index: u32) -> Self::Output
        ensures { Self.visits self.old (Op.Exception (ExceptionTree.Catch tag_index)) result self.new };

    /// Visits `throw`.
    fn visit_throw(&mut self, tag_index: u32) -> Self::Output
        ensures { Self.visits self.old (Op.Exception (ExceptionTree.Throw tag_index)) result self.new };

    /// Visits `rethrow`.
    fn visit_rethrow(&mut self, relative_depth: u32) -> Self::Output
        ensures { Self.visits self.old (Op.Exception (ExceptionTree.Rethrow relative_depth)) result self.new };

    /// Visits `throw_ref`.
    fn visit_throw_ref(&mut self) -> Self::Output
        ensures { Self.visits self.old (Op.Exception ExceptionTree.ThrowRef) result self.new };

    /// Visits `delegate`.
    fn visit_delegate(&mut self, relative_depth: u32) -> Self::Output
        ensures { Self.visits self.old (Op.Exception (ExceptionTree.Delegate relative_depth)) result self.new };

    /// Visits `catch_all`.
    fn visit_catch_all(&mut self) -> Self::Output
        ensures { Self.visits self.old (Op.Exception ExceptionTree.CatchAll) result self.new };

    /// Visits `try_table`.
    fn visit_try_table(&mut self, try_table: TryTable) -> Self::Output
        ensures { Self.visits self.old (Op.Exception (ExceptionTree.TryTable (catch_table_of try_table)))
            result self.new };

    /// Visits `cont.new`.
    fn visit_cont_new(&mut self, cont_type_index: u32) -> Self::Output
        ensures { Self.visits self.old (Op.Continuation (ContinuationTree.ContNew cont_type_index)) result self.new };

    /// Visits `cont.bind`.
    fn visit_cont_bind(&mut self, argument_index: u32, result_index: u32) -> Self::Output
        ensures { Self.visits self.old (Op.Continuation (ContinuationTree.ContBind argument_index result_index))
            result self.new };

    /// Visits `suspend`.
    fn visit_suspend(&mut self, tag_index: u32) -> Self::Output
        ensures { Self.visits self.old (Op.Continuation (ContinuationTree.Suspend tag_index)) result self.new };

    /// Visits `resume`.
    fn visit_resume(&mut self, cont_type_index: u32, resume_table: ResumeTable) -> Self::Output
        ensures { Self.visits self.old (Op.Continuation (ContinuationTree.Resume cont_type_index
            resume_table.handlers.items)) result self.new };

    /// Visits `resume_throw`.
    fn visit_resume_throw(
        &mut self,
        cont_type_index: u32,
        tag_index: u32,
        resume_table: ResumeTable,
    ) -> Self::Output
        ensures { Self.visits self.old (Op.Continuation (ContinuationTree.ResumeThrow cont_type_index tag_index
            resume_table.handlers.items)) result self.new };

    /// Visits `resume_throw_ref`.
    fn visit_resume_throw_ref(
        &mut self,
        cont_type_index: u32,
        resume_table: ResumeTable,
    ) -> Self::Output
        ensures { Self.visits self.old (Op.Continuation (ContinuationTree.ResumeThrowRef cont_type_index
            resume_table.handlers.items)) result self.new };

    /// Visits `switch`.
    fn visit_switch(&mut self, cont_type_index: u32, tag_index: u32) -> Self::Output
        ensures { Self.visits self.old (Op.Continuation (ContinuationTree.Switch cont_type_index tag_index))
            result self.new };
}
